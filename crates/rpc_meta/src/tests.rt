ghost use Rattle.std.specs.Prelude.{IfOk};
ghost use Rattle.rpc_meta.specs.Meta.Spelling.{IsWritable};

use super::*;
use rpc_base::Bytes;
use std::alloc::Global;
use std::process::Abort;
use std::test::*;

/// A correlation id of more than 32 bits.
const ID: Option<i64> = Some(4294967298);

/// The meta of a request of `rpc.Echo`, method `Echo`.
fn request(alloc: Global, log_id: Option<i64>, correlation: Option<i64>) -> Result<Meta, Fail>
    ensures { IfOk result IsWritable }
{
    let service = Vec::from_slice(alloc, "rpc.Echo".as_bytes())?;
    let method = Vec::from_slice(alloc, "Echo".as_bytes())?;
    Ok(Meta {
        request: Some(RequestMeta {
            service: Bytes::of(service),
            method: Bytes::of(method),
            log_id,
        }),
        response: None,
        compress: None,
        correlation,
        attachment: None,
    })
}

/// The meta of a reply.
fn reply(code: Option<i32>, text: Option<Bytes>, correlation: Option<i64>) -> Meta
    ensures { IsWritable result }
{
    Meta {
        request: None,
        response: Some(ResponseMeta { code, text }),
        compress: None,
        correlation,
        attachment: None,
    }
}

/// A meta of numbers alone.
fn numbers(compress: Option<i32>, attachment: Option<i32>) -> Meta {
    Meta {
        request: None,
        response: None,
        compress,
        correlation: None,
        attachment,
    }
}

fn read(rt: &impl Abort, alloc: Global, bytes: &[u8]) -> Result<Meta, MetaFault> {
    assert!(rt; bytes.len() < 100);
    read_meta(alloc, bytes)
}

/// Bytes that are read as the meta beside them.
#[test]
fn metas(rt: HostRuntime) -> Result<(), Fail> {
    let alloc = rt.alloc();
    let no = Bytes::of(Vec::from_slice(alloc, b"no")?);
    let rows: [(&[u8], Meta); 10] = [
        (b"", numbers(None, None)),
        // A reply, and the same with an unknown field 99 and the fields in falling order.
        (
            b"\x12\x02\x08\x00\x20\x82\x80\x80\x80\x10",
            reply(Some(0), None, ID),
        ),
        (
            b"\x98\x06\x01\x20\x82\x80\x80\x80\x10\x12\x02\x08\x00",
            reply(Some(0), None, ID),
        ),
        // A request, and the same with a log id in two pieces, of which the later name wins.
        (
            b"\x0a\x10\x0a\x08rpc.Echo\x12\x04Echo\x20\x82\x80\x80\x80\x10",
            request(alloc, None, ID)?,
        ),
        (
            b"\x0a\x05\x0a\x01x\x18\x05\x0a\x10\x0a\x08rpc.Echo\x12\x04Echo",
            request(alloc, Some(5), None)?,
        ),
        // The last of a repeated number, needless zero groups, and a known number of another type.
        (
            b"\x18\x07\x18\x81\x80\x00\x28\x05\x1a\x01x",
            numbers(Some(1), Some(5)),
        ),
        // The low 32 bits of a number, and all 64.
        (
            b"\x12\x06\x08\x85\x80\x80\x80\x10",
            reply(Some(5), None, None),
        ),
        (
            b"\x12\x00\x20\xff\xff\xff\xff\xff\xff\xff\xff\xff\x01",
            reply(None, None, Some(-1)),
        ),
        // Values of eight and of four bytes are skipped.
        (
            b"\x11\x01\x02\x03\x04\x05\x06\x07\x08\x15\x01\x02\x03\x04",
            numbers(None, None),
        ),
        (b"\x12\x04\x12\x02no", reply(None, Some(no), None)),
    ];
    for (bytes, meta) in rows {
        assert!(&rt; read(&rt, alloc, bytes) == Ok(meta), "{bytes:?}");
    }
    Ok(())
}

/// Bytes that aren't a meta, and their first fault.
#[test]
fn faults(rt: HostRuntime) {
    let rows: [(&[u8], MetaFault); 13] = [
        (b"\x20\x82", MetaFault::Cut(0)),
        (b"\x18\x01\x80", MetaFault::Cut(2)),
        (b"\x0a\x04\x0a\x01x", MetaFault::Cut(0)),
        // In a submessage it is its own end that counts.
        (b"\x0a\x03\x0a\x02x\x18\x01", MetaFault::Cut(2)),
        (
            b"\x20\xff\xff\xff\xff\xff\xff\xff\xff\xff\xff",
            MetaFault::LongVarint(0),
        ),
        (b"\x0b\x00", MetaFault::WireType(0)),
        (b"\x00\x01", MetaFault::WireType(0)),
        // Number 536,870,911 is the greatest.
        (
            b"\xf8\xff\xff\xff\x0f\x01\x80\x80\x80\x80\x10\x01",
            MetaFault::WireType(6),
        ),
        (b"\x0a\x03\x0a\x01\xff", MetaFault::BadText(2)),
        // The first fault from the left, and a name that a later one would replace.
        (b"\x0a\x06\x0a\x01\xff\x0a\x01x\x0b", MetaFault::BadText(2)),
        (b"\x0a\x05\x0a\x01x\x18\x80\x00", MetaFault::Cut(5)),
        (
            b"\x28\xff\xff\xff\xff\xff\xff\xff\xff\xff\x01",
            MetaFault::Range(0),
        ),
        (
            b"\x18\x00\x28\x80\x80\x80\x80\x08\x28\x01",
            MetaFault::Range(2),
        ),
    ];
    for (bytes, fault) in rows {
        assert!(&rt; read(&rt, rt.alloc(), bytes) == Err(fault), "{bytes:?}");
    }
}

/// What is appended for a meta.
fn written(alloc: Global, meta: &Meta) -> Result<Vec<u8>, Fail>
    requires { IsWritable meta.now }
{
    let mut to = Vec::from_slice(alloc, b">")?;
    write_meta(meta, &mut to)?;
    Ok(to)
}

#[test]
fn spellings(rt: HostRuntime) -> Result<(), Fail> {
    let alloc = rt.alloc();
    let asked = written(alloc, &request(alloc, None, ID)?)?;
    assert_eq!(&rt;
        asked.as_slice(),
        b">\x0a\x10\x0a\x08rpc.Echo\x12\x04Echo\x20\x82\x80\x80\x80\x10".as_slice()
    );
    let done = written(alloc, &reply(Some(0), None, ID))?;
    assert_eq!(&rt;
        done.as_slice(),
        b">\x12\x02\x08\x00\x20\x82\x80\x80\x80\x10".as_slice()
    );
    let failed = written(alloc, &reply(Some(-1), None, None))?;
    assert_eq!(&rt;
        failed.as_slice(),
        b">\x12\x0b\x08\xff\xff\xff\xff\xff\xff\xff\xff\xff\x01".as_slice()
    );
    Ok(())
}

#[test]
fn codes(rt: HostRuntime) {
    for (code, told) in [(0, 0), (1, 1), (65535, 65535), (65536, 2002), (-1, 2002)] {
        assert_eq!(&rt; reply_code(&reply(Some(code), None, None)), told);
    }
    assert_eq!(&rt; reply_code(&reply(None, None, None)), 0);
    assert_eq!(&rt; reply_code(&numbers(None, None)), 0);
    // The code -1 as it comes from the wire.
    let bytes = b"\x12\x0b\x08\xff\xff\xff\xff\xff\xff\xff\xff\xff\x01";
    let told = match read(&rt, rt.alloc(), bytes) {
        Ok(meta) => reply_code(&meta),
        Err(_) => 0,
    };
    assert_eq!(&rt; told, 2002);
}

/// What may be written, and in how many bytes.
#[test]
fn sizes(rt: HostRuntime) -> Result<(), Fail> {
    let bad = Vec::from_slice(rt.alloc(), b"\xff")?;
    let mut named = request(rt.alloc(), None, ID)?;
    assert!(&rt; is_writable(&named));
    assert_eq!(&rt; spelled_len(&named), 24);
    named.request = Some(RequestMeta {
        service: Bytes::of(Vec::new(rt.alloc())),
        method: Bytes::of(bad),
        log_id: None,
    });
    assert!(&rt; !is_writable(&named));
    assert!(&rt; is_writable(&numbers(Some(-1), Some(0))));
    assert!(&rt; !is_writable(&numbers(None, Some(-1))));
    assert_eq!(&rt; spelled_len(&numbers(Some(-1), Some(128))), 14);
    assert_eq!(&rt; spelled_len(&numbers(None, None)), 0);
    Ok(())
}

/// The laws are called once.
#[test]
fn laws() {
    names_no_memory();
    reads_its_spelling();
}
