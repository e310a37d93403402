use super::*;
use std::process::Abort;
use std::test::Fail;

/// The script of one call, whole, behind what was there.
#[test]
fn one_call(rt: HostRuntime) -> Result<(), Fail> {
    let mut text = Vec::from_slice(rt.alloc(), b"# before\n")?;
    assert!(rt; generate(rt.alloc(), 1, &mut text).is_ok());
    let wanted =
        "# before\nopen 64\nleaf x a,b,c retry=2 backup=50 timeout=400\nleaf y b,c retry=1 backup=-1 timeout=300\n\
         par p fail=2 ok=0 timeout=600 x:index:cat y:same:cat x:split:cat\nsel s retry=1 timeout=-1 p x\n\
         at 10 call 1 p u,v,w\nat 11 reply 1 1#0 0 t\njoin 1\n";
    assert_eq!(rt; text.as_slice(), wanted.as_bytes());
    Ok(())
}
