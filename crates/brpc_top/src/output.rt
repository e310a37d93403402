ghost use Rattle.std.specs.Prelude.{OnOk, OnErr};
ghost use Rattle.std.specs.Io.KnownBytes.{Appends};
ghost use Rattle.rpc_base.specs.Causes.{HasCause};
ghost use Rattle.brpc_top.specs.Answers.{IsPartWritten};

use rpc_base::{Failed, Sink};

/// Writes all the bytes. After a failure a front of them was written.
pub(crate) fn write_all<K: Sink>(sink: &mut K, bytes: &[u8]) -> Result<(), Failed>
    ensures done { OnOk result (Appends (K.held sink.old) (K.held sink.new) bytes.now) }
    ensures part { OnErr result (IsPartWritten (K.held sink.old) (K.held sink.new) bytes.now) }
    ensures cause { HasCause (K.faults sink.old) (K.faults sink.new) result }
{
    let mut done = 0;
    while done < bytes.len() {
        done += sink.write(bytes.split_at(done).1)?;
    }
    Ok(())
}
