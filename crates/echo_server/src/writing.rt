ghost use Rattle.std.specs.Prelude.{◌≡◌, ◌≤◌, OnOk, OnErr};
ghost use Rattle.std.specs.Io.KnownBytes.{append_known};
ghost use Rattle.rpc_base.specs.Causes.{HasCause};
ghost use Rattle.echo_server.specs.Ends.{IsPart};

use rpc_base::{Failed, WireOut};
use std::sync::Wait;

/// Writes all the bytes. After a failure a front of them was written. It may wait.
pub fn write_all<R: Wait, O: WireOut>(rt: &R, wire: &mut O, bytes: &[u8]) -> Result<(), Failed>
    ensures done { OnOk result (O.given wire.new ≡ append_known (O.given wire.old) bytes.now) }
    ensures part { OnErr result (IsPart (O.given wire.old) (O.given wire.new) bytes.now) }
    ensures closed { O.closed wire.new ≡ O.closed wire.old }
    ensures cause { HasCause (O.faults wire.old) (O.faults wire.new) result }
{
    let mut done = 0;
    while done < bytes.len() {
        done += wire.write(rt, bytes.split_at(done).1)?;
    }
    Ok(())
}
