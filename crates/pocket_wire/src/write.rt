ghost use Rattle.std.specs.Prelude.{◌≡◌, OnOk, OnErr};
ghost use Rattle.std.specs.Io.KnownBytes.{Appends};
ghost use Rattle.pocket_types.specs.Causes.{HasCause, StaysUntold};
ghost use Rattle.pocket_wire.specs.Outside.{AppendsFront};

use crate::source::Sink;
use pocket_types::Failed;

/// Writes all of the bytes. After a fault the sink took a front of them.
pub fn write_all<O: Sink>(sink: &mut O, bytes: &[u8]) -> Result<(), Failed>
    ensures all { OnOk result (Appends (O.taken sink.old) (O.taken sink.new) bytes.now) }
    ensures front { OnErr result (AppendsFront (O.taken sink.old) (O.taken sink.new) bytes.now) }
    ensures untold { StaysUntold (O.taken sink.old) (O.taken sink.new) }
    ensures cause { HasCause (O.faults sink.old) (O.faults sink.new) result }
    ensures apart { O.untouched sink.new ≡ O.untouched sink.old }
{
    let mut at = 0;
    while at < bytes.len() {
        at += sink.write(&bytes[at..])?;
    }
    Ok(())
}
