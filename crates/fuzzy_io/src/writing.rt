// Writing all of some bytes.
ghost use Rattle.std.specs.Prelude.{OnOk, OnErr};
ghost use Rattle.std.specs.Io.KnownBytes.{Appends};
ghost use Rattle.fuzzy_io.specs.Causes.{CountsFaults, AppendsFront};

use crate::sink::Sink;
use crate::source::Failed;

/// Writes all the bytes. At `Err` a front of them went out.
pub fn write_all<K: Sink>(sink: &mut K, bytes: &[u8]) -> Result<(), Failed>
    ensures ok { OnOk result (Appends (K.holds sink.old) (K.holds sink.new) bytes.now) }
    ensures front { OnErr result (AppendsFront (K.holds sink.old) (K.holds sink.new) bytes.now) }
    ensures cause { CountsFaults (K.faults sink.old) (K.faults sink.new) result }
{
    let mut done = 0;
    while done < bytes.len() {
        done += sink.write(&bytes[done..])?;
    }
    Ok(())
}
