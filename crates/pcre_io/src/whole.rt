//! Writing a text whole.
ghost use Rattle.std.specs.Prelude.{OnErr, OnOk};
ghost use Rattle.std.specs.Io.KnownBytes.{Appends};
ghost use Rattle.pcre_io.specs.Told.{AppendsPrefix};
ghost use Rattle.pcre_io.specs.Causes.{CountsRefusals};

use crate::traits::{IoError, Sink};

/// Writes all the bytes. Where it is refused, a prefix of them was written.
pub fn write_all<O: Sink>(out: &mut O, bytes: &[u8]) -> Result<(), IoError>
    ensures all { OnOk result (Appends (O.tells out.old).held (O.tells out.new).held bytes.now) }
    ensures prefix { OnErr result
        (AppendsPrefix (O.tells out.old).held (O.tells out.new).held bytes.now) }
    ensures cause { CountsRefusals (O.tells out.old).faults (O.tells out.new).faults result }
{
    let mut at = 0;
    while at < bytes.len() {
        at += out.write(&bytes[at..])?;
    }
    Ok(())
}
