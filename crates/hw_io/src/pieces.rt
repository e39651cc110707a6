//! Writing to a sink until it has taken all.
ghost use Rattle.std.specs.{Prelude.{OnOk, OnErr}, Io.KnownBytes.{Appends}};
ghost use Rattle.hw_io.specs.{Faults.{HasCause, IsWantCounted}, Sinks.{AppendsPrefix}};

use crate::outside::{IoFault, Sink};

/// Writes all of the bytes, piece by piece.
///
/// After an error the sink has taken what it had taken and a prefix of the bytes.
pub fn write_all<S: Sink>(sink: &mut S, bytes: &[u8]) -> Result<(), IoFault>
    ensures ok { OnOk result (Appends (S.taken sink.old) (S.taken sink.new) bytes.now) }
    ensures err { OnErr result (AppendsPrefix (S.taken sink.old) (S.taken sink.new) bytes.now) }
    ensures cause { HasCause (S.faults sink.old) (S.faults sink.new) result }
    ensures want { IsWantCounted (S.wants sink.old) (S.wants sink.new) result }
{
    let mut done = 0;
    while done < bytes.len() {
        done += sink.write(&bytes[done..])?;
    }
    Ok(())
}
