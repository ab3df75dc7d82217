//! Writing all of some bytes.

ghost use Rattle.std.specs.Prelude.{OnOk, OnErr};
ghost use Rattle.std.specs.Io.KnownBytes.{Appends};
ghost use Rattle.io_edge.specs.Bytes.{joined};
ghost use Rattle.io_edge.specs.Told.{AppendsPrefix};
ghost use Rattle.io_edge.specs.Faults.{HasCause};

use crate::outside::{Failed, Sink};

/// Writes all bytes, in as many calls as it takes.
///
/// # Errors
/// `Failed` only where the sink's count of faults rose. The sink then took the first of the bytes.
pub fn write_all<K: Sink>(out: &mut K, bytes: &[u8]) -> Result<(), Failed>
    ensures ok { OnOk result (Appends (K.taken out.old) (K.taken out.new) bytes.now) }
    ensures err { OnErr result (AppendsPrefix (K.taken out.old) (K.taken out.new) bytes.now) }
    ensures cause { HasCause (K.faults out.old) (K.faults out.new) result }
{
    let mut at = 0;
    while at < bytes.len() {
        let (_, rest) = bytes.split_at(at);
        at += out.write(rest)?;
    }
    Ok(())
}

/// Writes all bytes of the pieces, one piece after another.
///
/// # Errors
/// `Failed` only where the sink's count of faults rose. The sink then took the first of the bytes.
pub fn write_pieces<K: Sink>(out: &mut K, pieces: &[&[u8]]) -> Result<(), Failed>
    ensures ok { OnOk result (Appends (K.taken out.old) (K.taken out.new) (joined pieces.now)) }
    ensures err { OnErr result (AppendsPrefix (K.taken out.old) (K.taken out.new)
        (joined pieces.now)) }
    ensures cause { HasCause (K.faults out.old) (K.faults out.new) result }
{
    for piece in pieces {
        write_all(out, piece)?;
    }
    Ok(())
}
