ghost use Rattle.std.specs.Prelude.{◌≡◌};
ghost use Rattle.std.specs.Fmt.{signed_decimal};
ghost use Rattle.mcb_ends.specs.Bytes.{Writes, joined};
ghost use Rattle.mcb_ends.specs.Causes.{HasCause};

use crate::{Decimal, Failed, Sink};
use itoa::Buffer;

/// Writes the whole piece, or a prefix of it and fails. It takes no memory.
pub fn put<K: Sink>(out: &mut K, piece: &[u8]) -> Result<(), Failed>
    ensures text { Writes (K.written out.old) (K.written out.new) result piece.now }
    ensures room { K.room out.new ≡ K.room out.old }
    ensures cause { HasCause (K.faults out.old) (K.faults out.new) result }
{
    let mut at = 0;
    while at < piece.len() {
        at += out.write(&piece[at..])?;
    }
    Ok(())
}

/// Writes the pieces, one after the other.
pub fn put_all<K: Sink>(out: &mut K, pieces: &[&[u8]]) -> Result<(), Failed>
    ensures text { Writes (K.written out.old) (K.written out.new) result (joined pieces.now) }
    ensures room { K.room out.new ≡ K.room out.old }
    ensures cause { HasCause (K.faults out.old) (K.faults out.new) result }
{
    for piece in pieces {
        put(out, piece)?;
    }
    Ok(())
}

/// Writes the canonical decimal text of a number, with `-` before a negative one. It takes no memory.
pub fn put_decimal<K: Sink>(out: &mut K, n: i64) -> Result<(), Failed>
    ensures text { Writes (K.written out.old) (K.written out.new) result (signed_decimal n) }
    ensures room { K.room out.new ≡ K.room out.old }
    ensures cause { HasCause (K.faults out.old) (K.faults out.new) result }
{
    put(out, Decimal::signed(n).digits())
}

/// The same for a number of 128 bits.
pub fn put_wide<K: Sink>(out: &mut K, n: i128) -> Result<(), Failed>
    ensures text { Writes (K.written out.old) (K.written out.new) result (signed_decimal n) }
    ensures room { K.room out.new ≡ K.room out.old }
    ensures cause { HasCause (K.faults out.old) (K.faults out.new) result }
{
    let mut buffer = Buffer::new();
    put(out, buffer.format(n).as_bytes())
}
