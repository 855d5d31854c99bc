ghost use Rattle.std.specs.Prelude.{◌≤◌};
ghost use Rattle.mcb_ends.specs.Bytes.{HasGrown, HasGrown-prop};

use crate::{Before, Failed, Sink};
use std::marker::PhantomData;

// How many bytes are gathered at most.
const SIZE: usize = 4096;

/// A sink that gathers bytes in a buffer of 4,096 bytes, and passes them on to its own sink where the
/// buffer is full, and in `flush` and `finish`. It takes no memory. It is not dropped: `finish` gives
/// its sink back.
pub struct Gathered<K: Sink, B: Before> {
    out: K,
    bytes: [u8; SIZE],
    len: usize,
    before: PhantomData<B>,
    ghost within: { len ≤ 4096 },
    ghost grown: { HasGrown B.taken (K.written out) } by { HasGrown-prop B.taken (K.written out) },
}

impl<K: Sink, B: Before> Gathered<K, B> {
    ghost use Rattle.std.specs.Prelude.{◌≡◌, ◌+◌, ◌<◌, ◌≤◌, ◌++◌, [], List, ℕ, length, IsOk, OnOk};
    ghost use Rattle.std.specs.Io.KnownBytes.{Appends, Keeps};
    ghost use Rattle.mcb_ends.specs.Bytes.{Writes};
    ghost use Rattle.mcb_ends.specs.Causes.{HasCause};
    ghost use Rattle.mcb_ends.specs.Gathered.{gathered_sink, gathered_held, gathered_written};

    /// One that holds nothing yet.
    pub fn new(out: K) -> Gathered<K, B>
        requires { K.written out ≡ B.taken }
        ensures sink { gathered_sink result ≡ out }
        ensures held { gathered_held result ≡ [] }
        ensures written { gathered_written K.written result ≡ K.written out }
    {
        Gathered {
            out,
            bytes: [0; SIZE],
            len: 0,
            before: PhantomData,
        }
    }

    /// Passes on all that it holds, or a prefix of it and fails. Where it holds nothing, it leaves its sink alone.
    pub fn flush(&mut self) -> Result<(), Failed>
        ensures written { Keeps (gathered_written K.written self.old) (gathered_written K.written self.new) }
        ensures all { OnOk result (Keeps (gathered_written K.written self.old) (K.written (gathered_sink self.new))) }
        ensures idle { gathered_held self.old ≡ [] → IsOk result × (gathered_sink self.new ≡ gathered_sink self.old) }
        ensures room { K.room (gathered_sink self.new) ≡ K.room (gathered_sink self.old) }
        ensures cause { HasCause (K.faults (gathered_sink self.old)) (K.faults (gathered_sink self.new)) result }
    {
        while self.len > 0 {
            self.pass_on()?;
        }
        Ok(())
    }

    /// Passes on all that it holds, or a prefix of it and fails, and gives its sink back. So of the
    /// text that was written from the start its sink has all, or a prefix. Where it holds nothing, it gives its sink
    /// back as it was.
    pub fn finish(mut self) -> (K, Result<(), Failed>)
        ensures text { (text : List ℕ) → Appends B.taken (gathered_written K.written self) text
            → Writes B.taken (K.written result.0) result.1 text }
        ensures idle { gathered_held self ≡ [] → (result.0 ≡ gathered_sink self) × IsOk result.1 }
        ensures room { K.room result.0 ≡ K.room (gathered_sink self) }
        ensures cause { HasCause (K.faults (gathered_sink self)) (K.faults result.0) result.1 }
    {
        let result = self.flush();
        let Gathered {
            out,
            bytes: _,
            len: _,
            before: _,
        } = self;
        (out, result)
    }

    // Passes on the first bytes that it holds, as many as one call of its sink takes.
    fn pass_on(&mut self) -> Result<(), Failed>
        ensures written { Keeps (gathered_written K.written self.old) (gathered_written K.written self.new) }
        ensures fewer { OnOk result (0 < self.old.len → self.new.len < self.old.len) }
        ensures room { K.room (gathered_sink self.new) ≡ K.room (gathered_sink self.old) }
        ensures cause { HasCause (K.faults (gathered_sink self.old)) (K.faults (gathered_sink self.new)) result }
    {
        let held = &self.bytes[..self.len];
        let count = self.out.write(held)?;
        self.bytes.copy_within(count..self.len, 0);
        self.len -= count;
        Ok(())
    }

    // Holds one piece more.
    fn hold(&mut self, piece: &[u8])
        requires { length (gathered_held self.old) + length piece.now ≤ 4096 }
        ensures held { gathered_held self.new ≡ gathered_held self.old ++ piece.now }
        ensures sink { gathered_sink self.new ≡ gathered_sink self.old }
    {
        let end = self.len + piece.len();
        let bytes = &mut self.bytes[..];
        bytes[self.len..end].copy_from_slice(piece);
        self.len = end;
    }
}

impl<K: Sink, B: Before> Sink for Gathered<K, B> {
    ghost use Rattle.mcb_ends.specs.Gathered.{gathered_sink, gathered_held, gathered_written};
    ghost use Rattle.mcb_ends.specs.Room.{IsHonest-append_known};

    ghost written = { gathered_written K.written };

    ghost faults = { λ gathered. K.faults (gathered_sink gathered) };

    ghost room = { λ gathered. K.room (gathered_sink gathered) };

    ghost counted = { λ gathered. K.counted (gathered_sink gathered) };

    ghost honest = { λ gathered. let sink = gathered_sink gathered in
        IsHonest-append_known (K.room sink) (K.written sink) (K.faults sink) (gathered_held gathered) (K.honest sink) };

    /// Holds the first bytes of the piece, as many as there is space for.
    fn write(&mut self, piece: &[u8]) -> Result<usize, Failed> {
        if self.len == SIZE {
            self.pass_on()?;
        }
        let count = piece.len().min(SIZE - self.len);
        self.hold(&piece[..count]);
        Ok(count)
    }
}
