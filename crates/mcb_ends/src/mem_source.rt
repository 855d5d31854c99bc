ghost use Rattle.std.specs.Prelude.{◌-◌, ◌^◌, ◌<◌, ◌≤◌};

use crate::calls::Calls;
use crate::unread::Unread;
use crate::{Failed, Source};

/// A source in memory. It hands out at most `piece` bytes in a call, and fails exactly in the calls
/// whose numbers, counted from 1, are listed.
#[derive(Drop)]
pub struct MemSource {
    unread: Unread,
    piece: usize,
    calls: Calls,
    ghost positive: { 0 < piece },
    ghost counted: { calls.faults ≤ 2 ^ 64 - 1 },
}

impl MemSource {
    ghost use Rattle.std.specs.Prelude.{◌≡◌, [], ◌<◌};
    ghost use Rattle.mcb_ends.specs.MemSource.{source_left, source_piece, source_calls};

    pub fn new(bytes: Vec<u8>, piece: usize, fails: Vec<u32>) -> MemSource
        requires { 0 < piece }
        ensures left { source_left result ≡ bytes.items }
        ensures piece { source_piece result ≡ piece }
        ensures calls { source_calls result ≡ record { fails = fails.items; made = 0; faults = 0 } }
    {
        MemSource {
            unread: Unread::new(bytes),
            piece,
            calls: Calls::new(fails),
        }
    }

    /// How often it has failed.
    pub fn faults(&self) -> u64
        ensures { result ≡ (source_calls self.now).faults }
    {
        self.calls.faults()
    }
}

impl Source for MemSource {
    ghost use Rattle.std.specs.Prelude.{◌≡◌, ◌↔◌, ◌-◌, ◌^◌, ◌≤◌, Some, length, min, IfOk, IsErr, OnErr, Contains};
    ghost use Rattle.std.specs.Io.KnownBytes.{ReadConsumes};
    ghost use Rattle.mcb_ends.specs.Calls.{CountsCall};
    ghost use Rattle.mcb_ends.specs.Causes.{HasCause};
    ghost use Rattle.mcb_ends.specs.MemSource.{source_left, source_piece, source_calls};

    ghost left = { λ source. Some (source_left source) };

    ghost faults = { λ source. (source_calls source).faults };

    ghost counted = { λ source. source.counted };

    /// Hands out as many bytes as the buffer, the piece and what is left allow.
    fn read(&mut self, buf: &mut [u8]) -> Result<usize, Failed>
        ensures bound { IfOk result (λ n. n ≤ length buf.new) }
        ensures bytes { ReadConsumes (Some (source_left self.old)) (Some (source_left self.new)) result buf.new }
        ensures buffer { OnErr result (buf.new ≡ buf.old) }
        ensures cause { HasCause (source_calls self.old).faults (source_calls self.new).faults result }

        ensures count { IfOk result (λ n. n ≡ min (length buf.new)
            (min (source_piece self.old) (length (source_left self.old)))) }
        ensures calls { CountsCall (source_calls self.old) (source_calls self.new) result }
        ensures listed { IsErr result
            ↔ Contains (source_calls self.old).fails (source_calls self.new).made }
        ensures piece { source_piece self.new ≡ source_piece self.old }
    {
        self.calls.begin()?;
        Ok(self.unread.hand_out(buf, self.piece))
    }
}
