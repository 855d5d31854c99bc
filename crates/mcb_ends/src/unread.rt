ghost use Rattle.std.specs.Prelude.{◌≡◌, ◌++◌, length, min, take};

use std::marker::Model;

/// Bytes in memory that are handed out from the front.
#[derive(Drop)]
pub(crate) struct Unread {
    bytes: Vec<u8>,
    at: usize,
}

impl Model for Unread {
    ghost use Rattle.std.specs.Prelude.{◌≤◌, List, ℕ, drop, length};

    ghost Value = { List ℕ };

    ghost view = { λ unread. drop unread.at unread.bytes.items };

    ghost invariant = { λ unread. unread.at ≤ length unread.bytes.items };
}

impl Unread {
    pub(crate) fn new(bytes: Vec<u8>) -> Unread
        ensures { result ≡ bytes.items }
    {
        Unread { bytes, at: 0 }
    }

    /// Copies the next bytes, at most so many, to the front of the buffer, and answers how many.
    pub(crate) fn hand_out(&mut self, buf: &mut [u8], most: usize) -> usize
        ensures count { result ≡ min (length buf.new) (min most (length self.old)) }
        ensures bytes { self.old ≡ take result buf.new ++ self.new }
    {
        let rest = &self.bytes[self.at..];
        let count = buf.len().min(most).min(rest.len());
        buf[..count].copy_from_slice(&rest[..count]);
        self.at += count;
        count
    }
}
