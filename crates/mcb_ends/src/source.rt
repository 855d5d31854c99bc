ghost use Rattle.std.specs.Prelude.{◌≡◌, ◌-◌, ◌^◌, ◌≤◌, List, Option, ℕ, length, IfOk, OnErr};
ghost use Rattle.std.specs.Io.KnownBytes.{ReadConsumes};
ghost use Rattle.mcb_ends.specs.Causes.{HasCause};

use crate::Failed;

/// Where bytes come from.
pub trait Source {
    /// The bytes that it has left, where it tells them.
    ghost left: { Self → Option (List ℕ) };

    /// How often it has failed. This never falls.
    ghost faults: { Self → ℕ };

    /// Reads the next bytes into the front of the buffer, and answers how many. In a buffer that is
    /// not empty, 0 is the end of input. At `Failed` nothing was taken from what is left, and the
    /// buffer is as it was.
    fn read(&mut self, buf: &mut [u8]) -> Result<usize, Failed>
        ensures bound { IfOk result (λ n. n ≤ length buf.new) }
        ensures bytes { ReadConsumes (left self.old) (left self.new) result buf.new }
        ensures buffer { OnErr result (buf.new ≡ buf.old) }
        ensures cause { HasCause (faults self.old) (faults self.new) result };

    /// The count fits a `u64`.
    ghost counted: { (source : Self) → faults source ≤ 2 ^ 64 - 1 };
}
