ghost use Rattle.std.specs.Prelude.{◌≡◌, ◌-◌, ◌^◌, ◌<◌, ◌≤◌, List, Option, ℕ, length, IfOk};
ghost use Rattle.std.specs.Io.KnownBytes.{WriteAppends};
ghost use Rattle.mcb_ends.specs.Bytes.{IsHonest};
ghost use Rattle.mcb_ends.specs.Causes.{HasCause};

use crate::Failed;

/// Where bytes go.
pub trait Sink {
    /// The bytes that it took, where it tells them.
    ghost written: { Self → Option (List ℕ) };

    /// How often it has failed. This never falls.
    ghost faults: { Self → ℕ };

    /// How many bytes it takes in all before it may fail, where it tells that.
    ghost room: { Self → Option ℕ };

    /// Takes the first bytes of the piece, and answers how many: of a piece that is not empty at
    /// least one. At `Failed` it took none.
    fn write(&mut self, piece: &[u8]) -> Result<usize, Failed>
        ensures bound { IfOk result (λ n. n ≤ length piece.now) }
        ensures some { IfOk result (λ n. 0 < length piece.now → 0 < n) }
        ensures bytes { WriteAppends (written self.old) (written self.new) result piece.now }
        ensures room { room self.new ≡ room self.old }
        ensures cause { HasCause (faults self.old) (faults self.new) result };

    /// The count fits a `u64`.
    ghost counted: { (sink : Self) → faults sink ≤ 2 ^ 64 - 1 };

    /// One that tells its room tells its bytes, and has failed only where they fill the room.
    ghost honest: { (sink : Self) → IsHonest (room sink) (written sink) (faults sink) };
}
