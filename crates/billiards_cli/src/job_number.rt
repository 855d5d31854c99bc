ghost use Rattle.std.specs.Prelude.{◌≡◌};
ghost use Rattle.billiards_cli.specs.Jobs.{IsJobNumber, job_number, near_side, far_side};

use crate::number::number;
use std::marker::Model;

// The numbers of the jobs, and both coordinates of the equilateral triangle, in grid steps.
const FIRST: u32 = 1;

const LAST: u32 = 127;

const MIDDLE: u32 = 256;

/// The number of a generated job.
#[derive(Clone, Copy)]
pub(crate) struct JobNumber {
    k: u32,
}

impl Model for JobNumber {
    ghost use Rattle.std.specs.Prelude.{ℕ};
    ghost use Rattle.billiards_cli.specs.Jobs.{IsJobNumber};

    ghost Value = { ℕ };

    ghost view = { λ number. number.k };

    ghost invariant = { λ number. IsJobNumber number.k };

    ghost inverse = { λ k. record { k = k } };
}

impl JobNumber {
    /// The number that a text writes.
    pub(crate) fn read(text: &[u8]) -> Option<JobNumber>
        ensures { result ≡ job_number text.now }
    {
        let k = number(text, LAST)?;
        if k >= FIRST {
            Some(JobNumber { k })
        } else {
            None
        }
    }

    pub(crate) fn get(&self) -> u32
        ensures { result ≡ self.now }
    {
        self.k
    }

    /// Where the two sides along the axes lie, in grid steps.
    pub(crate) fn near_side(&self) -> u32
        ensures { result ≡ near_side self.now }
    {
        MIDDLE + self.k
    }

    /// Where they end.
    pub(crate) fn far_side(&self) -> u32
        ensures value { result ≡ far_side self.now }
        ensures is_number { IsJobNumber self.now }
    {
        MIDDLE - 2 * self.k
    }
}
