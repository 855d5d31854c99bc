ghost use Rattle.std.specs.Prelude.{◌≡◌, ◌↔◌, [], Contains, IsErr, IsTrue};

use crate::Failed;
use std::marker::Model;

/// The calls of a source or a sink in memory: those that are to fail, how many there were, and how
/// many failed. Calls are counted from 1.
#[derive(Drop)]
pub(crate) struct Calls {
    fails: Vec<u32>,
    made: u64,
    faults: u64,
}

impl Model for Calls {
    ghost use Rattle.std.specs.Prelude.{◌-◌, ◌^◌, ◌≤◌};
    ghost use Rattle.mcb_ends.specs.Calls.{CallCounts};

    ghost Value = { CallCounts };

    ghost view = { λ c. record { fails = c.fails.items; made = c.made; faults = c.faults } };

    ghost invariant = { λ c. c.faults ≤ 2 ^ 64 - 1 };
}

impl Calls {
    ghost use Rattle.std.specs.Prelude.{◌-◌, ◌^◌, ◌≤◌};
    ghost use Rattle.mcb_ends.specs.Calls.{CountsCall};
    ghost use Rattle.mcb_ends.specs.Causes.{next_count};

    pub(crate) fn new(fails: Vec<u32>) -> Calls
        ensures fails { result.fails ≡ fails.items }
        ensures made { result.made ≡ 0 }
        ensures faults { result.faults ≡ 0 }
    {
        Calls {
            fails,
            made: 0,
            faults: 0,
        }
    }

    pub(crate) fn faults(&self) -> u64
        ensures { result ≡ self.now.faults }
    {
        self.faults
    }

    /// Counts a call. It fails exactly where its number is listed.
    pub(crate) fn begin(&mut self) -> Result<(), Failed>
        ensures counts { CountsCall self.old self.new result }
        ensures listed { IsErr result ↔ Contains self.old.fails self.new.made }
        ensures counted { self.new.faults ≤ 2 ^ 64 - 1 }
    {
        self.made = self.made.saturating_add(1);
        if is_listed(&self.fails, self.made) {
            return Err(self.fail());
        }
        Ok(())
    }

    /// Counts a fault.
    pub(crate) fn fail(&mut self) -> Failed
        ensures fails { self.new.fails ≡ self.old.fails }
        ensures made { self.new.made ≡ self.old.made }
        ensures faults { self.new.faults ≡ next_count self.old.faults }
        ensures counted { self.new.faults ≤ 2 ^ 64 - 1 }
    {
        self.faults = self.faults.saturating_add(1);
        Failed
    }
}

fn is_listed(fails: &[u32], call: u64) -> bool
    ensures { IsTrue result ↔ Contains fails.now call }
{
    fails.iter().any(|number| u64::from(*number) == call)
}
