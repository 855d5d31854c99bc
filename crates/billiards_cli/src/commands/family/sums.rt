ghost use Rattle.std.specs.Prelude.{◌≡◌, ◌++◌};
ghost use Rattle.mcb_ends.specs.Bytes.{Writes};
ghost use Rattle.mcb_ends.specs.Causes.{HasCause};
ghost use Rattle.billiards_cli.specs.Commands.Family.{sum_text, shifts_text};

use crate::commands::word::shift::write_terms;
use exp_sums::ExpSum;
use mcb_ends::{Decimal, Failed, Sink, put, put_all};
use word_family::Shifts;

/// Writes what tells all shifts of a stable family.
pub(crate) fn write_shifts<K: Sink>(shifts: &Shifts, out: &mut K) -> Result<(), Failed>
    ensures text { Writes (K.written out.old) (K.written out.new) result (shifts_text shifts.now.base shifts.now.step) }
    ensures room { K.room out.new ≡ K.room out.old }
    ensures cause { HasCause (K.faults out.old) (K.faults out.new) result }
{
    put(out, b"stable\n")?;
    write_sum(b"base ", &shifts.base, out)?;
    write_sum(b"step ", &shifts.step, out)?;
    put(out, b"end\n")
}

// Writes a name, how many terms the sum has, and these.
fn write_sum<K: Sink>(name: &[u8], sum: &ExpSum, out: &mut K) -> Result<(), Failed>
    ensures text { Writes (K.written out.old) (K.written out.new) result (sum_text name.now sum.now) }
    ensures room { K.room out.new ≡ K.room out.old }
    ensures cause { HasCause (K.faults out.old) (K.faults out.new) result }
{
    let count = Decimal::new(sum.terms().len() as u64);
    put_all(out, &[name, count.digits(), b"\n"])?;
    write_terms(sum.terms(), out)
}
