ghost use Rattle.std.specs.Prelude.{◌≡◌};
ghost use Rattle.std.specs.Fmt.{signed_decimal};
ghost use Rattle.mcb_ends.specs.Bytes.{Writes};
ghost use Rattle.mcb_ends.specs.Causes.{HasCause};
ghost use Rattle.billiards_cli.specs.Commands.Word.{shift_text, terms_text, term_line};

use crate::end_line::write_end;
use exp_sums::{ExpSum, Term};
use mcb_ends::{Decimal, Failed, Sink, put, put_all};

/// Writes the terms of a shift, in the order of their directions, and their number.
pub(crate) fn write_shift<K: Sink>(shift: &ExpSum, out: &mut K) -> Result<(), Failed>
    ensures text { Writes (K.written out.old) (K.written out.new) result (shift_text shift.now) }
    ensures room { K.room out.new ≡ K.room out.old }
    ensures cause { HasCause (K.faults out.old) (K.faults out.new) result }
{
    put(out, b"stable\n")?;
    write_terms(shift.terms(), out)?;
    write_end(shift.terms().len(), out)
}

/// Writes terms, one a line.
pub(crate) fn write_terms<K: Sink>(terms: &[Term], out: &mut K) -> Result<(), Failed>
    ensures text { Writes (K.written out.old) (K.written out.new) result (terms_text terms.now) }
    ensures room { K.room out.new ≡ K.room out.old }
    ensures cause { HasCause (K.faults out.old) (K.faults out.new) result }
{
    for term in terms {
        write_term(*term, out)?;
    }
    Ok(())
}

fn write_term<K: Sink>(term: Term, out: &mut K) -> Result<(), Failed>
    ensures text { Writes (K.written out.old) (K.written out.new) result (term_line term) }
    ensures room { K.room out.new ≡ K.room out.old }
    ensures cause { HasCause (K.faults out.old) (K.faults out.new) result }
{
    let m = exponent(term.dir.m);
    let n = exponent(term.dir.n);
    let c = Decimal::signed(term.c);
    put_all(
        out,
        &[m.digits(), b" ", n.digits(), b" ", c.digits(), b"\n"],
    )
}

fn exponent(n: i32) -> Decimal
    ensures { result ≡ signed_decimal n }
{
    Decimal::signed(i64::from(n))
}
