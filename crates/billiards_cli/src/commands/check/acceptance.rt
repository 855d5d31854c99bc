ghost use Rattle.std.specs.Prelude.{◌≡◌};
ghost use Rattle.mcb_ends.specs.Bytes.{Writes};
ghost use Rattle.mcb_ends.specs.Causes.{HasCause};
ghost use Rattle.billiards_cli.specs.Commands.Check.{accepted_text};

use mcb_ends::{Decimal, Failed, Sink, put_all};

/// Writes that a covering file is accepted, with how many nodes its tree has and how many words it lists.
pub(crate) fn write_acceptance<K: Sink>(nodes: u32, words: u32, out: &mut K) -> Result<(), Failed>
    ensures text { Writes (K.written out.old) (K.written out.new) result (accepted_text nodes words) }
    ensures room { K.room out.new ≡ K.room out.old }
    ensures cause { HasCause (K.faults out.old) (K.faults out.new) result }
{
    let node_digits = Decimal::new(u64::from(nodes));
    let word_digits = Decimal::new(u64::from(words));
    put_all(
        out,
        &[
            b"accepted nodes=",
            node_digits.digits(),
            b" words=",
            word_digits.digits(),
            b"\n",
        ],
    )
}
