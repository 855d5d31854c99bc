ghost use Rattle.std.specs.Prelude.{◌≡◌, ℕ, List, MatchOption};
ghost use Rattle.word_family.specs.Family.{Parts};
ghost use Rattle.billiards_cli.specs.Commands.Family.{part_text, part_texts, SpellsFamily};

use std::marker::Model;
use word_family::Family;

/// The arguments that are to be the parts of a family.
#[derive(Drop)]
pub(crate) struct FamilyArgument<'a> {
    first: &'a [u8],
    middle: &'a [u8],
    last: &'a [u8],
}

// The digits of the parts.
impl<'a> Model for FamilyArgument<'a> {
    ghost use Rattle.word_family.specs.Family.{Parts};

    ghost Value = { Parts };

    ghost view = { λ a. record { first = a.first.now; middle = a.middle.now; last = a.last.now } };
}

impl<'a> FamilyArgument<'a> {
    pub(crate) fn new(first: &'a [u8], middle: &'a [u8], last: &'a [u8]) -> FamilyArgument<'a>
        ensures { result ≡ part_texts first.now middle.now last.now }
    {
        FamilyArgument {
            first: part(first),
            middle: part(middle),
            last: part(last),
        }
    }

    /// Reads the family, be it stable or not. It takes no memory.
    pub(crate) fn read(&self) -> Option<Family>
        ensures { MatchOption result (¬ ((f : Parts) × SpellsFamily self.now f)) (λ family. SpellsFamily self.now family) }
    {
        match Family::read(self.first, self.middle, self.last) {
            Ok(family) => Some(family),
            Err(_) => None,
        }
    }
}

// The digits of a part, of which `-` stands for none.
fn part<'a>(argument: &'a [u8]) -> &'a [u8]
    ensures { result.now ≡ part_text argument.now }
{
    if argument == b"-".as_slice() {
        &argument[..0]
    } else {
        argument
    }
}
