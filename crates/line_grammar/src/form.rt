//! What may stand in a due line.
ghost use Rattle.std.specs.Prelude.{◌≤◌, length};
ghost use Rattle.line_grammar.specs.Form.{LineForm, ReadsAs, whole_line, numbered_line};

use crate::Reason;
use crate::fields::two_fields;
use rat_core::read_decimal;

/// What a due line has to be.
pub trait Form {
    /// What it says.
    type Value;

    /// The lines that say each value, and those that are refused.
    ghost form: { Self → LineForm Self.Value };

    /// Reads the line, or answers the reason for which it is refused.
    fn read(&self, line: &[u8]) -> Result<Self::Value, Reason>
        requires { length line.now ≤ 80 }
        ensures { ReadsAs (form self.now) line.now result };
}

/// This very line. Any other has the reason.
#[derive(Clone, Copy, Debug)]
pub struct Whole<'a> {
    pub text: &'a [u8],
    pub refusal: Reason,
}

/// A name, and a number from `low` to `high`.
#[derive(Clone, Copy, Debug)]
pub struct Numbered<'a> {
    pub name: &'a [u8],
    pub low: u32,
    pub high: u32,
}

impl Form for Whole<'_> {
    type Value = ();

    ghost form = { λ form. whole_line form.text.now form.refusal };

    fn read(&self, line: &[u8]) -> Result<(), Reason> {
        if line == self.text {
            Ok(())
        } else {
            Err(self.refusal)
        }
    }
}

impl Form for Numbered<'_> {
    type Value = u32;

    ghost form = { λ form. numbered_line form.name.now form.low form.high };

    fn read(&self, line: &[u8]) -> Result<u32, Reason> {
        let Some((name, number)) = two_fields(line) else {
            return Err(Reason::OtherLine);
        };
        if name != self.name {
            return Err(Reason::OtherLine);
        }
        match read_decimal(number, self.high) {
            Some(number) if number >= self.low => Ok(number),
            _ => Err(Reason::Number),
        }
    }
}
