ghost use Rattle.std.specs.Prelude.{◌≡◌, ◌↔◌, IsTrue, codes};
ghost use Rattle.line_grammar.specs.Form.{whole_line};
ghost use Rattle.line_grammar.specs.Text.{named_line};
ghost use Rattle.line_grammar.specs.declared.reason.Reason.TheVariants as reason;
ghost use Rattle.covering_file.specs.Node.{end_line};

use crate::Reason;
use line_grammar::Form;
use mcb_ends::Decimal;

/// The end line of a tree with so many uncovered leaves.
#[derive(Clone, Copy)]
pub struct EndLine {
    pub uncovered: u32,
}

impl Form for EndLine {
    type Value = ();

    ghost form = { λ form. whole_line (end_line form.uncovered) reason.EndLine };

    fn read(&self, line: &[u8]) -> Result<(), Reason> {
        if is_end_line(line, self.uncovered) {
            Ok(())
        } else {
            Err(Reason::EndLine)
        }
    }
}

fn is_end_line(line: &[u8], uncovered: u32) -> bool
    ensures { IsTrue result ↔ (line.now ≡ end_line uncovered) }
{
    match uncovered {
        0 => line == b"end complete".as_slice(),
        _ => is_end_open(line, uncovered),
    }
}

fn is_end_open(line: &[u8], uncovered: u32) -> bool
    ensures { IsTrue result ↔ (line.now ≡ named_line (codes "end open") uncovered) }
{
    let decimal = Decimal::new(u64::from(uncovered));
    match line.strip_prefix(b"end open ") {
        Some(number) => number == decimal.digits(),
        None => false,
    }
}
