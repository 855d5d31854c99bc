//! One step of a reader: the line that is due.
ghost use Rattle.std.specs.Prelude.{◌≡◌, ◌+◌, ◌^◌, ◌<◌, false, []};
ghost use Rattle.mcb_ends.specs.Causes.{HasCauseWhere};
ghost use Rattle.line_grammar.specs.Faults.{refusal_of, is_read};
ghost use Rattle.line_grammar.specs.Form.{IsForm};
ghost use Rattle.line_grammar.specs.Part.{line_part, end_of_text};
ghost use Rattle.line_grammar.specs.Reading.{ReadsPart, ReadsText, StopsAfter};

use crate::form::Form;
use crate::{LineFault, Reason};
use mcb_ends::{Line, LineReader, Source};

/// Takes the due line, and reads it by its form. It takes no memory.
pub fn take<S: Source, F: Form>(
    form: &F,
    lines: &mut LineReader,
    src: &mut S,
) -> Result<F::Value, LineFault>
    requires form { IsForm (F.form form.now) }
    requires few { lines.old.number + 1 < 2 ^ 32 }
    requires reading { lines.old.is_done ≡ false }
    ensures reads { ReadsPart (line_part (F.form form.now)) refusal_of lines.old lines.new (S.left src.old) (S.left src.new) result }
    ensures stops { StopsAfter [] lines.old lines.new (S.left src.old) (S.left src.new) }
    ensures cause { HasCauseWhere is_read (S.faults src.old) (S.faults src.new) result }
{
    let line = lines.number() + 1;
    match lines.next(src)? {
        Line::Text(text) => match form.read(text) {
            Ok(value) => Ok(value),
            Err(reason) => Err(LineFault::Line { line, reason }),
        },
        Line::TooLong => Err(LineFault::Line {
            line,
            reason: Reason::TooLong,
        }),
        Line::CutShort | Line::End => Err(LineFault::Line {
            line,
            reason: Reason::Ends,
        }),
    }
}

/// Takes the end of the input, or refuses what stands there as something after the end of the text. It takes no memory.
pub fn end_of_input<S: Source>(lines: &mut LineReader, src: &mut S) -> Result<(), LineFault>
    requires few { lines.old.number + 1 < 2 ^ 32 }
    requires reading { lines.old.is_done ≡ false }
    ensures reads { ReadsText end_of_text refusal_of lines.old lines.new (S.left src.old) (S.left src.new) result }
    ensures stops { StopsAfter [] lines.old lines.new (S.left src.old) (S.left src.new) }
    ensures cause { HasCauseWhere is_read (S.faults src.old) (S.faults src.new) result }
{
    let line = lines.number() + 1;
    match lines.next(src)? {
        Line::End => Ok(()),
        Line::Text(_) | Line::TooLong | Line::CutShort => Err(LineFault::Line {
            line,
            reason: Reason::EndLine,
        }),
    }
}
