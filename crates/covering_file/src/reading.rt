ghost use Rattle.std.specs.Prelude.{◌≡◌, ◌+◌, ◌^◌, ◌≤◌, false, IfOk, IfErr};
ghost use Rattle.mcb_ends.specs.Causes.{HasCauseWhere};
ghost use Rattle.mcb_ends.specs.Reader.{bytes_before};
ghost use Rattle.line_grammar.specs.Reading.{ReadsPart};
ghost use Rattle.covering_file.specs.Faults.{WantsMemory, head_refusal, is_head_read};
ghost use Rattle.covering_file.specs.HeaderPart.{header_part};

use crate::form::FirstLine;
use crate::region::read_region;
use crate::words::read_words;
use crate::{FileKind, HeadFault, Header};
use line_grammar::{Numbered, take};
use mcb_ends::{LineReader, Source};
use rational_polygon::MAX_LEVEL;
use std::alloc::Global;

/// Reads a header, from the first line to the depth. What stands after it is left to the reader.
///
/// `Line` names the first line that offends, by the number that the reader gives it, with its least reason. `Read` comes where
/// the source failed, and `Memory` where there was no memory, after the first line. With each fault the reader stands after the
/// lines before one that is due, and at most 4,096 bytes after them were read. A header has at most 173 lines.
pub fn read_header<S: Source>(
    alloc: Global,
    kind: FileKind,
    lines: &mut LineReader,
    src: &mut S,
) -> Result<Header, HeadFault>
    requires few { lines.old.number ≤ 2 ^ 31 }
    requires reading { lines.old.is_done ≡ false }
    ensures reads { ReadsPart (header_part kind) head_refusal lines.old lines.new (S.left src.old) (S.left src.new) result }
    ensures few { IfOk result (λ _. lines.new.number ≤ lines.old.number + 173) }
    ensures wanting { IfErr result (WantsMemory kind (bytes_before lines.old (S.left src.old))) }
    ensures cause { HasCauseWhere is_head_read (S.faults src.old) (S.faults src.new) result }
{
    let version = take(&FirstLine { kind }, lines, src)?;
    let region = read_region(alloc, version, lines, src)?;
    let words = read_words(alloc, lines, src)?;
    let depth = take(
        &Numbered {
            name: b"depth",
            low: 0,
            high: MAX_LEVEL,
        },
        lines,
        src,
    )?;
    Ok(Header::new(version, region, words, depth).unwrap())
}
