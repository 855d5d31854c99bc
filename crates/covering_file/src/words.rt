//! The lines of the words.
ghost use Rattle.std.specs.Prelude.{◌≡◌, ◌+◌, ◌^◌, ◌≤◌, false, IfOk, IfErr};
ghost use Rattle.mcb_ends.specs.Causes.{HasCauseWhere};
ghost use Rattle.line_grammar.specs.Reading.{TakesPart, FailsPart};
ghost use Rattle.covering_file.specs.Faults.{head_refusal, is_head_read};
ghost use Rattle.covering_file.specs.HeaderPart.{words_part, listed_part};

use crate::form::StableWord;
use crate::{HeadFault, MAX_WORDS};
use edge_words::Word;
use line_grammar::{Numbered, take};
use mcb_ends::{LineReader, OutOfMemory, Source};
use std::alloc::Global;

/// Reads the lines from the count of the words to the last word.
pub(crate) fn read_words<S: Source>(
    alloc: Global,
    lines: &mut LineReader,
    src: &mut S,
) -> Result<Vec<Word>, HeadFault>
    requires few { lines.old.number ≤ 2 ^ 31 + 200 }
    requires reading { lines.old.is_done ≡ false }
    ensures words { IfOk result (λ words. TakesPart words_part lines.old lines.new (S.left src.old) (S.left src.new) words.items) }
    ensures fails { IfErr result (λ fault. FailsPart words_part.grammar lines.old lines.new
        (S.left src.old) (S.left src.new) (head_refusal fault)) }
    ensures cause { HasCauseWhere is_head_read (S.faults src.old) (S.faults src.new) result }
{
    let count = take(
        &Numbered {
            name: b"words",
            low: 1,
            high: MAX_WORDS,
        },
        lines,
        src,
    )?;
    read_listed(alloc, count, lines, src)
}

// Reads so many words.
fn read_listed<S: Source>(
    alloc: Global,
    count: u32,
    lines: &mut LineReader,
    src: &mut S,
) -> Result<Vec<Word>, HeadFault>
    requires count { count ≤ MAX_WORDS }
    requires few { lines.old.number ≤ 2 ^ 31 + 201 }
    requires reading { lines.old.is_done ≡ false }
    ensures words { IfOk result (λ words. TakesPart (listed_part count) lines.old lines.new (S.left src.old) (S.left src.new) words.items) }
    ensures fails { IfErr result (λ fault. FailsPart (listed_part count).grammar lines.old lines.new
        (S.left src.old) (S.left src.new) (head_refusal fault)) }
    ensures cause { HasCauseWhere is_head_read (S.faults src.old) (S.faults src.new) result }
{
    let mut words = Vec::new(alloc);
    'words: for _ in 0..count {
        let word = take(&StableWord { alloc }, lines, src)?;
        words.push(word).map_err(OutOfMemory::from)?;
    }
    Ok(words)
}
