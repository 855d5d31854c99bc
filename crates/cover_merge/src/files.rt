//! The first round: two covering files, one directly after the other.
ghost use Rattle.std.specs.Prelude.{◌≤◌, IfErr, IfOk};
ghost use Rattle.mcb_ends.specs.Causes.{HasCauseWhere};
ghost use Rattle.line_grammar.specs.Reading.{ReadsInput};
ghost use Rattle.covering_file.specs.declared.file_kind.FileKind.TheVariants.{Cover};
ghost use Rattle.covering_file.specs.Faults.{BeginsHeader, WantsMemory, head_refusal, is_head_read};
ghost use Rattle.cover_merge.specs.Rounds.{two_files};

use covering_file::{HeadFault, MAX_NODES, Tree, read_tree};
use line_grammar::end_of_input;
use mcb_ends::{LineReader, Source};
use std::alloc::Global;

/// Reads two covering files of at most `limit` nodes each, to the end of input. Lines are counted through both.
pub fn read_files<S: Source>(
    alloc: Global,
    limit: u32,
    src: &mut S,
) -> Result<(Tree, Tree), HeadFault>
    requires at_least { 1 ≤ limit }
    requires at_most { limit ≤ MAX_NODES }
    ensures reads { ReadsInput (two_files limit) head_refusal (S.left src.old) (S.left src.new) result }
    ensures begins { IfOk result (λ _. BeginsHeader Cover (S.left src.old)) }
    ensures wanting { IfErr result (WantsMemory Cover (S.left src.old)) }
    ensures cause { HasCauseWhere is_head_read (S.faults src.old) (S.faults src.new) result }
{
    let mut lines = LineReader::new();
    let first = read_tree(alloc, limit, &mut lines, src)?;
    let second = read_tree(alloc, limit, &mut lines, src)?;
    end_of_input(&mut lines, src)?;
    Ok((first, second))
}
