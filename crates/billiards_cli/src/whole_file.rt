//! An input that is a covering file: what the commands that judge no box of it share.
ghost use Rattle.std.specs.Prelude.{IfErr};
ghost use Rattle.mcb_ends.specs.Causes.{HasCauseWhere};
ghost use Rattle.line_grammar.specs.Reading.{ReadsInput};
ghost use Rattle.covering_file.specs.Faults.{WantsMemory, head_refusal, is_head_read};
ghost use Rattle.covering_file.specs.declared.file_kind.FileKind.TheVariants.{Cover};
ghost use Rattle.billiards_cli.specs.WholeFile.{file_input};

use covering_file::{HeadFault, MAX_NODES, Tree, read_tree};
use line_grammar::end_of_input;
use mcb_ends::{LineReader, Source};
use std::alloc::Global;

/// Reads a covering file of at most 2,000,000 nodes. Nothing may stand after it. No box is judged.
///
/// An error is the first line that offends, a source that fails, or want of memory.
pub(crate) fn read_file<S: Source>(alloc: Global, src: &mut S) -> Result<Tree, HeadFault>
    ensures reads { ReadsInput file_input head_refusal (S.left src.old) (S.left src.new) result }
    ensures wanting { IfErr result (WantsMemory Cover (S.left src.old)) }
    ensures cause { HasCauseWhere is_head_read (S.faults src.old) (S.faults src.new) result }
{
    let mut lines = LineReader::new();
    let tree = read_tree(alloc, MAX_NODES, &mut lines, src)?;
    end_of_input(&mut lines, src)?;
    Ok(tree)
}
