ghost use Rattle.std.specs.Prelude.{IfErr};
ghost use Rattle.mcb_ends.specs.Causes.{HasCauseWhere};
ghost use Rattle.line_grammar.specs.Reading.{ReadsInput};
ghost use Rattle.covering_file.specs.Faults.{WantsMemory, head_refusal, is_head_read};
ghost use Rattle.covering_file.specs.HeaderPart.{job_part};

use crate::reading::read_header;
use crate::{FileKind, HeadFault, Header, Reason};
use line_grammar::{Whole, end_of_input, take};
use mcb_ends::{LineReader, Source};
use std::alloc::Global;

/// Reads a whole job, up to the end of input.
///
/// `Line` names the first line that offends, with its least reason. `Read` comes where the source failed, and `Memory` where
/// there was no memory, after the first line. With each fault at most 4,096 bytes after the lines before one that is due were
/// read.
pub fn read_job<S: Source>(alloc: Global, src: &mut S) -> Result<Header, HeadFault>
    ensures reads { ReadsInput job_part head_refusal (S.left src.old) (S.left src.new) result }
    ensures wanting { IfErr result (WantsMemory FileKind.Job (S.left src.old)) }
    ensures cause { HasCauseWhere is_head_read (S.faults src.old) (S.faults src.new) result }
{
    let mut lines = LineReader::new();
    let header = read_header(alloc, FileKind::Job, &mut lines, src)?;
    take(
        &Whole {
            text: b"end",
            refusal: Reason::EndLine,
        },
        &mut lines,
        src,
    )?;
    end_of_input(&mut lines, src)?;
    Ok(header)
}
