ghost use Rattle.std.specs.Prelude.{◌≡◌, ◌≤◌, ℕ, List, Some, IfOk, IsErrOf};
ghost use Rattle.mcb_ends.specs.Causes.{HasCauseWhere};
ghost use Rattle.covering_file.specs.declared.file_kind.FileKind.TheVariants.{Cover};
ghost use Rattle.covering_file.specs.Faults.{BeginsHeader};
ghost use Rattle.covering_file.specs.Verdicts.{IsSureFile};
ghost use Rattle.cover_checker.specs.Verdicts.{IsRightFor, Covers, StopsAt, IsAcceptance, is_check_read};

use crate::{CheckFault, Verdict, judge};
use covering_claims::prepare;
use covering_file::{FileKind, HeadFault, MAX_NODES, read_header};
use mcb_ends::{LineReader, Source};
use std::alloc::Global;

/// Judges a covering file of at most `limit` nodes, line by line. It stops at the first line that offends. Memory is taken by
/// the header and the tests of its words alone.
pub fn check<S: Source>(alloc: Global, limit: u32, src: &mut S) -> Result<Verdict, CheckFault>
    requires at_least { 1 ≤ limit }
    requires at_most { limit ≤ MAX_NODES }
    ensures right { IfOk result (IsRightFor limit (S.left src.old)) }
    ensures covered { IfOk result (Covers limit (S.left src.old)) }
    ensures stops { StopsAt limit (S.left src.old) (S.left src.new) result }
    ensures cause { HasCauseWhere is_check_read (S.faults src.old) (S.faults src.new) result }

    // Memory is wanted only after the first line.
    ensures wanting { IsErrOf result CheckFault.Memory → BeginsHeader Cover (S.left src.old) }

    // A file whose tree is sure is not refused.
    ensures complete { (bytes : List ℕ) → S.left src.old ≡ Some bytes → IsSureFile limit bytes → IfOk result IsAcceptance }
{
    let mut lines = LineReader::new();
    let header = match read_header(alloc, FileKind::Cover, &mut lines, src) {
        Ok(header) => header,
        Err(HeadFault::Line { line, reason }) => return Ok(Verdict::Refused { line, reason }),
        Err(HeadFault::Read) => return Err(CheckFault::Read),
        Err(HeadFault::Memory) => return Err(CheckFault::Memory),
    };
    let Ok(mut tests) = prepare(alloc, &header) else {
        return Err(CheckFault::Memory);
    };
    match judge(alloc, &header, tests.as_mut_slice(), limit, &mut lines, src) {
        Ok(verdict) => Ok(verdict),
        Err(_) => Err(CheckFault::Read),
    }
}
