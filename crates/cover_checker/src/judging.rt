ghost use Rattle.std.specs.Prelude.{◌≡◌, ◌≤◌, false, true, length, IfOk};
ghost use Rattle.mcb_ends.specs.Causes.{HasCauseWhere};
ghost use Rattle.mcb_ends.specs.Reader.{bytes_before};
ghost use Rattle.covering_file.specs.declared.file_kind.FileKind.TheVariants.{Cover};
ghost use Rattle.covering_file.specs.Header.{header_lines};
ghost use Rattle.cover_checker.specs.Verdicts.{IsRightAfter, StopsInTree};

use crate::Verdict;
use crate::tree::take_tree;
use covering_claims::WordTests;
use covering_file::{Header, MAX_NODES};
use line_grammar::LineFault;
use mcb_ends::{Failed, LineReader, Source};
use pi_bounds::Fine;
use std::alloc::Global;

/// Judges a covering file of at most `limit` nodes after its header, line by line, by the tests of the listed words. It stops
/// at the first line that offends, and takes no memory.
pub fn judge<S: Source>(
    alloc: Global,
    header: &Header,
    tests: &mut [WordTests<Fine>],
    limit: u32,
    lines: &mut LineReader,
    src: &mut S,
) -> Result<Verdict, Failed>
    requires at_least { 1 ≤ limit }
    requires at_most { limit ≤ MAX_NODES }
    requires tests { tests.old ≡ header.now.words }
    requires number { lines.old.number ≡ length (header_lines Cover header.now) }
    requires reading { lines.old.is_done ≡ false }
    ensures right { IfOk result (IsRightAfter limit header.now (bytes_before lines.old (S.left src.old))) }
    ensures stops { StopsInTree limit header.now lines.old lines.new (S.left src.old) (S.left src.new) result }
    ensures kept { tests.new ≡ tests.old }
    ensures cause { HasCauseWhere (λ _. true) (S.faults src.old) (S.faults src.new) result }
{
    let words = header.words().len() as u32;
    match take_tree(alloc, header, tests, limit, lines, src) {
        Ok(nodes) => Ok(Verdict::Accepted { nodes, words }),
        Err(LineFault::Line { line, reason }) => Ok(Verdict::Refused { line, reason }),
        Err(LineFault::Read) => Err(Failed),
    }
}
