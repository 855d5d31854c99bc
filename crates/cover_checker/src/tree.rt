ghost use Rattle.std.specs.Prelude.{◌≡◌, ◌≤◌, ◌^◌, false, IfOk, IfErr};
ghost use Rattle.mcb_ends.specs.Causes.{HasCauseWhere};
ghost use Rattle.line_grammar.specs.Faults.{refusal_of, is_read};
ghost use Rattle.line_grammar.specs.Reading.{FailsPart};
ghost use Rattle.cover_checker.specs.Steps.{TakesTree};
ghost use Rattle.cover_checker.specs.Verdicts.{checked_tree};

use crate::nodes::take_nodes;
use covering_claims::WordTests;
use covering_file::{Header, MAX_NODES, Reason};
use line_grammar::{LineFault, Whole, end_of_input, take};
use mcb_ends::{LineReader, Source};
use pi_bounds::Fine;
use std::alloc::Global;

/// Takes the lines after a header to the end of the input: those of the nodes, and the end line of a tree with no uncovered
/// leaf. It answers how many nodes there are, and takes no memory.
pub fn take_tree<S: Source>(
    alloc: Global,
    header: &Header,
    tests: &mut [WordTests<Fine>],
    limit: u32,
    lines: &mut LineReader,
    src: &mut S,
) -> Result<u32, LineFault>
    requires limit { limit ≤ MAX_NODES }
    requires tests { tests.old ≡ header.now.words }
    requires few { lines.old.number ≤ 2 ^ 31 }
    requires reading { lines.old.is_done ≡ false }
    ensures kept { tests.new ≡ tests.old }
    ensures tree { IfOk result (TakesTree limit header.now lines.old (S.left src.old) (S.left src.new)) }
    ensures fails { IfErr result (λ fault. FailsPart (checked_tree limit header.now).grammar lines.old lines.new
        (S.left src.old) (S.left src.new) (refusal_of fault)) }
    ensures cause { HasCauseWhere is_read (S.faults src.old) (S.faults src.new) result }
{
    let count = take_nodes(alloc, header, tests, limit, lines, src)?;
    let complete = Whole {
        text: b"end complete",
        refusal: Reason::EndLine,
    };
    take(&complete, lines, src)?;
    end_of_input(lines, src)?;
    Ok(count)
}
