ghost use Rattle.std.specs.Prelude.{◌≡◌, ◌+◌, ◌<◌, ◌≤◌, ◌^◌, false, length, IfOk, IfErr};
ghost use Rattle.mcb_ends.specs.Causes.{HasCauseWhere};
ghost use Rattle.line_grammar.specs.Faults.{refusal_of, is_read};
ghost use Rattle.line_grammar.specs.Reading.{FailsPart};
ghost use Rattle.covering_file.specs.CheckClaims.{check_claims};
ghost use Rattle.covering_file.specs.FilePart.{nodes_part};
ghost use Rattle.covering_file.specs.Node.{IsNode};
ghost use Rattle.covering_file.specs.TreeSteps.{JudgesNode, ReadsNode};
ghost use Rattle.cover_checker.specs.Steps.{TakesNodes};

use covering_claims::{WordTests, pass_node};
use covering_file::{Header, MAX_NODES, Node, NodeLine, Reason, Walk};
use line_grammar::{LineFault, take};
use mcb_ends::{LineReader, Source};
use pi_bounds::Fine;
use rational_polygon::GridBox;
use std::alloc::Global;

// Corners are judged with the slack 2^-36.
const CORNER_BITS: u32 = 36;

/// Takes the lines of the nodes after a header, one for each box that is due, until none is. It answers how many there are,
/// and takes no memory.
pub fn take_nodes<S: Source>(
    alloc: Global,
    header: &Header,
    tests: &mut [WordTests<Fine>],
    limit: u32,
    lines: &mut LineReader,
    src: &mut S,
) -> Result<u32, LineFault>
    requires limit { limit ≤ MAX_NODES }
    requires tests { tests.old ≡ header.now.words }
    requires few { lines.old.number ≤ 2 ^ 31 }
    requires reading { lines.old.is_done ≡ false }
    ensures kept { tests.new ≡ tests.old }
    ensures nodes { IfOk result (TakesNodes limit header.now lines.old lines.new (S.left src.old) (S.left src.new)) }
    ensures fails { IfErr result (λ fault. FailsPart (nodes_part check_claims limit header.now).grammar lines.old lines.new
        (S.left src.old) (S.left src.new) (refusal_of fault)) }
    ensures few { IfOk result (λ count. lines.new.number ≡ lines.old.number + count) }
    ensures within { IfOk result (λ count. count ≤ limit) }
    ensures cause { HasCauseWhere is_read (S.faults src.old) (S.faults src.new) result }
{
    let mut walk = Walk::new(alloc, header.depth());
    let mut count = 0;
    while let Some(place) = walk.due() {
        let node = take_node(header, tests, limit, count, place, lines, src)?;
        walk.step(node);
        count += 1;
    }
    Ok(count)
}

// Takes the line of the node for a box, after so many nodes.
fn take_node<S: Source>(
    header: &Header,
    tests: &mut [WordTests<Fine>],
    limit: u32,
    count: u32,
    place: GridBox,
    lines: &mut LineReader,
    src: &mut S,
) -> Result<Node, LineFault>
    requires tests { tests.old ≡ header.now.words }
    requires few { lines.old.number + 1 < 2 ^ 32 }
    requires reading { lines.old.is_done ≡ false }
    ensures kept { tests.new ≡ tests.old }
    ensures node { ReadsNode check_claims limit header.now count place lines.old lines.new (S.left src.old) (S.left src.new) result }
    ensures cause { HasCauseWhere is_read (S.faults src.old) (S.faults src.new) result }
{
    let form = NodeLine {
        words: header.words().len() as u32,
        version: header.version(),
    };
    let node = take(&form, lines, src)?;
    match judge_node(header, tests, limit, count, place, node) {
        Ok(()) => Ok(node),
        Err(reason) => Err(LineFault::Line {
            line: lines.number(),
            reason,
        }),
    }
}

// Passes a node that may stand at the box and is not one too many.
fn judge_node(
    header: &Header,
    tests: &mut [WordTests<Fine>],
    limit: u32,
    count: u32,
    place: GridBox,
    node: Node,
) -> Result<(), Reason>
    requires tests { tests.old ≡ header.now.words }
    requires node { IsNode (length header.now.words) header.now.version node }
    ensures kept { tests.new ≡ tests.old }
    ensures judged { JudgesNode check_claims header.now place node limit count result }
{
    match pass_node(header, tests, place, node, CORNER_BITS) {
        Err(reason) if reason != Reason::TooShallow => Err(reason),
        _ if count >= limit => Err(Reason::TooMany),
        judged => judged,
    }
}
