ghost use Rattle.std.specs.Prelude.{◌≡◌, ◌+◌, ◌<◌, ◌≤◌, ◌^◌, ◌↔◌, false, [], length, IfOk, IfErr, IsTrue};
ghost use Rattle.mcb_ends.specs.Causes.{HasCauseWhere};
ghost use Rattle.mcb_ends.specs.Reader.{bytes_before};
ghost use Rattle.line_grammar.specs.Faults.{is_read};
ghost use Rattle.line_grammar.specs.Reading.{TakesPart, FailsPart, ReadsPart, StopsAfter};
ghost use Rattle.covering_file.specs.declared.file_kind.FileKind.TheVariants.{Cover};
ghost use Rattle.covering_file.specs.Faults.{WantsMemory, head_refusal, is_head_read};
ghost use Rattle.covering_file.specs.FilePart.{nodes_part};
ghost use Rattle.covering_file.specs.TreeFile.{HasLevelFor, RefusesLevel, level_claims, level_reason, tree_file_part};
ghost use Rattle.covering_file.specs.TreeSteps.{JudgesNode, ReadsNode};

use crate::form::NodeLine;
use crate::tree::end_line::EndLine;
use crate::tree::{Tree, count_uncovered};
use crate::{
    FileKind, HeadFault, Header, LEAST_CORNER_LEVEL, MAX_NODES, Node, Reason, Walk, read_header,
};
use line_grammar::{LineFault, take};
use mcb_ends::{LineReader, OutOfMemory, Source};
use rational_polygon::GridBox;
use std::alloc::Global;

/// Reads a covering file with a tree of at most `limit` nodes, from its first line to its end line. What stands after it is left
/// to the reader. No box is judged, and uncovered leaves are read.
///
/// `Line` names the first line that offends, by the number that the reader gives it, with its least reason. `Read` comes where the
/// source failed, and `Memory` where there was no memory, after the first line. With each fault the reader stands after the lines
/// before one that is due, and at most 4,096 bytes after them were read.
pub fn read_tree<S: Source>(
    alloc: Global,
    limit: u32,
    lines: &mut LineReader,
    src: &mut S,
) -> Result<Tree, HeadFault>
    requires at_least { 1 ≤ limit }
    requires at_most { limit ≤ MAX_NODES }
    requires few { lines.old.number ≤ 2 ^ 31 }
    requires reading { lines.old.is_done ≡ false }
    ensures reads { ReadsPart (tree_file_part limit) head_refusal lines.old lines.new (S.left src.old) (S.left src.new) result }
    ensures few { IfOk result (λ _. lines.new.number ≤ lines.old.number + 174 + limit) }
    ensures wanting { IfErr result (WantsMemory Cover (bytes_before lines.old (S.left src.old))) }
    ensures cause { HasCauseWhere is_head_read (S.faults src.old) (S.faults src.new) result }
{
    let header = read_header(alloc, FileKind::Cover, lines, src)?;
    let nodes = read_nodes(alloc, &header, limit, lines, src)?;
    let uncovered = count_uncovered(nodes.as_slice());
    take(&EndLine { uncovered }, lines, src)?;
    Ok(Tree { header, nodes })
}

// Reads a node for each box that is due, until none is.
fn read_nodes<S: Source>(
    alloc: Global,
    header: &Header,
    limit: u32,
    lines: &mut LineReader,
    src: &mut S,
) -> Result<Vec<Node>, HeadFault>
    requires limit { limit ≤ MAX_NODES }
    requires few { lines.old.number ≤ 2 ^ 31 + 173 }
    requires reading { lines.old.is_done ≡ false }
    ensures nodes { IfOk result (λ nodes. TakesPart (nodes_part level_claims limit header.now) lines.old lines.new
        (S.left src.old) (S.left src.new) nodes.items) }
    ensures within { IfOk result (λ nodes. length nodes.items ≤ limit) }
    ensures few { IfOk result (λ nodes. lines.new.number ≡ lines.old.number + length nodes.items) }
    ensures fails { IfErr result (λ fault. FailsPart (nodes_part level_claims limit header.now).grammar lines.old lines.new
        (S.left src.old) (S.left src.new) (head_refusal fault)) }
    ensures cause { HasCauseWhere is_head_read (S.faults src.old) (S.faults src.new) result }
{
    let mut walk = Walk::new(alloc, header.depth());
    let mut nodes = Vec::new(alloc);
    while let Some(place) = walk.due() {
        let count = nodes.as_slice().len() as u32;
        let node = take_node(header, limit, count, place, lines, src)?;
        walk.step(node);
        nodes.push(node).map_err(OutOfMemory::from)?;
    }
    Ok(nodes)
}

// Takes the line of the node for a box, after so many nodes.
fn take_node<S: Source>(
    header: &Header,
    limit: u32,
    count: u32,
    place: GridBox,
    lines: &mut LineReader,
    src: &mut S,
) -> Result<Node, LineFault>
    requires few { lines.old.number + 1 < 2 ^ 32 }
    requires reading { lines.old.is_done ≡ false }
    ensures node { ReadsNode level_claims limit header.now count place lines.old lines.new (S.left src.old) (S.left src.new) result }
    ensures stops { StopsAfter [] lines.old lines.new (S.left src.old) (S.left src.new) }
    ensures cause { HasCauseWhere is_read (S.faults src.old) (S.faults src.new) result }
{
    let form = NodeLine {
        words: header.words().len() as u32,
        version: header.version(),
    };
    let node = take(&form, lines, src)?;
    match pass_node(header, limit, count, place, node) {
        Ok(()) => Ok(node),
        Err(reason) => Err(LineFault::Line {
            line: lines.number(),
            reason,
        }),
    }
}

// Passes a node at a level for it that is not one too many.
fn pass_node(
    header: &Header,
    limit: u32,
    count: u32,
    place: GridBox,
    node: Node,
) -> Result<(), Reason>
    ensures { JudgesNode level_claims header.now place node limit count result }
{
    match check_level(header, place, node) {
        Err(reason) if reason != Reason::TooShallow => Err(reason),
        _ if count >= limit => Err(Reason::TooMany),
        checked => checked,
    }
}

// Passes a node at a level for it.
fn check_level(header: &Header, place: GridBox, node: Node) -> Result<(), Reason>
    ensures passed { IfOk result (λ _. HasLevelFor header.now place node) }
    ensures refused { IfErr result (RefusesLevel header.now place node) }
{
    if has_level_for(header, place, node) {
        return Ok(());
    }
    Err(level_reason(node))
}

// Whether the box has a level at which such a node may stand.
fn has_level_for(header: &Header, place: GridBox, node: Node) -> bool
    ensures { IsTrue result ↔ HasLevelFor header.now place node }
{
    match node {
        Node::Split => place.level < header.depth(),
        Node::Corner(_) => place.level >= LEAST_CORNER_LEVEL,
        _ => true,
    }
}

// The reason for which a node is refused at a level that is none for it.
fn level_reason(node: Node) -> Reason
    ensures { result ≡ level_reason node }
{
    match node {
        Node::Corner(_) => Reason::TooShallow,
        _ => Reason::SplitTooDeep,
    }
}
