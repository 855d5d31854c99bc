//! The fourth round: what the nodes of a file claim of their boxes.
ghost use Rattle.std.specs.Prelude.{◌≡◌, ◌≢◌, length, IfOk, IfErr, MatchOption, OnOk};
ghost use Rattle.covering_file.specs.declared.node.Node.TheVariants.{Uncovered};
ghost use Rattle.covering_file.specs.Node.{IsNode};
ghost use Rattle.covering_file.specs.Sound.{ClaimHas};
ghost use Rattle.cover_merge.specs.Rounds.{IsTrueOrOpen, AreTrueOrOpen, IsFalseAfter};

use covering_claims::{WordTests, pass_node, prepare};
use covering_file::{Header, Node, Reason, Tree, Walk};
use pi_bounds::Fine;
use rational_polygon::GridBox;
use std::alloc::{AllocError as OutOfMemory, Global};

// Corners are judged with the slack 2^-36.
const CORNER_BITS: u32 = 36;

/// A claim that fails: how many nodes stand before it, and its reason.
#[derive(Clone, Copy, Debug)]
pub struct FalseClaim {
    pub before: u32,
    pub reason: Reason,
}

/// The first claim of a file's nodes that fails. An uncovered box claims nothing.
pub fn first_false(alloc: Global, file: &Tree) -> Result<Option<FalseClaim>, OutOfMemory>
    ensures { IfOk result (λ found. MatchOption found (AreTrueOrOpen file.now.heading file.now.nodes)
        (λ claim. IsFalseAfter file.now claim.before claim.reason)) }
{
    let mut tests = prepare(alloc, file.header())?;
    Ok(judge_nodes(alloc, file, tests.as_mut_slice()))
}

fn judge_nodes(alloc: Global, file: &Tree, tests: &mut [WordTests<Fine>]) -> Option<FalseClaim>
    requires tests { tests.old ≡ file.now.heading.words }
    ensures judged { MatchOption result (AreTrueOrOpen file.now.heading file.now.nodes)
        (λ claim. IsFalseAfter file.now claim.before claim.reason) }
{
    let nodes = file.nodes();
    let mut walk = Walk::new(alloc, file.header().depth());
    let mut before = 0;
    while let Some(place) = walk.due() {
        let node = nodes[before as usize];
        if let Err(reason) = judge_node(file.header(), tests, place, node) {
            return Some(FalseClaim { before, reason });
        }
        walk.step(node);
        before += 1;
    }
    None
}

// Passes a node whose claim is true, or that claims nothing.
fn judge_node(
    header: &Header,
    tests: &mut [WordTests<Fine>],
    place: GridBox,
    node: Node,
) -> Result<(), Reason>
    requires tests { tests.old ≡ header.now.words }
    requires node { IsNode (length header.now.words) header.now.version node }
    ensures kept { tests.new ≡ tests.old }
    ensures passed { OnOk result (IsTrueOrOpen header.now place node) }
    ensures refused { IfErr result (λ reason. (node ≢ Uncovered) × ClaimHas header.now place node reason) }
{
    match node {
        Node::Uncovered => Ok(()),
        _ => pass_node(header, tests, place, node, CORNER_BITS),
    }
}
