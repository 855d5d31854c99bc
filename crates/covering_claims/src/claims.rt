ghost use Rattle.std.specs.Prelude.{◌≡◌, ◌+◌, ◌-◌, ◌≤◌, length, IsTrue, IsFalse};
ghost use Rattle.covering_file.specs.Node.{IsNode};
ghost use Rattle.covering_file.specs.Sound.{IsSoundNode};
ghost use Rattle.covering_file.specs.Sound as sound;
ghost use Rattle.covering_claims.specs.Claims.{slacks_of, PassesNode};

use crate::{WordTests, is_corner_shown, is_shown};
use covering_file::{Header, LEAST_CORNER_LEVEL, Node, Reason};
use directed_fixed::Scale;
use rational_polygon::GridBox;

/// Passes a node that may stand at the box. Else its reason. Corners are judged with the slack `2^-low`.
pub fn pass_node<S: Scale>(
    header: &Header,
    tests: &mut [WordTests<S>],
    place: GridBox,
    node: Node,
    low: u32,
) -> Result<(), Reason>
    requires tests { tests.old ≡ header.now.words }
    requires node { IsNode (length header.now.words) header.now.version node }
    requires low_least { 12 ≤ low }
    requires low_most { low ≤ 40 }
    requires room { low + 8 ≤ S.BITS }
    ensures kept { tests.new ≡ tests.old }
    ensures passed { PassesNode header.now (slacks_of S.LOW_BITS low) (slacks_of S.HIGH_BITS (low - 4)) place node result }
{
    if may_stand(header, tests, place, node, low) {
        Ok(())
    } else {
        Err(reason_of(place, node))
    }
}

/// Whether what the node claims of the box is so. Corners are judged with the slack `2^-low`.
pub fn may_stand<S: Scale>(
    header: &Header,
    tests: &mut [WordTests<S>],
    place: GridBox,
    node: Node,
    low: u32,
) -> bool
    requires tests { tests.old ≡ header.now.words }
    requires node { IsNode (length header.now.words) header.now.version node }
    requires low_least { 12 ≤ low }
    requires low_most { low ≤ 40 }
    requires room { low + 8 ≤ S.BITS }
    ensures kept { tests.new ≡ tests.old }
    ensures sound { IsTrue result → IsSoundNode header.now (slacks_of S.LOW_BITS low) place node }
    ensures refused { IsFalse result → ¬ (IsSoundNode header.now (slacks_of S.HIGH_BITS (low - 4)) place node) }
{
    match node {
        Node::Split => place.level < header.depth(),
        Node::Outside => place.apart_region(header.region()),
        Node::Shown(i) => is_shown(tests, i, place),
        Node::Corner(i) => is_corner_shown(tests, i, place, low),
        Node::Uncovered => false,
    }
}

/// The reason for which a node that may not stand at the box is refused.
pub fn reason_of(place: GridBox, node: Node) -> Reason
    ensures { result ≡ sound.reason_of place node }
{
    match node {
        Node::Split => Reason::SplitTooDeep,
        Node::Outside => Reason::NotApart,
        Node::Corner(_) if place.level < LEAST_CORNER_LEVEL => Reason::TooShallow,
        Node::Shown(_) | Node::Corner(_) => Reason::NotShown,
        Node::Uncovered => Reason::Uncovered,
    }
}
