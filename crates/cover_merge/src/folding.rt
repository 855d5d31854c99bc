ghost use Rattle.std.specs.Prelude.{◌≡◌, ◌^◌, ◌<◌, ◌≤◌, ◌↔◌, List, [], ◌∷◌, ◌++◌, take, length, IfOk, IsTrue, MatchOption};
ghost use Rattle.rational_polygon.specs.Square.{unit_square};
ghost use Rattle.rational_polygon.specs.declared.TheConstants.{MAX_LEVEL};
ghost use Rattle.covering_file.specs.declared.node.Node.TheVariants.{Shown};
ghost use Rattle.covering_file.specs.Tree.{Tree, preorder};
ghost use Rattle.cover_merge.specs.Fold.{IsFold};
ghost use Rattle.cover_merge.specs.Parts.{StandsFrom, SplitsAbove, FoldsFrom, Joins};

use covering_claims::{WordTests, first_shown};
use covering_file::Node;
use pi_bounds::Coarse;
use rational_polygon::GridBox;
use std::alloc::{AllocError as OutOfMemory, Global};

// A part that was folded: the place behind its nodes, and whether its fold is a leaf that is shown.
#[derive(Clone, Copy, Debug)]
pub struct Part {
    pub end: usize,
    pub is_shown: bool,
}

/// The nodes of a fold of the tree that has these nodes, over the unit square. The words are those of the tests.
pub fn fold(
    alloc: Global,
    nodes: &[Node],
    tests: &mut [WordTests<Coarse>],
) -> Result<Vec<Node>, OutOfMemory>
    requires few { length tests.old < 2 ^ 32 }
    requires tree { (o : Tree) × (preorder o ≡ nodes.now) × SplitsAbove MAX_LEVEL unit_square o }
    ensures kept { tests.new ≡ tests.old }
    ensures folded { IfOk result (λ folded. (o : Tree) → preorder o ≡ nodes.now → (r : Tree) × IsFold tests.old unit_square o r × (preorder r ≡ folded.items)) }
{
    let mut folded = Vec::new(alloc);
    fold_part(nodes, 0, GridBox::default(), tests, &mut folded)?;
    Ok(folded)
}

// Puts the nodes of a fold of the tree that stands from `start` on behind the others. It goes down at most as many levels as
// there are.
fn fold_part(
    nodes: &[Node],
    start: usize,
    place: GridBox,
    tests: &mut [WordTests<Coarse>],
    folded: &mut Vec<Node>,
) -> Result<Part, OutOfMemory>
    requires few { length tests.old < 2 ^ 32 }
    requires tree { (t : Tree) × StandsFrom nodes.now start t × SplitsAbove MAX_LEVEL place t }
    ensures kept { tests.new ≡ tests.old }
    ensures folded { IfOk result (λ part. FoldsFrom tests.old place nodes.now start part folded.old.items folded.new.items) }
{
    let node = nodes[start];
    let at = folded.len();
    folded.push(node)?;
    match node {
        Node::Split => {}
        Node::Shown(_) => {
            return Ok(Part {
                end: start + 1,
                is_shown: true,
            });
        }
        _ => {
            return Ok(Part {
                end: start + 1,
                is_shown: false,
            });
        }
    }
    let first = fold_part(nodes, start + 1, place.child(0), tests, folded)?;
    let second = fold_part(nodes, first.end, place.child(1), tests, folded)?;
    let third = fold_part(nodes, second.end, place.child(2), tests, folded)?;
    let fourth = fold_part(nodes, third.end, place.child(3), tests, folded)?;
    let end = fourth.end;
    if !are_shown(first, second, third, fourth) {
        return Ok(Part {
            end,
            is_shown: false,
        });
    }
    let is_shown = join(tests, place, at, folded)?;
    Ok(Part { end, is_shown })
}

fn are_shown(first: Part, second: Part, third: Part, fourth: Part) -> bool
    ensures { IsTrue result ↔ (IsTrue first.is_shown × IsTrue second.is_shown × IsTrue third.is_shown × IsTrue fourth.is_shown) }
{
    first.is_shown && second.is_shown && third.is_shown && fourth.is_shown
}

// Puts one leaf in the place of the nodes from `at` on, where a word is shown on the box. Whether it did.
fn join(
    tests: &mut [WordTests<Coarse>],
    place: GridBox,
    at: usize,
    folded: &mut Vec<Node>,
) -> Result<bool, OutOfMemory>
    requires few { length tests.old < 2 ^ 32 }
    requires at { at ≤ length folded.old.items }
    ensures kept { tests.new ≡ tests.old }
    ensures joined { IfOk result (λ joined. Joins tests.old place at joined folded.old.items folded.new.items) }
{
    match first_shown(tests, place) {
        Some(i) => {
            folded.truncate(at);
            folded.push(Node::Shown(i))?;
            Ok(true)
        }
        None => Ok(false),
    }
}
