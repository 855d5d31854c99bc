ghost use Rattle.std.specs.Prelude.{◌≡◌, ◌+◌, ◌^◌, ◌<◌, List, ◌∷◌, drop, length, IfOk};
ghost use Rattle.covering_file.specs.declared.node.Node.{Node};
ghost use Rattle.covering_file.specs.declared.node.Node.TheVariants.{Split};
ghost use Rattle.covering_file.specs.Tree.{Tree, preorder};
ghost use Rattle.cover_merge.specs.Overlay as trees;
ghost use Rattle.cover_merge.specs.Pairs.{GoesOn};

use crate::subtree::{behind_tree, copy_tree};
use covering_file::Node;
use std::alloc::{AllocError as OutOfMemory, Global};

// A place in each of two lists of nodes.
#[derive(Clone, Copy, Debug)]
pub struct Place {
    pub first: usize,
    pub second: usize,
}

/// The nodes of the overlay of two trees that have these nodes. It goes through each list once.
pub fn overlay(alloc: Global, first: &[Node], second: &[Node]) -> Result<Vec<Node>, OutOfMemory>
    requires few { length first.now + length second.now < 2 ^ 32 }
    ensures { IfOk result (λ nodes. (s t : Tree) → preorder s ≡ first.now → preorder t ≡ second.now → nodes.items ≡ preorder (trees.overlay s t)) }
{
    let mut nodes = Vec::new(alloc);
    let mut at = Place {
        first: 0,
        second: 0,
    };
    while at.first < first.len() && at.second < second.len() {
        at = lay_next(first, second, at, &mut nodes)?;
    }
    Ok(nodes)
}

// Lays the nodes at a place over each other, with what is below a leaf that stands or gives way. The place behind them.
fn lay_next(
    first: &[Node],
    second: &[Node],
    at: Place,
    nodes: &mut Vec<Node>,
) -> Result<Place, OutOfMemory>
    requires few { length first.now + length second.now < 2 ^ 32 }
    requires first { at.first < length first.now }
    requires second { at.second < length second.now }
    ensures after { IfOk result (λ next. at.first < next.first) }
    ensures ahead { IfOk result (λ next. GoesOn first.now second.now at next nodes.old.items nodes.new.items) }
{
    match first[at.first] {
        Node::Uncovered => Ok(Place {
            first: at.first + 1,
            second: copy_tree(second, at.second, nodes)?,
        }),
        Node::Split => lay_split(first, second, at, nodes),
        first_leaf => {
            nodes.push(first_leaf)?;
            Ok(Place {
                first: at.first + 1,
                second: behind_tree(second, at.second),
            })
        }
    }
}

// The same where the first tree is a split.
fn lay_split(
    first: &[Node],
    second: &[Node],
    at: Place,
    nodes: &mut Vec<Node>,
) -> Result<Place, OutOfMemory>
    requires few { length first.now + length second.now < 2 ^ 32 }
    requires second { at.second < length second.now }
    requires split { (rest : List Node) × (drop at.first first.now ≡ Split ∷ rest) }
    ensures after { IfOk result (λ next. at.first < next.first) }
    ensures ahead { IfOk result (λ next. GoesOn first.now second.now at next nodes.old.items nodes.new.items) }
{
    match second[at.second] {
        Node::Uncovered => Ok(Place {
            first: copy_tree(first, at.first, nodes)?,
            second: at.second + 1,
        }),
        Node::Split => {
            nodes.push(Node::Split)?;
            Ok(Place {
                first: at.first + 1,
                second: at.second + 1,
            })
        }
        second_leaf => {
            nodes.push(second_leaf)?;
            Ok(Place {
                first: behind_tree(first, at.first),
                second: at.second + 1,
            })
        }
    }
}
