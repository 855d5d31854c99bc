ghost use Rattle.std.specs.Prelude.{◌≡◌, ◌+◌, ◌^◌, ◌<◌, ◌≤◌, ◌++◌, length, IfOk};
ghost use Rattle.covering_file.specs.declared.node.Node.TheVariants.{Split};
ghost use Rattle.covering_file.specs.Node.{IsLeaf};
ghost use Rattle.covering_file.specs.Tree.{Tree, preorder};
ghost use Rattle.cover_merge.specs.Parts.{size, StandsFrom};

use covering_file::Node;
use std::alloc::AllocError as OutOfMemory;

/// Puts the nodes of the tree that stands from `start` on behind the others. The place behind them.
pub fn copy_tree(nodes: &[Node], start: usize, copied: &mut Vec<Node>) -> Result<usize, OutOfMemory>
    requires start { start < length nodes.now }
    requires few { length nodes.now < 2 ^ 32 }
    ensures after { IfOk result (λ end. start < end) }
    ensures behind { IfOk result (λ end. (t : Tree) → StandsFrom nodes.now start t → end ≡ start + size t) }
    ensures copied { IfOk result (λ _. (t : Tree) → StandsFrom nodes.now start t → copied.new.items ≡ copied.old.items ++ preorder t) }
{
    let end = behind_tree(nodes, start);
    copied.extend_from_slice(&nodes[start..end])?;
    Ok(end)
}

/// The place behind the nodes of the tree that stands from `start` on.
pub fn behind_tree(nodes: &[Node], start: usize) -> usize
    requires start { start < length nodes.now }
    requires few { length nodes.now < 2 ^ 32 }
    ensures after { start < result }
    ensures within { result ≤ length nodes.now }
    ensures behind { (t : Tree) → StandsFrom nodes.now start t → result ≡ start + size t }
{
    let mut due = 1;
    for k in start..nodes.len() {
        due = due_behind(nodes[k], due);
        if due == 0 {
            return k + 1;
        }
    }
    nodes.len()
}

// How many trees are due behind a node: a split has four in its place, and a leaf none.
fn due_behind(node: Node, due: usize) -> usize
    requires some { 1 ≤ due }
    requires few { due < 2 ^ 40 }
    ensures split { node ≡ Split → result ≡ due + 3 }
    ensures leaf { IsLeaf node → result + 1 ≡ due }
    ensures few { result ≤ due + 3 }
{
    match node {
        Node::Split => due + 3,
        _ => due - 1,
    }
}
