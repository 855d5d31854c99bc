//! The picture of a covering.
ghost use Rattle.std.specs.Prelude.{◌≡◌, ◌≤◌, length, count_by};
ghost use Rattle.mcb_ends.specs.Bytes.{Writes};
ghost use Rattle.mcb_ends.specs.Causes.{HasCause};
ghost use Rattle.rational_polygon.specs.Square.{unit_square};
ghost use Rattle.covering_file.specs.declared.TheConstants.{MAX_NODES};
ghost use Rattle.covering_file.specs.Tree.{preorder};
ghost use Rattle.covering_file.specs.Tree as quadtrees;
ghost use Rattle.svg_pictures.specs.CoveringPicture.{is_drawn, drawn, covering_picture};

use crate::leaf_square::write_node;
use crate::outlines::write_outlines;
use crate::span::span_of;
use crate::svg::write_last_line;
use crate::view::write_view;
use covering_file::{MAX_NODES, Node, Tree, Walk};
use mcb_ends::{Failed, Sink};
use std::alloc::Global;

/// How many leaves of a tree are drawn: those that are not outside.
pub fn drawn_leaves(tree: &Tree) -> u32
    ensures { result ≡ count_by is_drawn tree.now.nodes }
{
    count_drawn(tree.nodes())
}

/// Writes the picture of a covering, or a prefix of it and fails: for each leaf that is not outside a square, in the colour of its
/// word, black where it is uncovered, and with an opacity of 3/4 where it is judged at its corners; and the outlines of the
/// region. It takes no memory.
pub fn write_covering<K: Sink>(alloc: Global, tree: &Tree, out: &mut K) -> Result<(), Failed>
    ensures text { (t : quadtrees.Tree) → preorder t ≡ tree.now.nodes
        → Writes (K.written out.old) (K.written out.new) result (covering_picture tree.now.heading t) }
    ensures room { K.room out.new ≡ K.room out.old }
    ensures cause { HasCause (K.faults out.old) (K.faults out.new) result }
{
    let polygons = tree.header().region().polygons();
    let span = span_of(polygons);
    write_view(&span, out)?;
    write_leaves(alloc, tree, out)?;
    write_outlines(polygons, span.stroke(), out)?;
    write_last_line(out)
}

fn write_leaves<K: Sink>(alloc: Global, tree: &Tree, out: &mut K) -> Result<(), Failed>
    ensures text { (t : quadtrees.Tree) → preorder t ≡ tree.now.nodes → Writes (K.written out.old) (K.written out.new) result (drawn unit_square t) }
    ensures room { K.room out.new ≡ K.room out.old }
    ensures cause { HasCause (K.faults out.old) (K.faults out.new) result }
{
    let nodes = tree.nodes();
    let mut walk = Walk::new(alloc, tree.header().depth());
    for node in nodes {
        let place = walk.due().unwrap();
        write_node(place, *node, out)?;
        walk.step(*node);
    }
    Ok(())
}

// How many of the nodes are leaves that are drawn.
fn count_drawn(nodes: &[Node]) -> u32
    requires { length nodes.now ≤ MAX_NODES }
    ensures { result ≡ count_by is_drawn nodes.now }
{
    let mut count = 0;
    for node in nodes {
        if is_drawn(*node) {
            count += 1;
        }
    }
    count
}

// Whether a node is a leaf that is not outside.
fn is_drawn(node: Node) -> bool
    ensures { result ≡ is_drawn node }
{
    !matches!(node, Node::Split | Node::Outside)
}
