ghost use Rattle.std.specs.Prelude.{◌≡◌, ◌≤◌, length, count_by};
ghost use Rattle.covering_file.specs.Header.{IsVersion};
ghost use Rattle.covering_file.specs.Node.{is_uncovered};
ghost use Rattle.covering_file.specs.TreeFile.{IsTreeFile, upgraded};

mod end_line;
mod reading;
mod writing;

use crate::{Header, MAX_NODES, Node};
pub use reading::read_tree;
use std::marker::Model;
pub use writing::write_tree;

/// A covering file: its header, and the nodes of one whole tree in preorder. No claim of a node is judged.
#[derive(Debug, Drop)]
pub struct Tree {
    header: Header,
    nodes: Vec<Node>,
}

impl Model for Tree {
    ghost use Rattle.covering_file.specs.TreeFile.{TreeFile, IsTreeFile};
    ghost use Rattle.covering_file.specs.declared.TheConstants.{MAX_NODES};

    ghost Value = { TreeFile };

    ghost view = { λ t. record { heading = t.header; nodes = t.nodes.items } };

    ghost invariant = { λ t. IsTreeFile MAX_NODES (record { heading = t.header; nodes = t.nodes.items }) };
}

impl Tree {
    /// The file with this header and the tree that has these nodes in preorder. It takes no memory.
    pub fn new(header: Header, nodes: Vec<Node>) -> Tree
        requires { IsTreeFile MAX_NODES (record { heading = header; nodes = nodes.items }) }
        ensures { result ≡ record { heading = header; nodes = nodes.items } }
    {
        Tree { header, nodes }
    }

    /// The header, and the nodes in preorder. It takes no memory.
    pub fn parts(self) -> (Header, Vec<Node>)
        ensures header { result.0 ≡ self.heading }
        ensures nodes { result.1.items ≡ self.nodes }
        ensures is_file { IsTreeFile MAX_NODES self }
    {
        let Tree { header, nodes } = self;
        (header, nodes)
    }

    /// What the file says before its tree.
    pub fn header(&self) -> &Header
        ensures value { result.now ≡ self.now.heading }
        ensures is_file { IsTreeFile MAX_NODES self.now }
    {
        &self.header
    }

    /// The nodes of the tree, in preorder.
    pub fn nodes(&self) -> &[Node]
        ensures all { result.now ≡ self.now.nodes }
        ensures is_file { IsTreeFile MAX_NODES self.now }
    {
        self.nodes.as_slice()
    }

    /// How many of its leaves are uncovered.
    pub fn uncovered(&self) -> u32
        ensures { result ≡ count_by is_uncovered self.now.nodes }
    {
        count_uncovered(self.nodes())
    }

    /// The same tree under the same header in this version of the format, or in its own where that is the greater. It takes no
    /// memory.
    pub fn upgraded(self, version: u8) -> Tree
        requires is_version { IsVersion version }
        requires at_least { 2 ≤ version }
        ensures { result ≡ record { heading = upgraded version self.heading; nodes = self.nodes } }
    {
        let Tree { header, nodes } = self;
        let version = version.max(header.version());
        Tree {
            header: header.in_version(version),
            nodes,
        }
    }
}

// How many of the nodes are uncovered leaves.
fn count_uncovered(nodes: &[Node]) -> u32
    requires { length nodes.now ≤ MAX_NODES }
    ensures { result ≡ count_by is_uncovered nodes.now }
{
    let mut count = 0;
    for node in nodes {
        if *node == Node::Uncovered {
            count += 1;
        }
    }
    count
}
