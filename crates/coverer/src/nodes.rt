ghost use Rattle.std.specs.Prelude.{◌≡◌, ◌≤◌, List, map, IfOk, IfErr};
ghost use Rattle.mcb_ends.specs.Bytes.{AppendsPrefix};
ghost use Rattle.mcb_ends.specs.Causes.{HasCause};
ghost use Rattle.line_grammar.specs.Text.{text_of};
ghost use Rattle.covering_file.specs.declared.node.Node.{Node};
ghost use Rattle.covering_file.specs.Node.{node_line};
ghost use Rattle.coverer.specs.Begun.{IsBegun};
ghost use Rattle.coverer.specs.Written.{WritesNodes};

use crate::choosing::{Choice, choose};
use crate::stack::{Due, Stack};
use crate::word_set::WordSet;
use covering_claims::WordTests;
use covering_file::{Header, MAX_NODES, Node, write_node};
use mcb_ends::{Failed, Sink};
use pi_bounds::Coarse;
use std::alloc::Global;

/// How many nodes were written, how many of them are uncovered, and whether the tree is whole.
#[derive(Clone, Copy, Debug)]
pub struct Tally {
    pub nodes: u32,
    pub left: u32,
    pub is_whole: bool,
}

/// Writes the lines of the nodes, at most `limit`. It takes no memory.
pub fn write_nodes<K: Sink>(
    alloc: Global,
    header: &Header,
    tests: &mut [WordTests<Coarse>],
    limit: u32,
    out: &mut K,
) -> Result<Tally, Failed>
    requires tests { tests.old ≡ header.now.words }
    requires at_most { limit ≤ MAX_NODES }
    ensures written { IfOk result (WritesNodes limit header.now (K.written out.old) (K.written out.new)) }
    ensures failed { IfErr result (λ _. (nodes : List Node) × IsBegun limit header.now nodes
        × AppendsPrefix (K.written out.old) (K.written out.new) (text_of (map node_line nodes))) }
    ensures room { K.room out.new ≡ K.room out.old }
    ensures cause { HasCause (K.faults out.old) (K.faults out.new) result }
{
    // What it answers tells the check that they are at most 32.
    let _words = header.words();
    let mut due = Stack::new(alloc, WordSet::all());
    let mut nodes = 0;
    let mut left = 0;
    while let Some(Due { place, words }) = due.pop() {
        if nodes >= limit {
            return Ok(Tally {
                nodes,
                left,
                is_whole: false,
            });
        }
        let Choice { node, below } = choose(header, tests, place, words);
        write_node(node, out)?;
        nodes += 1;
        match node {
            Node::Split => due.split(place, below),
            Node::Uncovered => left += 1,
            _ => {}
        }
    }
    Ok(Tally {
        nodes,
        left,
        is_whole: true,
    })
}
