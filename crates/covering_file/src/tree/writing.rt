ghost use Rattle.std.specs.Prelude.{◌≡◌, map};
ghost use Rattle.mcb_ends.specs.Bytes.{Writes};
ghost use Rattle.mcb_ends.specs.Causes.{HasCause};
ghost use Rattle.line_grammar.specs.Text.{text_of};
ghost use Rattle.covering_file.specs.Node.{node_line};
ghost use Rattle.covering_file.specs.TreeFile.{tree_file_text};

use crate::tree::Tree;
use crate::{FileKind, Node, write_end, write_header, write_node};
use mcb_ends::{Failed, Sink};

/// Writes a covering file, or a prefix of it and fails. It takes no memory.
pub fn write_tree<K: Sink>(tree: &Tree, out: &mut K) -> Result<(), Failed>
    ensures text { Writes (K.written out.old) (K.written out.new) result (tree_file_text tree.now) }
    ensures room { K.room out.new ≡ K.room out.old }
    ensures cause { HasCause (K.faults out.old) (K.faults out.new) result }
{
    write_header(tree.header(), FileKind::Cover, out)?;
    write_nodes(tree.nodes(), out)?;
    write_end(tree.uncovered(), out)
}

fn write_nodes<K: Sink>(nodes: &[Node], out: &mut K) -> Result<(), Failed>
    ensures text { Writes (K.written out.old) (K.written out.new) result (text_of (map node_line nodes.now)) }
    ensures room { K.room out.new ≡ K.room out.old }
    ensures cause { HasCause (K.faults out.old) (K.faults out.new) result }
{
    for node in nodes {
        write_node(*node, out)?;
    }
    Ok(())
}
