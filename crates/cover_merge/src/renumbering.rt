//! A tree whose words have other numbers.
ghost use Rattle.std.specs.Prelude.{◌≡◌, ℕ, List, All, map, length};
ghost use Rattle.covering_file.specs.Node.{IsNode};
ghost use Rattle.cover_merge.specs.Steps.{number_at};
ghost use Rattle.cover_merge.specs.Union as union;

use covering_file::Node;

/// Gives each node the number that stands for that of its word.
pub fn renumber(nodes: &mut [Node], numbers: &[u32])
    requires { All (λ node. (version : ℕ) × IsNode (length numbers.now) version node) nodes.old }
    ensures { nodes.new ≡ map (union.with_number (number_at numbers.now)) nodes.old }
{
    for node in nodes.iter_mut() {
        *node = with_number(*node, numbers);
    }
}

fn with_number(node: Node, numbers: &[u32]) -> Node
    requires { (version : ℕ) × IsNode (length numbers.now) version node }
    ensures { result ≡ union.with_number (number_at numbers.now) node }
{
    match node {
        Node::Shown(i) => Node::Shown(numbers[i as usize - 1]),
        Node::Corner(i) => Node::Corner(numbers[i as usize - 1]),
        other => other,
    }
}
