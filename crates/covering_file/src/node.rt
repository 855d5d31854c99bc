ghost use Rattle.std.specs.Prelude.{◌≡◌, ◌≤◌, codes, decimal, IfOk, IfErr};
ghost use Rattle.line_grammar.specs.Form.{ReadsAs};
ghost use Rattle.line_grammar.specs.Text.{two_fields};
ghost use Rattle.covering_file.specs.FilePart.{RefusesWordNumber, node_form};

use crate::Reason;
use rat_core::read_decimal;

/// What a line of the tree says of the box that is due.
#[derive(Clone, Copy, Debug, PartialEq, Eq)]
pub enum Node {
    /// Its four children follow.
    Split,
    /// It is apart from the region.
    Outside,
    /// The corridor of the listed word of this number, counted from 1, is open on it, as is seen from its centre.
    Shown(u32),
    /// It is, as is seen from the four corners.
    Corner(u32),
    /// It is left uncovered.
    Uncovered,
}

/// The node whose line this is, in a file of this version with so many words. Else `OtherLine` where the line has no node's
/// form, and `Number` where its number is not canonical or not from 1 to `words`.
pub fn read_node(line: &[u8], words: u32, version: u8) -> Result<Node, Reason>
    ensures { ReadsAs (node_form words version) line.now result }
{
    match line {
        b"s" => Ok(Node::Split),
        b"o" => Ok(Node::Outside),
        b"u" => Ok(Node::Uncovered),
        [b'w', b' ', number @ ..] => read_shown(number, words, version),
        [b'q', b' ', number @ ..] => read_corner(number, words, version),
        _ => Err(Reason::OtherLine),
    }
}

// The node of a line that goes on so after `w` and a space.
fn read_shown(number: &[u8], words: u32, version: u8) -> Result<Node, Reason>
    ensures { ReadsAs (node_form words version) (two_fields (codes "w") number.now) result }
{
    match read_number(number, words) {
        Ok(i) => Ok(Node::Shown(i)),
        Err(reason) => Err(reason),
    }
}

// The node of a line that goes on so after `q` and a space.
fn read_corner(number: &[u8], words: u32, version: u8) -> Result<Node, Reason>
    ensures { ReadsAs (node_form words version) (two_fields (codes "q") number.now) result }
{
    if version != 3 {
        return Err(Reason::OtherLine);
    }
    match read_number(number, words) {
        Ok(i) => Ok(Node::Corner(i)),
        Err(reason) => Err(reason),
    }
}

// The number of a word, of so many, in the last field of a line.
fn read_number(field: &[u8], words: u32) -> Result<u32, Reason>
    ensures number { IfOk result (λ i. (1 ≤ i) × (i ≤ words) × (field.now ≡ decimal i)) }
    ensures refused { IfErr result (RefusesWordNumber words field.now) }
{
    if field.contains(&b' ') {
        return Err(Reason::OtherLine);
    }
    match read_decimal(field, words) {
        Some(i) if i >= 1 => Ok(i),
        _ => Err(Reason::Number),
    }
}
