//! The first line, and the lines of corners, of words and of nodes.
ghost use Rattle.std.specs.Prelude.{◌≡◌, ◌≤◌, ◌↔◌, IsTrue};
ghost use Rattle.rational_polygon.specs.Outline.{IsInside};
ghost use Rattle.covering_file.specs.CornerForms.{first_form, corner_form, word_form};
ghost use Rattle.covering_file.specs.FilePart.{node_form};
ghost use Rattle.covering_file.specs.Header.{IsVersion};
ghost use Rattle.covering_file.specs.Header as header;

use crate::{FileKind, Node, Reason, read_node};
use edge_words::Word;
use line_grammar::{Form, two_fields};
use rat_core::read_decimal;
use rational_polygon::MAX_GRID;
use std::alloc::Global;

/// The first line of such a file, which says its version.
#[derive(Clone, Copy)]
pub(crate) struct FirstLine {
    pub kind: FileKind,
}

/// Two numbers, which are a corner inside the triangle of the grid.
#[derive(Clone, Copy)]
pub(crate) struct Corner {
    pub grid: u32,
}

/// A stable word.
#[derive(Clone, Copy)]
pub(crate) struct StableWord {
    pub alloc: Global,
}

/// The line of a node, in a file of this version with so many words.
#[derive(Clone, Copy, Debug)]
pub struct NodeLine {
    pub words: u32,
    pub version: u8,
}

impl Form for FirstLine {
    type Value = u8;

    ghost form = { λ form. first_form form.kind };

    fn read(&self, line: &[u8]) -> Result<u8, Reason> {
        if line == first_line(self.kind, 1) {
            Ok(1)
        } else if line == first_line(self.kind, 2) {
            Ok(2)
        } else if line == first_line(self.kind, 3) {
            Ok(3)
        } else {
            Err(Reason::OtherLine)
        }
    }
}

// The first line of such a file in this version.
fn first_line(kind: FileKind, version: u8) -> &'static [u8]
    requires { IsVersion version }
    ensures { result.now ≡ header.first_line kind version }
{
    match (kind, version) {
        (FileKind::Cover, 1) => b"mcbcover 1",
        (FileKind::Cover, 2) => b"mcbcover 2",
        (FileKind::Cover, _) => b"mcbcover 3",
        (FileKind::Job, 1) => b"mcbjob 1",
        (FileKind::Job, 2) => b"mcbjob 2",
        (FileKind::Job, _) => b"mcbjob 3",
    }
}

impl Form for Corner {
    type Value = (u32, u32);

    ghost form = { λ form. corner_form form.grid };

    fn read(&self, line: &[u8]) -> Result<(u32, u32), Reason> {
        let Some((x, y)) = two_fields(line) else {
            return Err(Reason::OtherLine);
        };
        let (Some(x), Some(y)) = (read_decimal(x, MAX_GRID), read_decimal(y, MAX_GRID)) else {
            return Err(Reason::Number);
        };
        if is_inside(self.grid, x, y) {
            Ok((x, y))
        } else {
            Err(Reason::CornerOutside)
        }
    }
}

// Whether a corner lies strictly inside the triangle of the grid.
fn is_inside(grid: u32, x: u32, y: u32) -> bool
    requires x { x ≤ MAX_GRID }
    requires y { y ≤ MAX_GRID }
    ensures { IsTrue result ↔ IsInside grid (x, y) }
{
    x >= 1 && y >= 1 && x + y < grid
}

impl Form for StableWord {
    type Value = Word;

    ghost form = { λ _. word_form };

    fn read(&self, line: &[u8]) -> Result<Word, Reason> {
        match Word::read(self.alloc, line) {
            Ok(word) if word.is_stable() => Ok(word),
            Ok(_) => Err(Reason::UnstableWord),
            Err(_) => Err(Reason::NotAWord),
        }
    }
}

impl Form for NodeLine {
    type Value = Node;

    ghost form = { λ form. node_form form.words form.version };

    fn read(&self, line: &[u8]) -> Result<Node, Reason> {
        read_node(line, self.words, self.version)
    }
}
