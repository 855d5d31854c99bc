ghost use Rattle.std.specs.Prelude.{◌≡◌, ◌<◌, ◌≤◌, [], ◌∷◌, length, reverse, IsSomeAnd};
ghost use Rattle.rational_polygon.specs.Square.{unit_square, child};
ghost use Rattle.covering_file.specs.declared.node.Node.TheVariants.{Split};
ghost use Rattle.covering_file.specs.DueBoxes.{due_after, first_of};
ghost use Rattle.covering_file.specs.Walk.{children_to_come, AreBegun, IsStack, due_of};

use crate::Node;
use rational_polygon::{GridBox, MAX_LEVEL};
use smallvec::SmallVec;
use std::alloc::Global;
use std::marker::Model;

// The levels at which a box may be split.
pub const LEVELS: usize = MAX_LEVEL as usize;

/// A box whose tree is begun, and the number of its next child.
#[derive(Clone, Copy, Debug, Default)]
pub struct Level {
    pub place: GridBox,
    pub next: u8,
}

impl Level {
    // The next child.
    fn child(&self) -> GridBox
        requires next { self.now.next < 4 }
        requires level { self.now.place.level < MAX_LEVEL }
        ensures { result ≡ child self.now.place self.now.next }
    {
        self.place.child(self.next)
    }
}

/// A walk over the boxes of a tree, in the order of its nodes. It keeps the box that is due and those in which it lies: at
/// most one of each level, inline, so that no call takes memory.
#[derive(Drop)]
pub struct Walk {
    depth: u32,
    due: Option<GridBox>,
    begun: SmallVec<Level, LEVELS>,
}

impl Model for Walk {
    ghost use Rattle.std.specs.Prelude.{◌≡◌, ◌≤◌, reverse};
    ghost use Rattle.rational_polygon.specs.declared.TheConstants.{MAX_LEVEL};
    ghost use Rattle.covering_file.specs.Walk.{Frontier, IsStack, due_of};
    ghost use Rattle.covering_file.specs.declared.walk.TheConstants.{LEVELS};

    ghost Value = { Frontier };

    ghost view = { λ w. record { depth = w.depth; due = due_of w.due (reverse w.begun.items) } };

    ghost invariant = { λ w. (w.depth ≤ MAX_LEVEL) × (w.begun.capacity ≡ LEVELS) × IsStack w.due (reverse w.begun.items) };
}

impl Walk {
    /// Before the first node of a tree of this depth. The unit square is due.
    pub fn new(alloc: Global, depth: u32) -> Walk
        requires { depth ≤ MAX_LEVEL }
        ensures { result ≡ record { depth = depth; due = unit_square ∷ [] } }
    {
        Walk {
            depth,
            due: Some(GridBox::default()),
            begun: SmallVec::new(alloc),
        }
    }

    /// The first box that is due. `None` where none is.
    pub fn due(&self) -> Option<GridBox>
        ensures { result ≡ first_of self.now.due }
    {
        self.due
    }

    /// Goes on with the node at the first box that is due. A split is not at the full depth.
    pub fn step(&mut self, node: Node)
        requires { IsSomeAnd (first_of self.old.due) (λ box. node ≡ Split → box.level < self.old.depth) }
        ensures { self.new ≡ record { depth = self.old.depth; due = due_after self.old.due node } }
    {
        if let (Some(place), Node::Split) = (self.due, node) {
            self.begun.push_reserved(Level { place, next: 0 });
        }
        self.due = take_child(&mut self.begun);
    }
}

// Takes the first child to come. A box with no further child is taken off.
fn take_child(begun: &mut SmallVec<Level, LEVELS>) -> Option<GridBox>
    requires room { begun.old.capacity ≡ LEVELS }
    requires begun { AreBegun (reverse begun.old.items) }
    requires few { length begun.old.items ≤ LEVELS }
    ensures due { due_of result (reverse begun.new.items) ≡ children_to_come (reverse begun.old.items) }
    ensures stack { IsStack result (reverse begun.new.items) }
    ensures room { begun.new.capacity ≡ LEVELS }
{
    let last = begun.pop()?;
    let child = last.child();
    if last.next < 3 {
        begun.push_reserved(Level {
            place: last.place,
            next: last.next + 1,
        });
    }
    Some(child)
}
