ghost use Rattle.std.specs.Prelude.{◌≡◌, ◌*◌, ◌<◌, ◌≤◌, ⊤, [], ◌∷◌, ◌++◌, length, MatchOption};
ghost use Rattle.rational_polygon.specs.Square.{unit_square};
ghost use Rattle.orbit_tile.specs.declared.TheConstants.{MAX_DEPTH};
ghost use Rattle.orbit_tile.specs.Stack.{children};

use crate::MAX_DEPTH;
use rational_polygon::GridBox;
use smallvec::SmallVec;
use std::alloc::Global;
use std::marker::Model;

// How many boxes are due at most: three of each level but the last, and four of that one.
pub const MAX_DUE: usize = 3 * MAX_DEPTH as usize + 1;

/// The boxes that are due, seen as a list with the first one first. They lie inline, so that no call takes memory.
#[derive(Drop)]
pub struct DueBoxes {
    boxes: SmallVec<GridBox, MAX_DUE>,
}

impl Model for DueBoxes {
    ghost use Rattle.std.specs.Prelude.{◌≡◌, List, reverse};
    ghost use Rattle.rational_polygon.specs.Square.{Square};
    ghost use Rattle.orbit_tile.specs.declared.due.TheConstants.{MAX_DUE};
    ghost use Rattle.orbit_tile.specs.Stack.{AreFew};

    ghost Value = { List Square };

    ghost view = { λ s. reverse s.boxes.items };

    ghost invariant = { λ s. AreFew (reverse s.boxes.items) × (s.boxes.capacity ≡ MAX_DUE) };
}

impl DueBoxes {
    /// Before the first patch the unit square is due.
    pub fn new(alloc: Global) -> DueBoxes
        ensures { result ≡ unit_square ∷ [] }
    {
        let mut due = DueBoxes {
            boxes: SmallVec::new(alloc),
        };
        due.push(GridBox::default());
        due
    }

    /// Takes the first box that is due.
    pub fn pop(&mut self) -> Option<GridBox>
        ensures first { MatchOption result (self.old ≡ []) (λ next. self.old ≡ next ∷ self.new) }
        ensures few { MatchOption result ⊤ (λ next. length self.new ≤ 3 * next.level) }
    {
        self.boxes.pop()
    }

    /// Puts the children of a box before the others.
    pub fn divide(&mut self, place: GridBox)
        requires level { place.level < MAX_DEPTH }
        requires few { length self.old ≤ 3 * place.level }
        ensures { self.new ≡ children place ++ self.old }
    {
        self.push(place.child(3));
        self.push(place.child(2));
        self.push(place.child(1));
        self.push(place.child(0));
    }

    // Puts a box before the others.
    fn push(&mut self, place: GridBox)
        requires level { place.level ≤ MAX_DEPTH }
        requires few { length self.old ≤ 3 * place.level }
        ensures { self.new ≡ place ∷ self.old }
    {
        self.boxes.push_reserved(place);
    }
}
