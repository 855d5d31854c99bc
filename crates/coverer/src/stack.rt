ghost use Rattle.std.specs.Prelude.{◌≡◌, ◌*◌, ◌<◌, ◌≤◌, ⊤, [], ◌∷◌, ◌++◌, length, MatchOption};
ghost use Rattle.rational_polygon.specs.Square.{unit_square};
ghost use Rattle.rational_polygon.specs.declared.TheConstants.{MAX_LEVEL};
ghost use Rattle.coverer.specs.Stack.{due_at, due_children};

use crate::word_set::WordSet;
use rational_polygon::{GridBox, MAX_LEVEL};
use smallvec::SmallVec;
use std::alloc::Global;
use std::marker::Model;

// How many boxes are due at most: three of each level but the last, and four of that one.
pub const MAX_DUE: usize = 3 * MAX_LEVEL as usize + 1;

/// A box that is due, and the words that are in question on it.
#[derive(Clone, Copy, Debug, Default, PartialEq, Eq)]
pub struct Due {
    pub place: GridBox,
    pub words: WordSet,
}

/// The boxes that are due, seen as a list with the first one first. They lie inline, so that no call takes memory.
#[derive(Drop)]
pub struct Stack {
    due: SmallVec<Due, MAX_DUE>,
}

impl Model for Stack {
    ghost use Rattle.std.specs.Prelude.{◌≡◌, List, reverse};
    ghost use Rattle.coverer.specs.declared.stack.Due.{Due};
    ghost use Rattle.coverer.specs.declared.stack.TheConstants.{MAX_DUE};
    ghost use Rattle.coverer.specs.Stack.{AreFew};

    ghost Value = { List Due };

    ghost view = { λ s. reverse s.due.items };

    ghost invariant = { λ s. AreFew (reverse s.due.items) × (s.due.capacity ≡ MAX_DUE) };
}

impl Stack {
    /// Before the first node the unit square is due, with these words in question.
    pub fn new(alloc: Global, words: WordSet) -> Stack
        ensures { result ≡ due_at unit_square words ∷ [] }
    {
        let mut stack = Stack {
            due: SmallVec::new(alloc),
        };
        stack.push(GridBox::default(), words);
        stack
    }

    /// Takes the first box that is due.
    pub fn pop(&mut self) -> Option<Due>
        ensures first { MatchOption result (self.old ≡ []) (λ next. self.old ≡ next ∷ self.new) }
        ensures few { MatchOption result ⊤ (λ next. length self.new ≤ 3 * next.place.level) }
    {
        self.due.pop()
    }

    /// Puts the children of a box before the others, each with these words in question.
    pub fn split(&mut self, place: GridBox, words: WordSet)
        requires level { place.level < MAX_LEVEL }
        requires few { length self.old ≤ 3 * place.level }
        ensures { self.new ≡ due_children place words ++ self.old }
    {
        self.push(place.child(3), words);
        self.push(place.child(2), words);
        self.push(place.child(1), words);
        self.push(place.child(0), words);
    }

    // Puts a box before the others.
    fn push(&mut self, place: GridBox, words: WordSet)
        requires few { length self.old ≤ 3 * place.level }
        ensures { self.new ≡ due_at place words ∷ self.old }
    {
        self.due.push_reserved(Due { place, words });
    }
}
