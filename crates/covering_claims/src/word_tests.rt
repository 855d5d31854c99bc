ghost use Rattle.std.specs.Prelude.{◌≡◌, ◌+◌, ◌-◌, ◌≤◌, ◌↔◌, IsTrue, IfOk, IsErrOf};
ghost use Rattle.edge_words.specs.Stable.{IsStable};
ghost use Rattle.rational_polygon.specs.Point.{Point};
ghost use Rattle.rational_polygon.specs.Square.{IsInBox};
ghost use Rattle.gradient_bounds.specs.Corridor.{HasCorridor};
ghost use Rattle.gradient_bounds.specs.Clear.{slack, IsClear, IsShut};
ghost use Rattle.gradient_bounds.specs.CornerClear.{IsCornerClear};
ghost use Rattle.gradient_bounds.specs.declared.fault.PrepareFault.TheVariants.{Unstable};

use corner_bounds::test_corners;
use covering_file::LEAST_CORNER_LEVEL;
use directed_fixed::Scale;
use edge_words::Word;
use gradient_bounds::{PrepareFault, Prepared};
use rational_polygon::GridBox;
use sine_fixed::SineTable;
use std::alloc::Global;
use std::marker::Model;
use std::rc::Rc;

/// The tests of a listed word on boxes, at the scale `S`. They are seen as their word.
///
/// Only `new` takes memory.
#[derive(Drop)]
pub struct WordTests<S: Scale> {
    prepared: Prepared<S>,
}

impl<S: Scale> Model for WordTests<S> {
    ghost use Rattle.std.specs.Prelude.{List, ℕ};

    ghost Value = { List ℕ };

    ghost view = { λ tests. tests.prepared.word };
}

impl<S: Scale> WordTests<S> {
    /// Makes the tests of a word, whose sines come from these tables. A word that is not stable is refused before memory is taken.
    pub fn new(
        alloc: Global,
        word: &Word,
        sines: Rc<SineTable>,
    ) -> Result<WordTests<S>, PrepareFault>
        ensures word { IfOk result (λ tests. tests ≡ word.now) }
        ensures unstable { IsErrOf result Unstable ↔ ¬ (IsStable word.now) }
    {
        let mut prepared = Prepared::new(alloc, word)?;
        prepared.keep_sizes_beside(alloc, sines)?;
        Ok(WordTests { prepared })
    }

    /// Whether the word is seen to have a corridor at every point of the box.
    pub fn is_clear(&mut self, place: GridBox) -> bool
        ensures word { self.new ≡ self.old }
        ensures clear { IsTrue result → IsClear self.old place (slack S.LOW_BITS) }
        ensures found { IsClear self.old place (slack S.HIGH_BITS) → IsTrue result }
        ensures corridor { IsTrue result → (p : Point) → IsInBox place p → HasCorridor self.old p.x p.y }
    {
        self.prepared.test_box(place)
    }

    /// Whether the word is seen, at the corners of the box with the slack `2^-low`, to have a corridor at every point of the box.
    /// Below level 10 nothing is asked.
    pub fn is_corner_clear(&mut self, place: GridBox, low: u32) -> bool
        requires low_least { 12 ≤ low }
        requires low_most { low ≤ 40 }
        requires room { low + 8 ≤ S.BITS }
        ensures word { self.new ≡ self.old }
        ensures clear { IsTrue result → IsCornerClear self.old place (slack low) }
        ensures found { IsCornerClear self.old place (slack (low - 4)) → IsTrue result }
        ensures corridor { IsTrue result → (p : Point) → IsInBox place p → HasCorridor self.old p.x p.y }
    {
        place.level >= LEAST_CORNER_LEVEL && test_corners(&mut self.prepared, place, low)
    }

    /// Whether the word is seen to have a corridor at no point of the box.
    pub fn is_shut(&mut self, place: GridBox) -> bool
        ensures word { self.new ≡ self.old }
        ensures shut { IsTrue result → IsShut self.old place (slack S.LOW_BITS) }
        ensures found { IsShut self.old place (slack S.HIGH_BITS) → IsTrue result }
        ensures no_corridor { IsTrue result → (p : Point) → IsInBox place p → ¬ (HasCorridor self.old p.x p.y) }
    {
        self.prepared.shut_box(place)
    }
}
