ghost use Rattle.std.specs.Prelude.{◌≡◌, ◌≤◌, All, length, IsTrue, MatchOption};
ghost use Rattle.gradient_bounds.specs.Clear.{IsClear};
ghost use Rattle.gradient_bounds.specs.CornerClear.{IsCornerClear};
ghost use Rattle.gradient_bounds.specs.Slacks as slacks;
ghost use Rattle.covering_file.specs.declared.TheConstants.{MAX_WORDS};
ghost use Rattle.covering_file.specs.Faults.{word_at, IsListed};
ghost use Rattle.covering_file.specs.Header.{IsStableWord};
ghost use Rattle.covering_claims.specs.Claims.{NoneIsClear, IsFirstClear, NoneIsCornerClear, IsFirstCornerClear};
ghost use Rattle.coverer.specs.Causes.{IsInQuestion, HasCause};
ghost use Rattle.coverer.specs.Words.{AreAmong, AreShutOut};

use crate::word_set::WordSet;
use covering_claims::{WordTests, is_corner_shown, is_shown, is_shut};
use covering_file::{Header, MAX_WORDS, Node};
use pi_bounds::Coarse;
use rational_polygon::GridBox;

// Corners are judged with the slack 2^-32.
const CORNER_BITS: u32 = 32;

/// The node at a box, and the words that are in question below it.
#[derive(Clone, Copy, Debug)]
pub struct Choice {
    pub node: Node,
    pub below: WordSet,
}

/// The node at a due box, by the first cause that applies. A word that is not in question is shut on the box.
pub fn choose(
    header: &Header,
    tests: &mut [WordTests<Coarse>],
    place: GridBox,
    words: WordSet,
) -> Choice
    requires tests { tests.old ≡ header.now.words }
    requires few { length tests.old ≤ MAX_WORDS }
    requires level { place.level ≤ header.now.depth }
    requires shut { AreShutOut header.now.words words place }
    ensures kept { tests.new ≡ tests.old }
    ensures cause { HasCause header.now place result.node }
    ensures shut { AreShutOut header.now.words result.below place }
    ensures fewer { AreAmong result.below words }
{
    if place.apart_region(header.region()) {
        return Choice {
            node: Node::Outside,
            below: words,
        };
    }
    if let Some(i) = first_clear(tests, place, words) {
        return Choice {
            node: Node::Shown(i),
            below: words,
        };
    }
    let below = without_shut(tests, place, words);
    Choice {
        node: choose_further(header, tests, place, below),
        below,
    }
}

// The node at a due box that is not apart and on which no word is shown.
fn choose_further(
    header: &Header,
    tests: &mut [WordTests<Coarse>],
    place: GridBox,
    words: WordSet,
) -> Node
    requires tests { tests.old ≡ header.now.words }
    requires few { length tests.old ≤ MAX_WORDS }
    requires level { place.level ≤ header.now.depth }
    requires shut { AreShutOut header.now.words words place }
    requires in_question { IsInQuestion header.now place }
    ensures kept { tests.new ≡ tests.old }
    ensures cause { HasCause header.now place result }
{
    if header.version() == 3 {
        if let Some(i) = first_at_corners(tests, place, words) {
            return Node::Corner(i);
        }
    }
    if place.level < header.depth() {
        Node::Split
    } else {
        Node::Uncovered
    }
}

// The first word that is shown at the corners of the box.
fn first_at_corners(tests: &mut [WordTests<Coarse>], place: GridBox, words: WordSet) -> Option<u32>
    requires stable { All IsStableWord tests.old }
    requires few { length tests.old ≤ MAX_WORDS }
    requires shut { AreShutOut tests.old words place }
    ensures kept { tests.new ≡ tests.old }
    ensures first { MatchOption result (NoneIsCornerClear tests.old slacks.findable.corner place)
        (IsFirstCornerClear tests.old slacks.sure.corner slacks.findable.corner place) }
{
    for i in 1..=tests.len() as u32 {
        if is_clear_at_corners(tests, i, place, words) {
            return Some(i);
        }
    }
    None
}

// Whether word `i` is shown at the corners of the box. One that is not in question is not tested.
fn is_clear_at_corners(
    tests: &mut [WordTests<Coarse>],
    i: u32,
    place: GridBox,
    words: WordSet,
) -> bool
    requires stable { All IsStableWord tests.old }
    requires few { length tests.old ≤ MAX_WORDS }
    requires shut { AreShutOut tests.old words place }
    requires listed { IsListed tests.old i }
    ensures kept { tests.new ≡ tests.old }
    ensures clear { IsTrue result → IsCornerClear (word_at tests.old i) place slacks.sure.corner }
    ensures found { IsCornerClear (word_at tests.old i) place slacks.findable.corner → IsTrue result }
{
    words.has(i) && is_corner_shown(tests, i, place, CORNER_BITS)
}

// The first word that is shown on the box.
fn first_clear(tests: &mut [WordTests<Coarse>], place: GridBox, words: WordSet) -> Option<u32>
    requires few { length tests.old ≤ MAX_WORDS }
    requires shut { AreShutOut tests.old words place }
    ensures kept { tests.new ≡ tests.old }
    ensures first { MatchOption result (NoneIsClear tests.old slacks.findable.gradient place)
        (IsFirstClear tests.old slacks.sure.gradient slacks.findable.gradient place) }
{
    for i in 1..=tests.len() as u32 {
        if is_clear(tests, i, place, words) {
            return Some(i);
        }
    }
    None
}

// Whether word `i` is shown on the box. One that is not in question is not tested.
fn is_clear(tests: &mut [WordTests<Coarse>], i: u32, place: GridBox, words: WordSet) -> bool
    requires few { length tests.old ≤ MAX_WORDS }
    requires shut { AreShutOut tests.old words place }
    requires listed { IsListed tests.old i }
    ensures kept { tests.new ≡ tests.old }
    ensures clear { IsTrue result → IsClear (word_at tests.old i) place slacks.sure.gradient }
    ensures found { IsClear (word_at tests.old i) place slacks.findable.gradient → IsTrue result }
{
    words.has(i) && is_shown(tests, i, place)
}

// The words in question that are not seen to be shut on the box.
fn without_shut(tests: &mut [WordTests<Coarse>], place: GridBox, words: WordSet) -> WordSet
    requires few { length tests.old ≤ MAX_WORDS }
    requires shut { AreShutOut tests.old words place }
    ensures kept { tests.new ≡ tests.old }
    ensures shut { AreShutOut tests.old result place }
    ensures fewer { AreAmong result words }
{
    let mut left = words;
    for i in 1..=tests.len() as u32 {
        left = drop_if_shut(tests, i, place, left);
    }
    left
}

// The words in question, without word `i` where that is seen to be shut on the box.
fn drop_if_shut(tests: &mut [WordTests<Coarse>], i: u32, place: GridBox, words: WordSet) -> WordSet
    requires few { length tests.old ≤ MAX_WORDS }
    requires shut { AreShutOut tests.old words place }
    requires listed { IsListed tests.old i }
    ensures kept { tests.new ≡ tests.old }
    ensures shut { AreShutOut tests.old result place }
    ensures fewer { AreAmong result words }
{
    if words.has(i) && is_shut(tests, i, place) {
        return words.without(i);
    }
    words
}
