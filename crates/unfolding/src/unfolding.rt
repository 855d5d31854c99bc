//! The unfolding of a word.
ghost use Rattle.std.specs.Prelude.{◌≡◌, ◌↔◌, ℕ, ◌+◌, ◌*◌, ◌%◌, ◌<◌, ◌≤◌, length, IsTrue, IsSome, IfSome, IfNone, IfOk};
ghost use Rattle.edge_words.specs.Letters.{IsPlace};
ghost use Rattle.edge_words.specs.Stable.{IsStable};
ghost use Rattle.edge_words.specs.Word.{IsWord};
ghost use Rattle.exp_sums.specs.FormalPoint.{◌+ₚ◌, ◌-ₚ◌};
ghost use Rattle.exp_sums.specs.Limits.{weight, IsNear, IsWithin};
ghost use Rattle.unfolding.specs.Triangle.{IsCorner, corner_of, centre_of};
ghost use Rattle.unfolding.specs.Corners.{upper_corner, lower_corner};
ghost use Rattle.unfolding.specs.Shift.{IsShift, HasShift};
ghost use Rattle.unfolding.specs.Signed.{signed_point};

use crate::signed::Signed;
use crate::triangle::{Triangle, next_corner};
use crate::walk::triangles_along;
use edge_words::Word;
use exp_sums::ExpSum;
use std::alloc::{AllocError as OutOfMemory, Global};
use std::marker::Model;

/// The triangles that a path with a word crosses, each the mirror image of the one before it in the crossed edge.
///
/// Triangle 0 is the first one, and triangle k the one after k crossings. The numbers in directions are at most 65 in
/// size. Only `of` takes memory.
#[derive(Drop)]
pub struct Unfolding {
    word: Word,
    triangles: Vec<Triangle>,
}

impl Model for Unfolding {
    ghost use Rattle.std.specs.Prelude.{List, ℕ};
    ghost use Rattle.unfolding.specs.Kept.{IsUnfolding};

    ghost Value = { List ℕ };

    ghost view = { λ u. u.word };

    ghost invariant = { λ u. IsUnfolding u.word u.triangles.items };
}

impl Unfolding {
    /// Unfolds a triangle along a word.
    pub fn of(alloc: Global, word: &Word) -> Result<Unfolding, OutOfMemory>
        ensures word { IfOk result (λ u. u ≡ word.now) }
        ensures stable { IfOk result (λ u. HasShift u ↔ IsStable u) }
    {
        let triangles = triangles_along(alloc, word.letters())?;
        Ok(Unfolding {
            word: word.copied(),
            triangles,
        })
    }

    /// How many letters the word has.
    pub fn letters(&self) -> u32
        ensures count { result ≡ length self.now }
        ensures word { IsWord self.now }
    {
        self.word.letters().len() as u32
    }

    /// The word.
    pub fn word(&self) -> &Word
        ensures all { result.now ≡ self.now }
        ensures is_word { IsWord self.now }
    {
        &self.word
    }

    /// The centre of the circle round triangle k.
    pub fn centre(&self, k: u32) -> &ExpSum
        requires { k ≤ length self.now }
        ensures is { result.now ≡ centre_of self.now k }
        ensures light { weight result.now ≤ 2 * k }
        ensures within { IsWithin 65 result.now }
    {
        &self.triangles[k as usize].centre
    }

    /// A corner of triangle k, seen from its centre.
    pub fn seen(&self, k: u32, corner: u8) -> Signed
        requires within { k ≤ length self.now }
        requires corner { IsCorner corner }
        ensures corner { centre_of self.now k +ₚ signed_point result ≡ corner_of self.now k corner }
        ensures minus { IsTrue result.minus ↔ (k % 2 ≡ 1) }
        ensures near { IsNear 65 result.dir }
    {
        let triangle = &self.triangles[k as usize];
        Signed {
            minus: triangle.minus,
            dir: triangle.dirs[corner as usize - 1],
        }
    }

    /// A corner of triangle k.
    pub fn corner(&self, k: u32, corner: u8) -> &ExpSum
        requires within { k ≤ length self.now }
        requires corner { IsCorner corner }
        ensures is { result.now ≡ corner_of self.now k corner }
        ensures light { weight result.now ≤ 2 * k + 1 }
        ensures within { IsWithin 65 result.now }
    {
        &self.triangles[k as usize].corners[corner as usize - 1]
    }

    /// The upper end of the k-th edge, over which the path goes from triangle k − 1 to triangle k: the end on its left.
    pub fn upper(&self, k: u32) -> &ExpSum
        requires { IsPlace self.now k }
        ensures is { result.now ≡ upper_corner self.now k }
        ensures light { weight result.now < 2 * k }
        ensures within { IsWithin 65 result.now }

        // from each upper end to each lower one
        ensures apart { (l : ℕ) → IsPlace self.now l → weight (result.now -ₚ lower_corner self.now l) ≤ 128 }
    {
        let after = next_corner(self.word.letters()[k as usize - 1]);
        let before = next_corner(after);
        let corner = if k % 2 == 1 { before } else { after };
        self.corner(k - 1, corner)
    }

    /// The lower end of the k-th edge: the end on the path's right.
    pub fn lower(&self, k: u32) -> &ExpSum
        requires { IsPlace self.now k }
        ensures is { result.now ≡ lower_corner self.now k }
        ensures light { weight result.now < 2 * k }
        ensures within { IsWithin 65 result.now }
        ensures apart { (l : ℕ) → IsPlace self.now l → weight (upper_corner self.now l -ₚ result.now) ≤ 128 }
    {
        let after = next_corner(self.word.letters()[k as usize - 1]);
        let before = next_corner(after);
        let corner = if k % 2 == 1 { after } else { before };
        self.corner(k - 1, corner)
    }

    /// What takes the first triangle to the last one, where that is a translate of it.
    pub fn shift(&self) -> Option<&ExpSum>
        ensures stable { IsSome result ↔ IsStable self.now }
        ensures is { IfSome result (λ v. IsShift self.now v.now) }
        ensures none { IfNone result (¬ (HasShift self.now)) }
        ensures light { IfSome result (λ v. weight v.now ≤ 128) }
        ensures within { IfSome result (λ v. IsWithin 65 v.now) }
    {
        let first = &self.triangles[0];
        let last = &self.triangles[self.word.letters().len()];
        if last.is_translate_of(first) {
            Some(&last.centre)
        } else {
            None
        }
    }
}
