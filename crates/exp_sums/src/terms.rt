//! The terms of a sum, sorted by their directions, and the edits that keep them so.
ghost use Rattle.std.specs.Prelude.{◌≡◌, ◌+◌, ◌<◌, ◌≤◌, ◌^◌, ◌+ℤ◌, FitsSigned, T, IsOk, OnOk, OnErr, IfOk, IfErr, length, map};
ghost use Rattle.std.specs.Int.{w64};
ghost use Rattle.smallvec.specs.SmallVec.{small_vec_len, HasRoomFor};
ghost use Rattle.exp_sums.specs.Terms.{is_canonical, total_at, put_term, put_terms};
ghost use Rattle.exp_sums.specs.FormalPoint.{term_neg};
ghost use Rattle.exp_sums.specs.Limits.{terms_weight, greatest_weight};
ghost use Rattle.exp_sums.specs.Place.{IsPlaceOf, IsGapFor};

use crate::direction::Dir;
use smallvec::SmallVec;
use std::alloc::AllocError as OutOfMemory;

/// One term of a sum: a whole multiple of a direction.
#[derive(Clone, Copy, Debug, PartialEq, Eq, Default, Drop)]
pub struct Term {
    /// The direction.
    pub dir: Dir,
    /// Its coefficient.
    pub c: i64,
}

/// How many terms lie in the value itself, without an allocation.
///
/// The corners that a word of up to twelve letters unfolds to have about five terms, and its shift has six to ten.
/// Eight terms take 128 bytes, little enough for a triangle of an unfolding, which holds four sums.
pub const INLINE: usize = 8;

/// Terms with rising directions and no coefficient 0.
pub type Terms = SmallVec<Term, INLINE>;

/// The place of the direction, or the place where it belongs.
pub fn place_of(terms: &[Term], dir: Dir) -> Result<usize, usize>
    requires { T (is_canonical terms.now) }
    ensures found { IfOk result (IsPlaceOf terms.now dir) }
    ensures absent { IfErr result (IsGapFor terms.now dir) }
{
    terms.binary_search_by_key(&dir, |term| term.dir)
}

/// Takes room for one more term, of which there is some while all terms lie in the value itself.
pub fn make_room(terms: &mut Terms) -> Result<(), OutOfMemory>
    ensures items { terms.new.items ≡ terms.old.items }
    ensures room { OnOk result (HasRoomFor terms.new 1) }
    ensures err { OnErr result (terms.new ≡ terms.old) }
    ensures inline { small_vec_len terms.old < 8 → IsOk result }
{
    if terms.len() < terms.capacity() {
        return Ok(());
    }
    terms.reserve(1)
}

/// Adds a term, for which there is room.
pub fn put(terms: &mut Terms, term: Term)
    requires canonical { T (is_canonical terms.old.items) }
    requires room { HasRoomFor terms.old 1 }
    requires fits { FitsSigned w64 (term.c +ℤ total_at term.dir terms.old.items) }
    ensures items { terms.new.items ≡ put_term term terms.old.items }
    ensures len { small_vec_len terms.new ≤ small_vec_len terms.old + 1 }
    ensures capacity { terms.new.capacity ≡ terms.old.capacity }
{
    match place_of(terms, term.dir) {
        Ok(at) => {
            let c = term.c + terms[at].c;
            if c == 0 {
                let _ = terms.remove(at);
            } else {
                terms[at].c = c;
            }
        }
        Err(at) => {
            if term.c != 0 {
                let _ = terms.insert(at, term);
            }
        }
    }
}

/// Adds terms, for which there is room.
pub fn put_all(terms: &mut Terms, more: &[Term])
    requires canonical { T (is_canonical terms.old.items) }
    requires room { HasRoomFor terms.old (length more.now) }
    requires light { terms_weight terms.old.items + terms_weight more.now ≤ greatest_weight }
    ensures items { terms.new.items ≡ put_terms more.now terms.old.items }
{
    for &term in more {
        put(terms, term);
    }
}

/// Takes terms away, for which there is room.
pub fn put_all_negated(terms: &mut Terms, more: &[Term])
    requires canonical { T (is_canonical terms.old.items) }
    requires room { HasRoomFor terms.old (length more.now) }
    requires light { terms_weight terms.old.items + terms_weight more.now ≤ greatest_weight }
    ensures items { terms.new.items ≡ put_terms (map term_neg more.now) terms.old.items }
{
    for term in more {
        put(
            terms,
            Term {
                dir: term.dir,
                c: -term.c,
            },
        );
    }
}
