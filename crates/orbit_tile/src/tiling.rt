ghost use Rattle.std.specs.Prelude.{◌≡◌, ◌↔◌, ◌+◌, ◌^◌, ◌≤◌, length, All, IsTrue, IfOk, IsErrOf, MatchOption};
ghost use Rattle.edge_words.specs.Stable.{IsStable};
ghost use Rattle.orbit_tile.specs.declared.TheConstants.{MAX_DEPTH, MAX_PATCHES};
ghost use Rattle.orbit_tile.specs.declared.fault.TileFault.TheVariants.{Unstable, Full};
ghost use Rattle.orbit_tile.specs.Causes.{IsBeyond, HasCause, IsDivided};
ghost use Rattle.orbit_tile.specs.Tile.{IsTile, IsFull};

use crate::due::DueBoxes;
use crate::{MAX_DEPTH, MAX_PATCHES, Patch, PatchKind, TileFault};
use edge_words::Word;
use gradient_bounds::Prepared;
use pi_bounds::Fine;
use rational_polygon::GridBox;
use std::alloc::Global;

/// The tile of a word, in patches of at most the level `depth`: the leaves of a quadtree of the unit square, in preorder.
///
/// A box that is in question is divided, or undecided at the full depth. With more than `limit` patches the tile is
/// refused as `Full`. A word that is not stable is refused before memory is taken.
pub fn tile(alloc: Global, word: &Word, depth: u32, limit: u32) -> Result<Vec<Patch>, TileFault>
    requires depth { depth ≤ MAX_DEPTH }
    requires at_least { 1 ≤ limit }
    requires at_most { limit ≤ MAX_PATCHES }
    ensures tile { IfOk result (λ patches. IsTile word.now depth patches.items) }
    ensures within { IfOk result (λ patches. length patches.items ≤ limit) }
    ensures levels { IfOk result (λ patches. All (λ patch. patch.place.level ≤ depth) patches.items) }
    ensures full { IsErrOf result Full → IsFull word.now depth limit }
    ensures unstable { IsErrOf result Unstable ↔ ¬ (IsStable word.now) }
{
    let mut prepared = Prepared::<Fine>::new(alloc, word)?;
    let Ok(()) = prepared.keep_sizes(alloc) else {
        return Err(TileFault::Memory);
    };
    patches(alloc, &mut prepared, depth, limit)
}

// The patches of a word, at most `limit`.
fn patches(
    alloc: Global,
    prepared: &mut Prepared<Fine>,
    depth: u32,
    limit: u32,
) -> Result<Vec<Patch>, TileFault>
    requires depth { depth ≤ MAX_DEPTH }
    requires limit { limit ≤ MAX_PATCHES }
    ensures tile { IfOk result (λ patches. IsTile prepared.old.word depth patches.items) }
    ensures within { IfOk result (λ patches. length patches.items ≤ limit) }
    ensures levels { IfOk result (λ patches. All (λ patch. patch.place.level ≤ depth) patches.items) }
    ensures full { IsErrOf result Full → IsFull prepared.old.word depth limit }
    ensures stable { ¬ (IsErrOf result Unstable) }
{
    let mut patches = Vec::new(alloc);
    let mut due = DueBoxes::new(alloc);
    while let Some(place) = due.pop() {
        if patches.len() >= limit as usize {
            return Err(TileFault::Full);
        }
        match kind_of(prepared, place, depth) {
            Some(kind) => patches.push(Patch { place, kind })?,
            None => due.divide(place),
        }
    }
    Ok(patches)
}

// The kind of the patch at a due box, or nothing where the box is divided. Both tests use one table.
fn kind_of(prepared: &mut Prepared<Fine>, place: GridBox, depth: u32) -> Option<PatchKind>
    requires level { place.level ≤ depth }
    ensures kept { prepared.new.word ≡ prepared.old.word }
    ensures cause { MatchOption result (IsDivided prepared.old.word depth place) (HasCause prepared.old.word depth place) }
{
    if is_beyond(place) {
        return Some(PatchKind::Beyond);
    }
    if prepared.test_box(place) {
        return Some(PatchKind::Inside);
    }
    if prepared.shut_box(place) {
        return Some(PatchKind::Outside);
    }
    if place.level < depth {
        return None;
    }
    Some(PatchKind::Undecided)
}

// Whether the box has no triangle.
fn is_beyond(place: GridBox) -> bool
    ensures { IsTrue result ↔ IsBeyond place }
{
    place.i + place.j >= 1 << place.level
}
