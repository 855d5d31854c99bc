//! The edges that a path crosses, with the heights of their corners.
ghost use Rattle.std.specs.Prelude.{◌≡◌, ◌+◌, IfOk, IfSome, IsSome};
ghost use Rattle.rat_core.specs.Written.{value};
ghost use Rattle.edge_words.specs.Letters.{IsPlace, letter_at};
ghost use Rattle.edge_words.specs.Word.{IsWord};
ghost use Rattle.bounce_path.specs.Crossings.{IsCrossing, AreCrossings};

use directed_fixed::Interval;
use gradient_bounds::Prepared;
use pi_bounds::Fine;
use std::alloc::{AllocError as OutOfMemory, Global};

/// An edge that a path crosses, and what the heights of its upper and its lower corner lie in.
#[derive(Debug, Drop)]
pub struct Crossing {
    pub edge: u8,
    pub upper: Interval<Fine>,
    pub lower: Interval<Fine>,
}

/// The crossings of a word, from its first edge to its last, at the point of its table.
pub fn crossings(alloc: Global, prepared: &Prepared<Fine>) -> Result<Vec<Crossing>, OutOfMemory>
    requires { IsSome prepared.now.point }
    ensures word { IfOk result (λ _. IsWord prepared.now.word) }
    ensures crossings { IfOk result (λ crossings. IfSome prepared.now.point (λ p. AreCrossings prepared.now.word (value p.0) (value p.1) crossings.items)) }
{
    let mut crossings = Vec::new(alloc);
    for (place, edge) in prepared.word().letters().iter().enumerate() {
        crossings.push(crossing_at(prepared, place, *edge))?;
    }
    Ok(crossings)
}

// The crossing of the edge at this place, counted from 0.
fn crossing_at(prepared: &Prepared<Fine>, place: usize, edge: u8) -> Crossing
    requires filled { IsSome prepared.now.point }
    requires word { IsWord prepared.now.word }
    requires place { IsPlace prepared.now.word (place + 1) }
    requires edge { edge ≡ letter_at prepared.now.word (place + 1) }
    ensures { IfSome prepared.now.point (λ p. IsCrossing prepared.now.word (value p.0) (value p.1) (place + 1) result) }
{
    let k = place as u32 + 1;
    Crossing {
        edge,
        upper: prepared.upper_bounds(k),
        lower: prepared.lower_bounds(k),
    }
}
