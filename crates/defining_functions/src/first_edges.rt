//! One edge for each corner on a side.
ghost use Rattle.std.specs.Prelude.{◌≡◌, ℕ, ◌-◌, ◌<◌, ◌≤◌, length, slice_index_or, IfOk, IsTrue};
ghost use Rattle.defining_functions.specs.Kept.{HaveAllPlaces};

use std::alloc::{AllocError as OutOfMemory, Global};

/// Whether the height of the corner of the edge i + 1 stands where that of the edge before does.
fn is_again(places: &[usize], i: usize) -> bool
    requires { i < length places.now }
    ensures { IsTrue result → (0 < i) × ((z : ℕ) → slice_index_or places.now i z ≡ slice_index_or places.now (i - 1) z) }
{
    i > 0 && places[i] == places[i - 1]
}

/// The edges, counted from 1, whose corner is not that of the edge before. For each edge `places` says where the height of
/// its corner stands.
pub fn first_edges(alloc: Global, places: &[usize]) -> Result<Vec<u32>, OutOfMemory>
    requires { length places.now ≤ 64 }
    ensures { IfOk result (λ edges. HaveAllPlaces places.now (length places.now) edges.items) }
{
    let mut edges = Vec::new(alloc);
    for i in 0..places.len() {
        if !is_again(places, i) {
            edges.push(i as u32 + 1)?;
        }
    }
    Ok(edges)
}
