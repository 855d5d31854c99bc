//! The walk along a word, from each triangle over an edge to the next.
ghost use Rattle.std.specs.Prelude.{length, IfOk};
ghost use Rattle.edge_words.specs.Word.{IsWord};
ghost use Rattle.unfolding.specs.Kept.{AreTrianglesOf};

use crate::triangle::Triangle;
use std::alloc::{AllocError as OutOfMemory, Global};

/// The triangles of a word, from the first to the last.
pub fn triangles_along(alloc: Global, letters: &[u8]) -> Result<Vec<Triangle>, OutOfMemory>
    requires { IsWord letters.now }
    ensures { IfOk result (λ ts. AreTrianglesOf letters.now (length letters.now) ts.items) }
{
    let mut triangles = Vec::new(alloc);
    triangles.push(Triangle::first(alloc)?)?;
    for (k, edge) in letters.iter().enumerate() {
        let next = triangles[k].across(alloc, *edge)?;
        triangles.push(next)?;
    }
    Ok(triangles)
}
