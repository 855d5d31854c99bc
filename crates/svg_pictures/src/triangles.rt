//! The triangles of an unfolding, drawn.
ghost use Rattle.std.specs.Prelude.{◌≡◌, ◌+◌, ◌≤◌, length, take};
ghost use Rattle.edge_words.specs.declared.TheConstants.{MAX_LETTERS};
ghost use Rattle.rat_core.specs.Written.{value};
ghost use Rattle.svg_pictures.specs.UnfoldingPicture.{IsPictureOfTriangle, IsPictureOfWord};

use crate::coordinates::picture_of;
use crate::drawn::DrawnTriangle;
use edge_words::MAX_LETTERS;
use plane_points::Plane;
use unfolding::Unfolding;

/// The most triangles of an unfolding.
pub const MAX_TRIANGLES: usize = MAX_LETTERS + 1;

/// The triangles of an unfolding, from the first to the last, and then some of no meaning.
pub fn draw_triangles(u: &Unfolding, plane: &Plane) -> [DrawnTriangle; MAX_TRIANGLES]
    ensures { IsPictureOfWord u.now (value plane.now.0) (value plane.now.1) (take (length u.now + 1) result) }
{
    let mut triangles = [DrawnTriangle::default(); MAX_TRIANGLES];
    for k in 0..u.letters() + 1 {
        triangles[k as usize] = draw_triangle(u, k, plane);
    }
    triangles
}

fn draw_triangle(u: &Unfolding, k: u32, plane: &Plane) -> DrawnTriangle
    requires within { k ≤ length u.now }
    requires few { k ≤ MAX_LETTERS }
    ensures { IsPictureOfTriangle u.now k (value plane.now.0) (value plane.now.1) result }
{
    DrawnTriangle {
        first: picture_of(u.corner(k, 1), plane),
        second: picture_of(u.corner(k, 2), plane),
        third: picture_of(u.corner(k, 3), plane),
    }
}
