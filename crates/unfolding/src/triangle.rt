//! One triangle of an unfolding, as it is kept.
ghost use Rattle.std.specs.Prelude.{◌≡◌, ◌↔◌, ◌+◌, ◌≤◌, ◌+ℤ◌, ◌-ℤ◌, ℕ, List, [], ◌∷◌, ◌++◌, All, IfOk, IsTrue};
ghost use Rattle.edge_words.specs.Letters.{IsLetter};
ghost use Rattle.exp_sums.specs.FormalPoint.{monomial, zero_point, ◌+ₚ◌};
ghost use Rattle.exp_sums.specs.Limits.{weight, IsNear, IsWithin};
ghost use Rattle.unfolding.specs.Kept.{dirs_of, triangle_of, IsSmall};
ghost use Rattle.unfolding.specs.Triangle.{IsCorner, next_corner, mirrors};
ghost use Rattle.unfolding.specs.Signed.{sign_of};
ghost use Rattle.unfolding.specs.Walk.{is_reversed};

use exp_sums::{Dir, ExpSum};
use std::alloc::{AllocError as OutOfMemory, Global};

/// The directions of the first triangle's corners, seen from its centre.
const FIRST_DIRS: [Dir; 3] = [
    Dir { m: 1, n: 1 },
    Dir { m: -1, n: -1 },
    Dir { m: 1, n: -1 },
];

/// A triangle. Corner c stands at index c − 1.
#[derive(Drop)]
pub struct Triangle {
    /// The centre of the circle round it.
    pub centre: ExpSum,
    /// Whether the corners, seen from the centre, are opposite to their directions.
    pub minus: bool,
    /// The directions of the corners, seen from the centre.
    pub dirs: [Dir; 3],
    /// The corners: the centre and what is seen from there.
    pub corners: [ExpSum; 3],
}

/// The corner after `corner`, where 1 comes after 3.
pub fn next_corner(corner: u8) -> u8
    requires { IsCorner corner }
    ensures next { result ≡ next_corner corner }
    ensures corner { IsCorner result }
{
    if corner == 3 { 1 } else { corner + 1 }
}

/// Where the mirror in the edge from p to q takes r: −p·q·conj(r) but for the sign, seen from the new centre.
fn mirrored(p: Dir, q: Dir, r: Dir) -> Dir
    requires p { IsNear 65 p }
    requires q { IsNear 65 q }
    requires r { IsNear 65 r }
    ensures m { result.m ≡ p.m +ℤ q.m -ℤ r.m }
    ensures n { result.n ≡ p.n +ℤ q.n -ℤ r.n }
    ensures near { IsNear 195 result }
{
    Dir {
        m: p.m + q.m - r.m,
        n: p.n + q.n - r.n,
    }
}

/// The directions of the corners after the mirror in an edge, seen from the new centre. The ends of the edge change
/// places, since −p·q·conj(p) is −q.
fn dirs_across(dirs: &[Dir; 3], edge: u8) -> [Dir; 3]
    requires edge { IsLetter edge }
    requires near { All (IsNear 65) dirs.now }
    ensures dirs { (w : List ℕ) → dirs.now ≡ dirs_of w → result ≡ dirs_of (w ++ edge ∷ []) }
    ensures near { All (IsNear 195) result }
{
    let [first, second, third] = *dirs;
    match edge {
        1 => [mirrored(second, third, first), third, second],
        2 => [third, mirrored(third, first, second), first],
        _ => [second, first, mirrored(first, second, third)],
    }
}

/// 1, or −1 where `minus` is set.
fn sign(minus: bool) -> i64
    ensures { result ≡ sign_of minus }
{
    if minus { -1 } else { 1 }
}

/// A sum and a signed direction more.
fn moved(alloc: Global, from: &ExpSum, minus: bool, dir: Dir) -> Result<ExpSum, OutOfMemory>
    requires light { weight from.now ≤ 1000 }
    requires within { IsWithin 1000 from.now }
    requires near { IsNear 1000 dir }
    ensures { IfOk result (λ p. p ≡ from.now +ₚ monomial (sign_of minus) dir) }
{
    let mut to = from.copied(alloc)?;
    to.add_dir(dir, sign(minus))?;
    Ok(to)
}

impl Triangle {
    /// The triangle round a centre, where its corners are seen in these directions.
    fn round(
        alloc: Global,
        centre: ExpSum,
        minus: bool,
        dirs: [Dir; 3],
    ) -> Result<Triangle, OutOfMemory>
        requires light { weight centre ≤ 1000 }
        requires within { IsWithin 1000 centre }
        requires near { All (IsNear 1000) dirs }
        ensures { IfOk result (λ t. (w : List ℕ) → centre ≡ mirrors w zero_point → minus ≡ is_reversed w → dirs ≡ dirs_of w → t ≡ triangle_of w) }
    {
        let first = moved(alloc, &centre, minus, dirs[0])?;
        let second = moved(alloc, &centre, minus, dirs[1])?;
        let third = moved(alloc, &centre, minus, dirs[2])?;
        Ok(Triangle {
            centre,
            minus,
            dirs,
            corners: [first, second, third],
        })
    }

    /// The first triangle of every word.
    pub fn first(alloc: Global) -> Result<Triangle, OutOfMemory>
        ensures { IfOk result (λ t. t ≡ triangle_of []) }
    {
        Triangle::round(alloc, ExpSum::new(alloc), false, FIRST_DIRS)
    }

    /// The mirror image in an edge.
    pub fn across(&self, alloc: Global, edge: u8) -> Result<Triangle, OutOfMemory>
        requires edge { IsLetter edge }
        requires small { IsSmall self.now }
        ensures { IfOk result (λ t. (w : List ℕ) → self.now ≡ triangle_of w → t ≡ triangle_of (w ++ edge ∷ [])) }
    {
        let start = next_corner(edge);
        let end = next_corner(start);
        let half_way = moved(
            alloc,
            &self.centre,
            self.minus,
            self.dirs[start as usize - 1],
        )?;
        let centre = moved(alloc, &half_way, self.minus, self.dirs[end as usize - 1])?;
        Triangle::round(alloc, centre, !self.minus, dirs_across(&self.dirs, edge))
    }

    /// Whether each corner is seen from the centre as the same corner of the other triangle is from its own.
    pub fn is_translate_of(&self, other: &Triangle) -> bool
        ensures { IsTrue result ↔ (self.now.minus ≡ other.now.minus) × (self.now.dirs ≡ other.now.dirs) }
    {
        self.minus == other.minus && self.dirs == other.dirs
    }
}
