//! Whether a table was filled at a point.
ghost use Rattle.std.specs.Prelude.{◌≡◌, Some, IsTrue};

use rat_core::Frac;

/// Whether two fractions are written alike.
fn is_same(x: &Frac, y: &Frac) -> bool
    ensures { IsTrue result → x.now ≡ y.now }
{
    x.num() == y.num() && x.den() == y.den()
}

/// Whether the point is (x, y).
pub fn is_at(point: &Option<(Frac, Frac)>, x: &Frac, y: &Frac) -> bool
    ensures { IsTrue result → point.now ≡ Some (x.now, y.now) }
{
    match point {
        Some((first, second)) => is_same(first, x) && is_same(second, y),
        None => false,
    }
}
