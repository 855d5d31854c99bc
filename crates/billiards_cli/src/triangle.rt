ghost use Rattle.std.specs.Prelude.{◌≡◌, ◌^◌, ◌≤◌, pos};
ghost use Rattle.rat_core.specs.Fraction.{◌÷◌};
ghost use Rattle.rat_core.specs.Written.{value};
ghost use Rattle.rational_polygon.specs.Point.{IsTriangle};
ghost use Rattle.billiards_cli.specs.Arguments.{triangle_of};

use crate::number::number;
use rat_core::Frac;
use rational_polygon::MAX_GRID;
use std::marker::Model;

/// The triangle of a command line, with the angles p / d and q / d, in half turns, at corners 1 and 2.
#[derive(Clone, Copy)]
pub(crate) struct Triangle {
    p: u32,
    q: u32,
    d: u32,
}

impl Model for Triangle {
    ghost use Rattle.std.specs.Prelude.{◌≤◌, IsTrue};
    ghost use Rattle.billiards_cli.specs.Arguments.{Angles, are_angles};
    ghost use Rattle.rational_polygon.specs.declared.TheConstants.{MAX_GRID};

    ghost Value = { Angles };

    ghost view = { λ t. record { p = t.p; q = t.q; d = t.d } };

    ghost invariant = { λ t. IsTrue (are_angles (record { p = t.p; q = t.q; d = t.d })) × (t.d ≤ MAX_GRID) };

    ghost inverse = { λ a. record { p = a.p; q = a.q; d = a.d } };
}

impl Triangle {
    /// The triangle that three texts write.
    pub(crate) fn read(p: &[u8], q: &[u8], d: &[u8]) -> Option<Triangle>
        ensures { result ≡ triangle_of p.now q.now d.now }
    {
        let p = number(p, MAX_GRID)?;
        let q = number(q, MAX_GRID)?;
        let d = number(d, MAX_GRID)?;
        if p >= 1 && q >= 1 && p + q < d {
            Some(Triangle { p, q, d })
        } else {
            None
        }
    }

    /// The angle at corner 1, in half turns.
    pub(crate) fn first(&self) -> Frac
        ensures angle { result ≡ record { num = pos self.now.p; den = self.now.d } }
        ensures small { result.den ≤ 2 ^ 20 }
    {
        Frac::new(i128::from(self.p), i128::from(self.d))
    }

    /// The angle at corner 2, in half turns.
    pub(crate) fn second(&self) -> Frac
        ensures angle { result ≡ record { num = pos self.now.q; den = self.now.d } }
        ensures small { result.den ≤ 2 ^ 20 }

        // With it, the triangle is one.
        ensures triangle { IsTriangle (record { x = pos self.now.p ÷ self.now.d; y = pos self.now.q ÷ self.now.d }) }
    {
        Frac::new(i128::from(self.q), i128::from(self.d))
    }
}
