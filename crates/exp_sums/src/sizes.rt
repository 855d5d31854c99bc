//! The weight, the reach and the bend of terms.
ghost use Rattle.std.specs.Prelude.{◌≡◌, ◌*◌, ◌≤◌, pos, unsigned_abs};
ghost use Rattle.std.specs.List.{All};
ghost use Rattle.exp_sums.specs.Limits.{IsNear, terms_weight, greatest_exponent, greatest_weight};
ghost use Rattle.exp_sums.specs.Reach.{dir_reach, terms_reach};
ghost use Rattle.exp_sums.specs.Bend.{dir_bend};

use crate::terms::Term;

/// How large a sum is.
#[derive(Clone, Copy, Debug, PartialEq, Eq, Drop)]
pub struct Sizes {
    /// The weight, the sum of |c|.
    pub weight: u64,
    /// The reach, the sum of |c|·(|m| + |n|).
    pub reach: u64,
    /// The bend, the sum of |c|·(m² + n²).
    pub bend: u64,
}

/// |c|, |c|·(|m| + |n|) and |c|·(m² + n²).
pub fn sizes_of_term(term: Term) -> Sizes
    requires light { unsigned_abs term.c ≤ greatest_weight }
    requires near { IsNear greatest_exponent term.dir }
    ensures weight { result.weight ≡ unsigned_abs term.c }
    ensures reach { result.reach ≡ unsigned_abs term.c * dir_reach term.dir }
    ensures bend { result.bend ≡ unsigned_abs term.c * dir_bend term.dir }
{
    let c = term.c.unsigned_abs();
    let m = u64::from(term.dir.m.unsigned_abs());
    let n = u64::from(term.dir.n.unsigned_abs());
    Sizes {
        weight: c,
        reach: c * (m + n),
        bend: c * (m * m + n * n),
    }
}

/// The sum of |c|.
pub fn weight_of(terms: &[Term]) -> i64
    requires { terms_weight terms.now ≤ greatest_weight }
    ensures { result ≡ pos (terms_weight terms.now) }
{
    let mut weight = 0;
    for term in terms {
        weight += term.c.abs();
    }
    weight
}

/// |c|·(|m| + |n|).
fn reach_of_term(term: Term) -> i64
    requires light { unsigned_abs term.c ≤ greatest_weight }
    requires near { IsNear greatest_exponent term.dir }
    ensures { result ≡ pos (unsigned_abs term.c * dir_reach term.dir) }
{
    term.c.abs() * i64::from(term.dir.m.abs() + term.dir.n.abs())
}

/// The sum of |c|·(|m| + |n|).
pub fn reach_of(terms: &[Term]) -> i64
    requires light { terms_weight terms.now ≤ greatest_weight }
    requires near { All (λ t. IsNear greatest_exponent t.dir) terms.now }
    ensures { result ≡ pos (terms_reach terms.now) }
{
    let mut reach = 0;
    for &term in terms {
        reach += reach_of_term(term);
    }
    reach
}
