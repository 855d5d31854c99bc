ghost use Rattle.std.specs.Prelude.{List, None, Option, ℕ};

use std::marker::Brand;

/// What a sink had taken before a `Gathered` took it over. No code reads this: a proof picks it where
/// a call passes `Brand`.
pub trait Before {
    /// The bytes that it had taken, where it tells them.
    ghost taken: { Option (List ℕ) };
}

impl Before for Brand {
    ghost taken = { None };
}
