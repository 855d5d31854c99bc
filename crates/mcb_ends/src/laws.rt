//! Laws of the definitions, for the crates above.
ghost use Rattle.std.specs.Prelude.{◌≡◌, ℕ, List};
ghost use Rattle.mcb_ends.specs.Lines.{Next, IsNext};

/// Some line or end stands next in any bytes.
pub fn next_exists()
    ensures { (bytes : List ℕ) → (next : Next) × (rest : List ℕ) × IsNext bytes next rest }
{}

/// What stands next in given bytes is one, and so is the rest.
pub fn next_is_unique()
    ensures { (bytes : List ℕ) (a b : Next) (rest rest' : List ℕ)
        → IsNext bytes a rest → IsNext bytes b rest' → (a ≡ b) × (rest ≡ rest') }
{}
