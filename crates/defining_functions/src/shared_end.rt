//! Which end an edge shares with the edge before.
ghost use Rattle.std.specs.Prelude.{◌+◌};
ghost use Rattle.edge_words.specs.Letters.{IsPlace};
ghost use Rattle.edge_words.specs.Word.{IsWord};
ghost use Rattle.defining_functions.specs.Steps.{SharesEnd};

use unfolding::Unfolding;

/// The end that an edge shares with the edge before.
#[derive(Clone, Copy, Debug, PartialEq, Eq)]
pub enum SharedEnd {
    /// The upper end.
    Upper,
    /// The lower end.
    Lower,
    /// None: for the first edge there is no edge before.
    Neither,
}

/// The end that the edge i + 1 shares with the edge i.
pub fn shared_end(u: &Unfolding, i: u32) -> SharedEnd
    requires word { IsWord u.now }
    requires place { IsPlace u.now (i + 1) }
    ensures { SharesEnd u.now i result }
{
    if i == 0 {
        return SharedEnd::Neither;
    }
    if u.lower(i + 1).is_same(u.lower(i)) {
        return SharedEnd::Lower;
    }
    if u.upper(i + 1).is_same(u.upper(i)) {
        return SharedEnd::Upper;
    }
    SharedEnd::Neither
}
