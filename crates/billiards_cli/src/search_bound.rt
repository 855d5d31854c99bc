ghost use Rattle.std.specs.Prelude.{◌≡◌};
ghost use Rattle.billiards_cli.specs.SearchBounds.{IsSearchBound, search_bound};

use crate::number::number;
use std::marker::Model;

// The least and the greatest of the bounds.
const LEAST: u32 = 6;

const GREATEST: u32 = 24;

/// How many letters the words that are searched for may have.
#[derive(Clone, Copy)]
pub(crate) struct SearchBound {
    letters: u32,
}

impl Model for SearchBound {
    ghost use Rattle.std.specs.Prelude.{ℕ};
    ghost use Rattle.billiards_cli.specs.SearchBounds.{IsSearchBound};

    ghost Value = { ℕ };

    ghost view = { λ bound. bound.letters };

    ghost invariant = { λ bound. IsSearchBound bound.letters };

    ghost inverse = { λ n. record { letters = n } };
}

impl SearchBound {
    /// The bound that a text writes.
    pub(crate) fn read(text: &[u8]) -> Option<SearchBound>
        ensures { result ≡ search_bound text.now }
    {
        let letters = number(text, GREATEST)?;
        if letters < LEAST {
            return None;
        }
        if letters % 2 == 0 {
            Some(SearchBound { letters })
        } else {
            None
        }
    }

    pub(crate) fn get(&self) -> u32
        ensures value { result ≡ self.now }
        ensures is_bound { IsSearchBound self.now }
    {
        self.letters
    }
}
