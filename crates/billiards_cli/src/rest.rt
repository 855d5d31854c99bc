ghost use Rattle.std.specs.Prelude.{◌≡◌, ◌<◌, length, drop, slice_get, Some};

use crate::Args;
use std::marker::Model;

/// The arguments after the name of a command.
#[derive(Drop)]
pub(crate) struct Rest<'a> {
    all: &'a Args,
    len: usize,
}

impl<'a> Model for Rest<'a> {
    ghost use Rattle.std.specs.Prelude.{◌≡◌, ◌+◌, ◌^◌, ◌<◌, List, ℕ, length, drop};

    ghost Value = { List (List ℕ) };

    ghost view = { λ r. drop 1 r.all.now };

    ghost invariant = { λ r. (r.len + 1 ≡ length r.all.now) × (r.len + 1 < 2 ^ 64) };
}

impl<'a> Rest<'a> {
    /// The arguments after the first.
    pub(crate) fn of(all: &'a Args) -> Rest<'a>
        requires { 0 < length all.now }
        ensures { result ≡ drop 1 all.now }
    {
        Rest {
            all,
            len: all.len() - 1,
        }
    }

    /// How many arguments there are.
    pub(crate) fn len(&self) -> usize
        ensures { result ≡ length self.now }
    {
        self.len
    }

    /// The bytes of an argument, counted from 0.
    pub(crate) fn get(&self, i: usize) -> &'a [u8]
        requires { i < length self.now }
        ensures { slice_get self.now i ≡ Some result.now }
    {
        self.all.word(i + 1)
    }
}
