ghost use Rattle.std.specs.Prelude.{◌≡◌, ◌<◌, [], ◌∷◌, ◌++◌, length, slice_get, Some, OnOk, OnErr, MatchOption};

use crate::rest::Rest;
use std::alloc::{AllocError as OutOfMemory, Global};
use std::marker::Model;

/// The arguments of a command line, without the program's name.
#[derive(Drop)]
pub struct Args {
    items: Vec<String>,
}

// The arguments, each as its bytes.
impl Model for Args {
    ghost use Rattle.std.specs.Prelude.{List, ℕ, map, string_bytes};

    ghost Value = { List (List ℕ) };

    ghost view = { λ a. map string_bytes a.items.items };
}

impl Args {
    /// No arguments yet.
    pub fn new(alloc: Global) -> Args
        ensures { result ≡ [] }
    {
        Args {
            items: Vec::new(alloc),
        }
    }

    /// Adds an argument at the end.
    pub fn push(&mut self, argument: &str) -> Result<(), OutOfMemory>
        ensures ok { OnOk result (self.new ≡ self.old ++ argument.now ∷ []) }
        ensures err { OnErr result (self.new ≡ self.old) }
    {
        let owned = String::from_str(*self.items.allocator(), argument)?;
        self.items.push(owned)?;
        Ok(())
    }

    /// How many arguments there are.
    pub fn len(&self) -> usize
        ensures { result ≡ length self.now }
    {
        self.items.len()
    }

    /// The bytes of an argument, counted from 0.
    pub fn word(&self, i: usize) -> &[u8]
        requires { i < length self.now }
        ensures { slice_get self.now i ≡ Some result.now }
    {
        self.items[i].as_bytes()
    }

    /// The name of a command, and the arguments after it.
    pub(crate) fn named(&self) -> Option<(&[u8], Rest<'_>)>
        ensures { MatchOption result (self.now ≡ []) (λ named. self.now ≡ named.0.now ∷ named.1) }
    {
        if self.len() == 0 {
            return None;
        }
        Some((self.word(0), Rest::of(self)))
    }
}
