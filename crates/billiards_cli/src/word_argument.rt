ghost use Rattle.std.specs.Prelude.{◌≡◌};
ghost use Rattle.line_grammar.specs.Form.{ReadsAs};
ghost use Rattle.covering_file.specs.CornerForms.{word_form};
ghost use Rattle.billiards_cli.specs.Arguments.{any_word};

use edge_words::{MAX_LETTERS, Word};
use line_grammar::Reason;
use std::alloc::Global;
use std::marker::Model;

/// An argument that is to be a word.
#[derive(Drop)]
pub(crate) struct WordArgument<'a> {
    bytes: &'a [u8],
}

impl<'a> Model for WordArgument<'a> {
    ghost use Rattle.std.specs.Prelude.{List, ℕ};

    ghost Value = { List ℕ };

    ghost view = { λ a. a.bytes.now };
}

impl<'a> WordArgument<'a> {
    pub(crate) fn new(bytes: &'a [u8]) -> WordArgument<'a>
        ensures { result ≡ bytes.now }
    {
        WordArgument { bytes }
    }

    /// Reads the word, be it stable or not. It takes no memory.
    pub(crate) fn read(&self, alloc: Global) -> Result<Word, Reason>
        ensures { ReadsAs any_word self.now result }
    {
        if self.bytes.len() > MAX_LETTERS {
            return Err(Reason::NotAWord);
        }
        match Word::read(alloc, self.bytes) {
            Ok(word) => Ok(word),
            Err(_) => Err(Reason::NotAWord),
        }
    }

    /// Reads the word, which has to be stable. It takes no memory.
    pub(crate) fn read_stable(&self, alloc: Global) -> Result<Word, Reason>
        ensures { ReadsAs word_form self.now result }
    {
        match self.read(alloc) {
            Ok(word) => {
                if word.is_stable() {
                    Ok(word)
                } else {
                    Err(Reason::UnstableWord)
                }
            }
            Err(reason) => Err(reason),
        }
    }
}
