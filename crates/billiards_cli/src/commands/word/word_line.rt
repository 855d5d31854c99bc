ghost use Rattle.billiards_cli.specs.Arguments.{any_word};

use edge_words::Word;
use line_grammar::{Form, Reason};
use std::alloc::Global;

/// The line of a word, be it stable or not.
#[derive(Clone, Copy)]
pub(crate) struct WordLine {
    pub alloc: Global,
}

impl Form for WordLine {
    type Value = Word;

    ghost form = { λ _. any_word };

    fn read(&self, line: &[u8]) -> Result<Word, Reason> {
        match Word::read(self.alloc, line) {
            Ok(word) => Ok(word),
            Err(_) => Err(Reason::NotAWord),
        }
    }
}
