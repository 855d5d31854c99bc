//! All words of one length, letter by letter.
ghost use Rattle.std.specs.Prelude.{◌%◌, ◌<◌, ◌≤◌, ◌≡◌, length, IfOk};
ghost use Rattle.word_search.specs.Cuts.{IsListOf, StartsBefore, StartsAtMost};
ghost use Rattle.word_search.specs.Words.{IsListOfWords};

use crate::candidate::searched;
use crate::prefix::Prefix;
use edge_words::Word;
use std::alloc::{AllocError as OutOfMemory, Global};

/// The canonical stable words with so many letters, in lexicographic order, each once.
pub fn words(alloc: Global, count: u32) -> Result<Vec<Word>, OutOfMemory>
    requires { (0 < count) × (count ≤ 24) × (count % 2 ≡ 0) }
    ensures { IfOk result (λ words. IsListOfWords count words.items) }
{
    let mut found = Vec::new(alloc);
    extend(alloc, &Prefix::new(), count as usize, &mut found)?;
    Ok(found)
}

// Adds the words that begin with the prefix, after all that come before them.
fn extend(
    alloc: Global,
    prefix: &Prefix,
    count: usize,
    found: &mut Vec<Word>,
) -> Result<(), OutOfMemory>
    requires count { (0 < count) × (count ≤ 24) × (count % 2 ≡ 0) }
    requires short { length prefix.now ≤ count }
    requires before { IsListOf (StartsBefore prefix.now) count found.old.items }
    ensures { IfOk result (λ _. IsListOf (StartsAtMost prefix.now) count found.new.items) }
{
    if prefix.len() == count {
        if let Some(word) = searched(alloc, prefix.letters()) {
            found.push(word)?;
        }
        return Ok(());
    }
    'letter: for letter in 1..4u8 {
        if let Some(next) = prefix.with(letter, count) {
            extend(alloc, &next, count, found)?;
        }
    }
    Ok(())
}
