ghost use Rattle.std.specs.Prelude.{◌≡◌, IfOk};

use crate::WordTests;
use covering_file::Header;
use directed_fixed::Scale;
use edge_words::Word;
use sine_fixed::SineTable;
use std::alloc::{AllocError as OutOfMemory, Global};
use std::rc::Rc;

/// The tests of the listed words, in their order. The words are stable, so that only memory may be wanting.
pub fn prepare<S: Scale>(alloc: Global, header: &Header) -> Result<Vec<WordTests<S>>, OutOfMemory>
    ensures { IfOk result (λ tests. tests.items ≡ header.now.words) }
{
    prepare_words(alloc, header.words())
}

/// The tests of these words, in their order, which share one pair of tables of sines. Without memory, or where one of the words
/// is not stable, there are none.
pub fn prepare_words<S: Scale>(
    alloc: Global,
    words: &[Word],
) -> Result<Vec<WordTests<S>>, OutOfMemory>
    ensures { IfOk result (λ tests. tests.items ≡ words.now) }
{
    let sines = Rc::new(alloc, SineTable::new(alloc)?)?;
    let mut tests = Vec::new(alloc);
    for word in words {
        let test = prepare_word(alloc, word, sines.clone()?)?;
        tests.push(test)?;
    }
    Ok(tests)
}

fn prepare_word<S: Scale>(
    alloc: Global,
    word: &Word,
    sines: Rc<SineTable>,
) -> Result<WordTests<S>, OutOfMemory>
    ensures { IfOk result (λ test. test ≡ word.now) }
{
    match WordTests::new(alloc, word, sines) {
        Ok(test) => Ok(test),
        Err(_) => Err(OutOfMemory),
    }
}
