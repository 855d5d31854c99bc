ghost use Rattle.std.specs.Prelude.{◌≡◌, ◌%◌, ◌<◌, ◌≤◌};

use super::*;
use rat_core::Frac;
use std::alloc::{AllocError as OutOfMemory, Global};
use std::test::Fail;

fn number_of_words(alloc: Global, count: u32) -> Result<usize, OutOfMemory>
    requires { (0 < count) × (count ≤ 24) × (count % 2 ≡ 0) }
{
    Ok(words(alloc, count)?.len())
}

#[test]
fn counts_words_of_each_length(rt: HostRuntime) {
    let alloc = rt.alloc();
    assert_eq!(rt; number_of_words(alloc, 6), Ok(1));
    assert_eq!(rt; number_of_words(alloc, 8), Ok(0));
    assert_eq!(rt; number_of_words(alloc, 10), Ok(3));
    assert_eq!(rt; number_of_words(alloc, 12), Ok(5));
    assert_eq!(rt; number_of_words(alloc, 14), Ok(15));
    assert_eq!(rt; number_of_words(alloc, 16), Ok(30));
}

#[test]
fn finds_one_word_at_a_third(rt: HostRuntime) -> Result<(), Fail> {
    let found = search(rt.alloc(), Frac::new(1, 3), Frac::new(1, 3), 6)?;
    assert_eq!(rt; found.len(), 1);
    assert_eq!(rt; found[0].letters(), [1, 2, 3, 1, 2, 3].as_slice());
    Ok(())
}

#[test]
fn finds_two_words_at_two_fifths(rt: HostRuntime) -> Result<(), Fail> {
    let found = search(rt.alloc(), Frac::new(2, 5), Frac::new(2, 5), 10)?;
    assert_eq!(rt; found.len(), 2);
    assert_eq!(rt; found[0].letters(), [1, 2, 3, 1, 2, 3].as_slice());
    assert_eq!(rt;
        found[1].letters(),
        [1, 2, 1, 2, 3, 1, 2, 1, 2, 3].as_slice()
    );
    Ok(())
}

#[test]
fn finds_no_word_of_ten_letters_at_a_right_angle(rt: HostRuntime) -> Result<(), Fail> {
    let found = search(rt.alloc(), Frac::new(2, 4), Frac::new(1, 4), 10)?;
    assert!(rt; found.is_empty());
    Ok(())
}
