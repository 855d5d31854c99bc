use crate::tests::fixtures::{arguments_of, assert_answer, sink, source};
use crate::{Status, run};
use mcb_ends::MemSink;
use std::alloc::{AllocError, Global};
use std::process::Abort;
use std::test::Fail;

// The answer for a word in the equilateral triangle, where it is done. It reads nothing.
fn points_of(rt: &(impl Abort + Alloc<A = Global>), word: &str) -> Result<MemSink, AllocError> {
    let arguments = arguments_of(rt.alloc(), &["points", word, "1", "1", "3"])?;
    let mut src = source(rt.alloc(), b"", 16, &[1])?;
    let mut out = MemSink::new(rt.alloc(), 4096, 7, Vec::new(rt.alloc()))?;
    assert_eq!(rt;
        run(rt.alloc(), &arguments, &mut src, &mut out),
        Status::Done
    );
    assert_eq!(rt; src.faults(), 0);
    Ok(out)
}

// The number that stands in a line at a place, both counted from 0.
fn number_at(text: &str, line: usize, place: usize) -> Option<i64> {
    text.lines().nth(line)?.split(' ').nth(place)?.parse().ok()
}

// Bounds of numbers of the corners 1 and 3 of the first triangle, and of the shift.
#[test]
fn points_shows_123123(rt: HostRuntime) -> Result<(), Fail> {
    let out = points_of(&rt, "123123")?;
    let text = str::from_utf8(out.bytes())?;
    assert_eq!(rt; text.lines().count(), 23);
    assert!(rt; text.starts_with("0 1 "));
    assert!(rt; text.ends_with("\nend 21\n"));
    let rows = [
        (0, 2, -576_460_752_303_423_744, -576_460_752_303_423_232),
        (2, 2, 1_152_921_504_606_846_720, 1_152_921_504_606_847_232),
        (2, 3, -256, 256),
        (21, 1, 5_188_146_770_730_809_856, 5_188_146_770_730_812_928),
    ];
    for (line, place, least, greatest) in rows {
        let number = number_at(text, line, place).ok_or("a number")?;
        assert!(rt; least <= number && number <= greatest);
    }
    Ok(())
}

// A word that is not stable has no shift.
#[test]
fn points_shows_an_unstable_word(rt: HostRuntime) -> Result<(), Fail> {
    let out = points_of(&rt, "121323")?;
    let text = str::from_utf8(out.bytes())?;
    assert_eq!(rt; text.lines().count(), 22);
    assert!(rt; text.ends_with("\nend 21\n"));
    Ok(())
}

#[test]
fn points_refuses_other_words(rt: HostRuntime) -> Result<(), Fail> {
    let arguments = arguments_of(rt.alloc(), &["points", "123121", "1", "1", "3"])?;
    let refused = "refused argument reason=7\n";
    assert_answer(&rt, &arguments, b"", Status::Malformed, refused)?;
    let arguments = arguments_of(rt.alloc(), &["points", "123123", "1", "1", "2"])?;
    assert_answer(&rt, &arguments, b"", Status::Usage, "")?;
    Ok(())
}

// A sink that fails in its third call has what it took before.
#[test]
fn points_lays_a_fault_to_the_sink(rt: HostRuntime) -> Result<(), Fail> {
    let arguments = arguments_of(rt.alloc(), &["points", "123123", "1", "1", "3"])?;
    let mut src = source(rt.alloc(), b"", 16, &[1])?;
    let mut out = sink(rt.alloc(), &[3])?;
    assert_eq!(rt;
        run(rt.alloc(), &arguments, &mut src, &mut out),
        Status::WriteFault
    );
    assert_eq!(rt; out.bytes(), b"0 ".as_slice());
    assert_eq!(rt; src.faults(), 0);
    Ok(())
}
