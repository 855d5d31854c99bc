use crate::tests::fixtures::{arguments_of, sink, source};
use crate::{Status, run};
use std::alloc::{AllocError, Global};
use std::process::Abort;
use std::test::Fail;

const SIXTY_LETTERS: &str = "123123123123123123123123123123123123123123123123123123123123";

// It reads nothing.
fn assert_answered(
    rt: &(impl Abort + Alloc<A = Global>),
    word: &str,
    triangle: [&str; 3],
    status: Status,
    text: &str,
) -> Result<(), AllocError> {
    let [p, q, d] = triangle;
    let arguments = arguments_of(rt.alloc(), &["at", word, p, q, d])?;
    let mut src = source(rt.alloc(), b"", 16, &[1])?;
    let mut out = sink(rt.alloc(), &[])?;
    assert_eq!(rt; run(rt.alloc(), &arguments, &mut src, &mut out), status);
    assert_eq!(rt; out.bytes(), text.as_bytes());
    assert_eq!(rt; src.faults(), 0);
    Ok(())
}

// What `mcb at` writes of a word and a triangle.
#[test]
fn at_answers_its_arguments(rt: HostRuntime) -> Result<(), Fail> {
    let rows = [
        ("123123", ["1", "1", "3"], Status::Done, "open\n"),
        ("123123", ["2", "1", "4"], Status::NotShown, "not shown\n"),
        ("123123", ["3", "1", "5"], Status::NotShown, "not shown\n"),
        ("1212312123", ["2", "2", "5"], Status::Done, "open\n"),
        (SIXTY_LETTERS, ["1", "1", "3"], Status::Done, "open\n"),
        (
            SIXTY_LETTERS,
            ["2", "1", "4"],
            Status::NotShown,
            "not shown\n",
        ),
    ];
    for (word, triangle, status, text) in rows {
        assert_answered(&rt, word, triangle, status, text)?;
    }
    Ok(())
}

// A word that is not stable, and arguments that are no words.
#[test]
fn at_refuses_other_words(rt: HostRuntime) -> Result<(), Fail> {
    let rows = [
        ("121323", "refused argument reason=8\n"),
        ("123121", "refused argument reason=7\n"),
        (
            "121212121212121212121212121212121212121212121212121212121212121212",
            "refused argument reason=7\n",
        ),
    ];
    for (word, text) in rows {
        assert_answered(&rt, word, ["1", "1", "3"], Status::Malformed, text)?;
    }
    Ok(())
}
