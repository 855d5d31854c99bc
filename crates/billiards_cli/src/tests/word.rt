use crate::Status;
use crate::tests::fixtures::{arguments_of, assert_answer, assert_faults};
use std::test::Fail;

const SHIFT: &str = "stable\n-3 -3 1\n-3 -1 -1\n-1 -3 -1\n-1 1 1\n1 -1 1\n1 1 -1\nend 6\n";

const SHIFT_OF_TEN: &str =
    "stable\n-3 -3 10\n-3 -1 -10\n-1 -3 -10\n-1 1 10\n1 -1 10\n1 1 -10\nend 6\n";

const NO_WORD: &str = "refused line=1 reason=7\n";

const CUT_SHORT: &str = "refused line=1 reason=2\n";

const TOO_LONG: &str = "refused line=1 reason=1\n";

const MORE: &str = "refused line=2 reason=13\n";

// What `mcb word` writes of a word.
#[test]
fn word_answers_its_input(rt: HostRuntime) -> Result<(), Fail> {
    let rows: [(&[u8], &str); 4] = [
        (b"123123\n", SHIFT),
        (b"121323\n", "unstable\n"),
        (
            b"123123123123123123123123123123123123123123123123123123123123\n",
            SHIFT_OF_TEN,
        ),
        (
            b"1212121212121212121212121212121212121212121212121212121212121212\n",
            "unstable\n",
        ),
    ];
    let arguments = arguments_of(rt.alloc(), &["word"])?;
    for (input, text) in rows {
        assert_answer(&rt, &arguments, input, Status::Done, text)?;
    }
    Ok(())
}

// Which line of another input it names, and for which reason.
#[test]
fn word_refuses_other_inputs(rt: HostRuntime) -> Result<(), Fail> {
    let rows: [(&[u8], &str); 10] = [
        (b"123121\n", NO_WORD),
        (
            b"121212121212121212121212121212121212121212121212121212121212121212\n",
            NO_WORD,
        ),
        (b"\n", NO_WORD),
        (b"123124\n", NO_WORD),
        (b"", CUT_SHORT),
        (b"123123", CUT_SHORT),
        (b"123123\n1", MORE),
        (b"123123\n\n", MORE),
        (
            b"123123123123123123123123123123123123123123123123123123123123123123123123123123123",
            TOO_LONG,
        ),
        (
            b"12312312312312312312312312312312312312312312312312312312312312312312312312312312",
            CUT_SHORT,
        ),
    ];
    let arguments = arguments_of(rt.alloc(), &["word"])?;
    for (input, text) in rows {
        assert_answer(&rt, &arguments, input, Status::Malformed, text)?;
    }
    Ok(())
}

#[test]
fn word_lays_faults_to_the_outside(rt: HostRuntime) -> Result<(), Fail> {
    let arguments = arguments_of(rt.alloc(), &["word"])?;
    assert_faults(&rt, &arguments, b"123123\n", 3)?;
    Ok(())
}
