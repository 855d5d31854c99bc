use crate::Status;
use crate::tests::fixtures::{arguments_of, assert_answer, joined};
use std::alloc::{AllocError, Global};
use std::process::Abort;
use std::test::Fail;

// A covering file, part by part: its tree begins on line 10, and has `w 1` on line 26.
const HEADER: &str =
    "mcbcover 1\ngrid 384\npolygon 3\n127 127\n128 127\n127 128\nwords 1\n123123\ndepth 7\n";

const FIRST_NODES: &str = "s\ns\no\no\no\ns\ns\no\no\no\n";

const LAST_NODES: &str =
    "s\ns\no\no\no\ns\nw 1\no\no\no\no\no\no\no\no\no\no\no\no\nend complete\n";

// The same with the first leaf left uncovered.
const FIRST_UNCOVERED: &str = "s\ns\nu\no\no\ns\ns\no\no\no\n";

const LAST_OPEN: &str = "s\ns\no\no\no\ns\nw 1\no\no\no\no\no\no\no\no\no\no\no\no\nend open 1\n";

// In place of the last nodes: one box is shown whole.
const WHOLE_BOX: &str = "w 1\no\no\no\no\no\no\nend complete\n";

// The same box, shown in four parts.
const FOUR_PARTS: &str = "s\nw 1\nw 1\nw 1\nw 1\no\no\no\no\no\no\nend complete\n";

// The box that is shown is said to be outside.
const OUTSIDE: &str = "s\ns\no\no\no\ns\no\no\no\no\no\no\no\no\no\no\no\no\no\nend complete\n";

// Two halves of one tree, and the whole.
const SQUARE: &str =
    "mcbcover 1\ngrid 64\npolygon 4\n31 15\n33 15\n33 17\n31 17\nwords 1\n123123\ndepth 2\n";

const FIRST_HALF: &str = "s\nu\ns\nu\no\nu\no\no\no\nend open 3\n";

const SECOND_HALF: &str = "s\ns\no\nu\no\nu\nu\no\no\nend open 3\n";

const BOTH_HALVES: &str = "s\ns\no\nu\no\nu\ns\nu\no\nu\no\no\no\nend open 4\n";

// The inputs, file by file and each in its parts, are answered so.
fn assert_merged(
    rt: &(impl Abort + Alloc<A = Global>),
    files: &[&str],
    status: Status,
    text: &[&str],
) -> Result<(), AllocError> {
    let alloc = rt.alloc();
    let arguments = arguments_of(alloc, &["merge"])?;
    let input = joined(alloc, files)?;
    let wanted = joined(alloc, text)?;
    assert_answer(rt, &arguments, input.as_bytes(), status, wanted.as_str())
}

#[test]
fn merge_folds_and_fills(rt: HostRuntime) -> Result<(), Fail> {
    let whole = [HEADER, FIRST_NODES, LAST_NODES];
    let fewer = [HEADER, FIRST_NODES, WHOLE_BOX];
    let first = [
        HEADER,
        FIRST_NODES,
        LAST_NODES,
        HEADER,
        FIRST_NODES,
        WHOLE_BOX,
    ];
    assert_merged(&rt, &first, Status::Done, &fewer)?;
    let parts = [
        HEADER,
        FIRST_NODES,
        FOUR_PARTS,
        HEADER,
        FIRST_NODES,
        FOUR_PARTS,
    ];
    assert_merged(&rt, &parts, Status::Done, &fewer)?;
    let same = [
        HEADER,
        FIRST_NODES,
        LAST_NODES,
        HEADER,
        FIRST_NODES,
        LAST_NODES,
    ];
    assert_merged(&rt, &same, Status::Done, &whole)?;
    let halves = [SQUARE, FIRST_HALF, SQUARE, SECOND_HALF];
    assert_merged(&rt, &halves, Status::NotShown, &[SQUARE, BOTH_HALVES])?;
    Ok(())
}

// A box that one file leaves uncovered is the other's.
#[test]
fn merge_keeps_what_both_leave_open(rt: HostRuntime) -> Result<(), Fail> {
    let whole = [HEADER, FIRST_NODES, LAST_NODES];
    let open = [HEADER, FIRST_UNCOVERED, LAST_OPEN];
    let filled = [
        HEADER,
        FIRST_UNCOVERED,
        LAST_OPEN,
        HEADER,
        FIRST_NODES,
        LAST_NODES,
    ];
    assert_merged(&rt, &filled, Status::Done, &whole)?;
    let same = [
        HEADER,
        FIRST_UNCOVERED,
        LAST_OPEN,
        HEADER,
        FIRST_UNCOVERED,
        LAST_OPEN,
    ];
    assert_merged(&rt, &same, Status::NotShown, &open)?;
    Ok(())
}

#[test]
fn merge_names_the_line_through_both_files(rt: HostRuntime) -> Result<(), Fail> {
    let text = ["refused line=40 reason=2\n"];
    let alone = [HEADER, FIRST_NODES, LAST_NODES];
    assert_merged(&rt, &alone, Status::Malformed, &text)?;
    let text = ["refused line=41 reason=16\n"];
    let other = [HEADER, FIRST_NODES, LAST_NODES, SQUARE, FIRST_HALF];
    assert_merged(&rt, &other, Status::Malformed, &text)?;
    let text = ["refused line=65 reason=10\n"];
    let outside = [
        HEADER,
        FIRST_NODES,
        LAST_NODES,
        HEADER,
        FIRST_NODES,
        OUTSIDE,
    ];
    assert_merged(&rt, &outside, Status::NotShown, &text)?;
    Ok(())
}
