use crate::Status;
use crate::tests::fixtures::{arguments_of, assert_answer, joined};
use std::alloc::{AllocError, Global};
use std::process::Abort;
use std::test::Fail;

// A job and a covering of it whose one shown box is so near the rim of the word's tile that its corners show it and its centre does
// not. The tree begins on line 11, and the box stands on line 31.
const HEADER: &str =
    "grid 3072\nregions 1\npolygon 3\n1531 769\n1532 769\n1531 770\nwords 1\n123123\ndepth 10\n";

const FIRST_NODES: &str = "s\ns\no\no\no\ns\no\ns\no\ns\no\ns\no\ns\no\ns\no\ns\no\ns\n";

const LAST_NODES: &str = "o\no\no\no\no\no\no\no\no\no\no\no\no\no\no\no\no\no\no\no\n";

fn assert_answered(
    rt: &(impl Abort + Alloc<A = Global>),
    command: &str,
    input: &[&str],
    status: Status,
    text: &[&str],
) -> Result<(), AllocError> {
    let alloc = rt.alloc();
    let arguments = arguments_of(alloc, &[command])?;
    let input = joined(alloc, input)?;
    let text = joined(alloc, text)?;
    assert_answer(rt, &arguments, input.as_bytes(), status, text.as_str())
}

// In version 3 the box is covered by its corners. In version 2 it stays uncovered.
#[test]
fn covers_by_corners(rt: HostRuntime) -> Result<(), Fail> {
    let rows = [
        ("3\n", "q 1\n", "end complete\n", Status::Done),
        ("2\n", "u\n", "end open 1\n", Status::NotShown),
    ];
    for (version, leaf, end, status) in rows {
        let job = ["mcbjob ", version, HEADER, "end\n"];
        let file = [
            "mcbcover ",
            version,
            HEADER,
            FIRST_NODES,
            leaf,
            LAST_NODES,
            end,
        ];
        assert_answered(&rt, "cover", &job, status, &file)?;
    }
    Ok(())
}

// The file with another version, another first node, another leaf.
#[test]
fn checks_corners(rt: HostRuntime) -> Result<(), Fail> {
    let more = "s\no\no\no\ns\no\ns\no\ns\no\ns\no\ns\no\ns\no\ns\no\ns\n";
    let rows = [
        (
            "3\n",
            "s\n",
            "q 1\n",
            Status::Done,
            "accepted nodes=41 words=1\n",
        ),
        (
            "3\n",
            "s\n",
            "w 1\n",
            Status::NotShown,
            "refused line=31 reason=11\n",
        ),
        (
            "2\n",
            "s\n",
            "q 1\n",
            Status::Malformed,
            "refused line=31 reason=3\n",
        ),
        (
            "3\n",
            "s\n",
            "q 2\n",
            Status::Malformed,
            "refused line=31 reason=4\n",
        ),
        (
            "3\n",
            "q 1\n",
            "q 1\n",
            Status::Malformed,
            "refused line=11 reason=15\n",
        ),
    ];
    for (version, root, leaf, status, text) in rows {
        let file = [
            "mcbcover ",
            version,
            HEADER,
            root,
            more,
            leaf,
            LAST_NODES,
            "end complete\n",
        ];
        assert_answered(&rt, "check", &file, status, &[text])?;
    }
    Ok(())
}
