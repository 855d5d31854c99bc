use crate::Status;
use crate::tests::fixtures::{arguments_of, assert_answer, assert_faults, joined};
use std::alloc::{AllocError, Global};
use std::process::Abort;
use std::test::Fail;

const FIRST: &str =
    "mcbcover 1\ngrid 384\npolygon 3\n127 127\n128 127\n127 128\nwords 1\n123123\ndepth 7\n";

// The same header in version 2.
const SECOND: &str =
    "mcbcover 2\ngrid 384\nregions 1\npolygon 3\n127 127\n128 127\n127 128\nwords 1\n123123\ndepth 7\n";

// Two polygons.
const REGIONS: &str =
    "mcbcover 2\ngrid 384\nregions 2\npolygon 3\n127 127\n128 127\n127 128\npolygon 3\n128 127\n128 128\n127 128\n\
    words 1\n123123\ndepth 7\n";

// The same header as the first in version 3.
const THIRD: &str =
    "mcbcover 3\ngrid 384\nregions 1\npolygon 3\n127 127\n128 127\n127 128\nwords 1\n123123\ndepth 7\n";

// A header of version 3 with a depth at which corners are judged, and a tree with one such box and its levels above.
const DEEP: &str =
    "mcbcover 3\ngrid 384\nregions 1\npolygon 3\n127 127\n128 127\n127 128\nwords 1\n123123\ndepth 10\n";

const CORNERS: &str = "s\ns\ns\ns\ns\ns\ns\ns\ns\ns\nq 1\no\no\no\n\
    o\no\no\no\no\no\no\no\no\no\no\no\no\no\no\no\no\no\no\no\no\no\no\no\no\no\no\nend complete\n";

// A tree with claims that are false and leaves that are uncovered.
const OPEN: &str = "s\no\nu\nw 1\nu\nend open 2\n";

const WHOLE: &str =
    "s\ns\no\no\no\ns\ns\no\no\no\ns\ns\no\no\no\ns\nw 1\no\no\no\no\no\no\no\no\no\no\no\no\nend complete\n";

#[test]
fn upgrade_writes_the_same_tree(rt: HostRuntime) -> Result<(), Fail> {
    let alloc = rt.alloc();
    let rows = [
        ("2", FIRST, SECOND),
        ("2", SECOND, SECOND),
        ("2", REGIONS, REGIONS),
        ("2", THIRD, THIRD),
        ("3", FIRST, THIRD),
        ("3", SECOND, THIRD),
        ("3", THIRD, THIRD),
    ];
    for tree in [WHOLE, OPEN, "u\nend open 1\n"] {
        for (version, before, after) in rows {
            assert_upgraded(&rt, version, &[before, tree], &[after, tree])?;
        }
    }
    for version in ["2", "3"] {
        assert_upgraded(&rt, version, &[DEEP, CORNERS], &[DEEP, CORNERS])?;
    }
    Ok(())
}

// The file with these parts is upgraded to the version: the text has those.
fn assert_upgraded(
    rt: &(impl Abort + Alloc<A = Global>),
    version: &str,
    before: &[&str],
    after: &[&str],
) -> Result<(), AllocError> {
    let alloc = rt.alloc();
    let arguments = arguments_of(alloc, &["upgrade", version])?;
    let file = joined(alloc, before)?;
    let text = joined(alloc, after)?;
    assert_answer(rt, &arguments, file.as_bytes(), Status::Done, text.as_str())
}

// What is no covering file, to the end of the input, is refused at its first line that offends, and nothing else is written.
#[test]
fn upgrade_refuses_other_inputs(rt: HostRuntime) -> Result<(), Fail> {
    let alloc = rt.alloc();
    let rows = [
        ("o\nend complete", "refused line=11 reason=2\n"),
        ("o\nend complete\ns", "refused line=12 reason=13\n"),
        ("o\nend open 0\n", "refused line=11 reason=13\n"),
        ("u\nend complete\n", "refused line=11 reason=13\n"),
        ("u\nend open 2\n", "refused line=11 reason=13\n"),
        ("u\nend open 01\n", "refused line=11 reason=13\n"),
        ("w 2\n", "refused line=10 reason=4\n"),
        ("x\n", "refused line=10 reason=3\n"),
        ("s\ns\ns\ns\ns\ns\ns\ns\n", "refused line=17 reason=9\n"),
        ("s\no\n", "refused line=12 reason=2\n"),
    ];
    let arguments = arguments_of(alloc, &["upgrade", "2"])?;
    for (tree, text) in rows {
        let file = joined(alloc, &[FIRST, tree])?;
        assert_answer(&rt, &arguments, file.as_bytes(), Status::Malformed, text)?;
    }
    let shallow = joined(alloc, &[THIRD, "q 1\nend complete\n"])?;
    let text = "refused line=11 reason=15\n";
    assert_answer(&rt, &arguments, shallow.as_bytes(), Status::Malformed, text)?;
    Ok(())
}

#[test]
fn upgrade_lays_faults_to_the_outside(rt: HostRuntime) -> Result<(), Fail> {
    let alloc = rt.alloc();
    let arguments = arguments_of(alloc, &["upgrade", "2"])?;
    let file = joined(alloc, &[FIRST, OPEN])?;
    assert_faults(&rt, &arguments, file.as_bytes(), 16)?;
    Ok(())
}
