use crate::{CheckFault, Verdict, check, judge};
use covering_claims::prepare;
use covering_file::{FileKind, Reason, read_header};
use mcb_ends::{LineReader, MemSource};
use std::alloc::{AllocError, Global};
use std::process::Abort;
use std::test::Fail;

const MOST: u32 = 2_000_000;

// A polygon near the equilateral triangle, in one box of level 7.
const SMALL: &str = "grid 384\npolygon 3\n127 127\n128 127\n127 128\n";

// A tree down to that box. Each letter is the line of a node, and a digit that of the word of this number.
const DEEP: &str = "ssooossooossooos1oooooooooooo";

// One that shows the word on a box of level 4.
const SHORT: &str = "ssooossooo1oooooo";

// The beginning of a file of version 3, which judges a box of level 1 at its corners.
const LARGE: &str =
    "mcbcover 3\ngrid 384\nregions 1\npolygon 3\n127 127\n128 127\n127 128\nwords 1\n123123\ndepth 7\ns\nq 1\n";

const COMPLETE: &str = "end complete\n";

// A covering file with the word 123123.
fn file(
    alloc: Global,
    outline: &str,
    depth: &str,
    nodes: &str,
    end: &str,
) -> Result<Vec<u8>, AllocError> {
    let mut text = String::from_str(alloc, "mcbcover 1\n")?;
    text.push_str(outline)?;
    text.push_str("words 1\n123123\ndepth ")?;
    text.push_str(depth)?;
    text.push('\n')?;
    for node in nodes.chars() {
        if node.is_ascii_digit() {
            text.push_str("w ")?;
        }
        text.push(node)?;
        text.push('\n')?;
    }
    text.push_str(end)?;
    text.as_bytes().to_vec(alloc)
}

// What is said of these bytes, read in pieces of 16.
fn said(rt: &impl Abort, alloc: Global, limit: u32, bytes: Vec<u8>) -> Result<Verdict, CheckFault> {
    assert!(rt; limit >= 1);
    assert!(rt; limit <= MOST);
    let mut src = MemSource::new(bytes, 16, Vec::new(alloc));
    check(alloc, limit, &mut src)
}

#[test]
fn accepts_whole_files(rt: HostRuntime) -> Result<(), Fail> {
    let alloc = rt.alloc();
    let rows = [(DEEP, MOST, 29), (DEEP, 29, 29), (SHORT, MOST, 17)];
    for (tree, limit, nodes) in rows {
        let bytes = file(alloc, SMALL, "7", tree, COMPLETE)?;
        assert_eq!(rt;
            said(&rt, alloc, limit, bytes),
            Ok(Verdict::Accepted { nodes, words: 1 }),
            "{tree} {limit}"
        );
    }
    Ok(())
}

// One node too many is the last of a line's reasons.
#[test]
fn refuses_one_node_too_many(rt: HostRuntime) -> Result<(), Fail> {
    let alloc = rt.alloc();
    let rows = [
        (DEEP, Reason::TooMany),
        ("ssooossooossooos1ooooooooooou", Reason::Uncovered),
    ];
    for (nodes, reason) in rows {
        let bytes = file(alloc, SMALL, "7", nodes, COMPLETE)?;
        assert_eq!(rt;
            said(&rt, alloc, 28, bytes),
            Ok(Verdict::Refused { line: 38, reason }),
            "{nodes}"
        );
    }
    Ok(())
}

// The polygon lies to the right, in the second child, so that the first is apart and the second is not.
#[test]
fn goes_to_the_right_before_up(rt: HostRuntime) -> Result<(), Fail> {
    let alloc = rt.alloc();
    let right = "grid 64\npolygon 3\n40 8\n44 8\n40 12\n";
    let bytes = file(alloc, right, "1", "soooo", COMPLETE)?;
    assert_eq!(rt;
        said(&rt, alloc, MOST, bytes),
        Ok(Verdict::Refused {
            line: 12,
            reason: Reason::NotApart
        })
    );
    Ok(())
}

// The third call for bytes fails, in the header, or the last one, which is to find the end.
#[test]
fn says_where_a_read_failed(rt: HostRuntime) -> Result<(), Fail> {
    let alloc = rt.alloc();
    for call in [3, 11] {
        let bytes = file(alloc, SMALL, "7", DEEP, COMPLETE)?;
        let mut src = MemSource::new(bytes, 16, [call].to_vec(alloc)?);
        assert_eq!(rt;
            check(alloc, MOST, &mut src),
            Err(CheckFault::Read),
            "{call}"
        );
        assert_eq!(rt; src.faults(), 1);
    }
    Ok(())
}

// The header is read first, and the rest is judged after it.
#[test]
fn judges_after_a_header(rt: HostRuntime) -> Result<(), Fail> {
    let alloc = rt.alloc();
    let bytes = file(alloc, SMALL, "7", DEEP, COMPLETE)?;
    let mut src = MemSource::new(bytes, 16, Vec::new(alloc));
    let mut lines = LineReader::new();
    let header = read_header(alloc, FileKind::Cover, &mut lines, &mut src)?;
    let mut tests = prepare(alloc, &header)?;
    let verdict = judge(
        alloc,
        &header,
        tests.as_mut_slice(),
        MOST,
        &mut lines,
        &mut src,
    );
    assert_eq!(rt;
        verdict,
        Ok(Verdict::Accepted {
            nodes: 29,
            words: 1
        })
    );
    Ok(())
}

// No corners of a large box are judged, and one node too many is the lesser reason.
#[test]
fn refuses_corners_of_large_boxes(rt: HostRuntime) -> Result<(), Fail> {
    let alloc = rt.alloc();
    for (limit, reason) in [(1, Reason::TooMany), (2, Reason::TooShallow)] {
        let bytes = LARGE.as_bytes().to_vec(alloc)?;
        assert_eq!(rt;
            said(&rt, alloc, limit, bytes),
            Ok(Verdict::Refused { line: 12, reason })
        );
    }
    Ok(())
}
