use crate::Status;
use crate::tests::fixtures::{
    arguments_of, assert_answer, assert_faults, assert_read_fault, assert_write_fault, joined,
};
use std::alloc::{AllocError, Global};
use std::process::Abort;
use std::test::Fail;

// The parts of a covering file that is accepted. It has 39 lines: the first nodes stand on lines 10 to 14, and `w 1` on line 26.
const GRID: &str = "mcbcover 1\ngrid 384\n";

const TRIANGLE: &str = "polygon 3\n127 127\n128 127\n127 128\n";

const WORD: &str = "words 1\n123123\n";

const DEPTH: &str = "depth 7\n";

const FIRST_NODES: &str = "s\ns\no\no\no\n";

const LAST_NODES: &str =
    "s\ns\no\no\no\ns\ns\no\no\no\ns\nw 1\no\no\no\no\no\no\no\no\no\no\no\no\n";

const END: &str = "end complete\n";

const FILE: [&str; 7] = [GRID, TRIANGLE, WORD, DEPTH, FIRST_NODES, LAST_NODES, END];

// The longest line, and one byte more.
const ONES_80: &str =
    "11111111111111111111111111111111111111111111111111111111111111111111111111111111";

const ONES_81: &str =
    "111111111111111111111111111111111111111111111111111111111111111111111111111111111";

const ACCEPTED: &str = "accepted nodes=29 words=1\n";

// In place of the last nodes: the square (5, 5) of level 4 is shown whole.
const FEWER_NODES: &str = "s\ns\no\no\no\nw 1\no\no\no\no\no\no\n";

// A square round a right triangle, and four boxes of it that are left uncovered.
const RIGHT_TRIANGLES: &str = "polygon 4\n31 15\n33 15\n33 17\n31 17\n";

const UNCOVERED: &str = "depth 2\ns\ns\no\nu\no\nu\ns\nu\no\nu\no\no\no\nend open 4\n";

// The same polygon and another one, in a file of version 2: the first nodes stand on lines 15 to 19.
const TWO_REGIONS: &str = "mcbcover 2\ngrid 384\nregions 2\n";

const BESIDE: &str = "polygon 3\n128 127\n128 128\n127 128\n";

// In the box of the fourth node, which is said to be outside.
const ELSEWHERE: &str = "polygon 3\n100 100\n101 100\n100 101\n";

// The file with another text in one of its lines, counted from 1.
fn with_line(alloc: Global, number: u32, text: &str) -> Result<String, AllocError> {
    let file = joined(alloc, &FILE)?;
    let mut changed = String::new(alloc);
    for (here, line) in (1..=39).zip(file.lines()) {
        changed.push_str(if here == number { text } else { line })?;
        changed.push_str("\n")?;
    }
    Ok(changed)
}

// The file with another depth, and with the box (0, 0) divided at each level down to level 20.
fn deep_file(alloc: Global, depth: &str) -> Result<String, AllocError> {
    let mut file = joined(alloc, &[GRID, TRIANGLE, WORD, depth])?;
    for _ in 0..20 {
        file.push_str("s\n")?;
    }
    for _ in 0..57 {
        file.push_str("o\n")?;
    }
    file.push_str(LAST_NODES)?;
    file.push_str(END)?;
    Ok(file)
}

fn assert_judged(
    rt: &(impl Abort + Alloc<A = Global>),
    file: &str,
    status: Status,
    text: &str,
) -> Result<(), AllocError> {
    let arguments = arguments_of(rt.alloc(), &["check"])?;
    assert_answer(rt, &arguments, file.as_bytes(), status, text)
}

// The file with another text in this line is refused at it.
fn assert_refused(
    rt: &(impl Abort + Alloc<A = Global>),
    number: u32,
    line: &str,
    reason: u32,
) -> Result<(), AllocError> {
    let file = with_line(rt.alloc(), number, line)?;
    let text = format!(in rt.alloc(); "refused line={number} reason={reason}\n")?;
    assert_judged(rt, file.as_str(), Status::Malformed, text.as_str())
}

// A line of the file replaced by another text. It is refused itself, for the reason with this number.
#[test]
fn check_names_the_line_that_is_wrong(rt: HostRuntime) -> Result<(), Fail> {
    let rows = [
        (1, "mcbcover 01", 3),
        (2, "grid  384", 3),
        (2, "grid 384\r", 4),
        (2, "grid 0384", 4),
        (2, "grid 0", 4),
        (2, "grid 1048577", 4),
        (3, "polygon 2", 4),
        (3, "polygon 17", 4),
        (4, "127", 3),
        (4, "127 127 ", 3),
        (4, "127 0127", 4),
        (4, "127 1048577", 4),
        (4, "0 127", 5),
        (4, "192 192", 5),
        (7, "words 0", 4),
        (7, "words 33", 4),
        (8, ONES_81, 1),
        (8, ONES_80, 7),
        (8, "", 7),
        (8, "121323", 8),
        (9, "depth 07", 4),
        (9, "depth 21", 4),
        (10, "S", 3),
        (26, "w", 3),
        (26, "w 0", 4),
        (26, "w 2", 4),
        (26, "s", 9),
        (39, "end open 3", 13),
        (39, "end  complete", 13),
        (39, ONES_81, 1),
    ];
    for (number, line, reason) in rows {
        assert_refused(&rt, number, line, reason)?;
    }
    Ok(())
}

// Another depth, and other nodes.
#[test]
fn check_names_the_box_that_is_wrong(rt: HostRuntime) -> Result<(), Fail> {
    let rows = [
        (
            9,
            "depth 6",
            Status::Malformed,
            "refused line=25 reason=9\n",
        ),
        (12, "u", Status::NotShown, "refused line=12 reason=12\n"),
        (26, "o", Status::NotShown, "refused line=26 reason=10\n"),
        (26, "w 1", Status::Done, ACCEPTED),
    ];
    for (number, line, status, text) in rows {
        let file = with_line(rt.alloc(), number, line)?;
        assert_judged(&rt, file.as_str(), status, text)?;
    }
    Ok(())
}

// The file cut before each of its bytes. The line that is cut, or that does not begin, is named.
#[test]
fn check_refuses_a_file_that_is_cut(rt: HostRuntime) -> Result<(), Fail> {
    let alloc = rt.alloc();
    let arguments = arguments_of(alloc, &["check"])?;
    let file = joined(alloc, &FILE)?;
    let mut kept = Vec::new(alloc);
    for (number, line) in (1..=39).zip(file.split_inclusive('\n')) {
        let refused = format!(in alloc; "refused line={number} reason=2\n")?;
        for byte in line.bytes() {
            assert_answer(&rt, &arguments, &kept, Status::Malformed, refused.as_str())?;
            kept.push(byte)?;
        }
    }
    assert_eq!(rt; kept.len(), 150);
    assert_answer(&rt, &arguments, &kept, Status::Done, ACCEPTED)?;
    Ok(())
}

// Other trees, and a line after the end line.
#[test]
fn check_judges_whole_files(rt: HostRuntime) -> Result<(), Fail> {
    let rows: [(&[&str], Status, &str); 5] = [
        (&FILE, Status::Done, ACCEPTED),
        (
            &[GRID, TRIANGLE, WORD, DEPTH, FIRST_NODES, FEWER_NODES, END],
            Status::Done,
            "accepted nodes=17 words=1\n",
        ),
        // The whole square has triangles without that corridor.
        (
            &[GRID, TRIANGLE, WORD, "depth 0\nw 1\n", END],
            Status::NotShown,
            "refused line=10 reason=11\n",
        ),
        // Four squares round a right triangle are left uncovered.
        (
            &["mcbcover 1\ngrid 64\n", RIGHT_TRIANGLES, WORD, UNCOVERED],
            Status::NotShown,
            "refused line=14 reason=12\n",
        ),
        (
            &[
                GRID,
                TRIANGLE,
                WORD,
                DEPTH,
                FIRST_NODES,
                LAST_NODES,
                END,
                "o\n",
            ],
            Status::Malformed,
            "refused line=40 reason=13\n",
        ),
    ];
    for (parts, status, text) in rows {
        let file = joined(rt.alloc(), parts)?;
        assert_judged(&rt, file.as_str(), status, text)?;
    }
    Ok(())
}

// The corners run clockwise, three of them lie on one line, and they go round a star.
#[test]
fn check_refuses_what_is_not_convex(rt: HostRuntime) -> Result<(), Fail> {
    for (polygon, text) in [
        (
            "polygon 3\n127 127\n127 128\n128 127\n",
            "refused line=6 reason=6\n",
        ),
        (
            "polygon 4\n100 100\n110 100\n120 100\n110 110\n",
            "refused line=7 reason=6\n",
        ),
        (
            "polygon 5\n110 100\n124 110\n106 110\n120 100\n115 118\n",
            "refused line=8 reason=6\n",
        ),
    ] {
        let file = joined(rt.alloc(), &[GRID, polygon, WORD, DEPTH])?;
        assert_judged(&rt, file.as_str(), Status::Malformed, text)?;
    }
    Ok(())
}

// The greatest depth that a file may have is deep enough for it, and the one below is not.
#[test]
fn check_goes_to_the_greatest_depth(rt: HostRuntime) -> Result<(), Fail> {
    for (depth, status, text) in [
        ("depth 20\n", Status::Done, "accepted nodes=101 words=1\n"),
        (
            "depth 19\n",
            Status::Malformed,
            "refused line=29 reason=9\n",
        ),
    ] {
        let file = deep_file(rt.alloc(), depth)?;
        assert_judged(&rt, file.as_str(), status, text)?;
    }
    Ok(())
}

#[test]
fn check_lays_faults_to_the_outside(rt: HostRuntime) -> Result<(), Fail> {
    let arguments = arguments_of(rt.alloc(), &["check"])?;
    let file = joined(rt.alloc(), &FILE)?;
    assert_faults(&rt, &arguments, file.as_bytes(), 16)?;
    Ok(())
}

// Each read fails in turn: ten hand out 16 bytes and less, and one finds the end of the input.
#[test]
fn check_answers_each_failed_read(rt: HostRuntime) -> Result<(), Fail> {
    let arguments = arguments_of(rt.alloc(), &["check"])?;
    let file = joined(rt.alloc(), &FILE)?;
    for call in 1..=11 {
        assert_read_fault(&rt, &arguments, file.as_bytes(), call)?;
    }
    Ok(())
}

// Each byte of the answer fails in turn.
#[test]
fn check_answers_each_failed_write(rt: HostRuntime) -> Result<(), Fail> {
    let arguments = arguments_of(rt.alloc(), &["check"])?;
    let file = joined(rt.alloc(), &FILE)?;
    for call in 1..=26 {
        assert_write_fault(&rt, &arguments, file.as_bytes(), ACCEPTED, call)?;
    }
    Ok(())
}

// Files of version 2, whose boxes are apart from each polygon or not.
#[test]
fn check_judges_regions(rt: HostRuntime) -> Result<(), Fail> {
    let nodes = [FIRST_NODES, LAST_NODES, END];
    let rows: [(&str, &str, Status, &str); 5] = [
        (TWO_REGIONS, BESIDE, Status::Done, ACCEPTED),
        (
            TWO_REGIONS,
            ELSEWHERE,
            Status::NotShown,
            "refused line=22 reason=10\n",
        ),
        (
            "mcbcover 2\ngrid 384\nregions 9\n",
            BESIDE,
            Status::Malformed,
            "refused line=3 reason=4\n",
        ),
        (
            "mcbcover 2\ngrid 384\n",
            BESIDE,
            Status::Malformed,
            "refused line=3 reason=3\n",
        ),
        (
            "mcbcover 2\ngrid 384\nregions 1\n",
            "",
            Status::Done,
            ACCEPTED,
        ),
    ];
    for (head, second, status, text) in rows {
        let header = joined(rt.alloc(), &[head, TRIANGLE, second, WORD, DEPTH])?;
        let tree = joined(rt.alloc(), &nodes)?;
        let file = joined(rt.alloc(), &[header.as_str(), tree.as_str()])?;
        assert_judged(&rt, file.as_str(), status, text)?;
    }
    Ok(())
}
