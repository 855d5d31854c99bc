use crate::Status;
use crate::tests::fixtures::{arguments_of, assert_answer, assert_faults, joined};
use std::alloc::{AllocError, Global};
use std::process::Abort;
use std::test::Fail;

// One triangle: the corners (346794, 701782), (349525, 701782) and (346794, 699051) of the picture.
const FIRST: &str =
    "mcbcover 1\ngrid 384\npolygon 3\n127 127\n128 127\n127 128\nwords 1\n123123\ndepth 7\n";

// What is seen of it: 2731 units, and 170 more on each side.
const VIEW: &str =
    "<svg xmlns=\"http://www.w3.org/2000/svg\" viewBox=\"346624 698881 3071 3071\">\n";

const OUTLINE: &str =
    "<polygon points=\"346794,701782 349525,701782 346794,699051\" fill=\"none\" stroke=\"black\" stroke-width=\"6\"/>\n";

// Two such triangles, which have one edge in common, and two words.
const REGIONS: &str =
    "mcbcover 2\ngrid 384\nregions 2\npolygon 3\n127 127\n128 127\n127 128\npolygon 3\n128 127\n128 128\n127 128\n\
    words 2\n123123\n1212312123\ndepth 2\n";

const OTHER_OUTLINE: &str =
    "<polygon points=\"349525,701782 349525,699051 346794,699051\" fill=\"none\" stroke=\"black\" stroke-width=\"6\"/>\n";

// A header of version 3 with a depth at which corners are judged, and a tree with one such box and its levels above.
const DEEP: &str =
    "mcbcover 3\ngrid 384\nregions 1\npolygon 3\n127 127\n128 127\n127 128\nwords 1\n123123\ndepth 10\n";

const CORNERS: &str = "s\ns\ns\ns\ns\ns\ns\ns\ns\ns\nq 1\no\no\no\n\
    o\no\no\no\no\no\no\no\no\no\no\no\no\no\no\no\no\no\no\no\no\no\no\no\no\no\no\nend complete\n";

// A tree with a claim that is false and leaves that are uncovered.
const OPEN: &str = "s\no\nu\nw 1\nu\nend open 2\n";

const LAST: &str = "</svg>\n";

// A leaf in the colour of its word, or black; an opacity for one that is judged at its corners; nothing for one that is outside.
#[test]
fn draw_draws_each_leaf(rt: HostRuntime) -> Result<(), Fail> {
    assert_drawn(&rt, &[FIRST, "o\nend complete\n"], &[VIEW, OUTLINE, LAST])?;
    let leaves = [
        VIEW,
        "<rect x=\"524288\" y=\"524288\" width=\"524288\" height=\"524288\" fill=\"black\"/>\n",
        "<rect x=\"0\" y=\"0\" width=\"524288\" height=\"524288\" fill=\"#d6c6dd\"/>\n",
        "<rect x=\"524288\" y=\"0\" width=\"524288\" height=\"524288\" fill=\"black\"/>\n",
        OUTLINE,
        LAST,
    ];
    assert_drawn(&rt, &[FIRST, OPEN], &leaves)?;
    let corners = [
        VIEW,
        "<rect x=\"0\" y=\"1047552\" width=\"1024\" height=\"1024\" fill=\"#d6c6dd\" fill-opacity=\"0.75\"/>\n",
        OUTLINE,
        LAST,
    ];
    assert_drawn(&rt, &[DEEP, CORNERS], &corners)?;
    Ok(())
}

#[test]
fn draw_draws_each_polygon(rt: HostRuntime) -> Result<(), Fail> {
    let text = [
        VIEW,
        "<rect x=\"786432\" y=\"786432\" width=\"262144\" height=\"262144\" fill=\"#ac5834\"/>\n",
        "<rect x=\"786432\" y=\"524288\" width=\"262144\" height=\"262144\" fill=\"#d6c6dd\"/>\n",
        OUTLINE,
        OTHER_OUTLINE,
        LAST,
    ];
    let tree = "s\no\ns\no\nw 2\no\nw 1\no\no\nend complete\n";
    assert_drawn(&rt, &[REGIONS, tree], &text)?;
    Ok(())
}

// The picture of the file with these parts has those.
fn assert_drawn(
    rt: &(impl Abort + Alloc<A = Global>),
    before: &[&str],
    after: &[&str],
) -> Result<(), AllocError> {
    let alloc = rt.alloc();
    let arguments = arguments_of(alloc, &["draw"])?;
    let file = joined(alloc, before)?;
    let text = joined(alloc, after)?;
    assert_answer(rt, &arguments, file.as_bytes(), Status::Done, text.as_str())
}

// What is no covering file, to the end of the input, is refused at its first line that offends, and nothing else is written.
#[test]
fn draw_refuses_other_inputs(rt: HostRuntime) -> Result<(), Fail> {
    let alloc = rt.alloc();
    let arguments = arguments_of(alloc, &["draw"])?;
    let rows = [
        ("o\nend complete", "refused line=11 reason=2\n"),
        ("o\nend complete\ns", "refused line=12 reason=13\n"),
        ("u\nend complete\n", "refused line=11 reason=13\n"),
        ("w 2\n", "refused line=10 reason=4\n"),
        ("q 1\n", "refused line=10 reason=3\n"),
        ("s\ns\ns\ns\ns\ns\ns\ns\n", "refused line=17 reason=9\n"),
    ];
    for (tree, text) in rows {
        let file = joined(alloc, &[FIRST, tree])?;
        assert_answer(&rt, &arguments, file.as_bytes(), Status::Malformed, text)?;
    }
    let shallow = joined(alloc, &[DEEP, "q 1\nend complete\n"])?;
    let text = "refused line=11 reason=15\n";
    assert_answer(&rt, &arguments, shallow.as_bytes(), Status::Malformed, text)?;
    Ok(())
}

#[test]
fn draw_lays_faults_to_the_outside(rt: HostRuntime) -> Result<(), Fail> {
    let alloc = rt.alloc();
    let arguments = arguments_of(alloc, &["draw"])?;
    let file = joined(alloc, &[FIRST, OPEN])?;
    assert_faults(&rt, &arguments, file.as_bytes(), 16)?;
    Ok(())
}
