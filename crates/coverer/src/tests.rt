use crate::{CoverFault, Covered, cover};
use covering_file::{Header, read_job};
use mcb_ends::{MemSink, MemSource};
use std::alloc::{AllocError, Global};
use std::process::Abort;
use std::test::Fail;

const MOST: u32 = 2_000_000;

// A polygon near the equilateral triangle, in one box of level 7.
const SMALL: &str = "grid 384\npolygon 3\n127 127\n128 127\n127 128\nwords 1\n123123\n";

// The same with two words, of which the second is clear there and the first is not.
const SECOND: &str =
    "grid 384\npolygon 3\n127 127\n128 127\n127 128\nwords 2\n1212312123\n123123\n";

// A square round a right triangle.
const RIGHT: &str = "grid 64\npolygon 4\n31 15\n33 15\n33 17\n31 17\nwords 1\n123123\n";

// A triangle of 60 by 60 grid steps near the equilateral one.
const WIDE: &str = "grid 768\npolygon 3\n276 216\n276 276\n216 276\nwords 1\n123123\n";

// A triangle in the box (510, 256) of level 10, near the right triangles.
const RIM: &str =
    "grid 3072\nregions 1\npolygon 3\n1531 769\n1532 769\n1531 770\nwords 1\n123123\ndepth 10\nend\n";

// A covering file: its first lines, its nodes and its end. Each letter of the nodes is the line of one, and a digit that of
// the word of this number.
fn file(
    alloc: Global,
    first: &str,
    depth: &str,
    nodes: &str,
    end: &str,
) -> Result<String, AllocError> {
    let mut text = String::from_str(alloc, "mcbcover 1\n")?;
    text.push_str(first)?;
    text.push_str("depth ")?;
    text.push_str(depth)?;
    text.push('\n')?;
    for node in nodes.chars() {
        if node.is_ascii_digit() {
            text.push_str("w ")?;
        }
        text.push(node)?;
        text.push('\n')?;
    }
    text.push_str(end)?;
    Ok(text)
}

// The header of a job.
fn job(alloc: Global, first: &str, depth: &str) -> Result<Header, Fail> {
    let mut text = String::from_str(alloc, "mcbjob 1\n")?;
    text.push_str(first)?;
    text.push_str("depth ")?;
    text.push_str(depth)?;
    text.push_str("\nend\n")?;
    let bytes = text.as_bytes().to_vec(alloc)?;
    let mut src = MemSource::new(bytes, 4096, Vec::new(alloc));
    let header = read_job(alloc, &mut src)?;
    Ok(header)
}

// Covers a polygon with at most so many nodes.
fn covered(
    rt: &impl Abort,
    alloc: Global,
    header: &Header,
    limit: u32,
    sink: &mut MemSink,
) -> Result<Covered, CoverFault> {
    assert!(rt; 1 <= limit && limit <= MOST);
    cover(alloc, header, limit, sink)
}

#[test]
fn writes_each_node_by_its_cause(rt: HostRuntime) -> Result<(), Fail> {
    let alloc = rt.alloc();
    let rows = [
        (
            SMALL,
            "7",
            "ssooossooo1oooooo",
            "end complete\n",
            Covered::Complete { nodes: 17 },
        ),
        (
            SECOND,
            "7",
            "ssooossooo2oooooo",
            "end complete\n",
            Covered::Complete { nodes: 17 },
        ),
        (
            WIDE,
            "10",
            "ssooossoso111so1111oooooo",
            "end complete\n",
            Covered::Complete { nodes: 25 },
        ),
        (
            SMALL,
            "0",
            "u",
            "end open 1\n",
            Covered::OpenBoxes { nodes: 1, left: 1 },
        ),
        (
            RIGHT,
            "2",
            "ssouousuouooo",
            "end open 4\n",
            Covered::OpenBoxes { nodes: 13, left: 4 },
        ),
    ];
    for (first, depth, nodes, end, answer) in rows {
        let header = job(alloc, first, depth)?;
        let text = file(alloc, first, depth, nodes, end)?;
        let mut sink = MemSink::new(alloc, 4096, 7, Vec::new(alloc))?;
        assert_eq!(rt;
            covered(&rt, alloc, &header, MOST, &mut sink),
            Ok(answer),
            "{nodes}"
        );
        assert_eq!(rt; sink.bytes(), text.as_bytes(), "{nodes}");
    }
    Ok(())
}

// With 17 nodes the tree is whole; with 16 one is wanting, and no end line is written.
#[test]
fn stops_at_the_limit(rt: HostRuntime) -> Result<(), Fail> {
    let alloc = rt.alloc();
    let rows = [
        (16, "ssooossooo1ooooo", "", Covered::Full { nodes: 16 }),
        (
            17,
            "ssooossooo1oooooo",
            "end complete\n",
            Covered::Complete { nodes: 17 },
        ),
        (1, "s", "", Covered::Full { nodes: 1 }),
    ];
    let header = job(alloc, SMALL, "7")?;
    for (limit, nodes, end, answer) in rows {
        let text = file(alloc, SMALL, "7", nodes, end)?;
        let mut sink = MemSink::new(alloc, 4096, 4096, Vec::new(alloc))?;
        assert_eq!(rt;
            covered(&rt, alloc, &header, limit, &mut sink),
            Ok(answer),
            "{limit}"
        );
        assert_eq!(rt; sink.bytes(), text.as_bytes(), "{limit}");
    }
    Ok(())
}

// The room ends in the header, among the nodes, and in the end line; what was written is the beginning of the file.
#[test]
fn leaves_a_prefix_where_the_sink_fails(rt: HostRuntime) -> Result<(), Fail> {
    let alloc = rt.alloc();
    let header = job(alloc, SMALL, "7")?;
    let text = file(alloc, SMALL, "7", "ssooossooo1oooooo", "end complete\n")?;
    for room in [0, 40, 100, 125] {
        let mut sink = MemSink::new(alloc, room, 4096, Vec::new(alloc))?;
        assert_eq!(rt;
            covered(&rt, alloc, &header, MOST, &mut sink),
            Err(CoverFault::Write),
            "{room}"
        );
        assert_eq!(rt; sink.bytes().len(), room);
        assert!(rt; text.as_bytes().starts_with(sink.bytes()), "{room}");
        assert_eq!(rt; sink.faults(), 1);
    }
    Ok(())
}

// A box near the rim, which the centre does not show and the corners do, in version 3 alone.
#[test]
fn judges_corners_in_version_3(rt: HostRuntime) -> Result<(), Fail> {
    let alloc = rt.alloc();
    let rows = [
        ("mcbjob 3\n", "q 1\n", Covered::Complete { nodes: 41 }),
        (
            "mcbjob 2\n",
            "u\n",
            Covered::OpenBoxes { nodes: 41, left: 1 },
        ),
    ];
    for (first, node, answer) in rows {
        let mut text = String::from_str(alloc, first)?;
        text.push_str(RIM)?;
        let mut src = MemSource::new(text.as_bytes().to_vec(alloc)?, 4096, Vec::new(alloc));
        let header = read_job(alloc, &mut src)?;
        let mut sink = MemSink::new(alloc, 4096, 4096, Vec::new(alloc))?;
        assert_eq!(rt; covered(&rt, alloc, &header, MOST, &mut sink), Ok(answer));
        let bytes = sink.bytes();
        assert!(rt; bytes.len() >= 132);
        assert!(rt; bytes[132..].starts_with(node.as_bytes()));
    }
    Ok(())
}
