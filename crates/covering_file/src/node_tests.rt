use crate::{
    FileKind, Header, Node, Reason, read_header, read_node, write_end, write_header, write_node,
};
use edge_words::Word;
use mcb_ends::{Failed, LineReader, MemSink, MemSource};
use rational_polygon::{Polygon, Region};
use std::alloc::{AllocError, Global};
use std::test::Fail;

const COVER: &[u8] =
    b"mcbcover 1\ngrid 384\npolygon 3\n127 127\n128 127\n127 128\nwords 1\n123123\ndepth 7\n";

const JOB: &[u8] =
    b"mcbjob 1\ngrid 384\npolygon 3\n127 127\n128 127\n127 128\nwords 1\n123123\ndepth 7\n";

// The nodes of a tree that goes down seven levels to one leaf that is shown.
const NODES: [Node; 29] = [
    Node::Split,
    Node::Split,
    Node::Outside,
    Node::Outside,
    Node::Outside,
    Node::Split,
    Node::Split,
    Node::Outside,
    Node::Outside,
    Node::Outside,
    Node::Split,
    Node::Split,
    Node::Outside,
    Node::Outside,
    Node::Outside,
    Node::Split,
    Node::Shown(1),
    Node::Outside,
    Node::Outside,
    Node::Outside,
    Node::Outside,
    Node::Outside,
    Node::Outside,
    Node::Outside,
    Node::Outside,
    Node::Outside,
    Node::Outside,
    Node::Outside,
    Node::Outside,
];

const TREE: &[u8] =
    b"s\ns\no\no\no\ns\ns\no\no\no\ns\ns\no\no\no\ns\nw 1\no\no\no\no\no\no\no\no\no\no\no\no\n";

// A sink that takes so many bytes, in pieces of 7.
fn sink(alloc: Global, room: usize) -> Result<MemSink, AllocError> {
    MemSink::new(alloc, room, 7, Vec::new(alloc))
}

fn header(alloc: Global) -> Result<Header, Fail> {
    let corners = [(127, 127), (128, 127), (127, 128)].to_vec(alloc)?;
    let mut words = Vec::new(alloc);
    words.push(Word::read(alloc, b"123123")?)?;
    let polygon = Polygon::new(384, corners)?;
    let region = Region::new(vec![in alloc; polygon]?)?;
    Ok(Header::new(1, region, words, 7)?)
}

#[test]
fn reads_nodes(rt: HostRuntime) {
    let rows: [(&[u8], u32, Result<Node, Reason>); 29] = [
        (b"s", 1, Ok(Node::Split)),
        (b"o", 1, Ok(Node::Outside)),
        (b"u", 1, Ok(Node::Uncovered)),
        (b"w 1", 1, Ok(Node::Shown(1))),
        (b"w 32", 32, Ok(Node::Shown(32))),
        (b"w 10", 32, Ok(Node::Shown(10))),
        (b"w", 1, Err(Reason::OtherLine)),
        (b"w1", 1, Err(Reason::OtherLine)),
        (b"w 0", 1, Err(Reason::Number)),
        (b"w 2", 1, Err(Reason::Number)),
        (b"w 1", 0, Err(Reason::Number)),
        (b"w 33", 32, Err(Reason::Number)),
        (b"w 01", 1, Err(Reason::Number)),
        (b"w +1", 1, Err(Reason::Number)),
        (b"w ", 1, Err(Reason::Number)),
        (b"w x", 1, Err(Reason::Number)),
        (b"w 4294967297", 1, Err(Reason::Number)),
        (b"w  1", 1, Err(Reason::OtherLine)),
        (b"w 1 ", 1, Err(Reason::OtherLine)),
        (b" w 1", 1, Err(Reason::OtherLine)),
        (b"W 1", 1, Err(Reason::OtherLine)),
        (b"w 1\r", 1, Err(Reason::Number)),
        (b"S", 1, Err(Reason::OtherLine)),
        (b"s ", 1, Err(Reason::OtherLine)),
        (b"s\r", 1, Err(Reason::OtherLine)),
        (b"ss", 1, Err(Reason::OtherLine)),
        (b"end complete", 1, Err(Reason::OtherLine)),
        (b"", 1, Err(Reason::OtherLine)),
        (&[b's'; 81], 1, Err(Reason::OtherLine)),
    ];
    for (line, words, want) in rows {
        for version in [1, 2, 3] {
            assert_eq!(rt; read_node(line, words, version), want);
        }
    }
}

// Corners are judged in version 3 alone.
#[test]
fn reads_corner_nodes(rt: HostRuntime) {
    let rows: [(&[u8], u32, u8, Result<Node, Reason>); 10] = [
        (b"q 1", 1, 3, Ok(Node::Corner(1))),
        (b"q 32", 32, 3, Ok(Node::Corner(32))),
        (b"q 1", 1, 1, Err(Reason::OtherLine)),
        (b"q 1", 1, 2, Err(Reason::OtherLine)),
        (b"q 2", 1, 3, Err(Reason::Number)),
        (b"q 0", 1, 3, Err(Reason::Number)),
        (b"q 01", 1, 3, Err(Reason::Number)),
        (b"q 2", 1, 2, Err(Reason::OtherLine)),
        (b"q  1", 1, 3, Err(Reason::OtherLine)),
        (b"q", 1, 3, Err(Reason::OtherLine)),
    ];
    for (line, words, version, want) in rows {
        assert_eq!(rt; read_node(line, words, version), want);
    }
}

#[test]
fn writes_a_covering(rt: HostRuntime) -> Result<(), Fail> {
    let header = header(rt.alloc())?;
    let mut out = sink(rt.alloc(), 1000)?;
    assert_eq!(rt; write_header(&header, FileKind::Cover, &mut out), Ok(()));
    assert_eq!(rt; out.bytes(), COVER);

    let mut out = sink(rt.alloc(), 1000)?;
    assert_eq!(rt; write_header(&header, FileKind::Job, &mut out), Ok(()));
    assert_eq!(rt; out.bytes(), JOB);

    let mut out = sink(rt.alloc(), 1000)?;
    for node in NODES {
        assert_eq!(rt; write_node(node, &mut out), Ok(()));
    }
    assert_eq!(rt; out.bytes(), TREE);
    Ok(())
}

#[test]
fn writes_end_lines(rt: HostRuntime) -> Result<(), Fail> {
    let mut out = sink(rt.alloc(), 1000)?;
    assert_eq!(rt; write_end(0, &mut out), Ok(()));
    assert_eq!(rt; write_end(1, &mut out), Ok(()));
    assert_eq!(rt; write_end(3, &mut out), Ok(()));
    assert_eq!(rt; write_node(Node::Uncovered, &mut out), Ok(()));
    assert_eq!(rt; write_node(Node::Shown(32), &mut out), Ok(()));
    assert_eq!(rt; write_node(Node::Corner(7), &mut out), Ok(()));
    assert_eq!(rt;
        out.bytes(),
        b"end complete\nend open 1\nend open 3\nu\nw 32\nq 7\n".as_slice()
    );
    Ok(())
}

// What was taken before a failure is a prefix of the text.
#[test]
fn writes_a_prefix_where_the_room_ends(rt: HostRuntime) -> Result<(), Fail> {
    let header = header(rt.alloc())?;
    for room in 0..COVER.len() {
        let mut out = sink(rt.alloc(), room)?;
        assert_eq!(rt;
            write_header(&header, FileKind::Cover, &mut out),
            Err(Failed)
        );
        assert_eq!(rt; out.bytes(), &COVER[..room]);
    }
    let mut out = sink(rt.alloc(), 3)?;
    assert_eq!(rt; write_node(Node::Shown(10), &mut out), Err(Failed));
    assert_eq!(rt; out.bytes(), b"w 1".as_slice());
    Ok(())
}

// A header that was written is read again as the same.
#[test]
fn reads_what_was_written(rt: HostRuntime) -> Result<(), Fail> {
    let alloc = rt.alloc();
    let triangle = [(127, 127), (128, 127), (127, 128)];
    let square = [(31, 15), (33, 15), (33, 17), (31, 17)];
    let rows: [(u8, u32, &[(u32, u32)], &[&[u8]], u32); 3] = [
        (1, 384, &triangle, &[b"123123"], 7),
        (2, 64, &square, &[b"123123", b"1212312123"], 0),
        (3, 1_048_576, &triangle, &[b"1212312123", b"1212312123"], 20),
    ];
    for (version, grid, corners, spelled, depth) in rows {
        let mut words = Vec::new(alloc);
        for digits in spelled {
            words.push(Word::read(alloc, digits)?)?;
        }
        let polygon = Polygon::new(grid, corners.to_vec(alloc)?)?;
        let region = Region::new(vec![in alloc; polygon]?)?;
        let header = Header::new(version, region, words, depth)?;
        let mut out = sink(alloc, 1000)?;
        assert_eq!(rt; write_header(&header, FileKind::Cover, &mut out), Ok(()));
        let mut src = MemSource::new(out.bytes().to_vec(alloc)?, 16, Vec::new(alloc));
        let read = read_header(alloc, FileKind::Cover, &mut LineReader::new(), &mut src)?;
        assert_eq!(rt; read.version(), version);
        assert_eq!(rt; read.region().polygons()[0].grid(), grid);
        assert_eq!(rt; read.region().polygons()[0].corners(), corners);
        assert_eq!(rt; read.words().len(), spelled.len());
        assert_eq!(rt; read.depth(), depth);
        let mut again = sink(alloc, 1000)?;
        assert_eq!(rt; write_header(&read, FileKind::Cover, &mut again), Ok(()));
        assert_eq!(rt; again.bytes(), out.bytes());
    }
    Ok(())
}
