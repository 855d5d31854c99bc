use crate::{HeadFault, MAX_NODES, Node, Reason, Tree, read_tree, write_tree};
use mcb_ends::{LineReader, MemSink, MemSource};
use std::alloc::{AllocError, Global};
use std::test::Fail;

const FILE: &str =
    "mcbcover 1\ngrid 384\npolygon 3\n127 127\n128 127\n127 128\nwords 1\n123123\ndepth 1\ns\no\nu\nw 1\nu\nend open 2\n";

const UPGRADED: &str =
    "mcbcover 2\ngrid 384\nregions 1\npolygon 3\n127 127\n128 127\n127 128\nwords 1\n123123\ndepth 1\ns\no\nu\nw 1\nu\nend open 2\n";

const NODES: [Node; 5] = [
    Node::Split,
    Node::Outside,
    Node::Uncovered,
    Node::Shown(1),
    Node::Uncovered,
];

// The file, and then this text.
fn source(alloc: Global, more: &str) -> Result<MemSource, AllocError> {
    let mut text = String::from_str(alloc, FILE)?;
    text.push_str(more)?;
    Ok(MemSource::new(text.as_bytes().to_vec(alloc)?, 16, Vec::new(alloc)))
}

#[test]
fn reads_one_file_after_another(rt: HostRuntime) -> Result<(), Fail> {
    let alloc = rt.alloc();
    let mut src = source(alloc, FILE)?;
    let mut lines = LineReader::new();
    let first = read_tree(alloc, 5, &mut lines, &mut src)?;
    assert_eq!(rt; lines.number(), 15);
    let second = read_tree(alloc, 5, &mut lines, &mut src)?;
    assert_eq!(rt; lines.number(), 30);
    for tree in [&first, &second] {
        assert_eq!(rt; tree.header().depth(), 1);
        assert_eq!(rt; tree.nodes(), NODES.as_slice());
        assert_eq!(rt; tree.uncovered(), 2);
    }
    Ok(())
}

// The lines of a second file are counted over both.
#[test]
fn refuses_a_line_of_the_second_file(rt: HostRuntime) -> Result<(), Fail> {
    let alloc = rt.alloc();
    let rows = [
        ("", 16, Reason::Ends),
        ("mcbjob 1\n", 16, Reason::OtherLine),
        (
            "mcbcover 1\ngrid 384\npolygon 3\n127 127\n128 127\n127 128\nwords 1\n123123\ndepth 0\ns\n",
            25,
            Reason::SplitTooDeep,
        ),
        (
            "mcbcover 1\ngrid 384\npolygon 3\n127 127\n128 127\n127 128\nwords 1\n123123\ndepth 2\ns\ns\no\no\no\no\n",
            30,
            Reason::TooMany,
        ),
        (
            "mcbcover 1\ngrid 384\npolygon 3\n127 127\n128 127\n127 128\nwords 1\n123123\ndepth 0\nu\nend complete\n",
            26,
            Reason::EndLine,
        ),
    ];
    for (second, line, reason) in rows {
        let mut src = source(alloc, second)?;
        let mut lines = LineReader::new();
        let _first: Tree = read_tree(alloc, 5, &mut lines, &mut src)?;
        let fault = read_tree(alloc, 5, &mut lines, &mut src).err();
        assert_eq!(rt; fault, Some(HeadFault::Line { line, reason }), "{second:?}");
    }
    Ok(())
}

#[test]
fn writes_an_upgraded_file(rt: HostRuntime) -> Result<(), Fail> {
    let alloc = rt.alloc();
    let mut src = source(alloc, "")?;
    let tree = read_tree(alloc, MAX_NODES, &mut LineReader::new(), &mut src)?.upgraded(2);
    let mut out = MemSink::new(alloc, 1000, 7, Vec::new(alloc))?;
    assert!(rt; write_tree(&tree, &mut out).is_ok());
    assert_eq!(rt; out.bytes(), UPGRADED.as_bytes());
    Ok(())
}
