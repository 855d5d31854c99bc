use crate::{MergeFault, fold, merge, overlay};
use covering_claims::prepare_words;
use covering_file::Node;
use covering_file::Node::{Outside, Shown, Split};
use edge_words::Word;
use mcb_ends::MemSource;
use pi_bounds::Coarse;
use std::alloc::{AllocError, Global};
use std::process::Abort;
use std::test::Fail;

// The nodes of a tree. Each letter is the line of one, and a digit that of the word of this number.
fn nodes(alloc: Global, text: &str) -> Result<Vec<Node>, AllocError> {
    let mut nodes = Vec::new(alloc);
    for letter in text.bytes() {
        nodes.push(match letter {
            b's' => Node::Split,
            b'o' => Node::Outside,
            b'0'..=b'9' => Node::Shown(u32::from(letter - b'0')),
            _ => Node::Uncovered,
        })?;
    }
    Ok(nodes)
}

// Two trees, and their overlay.
const OVERLAYS: [(&str, &str, &str); 8] = [
    ("susuouooo", "ssououuoo", "ssouousuouooo"),
    ("u", "soooo", "soooo"),
    ("soooo", "u", "soooo"),
    ("u", "u", "u"),
    ("1", "soooo", "1"),
    ("soooo", "2", "2"),
    ("1", "2", "1"),
    ("s1uuo", "su2uo", "s12uo"),
];

#[test]
fn lays_trees_over_each_other(rt: HostRuntime) -> Result<(), Fail> {
    let alloc = rt.alloc();
    for (first, second, both) in OVERLAYS {
        let first = nodes(alloc, first)?;
        let second = nodes(alloc, second)?;
        assert!(rt; first.len() <= 20 && second.len() <= 20);
        let laid = overlay(alloc, &first, &second)?;
        assert_eq!(rt; laid, nodes(alloc, both)?);
    }
    Ok(())
}

#[test]
fn folds_four_shown_leaves(rt: HostRuntime) -> Result<(), Fail> {
    let alloc = rt.alloc();
    let word = Word::read(alloc, b"123123")?;
    let mut tests = prepare_words::<Coarse>(alloc, &[word])?;
    assert!(rt; tests.len() == 1);
    let tree = [
        Split,
        Split,
        Outside,
        Outside,
        Outside,
        Split,
        Split,
        Outside,
        Outside,
        Outside,
        Split,
        Shown(1),
        Shown(1),
        Shown(1),
        Shown(1),
        Outside,
        Outside,
        Outside,
        Outside,
        Outside,
        Outside,
    ];
    let folded = fold(alloc, &tree, &mut tests)?;
    assert_eq!(rt; folded, nodes(alloc, "ssooossooo1oooooo")?);
    Ok(())
}

// On the unit square no word is shown.
#[test]
fn keeps_four_shown_leaves(rt: HostRuntime) -> Result<(), Fail> {
    let alloc = rt.alloc();
    let word = Word::read(alloc, b"123123")?;
    let mut tests = prepare_words::<Coarse>(alloc, &[word])?;
    assert!(rt; tests.len() == 1);
    let tree = [Split, Shown(1), Shown(1), Shown(1), Shown(1)];
    let folded = fold(alloc, &tree, &mut tests)?;
    assert_eq!(rt; folded, nodes(alloc, "s1111")?);
    Ok(())
}

// Two halves of a covering of a square.
const SQUARE: &str =
    "mcbcover 1\ngrid 64\npolygon 4\n31 15\n33 15\n33 17\n31 17\nwords 1\n123123\ndepth 2\n";

const FIRST_HALF: &str = "s\nu\ns\nu\no\nu\no\no\no\nend open 3\n";

const SECOND_HALF: &str = "s\ns\no\nu\no\nu\nu\no\no\nend open 3\n";

fn halves(alloc: Global) -> Result<MemSource, AllocError> {
    let mut text = String::from_str(alloc, SQUARE)?;
    text.push_str(FIRST_HALF)?;
    text.push_str(SQUARE)?;
    text.push_str(SECOND_HALF)?;
    Ok(MemSource::new(text.as_bytes().to_vec(alloc)?, 4096, Vec::new(alloc)))
}

// Both halves have 13 nodes, and leave four boxes uncovered.
#[test]
fn merges_within_a_limit(rt: HostRuntime) -> Result<(), Fail> {
    let alloc = rt.alloc();
    let mut src = halves(alloc)?;
    let full = merge(alloc, 9, &mut src).err();
    assert!(rt; full == Some(MergeFault::Full { nodes: 13 }));
    let mut src = halves(alloc)?;
    let merged = merge(alloc, 13, &mut src)?;
    assert_eq!(rt; merged.nodes().len(), 13);
    assert_eq!(rt; merged.uncovered(), 4);
    Ok(())
}

// A covering of 29 nodes.
const WHOLE: &str =
    "mcbcover 1\ngrid 384\npolygon 3\n127 127\n128 127\n127 128\nwords 1\n123123\ndepth 7\n\
    s\ns\no\no\no\ns\ns\no\no\no\ns\ns\no\no\no\ns\nw 1\no\no\no\no\no\no\no\no\no\no\no\no\nend complete\n";

// The limit is that of the merge, and not of both files.
#[test]
fn merges_as_many_nodes_as_the_limit(rt: HostRuntime) -> Result<(), Fail> {
    let alloc = rt.alloc();
    let mut text = String::from_str(alloc, WHOLE)?;
    text.push_str(WHOLE)?;
    let mut src = MemSource::new(text.as_bytes().to_vec(alloc)?, 4096, Vec::new(alloc));
    let merged = merge(alloc, 29, &mut src)?;
    assert_eq!(rt; merged.nodes().len(), 29);
    assert_eq!(rt; merged.uncovered(), 0);
    Ok(())
}
