// What no clause says: the picture of a covering, written out by hand.
use crate::{drawn_leaves, write_covering};
use covering_file::{MAX_NODES, read_tree};
use mcb_ends::{LineReader, MemSink, MemSource};
use std::test::Fail;

/// A triangle on a grid of 7, of which no corner but one number falls on a unit. Its tree is divided ten times, at last in the upper right.
const FILE: &str =
    "mcbcover 3\ngrid 7\nregions 1\npolygon 3\n1 1\n3 1\n1 2\nwords 2\n123123\n231231\ndepth 10\n\
    s\nw 2\no\nu\ns\no\no\no\ns\no\no\no\ns\no\no\no\ns\no\no\no\ns\no\no\no\ns\no\no\no\ns\no\no\no\ns\no\no\no\n\
    s\nq 1\no\nu\nw 1\nend open 2\n";

/// 2^20 / 7 is between 149796 and 149797, so the region is 299593 units wide and 149797 high. The margin is 18724, and the width of the line 748.
const PICTURE: &str =
    "<svg xmlns=\"http://www.w3.org/2000/svg\" viewBox=\"131072 730259 337041 187245\">
<rect x=\"0\" y=\"524288\" width=\"524288\" height=\"524288\" fill=\"#ac5834\"/>
<rect x=\"0\" y=\"0\" width=\"524288\" height=\"524288\" fill=\"black\"/>
<rect x=\"1046528\" y=\"1024\" width=\"1024\" height=\"1024\" fill=\"#d6c6dd\" fill-opacity=\"0.75\"/>
<rect x=\"1046528\" y=\"0\" width=\"1024\" height=\"1024\" fill=\"black\"/>
<rect x=\"1047552\" y=\"0\" width=\"1024\" height=\"1024\" fill=\"#d6c6dd\"/>
<polygon points=\"149796,898780 449389,898780 149796,748983\" fill=\"none\" stroke=\"black\" stroke-width=\"748\"/>
</svg>
";

#[test]
fn draws_a_covering(rt: HostRuntime) -> Result<(), Fail> {
    let alloc = rt.alloc();
    let mut src = MemSource::new(FILE.as_bytes().to_vec(alloc)?, 16, Vec::new(alloc));
    let tree = read_tree(alloc, MAX_NODES, &mut LineReader::new(), &mut src)?;
    let mut out = MemSink::new(alloc, 4096, 7, Vec::new(alloc))?;
    assert_eq!(rt; drawn_leaves(&tree), 5);
    assert!(rt; write_covering(alloc, &tree, &mut out).is_ok());
    assert_eq!(rt; out.bytes(), PICTURE.as_bytes());
    Ok(())
}
