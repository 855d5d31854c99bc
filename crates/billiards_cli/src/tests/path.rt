use crate::tests::fixtures::{arguments_of, assert_answer, source};
use crate::{Status, run};
use mcb_ends::MemSink;
use std::alloc::{AllocError, Global};
use std::process::Abort;
use std::test::Fail;

// The answer for a word in the equilateral triangle, where it is done. It reads nothing.
fn path_of(
    rt: &(impl Abort + Alloc<A = Global>),
    arguments: &[&str],
) -> Result<MemSink, AllocError> {
    let arguments = arguments_of(rt.alloc(), arguments)?;
    let mut src = source(rt.alloc(), b"", 16, &[1])?;
    let mut out = MemSink::new(rt.alloc(), 4096, 7, Vec::new(rt.alloc()))?;
    assert_eq!(rt;
        run(rt.alloc(), &arguments, &mut src, &mut out),
        Status::Done
    );
    assert_eq!(rt; src.faults(), 0);
    Ok(out)
}

// The path through the feet of the altitudes. Its numbers are near the middle of each edge, which no text says exactly.
#[test]
fn path_shows_123123(rt: HostRuntime) -> Result<(), Fail> {
    let out = path_of(&rt, &["path", "123123", "1", "1", "3"])?;
    assert!(rt; out.bytes().starts_with(b"level "));
    assert!(rt; out.bytes().ends_with(b"\nend 6\n"));
    Ok(())
}

#[test]
fn path_draws_123123(rt: HostRuntime) -> Result<(), Fail> {
    let out = path_of(&rt, &["path", "123123", "1", "1", "3", "svg"])?;
    assert!(rt; out.bytes().starts_with(b"<svg "));
    assert!(rt; out.bytes().ends_with(b"stroke=\"red\"/>\n</svg>\n"));
    Ok(())
}

// A word that is not stable, one that is none, a right triangle, and words that ask for nothing.
#[test]
fn path_refuses_other_arguments(rt: HostRuntime) -> Result<(), Fail> {
    let arguments = arguments_of(rt.alloc(), &["path", "123123", "2", "1", "4"])?;
    assert_answer(&rt, &arguments, b"", Status::NotShown, "not shown\n")?;
    let arguments = arguments_of(rt.alloc(), &["path", "121323", "1", "1", "3"])?;
    let refused = "refused argument reason=8\n";
    assert_answer(&rt, &arguments, b"", Status::Malformed, refused)?;
    let arguments = arguments_of(rt.alloc(), &["path", "123121", "1", "1", "3", "svg"])?;
    let refused = "refused argument reason=7\n";
    assert_answer(&rt, &arguments, b"", Status::Malformed, refused)?;
    let arguments = arguments_of(rt.alloc(), &["path", "123123", "1", "1", "3", "png"])?;
    assert_answer(&rt, &arguments, b"", Status::Usage, "")?;
    Ok(())
}
