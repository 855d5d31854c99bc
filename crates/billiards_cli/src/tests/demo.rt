use crate::tests::fixtures::{arguments_of, assert_answer, sink, source};
use crate::{Status, run};
use std::test::Fail;

#[test]
fn demo_covers_and_checks(rt: HostRuntime) -> Result<(), Fail> {
    let arguments = arguments_of(rt.alloc(), &["demo", "20"])?;
    let text = "job 20\ncovered nodes=25 open=0\naccepted nodes=25 words=1\n";
    assert_answer(&rt, &arguments, b"", Status::Done, text)?;
    Ok(())
}

// This one comes so close to the right triangles that boxes are left uncovered.
#[test]
fn demo_leaves_boxes_uncovered(rt: HostRuntime) -> Result<(), Fail> {
    let arguments = arguments_of(rt.alloc(), &["demo", "127"])?;
    let mut src = source(rt.alloc(), b"", 16, &[1])?;
    let mut out = sink(rt.alloc(), &[])?;
    assert_eq!(rt;
        run(rt.alloc(), &arguments, &mut src, &mut out),
        Status::NotShown
    );
    assert!(rt; out.bytes().starts_with(b"job 127\ncovered nodes="));
    assert!(rt; out.bytes().ends_with(b" reason=12\n"));
    assert_eq!(rt; src.faults(), 0);
    Ok(())
}
