use crate::tests::fixtures::{arguments_of, source};
use crate::{Status, run};
use mcb_ends::MemSink;
use std::alloc::{AllocError, Global};
use std::process::Abort;
use std::test::Fail;

/// The unfolding of 123123 in the equilateral triangle, of which the upper and the lower corners lie on two lines.
const PICTURE: &str = "<svg xmlns=\"http://www.w3.org/2000/svg\" viewBox=\"-600 -966 6200 4530\">
<polygon points=\"-500,-866 -500,866 1000,0\" fill=\"none\" stroke=\"black\"/>
<polygon points=\"1000,1732 -500,866 1000,0\" fill=\"none\" stroke=\"black\"/>
<polygon points=\"1000,1732 2500,866 1000,0\" fill=\"none\" stroke=\"black\"/>
<polygon points=\"1000,1732 2500,866 2500,2598\" fill=\"none\" stroke=\"black\"/>
<polygon points=\"4000,1732 2500,866 2500,2598\" fill=\"none\" stroke=\"black\"/>
<polygon points=\"4000,1732 4000,3464 2500,2598\" fill=\"none\" stroke=\"black\"/>
<polygon points=\"4000,1732 4000,3464 5500,2598\" fill=\"none\" stroke=\"black\"/>
<circle cx=\"1000\" cy=\"0\" r=\"40\" fill=\"blue\"/>
<circle cx=\"1000\" cy=\"0\" r=\"40\" fill=\"blue\"/>
<circle cx=\"2500\" cy=\"866\" r=\"40\" fill=\"blue\"/>
<circle cx=\"2500\" cy=\"866\" r=\"40\" fill=\"blue\"/>
<circle cx=\"4000\" cy=\"1732\" r=\"40\" fill=\"blue\"/>
<circle cx=\"4000\" cy=\"1732\" r=\"40\" fill=\"blue\"/>
<circle cx=\"-500\" cy=\"866\" r=\"40\" fill=\"red\"/>
<circle cx=\"1000\" cy=\"1732\" r=\"40\" fill=\"red\"/>
<circle cx=\"1000\" cy=\"1732\" r=\"40\" fill=\"red\"/>
<circle cx=\"2500\" cy=\"2598\" r=\"40\" fill=\"red\"/>
<circle cx=\"2500\" cy=\"2598\" r=\"40\" fill=\"red\"/>
<circle cx=\"4000\" cy=\"3464\" r=\"40\" fill=\"red\"/>
</svg>
";

// It reads nothing.
fn assert_answered(
    rt: &(impl Abort + Alloc<A = Global>),
    arguments: &[&str],
    status: Status,
    text: &str,
) -> Result<(), AllocError> {
    let arguments = arguments_of(rt.alloc(), arguments)?;
    let mut src = source(rt.alloc(), b"", 16, &[1])?;
    let mut out = MemSink::new(rt.alloc(), 4096, 7, Vec::new(rt.alloc()))?;
    assert_eq!(rt; run(rt.alloc(), &arguments, &mut src, &mut out), status);
    assert_eq!(rt; out.bytes(), text.as_bytes());
    assert_eq!(rt; src.faults(), 0);
    Ok(())
}

#[test]
fn unfold_draws_123123(rt: HostRuntime) -> Result<(), Fail> {
    let arguments = ["unfold", "123123", "1", "1", "3"];
    assert_answered(&rt, &arguments, Status::Done, PICTURE)?;
    Ok(())
}

// What is no word, and what is no triangle.
#[test]
fn unfold_refuses_other_arguments(rt: HostRuntime) -> Result<(), Fail> {
    let arguments = ["unfold", "123121", "1", "1", "3"];
    let refused = "refused argument reason=7\n";
    assert_answered(&rt, &arguments, Status::Malformed, refused)?;
    let arguments = ["unfold", "123123", "1", "1", "2"];
    assert_answered(&rt, &arguments, Status::Usage, "")?;
    let arguments = ["unfold", "123123", "1", "1"];
    assert_answered(&rt, &arguments, Status::Usage, "")?;
    Ok(())
}

// The word need not be stable.
#[test]
fn unfold_draws_an_unstable_word(rt: HostRuntime) -> Result<(), Fail> {
    let arguments = arguments_of(rt.alloc(), &["unfold", "121323", "1", "1", "3"])?;
    let mut src = source(rt.alloc(), b"", 16, &[1])?;
    let mut out = MemSink::new(rt.alloc(), 4096, 7, Vec::new(rt.alloc()))?;
    assert_eq!(rt;
        run(rt.alloc(), &arguments, &mut src, &mut out),
        Status::Done
    );
    Ok(())
}
