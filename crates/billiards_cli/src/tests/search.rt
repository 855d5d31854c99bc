use crate::tests::fixtures::{arguments_of, assert_answer, sink, source};
use crate::{Status, run};
use std::test::Fail;

// Triangles P/D, Q/D with a bound, and the words that are open there.
#[test]
fn search_lists_open_words(rt: HostRuntime) -> Result<(), Fail> {
    let rows = [
        (["search", "1", "1", "3", "6"], "123123\nend 1\n"),
        (["search", "1", "1", "3", "10"], "123123\nend 1\n"),
        (
            ["search", "2", "2", "5", "10"],
            "123123\n1212312123\nend 2\n",
        ),
        (["search", "3", "1", "5", "10"], "end 0\n"),
        (["search", "2", "1", "4", "10"], "end 0\n"),
    ];
    for (arguments, text) in rows {
        let arguments = arguments_of(rt.alloc(), &arguments)?;
        assert_answer(&rt, &arguments, b"", Status::Done, text)?;
    }
    Ok(())
}

// A sink that fails in its third call has what it took before.
#[test]
fn search_lays_a_fault_to_the_sink(rt: HostRuntime) -> Result<(), Fail> {
    let arguments = arguments_of(rt.alloc(), &["search", "2", "2", "5", "10"])?;
    let mut src = source(rt.alloc(), b"", 16, &[1])?;
    let mut out = sink(rt.alloc(), &[3])?;
    assert_eq!(rt;
        run(rt.alloc(), &arguments, &mut src, &mut out),
        Status::WriteFault
    );
    assert_eq!(rt; out.bytes(), b"123123\n".as_slice());
    assert_eq!(rt; src.faults(), 0);
    Ok(())
}
