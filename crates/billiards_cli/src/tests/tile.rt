use crate::tests::fixtures::{arguments_of, assert_answer, sink, source};
use crate::{Status, run};
use std::test::Fail;

const GRAY: &str = "<svg xmlns=\"http://www.w3.org/2000/svg\" viewBox=\"0 0 1024 1024\">\n\
    <rect x=\"0\" y=\"0\" width=\"1024\" height=\"1024\" fill=\"gray\"/>\n\
    </svg>\n";

const QUARTERS: &str = "<svg xmlns=\"http://www.w3.org/2000/svg\" viewBox=\"0 0 1024 1024\">\n\
    <rect x=\"0\" y=\"512\" width=\"512\" height=\"512\" fill=\"gray\"/>\n\
    <rect x=\"512\" y=\"512\" width=\"512\" height=\"512\" fill=\"gray\"/>\n\
    <rect x=\"0\" y=\"0\" width=\"512\" height=\"512\" fill=\"gray\"/>\n\
    <rect x=\"512\" y=\"0\" width=\"512\" height=\"512\" fill=\"silver\"/>\n\
    </svg>\n";

// A word and a depth, with the picture or the refusal.
#[test]
fn tile_draws_its_word(rt: HostRuntime) -> Result<(), Fail> {
    let rows = [
        (["tile", "123123", "0"], Status::Done, GRAY),
        (["tile", "123123", "1"], Status::Done, QUARTERS),
        (["tile", "123123", "10"], Status::Full, ""),
        (
            ["tile", "121323", "1"],
            Status::Malformed,
            "refused argument reason=8\n",
        ),
        (
            ["tile", "123121", "1"],
            Status::Malformed,
            "refused argument reason=7\n",
        ),
    ];
    for (arguments, status, text) in rows {
        let arguments = arguments_of(rt.alloc(), &arguments)?;
        assert_answer(&rt, &arguments, b"", status, text)?;
    }
    Ok(())
}

// A sink that fails in its first call has nothing.
#[test]
fn tile_lays_a_fault_to_the_sink(rt: HostRuntime) -> Result<(), Fail> {
    let arguments = arguments_of(rt.alloc(), &["tile", "123123", "1"])?;
    let mut src = source(rt.alloc(), b"", 16, &[1])?;
    let mut out = sink(rt.alloc(), &[1])?;
    assert_eq!(rt;
        run(rt.alloc(), &arguments, &mut src, &mut out),
        Status::WriteFault
    );
    assert_eq!(rt; out.bytes().len(), 0);
    assert_eq!(rt; src.faults(), 0);
    Ok(())
}
