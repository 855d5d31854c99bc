use crate::tests::fixtures::{arguments_of, assert_answer, sink, source};
use crate::{Status, run};
use std::test::Fail;

// Jobs by their numbers.
#[test]
fn job_writes_the_job_of_a_number(rt: HostRuntime) -> Result<(), Fail> {
    let rows = [
        (
            "1",
            "mcbjob 1\ngrid 768\npolygon 3\n257 254\n257 257\n254 257\nwords 1\n123123\ndepth 10\nend\n",
        ),
        (
            "20",
            "mcbjob 1\ngrid 768\npolygon 3\n276 216\n276 276\n216 276\nwords 1\n123123\ndepth 10\nend\n",
        ),
        (
            "127",
            "mcbjob 1\ngrid 768\npolygon 3\n383 2\n383 383\n2 383\nwords 1\n123123\ndepth 10\nend\n",
        ),
    ];
    for (number, text) in rows {
        let arguments = arguments_of(rt.alloc(), &["job", number])?;
        assert_answer(&rt, &arguments, b"", Status::Done, text)?;
    }
    Ok(())
}

// A sink that fails in its third call has what it took before.
#[test]
fn job_lays_a_fault_to_the_sink(rt: HostRuntime) -> Result<(), Fail> {
    let arguments = arguments_of(rt.alloc(), &["job", "20"])?;
    let mut src = source(rt.alloc(), b"", 16, &[1])?;
    let mut out = sink(rt.alloc(), &[3])?;
    assert_eq!(rt;
        run(rt.alloc(), &arguments, &mut src, &mut out),
        Status::WriteFault
    );
    assert_eq!(rt; out.bytes(), b"mcbjob 1\ngrid ".as_slice());
    assert_eq!(rt; src.faults(), 0);
    Ok(())
}
