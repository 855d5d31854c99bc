use crate::tests::fixtures::{arguments_of, assert_answer, sink, source};
use crate::{Status, run};
use std::test::Fail;

const TERMS: &str = "-3 -3 1\n-3 -1 -1\n-1 -3 -1\n-1 1 1\n1 -1 1\n1 1 -1\n";

// Three parts, and the shifts of all members.
#[test]
fn family_writes_all_shifts(rt: HostRuntime) -> Result<(), Fail> {
    let alone = format!(in rt.alloc(); "stable\nbase 0\nstep 6\n{TERMS}end\n")?;
    let between = format!(in rt.alloc(); "stable\nbase 6\n{TERMS}step 6\n{TERMS}end\n")?;
    let rows = [
        (["family", "-", "123123", "-"], alone.as_str()),
        (["family", "12", "312312", "3123"], between.as_str()),
        (["family", "12", "12", "12"], "unstable\n"),
        (["family", "-", "12", "3123"], "unstable\n"),
    ];
    for (arguments, text) in rows {
        let arguments = arguments_of(rt.alloc(), &arguments)?;
        assert_answer(&rt, &arguments, b"", Status::Done, text)?;
    }
    Ok(())
}

#[test]
fn family_refuses_what_is_none(rt: HostRuntime) -> Result<(), Fail> {
    let rows = [["family", "1", "2", "3"], ["family", "-", "123121", "-"]];
    for arguments in rows {
        let arguments = arguments_of(rt.alloc(), &arguments)?;
        let text = "refused argument reason=7\n";
        assert_answer(&rt, &arguments, b"", Status::Malformed, text)?;
    }
    Ok(())
}

// Three parts and a triangle, and the members that are open there.
#[test]
fn family_tests_members_at_a_triangle(rt: HostRuntime) -> Result<(), Fail> {
    let rows = [
        (
            ["family", "-", "123123", "-", "1", "1", "3"],
            Status::Done,
            "1 open\n2 open\n3 open\n4 open\n5 open\n6 open\n7 open\n8 open\n9 open\n10 open\nend 10\n",
        ),
        (
            ["family", "12", "312312", "3123", "1", "1", "3"],
            Status::Done,
            "1 open\n2 open\n3 open\n4 open\n5 open\n6 open\n7 open\n8 open\n9 open\nend 9\n",
        ),
        (
            ["family", "-", "1231231231231231231", "-", "2", "1", "4"],
            Status::Malformed,
            "refused argument reason=7\n",
        ),
        (
            ["family", "-", "123123", "-", "2", "1", "4"],
            Status::NotShown,
            "1 not shown\n2 not shown\n3 not shown\n4 not shown\n5 not shown\n6 not shown\n7 not shown\n8 not shown\n9 not shown\n10 not shown\nend 10\n",
        ),
        (
            ["family", "12", "12", "12", "1", "1", "3"],
            Status::Malformed,
            "refused argument reason=8\n",
        ),
    ];
    for (arguments, status, text) in rows {
        let arguments = arguments_of(rt.alloc(), &arguments)?;
        assert_answer(&rt, &arguments, b"", status, text)?;
    }
    Ok(())
}

// A sink that fails in its third call has what it took before.
#[test]
fn family_lays_a_fault_to_the_sink(rt: HostRuntime) -> Result<(), Fail> {
    let arguments = arguments_of(rt.alloc(), &["family", "-", "123123", "-"])?;
    let mut src = source(rt.alloc(), b"", 16, &[1])?;
    let mut out = sink(rt.alloc(), &[3])?;
    assert_eq!(rt;
        run(rt.alloc(), &arguments, &mut src, &mut out),
        Status::WriteFault
    );
    assert_eq!(rt; src.faults(), 0);
    assert_eq!(rt; out.faults(), 1);
    Ok(())
}
