use crate::tests::fixtures::{
    arguments_of, assert_answer, assert_faults, assert_write_fault, sink, source,
};
use crate::{Status, run};
use std::test::Fail;

// A small triangle near the equilateral one, which a box of level 4 holds.
const SMALL: &str =
    "mcbjob 1\ngrid 384\npolygon 3\n127 127\n128 127\n127 128\nwords 1\n123123\ndepth 7\nend\n";

const SMALL_COVER: &str =
    "mcbcover 1\ngrid 384\npolygon 3\n127 127\n128 127\n127 128\nwords 1\n123123\ndepth 7\ns\ns\no\no\no\ns\ns\no\no\no\nw 1\no\no\no\no\no\no\nend complete\n";

// The same, with no box below the unit square.
const SHALLOW: &str =
    "mcbjob 1\ngrid 384\npolygon 3\n127 127\n128 127\n127 128\nwords 1\n123123\ndepth 0\nend\n";

const SHALLOW_COVER: &str =
    "mcbcover 1\ngrid 384\npolygon 3\n127 127\n128 127\n127 128\nwords 1\n123123\ndepth 0\nu\nend open 1\n";

// A square round a right triangle.
const RIGHT: &str =
    "mcbjob 1\ngrid 64\npolygon 4\n31 15\n33 15\n33 17\n31 17\nwords 1\n123123\ndepth 2\nend\n";

const RIGHT_COVER: &str =
    "mcbcover 1\ngrid 64\npolygon 4\n31 15\n33 15\n33 17\n31 17\nwords 1\n123123\ndepth 2\ns\ns\no\nu\no\nu\ns\nu\no\nu\no\no\no\nend open 4\n";

// The job 20.
const GENERATED: &str =
    "mcbjob 1\ngrid 768\npolygon 3\n276 216\n276 276\n216 276\nwords 1\n123123\ndepth 10\nend\n";

const GENERATED_COVER: &str =
    "mcbcover 1\ngrid 768\npolygon 3\n276 216\n276 276\n216 276\nwords 1\n123123\ndepth 10\n\
    s\ns\no\no\no\ns\ns\no\ns\no\nw 1\nw 1\nw 1\ns\no\nw 1\nw 1\nw 1\nw 1\no\no\no\no\no\no\nend complete\n";

// Two polygons in one box of level 7, in version 2.
const REGIONS: &str =
    "mcbjob 2\ngrid 384\nregions 2\npolygon 3\n127 127\n128 127\n127 128\npolygon 3\n128 127\n128 128\n127 128\nwords 1\n123123\ndepth 7\nend\n";

const REGIONS_COVER: &str =
    "mcbcover 2\ngrid 384\nregions 2\npolygon 3\n127 127\n128 127\n127 128\npolygon 3\n128 127\n128 128\n127 128\n\
    words 1\n123123\ndepth 7\ns\ns\no\no\no\ns\ns\no\no\no\nw 1\no\no\no\no\no\no\nend complete\n";

#[test]
fn cover_writes_a_covering(rt: HostRuntime) -> Result<(), Fail> {
    let rows = [
        (SMALL, Status::Done, SMALL_COVER),
        (SHALLOW, Status::NotShown, SHALLOW_COVER),
        (RIGHT, Status::NotShown, RIGHT_COVER),
        (GENERATED, Status::Done, GENERATED_COVER),
        (REGIONS, Status::Done, REGIONS_COVER),
    ];
    let arguments = arguments_of(rt.alloc(), &["cover"])?;
    for (job, status, text) in rows {
        assert_answer(&rt, &arguments, job.as_bytes(), status, text)?;
    }
    Ok(())
}

// What is no job, to the end of the input, is refused at its first line that offends, and nothing else is written.
#[test]
fn cover_refuses_other_inputs(rt: HostRuntime) -> Result<(), Fail> {
    let rows: [(&[u8], &str); 6] = [
        (b"", "refused line=1 reason=2\n"),
        (b"mcbcover 1\n", "refused line=1 reason=3\n"),
        (b"mcbjob 1\ngrid 0\n", "refused line=2 reason=4\n"),
        (
            b"mcbjob 1\ngrid 384\npolygon 3\n127 127\n127 128\n128 127\n",
            "refused line=6 reason=6\n",
        ),
        (
            b"mcbjob 1\ngrid 384\npolygon 3\n127 127\n128 127\n127 128\nwords 1\n123123\ndepth 7\nu\n",
            "refused line=10 reason=13\n",
        ),
        (
            b"mcbjob 1\ngrid 384\npolygon 3\n127 127\n128 127\n127 128\nwords 1\n123123\ndepth 7\nend\ns",
            "refused line=11 reason=13\n",
        ),
    ];
    let arguments = arguments_of(rt.alloc(), &["cover"])?;
    for (input, text) in rows {
        assert_answer(&rt, &arguments, input, Status::Malformed, text)?;
    }
    Ok(())
}

// What is complete is accepted.
#[test]
fn check_accepts_what_cover_completes(rt: HostRuntime) -> Result<(), Fail> {
    let cover = arguments_of(rt.alloc(), &["cover"])?;
    let check = arguments_of(rt.alloc(), &["check"])?;
    for (job, text) in [
        (SMALL, "accepted nodes=17 words=1\n"),
        (GENERATED, "accepted nodes=25 words=1\n"),
    ] {
        let mut src = source(rt.alloc(), job.as_bytes(), 16, &[])?;
        let mut file = sink(rt.alloc(), &[])?;
        assert_eq!(rt; run(rt.alloc(), &cover, &mut src, &mut file), Status::Done);
        assert_answer(&rt, &check, file.bytes(), Status::Done, text)?;
    }
    Ok(())
}

#[test]
fn cover_lays_faults_to_the_outside(rt: HostRuntime) -> Result<(), Fail> {
    let arguments = arguments_of(rt.alloc(), &["cover"])?;
    assert_faults(&rt, &arguments, SMALL.as_bytes(), 16)?;
    Ok(())
}

// The first byte of the covering fails, one of its header and the last one: those before it were written.
#[test]
fn cover_answers_a_failed_write(rt: HostRuntime) -> Result<(), Fail> {
    let arguments = arguments_of(rt.alloc(), &["cover"])?;
    for call in [1, 12, 126] {
        assert_write_fault(&rt, &arguments, SMALL.as_bytes(), SMALL_COVER, call)?;
    }
    Ok(())
}
