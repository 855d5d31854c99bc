use crate::{FileKind, HeadFault, Header, HeaderFault, Reason, read_header, read_job};
use edge_words::Word;
use mcb_ends::{Line, LineReader, MemSource};
use rational_polygon::{Polygon, Region};
use std::alloc::{AllocError, Global};
use std::test::Fail;

const CORNERS: [(u32, u32); 3] = [(127, 127), (128, 127), (127, 128)];

const COVER: &str =
    "mcbcover 1\ngrid 384\npolygon 3\n127 127\n128 127\n127 128\nwords 1\n123123\ndepth 7\ns\n";

const JOB: &str =
    "mcbjob 1\ngrid 384\npolygon 3\n127 127\n128 127\n127 128\nwords 1\n123123\ndepth 7\n";

fn told(alloc: Global, text: &str) -> Result<MemSource, AllocError> {
    Ok(MemSource::new(text.as_bytes().to_vec(alloc)?, 4096, Vec::new(alloc)))
}

fn cover_fault(alloc: Global, text: &str) -> Result<Option<HeadFault>, AllocError> {
    let mut src = told(alloc, text)?;
    Ok(read_header(alloc, FileKind::Cover, &mut LineReader::new(), &mut src).err())
}

// The fault of the lines of a job's header, and then this.
fn job_fault(alloc: Global, end: &str) -> Result<Option<HeadFault>, AllocError> {
    let mut text = String::from_str(alloc, JOB)?;
    text.push_str(end)?;
    let mut src = told(alloc, text.as_str())?;
    Ok(read_job(alloc, &mut src).err())
}

#[test]
fn reads_a_header(rt: HostRuntime) -> Result<(), Fail> {
    let alloc = rt.alloc();
    let mut src = told(alloc, COVER)?;
    let mut lines = LineReader::new();
    let header = read_header(alloc, FileKind::Cover, &mut lines, &mut src)?;
    assert_eq!(rt; header.region().polygons()[0].grid(), 384);
    assert_eq!(rt; header.region().polygons()[0].corners(), CORNERS.as_slice());
    assert_eq!(rt; header.version(), 1);
    assert_eq!(rt; header.region().polygons().len(), 1);
    assert_eq!(rt; header.words().len(), 1);
    assert_eq!(rt; header.words()[0].letters(), [1, 2, 3, 1, 2, 3].as_slice());
    assert_eq!(rt; header.depth(), 7);
    assert_eq!(rt; lines.number(), 9);
    assert!(rt; matches!(lines.next(&mut src), Ok(Line::Text(b"s"))));
    Ok(())
}

// The first lines, of each version. The other lines of a header are tried where a file is judged.
#[test]
fn refuses_first_lines_and_counts_of_polygons(rt: HostRuntime) -> Result<(), Fail> {
    let rows = [
        ("", 1, Reason::Ends),
        ("mcbcover 0\n", 1, Reason::OtherLine),
        ("mcbcover 4\n", 1, Reason::OtherLine),
        ("mcbcover 12\n", 1, Reason::OtherLine),
        ("mcbjob 1\n", 1, Reason::OtherLine),
        ("mcbcover 1\ngrid 384\nregions 1\n", 3, Reason::OtherLine),
        ("mcbcover 2\ngrid 384\npolygon 3\n", 3, Reason::OtherLine),
        ("mcbcover 2\ngrid 384\nregions 0\n", 3, Reason::Number),
        ("mcbcover 3\ngrid 384\npolygon 3\n", 3, Reason::OtherLine),
        ("mcbcover 3\ngrid 384\nregions 9\n", 3, Reason::Number),
        (
            "mcbcover 2\ngrid 384\nregions 2\nwords 1\n",
            4,
            Reason::OtherLine,
        ),
    ];
    for (text, line, reason) in rows {
        assert_eq!(rt;
            cover_fault(rt.alloc(), text)?,
            Some(HeadFault::Line { line, reason }),
            "{text:?}"
        );
    }
    Ok(())
}

#[test]
fn reads_a_job_and_nothing_after_it(rt: HostRuntime) -> Result<(), Fail> {
    let alloc = rt.alloc();
    let long = "eeeeeeeeeeeeeeeeeeeeeeeeeeeeeeeeeeeeeeeeeeeeeeeeeeeeeeeeeeeeeeeeeeeeeeeeeeeeeeeee";
    assert_eq!(rt; job_fault(alloc, "end\n")?, None);
    let rows = [
        ("", 10, Reason::Ends),
        ("end", 10, Reason::Ends),
        (long, 10, Reason::TooLong),
        ("end complete\n", 10, Reason::EndLine),
        ("end\n\n", 11, Reason::EndLine),
        ("end\nx", 11, Reason::EndLine),
        ("end\neee", 11, Reason::EndLine),
    ];
    for (end, line, reason) in rows {
        assert_eq!(rt;
            job_fault(alloc, end)?,
            Some(HeadFault::Line { line, reason }),
            "{end:?}"
        );
    }
    Ok(())
}

#[test]
fn reads_in_pieces_and_says_where_a_read_failed(rt: HostRuntime) -> Result<(), Fail> {
    let alloc = rt.alloc();
    for piece in [1, 16] {
        let mut src = MemSource::new(COVER.as_bytes().to_vec(alloc)?, piece, Vec::new(alloc));
        let header = read_header(alloc, FileKind::Cover, &mut LineReader::new(), &mut src)?;
        assert_eq!(rt; header.depth(), 7);
    }
    let mut src = MemSource::new(COVER.as_bytes().to_vec(alloc)?, 16, vec![in alloc; 3]?);
    assert_eq!(rt;
        read_header(alloc, FileKind::Cover, &mut LineReader::new(), &mut src).err(),
        Some(HeadFault::Read)
    );
    let mut src = MemSource::new(JOB.as_bytes().to_vec(alloc)?, 4096, vec![in alloc; 2]?);
    assert_eq!(rt; read_job(alloc, &mut src).err(), Some(HeadFault::Read));
    Ok(())
}

// A region of so many polygons, all the same.
fn region_of(alloc: Global, count: usize) -> Result<Region, Fail> {
    let mut polygons = Vec::new(alloc);
    for _ in 0..count {
        polygons.push(Polygon::new(384, CORNERS.to_vec(alloc)?)?)?;
    }
    Ok(Region::new(polygons)?)
}

fn made(
    alloc: Global,
    spelled: &[[u8; 6]],
    depth: u32,
) -> Result<Result<Header, HeaderFault>, Fail> {
    made_in(alloc, 1, 1, spelled, depth)
}

fn made_in(
    alloc: Global,
    version: u8,
    polygons: usize,
    spelled: &[[u8; 6]],
    depth: u32,
) -> Result<Result<Header, HeaderFault>, Fail> {
    let region = region_of(alloc, polygons)?;
    let mut words = Vec::new(alloc);
    for digits in spelled {
        words.push(Word::read(alloc, digits)?)?;
    }
    Ok(Header::new(version, region, words, depth))
}

#[test]
fn makes_headers(rt: HostRuntime) -> Result<(), Fail> {
    let alloc = rt.alloc();
    assert_eq!(rt; made(alloc, &[*b"123123"], 20)?.map(|h| h.depth()), Ok(20));
    assert_eq!(rt; made(alloc, &[], 21)?.err(), Some(HeaderFault::Words));
    assert_eq!(rt;
        made(alloc, &[*b"123123", *b"121323"], 21)?.err(),
        Some(HeaderFault::Unstable { i: 2 })
    );
    assert_eq!(rt;
        made(alloc, &[*b"123123"], 21)?.err(),
        Some(HeaderFault::Depth)
    );
    Ok(())
}

#[test]
fn a_version_has_its_regions(rt: HostRuntime) -> Result<(), Fail> {
    let alloc = rt.alloc();
    let rows = [
        (1, 1, None),
        (1, 2, Some(HeaderFault::Version)),
        (2, 1, None),
        (2, 8, None),
        (3, 8, None),
        (0, 1, Some(HeaderFault::Version)),
        (4, 1, Some(HeaderFault::Version)),
    ];
    for (version, polygons, fault) in rows {
        assert_eq!(rt;
            made_in(alloc, version, polygons, &[*b"123123"], 20)?.err(),
            fault
        );
    }
    assert_eq!(rt;
        made_in(alloc, 1, 2, &[], 21)?.err(),
        Some(HeaderFault::Version)
    );
    Ok(())
}

// In the second polygon a corner is outside, or the corners run clockwise.
#[test]
fn judges_each_polygon_at_its_lines(rt: HostRuntime) -> Result<(), Fail> {
    let rows = [
        ("128 127\n127 128\n128 128\n", 11, Reason::NotConvex),
        ("128 127\n0 127\n", 10, Reason::CornerOutside),
        (
            "128 127\n128 128\n127 128\npolygon 3\n",
            12,
            Reason::OtherLine,
        ),
    ];
    for (second, line, reason) in rows {
        let mut text = String::from_str(
            rt.alloc(),
            "mcbcover 2\ngrid 384\nregions 2\npolygon 3\n127 127\n128 127\n127 128\npolygon 3\n",
        )?;
        text.push_str(second)?;
        assert_eq!(rt;
            cover_fault(rt.alloc(), text.as_str())?,
            Some(HeadFault::Line { line, reason }),
            "{second:?}"
        );
    }
    Ok(())
}
