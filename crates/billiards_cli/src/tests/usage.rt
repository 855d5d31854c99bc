use crate::tests::fixtures::{arguments_of, sink, source};
use crate::{Status, run};
use std::test::Fail;

// Arguments that ask for nothing leave the input alone.
#[test]
fn other_arguments_are_a_wrong_use(rt: HostRuntime) -> Result<(), Fail> {
    let rows: [&[&str]; 29] = [
        &[],
        &["help"],
        &["check", "x"],
        &["word", "123123"],
        &["at", "123123", "1", "1"],
        &["at", "123123", "1", "1", "2"],
        &["at", "123123", "01", "1", "3"],
        &["job"],
        &["job", "0"],
        &["job", "128"],
        &["job", "020"],
        &["demo", "0"],
        &["cover", "x"],
        &["draw", "x"],
        &["search", "1", "1", "3", "7"],
        &["search", "1", "1", "3", "4"],
        &["search", "1", "1", "3", "26"],
        &["search", "1", "1", "3", "06"],
        &["search", "1", "1", "2", "6"],
        &["search", "1", "1", "3"],
        &["tile", "123123"],
        &["tile", "123123", "11"],
        &["tile", "123123", "01"],
        &["tile", "123123", "1", "4"],
        &["upgrade", "1"],
        &["upgrade", "4"],
        &["upgrade", "02"],
        &["upgrade"],
        &["upgrade", "2", "2"],
    ];
    for arguments in rows {
        let arguments = arguments_of(rt.alloc(), arguments)?;
        let mut src = source(rt.alloc(), b"123123\n", 16, &[1])?;
        let mut out = sink(rt.alloc(), &[1])?;
        assert_eq!(rt;
            run(rt.alloc(), &arguments, &mut src, &mut out),
            Status::Usage
        );
        assert_eq!(rt; src.faults(), 0);
        assert_eq!(rt; out.faults(), 0);
    }
    Ok(())
}
