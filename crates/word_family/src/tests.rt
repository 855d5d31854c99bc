use super::*;
use exp_sums::{Dir, Term};
use std::test::Fail;

fn fault_of(a: &[u8], b: &[u8], c: &[u8]) -> Option<FamilyFault> {
    Family::read(a, b, c).err()
}

#[test]
fn refuses_what_is_no_family(rt: HostRuntime) {
    let part = |which| Some(FamilyFault::Part { which });
    assert_eq!(rt; fault_of(b"12x", b"", b""), part(1));
    assert_eq!(rt; fault_of(b"12121212121212121", b"12", b""), part(1));
    assert_eq!(rt; fault_of(b"", b"", b"4"), part(2));
    assert_eq!(rt; fault_of(b"", b"12", b"4"), part(3));
    assert_eq!(rt; fault_of(b"1", b"2", b"3"), Some(FamilyFault::Odd));
    assert_eq!(rt; fault_of(b"1", b"23", b""), Some(FamilyFault::Odd));
    assert_eq!(rt;
        fault_of(b"", b"123121", b""),
        Some(FamilyFault::Neighbours)
    );
    assert_eq!(rt; fault_of(b"", b"123123", b""), None);
}

fn is_stable(a: &[u8], b: &[u8], c: &[u8]) -> Result<bool, FamilyFault> {
    Ok(Family::read(a, b, c)?.is_stable())
}

#[test]
fn tells_stable_families(rt: HostRuntime) {
    assert_eq!(rt; is_stable(b"", b"123123", b""), Ok(true));
    assert_eq!(rt; is_stable(b"12", b"312312", b"3123"), Ok(true));
    assert_eq!(rt; is_stable(b"12", b"12", b"12"), Ok(false));
    // 123123 is stable, and 12123123 is not.
    assert_eq!(rt; is_stable(b"", b"12", b"3123"), Ok(false));
}

#[test]
fn makes_members_of_six_to_sixty_four_letters(rt: HostRuntime) -> Result<(), Fail> {
    let alloc = rt.alloc();
    let family = Family::read(b"", b"12", b"3123")?;
    let first = family.word(alloc, 1).ok_or("it has 6 letters")?;
    assert_eq!(rt; first.letters(), [1, 2, 3, 1, 2, 3].as_slice());
    assert!(rt; family.word(alloc, 30).is_some());
    assert!(rt; family.word(alloc, 31).is_none());
    let pair = Family::read(b"", b"12", b"")?;
    assert!(rt; pair.word(alloc, 2).is_none());
    assert!(rt; pair.word(alloc, 3).is_some());
    Ok(())
}

fn term(m: i32, n: i32, c: i64) -> Term {
    Term {
        dir: Dir { m, n },
        c,
    }
}

#[test]
fn tells_all_shifts(rt: HostRuntime) -> Result<(), Fail> {
    let shift_of_123123 = [
        term(-3, -3, 1),
        term(-3, -1, -1),
        term(-1, -3, -1),
        term(-1, 1, 1),
        term(1, -1, 1),
        term(1, 1, -1),
    ];
    let shifts = Family::read(b"12", b"312312", b"3123")?.shifts(rt.alloc())?;
    assert!(rt; shifts.base.terms() == shift_of_123123.as_slice());
    assert!(rt; shifts.step.terms() == shift_of_123123.as_slice());

    let shifts = Family::read(b"", b"123123", b"")?.shifts(rt.alloc())?;
    assert!(rt; shifts.base.terms().is_empty());
    assert!(rt; shifts.step.terms() == shift_of_123123.as_slice());

    let unstable = Family::read(b"12", b"12", b"12")?;
    assert!(rt; unstable.shifts(rt.alloc()).is_err());
    Ok(())
}
