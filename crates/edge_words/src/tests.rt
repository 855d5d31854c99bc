ghost use Rattle.std.specs.Prelude.{◌^◌, ◌<◌, length};

use super::*;
use mcb_ends::MemSink;
use std::alloc::Global;
use std::test::Fail;

fn fault_of(alloc: Global, bytes: &[u8]) -> Option<WordFault>
    requires { length bytes.now < 2 ^ 32 }
{
    Word::read(alloc, bytes).err()
}

#[test]
fn refuses_what_is_no_word(rt: HostRuntime) {
    let alloc = rt.alloc();
    let too_long = b"121212121212121212121212121212121212121212121212121212121212121212";
    let rows = [
        (fault_of(alloc, b"1231"), WordFault::Length { len: 4 }),
        (fault_of(alloc, b"1231231"), WordFault::Length { len: 7 }),
        (fault_of(alloc, too_long), WordFault::Length { len: 66 }),
        (fault_of(alloc, b"11"), WordFault::Length { len: 2 }),
        (fault_of(alloc, b"12x12"), WordFault::Letter { place: 3 }),
        (fault_of(alloc, b"0114"), WordFault::Letter { place: 1 }),
        (
            fault_of(alloc, b"123312"),
            WordFault::Neighbours { place: 3 },
        ),
        (
            fault_of(alloc, b"123121"),
            WordFault::Neighbours { place: 6 },
        ),
    ];
    for (answer, fault) in rows {
        assert_eq!(rt; answer, Some(fault));
    }
}

fn is_stable(alloc: Global, bytes: &[u8]) -> Result<bool, WordFault>
    requires { length bytes.now < 2 ^ 32 }
{
    Ok(Word::read(alloc, bytes)?.is_stable())
}

#[test]
fn tells_stable_words(rt: HostRuntime) {
    let alloc = rt.alloc();
    let long = b"123123123123123123123123123123123123123123123123123123123123";
    let longest = b"1212121212121212121212121212121212121212121212121212121212121212";
    assert_eq!(rt; is_stable(alloc, b"123123"), Ok(true));
    assert_eq!(rt; is_stable(alloc, b"121323"), Ok(false));
    assert_eq!(rt; is_stable(alloc, long), Ok(true));
    assert_eq!(rt; is_stable(alloc, longest), Ok(false));
}

#[test]
fn finds_the_canonical_form(rt: HostRuntime) -> Result<(), Fail> {
    let word = Word::read(rt.alloc(), b"323121")?;
    let form = word.canonical();
    assert_eq!(rt; form.letters(), [1, 2, 1, 3, 2, 3].as_slice());
    assert!(rt; form.is_canonical());
    assert!(rt; !word.is_canonical());
    Ok(())
}

#[test]
fn turns(rt: HostRuntime) -> Result<(), Fail> {
    let word = Word::read(rt.alloc(), b"312312")?;
    assert_eq!(rt; word.canonical().letters(), [1, 2, 3, 1, 2, 3].as_slice());
    assert_eq!(rt; word.rotate(2).letters(), [2, 3, 1, 2, 3, 1].as_slice());
    assert_eq!(rt; word.reverse().letters(), [2, 1, 3, 2, 1, 3].as_slice());
    Ok(())
}

#[test]
fn writes_a_word(rt: HostRuntime) -> Result<(), Fail> {
    let alloc = rt.alloc();
    let word = Word::read(alloc, b"121323")?;
    let mut sink = MemSink::new(alloc, 6, 4, Vec::new(alloc))?;
    assert!(rt; word.write(&mut sink).is_ok());
    assert_eq!(rt; sink.bytes(), b"121323".as_slice());
    Ok(())
}
