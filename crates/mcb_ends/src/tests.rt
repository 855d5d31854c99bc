ghost use Rattle.std.specs.Prelude.{◌≡◌, ◌<◌};
ghost use Rattle.mcb_ends.specs.Bytes.{Writes};
ghost use Rattle.mcb_ends.specs.Causes.{HasCause};

use super::*;
use std::alloc::Global;
use std::marker::Brand;
use std::process::Abort;
use std::test::Fail;

const PIECES: [usize; 7] = [1, 7, 80, 81, 4095, 4096, 5000];

// Equal bytes, and a newline after them.
fn push_line(input: &mut Vec<u8>, byte: u8, len: usize) -> Result<(), OutOfMemory> {
    for _ in 0..len {
        input.push(byte)?;
    }
    input.push(b'\n')?;
    Ok(())
}

// The next answer is this one.
fn expect(
    rt: &impl Abort,
    reader: &mut LineReader,
    src: &mut MemSource,
    want: Result<Line<'_>, Failed>,
) {
    assert!(rt; reader.number() < 1000);
    assert_eq!(rt; reader.next(src), want);
}

fn source(alloc: Global, input: &[u8], piece: usize) -> Result<MemSource, OutOfMemory>
    requires { 0 < piece }
{
    Ok(MemSource::new(input.to_vec(alloc)?, piece, Vec::new(alloc)))
}

#[test]
fn lines_come_out_whole(rt: HostRuntime) -> Result<(), Fail> {
    let alloc = rt.alloc();
    let mut input = Vec::new(alloc);
    for byte in b'a'..=b'z' {
        push_line(&mut input, byte, 0)?;
        push_line(&mut input, byte, 79)?;
        push_line(&mut input, byte, 80)?;
    }
    for piece in PIECES {
        assert!(rt; piece > 0);
        let mut src = source(alloc, &input, piece)?;
        let mut reader = LineReader::new();
        for byte in b'a'..=b'z' {
            expect(&rt, &mut reader, &mut src, Ok(Line::Text(b"")));
            expect(&rt, &mut reader, &mut src, Ok(Line::Text(&[byte; 79])));
            expect(&rt, &mut reader, &mut src, Ok(Line::Text(&[byte; 80])));
        }
        expect(&rt, &mut reader, &mut src, Ok(Line::End));
        expect(&rt, &mut reader, &mut src, Ok(Line::End));
        assert_eq!(rt; reader.number(), 78);
    }
    Ok(())
}

#[test]
fn reading_ends(rt: HostRuntime) -> Result<(), Fail> {
    let alloc = rt.alloc();
    for (len, last, want) in [
        (0, 0, Line::End),
        (80, 1, Line::CutShort),
        (0, 80, Line::CutShort),
        (79, 81, Line::TooLong),
        (80, 5000, Line::TooLong),
    ] {
        for piece in PIECES {
            assert!(rt; piece > 0);
            let mut input = Vec::new(alloc);
            push_line(&mut input, b'a', len)?;
            push_line(&mut input, b'b', last)?;
            input.pop();
            let mut src = source(alloc, &input, piece)?;
            let mut reader = LineReader::new();
            let text = vec![in alloc; b'a'; len]?;
            expect(&rt, &mut reader, &mut src, Ok(Line::Text(&text)));
            expect(&rt, &mut reader, &mut src, Ok(want));
            expect(&rt, &mut reader, &mut src, Ok(Line::End));
            assert_eq!(rt; reader.number(), 1);
        }
    }
    Ok(())
}

#[test]
fn a_fault_keeps_the_line(rt: HostRuntime) -> Result<(), Fail> {
    let alloc = rt.alloc();
    let fails = [2].to_vec(alloc)?;
    let mut src = MemSource::new(b"123123\n1".to_vec(alloc)?, 3, fails);
    let mut reader = LineReader::new();
    expect(&rt, &mut reader, &mut src, Err(Failed));
    assert_eq!(rt; src.faults(), 1);
    expect(&rt, &mut reader, &mut src, Ok(Line::Text(b"123123")));
    expect(&rt, &mut reader, &mut src, Ok(Line::CutShort));
    assert_eq!(rt; src.faults(), 1);
    Ok(())
}

#[test]
fn a_sink_fails_where_it_says(rt: HostRuntime) -> Result<(), Fail> {
    let alloc = rt.alloc();
    let fails = [2].to_vec(alloc)?;
    let mut out = MemSink::new(alloc, 7, 3, fails)?;
    assert_eq!(rt; put(&mut out, b"abcdef"), Err(Failed));
    assert_eq!(rt; out.bytes(), b"abc".as_slice());
    assert_eq!(rt; put(&mut out, b"defg"), Ok(()));
    assert_eq!(rt; out.bytes(), b"abcdefg".as_slice());
    assert_eq!(rt; put(&mut out, b""), Ok(()));
    assert_eq!(rt; out.faults(), 1);
    assert_eq!(rt; put(&mut out, b"h"), Err(Failed));
    assert_eq!(rt; out.faults(), 2);
    Ok(())
}

#[test]
fn decimals_are_canonical(rt: HostRuntime) -> Result<(), Fail> {
    let alloc = rt.alloc();
    for (n, want) in [
        (0, "0"),
        (-1, "-1"),
        (i64::MIN, "-9223372036854775808"),
        (i64::MAX, "9223372036854775807"),
    ] {
        let mut out = MemSink::new(alloc, 30, 7, Vec::new(alloc))?;
        assert_eq!(rt; put_decimal(&mut out, n), Ok(()));
        assert_eq!(rt; put_all(&mut out, &[b" ", b"end"]), Ok(()));
        assert!(rt; out.bytes().starts_with(want.as_bytes()));
        assert_eq!(rt; out.bytes().len(), want.len() + 4);
    }
    assert_eq!(rt;
        Decimal::new(u64::MAX).digits(),
        b"18446744073709551615".as_slice()
    );
    Ok(())
}

#[test]
fn wide_decimals_are_canonical(rt: HostRuntime) -> Result<(), Fail> {
    let alloc = rt.alloc();
    let mut out = MemSink::new(alloc, 80, 7, Vec::new(alloc))?;
    assert_eq!(rt; put_wide(&mut out, -(1 << 100)), Ok(()));
    assert_eq!(rt; put_wide(&mut out, 0), Ok(()));
    assert!(rt; out.bytes() == b"-12676506002282294014967032053760".as_slice());
    Ok(())
}

#[test]
fn sure_ends_never_fail(rt: HostRuntime) -> Result<(), Fail> {
    let alloc = rt.alloc();
    let mut src = SureSource::new(b"abc".to_vec(alloc)?);
    let mut buf = [0; 2];
    assert_eq!(rt; src.read(&mut buf), Ok(2));
    assert_eq!(rt; buf.as_slice(), b"ab".as_slice());
    assert_eq!(rt; src.read(&mut buf), Ok(1));
    assert_eq!(rt; src.read(&mut buf), Ok(0));
    let mut out = Gathered::<SureSink, Brand>::new(SureSink::new());
    assert_eq!(rt; put(&mut out, b"abc"), Ok(()));
    assert_eq!(rt; out.flush(), Ok(()));
    let (_out, result) = out.finish();
    assert_eq!(rt; result, Ok(()));
    Ok(())
}

// Writes a text through a sink that gathers.
fn gather<K: Sink>(out: K, text: &[u8]) -> (K, Result<(), Failed>)
    ensures text { Writes (K.written out) (K.written result.0) result.1 text.now }
    ensures room { K.room result.0 ≡ K.room out }
    ensures cause { HasCause (K.faults out) (K.faults result.0) result.1 }
{
    gather_after::<K, Brand>(out, text)
}

fn gather_after<K: Sink, B: Before>(out: K, text: &[u8]) -> (K, Result<(), Failed>)
    requires { K.written out ≡ B.taken }
    ensures text { Writes (K.written out) (K.written result.0) result.1 text.now }
    ensures room { K.room result.0 ≡ K.room out }
    ensures cause { HasCause (K.faults out) (K.faults result.0) result.1 }
{
    let mut gathered = Gathered::<K, B>::new(out);
    match put(&mut gathered, text) {
        Ok(()) => gathered.finish(),
        Err(failed) => {
            let (out, _) = gathered.finish();
            (out, Err(failed))
        }
    }
}

#[test]
fn gathered_bytes_are_passed_on(rt: HostRuntime) -> Result<(), Fail> {
    let alloc = rt.alloc();
    let mut text = vec![in alloc; b'a'; 4096]?;
    text.extend_from_slice(b"bcd")?;
    let out = MemSink::new(alloc, 5000, 4000, Vec::new(alloc))?;
    let (out, result) = gather(out, &text);
    assert_eq!(rt; result, Ok(()));
    assert_eq!(rt; out.bytes(), text.as_slice());
    let out = MemSink::new(alloc, 5000, 4000, [2].to_vec(alloc)?)?;
    let (out, result) = gather(out, &text);
    assert_eq!(rt; result, Err(Failed));
    assert_eq!(rt; out.bytes(), &text[..4000]);
    Ok(())
}
