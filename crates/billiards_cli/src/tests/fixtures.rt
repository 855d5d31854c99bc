//! What the tests share: a run over ends in memory.
ghost use Rattle.std.specs.Prelude.{◌<◌};

use crate::{Args, Status, run};
use mcb_ends::{MemSink, MemSource};
use std::alloc::{AllocError, Global};
use std::process::Abort;

/// The arguments of a command line.
pub(crate) fn arguments_of(alloc: Global, arguments: &[&str]) -> Result<Args, AllocError> {
    let mut args = Args::new(alloc);
    for argument in arguments {
        args.push(argument)?;
    }
    Ok(args)
}

/// The text that is put together of these parts.
pub(crate) fn joined(alloc: Global, parts: &[&str]) -> Result<String, AllocError> {
    let mut text = String::new(alloc);
    for part in parts {
        text.push_str(part)?;
    }
    Ok(text)
}

/// A source that hands out at most `piece` bytes in a call, and fails in the calls with these numbers.
pub(crate) fn source(
    alloc: Global,
    input: &[u8],
    piece: usize,
    fails: &[u32],
) -> Result<MemSource, AllocError>
    requires { 0 < piece }
{
    Ok(MemSource::new(input.to_vec(alloc)?, piece, fails.to_vec(alloc)?))
}

/// A sink that fails in the calls with these numbers.
pub(crate) fn sink(alloc: Global, fails: &[u32]) -> Result<MemSink, AllocError> {
    MemSink::new(alloc, 1000, 7, fails.to_vec(alloc)?)
}

/// The arguments, on this input, end with the status and write the text.
pub(crate) fn assert_answer(
    rt: &(impl Abort + Alloc<A = Global>),
    arguments: &Args,
    input: &[u8],
    status: Status,
    text: &str,
) -> Result<(), AllocError> {
    let alloc = rt.alloc();
    let mut src = source(alloc, input, 16, &[])?;
    let mut out = sink(alloc, &[])?;
    assert_eq!(rt;
        run(alloc, arguments, &mut src, &mut out),
        status,
        "where {text:?} is wanted"
    );
    assert_eq!(rt; out.bytes(), text.as_bytes(), "where {text:?} is wanted");
    Ok(())
}

/// The source fails in its third call, and then the sink in its first one. Nothing is written.
pub(crate) fn assert_faults(
    rt: &(impl Abort + Alloc<A = Global>),
    arguments: &Args,
    input: &[u8],
    piece: usize,
) -> Result<(), AllocError>
    requires { 0 < piece }
{
    let alloc = rt.alloc();
    let mut src = source(alloc, input, piece, &[3])?;
    let mut out = sink(alloc, &[])?;
    assert_eq!(rt;
        run(alloc, arguments, &mut src, &mut out),
        Status::ReadFault
    );
    assert_eq!(rt; src.faults(), 1);
    assert_eq!(rt; out.bytes().len(), 0);

    let mut src = source(alloc, input, piece, &[])?;
    let mut out = sink(alloc, &[1])?;
    assert_eq!(rt;
        run(alloc, arguments, &mut src, &mut out),
        Status::WriteFault
    );
    assert_eq!(rt; out.faults(), 1);
    assert_eq!(rt; out.bytes().len(), 0);
    Ok(())
}

/// The source fails in its call of this number. Nothing is written.
pub(crate) fn assert_read_fault(
    rt: &(impl Abort + Alloc<A = Global>),
    arguments: &Args,
    input: &[u8],
    call: u32,
) -> Result<(), AllocError> {
    let alloc = rt.alloc();
    let mut src = source(alloc, input, 16, &[call])?;
    let mut out = sink(alloc, &[])?;
    let status = run(alloc, arguments, &mut src, &mut out);
    assert_eq!(rt; status, Status::ReadFault, "call {call}");
    assert_eq!(rt; out.bytes().len(), 0, "call {call}");
    Ok(())
}

/// The sink takes one byte in a call, and fails in its call of this number. The bytes before it were written.
pub(crate) fn assert_write_fault(
    rt: &(impl Abort + Alloc<A = Global>),
    arguments: &Args,
    input: &[u8],
    text: &str,
    call: u32,
) -> Result<(), AllocError> {
    let alloc = rt.alloc();
    let mut src = source(alloc, input, 16, &[])?;
    let mut out = MemSink::new(alloc, 1000, 1, [call].to_vec(alloc)?)?;
    let status = run(alloc, arguments, &mut src, &mut out);
    assert_eq!(rt; status, Status::WriteFault, "call {call}");
    assert_eq!(rt; out.bytes().len() + 1, call as usize, "call {call}");
    assert!(rt; text.as_bytes().starts_with(out.bytes()), "call {call}");
    Ok(())
}
