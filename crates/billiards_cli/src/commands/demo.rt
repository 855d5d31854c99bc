//! The command `demo`: the covering of a generated job, and the verdict on the file that was made.
ghost use Rattle.std.specs.Prelude.{◌≡◌, ◌⊎◌, ℕ, List, Option};
ghost use Rattle.mcb_ends.specs.Bytes.{Writes};
ghost use Rattle.mcb_ends.specs.Causes.{HasCause};
ghost use Rattle.billiards_cli.specs.Commands.Demo as demo;
ghost use Rattle.billiards_cli.specs.Commands.Demo.{demo_request, demo_text, verdict_text};
ghost use Rattle.billiards_cli.specs.Requests.{command_of};
ghost use Rattle.billiards_cli.specs.Services.{Serves};

mod making;

use crate::commands::check::write_acceptance;
use crate::refusal::write_refusal;
use crate::request::Request;
use crate::rest::Rest;
use crate::status::after_writing;
use crate::{JobNumber, Status};
use cover_checker::Verdict;
use making::{Made, make};
use mcb_ends::{Decimal, Failed, OutOfMemory, Sink, put_all};
use std::alloc::Global;

/// It takes the number of a job.
pub(crate) fn request<'a>(arguments: &Rest<'a>) -> Option<Request<'a>>
    ensures { result ≡ demo_request arguments.now }
{
    if arguments.len() != 1 {
        return None;
    }
    let number = JobNumber::read(arguments.get(0))?;
    Some(Request::Demo(number))
}

/// Covers a generated job in memory, judges the file that was made, and writes how it went. It reads nothing.
pub(crate) fn demo<K: Sink>(alloc: Global, number: &JobNumber, out: &mut K) -> Status
    ensures unwritten { (result ≡ Status.ReadFault) ⊎ (result ≡ Status.OutOfMemory) → out.new ≡ out.old }
    ensures room { K.room out.new ≡ K.room out.old }
    ensures serves { (left : Option (List ℕ)) (faults : ℕ) → Serves (command_of (Request.Demo number.now))
        (record { left = left; source_faults = faults; written = K.written out.old; sink_faults = K.faults out.old })
        (record { left = left; source_faults = faults; written = K.written out.new; sink_faults = K.faults out.new })
        result }
{
    match make(alloc, number) {
        Ok(made) => after_writing(status_with(made.left), write_made(number, &made, out)),
        Err(OutOfMemory) => Status::OutOfMemory,
    }
}

// The status that goes with so many uncovered nodes.
fn status_with(left: u32) -> Status
    ensures { result ≡ demo.status_with left }
{
    match left {
        0 => Status::Done,
        _ => Status::NotShown,
    }
}

// Writes the number of the job, those of its covering, and the verdict.
fn write_made<K: Sink>(number: &JobNumber, made: &Made, out: &mut K) -> Result<(), Failed>
    ensures text { Writes (K.written out.old) (K.written out.new) result
        (demo_text number.now made.now.nodes made.now.left (verdict_text made.now.verdict)) }
    ensures room { K.room out.new ≡ K.room out.old }
    ensures cause { HasCause (K.faults out.old) (K.faults out.new) result }
{
    let job = Decimal::new(u64::from(number.get()));
    let nodes = Decimal::new(u64::from(made.nodes));
    let left = Decimal::new(u64::from(made.left));
    put_all(
        out,
        &[
            b"job ",
            job.digits(),
            b"\ncovered nodes=",
            nodes.digits(),
            b" open=",
            left.digits(),
            b"\n",
        ],
    )?;
    write_verdict(made.verdict, out)
}

// Writes the line that `check` writes for a verdict.
fn write_verdict<K: Sink>(verdict: Verdict, out: &mut K) -> Result<(), Failed>
    ensures text { Writes (K.written out.old) (K.written out.new) result (verdict_text verdict) }
    ensures room { K.room out.new ≡ K.room out.old }
    ensures cause { HasCause (K.faults out.old) (K.faults out.new) result }
{
    match verdict {
        Verdict::Accepted { nodes, words } => write_acceptance(nodes, words, out),
        Verdict::Refused { line, reason } => write_refusal(line, reason, out),
    }
}
