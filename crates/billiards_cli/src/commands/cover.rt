//! The command `cover`: a covering file for a job that is read from the input.
ghost use Rattle.std.specs.Prelude.{◌≡◌, ◌⊎◌, ℕ, List, Option};
ghost use Rattle.std.specs.Io.KnownBytes.{IsAtEnd};
ghost use Rattle.line_grammar.specs.Input.{MayBe};
ghost use Rattle.covering_file.specs.Header.{IsHeading, job_text};
ghost use Rattle.billiards_cli.specs.Commands.Cover.{cover_request};
ghost use Rattle.billiards_cli.specs.Requests.{command_of};
ghost use Rattle.billiards_cli.specs.Services.{Serves};

use crate::Status;
use crate::refusal::write_refusal;
use crate::request::Request;
use crate::rest::Rest;
use crate::status::after_writing;
use coverer::{CoverFault, Covered};
use covering_file::{HeadFault, Header, MAX_NODES, read_job};
use mcb_ends::{Sink, Source};
use std::alloc::Global;

/// It takes no arguments.
pub(crate) fn request<'a>(arguments: &Rest<'a>) -> Option<Request<'a>>
    ensures { result ≡ cover_request arguments.now }
{
    if arguments.len() == 0 {
        Some(Request::Cover)
    } else {
        None
    }
}

/// Reads a job and writes a covering file for it, or refuses the first line that offends.
pub(crate) fn cover<S: Source, K: Sink>(alloc: Global, src: &mut S, out: &mut K) -> Status
    ensures unwritten { (result ≡ Status.ReadFault) ⊎ (result ≡ Status.OutOfMemory) → out.new ≡ out.old }
    ensures room { K.room out.new ≡ K.room out.old }
    ensures serves { Serves (command_of Request.Cover)
        (record { left = S.left src.old; source_faults = S.faults src.old; written = K.written out.old; sink_faults = K.faults out.old })
        (record { left = S.left src.new; source_faults = S.faults src.new; written = K.written out.new; sink_faults = K.faults out.new })
        result }
{
    match read_job(alloc, src) {
        Ok(header) => cover_job(alloc, &header, out),
        Err(HeadFault::Line { line, reason }) => {
            after_writing(Status::Malformed, write_refusal(line, reason, out))
        }
        Err(HeadFault::Read) => Status::ReadFault,
        Err(HeadFault::Memory) => Status::OutOfMemory,
    }
}

// Writes a covering file for a job that was read to its end.
fn cover_job<K: Sink>(alloc: Global, header: &Header, out: &mut K) -> Status
    requires { IsHeading header.now }
    ensures unwritten { (result ≡ Status.ReadFault) ⊎ (result ≡ Status.OutOfMemory) → out.new ≡ out.old }
    ensures room { K.room out.new ≡ K.room out.old }
    ensures serves { (left left' : Option (List ℕ)) (faults faults' : ℕ)
        → MayBe left (job_text header.now) → IsAtEnd left' → faults' ≡ faults
        → Serves (command_of Request.Cover)
        (record { left = left; source_faults = faults; written = K.written out.old; sink_faults = K.faults out.old })
        (record { left = left'; source_faults = faults'; written = K.written out.new; sink_faults = K.faults out.new })
        result }
{
    match coverer::cover(alloc, header, MAX_NODES, out) {
        Ok(Covered::Complete { .. }) => Status::Done,
        Ok(Covered::OpenBoxes { .. }) => Status::NotShown,
        Ok(Covered::Full { .. }) => Status::Full,
        Err(CoverFault::Write) => Status::WriteFault,
        Err(CoverFault::Memory) => Status::OutOfMemory,
    }
}
