//! The command `check`: the verdict on a covering file that is read from the input.
ghost use Rattle.std.specs.Prelude.{◌≡◌, ◌⊎◌};
ghost use Rattle.billiards_cli.specs.Commands.Check.{check_request, refusal_status};
ghost use Rattle.billiards_cli.specs.Requests.{command_of};
ghost use Rattle.billiards_cli.specs.Services.{Serves};

mod acceptance;

use crate::Status;
use crate::refusal::write_refusal;
use crate::request::Request;
use crate::rest::Rest;
use crate::status::after_writing;
pub(crate) use acceptance::write_acceptance;
use cover_checker::{CheckFault, Verdict};
use covering_file::{MAX_NODES, Reason};
use mcb_ends::{Sink, Source};
use std::alloc::Global;

/// It takes no arguments.
pub(crate) fn request<'a>(arguments: &Rest<'a>) -> Option<Request<'a>>
    ensures { result ≡ check_request arguments.now }
{
    if arguments.len() == 0 {
        Some(Request::Check)
    } else {
        None
    }
}

/// Judges a covering file and writes the verdict.
pub(crate) fn check<S: Source, K: Sink>(alloc: Global, src: &mut S, out: &mut K) -> Status
    ensures unwritten { (result ≡ Status.ReadFault) ⊎ (result ≡ Status.OutOfMemory) → out.new ≡ out.old }
    ensures room { K.room out.new ≡ K.room out.old }
    ensures serves { Serves (command_of Request.Check)
        (record { left = S.left src.old; source_faults = S.faults src.old; written = K.written out.old; sink_faults = K.faults out.old })
        (record { left = S.left src.new; source_faults = S.faults src.new; written = K.written out.new; sink_faults = K.faults out.new })
        result }
{
    match cover_checker::check(alloc, MAX_NODES, src) {
        Ok(Verdict::Accepted { nodes, words }) => {
            after_writing(Status::Done, write_acceptance(nodes, words, out))
        }
        Ok(Verdict::Refused { line, reason }) => {
            after_writing(status_of_refusal(reason), write_refusal(line, reason, out))
        }
        Err(CheckFault::Read) => Status::ReadFault,
        Err(CheckFault::Memory) => Status::OutOfMemory,
    }
}

/// What a refusal says of a file.
pub(crate) fn status_of_refusal(reason: Reason) -> Status
    ensures { result ≡ refusal_status reason }
{
    match reason {
        Reason::NotApart | Reason::NotShown | Reason::Uncovered => Status::NotShown,
        _ => Status::Malformed,
    }
}
