//! The command `family`: the shifts of all words a bⁿ c.
ghost use Rattle.std.specs.Prelude.{◌≡◌, ◌⊎◌, ℕ, List, Option};
ghost use Rattle.word_family.specs.Family.{Parts};
ghost use Rattle.billiards_cli.specs.Commands.Family.{SpellsFamily, family_request};
ghost use Rattle.billiards_cli.specs.Requests.{command_of};
ghost use Rattle.billiards_cli.specs.Services.{Serves};

pub(crate) mod at_triangle;
mod member;
mod sums;

use crate::refusal::write_argument_refusal;
use crate::request::Request;
use crate::rest::Rest;
use crate::status::after_writing;
use crate::{FamilyArgument, Status, Triangle};
use line_grammar::Reason;
use mcb_ends::{Sink, put};
use std::alloc::Global;
use sums::write_shifts;
use word_family::Family;

/// It takes three parts, and the three numbers of a triangle or none.
pub(crate) fn request<'a>(arguments: &Rest<'a>) -> Option<Request<'a>>
    ensures { result ≡ family_request arguments.now }
{
    if arguments.len() != 3 && arguments.len() != 6 {
        return None;
    }
    let family = FamilyArgument::new(arguments.get(0), arguments.get(1), arguments.get(2));
    if arguments.len() == 3 {
        return Some(Request::Family(family));
    }
    let triangle = Triangle::read(arguments.get(3), arguments.get(4), arguments.get(5))?;
    Some(Request::FamilyAt { family, triangle })
}

/// Writes the shifts of all members, or that the family is not stable. It reads nothing.
pub(crate) fn family<K: Sink>(alloc: Global, argument: &FamilyArgument, out: &mut K) -> Status
    ensures unwritten { (result ≡ Status.ReadFault) ⊎ (result ≡ Status.OutOfMemory) → out.new ≡ out.old }
    ensures room { K.room out.new ≡ K.room out.old }
    ensures serves { (left : Option (List ℕ)) (faults : ℕ) → Serves (command_of (Request.Family argument.now))
        (record { left = left; source_faults = faults; written = K.written out.old; sink_faults = K.faults out.old })
        (record { left = left; source_faults = faults; written = K.written out.new; sink_faults = K.faults out.new })
        result }
{
    match argument.read() {
        Some(family) => answer(alloc, &family, out),
        None => after_writing(
            Status::Malformed,
            write_argument_refusal(Reason::NotAWord, out),
        ),
    }
}

// Writes the shifts of a family's members. Only a stable family takes memory.
fn answer<K: Sink>(alloc: Global, family: &Family, out: &mut K) -> Status
    ensures unwritten { (result ≡ Status.ReadFault) ⊎ (result ≡ Status.OutOfMemory) → out.new ≡ out.old }
    ensures room { K.room out.new ≡ K.room out.old }
    ensures serves { (texts : Parts) (left : Option (List ℕ)) (faults : ℕ) → SpellsFamily texts family.now → Serves (command_of (Request.Family texts))
        (record { left = left; source_faults = faults; written = K.written out.old; sink_faults = K.faults out.old })
        (record { left = left; source_faults = faults; written = K.written out.new; sink_faults = K.faults out.new })
        result }
{
    if !family.is_stable() {
        return after_writing(Status::Done, put(out, b"unstable\n"));
    }
    match family.shifts(alloc) {
        Ok(shifts) => after_writing(Status::Done, write_shifts(&shifts, out)),
        Err(_) => Status::OutOfMemory,
    }
}
