//! The command `points`: the corners of a word's unfolding in a triangle, as numbers.
ghost use Rattle.std.specs.Prelude.{◌≡◌, ◌⊎◌, ℕ, List, Option};
ghost use Rattle.billiards_cli.specs.Commands.Points.{points_request};
ghost use Rattle.billiards_cli.specs.Requests.{command_of};
ghost use Rattle.billiards_cli.specs.Services.{Serves};

mod corner_spot;
mod rows;
mod writing;

use crate::refusal::write_argument_refusal;
use crate::request::Request;
use crate::rest::Rest;
use crate::status::after_writing;
use crate::{Status, Triangle, WordArgument};
use corner_spot::CornerSpot;
use mcb_ends::{OutOfMemory, Sink};
use rows::Rows;
use std::alloc::Global;
use writing::write_rows;

/// It takes a word and the three numbers of a triangle.
pub(crate) fn request<'a>(arguments: &Rest<'a>) -> Option<Request<'a>>
    ensures { result ≡ points_request arguments.now }
{
    if arguments.len() != 4 {
        return None;
    }
    let word = WordArgument::new(arguments.get(0));
    let triangle = Triangle::read(arguments.get(1), arguments.get(2), arguments.get(3))?;
    Some(Request::Points { word, triangle })
}

/// Writes the places of the corners of a word's triangles, and of its shift, once all are found. The word need not be stable. It
/// reads nothing.
pub(crate) fn points<K: Sink>(
    alloc: Global,
    argument: &WordArgument,
    triangle: &Triangle,
    out: &mut K,
) -> Status
    ensures unwritten { (result ≡ Status.ReadFault) ⊎ (result ≡ Status.OutOfMemory) → out.new ≡ out.old }
    ensures room { K.room out.new ≡ K.room out.old }
    ensures serves { (left : Option (List ℕ)) (faults : ℕ) → Serves (command_of (Request.Points argument.now triangle.now))
        (record { left = left; source_faults = faults; written = K.written out.old; sink_faults = K.faults out.old })
        (record { left = left; source_faults = faults; written = K.written out.new; sink_faults = K.faults out.new })
        result }
{
    match argument.read(alloc) {
        Ok(word) => match Rows::of(alloc, &word, triangle) {
            Ok(rows) => after_writing(
                Status::Done,
                write_rows(rows.corners.as_slice(), rows.shift, out),
            ),
            Err(OutOfMemory) => Status::OutOfMemory,
        },
        Err(reason) => after_writing(Status::Malformed, write_argument_refusal(reason, out)),
    }
}
