//! The command `unfold`: the picture of a word's unfolding in a triangle.
ghost use Rattle.std.specs.Prelude.{◌≡◌, ◌⊎◌, ℕ, List, Option};
ghost use Rattle.mcb_ends.specs.Causes.{HasCause};
ghost use Rattle.svg_pictures.specs.UnfoldingPicture.{WritesUnfolding};
ghost use Rattle.billiards_cli.specs.Commands.At.{AtTriangle};
ghost use Rattle.billiards_cli.specs.Commands.Unfold.{unfold_request};
ghost use Rattle.billiards_cli.specs.Requests.{command_of};
ghost use Rattle.billiards_cli.specs.Services.{Serves};

use crate::refusal::write_argument_refusal;
use crate::request::Request;
use crate::rest::Rest;
use crate::status::after_writing;
use crate::{Status, Triangle, WordArgument};
use mcb_ends::{Failed, OutOfMemory, Sink};
use std::alloc::Global;
use svg_pictures::write_unfolding;
use unfolding::Unfolding;

/// It takes a word and the three numbers of a triangle.
pub(crate) fn request<'a>(arguments: &Rest<'a>) -> Option<Request<'a>>
    ensures { result ≡ unfold_request arguments.now }
{
    if arguments.len() != 4 {
        return None;
    }
    let word = WordArgument::new(arguments.get(0));
    let triangle = Triangle::read(arguments.get(1), arguments.get(2), arguments.get(3))?;
    Some(Request::Unfold { word, triangle })
}

/// Draws the unfolding of a word in a triangle. The word need not be stable. It reads nothing.
pub(crate) fn unfold<K: Sink>(
    alloc: Global,
    argument: &WordArgument,
    triangle: &Triangle,
    out: &mut K,
) -> Status
    ensures unwritten { (result ≡ Status.ReadFault) ⊎ (result ≡ Status.OutOfMemory) → out.new ≡ out.old }
    ensures room { K.room out.new ≡ K.room out.old }
    ensures serves { (left : Option (List ℕ)) (faults : ℕ) → Serves (command_of (Request.Unfold argument.now triangle.now))
        (record { left = left; source_faults = faults; written = K.written out.old; sink_faults = K.faults out.old })
        (record { left = left; source_faults = faults; written = K.written out.new; sink_faults = K.faults out.new })
        result }
{
    match argument.read(alloc) {
        Ok(word) => match Unfolding::of(alloc, &word) {
            Ok(unfolding) => after_writing(Status::Done, draw(&unfolding, triangle, out)),
            Err(OutOfMemory) => Status::OutOfMemory,
        },
        Err(reason) => after_writing(Status::Malformed, write_argument_refusal(reason, out)),
    }
}

fn draw<K: Sink>(unfolding: &Unfolding, triangle: &Triangle, out: &mut K) -> Result<(), Failed>
    ensures text { AtTriangle triangle.now (λ x y. WritesUnfolding unfolding.now x y (K.written out.old) (K.written out.new) result) }
    ensures room { K.room out.new ≡ K.room out.old }
    ensures cause { HasCause (K.faults out.old) (K.faults out.new) result }
{
    write_unfolding(unfolding, triangle.first(), triangle.second(), out)
}
