//! The command `at`: whether the corridor of a word was shown to be open at a triangle.
ghost use Rattle.std.specs.Prelude.{◌≡◌, ◌⊎◌, ℕ, List, Option, Ok, true, false, OnErr};
ghost use Rattle.edge_words.specs.Stable.{IsStable};
ghost use Rattle.gradient_bounds.specs.Corridor.{HasCorridor};
ghost use Rattle.gradient_bounds.specs.Clear.{IsClearAtPoint};
ghost use Rattle.gradient_bounds.specs.Slacks.{sure};
ghost use Rattle.billiards_cli.specs.Commands.At.{AtTriangle, at_request};
ghost use Rattle.billiards_cli.specs.Requests.{command_of};
ghost use Rattle.billiards_cli.specs.Services.{Serves};

use crate::refusal::write_argument_refusal;
use crate::request::Request;
use crate::rest::Rest;
use crate::status::after_writing;
use crate::{Status, Triangle, WordArgument};
use edge_words::Word;
use gradient_bounds::Prepared;
use mcb_ends::{OutOfMemory, Sink, put};
use pi_bounds::Fine;
use std::alloc::Global;

/// It takes a word and the three numbers of a triangle.
pub(crate) fn request<'a>(arguments: &Rest<'a>) -> Option<Request<'a>>
    ensures { result ≡ at_request arguments.now }
{
    if arguments.len() != 4 {
        return None;
    }
    let word = WordArgument::new(arguments.get(0));
    let triangle = Triangle::read(arguments.get(1), arguments.get(2), arguments.get(3))?;
    Some(Request::At { word, triangle })
}

/// Tests whether the corridor of a word is open at a triangle. It reads nothing.
pub(crate) fn at<K: Sink>(
    alloc: Global,
    argument: &WordArgument,
    triangle: &Triangle,
    out: &mut K,
) -> Status
    ensures unwritten { (result ≡ Status.ReadFault) ⊎ (result ≡ Status.OutOfMemory) → out.new ≡ out.old }
    ensures room { K.room out.new ≡ K.room out.old }
    ensures serves { (left : Option (List ℕ)) (faults : ℕ) → Serves (command_of (Request.At argument.now triangle.now))
        (record { left = left; source_faults = faults; written = K.written out.old; sink_faults = K.faults out.old })
        (record { left = left; source_faults = faults; written = K.written out.new; sink_faults = K.faults out.new })
        result }
{
    match argument.read_stable(alloc) {
        Ok(word) => match is_open(alloc, &word, triangle) {
            Ok(true) => after_writing(Status::Done, put(out, b"open\n")),
            Ok(false) => after_writing(Status::NotShown, put(out, b"not shown\n")),
            Err(OutOfMemory) => Status::OutOfMemory,
        },
        Err(reason) => after_writing(Status::Malformed, write_argument_refusal(reason, out)),
    }
}

/// Whether the corridor of a stable word was shown to be open at a triangle.
pub(crate) fn is_open(alloc: Global, word: &Word, triangle: &Triangle) -> Result<bool, OutOfMemory>
    requires { IsStable word.now }
    ensures open { result ≡ Ok true → AtTriangle triangle.now (HasCorridor word.now) }
    ensures not_shown { result ≡ Ok false → ¬ (AtTriangle triangle.now (λ x y. IsClearAtPoint word.now x y sure.gradient)) }
{
    match Prepared::<Fine>::new(alloc, word) {
        Ok(mut prepared) => Ok(prepared.test_point(triangle.first(), triangle.second())),
        Err(_) => Err(OutOfMemory),
    }
}
