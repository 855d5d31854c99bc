//! The command `path`: the bounce points of a word's path in a triangle.
ghost use Rattle.std.specs.Prelude.{◌≡◌, ◌⊎◌, ℕ, List, Option, IfOk, IsErrOf};
ghost use Rattle.edge_words.specs.Stable.{IsStable};
ghost use Rattle.gradient_bounds.specs.Clear.{IsClearAtPoint};
ghost use Rattle.bounce_path.specs.Path.{IsPath, room_for_path};
ghost use Rattle.bounce_path.specs.declared.fault.PathFault.TheVariants.{Unstable, NotShown};
ghost use Rattle.billiards_cli.specs.Commands.At.{AtTriangle};
ghost use Rattle.billiards_cli.specs.Commands.Path.{path_request};
ghost use Rattle.billiards_cli.specs.Requests.{command_of};
ghost use Rattle.billiards_cli.specs.Services.{Serves};

pub(crate) mod picture;
mod writing;

use crate::refusal::write_argument_refusal;
use crate::request::Request;
use crate::rest::Rest;
use crate::status::after_writing;
use crate::{Status, Triangle, WordArgument};
use bounce_path::{Path, PathFault};
use edge_words::Word;
use mcb_ends::{Sink, put};
use std::alloc::Global;
use writing::write_bounces;

/// It takes a word and the three numbers of a triangle, and the word `svg` or none.
pub(crate) fn request<'a>(arguments: &Rest<'a>) -> Option<Request<'a>>
    ensures { result ≡ path_request arguments.now }
{
    if arguments.len() != 4 && arguments.len() != 5 {
        return None;
    }
    let word = WordArgument::new(arguments.get(0));
    let triangle = Triangle::read(arguments.get(1), arguments.get(2), arguments.get(3))?;
    if arguments.len() == 4 {
        return Some(Request::Path { word, triangle });
    }
    if arguments.get(4) == b"svg".as_slice() {
        Some(Request::DrawnPath { word, triangle })
    } else {
        None
    }
}

/// Writes the level and the bounce points of a word's path in a triangle, once all are found. It reads nothing.
pub(crate) fn path<K: Sink>(
    alloc: Global,
    argument: &WordArgument,
    triangle: &Triangle,
    out: &mut K,
) -> Status
    ensures unwritten { (result ≡ Status.ReadFault) ⊎ (result ≡ Status.OutOfMemory) → out.new ≡ out.old }
    ensures room { K.room out.new ≡ K.room out.old }
    ensures serves { (left : Option (List ℕ)) (faults : ℕ) → Serves (command_of (Request.Path argument.now triangle.now))
        (record { left = left; source_faults = faults; written = K.written out.old; sink_faults = K.faults out.old })
        (record { left = left; source_faults = faults; written = K.written out.new; sink_faults = K.faults out.new })
        result }
{
    match argument.read_stable(alloc) {
        Ok(word) => match path_at(alloc, &word, triangle) {
            Ok(path) => after_writing(Status::Done, write_bounces(&path, out)),
            Err(PathFault::NotShown) => after_writing(Status::NotShown, put(out, b"not shown\n")),
            Err(_) => Status::OutOfMemory,
        },
        Err(reason) => after_writing(Status::Malformed, write_argument_refusal(reason, out)),
    }
}

// The path of a stable word in a triangle.
fn path_at(alloc: Global, word: &Word, triangle: &Triangle) -> Result<Path, PathFault>
    requires { IsStable word.now }
    ensures path { IfOk result (λ path. AtTriangle triangle.now (λ x y. IsPath word.now x y path)) }
    ensures not_shown { IsErrOf result NotShown → ¬ (AtTriangle triangle.now (λ x y. IsClearAtPoint word.now x y room_for_path)) }
    ensures stable { ¬ (IsErrOf result Unstable) }
{
    bounce_path::path(alloc, word, triangle.first(), triangle.second())
}
