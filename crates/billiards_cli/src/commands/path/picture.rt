//! The picture of a word's path in a triangle.
ghost use Rattle.std.specs.Prelude.{◌≡◌, ◌⊎◌, ℕ, List, Option};
ghost use Rattle.mcb_ends.specs.Causes.{HasCause};
ghost use Rattle.svg_pictures.specs.PathPicture.{WritesPath};
ghost use Rattle.billiards_cli.specs.Commands.At.{AtTriangle};
ghost use Rattle.billiards_cli.specs.Requests.{command_of};
ghost use Rattle.billiards_cli.specs.Services.{Serves};

use super::path_at;
use crate::refusal::write_argument_refusal;
use crate::request::Request;
use crate::status::after_writing;
use crate::{Status, Triangle, WordArgument};
use bounce_path::{Path, PathFault};
use mcb_ends::{Failed, Sink, put};
use std::alloc::Global;
use svg_pictures::write_path;

/// Draws the path of a word in a triangle. It reads nothing.
pub(crate) fn drawn_path<K: Sink>(
    alloc: Global,
    argument: &WordArgument,
    triangle: &Triangle,
    out: &mut K,
) -> Status
    ensures unwritten { (result ≡ Status.ReadFault) ⊎ (result ≡ Status.OutOfMemory) → out.new ≡ out.old }
    ensures room { K.room out.new ≡ K.room out.old }
    ensures serves { (left : Option (List ℕ)) (faults : ℕ) → Serves (command_of (Request.DrawnPath argument.now triangle.now))
        (record { left = left; source_faults = faults; written = K.written out.old; sink_faults = K.faults out.old })
        (record { left = left; source_faults = faults; written = K.written out.new; sink_faults = K.faults out.new })
        result }
{
    match argument.read_stable(alloc) {
        Ok(word) => match path_at(alloc, &word, triangle) {
            Ok(path) => after_writing(Status::Done, draw(&path, triangle, out)),
            Err(PathFault::NotShown) => after_writing(Status::NotShown, put(out, b"not shown\n")),
            Err(_) => Status::OutOfMemory,
        },
        Err(reason) => after_writing(Status::Malformed, write_argument_refusal(reason, out)),
    }
}

fn draw<K: Sink>(path: &Path, triangle: &Triangle, out: &mut K) -> Result<(), Failed>
    ensures text { AtTriangle triangle.now (λ x y. WritesPath path.now.bounces x y (K.written out.old) (K.written out.new) result) }
    ensures room { K.room out.new ≡ K.room out.old }
    ensures cause { HasCause (K.faults out.old) (K.faults out.new) result }
{
    write_path(path, triangle.first(), triangle.second(), out)
}
