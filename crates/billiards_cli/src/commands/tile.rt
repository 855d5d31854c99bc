//! The command `tile`: the picture of a word's tile.
ghost use Rattle.std.specs.Prelude.{◌≡◌, ◌⊎◌, ℕ, List, Option};
ghost use Rattle.billiards_cli.specs.Commands.Tile.{tile_request};
ghost use Rattle.billiards_cli.specs.Requests.{command_of};
ghost use Rattle.billiards_cli.specs.Services.{Serves};

use crate::refusal::write_argument_refusal;
use crate::request::Request;
use crate::rest::Rest;
use crate::status::after_writing;
use crate::{Status, TileDepth, WordArgument};
use mcb_ends::Sink;
use orbit_tile::{MAX_PATCHES, TileFault};
use std::alloc::Global;
use svg_pictures::write_tile;

/// It takes a word and a depth.
pub(crate) fn request<'a>(arguments: &Rest<'a>) -> Option<Request<'a>>
    ensures { result ≡ tile_request arguments.now }
{
    if arguments.len() != 2 {
        return None;
    }
    let word = WordArgument::new(arguments.get(0));
    let depth = TileDepth::read(arguments.get(1))?;
    Some(Request::Tile { word, depth })
}

/// Draws the tile of a word, once it is whole. Where it has too many patches, nothing is written. It reads nothing.
pub(crate) fn tile<K: Sink>(
    alloc: Global,
    argument: &WordArgument,
    depth: &TileDepth,
    out: &mut K,
) -> Status
    ensures unwritten { (result ≡ Status.ReadFault) ⊎ (result ≡ Status.OutOfMemory) → out.new ≡ out.old }
    ensures room { K.room out.new ≡ K.room out.old }
    ensures serves { (left : Option (List ℕ)) (faults : ℕ) → Serves (command_of (Request.Tile argument.now depth.now))
        (record { left = left; source_faults = faults; written = K.written out.old; sink_faults = K.faults out.old })
        (record { left = left; source_faults = faults; written = K.written out.new; sink_faults = K.faults out.new })
        result }
{
    match argument.read_stable(alloc) {
        Ok(word) => match orbit_tile::tile(alloc, &word, depth.get(), MAX_PATCHES) {
            Ok(patches) => after_writing(Status::Done, write_tile(patches.as_slice(), out)),
            Err(TileFault::Full) => Status::Full,
            Err(_) => Status::OutOfMemory,
        },
        Err(reason) => after_writing(Status::Malformed, write_argument_refusal(reason, out)),
    }
}
