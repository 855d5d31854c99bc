//! The command `draw`: the picture of a covering file that is read from the input.
ghost use Rattle.std.specs.Prelude.{◌≡◌, ◌⊎◌, ℕ, List, Option};
ghost use Rattle.std.specs.Io.KnownBytes.{IsAtEnd};
ghost use Rattle.line_grammar.specs.Input.{MayBe};
ghost use Rattle.covering_file.specs.TreeFile.{IsTreeFile, tree_file_text};
ghost use Rattle.covering_file.specs.declared.TheConstants.{MAX_NODES};
ghost use Rattle.billiards_cli.specs.Commands.Draw.{draw_request};
ghost use Rattle.billiards_cli.specs.Requests.{command_of};
ghost use Rattle.billiards_cli.specs.Services.{Serves};

use crate::Status;
use crate::refusal::write_refusal;
use crate::request::Request;
use crate::rest::Rest;
use crate::status::after_writing;
use crate::whole_file::read_file;
use covering_file::{HeadFault, Tree};
use mcb_ends::{Sink, Source};
use std::alloc::Global;
use svg_pictures::{MAX_DRAWN, drawn_leaves, write_covering};

/// It takes no arguments.
pub(crate) fn request<'a>(arguments: &Rest<'a>) -> Option<Request<'a>>
    ensures { result ≡ draw_request arguments.now }
{
    if arguments.len() == 0 {
        Some(Request::Draw)
    } else {
        None
    }
}

/// Reads a covering file to the end of the input and draws it, or refuses the first line that offends. Where it has too many
/// leaves to draw, nothing is written. No box is judged.
pub(crate) fn draw<S: Source, K: Sink>(alloc: Global, src: &mut S, out: &mut K) -> Status
    ensures unwritten { (result ≡ Status.ReadFault) ⊎ (result ≡ Status.OutOfMemory) → out.new ≡ out.old }
    ensures room { K.room out.new ≡ K.room out.old }
    ensures serves { Serves (command_of Request.Draw)
        (record { left = S.left src.old; source_faults = S.faults src.old; written = K.written out.old; sink_faults = K.faults out.old })
        (record { left = S.left src.new; source_faults = S.faults src.new; written = K.written out.new; sink_faults = K.faults out.new })
        result }
{
    match read_file(alloc, src) {
        Ok(tree) => answer(alloc, &tree, out),
        Err(HeadFault::Line { line, reason }) => {
            after_writing(Status::Malformed, write_refusal(line, reason, out))
        }
        Err(HeadFault::Read) => Status::ReadFault,
        Err(HeadFault::Memory) => Status::OutOfMemory,
    }
}

// Draws the file that the whole input was. Where it has too many leaves to draw, nothing is written.
fn answer<K: Sink>(alloc: Global, tree: &Tree, out: &mut K) -> Status
    requires { IsTreeFile MAX_NODES tree.now }
    ensures unwritten { (result ≡ Status.ReadFault) ⊎ (result ≡ Status.OutOfMemory) → out.new ≡ out.old }
    ensures room { K.room out.new ≡ K.room out.old }
    ensures serves { (left left' : Option (List ℕ)) (faults faults' : ℕ)
        → MayBe left (tree_file_text tree.now) → IsAtEnd left' → faults' ≡ faults
        → Serves (command_of Request.Draw)
        (record { left = left; source_faults = faults; written = K.written out.old; sink_faults = K.faults out.old })
        (record { left = left'; source_faults = faults'; written = K.written out.new; sink_faults = K.faults out.new })
        result }
{
    if drawn_leaves(tree) > MAX_DRAWN {
        return Status::Full;
    }
    after_writing(Status::Done, write_covering(alloc, tree, out))
}
