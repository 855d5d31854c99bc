//! The command `merge`: two covering files of one region, which are read from the input, made into one.
ghost use Rattle.std.specs.Prelude.{◌≡◌, ◌⊎◌, count_by};
ghost use Rattle.covering_file.specs.Node.{is_uncovered};
ghost use Rattle.billiards_cli.specs.Commands.Merge.{merge_request, merged_status};
ghost use Rattle.billiards_cli.specs.Requests.{command_of};
ghost use Rattle.billiards_cli.specs.Services.{Serves};

use crate::Status;
use crate::commands::check::status_of_refusal;
use crate::refusal::{write_numbered_refusal, write_refusal};
use crate::request::Request;
use crate::rest::Rest;
use crate::status::after_writing;
use cover_merge::MergeFault;
use covering_file::{MAX_NODES, Tree, write_tree};
use mcb_ends::{Sink, Source};
use std::alloc::Global;

// The numbers of two reasons that no single file has: a line of the second file's region that is not that of the first file, and
// a word that is one too many for both.
const OTHER_REGION: u8 = 16;

const TOO_MANY_WORDS: u8 = 17;

/// It takes no arguments.
pub(crate) fn request<'a>(arguments: &Rest<'a>) -> Option<Request<'a>>
    ensures { result ≡ merge_request arguments.now }
{
    if arguments.len() == 0 {
        Some(Request::Merge)
    } else {
        None
    }
}

/// Reads two covering files to the end of the input and writes the one that they make, or refuses the first line that offends.
/// Where it has too many nodes, nothing is written.
pub(crate) fn merge<S: Source, K: Sink>(alloc: Global, src: &mut S, out: &mut K) -> Status
    ensures unwritten { (result ≡ Status.ReadFault) ⊎ (result ≡ Status.OutOfMemory) → out.new ≡ out.old }
    ensures room { K.room out.new ≡ K.room out.old }
    ensures serves { Serves (command_of Request.Merge)
        (record { left = S.left src.old; source_faults = S.faults src.old; written = K.written out.old; sink_faults = K.faults out.old })
        (record { left = S.left src.new; source_faults = S.faults src.new; written = K.written out.new; sink_faults = K.faults out.new })
        result }
{
    match cover_merge::merge(alloc, MAX_NODES, src) {
        Ok(tree) => after_writing(status_of_merged(&tree), write_tree(&tree, out)),
        Err(MergeFault::Line { line, reason }) => {
            after_writing(status_of_refusal(reason), write_refusal(line, reason, out))
        }
        Err(MergeFault::Differs { line }) => after_writing(
            Status::Malformed,
            write_numbered_refusal(line, OTHER_REGION, out),
        ),
        Err(MergeFault::Words { line }) => after_writing(
            Status::Malformed,
            write_numbered_refusal(line, TOO_MANY_WORDS, out),
        ),
        Err(MergeFault::Full { .. }) => Status::Full,
        Err(MergeFault::Read) => Status::ReadFault,
        Err(MergeFault::Memory) => Status::OutOfMemory,
    }
}

// What a merge says of its region: that no box of it is left uncovered, or that some is.
fn status_of_merged(tree: &Tree) -> Status
    ensures { result ≡ merged_status (count_by is_uncovered tree.now.nodes) }
{
    if tree.uncovered() == 0 {
        Status::Done
    } else {
        Status::NotShown
    }
}
