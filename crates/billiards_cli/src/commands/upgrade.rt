//! The command `upgrade`: a covering file that is read from the input, in a later version of the format.
ghost use Rattle.std.specs.Prelude.{◌≡◌, ◌⊎◌};
ghost use Rattle.billiards_cli.specs.Commands.Upgrade.{upgrade_request};
ghost use Rattle.billiards_cli.specs.Requests.{command_of};
ghost use Rattle.billiards_cli.specs.Services.{Serves};

use crate::refusal::write_refusal;
use crate::request::Request;
use crate::rest::Rest;
use crate::status::after_writing;
use crate::whole_file::read_file;
use crate::{Status, UpgradeVersion};
use covering_file::{HeadFault, write_tree};
use mcb_ends::{Sink, Source};
use std::alloc::Global;

/// It takes a version.
pub(crate) fn request<'a>(arguments: &Rest<'a>) -> Option<Request<'a>>
    ensures { result ≡ upgrade_request arguments.now }
{
    if arguments.len() != 1 {
        return None;
    }
    let version = UpgradeVersion::read(arguments.get(0))?;
    Some(Request::Upgrade(version))
}

/// Reads a covering file to the end of the input and writes it in this version, or in its own where that is the greater; or
/// refuses the first line that offends. No box is judged.
pub(crate) fn upgrade<S: Source, K: Sink>(
    alloc: Global,
    version: &UpgradeVersion,
    src: &mut S,
    out: &mut K,
) -> Status
    ensures unwritten { (result ≡ Status.ReadFault) ⊎ (result ≡ Status.OutOfMemory) → out.new ≡ out.old }
    ensures room { K.room out.new ≡ K.room out.old }
    ensures serves { Serves (command_of (Request.Upgrade version.now))
        (record { left = S.left src.old; source_faults = S.faults src.old; written = K.written out.old; sink_faults = K.faults out.old })
        (record { left = S.left src.new; source_faults = S.faults src.new; written = K.written out.new; sink_faults = K.faults out.new })
        result }
{
    match read_file(alloc, src) {
        Ok(tree) => {
            let upgraded = tree.upgraded(version.get());
            after_writing(Status::Done, write_tree(&upgraded, out))
        }
        Err(HeadFault::Line { line, reason }) => {
            after_writing(Status::Malformed, write_refusal(line, reason, out))
        }
        Err(HeadFault::Read) => Status::ReadFault,
        Err(HeadFault::Memory) => Status::OutOfMemory,
    }
}
