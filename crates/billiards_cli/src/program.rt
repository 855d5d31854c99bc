ghost use Rattle.std.specs.Prelude.{◌≡◌, ◌↔◌, ◌⊎◌, None, IfSome};
ghost use Rattle.std.specs.Bool.{OnFalse};
ghost use Rattle.billiards_cli.specs.Headline.{Headline};
ghost use Rattle.billiards_cli.specs.Command.{reads_input};
ghost use Rattle.billiards_cli.specs.Requests.{request_of, command_of};
ghost use Rattle.billiards_cli.specs.Services.{Serves, IsDecided};
ghost use Rattle.billiards_cli.specs.Streams.{MeetNoFault};

use crate::request::{obey, parse};
use crate::{Args, Status};
use mcb_ends::{Sink, Source};
use std::alloc::Global;

/// Does all that the program does: obeys the arguments of a command line, reads the source and writes the sink.
pub fn run<S: Source, K: Sink>(alloc: Global, arguments: &Args, src: &mut S, out: &mut K) -> Status
    // The arguments ask for nothing. Then nothing is read and nothing is written.
    ensures usage { (result ≡ Status.Usage) ↔ (request_of arguments.now ≡ None) }
    ensures untouched { result ≡ Status.Usage → (src.new ≡ src.old) × (out.new ≡ out.old) }

    // Nothing is written after a failed read, or for want of memory.
    ensures unwritten { (result ≡ Status.ReadFault) ⊎ (result ≡ Status.OutOfMemory) → out.new ≡ out.old }

    // A command that reads nothing leaves the source as it was.
    ensures idle { IfSome (request_of arguments.now) (λ request. OnFalse (reads_input (command_of request).reads) (src.new ≡ src.old)) }
    ensures room { K.room out.new ≡ K.room out.old }

    // What was read and written, and which count of faults rose, by the status.
    ensures serves { IfSome (request_of arguments.now) (λ request. Serves (command_of request)
        (record { left = S.left src.old; source_faults = S.faults src.old; written = K.written out.old; sink_faults = K.faults out.old })
        (record { left = S.left src.new; source_faults = S.faults src.new; written = K.written out.new; sink_faults = K.faults out.new })
        result) }

    // The headline. Where `check` is done, the bytes read are one whole covering file, and every point of its region that
    // is a triangle has a listed word with a corridor: the word is stable, its unfolding ends in a translate of its first
    // triangle, and every upper corner lies strictly to the left of every lower corner along that translation.
    ensures headline { Headline arguments.now result (S.left src.old) (S.left src.new) }

    // Where no count of faults rises, the input alone decides the status, but for want of memory.
    ensures complete { MeetNoFault
        (record { left = S.left src.old; source_faults = S.faults src.old; written = K.written out.old; sink_faults = K.faults out.old })
        (record { left = S.left src.new; source_faults = S.faults src.new; written = K.written out.new; sink_faults = K.faults out.new })
        → IfSome (request_of arguments.now) (λ request. IsDecided (command_of request) (S.left src.old) result) }
{
    match parse(arguments) {
        None => Status::Usage,
        Some(request) => obey(alloc, &request, src, out),
    }
}
