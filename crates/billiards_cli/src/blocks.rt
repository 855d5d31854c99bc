ghost use Rattle.std.specs.Prelude.{◌≡◌, ◌↔◌, ◌⊎◌, None, IfSome};
ghost use Rattle.std.specs.Bool.{OnFalse};
ghost use Rattle.billiards_cli.specs.Headline.{Headline};
ghost use Rattle.billiards_cli.specs.Command.{reads_input};
ghost use Rattle.billiards_cli.specs.Requests.{request_of, command_of};
ghost use Rattle.billiards_cli.specs.Services.{Serves, IsDecided};
ghost use Rattle.billiards_cli.specs.Streams.{MeetNoFault};

use crate::status::after_writing;
use crate::{Args, Status, run};
use mcb_ends::{Before, Gathered, Sink, Source};
use std::alloc::Global;
use std::marker::Brand;

/// Runs, and passes on what is written in blocks, the last one at the end. It gives the sink back, of which it promises
/// what `run` promises of its own.
pub fn run_in_blocks<S: Source, K: Sink>(
    alloc: Global,
    arguments: &Args,
    src: &mut S,
    out: K,
) -> (K, Status)
    ensures usage { (result.1 ≡ Status.Usage) ↔ (request_of arguments.now ≡ None) }
    ensures untouched { result.1 ≡ Status.Usage → (src.new ≡ src.old) × (result.0 ≡ out) }
    ensures unwritten { (result.1 ≡ Status.ReadFault) ⊎ (result.1 ≡ Status.OutOfMemory) → result.0 ≡ out }
    ensures idle { IfSome (request_of arguments.now) (λ request. OnFalse (reads_input (command_of request).reads) (src.new ≡ src.old)) }
    ensures room { K.room result.0 ≡ K.room out }
    ensures serves { IfSome (request_of arguments.now) (λ request. Serves (command_of request)
        (record { left = S.left src.old; source_faults = S.faults src.old; written = K.written out; sink_faults = K.faults out })
        (record { left = S.left src.new; source_faults = S.faults src.new; written = K.written result.0; sink_faults = K.faults result.0 })
        result.1) }
    ensures headline { Headline arguments.now result.1 (S.left src.old) (S.left src.new) }
    ensures complete { MeetNoFault
        (record { left = S.left src.old; source_faults = S.faults src.old; written = K.written out; sink_faults = K.faults out })
        (record { left = S.left src.new; source_faults = S.faults src.new; written = K.written result.0; sink_faults = K.faults result.0 })
        → IfSome (request_of arguments.now) (λ request. IsDecided (command_of request) (S.left src.old) result.1) }
{
    run_gathered::<S, K, Brand>(alloc, arguments, src, out)
}

fn run_gathered<S: Source, K: Sink, B: Before>(
    alloc: Global,
    arguments: &Args,
    src: &mut S,
    out: K,
) -> (K, Status)
    requires { K.written out ≡ B.taken }
    ensures usage { (result.1 ≡ Status.Usage) ↔ (request_of arguments.now ≡ None) }
    ensures untouched { result.1 ≡ Status.Usage → (src.new ≡ src.old) × (result.0 ≡ out) }
    ensures unwritten { (result.1 ≡ Status.ReadFault) ⊎ (result.1 ≡ Status.OutOfMemory) → result.0 ≡ out }
    ensures idle { IfSome (request_of arguments.now) (λ request. OnFalse (reads_input (command_of request).reads) (src.new ≡ src.old)) }
    ensures room { K.room result.0 ≡ K.room out }
    ensures serves { IfSome (request_of arguments.now) (λ request. Serves (command_of request)
        (record { left = S.left src.old; source_faults = S.faults src.old; written = K.written out; sink_faults = K.faults out })
        (record { left = S.left src.new; source_faults = S.faults src.new; written = K.written result.0; sink_faults = K.faults result.0 })
        result.1) }
    ensures headline { Headline arguments.now result.1 (S.left src.old) (S.left src.new) }
    ensures complete { MeetNoFault
        (record { left = S.left src.old; source_faults = S.faults src.old; written = K.written out; sink_faults = K.faults out })
        (record { left = S.left src.new; source_faults = S.faults src.new; written = K.written result.0; sink_faults = K.faults result.0 })
        → IfSome (request_of arguments.now) (λ request. IsDecided (command_of request) (S.left src.old) result.1) }
{
    let mut gathered = Gathered::<K, B>::new(out);
    let status = run(alloc, arguments, src, &mut gathered);
    let (out, passed_on) = gathered.finish();
    (out, after_writing(status, passed_on))
}
