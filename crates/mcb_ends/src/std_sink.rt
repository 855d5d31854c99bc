ghost use Rattle.std.specs.Prelude.{◌-◌, ◌^◌, ◌≤◌};

use crate::{Failed, Sink};
use std::io::Write;

/// A sink over one of std's writers. It counts a fault at each `Err`, and at a write that takes no
/// byte of a piece that is not empty. It tells no room.
#[derive(Drop)]
pub struct StdSink<W> {
    writer: W,
    faults: u64,
    ghost counted: { faults ≤ 2 ^ 64 - 1 },
}

impl<W> StdSink<W> {
    ghost use Rattle.std.specs.Prelude.{◌≡◌};
    ghost use Rattle.mcb_ends.specs.StdSink.{sink_writer, sink_faults};

    pub fn new(writer: W) -> StdSink<W>
        ensures writer { sink_writer result ≡ writer }
        ensures faults { sink_faults result ≡ 0 }
    {
        StdSink { writer, faults: 0 }
    }
}

impl<W: Write + Drop> Sink for StdSink<W> {
    ghost use Rattle.std.specs.Prelude.{◌≡◌, None};
    ghost use Rattle.mcb_ends.specs.StdSink.{sink_writer, sink_faults};

    ghost written = { λ sink. W.contents (sink_writer sink) };

    ghost faults = { λ sink. sink_faults sink };

    ghost room = { λ _. None };

    ghost counted = { λ sink. sink.counted };

    ghost honest = { λ _. tt };

    fn write(&mut self, piece: &[u8]) -> Result<usize, Failed> {
        match self.writer.write(piece) {
            Ok(count) if count > 0 || piece.is_empty() => Ok(count),
            _ => {
                self.faults = self.faults.saturating_add(1);
                Err(Failed)
            }
        }
    }
}
