ghost use Rattle.std.specs.Prelude.{◌-◌, ◌^◌, ◌≤◌};

use crate::{Failed, Source};
use std::io::Read;

// How many bytes a call reads at most.
const SIZE: usize = 4096;

/// A source over one of std's readers. It counts a fault at each `Err`. It reads into a block of its
/// own, since a reader that fails may have changed the buffer that it was lent.
#[derive(Drop)]
pub struct StdSource<R> {
    reader: R,
    block: [u8; SIZE],
    faults: u64,
    ghost counted: { faults ≤ 2 ^ 64 - 1 },
}

impl<R> StdSource<R> {
    ghost use Rattle.std.specs.Prelude.{◌≡◌};
    ghost use Rattle.mcb_ends.specs.StdSource.{source_reader, source_faults};

    pub fn new(reader: R) -> StdSource<R>
        ensures reader { source_reader result ≡ reader }
        ensures faults { source_faults result ≡ 0 }
    {
        StdSource {
            reader,
            block: [0; SIZE],
            faults: 0,
        }
    }
}

impl<R: Read + Drop> Source for StdSource<R> {
    ghost use Rattle.std.specs.Prelude.{◌≡◌};
    ghost use Rattle.mcb_ends.specs.StdSource.{source_reader, source_faults};

    ghost left = { λ source. R.remaining (source_reader source) };

    ghost faults = { λ source. source_faults source };

    ghost counted = { λ source. source.counted };

    fn read(&mut self, buf: &mut [u8]) -> Result<usize, Failed> {
        let most = buf.len().min(SIZE);
        let block = &mut self.block[..];
        match self.reader.read(&mut block[..most]) {
            Ok(count) => {
                buf[..count].copy_from_slice(&block[..count]);
                Ok(count)
            }
            Err(_) => {
                self.faults = self.faults.saturating_add(1);
                Err(Failed)
            }
        }
    }
}
