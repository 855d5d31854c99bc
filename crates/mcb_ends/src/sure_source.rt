use crate::unread::Unread;
use crate::{Failed, Source};

/// A source in memory that never fails.
#[derive(Drop)]
pub struct SureSource {
    unread: Unread,
}

impl SureSource {
    ghost use Rattle.std.specs.Prelude.{◌≡◌};
    ghost use Rattle.mcb_ends.specs.SureSource.{sure_left};

    pub fn new(bytes: Vec<u8>) -> SureSource
        ensures { sure_left result ≡ bytes.items }
    {
        SureSource {
            unread: Unread::new(bytes),
        }
    }
}

impl Source for SureSource {
    ghost use Rattle.std.proofs.Common.{lit≤};
    ghost use Rattle.std.specs.Prelude.{Some};
    ghost use Rattle.mcb_ends.specs.SureSource.{sure_left};

    ghost left = { λ source. Some (sure_left source) };

    ghost faults = { λ _. 0 };

    ghost counted = { λ _. lit≤ tt };

    /// Hands out as many bytes as the buffer and what is left allow.
    fn read(&mut self, buf: &mut [u8]) -> Result<usize, Failed> {
        Ok(self.unread.hand_out(buf, usize::MAX))
    }
}
