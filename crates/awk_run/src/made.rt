//! The bytes of a made session, read as those of a source.
ghost use Rattle.std.specs.Prelude.{◌≡◌, false};

use awk_edge::{Failed, Source};

/// Bytes at hand as a source that never fails.
#[derive(Drop)]
pub struct MadeSource<'v> {
    rest: &'v [u8],
    gave: usize,
    is_ended: bool,
}

impl<'v> MadeSource<'v> {
    /// A source of which nothing was read.
    pub fn new(bytes: &'v [u8]) -> MadeSource<'v>
        ensures { result.rest.now ≡ bytes.now }
    {
        MadeSource {
            rest: bytes,
            gave: 0,
            is_ended: false,
        }
    }
}

impl<'v> Source for MadeSource<'v> {
    ghost use Rattle.std.specs.Prelude.{Some};

    ghost left = { λ s. Some s.rest.now };

    ghost faults = { λ _. 0 };

    ghost gave = { λ s. s.gave };

    ghost is_ended = { λ s. s.is_ended };

    fn read(&mut self, into: &mut [u8]) -> Result<usize, Failed> {
        let count = if into.len() < self.rest.len() {
            into.len()
        } else {
            self.rest.len()
        };
        into[..count].copy_from_slice(&self.rest[..count]);
        self.rest = &self.rest[count..];
        self.gave = count;
        if !into.is_empty() {
            self.is_ended = count == 0;
        }
        Ok(count)
    }
}
