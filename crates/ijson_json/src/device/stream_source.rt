//! A source that reads from a `std::io::Read`. In contracts, the source's remaining bytes are
//! `Read.remaining` of the reader, which may be unknown.
ghost use Rattle.std.specs.Prelude.{◌≡◌};

use crate::device::{DeviceFault, Source};
use std::io::Read;
use std::marker::Model;

/// A source that reads from a reader.
///
/// A read fails if the reader returns an error. Each `read` is one read of the reader. Does not
/// allocate.
#[derive(Drop)]
pub struct StreamSource<R> {
    inner: R,
    failures: u64,
}

impl<R> Model for StreamSource<R> {
    ghost use Rattle.ijson_json.specs.StreamState.{StreamState};
    ghost use Rattle.ijson_json.specs.laws.StreamStateCode.{stream_state_code};

    ghost Value = { StreamState R };

    ghost coded = { stream_state_code R.code };

    ghost view = { λ s. record { inner = s.inner; failed = s.failures } };
}

impl<R: Read> StreamSource<R> {
    /// Creates a source that reads from `inner`, with 0 failures.
    pub fn new(inner: R) -> StreamSource<R>
        ensures { result ≡ record { inner = inner; failed = 0 } }
    {
        StreamSource { inner, failures: 0 }
    }

    /// Returns the reader. Only the bytes that the source returned are consumed.
    pub fn into_inner(self) -> R
        ensures { result ≡ self.inner }
    {
        self.inner
    }
}

impl<R: Read> Source for StreamSource<R> {
    ghost failed = { λ s. s.failed };

    ghost left = { λ s. R.remaining s.inner };

    fn failures(&self) -> u64 {
        self.failures
    }

    fn read(&mut self, into: &mut [u8]) -> Result<usize, DeviceFault> {
        match self.inner.read(into) {
            Ok(count) => Ok(count),
            Err(_) => {
                self.failures += 1;
                Err(DeviceFault)
            }
        }
    }
}
