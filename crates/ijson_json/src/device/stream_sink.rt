//! A sink that writes to a `std::io::Write`. In contracts, the bytes received are the contents of
//! the writer, if known.
ghost use Rattle.std.specs.Prelude.{◌≡◌, ◌+◌, ◌^◌, ◌<◌, OnOk, OnErr};
ghost use Rattle.std.specs.Io.KnownBytes.{Keeps};

use crate::device::{DeviceFault, Sink};
use std::io::Write;
use std::marker::Model;

/// A sink that writes to a writer.
///
/// A write fails if the writer returns an error, or accepts no byte of a non-empty slice. Each
/// `write` is one write of the writer, and only `flush` flushes the writer. Does not allocate.
#[derive(Drop)]
pub struct StreamSink<W> {
    inner: W,
    failures: u64,
}

impl<W> Model for StreamSink<W> {
    ghost use Rattle.ijson_json.specs.StreamState.{StreamState};
    ghost use Rattle.ijson_json.specs.laws.StreamStateCode.{stream_state_code};

    ghost Value = { StreamState W };

    ghost coded = { stream_state_code W.code };

    ghost view = { λ s. record { inner = s.inner; failed = s.failures } };
}

impl<W: Write> StreamSink<W> {
    /// Creates a sink that writes to `inner`, with 0 failures.
    pub fn new(inner: W) -> StreamSink<W>
        ensures { result ≡ record { inner = inner; failed = 0 } }
    {
        StreamSink { inner, failures: 0 }
    }

    /// Flushes the writer once.
    ///
    /// `failures` must be below 2^64 - 1.
    ///
    /// # Errors
    ///
    /// If flushing fails, `failures` increases by 1.
    pub fn flush(&mut self) -> Result<(), DeviceFault>
        requires { self.old.failed + 1 < 2 ^ 64 }
        ensures count { OnOk result (self.new.failed ≡ self.old.failed) }
        ensures fault { OnErr result (self.new.failed ≡ self.old.failed + 1) }
        ensures bytes { Keeps (W.contents self.old.inner) (W.contents self.new.inner) }
    {
        match self.inner.flush() {
            Ok(()) => Ok(()),
            Err(_) => {
                self.failures += 1;
                Err(DeviceFault)
            }
        }
    }

    /// Returns the writer, without flushing it.
    pub fn into_inner(self) -> W
        ensures { result ≡ self.inner }
    {
        self.inner
    }
}

impl<W: Write> Sink for StreamSink<W> {
    ghost failed = { λ s. s.failed };

    ghost got = { λ s. W.contents s.inner };

    fn failures(&self) -> u64 {
        self.failures
    }

    fn write(&mut self, from: &[u8]) -> Result<usize, DeviceFault> {
        match self.inner.write(from) {
            Ok(count) if 0 < count || from.is_empty() => Ok(count),
            _ => {
                self.failures += 1;
                Err(DeviceFault)
            }
        }
    }
}
