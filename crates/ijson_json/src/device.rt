//! Devices: the traits of a source to read from and of a sink to write to.
//!
//! - `stream_source`, `stream_sink`: wrap a reader or writer of the standard library.
//! - `memory_source`, `memory_sink`: devices in memory.
//! - `transfer`: reads a source to its end, and writes a whole text.
ghost use Rattle.std.specs.Prelude.{◌≡◌, ◌+◌, ◌^◌, ◌<◌, ◌≤◌, ℕ, List, Option, length, IfOk, OnOk, OnErr};
ghost use Rattle.std.specs.Io.KnownBytes.{ReadConsumes, WriteAppends};

mod memory_sink;
mod memory_source;
mod stream_sink;
mod stream_source;
pub(crate) mod transfer;

pub use memory_sink::MemorySink;
pub use memory_source::MemorySource;
pub use stream_sink::StreamSink;
pub use stream_source::StreamSource;
use thiserror::Error;

/// The error of a failed read or write. A failed call does not read or write any byte.
#[derive(Debug, Clone, Copy, PartialEq, Eq, Error)]
#[error("a read or a write failed")]
pub struct DeviceFault;

/// A source of bytes that counts its failed reads, such as `MemorySource` and `StreamSource`.
pub trait Source {
    /// The number of failed reads.
    ghost failed: { Self → ℕ };

    /// The remaining bytes, if known. Corresponds to `Read.remaining` of the standard library.
    ghost left: { Self → Option (List ℕ) };

    /// Returns the number of failed reads.
    fn failures(&self) -> u64
        ensures { result ≡ failed self.now };

    /// Reads the next bytes into the start of `into`, and returns their number.
    ///
    /// Returns 0 for a non-empty `into` only at the end of the source. `failures` must be below
    /// 2^64 - 1.
    ///
    /// # Errors
    ///
    /// If the read fails, no byte is read, and `failures` increases by 1.
    fn read(&mut self, into: &mut [u8]) -> Result<usize, DeviceFault>
        requires { failed self.old + 1 < 2 ^ 64 }
        ensures bound { IfOk result (λ n. n ≤ length into.new) }
        ensures count { OnOk result (failed self.new ≡ failed self.old) }
        ensures fault { OnErr result (failed self.new ≡ failed self.old + 1) }
        ensures bytes { ReadConsumes (left self.old) (left self.new) result into.new };
}

/// A sink for bytes that counts its failed writes, such as `MemorySink` and `StreamSink`.
pub trait Sink {
    /// The number of failed writes.
    ghost failed: { Self → ℕ };

    /// The bytes received, if known. Corresponds to `Write.contents` of the standard library.
    ghost got: { Self → Option (List ℕ) };

    /// Returns the number of failed writes.
    fn failures(&self) -> u64
        ensures { result ≡ failed self.now };

    /// Writes the first bytes of `from`, at least one unless `from` is empty, and returns their
    /// number.
    ///
    /// `failures` must be below 2^64 - 1.
    ///
    /// # Errors
    ///
    /// If the write fails, no byte is written, and `failures` increases by 1.
    fn write(&mut self, from: &[u8]) -> Result<usize, DeviceFault>
        requires { failed self.old + 1 < 2 ^ 64 }
        ensures bound { IfOk result (λ n. n ≤ length from.now) }
        ensures progress { IfOk result (λ n. 0 < length from.now → 0 < n) }
        ensures count { OnOk result (failed self.new ≡ failed self.old) }
        ensures fault { OnErr result (failed self.new ≡ failed self.old + 1) }
        ensures bytes { WriteAppends (got self.old) (got self.new) result from.now };
}
