//! A sink in memory, for tests.
ghost use Rattle.std.specs.Prelude.{◌≡◌, ◌+◌, ◌-◌, ◌++◌, ◌^◌, ◌<◌, ◌≤◌, ◌↔◌, [], length, take, min, IfOk, OnOk, IsErr, OnErr, Some};
ghost use Rattle.std.specs.Io.KnownBytes.{WriteAppends};

use crate::device::{DeviceFault, Sink};
use std::alloc::{AllocError, Global};
use std::marker::Model;

/// A sink that stores up to `fail_at` bytes, at most `piece` per call, and then fails.
///
/// Creating the sink allocates all `fail_at` bytes.
#[derive(Drop)]
pub struct MemorySink {
    room: Vec<u8>,
    len: usize,
    piece: usize,
    failures: u64,
}

impl Model for MemorySink {
    ghost use Rattle.std.specs.Prelude.{◌<◌, ◌≤◌, ◌-◌, take, length};
    ghost use Rattle.ijson_json.specs.SinkState.{SinkState};

    ghost Value = { SinkState };

    ghost view = { λ s. record {
      got = take s.len s.room.items;
      piece = s.piece;
      until_fault = length s.room.items - s.len;
      failed = s.failures;
    } };

    ghost invariant = { λ s. (0 < s.piece) × (s.len ≤ length s.room.items) };
}

impl MemorySink {
    /// Creates a sink that stores up to `fail_at` bytes, at most `piece` per call.
    ///
    /// `piece` must be at least 1. After `fail_at` bytes are stored, each write of a non-empty
    /// slice fails. The capacity for all `fail_at` bytes is allocated here, so that `write` does
    /// not allocate.
    ///
    /// # Errors
    ///
    /// Returns `AllocError` if the allocation fails.
    pub fn new(alloc: Global, piece: usize, fail_at: usize) -> Result<MemorySink, AllocError>
        requires { 0 < piece }
        ensures { IfOk result (λ s. s ≡ record {
          got = [];
          piece = piece;
          until_fault = fail_at;
          failed = 0;
        }) }
    {
        let room = Vec::from_elem(alloc, 0, fail_at)?;
        Ok(MemorySink {
            room,
            len: 0,
            piece,
            failures: 0,
        })
    }

    /// Returns the bytes received so far, without copying them.
    pub fn bytes(&self) -> &[u8]
        ensures { result.now ≡ self.now.got }
    {
        &self.room[..self.len]
    }
}

/// `write` and `failures` do not allocate.
impl Sink for MemorySink {
    ghost failed = { λ s. s.failed };

    ghost got = { λ s. Some s.got };

    fn failures(&self) -> u64 {
        self.failures
    }

    fn write(&mut self, from: &[u8]) -> Result<usize, DeviceFault>
        requires { self.old.failed + 1 < 2 ^ 64 }
        ensures bound { IfOk result (λ n. n ≤ length from.now) }
        ensures progress { IfOk result (λ n. 0 < length from.now → 0 < n) }
        ensures count { OnOk result (self.new.failed ≡ self.old.failed) }
        ensures fault { OnErr result (self.new.failed ≡ self.old.failed + 1) }
        ensures bytes { WriteAppends (Some self.old.got) (Some self.new.got) result from.now }

        // The remaining clauses determine when a call fails, how many bytes it moves and the new
        // state.
        ensures fails { IsErr result ↔ ((self.old.until_fault ≡ 0) × (0 < length from.now)) }
        ensures moved { IfOk result (λ n.
            n ≡ min self.old.piece (min self.old.until_fault (length from.now))) }
        ensures taken { IfOk result (λ n. self.new ≡ record self.old {
          got = self.old.got ++ take n from.now;
          until_fault = self.old.until_fault - n;
        }) }
        ensures refused { OnErr result (self.new ≡ record self.old { failed = self.old.failed + 1 }) }
    {
        let until_fault = self.room.len() - self.len;
        if until_fault == 0 && !from.is_empty() {
            self.failures += 1;
            return Err(DeviceFault);
        }
        let count = self.piece.min(until_fault.min(from.len()));
        self.room[self.len..self.len + count].copy_from_slice(&from[..count]);
        self.len += count;
        Ok(count)
    }
}
