//! A source in memory, for tests.
ghost use Rattle.std.specs.Prelude.{◌≡◌, ◌+◌, ◌-◌, ◌^◌, ◌<◌, ◌≤◌, ◌↔◌, length, drop, min, IfOk, OnOk, IsErr, OnErr, Some};
ghost use Rattle.std.specs.Io.KnownBytes.{ReadConsumes};

use crate::device::{DeviceFault, Source};
use std::marker::Model;

/// A source that returns the bytes of a slice, at most `piece` per call, and fails after `fail_at`
/// bytes.
///
/// Does not allocate.
#[derive(Drop)]
pub struct MemorySource<'a> {
    left: &'a [u8],
    piece: usize,
    until_fault: usize,
    failures: u64,
}

impl<'a> Model for MemorySource<'a> {
    ghost use Rattle.std.specs.Prelude.{◌<◌};
    ghost use Rattle.ijson_json.specs.SourceState.{SourceState};

    ghost Value = { SourceState };

    ghost view = { λ s. record {
      left = s.left.now;
      piece = s.piece;
      until_fault = s.until_fault;
      failed = s.failures;
    } };

    ghost invariant = { λ s. 0 < s.piece };
}

impl<'a> MemorySource<'a> {
    /// Creates a source of `bytes` that returns at most `piece` bytes per call.
    ///
    /// `piece` must be at least 1. After `fail_at` bytes are returned, each call fails, even at the
    /// end of `bytes`. If `fail_at` is `usize::MAX`, no call fails.
    pub fn new(bytes: &'a [u8], piece: usize, fail_at: usize) -> MemorySource<'a>
        requires { 0 < piece }
        ensures { result ≡ record {
          left = bytes.now;
          piece = piece;
          until_fault = fail_at;
          failed = 0;
        } }
    {
        MemorySource {
            left: bytes,
            piece,
            until_fault: fail_at,
            failures: 0,
        }
    }
}

/// `read` and `failures` do not allocate.
impl Source for MemorySource<'_> {
    ghost failed = { λ s. s.failed };

    ghost left = { λ s. Some s.left };

    fn failures(&self) -> u64 {
        self.failures
    }

    fn read(&mut self, into: &mut [u8]) -> Result<usize, DeviceFault>
        requires { self.old.failed + 1 < 2 ^ 64 }
        ensures bound { IfOk result (λ n. n ≤ length into.new) }
        ensures count { OnOk result (self.new.failed ≡ self.old.failed) }
        ensures fault { OnErr result (self.new.failed ≡ self.old.failed + 1) }
        ensures bytes { ReadConsumes (Some self.old.left) (Some self.new.left) result into.new }

        // The remaining clauses determine when a call fails, how many bytes it moves and the new
        // state.
        ensures fails { IsErr result ↔ (self.old.until_fault ≡ 0) }
        ensures moved { IfOk result (λ n. n ≡ min (min self.old.piece self.old.until_fault)
            (min (length into.old) (length self.old.left))) }
        ensures given { IfOk result (λ n. self.new ≡ record self.old {
          left = drop n self.old.left;
          until_fault = self.old.until_fault - n;
        }) }
        ensures refused { OnErr result (self.new ≡ record self.old { failed = self.old.failed + 1 }) }
    {
        if self.until_fault == 0 {
            self.failures += 1;
            return Err(DeviceFault);
        }
        let most = self.piece.min(self.until_fault);
        let count = most.min(into.len().min(self.left.len()));
        let (given, left) = self.left.split_at(count);
        into[..count].copy_from_slice(given);
        self.left = left;
        self.until_fault -= count;
        Ok(count)
    }
}
