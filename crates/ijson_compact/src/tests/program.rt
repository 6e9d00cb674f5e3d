//! Tests of the program with readers and writers whose behavior is in a table.

ghost use Rattle.std.specs.Hash.FoldHasher as folding;

use crate::{compact_stream, flushed};
use ijson_json::{CompactError, StreamSink, StreamSource};
use std::cell::Cell;
use std::hash::{BuildHasher, FoldHasher};
use std::io;
use std::io::{ErrorKind, Read, Write};

/// A reader that yields one piece per call, and fails at a `None` and after the last piece.
#[derive(Drop)]
struct Pieces<'a> {
    pieces: &'a [Option<&'a str>],
    call: usize,
}

impl Read for Pieces<'_> {
    fn read(&mut self, buf: &mut [u8]) -> io::Result<usize> {
        let next = self.pieces.get(self.call).copied();
        self.call = self.call.saturating_add(1);
        let Some(Some(piece)) = next else {
            return Err(io::Error::from(ErrorKind::Other));
        };
        let count = piece.len().min(buf.len());
        buf[..count].copy_from_slice(&piece.as_bytes()[..count]);
        Ok(count)
    }
}

/// A writer that counts its writes and flushes, and fails at the call with the index `fails_at`.
#[derive(Drop)]
struct Counted<'a> {
    calls: &'a Cell<u32>,
    fails_at: u32,
}

impl Counted<'_> {
    fn call(&self) -> io::Result<()> {
        let call = self.calls.get();
        self.calls.set(call.saturating_add(1));
        if call == self.fails_at {
            return Err(io::Error::from(ErrorKind::Other));
        }
        Ok(())
    }
}

impl Write for Counted<'_> {
    fn write(&mut self, buf: &[u8]) -> io::Result<usize> {
        self.call()?;
        Ok(buf.len())
    }

    fn flush(&mut self) -> io::Result<()> {
        self.call()
    }
}

/// Creates hashers, and counts the hashers created.
#[derive(Drop)]
struct CountedState<'a> {
    made: &'a Cell<u32>,
}

impl BuildHasher for CountedState<'_> {
    type Hasher = FoldHasher;

    ghost build_hasher = { λ _. folding.initial };

    fn build_hasher(&self) -> FoldHasher {
        self.made.set(self.made.get().saturating_add(1));
        FoldHasher::default()
    }
}

/// Runs: the pieces of the reader, whether the hasher is an error, the index of the writer's call
/// that fails (2 if no call fails), the result, and the number of the writer's calls. Writing and
/// flushing a text takes two calls. The reader must not be called after its end or an error, nor
/// the writer after an error. Every text is a number, since the program does not free its value.
static RUNS: [(&[Option<&str>], bool, u32, Result<(), CompactError>, u32); 8] = [
    (&[Some("12"), Some("")], false, 2, Ok(()), 2),
    (&[Some("1"), Some("2"), Some("")], false, 2, Ok(()), 2),
    (&[Some("12")], false, 2, Err(CompactError::Read), 0),
    (
        &[None, Some("12"), Some("")],
        false,
        2,
        Err(CompactError::Read),
        0,
    ),
    (
        &[Some("1"), None, Some("2"), Some("")],
        false,
        2,
        Err(CompactError::Read),
        0,
    ),
    (&[Some("12"), Some("")], true, 2, Err(CompactError::Read), 0),
    (
        &[Some("12"), Some("")],
        false,
        0,
        Err(CompactError::Write),
        1,
    ),
    (
        &[Some("12"), Some("")],
        false,
        1,
        Err(CompactError::Write),
        2,
    ),
];

#[test]
fn streams_are_called_as_often_as_they_must(rt: HostRuntime) {
    for &(pieces, fails, fails_at, want, count) in &RUNS {
        let (calls, made) = (Cell::new(0), Cell::new(0));
        let hasher = if fails {
            Err(io::Error::from(ErrorKind::Other))
        } else {
            Ok(CountedState { made: &made })
        };
        let mut input = StreamSource::new(Pieces { pieces, call: 0 });
        let mut output = StreamSink::new(Counted {
            calls: &calls,
            fails_at,
        });
        let answer = compact_stream(rt.alloc(), hasher, &mut input, &mut output);
        let answer = flushed(answer, &mut output);
        assert!(rt; answer == want);
        assert!(rt; calls.get() == count);
        assert!(rt; made.get() == 0);
    }
}

/// Checks that each string of more than 7 bytes is hashed once, by the hasher passed in. The gate
/// ignores the memory that this test leaves, since the program does not free its value and cache.
#[test]
fn strings_are_hashed_by_the_hasher_given(rt: HostRuntime) {
    let (calls, made) = (Cell::new(0), Cell::new(0));
    let pieces = [
        Some("[\"a longer text\",\"short\",{\"a longer key\":1}]"),
        Some(""),
    ];
    let mut input = StreamSource::new(Pieces {
        pieces: &pieces,
        call: 0,
    });
    let mut output = StreamSink::new(Counted {
        calls: &calls,
        fails_at: 2,
    });
    let hasher = Ok(CountedState { made: &made });
    let answer = compact_stream(rt.alloc(), hasher, &mut input, &mut output);
    let answer = flushed(answer, &mut output);
    assert!(rt; answer == Ok(()));
    assert!(rt; calls.get() == 2 && made.get() == 2);
}
