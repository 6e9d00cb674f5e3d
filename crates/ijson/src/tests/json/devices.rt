//! Tests of `compact` and `report` with devices that move few bytes per call, or fail.

ghost use Rattle.std.specs.Prelude.{◌≤◌, IfOk};
ghost use Rattle.ijson_json.specs.Compacts.{IsCompactLine};

use super::errors::is_reported;
use super::repeated;
use super::texts::{is_kept, used_cache};
use crate::json::{
    CompactError, DeviceFault, MemorySink, MemorySource, Sink, Source, StreamSink, StreamSource,
    compact, compact_value,
};
use crate::tests::caches::{Cache, empty_cache};
use crate::tests::texts::{is_written, parsed};
use std::alloc::{AllocError, Global};
use std::collections::VecDeque;
use std::io;
use std::io::{ErrorKind, Read, Write};
use std::process::Abort;

/// The maximum number of bytes per call, and the numbers after which reading and writing fail.
type Devices = (usize, usize, usize);

/// A result of `compact`, and the bytes that it wrote.
type Outcome<'a> = (Result<(), CompactError>, &'a [u8]);

/// Compacts `text` from a source of `piece` bytes per call that fails after `most` bytes.
fn compacted<W: Sink>(
    rt: &impl Abort,
    alloc: Global,
    cache: &mut Cache,
    text: &[u8],
    (piece, most): (usize, usize),
    output: &mut W,
) -> Result<(), CompactError> {
    assert!(*rt; 0 < piece && output.failures() < 9);
    let mut input = MemorySource::new(text, piece, most);
    let mut answer = compact(alloc, &mut input, output, cache);
    if answer == Err(CompactError::Memory) {
        assert!(*rt; input.failures() == 0 && output.failures() < 9);
        input = MemorySource::new(text, piece, most);
        answer = compact(alloc, &mut input, output, cache);
    }
    assert!(*rt; input.failures() == u64::from(answer == Err(CompactError::Read)));
    answer
}

/// Asserts the result of `compact`, the bytes that it writes, and the report of the result.
pub fn follows(
    rt: &impl Abort,
    alloc: Global,
    cache: &mut Cache,
    text: &[u8],
    (piece, readable, writable): Devices,
    (want, written): Outcome,
) {
    assert!(*rt; 0 < piece);
    let mut output = granted!(rt; MemorySink::new(alloc, piece, writable));
    let answer = compacted(rt, alloc, cache, text, (piece, readable), &mut output);
    assert!(*rt; answer == want && output.bytes() == written);
    assert!(*rt; output.failures() == u64::from(answer == Err(CompactError::Write)));
    is_reported(rt, alloc, &answer, piece);
}

const TEXT: &[u8] = b"[1.50,true]";

const LINE: &[u8] = b"[1.5,true]\n";

/// Asserts that nothing is written if the source fails, and a prefix of the line if the sink fails.
pub fn fail_after_each_byte(rt: &impl Abort, alloc: Global, piece: usize) {
    let mut cache = used_cache(rt, alloc);
    let (unread, cut) = (Err(CompactError::Read), Err(CompactError::Write));
    for most in 0..12usize {
        let devices = (piece, most, 100);
        follows(rt, alloc, &mut cache, TEXT, devices, (unread, b""));
        let answer = if most < LINE.len() { cut } else { Ok(()) };
        let (devices, outcome) = ((piece, 12, most), (answer, &LINE[..most]));
        follows(rt, alloc, &mut cache, TEXT, devices, outcome);
    }
    assert!(*rt; is_kept(&cache, 0));
    drop(cache);
}

#[test]
fn devices_that_fail(rt: HostRuntime) {
    fail_after_each_byte(&rt, rt.alloc(), 3);
}

/// Inputs, each with the outcome of `compact` and the number of strings added to the cache.
static COMPACTED: [(&[u8], Outcome<'static>, usize); 3] = [
    (b"[1.50]", (Ok(()), b"[1.5]\n"), 0),
    (b"[ \"longlong\" ]", (Ok(()), b"[\"longlong\"]\n"), 1),
    (b"\"\xff\"", (Err(CompactError::NotUtf8), b""), 0),
];

fn are_compacted(rt: &impl Abort, alloc: Global, piece: usize) {
    for &(text, outcome, added) in &COMPACTED {
        let mut cache = used_cache(rt, alloc);
        follows(rt, alloc, &mut cache, text, (piece, 100, 100), outcome);
        assert!(*rt; is_kept(&cache, added));
        drop(cache);
    }
}

#[test]
fn compacting(rt: HostRuntime) {
    for piece in 1..5usize {
        are_compacted(&rt, rt.alloc(), piece);
    }
}

#[test]
fn compacting_to_a_value(rt: HostRuntime) {
    let alloc = rt.alloc();
    let mut cache = used_cache(&rt, alloc);
    let mut output = granted!(&rt; MemorySink::new(alloc, 4, 100));
    let value = granted!(&rt; CompactError::Memory; compact_value(
        alloc,
        &mut MemorySource::new(b"[1.50]", 4, 100),
        &mut output,
        &mut cache
    ));
    assert!(rt; is_kept(&cache, 0) && output.bytes() == b"[1.5]\n".as_slice());
    drop(cache);
    drop(output);
    is_written(&rt, alloc, &value, "[1.5]");
    drop(value);
}

/// Checks that the line reuses the memory of the input: reading the input takes two allocations,
/// and its value takes three (two lists, and a box for one of the lists).
#[test]
fn a_line_allocates_nothing(rt: HostRuntime) {
    let alloc = rt.alloc();
    let text = repeated(&rt, alloc, &("[1,2,", " ", 70_000, "", "", "3]"));
    drop(counted!(alloc; 3; parsed(&rt, alloc, text.as_str())));
    let mut output = granted!(&rt; MemorySink::new(alloc, 100, 100));
    let mut cache = empty_cache(alloc);
    let (text, source) = (text.as_bytes(), (100_000, 100_000));
    let answer = counted!(alloc; 5; compacted(&rt, alloc, &mut cache, text, source, &mut output));
    assert!(rt; answer == Ok(()) && output.bytes() == b"[1,2,3]\n".as_slice());
    drop(cache);
}

/// Checks an input that outgrows its first allocation, and a line that outgrows the input.
#[test]
fn a_line_longer_than_its_text(rt: HostRuntime) {
    let alloc = rt.alloc();
    let text = repeated(&rt, alloc, &("[", "1e16,", 30_000, "", "", "1]"));
    let long = ("[", "10000000000000000.0,", 30_000, "", "", "1]\n");
    let line = repeated(&rt, alloc, &long);
    let mut cache = used_cache(&rt, alloc);
    let (devices, outcome) = ((100_000, 1_000_000, 1_000_000), (Ok(()), line.as_bytes()));
    follows(&rt, alloc, &mut cache, text.as_bytes(), devices, outcome);
    assert!(rt; is_kept(&cache, 0));
    drop(cache);
}

/// A stream that moves at most `piece` bytes per call, or fails with `fault`, and counts its calls.
#[derive(Drop)]
struct Stream<'a> {
    left: &'a [u8],
    written: Vec<u8>,
    piece: usize,
    fault: Option<ErrorKind>,
    calls: u32,
}

impl<'a> Stream<'a> {
    fn new(alloc: Global, left: &'a [u8], piece: usize, fault: Option<ErrorKind>) -> Stream<'a> {
        Stream {
            left,
            written: Vec::new(alloc),
            piece,
            fault,
            calls: 0,
        }
    }

    /// Counts a call that can move up to `most` bytes, and returns the number of bytes to move.
    fn call(&mut self, most: usize) -> io::Result<usize>
        ensures { IfOk result (λ n. n ≤ most) }
    {
        self.calls = self.calls.saturating_add(1);
        match self.fault {
            Some(kind) => Err(io::Error::from(kind)),
            None => Ok(self.piece.min(most)),
        }
    }
}

impl Read for Stream<'_> {
    fn read(&mut self, buf: &mut [u8]) -> io::Result<usize> {
        let left = self.left;
        let count = self.call(buf.len().min(left.len()))?;
        buf[..count].copy_from_slice(&left[..count]);
        self.left = &left[count..];
        Ok(count)
    }
}

impl Write for Stream<'_> {
    fn write(&mut self, buf: &[u8]) -> io::Result<usize> {
        let count = self.call(buf.len())?;
        self.written.extend_from_slice(&buf[..count])?;
        Ok(count)
    }

    fn flush(&mut self) -> io::Result<()> {
        let _moved = self.call(0)?;
        Ok(())
    }
}

/// Asserts that an error of the kind `kind` is a device fault, also `Interrupted`, after which
/// std's `read_exact` and `write_all` would try again.
fn is_a_fault(rt: &impl Abort, alloc: Global, kind: ErrorKind) {
    let mut input = StreamSource::new(Stream::new(alloc, b"", 3, Some(kind)));
    let mut output = StreamSink::new(Stream::new(alloc, b"", 3, Some(kind)));
    let mut cache = empty_cache(alloc);
    let mut answer = compact(alloc, &mut input, &mut output, &mut cache);
    if answer == Err(CompactError::Memory) {
        assert!(*rt; input.failures() == 0 && output.failures() == 0);
        answer = compact(alloc, &mut input, &mut output, &mut cache);
    }
    assert!(*rt; answer == Err(CompactError::Read));
    assert!(*rt; input.failures() == 1 && output.failures() == 0);
    let answer = compacted(rt, alloc, &mut cache, TEXT, (3, 12), &mut output);
    assert!(*rt; answer == Err(CompactError::Write) && output.failures() == 1);
    assert!(*rt; input.read(&mut [0; 4]) == Err(DeviceFault) && input.failures() == 2);
    assert!(*rt; output.write(b"a") == Err(DeviceFault) && output.failures() == 2);
    assert!(*rt; output.flush() == Err(DeviceFault) && output.failures() == 3);
    assert!(*rt; input.into_inner().calls == 2 && output.into_inner().calls == 3);
    drop(cache);
}

#[test]
fn streams_that_fail(rt: HostRuntime) {
    is_a_fault(&rt, rt.alloc(), ErrorKind::Other);
    is_a_fault(&rt, rt.alloc(), ErrorKind::Interrupted);
    let mut full = StreamSink::new(Stream::new(rt.alloc(), b"", 0, None));
    assert!(rt; full.write(&[]) == Ok(0) && full.flush() == Ok(()));
    assert!(rt; full.failures() == 0);
    assert!(rt; full.write(b"a") == Err(DeviceFault) && full.failures() == 1);
}

/// Compacts `bytes` from a queue to a queue, since the contracts of a queue describe its bytes.
fn queued(alloc: Global, bytes: &[u8]) -> Result<VecDeque<u8>, CompactError>
    ensures line { IfOk result (λ written. IsCompactLine bytes.now written.items) }
{
    let mut source = StreamSource::new(VecDeque::from_vec(bytes.to_vec(alloc)?));
    let mut sink = StreamSink::new(VecDeque::new(alloc));
    compact(alloc, &mut source, &mut sink, &mut empty_cache(alloc))?;
    Ok(sink.into_inner())
}

/// Compacts `text` to `line`, three bytes per call. Returns `false` if an allocation fails.
fn streamed(rt: &impl Abort, alloc: Global, text: &[u8], line: &[u8]) -> bool {
    let mut input = StreamSource::new(Stream::new(alloc, text, 3, None));
    let mut output = StreamSink::new(Stream::new(alloc, b"", 3, None));
    let answer = compact(alloc, &mut input, &mut output, &mut empty_cache(alloc));
    if answer == Err(CompactError::Memory) || answer == Err(CompactError::Write) {
        return false;
    }
    assert!(*rt; answer == Ok(()));
    assert!(*rt; input.failures() == 0 && output.failures() == 0);
    assert!(*rt; output.into_inner().written.as_slice() == line);
    true
}

#[test]
fn streams_pass_bytes_on(rt: HostRuntime) {
    let alloc = rt.alloc();
    let written = match queued(alloc, TEXT) {
        Ok(written) => written,
        Err(refused) => {
            assert!(rt; refused == CompactError::Memory || refused == CompactError::Write);
            queued(alloc, TEXT).expect(&rt, "a line")
        }
    };
    assert!(rt; written.iter().eq(LINE.iter()));
    drop(written);
    let text = repeated(&rt, alloc, &("[1.50", ", true ", 10_000, "", "", "]"));
    let line = repeated(&rt, alloc, &("[1.5", ",true", 10_000, "", "", "]\n"));
    if !streamed(&rt, alloc, text.as_bytes(), line.as_bytes()) {
        assert!(rt; streamed(&rt, alloc, text.as_bytes(), line.as_bytes()));
    }
}
