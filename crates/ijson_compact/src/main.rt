//! Writes the JSON text of standard input to standard output in compact form, without white space.
//!
//! The tests are in `src/tests`.
#![tactic(auto)]

ghost use Rattle.std.specs.Prelude.{◌≡◌, ◌≢◌, ◌+◌, ◌^◌, ◌<◌, ◌≤◌, OnOk, OnErr, IfSome, IfErr, Err};
ghost use Rattle.std.specs.Io.KnownBytes.{Keeps};
ghost use Rattle.ijson_json.specs.CompactRefusal.{IsCompactRefusal};
ghost use Rattle.ijson_json.specs.Compacts.{BeginsLine, WritesLine};
ghost use Rattle.ijson_json.specs.declared.compacting.CompactError.TheVariants as errors;

use ijson_json::{CompactError, Source, StreamSink, StreamSource, compact_value, report};
use ijson_string::{SeededState, StringCache};
use std::alloc::Global;
use std::hash::BuildHasher;
use std::io::Write;
use std::process::ExitCode;
use std::{io, mem};

#[cfg(test)]
mod tests;

/// Reads the remaining input as JSON and writes its compact line to `output`, without flushing.
///
/// The input is untrusted: `hasher` has a random seed. If `hasher` is an error, the result is
/// `CompactError::Read`. The memory of strings and values is not freed.
fn compact_stream<R: Source, W: Write, S: BuildHasher + Drop>(
    alloc: Global,
    hasher: io::Result<S>,
    input: &mut R,
    output: &mut StreamSink<W>,
) -> Result<(), CompactError>
    requires source { R.failed input.old + 1 < 2 ^ 64 }
    requires sink { output.old.failed + 1 < 2 ^ 64 }
    // The complete line was written, and the source was read to its end.
    ensures done { OnOk result (WritesLine (R.left input.old) (R.left input.new)
        (W.contents output.old.inner) (W.contents output.new.inner)) }
    // If the result is `Write`, a proper prefix of the line was written. After any other error,
    // nothing was written.
    ensures beginning { result ≡ Err errors.Write
        → BeginsLine (R.left input.old) (W.contents output.old.inner) (W.contents output.new.inner) }
    ensures nothing { IfErr result (λ error. error ≢ errors.Write
        → Keeps (W.contents output.old.inner) (W.contents output.new.inner)) }
    ensures error { IfErr result (λ error.
        IfSome (R.left input.old) (λ bytes. IsCompactRefusal bytes error)) }
    ensures count { OnOk result (output.new.failed ≤ output.old.failed) }
{
    let Ok(hasher) = hasher else {
        return Err(CompactError::Read);
    };
    let mut cache = StringCache::new(alloc, hasher);
    let answer = compact_value(alloc, input, output, &mut cache);
    // The process ends soon, which frees all memory. Freeing each string and value would only take
    // time.
    mem::forget(cache);
    match answer {
        Ok(value) => {
            mem::forget(value);
            Ok(())
        }
        Err(error) => Err(error),
    }
}

/// Flushes `output` if `answer` is `Ok`, and returns the result.
///
/// A failed flush is reported as `CompactError::Write`. If `answer` is `Err`, it is returned
/// without a flush.
fn flushed<W: Write>(
    answer: Result<(), CompactError>,
    output: &mut StreamSink<W>,
) -> Result<(), CompactError>
    requires { OnOk answer (output.old.failed + 1 < 2 ^ 64) }
    ensures refused { OnErr answer (result ≡ answer) }
    ensures error { OnOk answer (IfErr result (λ error. error ≡ errors.Write)) }
    ensures bytes { Keeps (W.contents output.old.inner) (W.contents output.new.inner) }
{
    answer?;
    match output.flush() {
        Ok(()) => Ok(()),
        Err(_) => Err(CompactError::Write),
    }
}

fn main(rt: HostRuntime) -> ExitCode {
    let mut input = StreamSource::new(rt.stdin());
    let mut output = StreamSink::new(rt.stdout());
    let answer = compact_stream(
        rt.alloc(),
        SeededState::from_random(&rt),
        &mut input,
        &mut output,
    );
    let answer = flushed(answer, &mut output);
    let mut errors = StreamSink::new(rt.stderr());
    ExitCode::from(report(&answer, &mut errors))
}
