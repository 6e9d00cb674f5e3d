//! `report`: writes the error line for a result of `compact`, and returns the exit status.
ghost use Rattle.std.specs.Prelude.{◌≡◌, ◌+◌, ◌^◌, ◌<◌, OnOk, Err};
ghost use Rattle.ijson_json.specs.Status.{status_of};

use crate::compacting::CompactError;
use crate::device::Sink;
use crate::device::transfer::write_all;
use crate::fault::JsonError;
use arrayvec::ArrayString;
use std::fmt::Write;

/// The capacity of the line buffer, in bytes. Every error line is shorter.
const LINE: usize = 64;

/// Writes a line for the error, if any, to `errors`, and returns the exit status.
///
/// - 0: success
/// - 1: the input is not JSON within the limits
/// - 2: a read or a write failed
/// - 3: an allocation failed
///
/// The line for `[1 2]` is `ijson: syntax at byte 3`. If a write fails, the rest of the line is not
/// written, and the status is the same. Does not allocate. `failures` of `errors` must be below
/// 2^64 - 1.
pub fn report<W: Sink>(answer: &Result<(), CompactError>, errors: &mut W) -> u8
    requires { W.failed errors.old + 1 < 2 ^ 64 }
    ensures status { result ≡ status_of answer.now }
    ensures quiet { OnOk answer.now (W.got errors.new ≡ W.got errors.old) }
{
    let Err(error) = answer else {
        return 0;
    };
    let mut line = ArrayString::<LINE>::new();
    if writeln!(line, "ijson: {error}").is_ok() {
        let _ = write_all(errors, line.as_bytes());
    }
    status(*error)
}

/// Returns the exit status for `error`.
fn status(error: CompactError) -> u8
    ensures { result ≡ status_of (Err error) }
{
    match error {
        CompactError::Json(JsonError::Memory) | CompactError::Memory => 3,
        CompactError::NotUtf8 | CompactError::Json(_) => 1,
        CompactError::Read | CompactError::Write => 2,
    }
}
