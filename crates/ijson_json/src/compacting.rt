//! Compacting: reads JSON from a source and writes it without white space to a sink.
ghost use Rattle.std.specs.Prelude.{◌≡◌, ◌≢◌, ◌+◌, ◌^◌, ◌<◌, ◌↔◌, ◌⊎◌, [], IfOk, IfErr, OnOk, IfSome, Err, IsUtf8};
ghost use Rattle.std.specs.Prelude.{◌++◌, ◌∷◌};
ghost use Rattle.std.specs.Io.KnownBytes.{Appends, Consumes, IsAtEnd, Keeps};
ghost use Rattle.std.specs.String.{string_bytes};
ghost use Rattle.ijson_json.specs.AreShared.{SharesTextsOf};
ghost use Rattle.ijson_json.specs.CompactErrorOf.{compact_error_of};
ghost use Rattle.ijson_json.specs.private.CompactErrorOfReadFault.{compact_error_of_read_fault};
ghost use Rattle.ijson_json.specs.Compacts.{WritesLine, BeginsLine, AddsOnlyLeft};
ghost use Rattle.ijson_json.specs.CompactRefusal.{IsCompactRefusal};
ghost use Rattle.ijson_json.specs.Grammar.{Accepted};
ghost use Rattle.ijson_json.specs.Print.{print};
ghost use Rattle.ijson_json.specs.WritesBeginning.{WritesBeginning};
ghost use Rattle.ijson_json.specs.declared.compacting.CompactError.TheVariants.{Read, NotUtf8, Write, Json, Memory as NoMemory};
ghost use Rattle.ijson_json.specs.declared.fault.JsonError.TheVariants.{Memory};

use crate::device::transfer::{ReadFault, read_all, write_all};
use crate::device::{Sink, Source};
use crate::fault::JsonError;
use crate::read::from_json;
use crate::write::push_value;
use ijson_string::StringCache;
use ijson_value::value::IValue;
use simdutf8::basic::from_utf8;
use std::alloc::{AllocError, Global};
use std::hash::BuildHasher;
use thiserror::Error;

/// Why `compact` failed.
#[derive(Debug, Drop, Clone, Copy, PartialEq, Eq, Error)]
pub enum CompactError {
    /// The source failed. Nothing was written.
    #[error("read failed")]
    Read,
    /// The input is not UTF-8. Nothing was written.
    #[error("input is not UTF-8")]
    NotUtf8,
    /// The input is not JSON within the limits. Nothing was written.
    ///
    /// The contained error is never `JsonError::Memory`.
    #[error("{0}")]
    Json(JsonError),
    /// The sink failed. The line was written in part or not at all.
    #[error("write failed")]
    Write,
    /// An allocation failed. Nothing was written.
    #[error("out of memory")]
    Memory,
}

impl From<ReadFault> for CompactError {
    ghost from_gives = { λ fault error. error ≡ compact_error_of_read_fault fault };

    fn from(fault: ReadFault) -> CompactError {
        match fault {
            ReadFault::Device => CompactError::Read,
            ReadFault::Memory => CompactError::Memory,
        }
    }
}

/// Converts `JsonError::Memory` to `Memory`, and any other error to `Json`.
impl From<JsonError> for CompactError {
    ghost from_gives = { λ error becomes. becomes ≡ compact_error_of error };

    fn from(error: JsonError) -> CompactError {
        match error {
            JsonError::Memory => CompactError::Memory,
            _ => CompactError::Json(error),
        }
    }
}

/// Converts an allocation failure to `Memory`.
impl From<AllocError> for CompactError {
    ghost from_gives = { λ _ error. error ≡ NoMemory };

    fn from(_refused: AllocError) -> CompactError {
        CompactError::Memory
    }
}

/// Reads the rest of `input` as JSON and writes it without white space, then a line feed, to
/// `output`.
///
/// Keys and strings are interned in `cache`, as by `from_json`. `failures` of each device must be
/// below 2^64 - 1.
///
/// # Errors
///
/// `CompactError` lists when each error occurs. The whole line is built before its first byte is
/// written. After an error other than `Read` and `NotUtf8`, strings of the input may be in the
/// cache.
///
/// # Cost
///
/// The input and its value are in memory together, and later the value and the line. The line
/// reuses the memory of the input and grows if needed. The time is the sum of `from_json`,
/// `to_json` and the device calls. Each read receives a buffer of at least one byte, and each write
/// receives the rest of the line.
pub fn compact<R: Source, W: Sink, S: BuildHasher>(
    alloc: Global,
    input: &mut R,
    output: &mut W,
    cache: &mut StringCache<S>,
) -> Result<(), CompactError>
    requires source { R.failed input.old + 1 < 2 ^ 64 }
    requires sink { W.failed output.old + 1 < 2 ^ 64 }
    ensures read { (result ≡ Err Read) ↔ (R.failed input.old < R.failed input.new) }
    ensures write { (result ≡ Err Write) ↔ (W.failed output.old < W.failed output.new) }
    // On success, the source is at its end and the sink received the whole line.
    ensures done { OnOk result
        (WritesLine (R.left input.old) (R.left input.new) (W.got output.old) (W.got output.new)) }
    // If a write fails, the sink received a proper prefix of the line. After any other error, the
    // sink is unchanged.
    ensures beginning { result ≡ Err Write
        → BeginsLine (R.left input.old) (W.got output.old) (W.got output.new) }
    ensures nothing { IfErr result (λ error.
        error ≢ Write → Keeps (W.got output.old) (W.got output.new)) }
    ensures error { IfErr result (λ error.
        IfSome (R.left input.old) (λ bytes. IsCompactRefusal bytes error)) }
    ensures never_memory { result ≢ Err (Json Memory) }
    // The cache gains only strings that the input spells.
    ensures cache { AddsOnlyLeft (R.left input.old) cache.old cache.new }
    // The cache is unchanged if the input was not parsed.
    ensures unread { (result ≡ Err Read) ⊎ (result ≡ Err NotUtf8) → cache.new ≡ cache.old }
    // On success, the cache contains each string and key of the input that has more than 7 bytes.
    ensures shared { OnOk result (IfSome (R.left input.old)
        (λ bytes. SharesTextsOf bytes cache.new)) }
{
    let value = compact_value(alloc, input, output, cache)?;
    drop(value);
    Ok(())
}

/// Like `compact`, but returns the value that was read.
///
/// The contract adds the clause `value` to the contract of `compact`.
///
/// # Errors
///
/// Fails like `compact`. The value is then dropped.
pub fn compact_value<R: Source, W: Sink, S: BuildHasher>(
    alloc: Global,
    input: &mut R,
    output: &mut W,
    cache: &mut StringCache<S>,
) -> Result<IValue, CompactError>
    requires source { R.failed input.old + 1 < 2 ^ 64 }
    requires sink { W.failed output.old + 1 < 2 ^ 64 }
    ensures read { (result ≡ Err Read) ↔ (R.failed input.old < R.failed input.new) }
    ensures write { (result ≡ Err Write) ↔ (W.failed output.old < W.failed output.new) }
    ensures done { OnOk result
        (WritesLine (R.left input.old) (R.left input.new) (W.got output.old) (W.got output.new)) }
    ensures beginning { result ≡ Err Write
        → BeginsLine (R.left input.old) (W.got output.old) (W.got output.new) }
    ensures nothing { IfErr result (λ error.
        error ≢ Write → Keeps (W.got output.old) (W.got output.new)) }
    ensures error { IfErr result (λ error.
        IfSome (R.left input.old) (λ bytes. IsCompactRefusal bytes error)) }
    ensures never_memory { result ≢ Err (Json Memory) }
    ensures cache { AddsOnlyLeft (R.left input.old) cache.old cache.new }
    ensures unread { (result ≡ Err Read) ⊎ (result ≡ Err NotUtf8) → cache.new ≡ cache.old }
    ensures shared { OnOk result (IfSome (R.left input.old)
        (λ bytes. SharesTextsOf bytes cache.new)) }
    // The returned value is the tree that the input spells.
    ensures value { IfOk result (λ value.
        IfSome (R.left input.old) (λ bytes. Accepted bytes value.tree)) }
{
    let text = remaining_text(alloc, input)?;
    let value = from_json(alloc, cache, text.as_str())?;
    write_line(output, text, value)
}

/// Reads the rest of `input` as a string. Returns `NotUtf8` if the bytes are not UTF-8.
fn remaining_text<R: Source>(alloc: Global, input: &mut R) -> Result<String, CompactError>
    requires { R.failed input.old + 1 < 2 ^ 64 }
    ensures text { IfOk result (λ text. IsUtf8 (string_bytes text)
        × Consumes (R.left input.old) (R.left input.new) (string_bytes text) × IsAtEnd (R.left input.new)) }
    ensures read { (result ≡ Err Read) ↔ (R.failed input.old < R.failed input.new) }
    ensures refused { result ≡ Err NotUtf8 → IfSome (R.left input.old) (λ bytes. ¬ (IsUtf8 bytes)) }
    ensures error { IfErr result (λ error. (error ≡ Read) ⊎ (error ≡ NotUtf8) ⊎ (error ≡ NoMemory)) }
{
    let bytes = read_all(alloc, input)?;
    if from_utf8(&bytes).is_err() {
        return Err(CompactError::NotUtf8);
    }
    Ok(unsafe { String::from_utf8_unchecked(bytes) })
}

/// Writes the JSON text of `value` and a line feed, and returns `value`.
///
/// The line is built in the memory of `room`.
fn write_line<W: Sink>(output: &mut W, room: String, value: IValue) -> Result<IValue, CompactError>
    requires { W.failed output.old + 1 < 2 ^ 64 }
    ensures line { IfOk result (λ written. (written ≡ value)
        × Appends (W.got output.old) (W.got output.new) (print value.tree ++ 10 ∷ [])) }
    ensures write { (result ≡ Err Write) ↔ (W.failed output.old < W.failed output.new) }
    ensures beginning { result ≡ Err Write
        → WritesBeginning (W.got output.old) (W.got output.new) (print value.tree ++ 10 ∷ []) }
    ensures error { IfErr result (λ error. error ≢ Write
        → (error ≡ NoMemory) × Keeps (W.got output.old) (W.got output.new)) }
{
    match line_of(room, &value) {
        Ok(line) => {
            let written = write_all(output, line.as_bytes()).map_err(|_| CompactError::Write);
            written.and(Ok(value))
        }
        Err(refused) => {
            drop(value);
            Err(CompactError::from(refused))
        }
    }
}

/// Returns the JSON text of `value` and a line feed, in the memory of `room`.
fn line_of(room: String, value: &IValue) -> Result<String, AllocError>
    ensures { IfOk result (λ line. string_bytes line ≡ print value.now.tree ++ 10 ∷ []) }
{
    let mut line = room;
    line.clear();
    push_value(&mut line, value)?;
    line.push('\n')?;
    Ok(line)
}
