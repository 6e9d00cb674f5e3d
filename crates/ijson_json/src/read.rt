//! The JSON parser.
//!
//! `from_json` skips white space and reads one value with `value::read_value`.
//!
//! - `value`: chooses the kind of a value by its first byte, and reads arrays and objects.
//! - `delimiter`: reads the commas and closing brackets of arrays and objects.
//! - `scratch`: stores elements and members until their array or object ends.
//! - `scalar`: reads all other values with `string` and `number`.
//! - `string`: reads a string, and tries a run without an escape first.
//! - `escape`: reads the escapes of a string.
//! - `number`: reads a number, and tries a single pass over a common number first.

ghost use Rattle.std.specs.Prelude.{◌≡◌, ◌≢◌, ◌≤◌, MatchResult, IfOk, IfErr};
ghost use Rattle.ijson_value.specs.Tree.{Tree, depth};
ghost use Rattle.ijson_value.specs.WellFormed.{IsWellFormed};
ghost use Rattle.ijson_json.specs.Grammar.{Accepted};
ghost use Rattle.ijson_json.specs.Limits.{max_depth};
ghost use Rattle.ijson_json.specs.Print.{print};
ghost use Rattle.ijson_json.specs.AddsOnlyRead.{AddsOnlyRead};
ghost use Rattle.ijson_json.specs.AreShared.{AreShared};
ghost use Rattle.ijson_json.specs.private.Explains.{Answers, error_of};
ghost use Rattle.ijson_json.specs.ErrorOf.{IsErrorOf};
ghost use Rattle.ijson_json.specs.Refuses.{Refuses};
ghost use Rattle.ijson_json.specs.declared.fault.JsonError;

mod delimiter;
mod escape;
mod number;
mod scalar;
mod scratch;
mod string;
mod value;

use crate::fault::{Fault, JsonError};
use crate::read::scratch::Scratch;
use crate::read::value::read_value;
use crate::scan::space::skip_space;
use ijson_string::StringCache;
use ijson_value::value::IValue;
use std::alloc::Global;
use std::hash::BuildHasher;

/// Returns the error for a fault in a text of `length` bytes.
fn located(fault: Fault, length: usize) -> JsonError
    ensures { result ≡ error_of length fault }
{
    match fault {
        Fault::Syntax { left } => JsonError::Syntax {
            at: length.saturating_sub(left),
        },
        Fault::TooDeep { left } => JsonError::TooDeep {
            at: length.saturating_sub(left),
        },
        Fault::NumberRange { left } => JsonError::NumberRange {
            at: length.saturating_sub(left),
        },
        Fault::Memory => JsonError::Memory,
    }
}

/// Reads a whole text: one value with optional white space around it.
fn read_text<S: BuildHasher>(
    alloc: Global,
    cache: &mut StringCache<S>,
    text: &str,
) -> Result<IValue, JsonError>
    ensures read { Answers text.now result }
    ensures cache { AddsOnlyRead text.now cache.old cache.new }
    ensures shared { IfOk result (λ value. AreShared cache.new value.tree) }
{
    let start = skip_space(text);
    let mut scratch = Scratch {
        values: Vec::new(alloc),
        members: Vec::new(alloc),
        content: String::new(alloc),
    };
    let read = read_value(alloc, cache, &mut scratch, start, 0);
    drop(scratch);
    let (value, rest) = match read {
        Ok((value, rest)) => (value, rest),
        Err(fault) => return Err(located(fault, text.len())),
    };
    let rest = skip_space(rest);
    if rest.is_empty() {
        return Ok(value);
    }
    drop(value);
    Err(JsonError::Syntax {
        at: text.len() - rest.len(),
    })
}

/// Parses `text` as JSON (RFC 8259), with optional white space around the value.
///
/// Keys and strings are interned in `cache`. A duplicate key replaces the earlier value and keeps
/// the earlier index.
///
/// ```
/// let value = from_json(alloc, &mut cache, "{\"a\": [1.50, 1e2]}")?;
/// ```
///
/// # Errors
///
/// Returns the first error from left to right. Fails if `text` is not JSON, if more than 127
/// containers are open, if the canonical exponent of a number is outside -2^30 to 2^30, or if an
/// allocation fails. After an error, strings of `text` may be in the cache.
///
/// # Cost
///
/// Linear in `text`, except for hash lookups of keys and strings. Recurses once per level, at most
/// 127 times. Besides the value, allocates for the elements and members of open arrays and objects,
/// and for the content of the longest string with an escape.
#[tactic(auto, using(crate::proofs::grammar::AcceptedDepth::answers_depth, crate::proofs::faults::WholeTexts::answers_printed))]
pub fn from_json<S: BuildHasher>(
    alloc: Global,
    cache: &mut StringCache<S>,
    text: &str,
) -> Result<IValue, JsonError>
    // The value is the tree that `text` spells, within the limits.
    ensures accepted { IfOk result (λ value. Accepted text.now value.tree) }
    // The value is nested no deeper than the limit.
    ensures nesting { IfOk result (λ value. depth value.tree ≤ max_depth) }
    // The error is the error of `text`, unless an allocation failed.
    ensures error { IfErr result (λ error. error ≢ JsonError.Memory → IsErrorOf text.now error) }
    // The text has the fault that the error reports.
    ensures refused { IfErr result (λ error. Refuses text.now error) }
    // An accepted text is read as its tree, unless an allocation fails.
    ensures read { (t : Tree) → Accepted text.now t
        → MatchResult result (λ value. value.tree ≡ t) (λ error. error ≡ JsonError.Memory) }
    // A printed text is read back as the same tree, unless an allocation fails.
    ensures printed { (t : Tree) → IsWellFormed t → depth t ≤ max_depth → text.now ≡ print t
        → MatchResult result (λ value. value.tree ≡ t) (λ error. error ≡ JsonError.Memory) }
    // The cache gains only strings of more than 7 bytes that a slice of `text` spells.
    ensures cache { AddsOnlyRead text.now cache.old cache.new }
    // The cache contains each string and key of the value that has more than 7 bytes.
    ensures shared { IfOk result (λ value. AreShared cache.new value.tree) }
{
    read_text(alloc, cache, text)
}
