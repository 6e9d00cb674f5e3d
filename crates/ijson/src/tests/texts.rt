//! Functions that parse JSON text, and that assert the JSON text of a value.

use crate::json::{JsonError, from_json, to_json};
use crate::tests::caches::empty_cache;
use crate::value::IValue;
use std::alloc::{AllocError, Global};
use std::process::Abort;

/// Returns the value of the JSON text `text`, read with a new cache.
pub fn parsed(rt: &impl Abort, alloc: Global, text: &str) -> IValue {
    let mut cache = empty_cache(alloc);
    let value = granted!(rt; JsonError::Memory; from_json(alloc, &mut cache, text));
    drop(cache);
    value
}

/// Asserts that `value` is written as the JSON text `want`.
pub fn is_written(rt: &impl Abort, alloc: Global, value: &IValue, want: &str) {
    let written = granted!(rt; to_json(alloc, value));
    assert!(*rt; written.as_str() == want, "{written} is not {want}");
}
