//! Example programs, written like a crate that uses the library. They are modules of `ijson`, so
//! that its tests run them.
//!
//! All examples have contracts, and four of them use definitions on trees (`specs/examples`).
//!
//! To copy an example, also copy its definitions, its `proofs/examples/NAME` and the file in
//! `proofs/example_lemmas` that the proofs cite, if they exist. Replace `crate` by `ijson`, and
//! `Rattle.ijson.` by the name of your crate. The examples `canonical_key` and `pointed` do not
//! need a proof file.

mod canonical_key;
mod dedupe;
mod documents;
mod invoice;
mod pointed;
mod records;
mod settings;
mod total;

use crate::IValue;
use crate::json::{from_json, to_json};
use crate::string::{SeededState, StringCache};
use std::alloc::Global;
use std::process::Abort;

/// Returns an empty cache with a fixed seed. A program uses `SeededState::from_random(&rt)?`.
fn empty_cache(alloc: Global) -> StringCache<SeededState> {
    StringCache::new(alloc, SeededState::new(1))
}

/// Parses `text` with a new cache. Aborts if parsing fails.
fn parsed(rt: &impl Abort, alloc: Global, text: &str) -> IValue {
    from_json(alloc, &mut empty_cache(alloc), text).expect(rt, text)
}

/// Asserts that `want` is the JSON text of `value`.
fn is_written(rt: &impl Abort, alloc: Global, value: &IValue, want: &str) {
    let found = to_json(alloc, value).expect(rt, "a text");
    assert!(rt; found.as_str() == want, "{found} is not {want}");
}
