//! Tests of the tables of texts with few bytes per call, and of long and deep JSON texts.

use super::devices::fail_after_each_byte;
use super::texts::{
    REPEATED, WRITTEN, all_fail_by, all_hold, is_rewritten, repeated_are_rewritten,
};
use super::values::is_copied_deep;
use super::{Parts, numbered, repeated};
use crate::tests::texts::{is_written, parsed};
use std::alloc::AllocError;

#[test]
fn few_bytes_a_call(rt: HostRuntime) {
    for piece in 1..3usize {
        all_hold(&rt, rt.alloc(), &WRITTEN, piece);
        repeated_are_rewritten(&rt, rt.alloc(), &REPEATED, piece);
        all_fail_by(&rt, rt.alloc(), piece);
        fail_after_each_byte(&rt, rt.alloc(), piece);
    }
}

/// JSON texts of the maximum nesting depth.
static DEEPEST: [Parts; 2] = [
    ("", "[", 127, "", "]", ""),
    ("", "{\"a\":", 127, "null", "}", ""),
];

#[test]
fn deep_texts_and_many_members(rt: HostRuntime) {
    let same = numbered(&rt, rt.alloc(), "\"k\":#", 0, 9_999);
    let different = numbered(&rt, rt.alloc(), "\"k#\":#", 0, 9_999);
    for piece in 1..4usize {
        repeated_are_rewritten(&rt, rt.alloc(), &DEEPEST, piece);
        is_rewritten(&rt, rt.alloc(), same.as_str(), "{\"k\":9999}", piece);
        is_rewritten(
            &rt,
            rt.alloc(),
            different.as_str(),
            different.as_str(),
            piece,
        );
    }
}

/// Checks an array with more elements than 16 bits can count.
#[test]
fn many_elements(rt: HostRuntime) {
    let text = repeated(&rt, rt.alloc(), &("[", "1,", 700_000, "", "", "1]"));
    let value = parsed(&rt, rt.alloc(), text.as_str());
    is_written(&rt, rt.alloc(), &value, text.as_str());
    drop(value);
}

#[test]
fn a_thousand_levels(rt: HostRuntime) {
    is_copied_deep(&rt, rt.alloc(), 1_000);
}
