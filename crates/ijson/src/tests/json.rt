//! Tests of JSON text, devices and errors, and of the order, hashes and copies of values.

mod devices;
mod errors;
mod large;
mod texts;
mod values;

use crate::number::INumber;
use std::alloc::{AllocError, Global};
use std::process::Abort;

/// A text with repeated parts: `before`, `part` and its count, `inside`, `closing` with the same
/// count, and `after`.
type Parts = (
    &'static str,
    &'static str,
    usize,
    &'static str,
    &'static str,
    &'static str,
);

fn repeated(rt: &impl Abort, alloc: Global, parts: &Parts) -> String {
    let &(before, part, count, inside, closing, after) = parts;
    let opened = granted!(rt; part.repeat(alloc, count));
    let closed = granted!(rt; closing.repeat(alloc, count));
    granted!(rt; format!(in alloc; "{before}{opened}{inside}{closed}{after}"))
}

/// Appends `part` to `text`, which has spare capacity, with `number` in place of each `#`.
fn push_numbered(rt: &impl Abort, text: &mut String, part: &str, number: u32) {
    for letter in part.chars() {
        let pushed = match letter {
            '#' => INumber::from(number).push_to(text),
            _ => text.push(letter),
        };
        pushed.expect(rt, "room");
    }
}

/// Returns `part` for each number from `first` to `last`, separated by commas, between braces.
fn numbered(rt: &impl Abort, alloc: Global, part: &str, first: u32, last: u32) -> String {
    let mut text = granted!(rt; String::with_capacity(alloc, 1_000_000));
    text.push('{').expect(rt, "room");
    for number in first..last {
        push_numbered(rt, &mut text, part, number);
        text.push(',').expect(rt, "room");
    }
    push_numbered(rt, &mut text, part, last);
    text.push('}').expect(rt, "room");
    text
}
