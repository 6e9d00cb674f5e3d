//! Tests of errors: messages, debug output, lines and columns, and the effects of `report`.

use crate::json::{
    CompactError, DeviceFault, JsonError, MemorySink, Sink, line_and_column, report,
};
use crate::tests::shown::{is_shown, is_told};
use std::alloc::{AllocError, Global};
use std::process::Abort;

/// Errors of `compact`, each with its status, message and debug output.
#[rattlefmt::skip]
static ERRORS: [(CompactError, u8, &str, &str); 9] = [
    (CompactError::Json(JsonError::Syntax { at: 3 }), 1, "syntax at byte 3", "Json(Syntax { at: 3 })"),
    (CompactError::Json(JsonError::TooDeep { at: 127 }), 1, "nesting too deep at byte 127", "Json(TooDeep { at: 127 })"),
    (CompactError::Json(JsonError::NumberRange { at: 0 }), 1, "number out of range at byte 0", "Json(NumberRange { at: 0 })"),
    (CompactError::Json(JsonError::NumberRange { at: usize::MAX }), 1,
        "number out of range at byte 18446744073709551615", "Json(NumberRange { at: 18446744073709551615 })"),
    (CompactError::Json(JsonError::Memory), 3, "out of memory", "Json(Memory)"),
    (CompactError::Read, 2, "read failed", "Read"),
    (CompactError::NotUtf8, 1, "input is not UTF-8", "NotUtf8"),
    (CompactError::Write, 2, "write failed", "Write"),
    (CompactError::Memory, 3, "out of memory", "Memory"),
];

/// JSON texts and errors, each with the message and debug output of the located error.
#[rattlefmt::skip]
static LOCATED: [(&str, JsonError, &str, &str); 4] = [
    ("[1,\n\u{e9}]", JsonError::Syntax { at: 6 },
        "syntax at line 2, column 2", "Syntax { at: LineColumn { line: 2, column: 2 } }"),
    ("\n[", JsonError::TooDeep { at: 1 },
        "nesting too deep at line 2, column 1", "TooDeep { at: LineColumn { line: 2, column: 1 } }"),
    ("1e2000000000", JsonError::NumberRange { at: 0 },
        "number out of range at line 1, column 1", "NumberRange { at: LineColumn { line: 1, column: 1 } }"),
    ("1", JsonError::Memory, "out of memory", "Memory"),
];

/// Asserts the status and output of `report` for `answer`, with a sink of `piece` bytes per call.
pub fn is_reported(
    rt: &impl Abort,
    alloc: Global,
    answer: &Result<(), CompactError>,
    piece: usize,
) {
    assert!(*rt; 0 < piece);
    let mut errors = granted!(rt; MemorySink::new(alloc, piece, 100));
    let found = report(answer, &mut errors);
    if let Err(error) = answer {
        let status = match error {
            CompactError::Json(JsonError::Memory) | CompactError::Memory => 3,
            CompactError::Read | CompactError::Write => 2,
            CompactError::Json(_) | CompactError::NotUtf8 => 1,
        };
        let line = granted!(rt; format!(in alloc; "ijson: {error}\n"));
        assert!(*rt; found == status && errors.bytes() == line.as_bytes());
    } else {
        assert!(*rt; found == 0 && errors.bytes().is_empty());
    }
}

/// Asserts that `report` returns `status` for `error`, and writes a line with `message`, or only a
/// prefix of the line if the sink fails.
fn reports(rt: &impl Abort, alloc: Global, error: CompactError, status: u8, message: &str) {
    let line = granted!(rt; format!(in alloc; "ijson: {message}\n"));
    let mut errors = granted!(rt; MemorySink::new(alloc, 4, 21_000));
    assert!(*rt; counted!(alloc; report(&Err(error), &mut errors)) == status);
    assert!(*rt; counted!(alloc; errors.failures()) == 0 && errors.bytes() == line.as_bytes());
    let mut broken = granted!(rt; MemorySink::new(alloc, 7, 3));
    assert!(*rt; counted!(alloc; report(&Err(error), &mut broken)) == status);
    assert!(*rt; broken.failures() == 1 && broken.bytes() == b"ijs".as_slice());
    for piece in 1..8usize {
        is_reported(rt, alloc, &Err(error), piece);
    }
}

#[test]
fn errors(rt: HostRuntime) {
    let alloc = rt.alloc();
    for &(error, status, message, shown) in &ERRORS {
        is_told(&rt, alloc, error, message, shown);
        if let CompactError::Json(inner) = error {
            let inside = shown
                .get(5..shown.len().saturating_sub(1))
                .expect(&rt, shown);
            is_told(&rt, alloc, inner, message, inside);
        }
        reports(&rt, alloc, error, status, message);
    }
    let message = "a read or a write failed";
    is_told(&rt, alloc, DeviceFault, message, "DeviceFault");
}

#[test]
fn places(rt: HostRuntime) {
    let alloc = rt.alloc();
    for &(text, error, message, shown) in &LOCATED {
        let located = counted!(alloc; error.locate(text));
        is_told(&rt, alloc, located, message, shown);
    }
    let place = counted!(alloc; line_and_column("[1,\né]", 6));
    is_shown(&rt, alloc, &place, "LineColumn { line: 2, column: 2 }");
    assert!(rt; counted!(alloc; line_and_column("a\nb", 2)).line == 2);
}
