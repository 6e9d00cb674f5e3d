//! Tests of rejected texts, of numbers at the start of a text, and of error messages.

use super::spelled;
use crate::number::{INumber, Looks, ParseNumberError, ReadNumberError};
use crate::tests::shown::is_shown;
use std::alloc::{AllocError, Global};
use std::error::Error;
use std::process::Abort;

/// Texts that are not a number in range, each with the length or the error of `read_front`.
#[rattlefmt::skip]
static REJECTED: [(&str, Result<usize, ReadNumberError>); 29] = [
    ("", Err(ReadNumberError::Syntax { at: 0 })), ("+1", Err(ReadNumberError::Syntax { at: 0 })),
    (" 1", Err(ReadNumberError::Syntax { at: 0 })), (".5", Err(ReadNumberError::Syntax { at: 0 })),
    ("-", Err(ReadNumberError::Syntax { at: 1 })), ("-x", Err(ReadNumberError::Syntax { at: 1 })), ("01", Ok(1)),
    ("0001", Ok(1)), ("1 ", Ok(1)), ("1-2", Ok(1)), ("-01", Ok(2)), ("12e5x", Ok(4)),
    ("1.", Err(ReadNumberError::Syntax { at: 2 })), ("1.x", Err(ReadNumberError::Syntax { at: 2 })),
    ("1e", Err(ReadNumberError::Syntax { at: 2 })), ("1e+", Err(ReadNumberError::Syntax { at: 3 })),
    ("1e+-", Err(ReadNumberError::Syntax { at: 3 })), ("1e5e", Ok(3)), ("1e5.5", Ok(3)), ("1.5.5", Ok(3)),
    ("12345678901234567890.x", Err(ReadNumberError::Syntax { at: 21 })),
    ("1.5e+", Err(ReadNumberError::Syntax { at: 5 })), ("1.5E-", Err(ReadNumberError::Syntax { at: 5 })),
    ("1e1073741825-", Err(ReadNumberError::OutOfRange)), ("1e1073741825", Err(ReadNumberError::OutOfRange)),
    ("10e1073741824", Err(ReadNumberError::OutOfRange)), ("1e-1073741825", Err(ReadNumberError::OutOfRange)),
    ("1e9999999999999999999999999999999999999999", Err(ReadNumberError::OutOfRange)),
    ("1e99999999999999999999999999999999999999999999.5", Err(ReadNumberError::OutOfRange)),
];

/// Asserts that `want` is the message of `error`, followed by a colon and its debug output.
fn tells(rt: &impl Abort, alloc: Global, error: &impl Error, want: &str) {
    let text = granted!(rt; format!(in alloc; "{error}: {error:?}"));
    assert!(*rt; text.as_str() == want);
}

#[test]
fn rejected_texts(rt: HostRuntime) {
    let alloc = rt.alloc();
    for &(text, want) in &REJECTED {
        let refusal = counted!(alloc; INumber::from_str(alloc, text)).err();
        assert!(rt; refusal == Some(ParseNumberError::Invalid), "{text}");
        let read = counted!(alloc; INumber::read_front(alloc, text));
        assert!(rt; read.map(|(_, length)| length) == want, "{text}");
    }
    let invalid = "not a JSON number, or its exponent is out of range: Invalid";
    tells(&rt, alloc, &ParseNumberError::Invalid, invalid);
    tells(
        &rt,
        alloc,
        &ParseNumberError::Memory,
        "out of memory: Memory",
    );
    tells(
        &rt,
        alloc,
        &ReadNumberError::Syntax { at: 2 },
        "not a JSON number at byte 2: Syntax { at: 2 }",
    );
    tells(
        &rt,
        alloc,
        &ReadNumberError::OutOfRange,
        "exponent out of range: OutOfRange",
    );
    let mut looks = Looks::new();
    looks.add_one();
    looks.add(41);
    is_shown(&rt, alloc, &looks, "Looks { seen: 42 }");
}

/// Texts, each with the length in bytes of the number at its start.
#[rattlefmt::skip]
static FRONTS: [(&str, usize); 13] = [
    ("12", 2), ("1234567890123456789,", 19), ("-0.0012345678901234567,", 22), ("-123.4567890123450, 2", 18),
    ("0.1234567890123456789e-5", 24), ("-1.50]", 5), ("1.5.5", 3), ("1E-0007,2", 7), ("1e5.5", 3),
    ("1.1234567890123456789", 21), ("12345678901234567890.5", 22), ("1e12345", 7), ("01", 1),
];

/// Asserts that the number at the start of `text` has `want` bytes, and that these bytes alone
/// denote the same number.
fn has_front(rt: &impl Abort, alloc: Global, text: &str, want: usize) {
    let (number, length) = granted!(rt; ReadNumberError::Memory; INumber::read_front(alloc, text));
    let whole = spelled(rt, alloc, text.get(..length).expect(rt, text));
    assert!(*rt; length == want && number.form() == whole.form(), "{text}");
    drop(number);
    drop(whole);
}

#[test]
fn fronts(rt: HostRuntime) {
    for &(text, want) in &FRONTS {
        has_front(&rt, rt.alloc(), text, want);
    }
}
