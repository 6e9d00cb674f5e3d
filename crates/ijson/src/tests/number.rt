//! Tests of numbers by tables, whose rows have a decimal text and a fact of its number.

mod errors;
mod facts;
mod large;
mod lengths;
mod order;

use crate::number::{Form, INumber, ParseNumberError};
use crate::tests::hashes::feeds;
use crate::tests::shown::is_shown;
use crate::tests::support::in_type;
use order::compares;
use std::alloc::{AllocError, Global};
use std::cmp::Ordering;
use std::process::Abort;

/// A fact of the number that a decimal text denotes.
#[derive(Clone, Copy)]
enum Fact<'a> {
    /// The number is written as this text.
    Text(&'a str),
    /// The number is written as the text of its row.
    Same,
    /// The canonical significand of the number, and its exponent.
    Stripped(&'a str, i32),
    /// The mantissa and the exponent of the number's representation, which is `Form::Packed`.
    Packed(i64, i8),
    /// The integer of the number's representation, which is `Form::I64`.
    I64(i64),
    /// The integer of the number's representation, which is `Form::U64`.
    U64(u64),
    /// The canonical significand and the exponent of the representation, which is `Form::Digits`.
    List(&'a str, i32),
    /// The debug output of the number's representation.
    Shown(&'a str),
    /// The integer that the number equals.
    Integer(i128),
    /// No integer type contains the number.
    NoInteger,
    /// The words that the number feeds a hasher.
    Words(&'a [u64]),
}

/// Returns the number that the decimal text `text` denotes.
fn spelled(rt: &impl Abort, alloc: Global, text: &str) -> INumber {
    granted!(rt; ParseNumberError::Memory; INumber::from_str(alloc, text))
}

/// Asserts that `number` appends `want` to a string without spare capacity: its text or, with the
/// exponent `power`, its significand. Returns `false` if an allocation failed after a proper prefix
/// of `want` was appended.
fn push(rt: &impl Abort, alloc: Global, number: &INumber, power: Option<i32>, want: &str) -> bool {
    let mut text = granted!(rt; String::with_capacity(alloc, 4));
    text.push_str("true").expect(rt, "room");
    let found = match power {
        Some(_) => number.push_stripped_digits(&mut text),
        None => number.push_to(&mut text).map(|()| 0),
    };
    let added = text.as_str().strip_prefix("true").expect(rt, want);
    let Ok(exponent) = found else {
        assert!(*rt; want.starts_with(added) && added != want, "{want}");
        return false;
    };
    assert!(*rt; added == want && exponent == power.unwrap_or(0), "{want}");
    true
}

fn adds(rt: &impl Abort, alloc: Global, number: &INumber, power: Option<i32>, want: &str) {
    if !push(rt, alloc, number, power, want) {
        assert!(*rt; push(rt, alloc, number, power, want), "{want}");
    }
}

/// Asserts that each call that writes `number` writes `want`. A width must not change the output.
fn is_written(rt: &impl Abort, alloc: Global, number: &INumber, want: &str) {
    adds(rt, alloc, number, None, want);
    let text = granted!(rt; format!(in alloc; "{number}{number:>10}{number:?}{number:<10?}"));
    let mut rest = text.as_str();
    for _ in 0..4 {
        rest = rest.strip_prefix(want).expect(rt, want);
    }
    assert!(*rt; rest.is_empty(), "{want}");
}

/// Asserts that `number` has the representation `form`, which is inline: parsing and copying the
/// number must not allocate.
fn is_word(rt: &impl Abort, alloc: Global, number: &INumber, text: &str, form: Form<'_>) {
    assert!(*rt; counted!(alloc; number.form()) == form, "{text}");
    let again = counted!(alloc; INumber::from_str(alloc, text)).expect(rt, text);
    let copy = counted!(alloc; again.clone().ok()).expect(rt, text);
    drop(again);
    assert!(*rt; copy.form() == form, "{text}");
    drop(copy);
}

fn are_digits(digits: &[u8], text: &str) -> bool {
    let mut pairs = digits.iter().zip(text.bytes());
    digits.len() == text.len() && pairs.all(|(digit, byte)| byte.checked_sub(b'0') == Some(*digit))
}

/// Returns `true` if `number` is a list of the digits `want`, with the exponent `power`.
fn is_list(number: &INumber, text: &str, want: &str, power: i32) -> bool {
    matches!(number.form(), Form::Digits { negative, digits, exponent, point }
        if negative == text.starts_with("-") && are_digits(digits, want)
            && exponent == power && point == has_point(text))
}

/// Asserts that `number` converts to `want` in each type that contains it, otherwise to `None`.
fn is_integer(rt: &impl Abort, number: &INumber, want: Option<i128>) {
    assert!(*rt; number.to_i64() == in_type(want));
    assert!(*rt; number.to_i32() == in_type(want));
    assert!(*rt; number.to_isize() == in_type(want));
    assert!(*rt; number.to_u64() == in_type(want));
    assert!(*rt; number.to_u32() == in_type(want));
    assert!(*rt; number.to_usize() == in_type(want));
}

/// Returns `true` if the decimal text `text` has a decimal point or an exponent.
fn has_point(text: &str) -> bool {
    text.bytes().any(|byte| matches!(byte, b'.' | b'e' | b'E'))
}

fn holds(rt: &impl Abort, alloc: Global, number: &INumber, text: &str, fact: Fact<'_>) {
    let point = counted!(alloc; number.has_decimal_point());
    assert!(*rt; point == has_point(text), "{text}");
    match fact {
        Fact::Text(want) => is_written(rt, alloc, number, want),
        Fact::Same => is_written(rt, alloc, number, text),
        Fact::Stripped(digits, exponent) => adds(rt, alloc, number, Some(exponent), digits),
        Fact::Packed(mantissa, exponent) => {
            let form = Form::Packed {
                mantissa,
                exponent,
                point,
            };
            is_word(rt, alloc, number, text, form)
        }
        Fact::I64(value) => is_word(rt, alloc, number, text, Form::I64(value)),
        Fact::U64(value) => is_word(rt, alloc, number, text, Form::U64(value)),
        Fact::List(digits, exponent) => {
            let is_found = counted!(alloc; is_list(number, text, digits, exponent));
            assert!(*rt; is_found, "{text}");
            adds(rt, alloc, number, Some(exponent), digits)
        }
        Fact::Shown(want) => is_shown(rt, alloc, &number.form(), want),
        Fact::Integer(value) => counted!(alloc; is_integer(rt, number, Some(value))),
        Fact::NoInteger => counted!(alloc; is_integer(rt, number, None)),
        Fact::Words(words) => counted!(alloc; feeds(rt, number, words)),
    }
}

fn all_hold(rt: &impl Abort, alloc: Global, number: &INumber, text: &str, facts: &[Fact<'_>]) {
    for &fact in facts {
        holds(rt, alloc, number, text, fact);
    }
}

/// Asserts `facts` of the number that `text` denotes, and of a copy that outlives the number.
fn is_known(rt: &impl Abort, alloc: Global, text: &str, facts: &[Fact<'_>]) {
    let number = spelled(rt, alloc, text);
    all_hold(rt, alloc, &number, text, facts);
    let copy = granted!(rt; number.clone());
    counted!(alloc; compares(rt, &number, &copy, Ordering::Equal));
    drop(number);
    all_hold(rt, alloc, &copy, text, facts);
    drop(copy);
}
