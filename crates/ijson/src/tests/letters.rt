//! Letters for the values in tests of arrays and objects: `n` for null, `t` for true, `f` for
//! false, a digit for its number, `p` for 2.0, and `l` for an array of one null, which owns memory.

use crate::array::IArray;
use crate::number::{INumber, ParseNumberError};
use crate::value::IValue;
use std::alloc::{AllocError, Global};
use std::process::Abort;

/// The letters of the contents of an array or object, and its capacity.
pub type State = (&'static str, usize);

/// Returns the value that `letter` denotes, or null for an unknown letter.
pub fn value_of(rt: &impl Abort, alloc: Global, letter: u8) -> IValue {
    match letter {
        b't' => IValue::TRUE,
        b'f' => IValue::FALSE,
        b'0'..=b'9' => IValue::from(letter - b'0'),
        b'p' => {
            IValue::from(granted!(rt; ParseNumberError::Memory; INumber::from_str(alloc, "2.0")))
        }
        b'l' => {
            let mut list = granted!(rt; IArray::with_capacity(alloc, 1));
            list.push(IValue::NULL).expect(rt, "room");
            IValue::from(list)
        }
        _ => IValue::NULL,
    }
}

/// Returns the letter that denotes `value`, or `?` if no letter does.
pub fn letter_of(value: &IValue) -> u8 {
    match (value.to_usize(), value.to_bool(), value.as_array()) {
        (Some(2), ..) if value.as_number().is_some_and(INumber::has_decimal_point) => b'p',
        (Some(number), ..) => b"0123456789".get(number).copied().unwrap_or(b'?'),
        (_, Some(true), _) => b't',
        (_, Some(false), _) => b'f',
        (.., Some(list)) if list.len() == 1 && list[0].is_null() => b'l',
        _ if value.is_null() => b'n',
        _ => b'?',
    }
}

/// Returns the letter of `value`, if there is a value, and drops the value.
pub fn letter_in(value: Option<IValue>) -> Option<u8> {
    let letter = value.as_ref().map(letter_of);
    drop(value);
    letter
}
