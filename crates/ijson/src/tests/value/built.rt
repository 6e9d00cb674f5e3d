//! Functions that build values from lists of parts.

use crate::array::IArray;
use crate::number::{INumber, ParseNumberError};
use crate::object::IObject;
use crate::string::IString;
use crate::table::ReserveError;
use crate::tests::caches::key;
use crate::value::IValue;
use std::alloc::{AllocError, Global};
use std::process::Abort;

/// A part of a value. In a list of parts, an array or object follows its own parts.
#[derive(Clone, Copy)]
pub enum Part {
    Null,
    Bool(bool),
    /// The number that this decimal text denotes.
    Number(&'static str),
    Text(&'static str),
    /// An array of this number of preceding values.
    Array(usize),
    /// An object with these keys, whose values are the preceding values.
    Object(&'static [&'static str]),
    /// The array of the numbers below this count.
    Numbers(usize),
    /// The object of the numbers below this count, whose keys are single characters from U+4E00 on.
    Characters(u16),
}

/// Returns an empty array with the capacity `capacity`.
pub fn array_with(rt: &impl Abort, alloc: Global, capacity: usize) -> IArray {
    granted!(rt; IArray::with_capacity(alloc, capacity))
}

/// Returns an empty object with the capacity `capacity`.
pub fn object_with(rt: &impl Abort, alloc: Global, capacity: usize) -> IObject {
    granted!(rt; ReserveError::Memory; IObject::with_capacity(alloc, capacity))
}

/// Moves the last `count` of `values` to an array without spare capacity.
fn array_of(rt: &impl Abort, alloc: Global, values: &mut IArray, count: usize) -> IArray {
    let mut array = array_with(rt, alloc, count);
    let first = values.len().wrapping_sub(count);
    for _ in 0..count {
        let item = values.remove(first).expect(rt, "an element");
        array.push(item).expect(rt, "room");
    }
    array
}

/// Inserts an entry with a new key into `object`, which has spare capacity.
pub fn insert_new(rt: &impl Abort, object: &mut IObject, key: IString, value: IValue) {
    let before = object.insert(key, value).expect(rt, "room");
    assert!(*rt; before.is_none());
    drop(before);
}

/// Moves the last values, one for each of `keys`, to an object without spare capacity.
fn object_of(rt: &impl Abort, alloc: Global, values: &mut IArray, keys: &[&str]) -> IObject {
    let mut object = object_with(rt, alloc, keys.len());
    let first = values.len().wrapping_sub(keys.len());
    for letters in keys {
        let value = values.remove(first).expect(rt, "a value");
        insert_new(rt, &mut object, key(rt, alloc, letters), value);
    }
    object
}

fn numbers(rt: &impl Abort, alloc: Global, count: usize) -> IArray {
    let mut array = array_with(rt, alloc, count);
    for number in 0..count {
        array.push(IValue::from(number)).expect(rt, "room");
    }
    array
}

fn characters(rt: &impl Abort, alloc: Global, count: u16) -> IObject {
    let mut object = object_with(rt, alloc, usize::from(count));
    for number in 0..count {
        let character = char::from_u32(0x4e00 + u32::from(number)).expect(rt, "a character");
        let mut bytes = [0; 4];
        let key = key(rt, alloc, character.encode_utf8(&mut bytes));
        insert_new(rt, &mut object, key, IValue::from(number));
    }
    object
}

/// Returns the value of `part`, whose elements or values are moved out of `values`.
fn value_of(rt: &impl Abort, alloc: Global, values: &mut IArray, part: Part) -> IValue {
    match part {
        Part::Null => IValue::NULL,
        Part::Bool(truth) => IValue::from(truth),
        Part::Number(text) => {
            IValue::from(granted!(rt; ParseNumberError::Memory; INumber::from_str(alloc, text)))
        }
        Part::Text(text) => IValue::from(key(rt, alloc, text)),
        Part::Array(count) => IValue::from(array_of(rt, alloc, values, count)),
        Part::Object(keys) => IValue::from(object_of(rt, alloc, values, keys)),
        Part::Numbers(count) => IValue::from(numbers(rt, alloc, count)),
        Part::Characters(count) => IValue::from(characters(rt, alloc, count)),
    }
}

/// Returns the value built from `parts`. The arrays and objects in it lack spare capacity.
pub fn built(rt: &impl Abort, alloc: Global, parts: &[Part]) -> IValue {
    let mut values = array_with(rt, alloc, parts.len());
    for &part in parts {
        let value = value_of(rt, alloc, &mut values, part);
        values.push(value).expect(rt, "room");
    }
    let value = values.pop().expect(rt, "a value");
    drop(values);
    value
}
