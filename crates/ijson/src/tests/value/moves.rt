//! Tests of moves into and out of containers, and of contents out of values, without allocations.

use super::built::Part::Characters;
use super::built::{array_with, built, insert_new, object_with};
use super::known::is_of_kind;
use crate::array::IArray;
use crate::number::INumber;
use crate::object::IObject;
use crate::string::IString;
use crate::tests::caches::key;
use crate::tests::shown::is_shown;
use crate::tests::support::{begin_count, end_count, set};
use crate::value::{Destructured, DestructuredMut, DestructuredRef, IValue, ValueType};
use std::alloc::Global;
use std::process::Abort;

/// Returns the capacity of the array or object in `value`, or `None` for another kind.
pub fn capacity_of(value: &IValue) -> Option<usize> {
    match value.destructure_ref() {
        DestructuredRef::Array(array) => Some(array.capacity()),
        DestructuredRef::Object(object) => Some(object.capacity()),
        _ => None,
    }
}

/// Moves the array or object out of `value`, and returns its capacity.
fn capacity_given(value: IValue) -> Option<usize> {
    match value.into_array() {
        Ok(array) => Some(array.capacity()),
        Err(value) => Some(value.into_object().ok()?.capacity()),
    }
}

/// Moves the content out of `value` and back. Returns `true` unless `value` is null or a Boolean.
fn handed_back(value: IValue) -> (IValue, bool) {
    let value: IValue = match value.into_number() {
        Ok(number) => return (IValue::from(number), true),
        Err(value) => value,
    };
    let value: IValue = match value.into_string() {
        Ok(string) => return (IValue::from(string), true),
        Err(value) => value,
    };
    let value: IValue = match value.into_array() {
        Ok(array) => return (IValue::from(array), true),
        Err(value) => value,
    };
    match value.into_object() {
        Ok(object) => (IValue::from(object), true),
        Err(value) => (value, false),
    }
}

/// Destructures `value`, and builds it again from its content.
fn reopened(value: IValue) -> IValue {
    match value.destructure() {
        Destructured::Null => IValue::NULL,
        Destructured::Bool(truth) => IValue::from(truth),
        Destructured::Number(number) => IValue::from(number),
        Destructured::String(string) => IValue::from(string),
        Destructured::Array(array) => IValue::from(array),
        Destructured::Object(object) => IValue::from(object),
    }
}

/// Asserts that taking `value`, which has the kind `kind`, leaves null. Returns the value, after
/// its content is moved out and back in two ways.
pub fn is_taken(rt: &impl Abort, mut value: IValue, kind: ValueType) -> IValue {
    let taken = value.take();
    assert!(*rt; value.is_null() && is_of_kind(&taken, kind));
    drop(value);
    let (back, holds) = handed_back(IValue::from(Some(reopened(taken))));
    assert!(*rt; holds == (kind >= ValueType::Number));
    back
}

/// Negates a Boolean, sets a number to 0, and empties a string, array or object.
fn empty(value: &mut IValue) {
    match value.destructure_mut() {
        DestructuredMut::Null => {}
        DestructuredMut::Bool(mut truth) => truth.set(!truth.get()),
        DestructuredMut::Number(number) => set(number, INumber::zero()),
        DestructuredMut::String(string) => set(string, IString::new()),
        DestructuredMut::Array(array) => array.clear(),
        DestructuredMut::Object(object) => object.clear(),
    }
}

/// Like `empty`, but through the methods `as_.._mut`. A Boolean is unchanged.
fn empty_part(value: &mut IValue) {
    if let Some(number) = value.as_number_mut() {
        set(number, INumber::zero());
    }
    if let Some(string) = value.as_string_mut() {
        set(string, IString::new());
    }
    if let Some(array) = value.as_array_mut() {
        array.clear();
    }
    if let Some(object) = value.as_object_mut() {
        object.clear();
    }
}

/// Asserts that `value` has the debug output `left` after it is emptied, and keeps its capacity. If
/// `by_part` is set, `empty_part` empties the value, and a Boolean must be unchanged.
pub fn is_emptied(rt: &impl Abort, alloc: Global, mut value: IValue, by_part: bool, left: &str) {
    let (kind, truth, capacity) = (value.type_(), value.to_bool(), capacity_of(&value));
    if by_part {
        counted!(alloc; empty_part(&mut value));
    } else {
        counted!(alloc; empty(&mut value));
    }
    let value = counted!(alloc; is_taken(rt, value, kind));
    assert!(*rt; capacity_of(&value) == capacity);
    if by_part && truth.is_some() {
        assert!(*rt; value.to_bool() == truth);
    } else {
        is_shown(rt, alloc, &value, left);
    }
    drop(value);
}

/// Moves `value` into `array` and out again, by each call that can. `array` must be empty and have
/// capacity for two elements.
fn through_array(rt: &impl Abort, mut array: IArray, value: IValue) -> IValue {
    array.push(value).expect(rt, "room");
    array.insert(0, IValue::NULL).expect(rt, "room");
    let value = array.swap_remove(1).expect(rt, "an element");
    array.insert(0, value).expect(rt, "room");
    let value = array.remove(0).expect(rt, "an element");
    array.push(value).expect(rt, "room");
    let value = array.pop().expect(rt, "an element");
    array.push(value).expect(rt, "room");
    let mut outer = IValue::from(array);
    assert!(*rt; outer.is_array());
    let value = outer.remove(1usize).expect(rt, "an element");
    drop(outer);
    value
}

/// Moves `value` into `object` and out again, by each call that can. `object` must be empty and
/// have capacity for an entry.
fn through_object(rt: &impl Abort, alloc: Global, mut object: IObject, value: IValue) -> IValue {
    insert_new(rt, &mut object, key(rt, alloc, "k"), value);
    let value = object.remove("k").expect(rt, "a value");
    let place = object.index_or_insert(key(rt, alloc, "k"));
    set(place.expect(rt, "room"), value);
    let value = object.shift_remove("k").expect(rt, "a value");
    let entry = object.entry(key(rt, alloc, "k")).expect(rt, "room");
    entry.or_insert(value);
    let mut outer = IValue::from(object);
    assert!(*rt; outer.is_object());
    let value = outer.remove("k").expect(rt, "a value");
    drop(outer);
    value
}

/// Moves `value` into `array`, and out again by an iterator.
fn through_items(rt: &impl Abort, mut array: IArray, value: IValue) -> IValue {
    array.push(value).expect(rt, "room");
    let mut items = array.into_iter();
    let value = items.next().expect(rt, "an element");
    drop(items);
    value
}

/// Moves `value` into `object`, and out again by an iterator.
fn through_pairs(rt: &impl Abort, alloc: Global, mut object: IObject, value: IValue) -> IValue {
    insert_new(rt, &mut object, key(rt, alloc, "k"), value);
    let mut pairs = object.into_iter();
    let (key, value) = pairs.next().expect(rt, "a pair");
    drop(key);
    drop(pairs);
    value
}

/// Asserts that an array or object of a number keeps its capacity when it is moved and emptied.
fn keeps_capacity(rt: &impl Abort, alloc: Global, value: IValue, want: usize) {
    let (array, items) = (array_with(rt, alloc, 2), array_with(rt, alloc, 1));
    let (object, pairs) = (object_with(rt, alloc, 1), object_with(rt, alloc, 1));
    begin_count(alloc);
    let kind = value.type_();
    let value = is_taken(rt, value, kind);
    assert!(*rt; capacity_of(&value) == Some(want));
    let value = through_array(rt, array, value);
    assert!(*rt; capacity_of(&value) == Some(want));
    let value = through_object(rt, alloc, object, value);
    assert!(*rt; capacity_of(&value) == Some(want));
    let value = through_items(rt, items, value);
    assert!(*rt; capacity_of(&value) == Some(want));
    let mut value = through_pairs(rt, alloc, pairs, value);
    assert!(*rt; capacity_of(&value) == Some(want) && value.len() == Some(1));
    empty(&mut value);
    assert!(*rt; capacity_of(&value) == Some(want));
    empty_part(&mut value);
    assert!(*rt; capacity_of(&value) == Some(want));
    assert!(*rt; capacity_given(value.take()) == Some(want));
    drop(value);
    end_count(alloc, 0);
}

#[test]
fn capacity_is_kept(rt: HostRuntime) {
    let alloc = rt.alloc();
    let mut array = array_with(&rt, alloc, 7);
    array.push(IValue::from(1u8)).expect(&rt, "room");
    keeps_capacity(&rt, alloc, array.into(), 7);
    let mut object = object_with(&rt, alloc, 40);
    insert_new(&rt, &mut object, key(&rt, alloc, "a"), IValue::from(1u8));
    keeps_capacity(&rt, alloc, object.into(), 40);
}

#[test]
fn entries_are_moved_out(rt: HostRuntime) {
    let alloc = rt.alloc();
    let value = built(&rt, alloc, &[Characters(100)]);
    let object = value.into_object().expect(&rt, "an object");
    assert!(rt; counted!(alloc; object.into_pairs().len()) == 100);
    let value = built(&rt, alloc, &[Characters(100)]);
    let object = counted!(alloc; value.into_object()).expect(&rt, "an object");
    assert!(rt; counted!(alloc; object.into_iter().len()) == 100);
}
