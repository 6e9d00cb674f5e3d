//! Tests of objects of each small size, since no clause states that a call succeeds if memory is
//! available.

use super::Pair;
use super::created::{Way, through_map};
use crate::object::{IObject, RefusedPair};
use crate::string::IString;
use crate::table::ReserveError;
use crate::tests::caches::key;
use crate::tests::support::{begin_count, end_count, set};
use crate::value::IValue;
use std::alloc::{AllocError, Global};
use std::process::Abort;

/// Returns a key that consists of the digits of `number`.
fn numbered(rt: &impl Abort, alloc: Global, number: usize) -> IString {
    let digits = granted!(rt; format!(in alloc; "{number}"));
    let text = key(rt, alloc, &digits);
    drop(digits);
    text
}

/// Returns the entries of the numbers below `count`, in a list without spare capacity.
fn pairs_of(rt: &impl Abort, alloc: Global, count: usize) -> Vec<Pair> {
    let mut pairs = granted!(rt; Vec::with_capacity(alloc, count));
    for number in 0..count {
        let pair = (numbered(rt, alloc, number), IValue::from(number));
        pairs.push(pair).expect(rt, "room");
    }
    pairs
}

/// Returns the object of the numbers below `count`, which reuses the list. The object allocates a
/// block unless it is empty, and another for the slots of more than 8 entries. Up to 100 keys
/// collide so rarely that the slots are not filled by sorting.
fn object_of(rt: &impl Abort, alloc: Global, count: usize) -> IObject {
    let pairs = pairs_of(rt, alloc, count);
    let object = match count {
        0 => counted!(alloc; 0; IObject::from_pairs(alloc, pairs)),
        1..=8 => counted!(alloc; 1; IObject::from_pairs(alloc, pairs)),
        9..=100 => counted!(alloc; 2; IObject::from_pairs(alloc, pairs)),
        _ => IObject::from_pairs(alloc, pairs),
    };
    match object {
        Ok(object) => object,
        Err(why) => {
            assert!(*rt; why == ReserveError::Memory);
            IObject::from_pairs(alloc, pairs_of(rt, alloc, count)).expect(rt, "an object")
        }
    }
}

/// Asserts that `object` has the numbers below `count` in order, by iteration and by lookup.
fn is_numbered(rt: &impl Abort, object: &IObject, count: usize, capacity: usize) {
    assert!(*rt; object.len() == count && object.capacity() == capacity);
    for (number, (key, value)) in object.iter().enumerate() {
        assert!(*rt; value.to_usize() == Some(number) && object.get_index_of(key) == Some(number));
    }
}

/// Reads, writes, removes and inserts the entry at `index` by its key, without allocating.
fn asks(rt: &impl Abort, alloc: Global, object: &mut IObject, index: usize) {
    let key = numbered(rt, alloc, index);
    begin_count(alloc);
    assert!(*rt; object.get_index_of(&key) == Some(index));
    assert!(*rt; matches!(object.get_index(index), Some((same, _value)) if *same == key));
    if let Some((same, value)) = object.get_key_value_mut(&key) {
        assert!(*rt; *same == key);
        set(value, IValue::from(index));
    }
    let (same, value) = object.shift_remove_entry(&key).expect(rt, "an entry");
    assert!(*rt; index <= object.len());
    let former = object.shift_insert(index, same, value).expect(rt, "room");
    assert!(*rt; former.is_none());
    drop(former);
    end_count(alloc, 0);
    drop(key);
}

/// Creates an object of `count` entries, copies it, grows its capacity to `grown`, and shrinks it.
pub fn changes_size(rt: &impl Abort, alloc: Global, count: usize, grown: usize) {
    let mut object = object_of(rt, alloc, count);
    is_numbered(rt, &object, count, count);
    if count >= 2 {
        asks(rt, alloc, &mut object, count - 2);
    }
    let copy = granted!(rt; object.clone());
    is_numbered(rt, &copy, count, count);
    let pairs = counted!(alloc; copy.into_pairs());
    assert!(*rt; pairs.len() == count);
    drop(pairs);
    granted!(rt; ReserveError::Memory; object.reserve(1));
    is_numbered(rt, &object, count, grown);
    granted!(rt; ReserveError::Memory; object.shrink_to_fit());
    is_numbered(rt, &object, count, count);
    let pairs = counted!(alloc; object.into_iter());
    assert!(*rt; pairs.len() == count);
    counted!(alloc; drop(pairs));
}

/// Calls `changes_size` for each size below `most`.
pub fn each_size(rt: &impl Abort, alloc: Global, most: usize) {
    changes_size(rt, alloc, 0, 4);
    changes_size(rt, alloc, 1, 4);
    for count in 2..most {
        changes_size(rt, alloc, count, count.wrapping_mul(2));
    }
}

/// Creates objects of `count` entries by `try_from_pairs`, and from each kind of map.
pub fn creates(rt: &impl Abort, alloc: Global, count: usize) {
    let pairs = pairs_of(rt, alloc, count);
    let object = match IObject::try_from_pairs(alloc, pairs) {
        Ok(object) => object,
        Err(refused) => IObject::try_from_pairs(alloc, refused.pairs).expect(rt, "an object"),
    };
    is_numbered(rt, &object, count, count);
    for way in [Way::Hashes, Way::Sorts, Way::Keeps] {
        let again =
            granted!(rt; ReserveError::Memory; through_map(alloc, granted!(rt; object.clone()), way));
        assert!(*rt; again == object && again.capacity() == count);
        drop(again);
    }
    drop(object);
}

/// Returns the key of `number`: a single character, which does not allocate.
fn character(rt: &impl Abort, alloc: Global, number: u16) -> IString {
    let character = char::from_u32(0x4e00 + u32::from(number)).expect(rt, "a character");
    key(rt, alloc, character.encode_utf8(&mut [0; 4]))
}

/// Inserts the entry of `number`, which may fail only if `object` is full.
fn puts(rt: &impl Abort, alloc: Global, object: &mut IObject, number: u16) {
    let former = object.insert(character(rt, alloc, number), IValue::from(number));
    if let Some(RefusedPair { key, value, why }) = former.err() {
        assert!(*rt; why == ReserveError::Memory && object.len() == usize::from(number));
        assert!(*rt; object.capacity() == object.len());
        drop(object.insert(key, value).expect(rt, "room"));
    }
}

#[test]
fn sizes(rt: HostRuntime) {
    let alloc = rt.alloc();
    each_size(&rt, alloc, 12);
    changes_size(&rt, alloc, 100, 200);
    creates(&rt, alloc, 10);
}

#[test]
fn one_by_one(rt: HostRuntime) {
    let alloc = rt.alloc();
    let mut object = IObject::new(alloc);
    for number in 0..30_000u16 {
        puts(&rt, alloc, &mut object, number);
    }
    assert!(rt; object.capacity() == 32_768);
    for number in 0..30_000u16 {
        let key = character(&rt, alloc, number);
        assert!(rt; object.get_index_of(&key) == Some(usize::from(number)));
        assert!(rt; object.get(&key).and_then(IValue::to_usize) == Some(usize::from(number)));
        drop(key);
    }
    drop(object);
}
