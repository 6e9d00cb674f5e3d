//! Tests of objects: the result and effect of each call, also if any of its allocations fails. Two
//! letters denote an entry: the letter of its key, and the letter of its value as in `letters`.

mod callers;
mod created;
mod large;
mod shown;
mod sizes;

use super::letters::{State, letter_in, letter_of, value_of};
use crate::object::{Entry, IObject, RefusedKey, RefusedPair, RefusedReplacement};
use crate::string::IString;
use crate::table::ReserveError;
use crate::tests::caches::key;
use crate::tests::hashes::are_same;
use crate::tests::support::{begin_count, end_count, is_set, set};
use crate::value::IValue;
use Call::*;
use std::alloc::{AllocError, Global};
use std::mem;
use std::process::Abort;

/// The names of short keys. The letter of a key is the first character of its name.
static SHORT: [&str; 16] = [
    "?", "a", "b", "c", "d", "e", "f", "k", "n", "x", "0", "1", "2", "3", "4", "5",
];

/// The names of the keys with the letters `A` to `K`.
///
/// The last two keys are inline, the others boxed.
static LONG: [&str; 11] = [
    "the_first_of_the_two",
    "the_other_of_the_two",
    "a_third_key_is_absent",
    "a long key",
    "eight888",
    "interned_string_a",
    "a key that owns memory",
    "a \"long\" key\n",
    "another \"long\" key",
    "id",
    "no",
];

/// A call on an object. A call that takes an entry takes the entry of its row.
#[derive(Clone, Copy)]
enum Call {
    Insert,
    ShiftInsert(usize),
    Remove,
    RemoveEntry,
    ShiftRemove,
    ShiftRemoveEntry,
    /// Replaces the key of this letter, unless the key is missing or the new key exists.
    ReplaceKey(u8),
    /// Writes the value of an existing key, and returns the old value.
    GetMut,
    GetKeyValueMut,
    IndexMut,
    ValueAtMut(usize),
    RetainOthers,
    Clear,
    Reserve(usize),
    ShrinkToFit,
    Extend,
    Overlay,
    CloneOf,
    /// Writes the value of a key, and returns the old value, or null for a new key. `IndexContent`
    /// and `IndexValue` call `index_or_insert` on an `IValue`, in two ways.
    IndexOrInsert,
    IndexContent,
    IndexValue,
    /// Inserts the entry if its key is missing, and returns the value of the key.
    OrInsert,
    OrInsertWith,
    /// Sets the value of an existing key to 5, or inserts the entry. Returns the value of the key.
    AndModify,
    /// Fills a vacant `Entry`, or returns the value of an occupied `Entry`.
    Enter,
    /// Removes an occupied `Entry` and returns its value, or takes the key out of a vacant `Entry`.
    TakeEntry,
    EntryRemove,
    DropEntry,
    DropCopy,
    /// Writes 7, 8 and the row's value to an occupied `Entry`, and returns the replaced 8.
    Write,
    WriteRemove,
}

/// The state before a call, the call, its entry, the returned value, and the state after it. A call
/// that keeps the capacity must not allocate.
type Row = (State, Call, &'static str, &'static str, State);

#[rattlefmt::skip]
static ROWS: [Row; 108] = [
    (("", 0), CloneOf, "", "", ("", 0)), (("", 0), Insert, "a1", "", ("a1", 4)),
    (("a1", 4), Insert, "b2", "", ("a1b2", 4)), (("a1b2", 4), Insert, "c3", "", ("a1b2c3", 4)),
    (("a1b2c3", 4), Insert, "d4", "", ("a1b2c3d4", 4)), (("a1b2c3d4", 4), Insert, "e5", "", ("a1b2c3d4e5", 8)),
    (("a1b2c3d4e5", 8), Insert, "En", "", ("a1b2c3d4e5En", 8)), (("a0b1c2d3", 4), Insert, "a9", "0", ("a9b1c2d3", 4)),
    (("a0b1c2d3", 4), Remove, "b", "1", ("a0d3c2", 4)), (("a0d3c2", 4), ShrinkToFit, "", "", ("a0d3c2", 3)),
    (("a0b1c2", 4), Remove, "b", "1", ("a0c2", 4)), (("a0c1", 4), Remove, "b", "", ("a0c1", 4)),
    (("a0c1", 4), ShrinkToFit, "", "", ("a0c1", 2)), (("a0d1c2", 4), RemoveEntry, "d", "1", ("a0c2", 4)),
    (("a0c2", 4), ShrinkToFit, "", "", ("a0c2", 2)), (("a0b1c2d3", 4), ShiftRemove, "b", "1", ("a0c2d3", 4)),
    (("a0b1c2d3", 4), ShiftRemoveEntry, "b", "1", ("a0c2d3", 4)), (("a0c2d3", 4), ShrinkToFit, "", "", ("a0c2d3", 3)),
    (("a0c1d2", 4), ShiftRemove, "b", "", ("a0c1d2", 4)), (("a0c1d2", 4), ShiftRemoveEntry, "b", "", ("a0c1d2", 4)),
    (("a0c1d2", 4), IndexMut, "c7", "1", ("a0c7d2", 4)), (("a0c7d2", 4), GetMut, "d8", "2", ("a0c7d8", 4)),
    (("a0c7d8", 4), ValueAtMut(0), "?6", "0", ("a6c7d8", 4)), (("a6c7d8", 4), ValueAtMut(3), "?0", "", ("a6c7d8", 4)),
    (("a6c7d8", 4), GetMut, "b0", "", ("a6c7d8", 4)), (("a6c7d8", 4), GetKeyValueMut, "c1", "7", ("a6c1d8", 4)),
    (("a6c1d8", 4), GetKeyValueMut, "b0", "", ("a6c1d8", 4)), (("a6c1d8", 4), ShrinkToFit, "", "", ("a6c1d8", 3)),
    (("a0b1c2d3", 4), ShiftInsert(0), "e9", "", ("e9a0b1c2d3", 8)),
    (("a0b1c2d3", 4), ShiftInsert(4), "e9", "", ("a0b1c2d3e9", 8)),
    (("a0b1c2d3", 4), ShiftInsert(0), "c9", "2", ("c9a0b1d3", 4)),
    (("a0b1c2d3", 4), ShiftInsert(2), "a9", "0", ("b1c2a9d3", 4)),
    (("a0b1c2d3", 4), ShiftInsert(4), "b9", "1", ("a0c2d3b9", 4)),
    (("a0b1c2d3", 4), ReplaceKey(b'b'), "D", "", ("a0D1c2d3", 4)),
    (("a0b1c2d3", 4), ReplaceKey(b'b'), "b", "", ("a0b1c2d3", 4)),
    (("a0b1c2d3", 4), ReplaceKey(b'e'), "f", "missing", ("a0b1c2d3", 4)),
    (("a0b1c2d3", 4), ReplaceKey(b'b'), "d", "exists", ("a0b1c2d3", 4)),
    (("a0b1c2d3", 4), Extend, "a9", "", ("a9b1c2d3", 4)), (("a9b1c2d3", 4), Extend, "e9", "", ("a9b1c2d3e9", 8)),
    (("", 10), Clear, "", "", ("", 10)), (("", 8), Extend, "a0b1", "", ("a0b1", 8)),
    (("a0b1", 8), Clear, "", "", ("", 8)), (("", 8), Reserve(9), "", "", ("", 16)),
    (("", 0), Reserve(1), "", "", ("", 4)), (("", 4), ShrinkToFit, "", "", ("", 0)),
    (("a1b2", 2), Reserve(1), "", "", ("a1b2", 4)), (("a1b2", 4), ShrinkToFit, "", "", ("a1b2", 2)),
    (("a1b2c3", 4), CloneOf, "", "", ("a1b2c3", 3)), (("a0b1cp", 4), CloneOf, "", "", ("a0b1cp", 3)),
    (("a1b2c3d4e5", 12), CloneOf, "", "", ("a1b2c3d4e5", 5)), (("", 0), Extend, "a1b2c3d4e5", "", ("a1b2c3d4e5", 8)),
    (("", 0), Overlay, "a1b2c3d4e5", "", ("a1b2c3d4e5", 8)), (("", 0), TakeEntry, "k", "", ("", 4)),
    (("a0b1c2d3", 4), TakeEntry, "b", "1", ("a0d3c2", 4)), (("", 0), OrInsert, "a1", "1", ("a1", 4)),
    (("a1", 4), OrInsert, "a2", "1", ("a1", 4)), (("a1", 4), OrInsertWith, "a3", "1", ("a1", 4)),
    (("a1", 4), OrInsertWith, "k3", "3", ("a1k3", 4)), (("a1k3", 4), AndModify, "a6", "5", ("a5k3", 4)),
    (("a5k3", 4), AndModify, "x6", "6", ("a5k3x6", 4)), (("a0k1x2n3", 4), WriteRemove, "k9", "8", ("a0n3x2", 4)),
    (("a0k1x2", 4), IndexOrInsert, "nn", "n", ("a0k1x2nn", 4)),
    (("a0k1x2nn", 4), IndexOrInsert, "a7", "0", ("a7k1x2nn", 4)), (("", 0), DropCopy, "G", "", ("", 4)),
    (("a1b2c3d4", 4), DropCopy, "G", "", ("a1b2c3d4", 8)), (("", 0), Enter, "a1", "", ("a1", 4)),
    (("a1b2c3d4", 4), Enter, "e5", "", ("a1b2c3d4e5", 8)), (("", 0), IndexOrInsert, "a1", "n", ("a1", 4)),
    (("a1b2c3d4", 4), IndexOrInsert, "e5", "n", ("a1b2c3d4e5", 8)), (("", 0), IndexContent, "a1", "n", ("a1", 4)),
    (("a1b2c3d4", 4), IndexContent, "e5", "n", ("a1b2c3d4e5", 8)), (("", 0), IndexValue, "a1", "n", ("a1", 4)),
    (("a1b2c3d4", 4), IndexValue, "e5", "n", ("a1b2c3d4e5", 8)),
    (("a1b2c3d4", 4), Insert, "a9", "1", ("a9b2c3d4", 4)), (("a9b2c3d4", 4), DropEntry, "a", "9", ("a9b2c3d4", 4)),
    (("a9b2c3d4", 4), DropCopy, "a", "9", ("a9b2c3d4", 4)),
    (("a9b2c3d4", 4), IndexOrInsert, "a1", "9", ("a1b2c3d4", 4)),
    (("a1b2c3d4", 4), Write, "a1", "8", ("a1b2c3d4", 4)), (("a1b2c3d4", 4), GetMut, "b2", "2", ("a1b2c3d4", 4)),
    (("a1b2c3d4", 4), ValueAtMut(2), "?3", "3", ("a1b2c3d4", 4)),
    (("a1b2c3d4", 4), IndexMut, "b2", "2", ("a1b2c3d4", 4)), (("a1b2c3d4", 4), Reserve(0), "", "", ("a1b2c3d4", 4)),
    (("a1b2c3d4", 4), ShrinkToFit, "", "", ("a1b2c3d4", 4)), (("a1b2c3d4", 4), RemoveEntry, "d", "4", ("a1b2c3", 4)),
    (("a1b2c3", 4), Reserve(1), "", "", ("a1b2c3", 4)), (("a1b2c3", 4), Enter, "e5", "", ("a1b2c3e5", 4)),
    (("a1b2c3e5", 4), ShiftRemove, "e", "5", ("a1b2c3", 4)), (("a1b2c3", 4), Enter, "e5", "", ("a1b2c3e5", 4)),
    (("a1b2c3e5", 4), RetainOthers, "e", "", ("a1b2c3", 4)), (("a1b2c3", 4), OrInsert, "d4", "4", ("a1b2c3d4", 4)),
    (("a1b2c3d4", 4), Remove, "e", "", ("a1b2c3d4", 4)), (("a1b2c3d4", 4), TakeEntry, "d", "4", ("a1b2c3", 4)),
    (("a1b2c3", 4), TakeEntry, "d", "", ("a1b2c3", 4)), (("a1b2c3", 4), OrInsertWith, "d4", "4", ("a1b2c3d4", 4)),
    (("a1b2c3d4", 4), Extend, "a1", "", ("a1b2c3d4", 4)), (("a1", 1), Clear, "", "", ("", 1)),
    (("", 1), Enter, "a1", "", ("a1", 1)), (("AlBl", 4), RetainOthers, "B", "", ("Al", 4)),
    (("AlBl", 4), Clear, "", "", ("", 4)), (("Bl", 4), Clear, "", "", ("", 4)),
    (("AlBl", 4), Remove, "A", "l", ("Bl", 4)), (("Bl", 4), ShiftRemove, "B", "l", ("", 4)),
    (("AlBl", 4), DropEntry, "C", "", ("AlBl", 4)), (("AlBl", 4), Extend, "AlBl", "", ("AlBl", 4)),
    (("AlBl", 4), Overlay, "AlBl", "", ("AlBl", 4)), (("AlBl", 4), IndexOrInsert, "Al", "l", ("AlBl", 4)),
    (("AlBl", 4), OrInsert, "Al", "l", ("AlBl", 4)), (("AlBl", 4), EntryRemove, "B", "l", ("Al", 4)),
];

/// Returns the name of the key with this letter, or `?` for an unknown letter.
fn name_of(letter: u8) -> &'static str {
    if let b'A'..=b'K' = letter {
        return LONG[usize::from(letter - b'A')];
    }
    for name in &SHORT {
        if name.bytes().next() == Some(letter) {
            return name;
        }
    }
    "?"
}

/// Returns the key's name and the value's letter of an entry, or `?` and `n` if it is missing.
fn pair_at(letters: &str, index: usize) -> (&'static str, u8) {
    let first = index.wrapping_mul(2);
    let letters = letters.as_bytes();
    let letter = letters.get(first.wrapping_add(1)).copied();
    let name = letters.get(first).copied();
    (name_of(name.unwrap_or(b'?')), letter.unwrap_or(b'n'))
}

type Pair = (IString, IValue);

fn pair_of(rt: &impl Abort, alloc: Global, letters: &str, index: usize) -> Pair {
    let (name, letter) = pair_at(letters, index);
    (key(rt, alloc, name), value_of(rt, alloc, letter))
}

/// Returns an object with the entries that `letters` denote, and the capacity `capacity`.
fn spelled(rt: &impl Abort, alloc: Global, (letters, capacity): (&str, usize)) -> IObject {
    let mut object = granted!(rt; ReserveError::Memory; IObject::with_capacity(alloc, capacity));
    for index in 0..letters.len() / 2 {
        let (key, value) = pair_of(rt, alloc, letters, index);
        drop(object.insert(key, value).expect(rt, "room"));
    }
    object
}

fn is_pair(pair: Option<(&IString, &IValue)>, name: &str, letter: u8) -> bool {
    matches!(pair, Some((key, value)) if key.eq_str(name) && letter_of(value) == letter)
}

/// Asserts that each call that finds an entry finds `name` at `index`, with the value of `letter`.
fn has_pair(rt: &impl Abort, object: &IObject, index: usize, name: &str, letter: u8) {
    assert!(*rt; object.get_index_of(name) == Some(index) && object.contains_key(name));
    assert!(*rt; letter_of(&object[name]) == letter);
    assert!(*rt; object.get(name).map(letter_of) == Some(letter));
    assert!(*rt; is_pair(object.get_index(index), name, letter));
    assert!(*rt; is_pair(object.get_key_value(&name), name, letter));
}

/// Asserts that `object` has exactly the first `len` entries of `letters`, and its capacity.
fn holds_first(rt: &impl Abort, object: &IObject, len: usize, (letters, capacity): (&str, usize)) {
    assert!(*rt; object.len() == len && object.capacity() == capacity);
    assert!(*rt; object.is_empty() == (len == 0));
    let (mut pairs, mut keys, mut values) = (object.iter(), object.keys(), object.values());
    for index in 0..len {
        let left = len - index;
        let (name, letter) = pair_at(letters, index);
        assert!(*rt; pairs.len() == left && keys.len() == left && values.len() == left);
        assert!(*rt; is_pair(pairs.next(), name, letter));
        assert!(*rt; matches!(keys.next(), Some(key) if key.eq_str(name)));
        assert!(*rt; values.next().map(letter_of) == Some(letter));
        has_pair(rt, object, index, name, letter);
    }
    assert!(*rt; pairs.next().is_none() && pairs.next().is_none());
    assert!(*rt; keys.next().is_none() && values.next().is_none());
    assert!(*rt; object.get_index(len).is_none() && object.get_index_of("?").is_none());
    assert!(*rt; object.get("?").is_none() && object.get_key_value("?").is_none());
}

/// Asserts the entries of `object`, by each call that reads them, and its capacity.
fn holds(rt: &impl Abort, object: &IObject, state: (&str, usize)) {
    holds_first(rt, object, state.0.len() / 2, state);
}

/// The letter of the value that a call returns, if any.
type Reply = Option<u8>;

/// Asserts that the removed entry `pair` has the key `name`, and returns the letter of its value.
fn removed(rt: &impl Abort, pair: Option<Pair>, name: &str) -> Reply {
    let (key, value) = pair?;
    assert!(*rt; key.eq_str(name));
    drop(key);
    letter_in(Some(value))
}

/// Replaces the value in `place`, if any, and returns the letter of the old value.
fn written(place: Option<&mut IValue>, value: IValue) -> Reply {
    match place {
        Some(place) => letter_in(Some(mem::replace(place, value))),
        None => {
            drop(value);
            None
        }
    }
}

/// Replaces the key `old` by `new`. Returns `m` if `old` is missing, and `e` if `new` exists.
fn replaced(rt: &impl Abort, object: &mut IObject, [old, name]: [&str; 2], new: IString) -> Reply {
    let (why, key, returned) = match object.replace_key(old, new) {
        Ok(key) => (None, key, old),
        Err(RefusedReplacement::Missing(key)) => (Some(b'm'), key, name),
        Err(RefusedReplacement::Exists(key)) => (Some(b'e'), key, name),
    };
    assert!(*rt; key.eq_str(returned));
    drop(key);
    why
}

/// Makes the call of `row`, which cannot fail, and returns its reply.
fn changed(rt: &impl Abort, object: &mut IObject, row: Row, key: &IString, value: IValue) -> Reply {
    let (name, _) = pair_at(row.2, 0);
    match row.1 {
        GetMut => return written(object.get_mut(key), value),
        ValueAtMut(index) => return written(object.value_at_mut(index), value),
        GetKeyValueMut => {
            let found = object.get_key_value_mut(name);
            return written(found.map(|found| found.1), value);
        }
        IndexMut => {
            assert!(*rt; object.contains_key(name));
            return letter_in(Some(mem::replace(&mut object[name], value)));
        }
        _ => drop(value),
    }
    match row.1 {
        Remove => return letter_in(object.remove(name)),
        RemoveEntry => return removed(rt, object.remove_entry(key), name),
        ShiftRemove => return letter_in(object.shift_remove(&name)),
        ShiftRemoveEntry => return removed(rt, object.shift_remove_entry(name), name),
        RetainOthers => object.retain(|key, _value| !key.eq_str(name)),
        _ => object.clear(),
    }
    None
}

/// The reply of a call, or the entry passed to the call if an allocation failed.
type Answer = Result<Reply, RefusedPair>;

fn back((key, value): Pair, why: ReserveError) -> RefusedPair {
    RefusedPair { key, value, why }
}

/// Moves `object` into a value, writes the value of a key through it, and moves the object back.
fn put_in(rt: &impl Abort, alloc: Global, object: &mut IObject, row: Row, pair: Pair) -> Answer {
    let mut outer = IValue::from(mem::replace(object, IObject::new(alloc)));
    assert!(*rt; outer.is_object());
    let (key, value) = pair;
    let place = match row.1 {
        IndexContent => outer.index_or_insert(key),
        IndexValue => IValue::index_or_insert(&mut outer, key),
        _ => {
            let inner = outer.as_object_mut().expect(rt, "an object");
            inner.index_or_insert(key)
        }
    };
    let answer = match place {
        Ok(place) => Ok(written(Some(place), value)),
        Err(refused) => {
            drop(refused.value);
            Err(back((refused.key, value), refused.why))
        }
    };
    set(object, outer.into_object().expect(rt, "an object"));
    answer
}

fn seven(place: &mut IValue) {
    set(place, IValue::from(7u8));
}

/// Writes 8 and `value` to an occupied `Entry` with the value 7, and removes it for `WriteRemove`.
fn overwritten(rt: &impl Abort, entry: Entry<'_>, call: Call, value: IValue) -> Reply {
    match entry {
        Entry::Occupied(mut entry) => {
            let letter = letter_of(&value);
            assert!(*rt; letter_of(entry.get()) == b'7');
            set(entry.get_mut(), IValue::from(8u8));
            let former = letter_in(Some(entry.insert(value)));
            assert!(*rt; letter_of(entry.get()) == letter);
            match call {
                WriteRemove => assert!(*rt; letter_in(Some(entry.remove())) == Some(letter)),
                _ => drop(entry),
            }
            former
        }
        entry => {
            drop((entry, value));
            None
        }
    }
}

/// Fills, removes or drops an `Entry`.
fn opened(rt: &impl Abort, entry: Entry<'_>, call: Call, name: &str, value: IValue) -> Reply {
    match entry {
        Entry::Vacant(entry) => {
            assert!(*rt; entry.key().eq_str(name));
            match call {
                Enter => set(entry.insert(IValue::NULL), value),
                TakeEntry => return removed(rt, Some((entry.into_key(), value)), name).and(None),
                _ => drop((entry, value)),
            }
            None
        }
        Entry::Occupied(entry) => {
            drop(value);
            assert!(*rt; entry.key().eq_str(name));
            let letter = letter_of(entry.get());
            match call {
                TakeEntry => return removed(rt, Some(entry.remove_entry()), name),
                EntryRemove => drop(entry.remove()),
                _ => drop(entry),
            }
            Some(letter)
        }
    }
}

/// Makes the call of `row` on `entry`. A closure must be called only if its result is needed.
fn entered(rt: &impl Abort, entry: Entry<'_>, row: Row, value: IValue, is_present: bool) -> Reply {
    let (name, _) = pair_at(row.2, 0);
    assert!(*rt; entry.key().eq_str(name));
    let (mut changes, mut defaults) = (0usize, 0usize);
    let place = match row.1 {
        OrInsert => return Some(letter_of(entry.or_insert(value))),
        OrInsertWith => entry.or_insert_with(|| {
            defaults = defaults.wrapping_add(1);
            value
        }),
        AndModify => {
            let entry = entry.and_modify(|place| {
                changes = changes.wrapping_add(1);
                set(place, IValue::from(5u8));
            });
            entry.or_insert(value)
        }
        Write | WriteRemove => {
            return overwritten(rt, entry.and_modify(seven), row.1, value);
        }
        _ => return opened(rt, entry, row.1, name, value),
    };
    let letter = letter_of(place);
    let wanted = match row.1 {
        AndModify => (usize::from(is_present), 0),
        _ => (0, usize::from(!is_present)),
    };
    assert!(*rt; (changes, defaults) == wanted);
    Some(letter)
}

/// Makes the call of `row` for a key: on its `Entry`, or on `object` if the call cannot fail.
fn by_key(rt: &impl Abort, object: &mut IObject, row: Row, (key, value): Pair) -> Answer {
    let is_present = object.contains_key(&key);
    let reply = match row.1 {
        OrInsert | AndModify | Enter | TakeEntry | EntryRemove | DropEntry => {
            return match object.entry(key) {
                Ok(entry) => Ok(entered(rt, entry, row, value, is_present)),
                Err(RefusedKey { key, why }) => Err(back((key, value), why)),
            };
        }
        OrInsertWith | DropCopy | Write | WriteRemove => match object.entry_or_clone(&key) {
            Ok(entry) => entered(rt, entry, row, value, is_present),
            Err(why) => return Err(back((key, value), why)),
        },
        _ => changed(rt, object, row, &key, value),
    };
    drop(key);
    Ok(reply)
}

/// Returns `false` if an allocation failed, and asserts that `answer` has no other error.
fn is_granted(rt: &impl Abort, answer: Result<(), ReserveError>) -> bool {
    assert!(*rt; answer == Ok(()) || answer == Err(ReserveError::Memory));
    answer.is_ok()
}

/// Makes the call of `row` once. A call that takes no entry drops `pair`.
fn called(rt: &impl Abort, alloc: Global, object: &mut IObject, row: Row, pair: Pair) -> Answer {
    let is_done = match row.1 {
        Insert => return Ok(letter_in(object.insert(pair.0, pair.1)?)),
        ShiftInsert(index) => {
            assert!(*rt; index <= object.len());
            return Ok(letter_in(object.shift_insert(index, pair.0, pair.1)?));
        }
        IndexOrInsert | IndexContent | IndexValue => {
            return put_in(rt, alloc, object, row, pair);
        }
        Reserve(additional) => is_granted(rt, object.reserve(additional)),
        ShrinkToFit => is_granted(rt, object.shrink_to_fit()),
        CloneOf => is_set(object, object.clone()),
        ReplaceKey(old) => {
            let names = [name_of(old), pair_at(row.2, 0).0];
            drop(pair.1);
            return Ok(replaced(rt, object, names, pair.0));
        }
        _ => return by_key(rt, object, row, pair),
    };
    if is_done {
        drop(pair);
        Ok(None)
    } else {
        Err(back(pair, ReserveError::Memory))
    }
}

/// Asserts that `refused` returns the entry at `index` because an allocation failed.
fn is_back(rt: &impl Abort, refused: &RefusedPair, letters: &str, index: usize) {
    let (name, letter) = pair_at(letters, index);
    assert!(*rt; refused.why == ReserveError::Memory);
    assert!(*rt; refused.key.eq_str(name) && letter_of(&refused.value) == letter);
}

/// Makes the call of `row`, and repeats it after an error, which must leave the object unchanged.
fn made(rt: &impl Abort, alloc: Global, object: &mut IObject, row: Row, pair: Pair) -> Reply {
    match called(rt, alloc, object, row, pair) {
        Ok(letter) => letter,
        Err(refused) => {
            is_back(rt, &refused, row.2, 0);
            holds(rt, object, row.0);
            let again = called(rt, alloc, object, row, (refused.key, refused.value));
            again.expect(rt, "an answer")
        }
    }
}

fn added(object: &mut IObject, call: Call, pairs: IObject) -> Result<(), RefusedPair> {
    match call {
        Overlay => object.overlay(pairs),
        _ => object.extend(pairs),
    }
}

/// Adds `pairs` to `object`. After a failed call, which is repeated, the object must be full and
/// contain the entries before the returned entry.
fn adds(rt: &impl Abort, alloc: Global, object: &mut IObject, row: Row, pairs: IObject) {
    if let Err(refused) = added(object, row.1, pairs) {
        let len = object.len();
        holds_first(rt, object, len, (row.4.0, len));
        is_back(rt, &refused, row.4.0, len);
        drop(refused);
        let pairs = spelled(rt, alloc, (row.2, row.2.len() / 2));
        added(object, row.1, pairs).expect(rt, "the entries");
    }
}

/// Makes the call of `row`, and asserts its reply and the state after it.
fn makes(rt: &impl Abort, alloc: Global, object: &mut IObject, row: Row) {
    let adds_pairs = matches!(row.1, Extend | Overlay);
    let added = if adds_pairs { row.2 } else { "" };
    let pairs = spelled(rt, alloc, (added, added.len() / 2));
    let pair = pair_of(rt, alloc, row.2, 0);
    let is_quiet = row.0.1 == row.4.1;
    if is_quiet {
        begin_count(alloc);
    }
    if adds_pairs {
        drop(pair);
        adds(rt, alloc, object, row, pairs);
    } else {
        drop(pairs);
        assert!(*rt; made(rt, alloc, object, row, pair) == row.3.bytes().next());
    }
    holds(rt, object, row.4);
    if is_quiet {
        end_count(alloc, 0);
    }
}

/// Asserts that `object` equals a new object of its entries, and moves them out without allocating.
fn ends(rt: &impl Abort, alloc: Global, object: IObject, letters: &str) {
    let same = spelled(rt, alloc, (letters, letters.len() / 2));
    are_same(rt, alloc, &object, &same);
    drop(same);
    begin_count(alloc);
    let mut pairs = object.into_iter();
    for index in 0..letters.len() / 2 {
        let left = letters.len() / 2 - index;
        let (name, letter) = pair_at(letters, index);
        assert!(*rt; pairs.size_hint() == (left, Some(left)) && pairs.len() == left);
        assert!(*rt; removed(rt, pairs.next(), name) == Some(letter));
    }
    assert!(*rt; removed(rt, pairs.next(), "").is_none());
    drop(pairs);
    end_count(alloc, 0);
}

/// Makes the calls of `ROWS` on one object, which is replaced if a row begins in another state.
#[test]
fn calls(rt: HostRuntime) {
    let alloc = rt.alloc();
    let mut object = IObject::new(alloc);
    let mut state = ("", 0);
    for &row in &ROWS {
        if row.0 != state {
            let former = mem::replace(&mut object, spelled(&rt, alloc, row.0));
            ends(&rt, alloc, former, state.0);
        }
        makes(&rt, alloc, &mut object, row);
        state = row.4;
    }
    ends(&rt, alloc, object, state.0);
}
