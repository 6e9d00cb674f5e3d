//! Tests of arrays: the result and effect of each call, also if any of its allocations fails. The
//! module `letters` has a letter for each element.
ghost use Rattle.std.specs.Prelude.{◌≡◌, [], ◌∷◌, ◌++◌, true, OnOk};
ghost use Rattle.ijson_value.specs.Values.{null_value, boolean_value};

mod large;

use super::letters::{State, letter_in, letter_of, value_of};
use crate::array::{IArray, IntoIter, Refused};
use crate::tests::hashes::are_same;
use crate::tests::shown::is_shown;
use crate::tests::support::{begin_count, end_count, is_set, set};
use crate::value::IValue;
use Call::*;
use std::alloc::{AllocError, Global};
use std::mem;
use std::process::Abort;

/// A call on an array. A call that takes elements takes the elements of its row.
#[derive(Clone, Copy)]
enum Call {
    Push,
    Insert(usize),
    /// Replaces the element at this index.
    Write(usize),
    Remove(usize),
    SwapRemove(usize),
    Pop,
    Truncate(usize),
    Clear,
    Reverse,
    /// Replaces each element by null, in a loop over mutable references.
    SetNull,
    Reserve(usize),
    ShrinkToFit,
    Extend,
    /// Replaces the array by an array of the elements, or by its copy (`FromSlice`, `CloneOf`).
    FromIter,
    FromVec,
    FromSlice,
    CloneOf,
}

/// The state before a call, the call, its elements, the returned element, and the state after it. A
/// call that keeps the capacity must not allocate.
type Row = (State, Call, &'static str, &'static str, State);

#[rattlefmt::skip]
static ROWS: [Row; 57] = [
    (("", 7), Clear, "", "", ("", 7)), (("", 0), Insert(0), "n", "", ("n", 4)), (("n", 4), Push, "t", "", ("nt", 4)),
    (("nt", 4), Insert(1), "f", "", ("nft", 4)), (("", 0), Push, "n", "", ("n", 4)),
    (("n", 4), Extend, "tfn", "", ("ntfn", 4)), (("ntfn", 4), Push, "t", "", ("ntfnt", 8)),
    (("ntfnt", 8), Extend, "fnt", "", ("ntfntfnt", 8)), (("ntfntfnt", 8), Push, "f", "", ("ntfntfntf", 16)),
    (("", 0), Remove(0), "", "", ("", 0)), (("", 0), SwapRemove(0), "", "", ("", 0)), (("", 0), Pop, "", "", ("", 0)),
    (("", 0), CloneOf, "", "", ("", 0)), (("", 0), FromSlice, "", "", ("", 0)),
    (("", 0), Extend, "012345678", "", ("012345678", 16)), (("012345678", 16), CloneOf, "", "", ("012345678", 9)),
    (("ntf", 4), SwapRemove(3), "", "", ("ntf", 4)), (("ntf", 4), Remove(3), "", "", ("ntf", 4)),
    (("ntf", 4), Remove(1), "", "t", ("nf", 4)), (("nf", 4), Pop, "", "f", ("n", 4)),
    (("ntf", 4), SwapRemove(0), "", "n", ("ft", 4)), (("ntf", 4), Truncate(5), "", "", ("ntf", 4)),
    (("ntf", 4), Truncate(1), "", "", ("n", 4)), (("n", 4), Clear, "", "", ("", 4)),
    (("", 4), ShrinkToFit, "", "", ("", 0)), (("", 0), Reserve(3), "", "", ("", 4)),
    (("", 4), Push, "0", "", ("0", 4)), (("0", 4), Push, "1", "", ("01", 4)), (("01", 4), Push, "2", "", ("012", 4)),
    (("12", 2), Insert(0), "0", "", ("012", 4)), (("012", 4), Reserve(20), "", "", ("012", 23)),
    (("012", 23), ShrinkToFit, "", "", ("012", 3)), (("012", 3), ShrinkToFit, "", "", ("012", 3)),
    (("", 0), Insert(0), "0", "", ("0", 4)), (("", 3), Clear, "", "", ("", 3)),
    (("", 3), Extend, "012", "", ("012", 3)), (("012", 3), SwapRemove(0), "", "0", ("21", 3)),
    (("21", 3), Remove(0), "", "2", ("1", 3)), (("1", 3), Reserve(2), "", "", ("1", 3)),
    (("1", 3), Insert(0), "n", "", ("n1", 3)), (("n1", 3), Pop, "", "1", ("n", 3)),
    (("n", 3), Remove(1), "", "", ("n", 3)), (("n", 3), Truncate(1), "", "", ("n", 3)),
    (("n", 3), FromIter, "nt", "", ("nt", 4)), (("nt", 4), Extend, "ff", "", ("ntff", 4)),
    (("ntff", 4), Extend, "", "", ("ntff", 4)), (("ntff", 4), Reverse, "", "", ("fftn", 4)),
    (("fftn", 4), SetNull, "", "", ("nnnn", 4)), (("nnnn", 4), FromIter, "012345678", "", ("012345678", 16)),
    (("012345678", 16), FromVec, "012", "", ("012", 4)), (("012", 4), Write(1), "l", "1", ("0l2", 4)),
    (("0l2", 4), FromSlice, "", "", ("0l2", 3)), (("0l2", 3), FromVec, "ntff", "", ("ntff", 4)),
    (("ntf", 4), SetNull, "", "", ("nnn", 4)), (("tf", 4), Reverse, "", "", ("ft", 4)),
    (("llll", 4), Truncate(3), "", "", ("lll", 4)), (("lll", 4), CloneOf, "", "", ("lll", 3)),
];

/// Returns the array of the elements that `letters` denote, with the capacity `capacity`.
fn spelled(rt: &impl Abort, alloc: Global, (letters, capacity): (&str, usize)) -> IArray {
    let mut array = granted!(rt; IArray::with_capacity(alloc, capacity));
    for letter in letters.bytes() {
        let item = value_of(rt, alloc, letter);
        array.push(item).expect(rt, "room");
    }
    array
}

/// Asserts the elements of `array`, by each call that reads them, and its capacity.
fn holds(rt: &impl Abort, array: &IArray, (letters, capacity): (&str, usize)) {
    let len = letters.len();
    assert!(*rt; array.len() == len && array.iter().len() == len && array.capacity() == capacity);
    assert!(*rt; array.is_empty() == (len == 0));
    assert!(*rt; array.as_slice().iter().map(letter_of).eq(letters.bytes()));
    for (at, letter) in letters.bytes().enumerate() {
        assert!(*rt; at < array.len() && letter_of(&array[at]) == letter);
    }
    for (item, letter) in array.into_iter().zip(letters.bytes()) {
        assert!(*rt; letter_of(item) == letter);
    }
}

/// Makes a call that cannot fail, and returns the removed element, if any.
fn changed(array: &mut IArray, call: Call) -> Option<IValue> {
    match call {
        Remove(index) => return array.remove(index),
        SwapRemove(index) => return array.swap_remove(index),
        Pop => return array.pop(),
        Truncate(len) => array.truncate(len),
        Clear => array.clear(),
        Reverse => array.as_mut_slice().reverse(),
        _ => {
            for item in &mut *array {
                set(item, IValue::NULL);
            }
        }
    }
    None
}

/// The element that a call removes, or the element passed to the call if an allocation failed.
type Answer = Result<Option<IValue>, Refused>;

/// Makes a call once. A call that takes no element drops `item`.
fn called(rt: &impl Abort, alloc: Global, array: &mut IArray, call: Call, item: IValue) -> Answer {
    let is_done = match call {
        Push => return array.push(item).and(Ok(None)),
        Insert(index) => {
            assert!(*rt; index <= array.len());
            return array.insert(index, item).and(Ok(None));
        }
        Write(index) => {
            assert!(*rt; index < array.len());
            return Ok(Some(mem::replace(&mut array[index], item)));
        }
        Reserve(more) => array.reserve(more).is_ok(),
        ShrinkToFit => array.shrink_to_fit().is_ok(),
        CloneOf => is_set(array, array.clone()),
        FromSlice => is_set(array, IArray::from_slice(alloc, array.as_slice())),
        _ => {
            drop(item);
            return Ok(changed(array, call));
        }
    };
    if is_done {
        drop(item);
        Ok(None)
    } else {
        Err(Refused(item))
    }
}

/// Makes the call of `row`, and repeats it after an error, which must leave the array unchanged.
fn made(rt: &impl Abort, alloc: Global, array: &mut IArray, row: Row, item: IValue) -> Option<u8> {
    let letter = letter_of(&item);
    letter_in(match called(rt, alloc, array, row.1, item) {
        Ok(removed) => removed,
        Err(Refused(item)) => {
            holds(rt, array, row.0);
            assert!(*rt; letter_of(&item) == letter);
            called(rt, alloc, array, row.1, item).expect(rt, "an answer")
        }
    })
}

/// Extends `array` by `items`; `letters` denote the result. After a failed call, the array must be
/// full and contain the elements before the returned element; the others are then added.
fn extends(rt: &impl Abort, alloc: Global, array: &mut IArray, items: IArray, letters: &str) {
    if let Err(Refused(item)) = array.extend(items) {
        let len = array.len();
        assert!(*rt; len == array.capacity());
        assert!(*rt; array.iter().map(letter_of).eq(letters.bytes().take(len)));
        assert!(*rt; letters.bytes().nth(len) == Some(letter_of(&item)));
        array.push(item).expect(rt, "an element");
        let mut others = spelled(rt, alloc, (letters, letters.len())).into_iter();
        for _ in 0..=len {
            drop(others.next());
        }
        array.extend(others).expect(rt, "the others");
    }
}

/// Returns the array that `from_iter` creates. A failed call must return an element at which the
/// capacity grows: the first, fifth or ninth.
fn of_iterator(rt: &impl Abort, alloc: Global, letters: &str) -> IArray {
    match IArray::from_iter(alloc, spelled(rt, alloc, (letters, letters.len()))) {
        Ok(array) => array,
        Err(Refused(item)) => {
            let mut first = letters.bytes().step_by(4);
            assert!(*rt; first.any(|letter| letter == letter_of(&item)));
            drop(item);
            let items = spelled(rt, alloc, (letters, letters.len()));
            IArray::from_iter(alloc, items).expect(rt, "an array")
        }
    }
}

/// Returns the array that `from_vec` creates. A failed call must return the list.
fn of_list(rt: &impl Abort, alloc: Global, state: State) -> IArray {
    let list: Vec<IValue> = granted!(rt; spelled(rt, alloc, state).into_iter().collect(alloc));
    match counted!(alloc; 1; IArray::from_vec(alloc, list)) {
        Ok(array) => array,
        Err(refused) => {
            assert!(*rt; refused.value.iter().map(letter_of).eq(state.0.bytes()));
            IArray::from_vec(alloc, refused.value).expect(rt, "an array")
        }
    }
}

/// Makes the call of `row`, and asserts its result and the state after it.
fn makes(rt: &impl Abort, alloc: Global, array: &mut IArray, row: Row) {
    let (before, call, given, returned, after) = row;
    let mut items = spelled(rt, alloc, (given, given.len()));
    let is_quiet = before.1 == after.1;
    if is_quiet {
        begin_count(alloc);
    }
    match call {
        Extend => extends(rt, alloc, array, items, after.0),
        FromIter => set(array, of_iterator(rt, alloc, given)),
        FromVec => set(array, of_list(rt, alloc, after)),
        _ => {
            let item = items.pop().unwrap_or(IValue::NULL);
            assert!(*rt; made(rt, alloc, array, row, item) == returned.bytes().next());
        }
    }
    holds(rt, array, after);
    if is_quiet {
        end_count(alloc, 0);
    }
}

/// Moves `count` elements out of `array` without allocating, and returns the iterator.
fn rest_of(rt: &impl Abort, alloc: Global, array: IArray, letters: &str, count: usize) -> IntoIter {
    begin_count(alloc);
    let mut items = array.into_iter();
    for at in 0..count {
        let left = letters.len().saturating_sub(at);
        assert!(*rt; items.size_hint() == (left, Some(left)) && items.len() == left);
        assert!(*rt; letter_in(items.next()) == letters.bytes().nth(at));
    }
    end_count(alloc, 0);
    items
}

/// Asserts that `array` equals a new array of the same elements, and moves all elements out.
fn ends(rt: &impl Abort, alloc: Global, array: IArray, letters: &str) {
    let same = spelled(rt, alloc, (letters, letters.len()));
    are_same(rt, alloc, &array, &same);
    drop(same);
    drop(rest_of(rt, alloc, array, letters, letters.len()));
}

/// Makes the calls of `ROWS` on one array, which is replaced if a row begins in another state.
#[test]
fn calls(rt: HostRuntime) {
    let alloc = rt.alloc();
    let mut array = IArray::new(alloc);
    let mut state = ("", 0);
    for &row in &ROWS {
        if row.0 != state {
            let former = mem::replace(&mut array, spelled(&rt, alloc, row.0));
            ends(&rt, alloc, former, state.0);
        }
        makes(&rt, alloc, &mut array, row);
        state = row.4;
    }
    ends(&rt, alloc, array, state.0);
}

/// Elements, how many are moved out, and the debug output of the iterator over the others.
static GIVEN: [(&str, usize, &str); 5] = [
    ("tnf", 0, "IntoIter([true, null, false])"),
    ("tnf", 1, "IntoIter([null, false])"),
    ("ntf", 5, "IntoIter([])"),
    ("", 1, "IntoIter([])"),
    ("lll", 1, "IntoIter([[null], [null]])"),
];

#[test]
fn iterators(rt: HostRuntime) {
    let alloc = rt.alloc();
    for &(letters, count, shown) in &GIVEN {
        let array = spelled(&rt, alloc, (letters, letters.len()));
        let items = rest_of(&rt, alloc, array, letters, count);
        is_shown(&rt, alloc, &items, shown);
        drop(items);
    }
}

/// Returns `true` if `array` has the numbers below `len` and the capacity `capacity`.
fn counts(array: &IArray, len: usize, capacity: usize) -> bool {
    let mut numbers = array.iter().map(IValue::to_usize).enumerate();
    array.len() == len
        && array.capacity() == capacity
        && numbers.all(|(index, number)| number == Some(index))
}

/// Appends numbers to an array of the preceding numbers, until it has `count` elements.
fn pushes(rt: &impl Abort, array: &mut IArray, count: usize) {
    for number in array.len()..count {
        if let Err(Refused(item)) = array.push(IValue::from(number)) {
            assert!(*rt; item.to_usize() == Some(number) && counts(array, number, number));
            array.push(item).expect(rt, "an element");
        }
    }
}

/// Copies and shrinks an array of the numbers below `len`.
fn changes_size(rt: &impl Abort, array: &mut IArray, len: usize) {
    let copy = granted!(rt; array.clone());
    assert!(*rt; counts(&copy, len, len));
    drop(copy);
    granted!(rt; array.shrink_to_fit());
    assert!(*rt; counts(array, len, len));
}

/// Calls `changes_size` for each size below `most`, since no clause states that a call succeeds if
/// memory is available.
fn each_size(rt: &impl Abort, alloc: Global, most: usize) -> IArray {
    let mut array = IArray::new(alloc);
    for len in 0..most {
        changes_size(rt, &mut array, len);
        pushes(rt, &mut array, len + 1);
    }
    array
}

#[test]
fn sizes(rt: HostRuntime) {
    drop(each_size(&rt, rt.alloc(), 20));
    let mut array = IArray::new(rt.alloc());
    pushes(&rt, &mut array, 70_000);
    assert!(rt; counts(&array, 70_000, 131_072));
    drop(array);
}

fn edited(rt: &impl Abort, alloc: Global, item: IValue) -> IArray
    ensures { result.items ≡ boolean_value true ∷ item ∷ [] }
{
    let mut array = granted!(rt; IArray::with_capacity(alloc, 3));
    array.push(IValue::NULL).expect(rt, "room");
    array.push(item).expect(rt, "room");
    array.insert(1, IValue::FALSE).expect(rt, "room");
    drop(array.remove(0));
    array[0] = IValue::TRUE;
    array
}

fn push_three(array: &mut IArray) -> Result<(), AllocError>
    ensures { OnOk result
        (array.new.items ≡ array.old.items ++ null_value ∷ null_value ∷ null_value ∷ []) }
{
    array.reserve(3)?;
    array.push(IValue::NULL).unwrap();
    array.push(IValue::NULL).unwrap();
    array.push(IValue::NULL).unwrap();
    Ok(())
}

#[test]
fn callers(rt: HostRuntime) {
    let mut array = edited(&rt, rt.alloc(), IValue::FALSE);
    holds(&rt, &array, ("tf", 3));
    granted!(&rt; push_three(&mut array));
    holds(&rt, &array, ("tfnnn", 6));
    drop(array);
}
