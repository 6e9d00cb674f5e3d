//! Tests of stores of many sizes that grow, shrink and are copied. Many sizes are tried, since no
//! clause states that a call succeeds if memory is available.

use super::Step::*;
use super::*;

/// A hash that is 2500 for a key of even length, and 1 for odd length. The home slots are 0 and 1
/// in a table of 2,500 slots, but 2500 and 1 in a table of 5,000 slots.
#[derive(Drop)]
pub struct ByParity;

impl KeyHash for ByParity {
    ghost use Rattle.std.specs.Prelude.{◌*◌, ◌-◌, ◌%◌, length};

    ghost hash_of = { λ text. 2500 - 2499 * (length text % 2) };

    fn hash(text: &str) -> u64 {
        2_500 - 2_499 * (text.len() as u64 % 2)
    }
}

/// Returns the entries of the numbers from 0 to `count`. If `is_mixed` is set, the keys of even
/// numbers below `count` are longer.
pub fn listed(rt: &impl Host, count: u16, is_mixed: bool) -> Vec<Entry> {
    let mut pairs = granted!(rt; Vec::with_capacity(rt.alloc(), usize::from(count) + 1));
    for number in 0..=count {
        let is_longer = is_mixed && number % 2 == 0 && number < count;
        let key = numbered(rt, number, is_longer);
        pairs.push((key, u64::from(number))).expect(rt, "room");
    }
    pairs
}

/// Adds `pairs` within the capacity of `store`: by `insert` if `inserts`, otherwise by `push_new`.
pub fn fill<S: Store>(rt: &impl Host, store: &mut S, pairs: &[Entry], inserts: bool) {
    for (key, value) in pairs {
        let key = key.clone().expect(rt, "a key");
        if inserts {
            assert!(*rt; store.put(key, *value).expect(rt, "room").is_none());
        } else {
            assert!(*rt; store.position(key.as_str()).is_none() && store.len() < store.capacity());
            store.push_new(key, *value);
        }
    }
}

/// Asserts the entries and the capacity of `store`, and of a copy if the store is a table.
fn is_kept<S: Store>(rt: &impl Host, store: &S, pairs: &[Entry], capacity: usize) {
    assert!(*rt; counted!(rt.alloc(); holds(store, pairs, capacity)));
    if let Some(copy) = store.copy(rt) {
        assert!(*rt; holds(&copy, pairs, pairs.len()));
        drop(copy);
    }
}

/// Asserts that `store`, with all but the last of `pairs`, can grow, shrink and add the last.
fn resizes<S: Store>(rt: &impl Host, mut store: S, pairs: &[Entry], capacity: usize) {
    let (last, before) = pairs.split_last().expect(rt, "an entry");
    let (number, len) = (u16::try_from(last.1).expect(rt, "a number"), before.len());
    is_kept(rt, &store, before, capacity);
    let grows = Reserve(capacity.saturating_sub(len).saturating_add(1));
    replies(rt, &mut store, grows, Way::Run, "Done");
    is_kept(rt, &store, before, capacity.saturating_mul(2).max(4));
    replies(rt, &mut store, Shrink, Way::Run, "Done");
    is_kept(rt, &store, before, len);
    replies(rt, &mut store, Number(number), Way::Call, "Added");
    is_kept(rt, &store, pairs, len.saturating_mul(2).max(4));
    drop(store);
}

/// Calls `resizes` for a store with the capacity `capacity` and `count` entries. If `is_mixed` is
/// set, the keys have two lengths, and `insert` adds the entries.
pub fn fills<S: Store>(rt: &impl Host, count: u16, capacity: usize, is_mixed: bool) {
    let pairs = listed(rt, count, is_mixed);
    let (_, before) = pairs.split_last().expect(rt, "an entry");
    let mut store: S = roomy(rt, capacity);
    counted!(rt.alloc(); fill(rt, &mut store, before, is_mixed));
    resizes(rt, store, &pairs, capacity);
    drop(pairs);
}

/// Returns a table built from `pairs`, and from the first entry once more if `again` is set.
pub fn built<H: KeyHash>(
    rt: &impl Host,
    pairs: &[Entry],
    again: bool,
) -> Result<Table<u64, H>, ReserveError> {
    let mut list = copied(rt, rt.alloc(), pairs);
    if again && let Some((key, value)) = pairs.first() {
        let key = key.clone().expect(rt, "a key");
        list.push((key, *value)).expect(rt, "room");
    }
    Table::from_pairs(rt.alloc(), list)
}

/// Calls `resizes` for a table built from `count` entries, and from the first again if `again`.
pub fn builds<H: KeyHash + Drop>(rt: &impl Host, count: u16, again: bool) {
    let pairs = listed(rt, count, false);
    let (_, before) = pairs.split_last().expect(rt, "an entry");
    let table: Table<u64, H> = granted!(rt; ReserveError::Memory; built(rt, before, again));
    resizes(rt, table, &pairs, usize::from(count) + usize::from(again));
    drop(pairs);
}

/// Calls `resizes` for each kind of store with `count` entries, and for tables built from a list.
pub fn all_resize(rt: &impl Host, count: u16) {
    each_store!(fills(rt, count, usize::from(count), false));
    builds::<AlwaysZero>(rt, count, false);
    builds::<FixedHash>(rt, count, false);
}

#[test]
fn few_entries(rt: HostRuntime) {
    for count in [0, 1, 4, 9] {
        all_resize(&rt, count);
    }
}

#[test]
fn more_entries(rt: HostRuntime) {
    let rt = &rt;
    fills::<LinearPairs<u64>>(rt, 40, 40, false);
    fills::<Crowded>(rt, 200, 200, false);
    builds::<AlwaysZero>(rt, 5, true);
    builds::<AlwaysZero>(rt, 300, true);
    for count in [5u16, 40, 100, 200] {
        fills::<Fixed>(rt, count, usize::from(count), false);
        builds::<FixedHash>(rt, count, true);
    }
    // Tables with few and with many slots, whose keys have the same home slot.
    for (count, capacity) in [(0, 128), (1, 240), (40, 200), (61, 128), (128, 128)] {
        fills::<Crowded>(rt, count, capacity, true);
    }
}

/// Asserts that a new store grows to `capacity` and shrinks, and can be created with `capacity`,
/// but not with a capacity over the limit.
pub fn grows_far<S: Store>(rt: &impl Host, capacity: usize) {
    let mut store = S::new(rt.alloc());
    replies(rt, &mut store, Reserve(capacity), Way::Run, "Done");
    assert!(*rt; store.capacity() == capacity);
    replies(rt, &mut store, Shrink, Way::Run, "Done");
    assert!(*rt; store.capacity() == 0);
    set(&mut store, roomy(rt, capacity));
    assert!(*rt; store.capacity() == capacity);
    drop(store);
    assert!(*rt; counted!(rt.alloc(); S::with_room(rt.alloc(), 0)).is_ok());
    let past = counted!(rt.alloc(); S::with_room(rt.alloc(), 72_057_594_037_927_937));
    assert!(*rt; past.err() == Some(ReserveError::TooLarge));
}

/// Inserts `number`, with its digits as the key.
fn put_digits(rt: &impl Host, table: &mut Fixed, number: u64) -> Result<Option<u64>, ReserveError> {
    let letters = granted!(rt; format!(in rt.alloc(); "{number}"));
    let key = key(rt, rt.alloc(), &letters);
    drop(letters);
    Ok(table.insert(key, number)?)
}

/// Asserts that a table of the numbers below `count` has the capacity `capacity` and can shrink.
/// `digits` are the keys of the last two numbers, and the missing key of `count`.
pub fn takes_many(rt: &impl Host, count: usize, capacity: usize, digits: [&str; 3]) {
    let mut table = Fixed::new(rt.alloc());
    for number in 0..count as u64 {
        let put = granted!(rt; ReserveError::Memory; put_digits(rt, &mut table, number));
        assert!(*rt; put.is_none());
    }
    let (last, one_before) = (count.saturating_sub(1), count.saturating_sub(2));
    for room in [capacity, count] {
        assert!(*rt; table.len() == count && table.capacity() == room);
        assert!(*rt; table.position(digits[0]) == Some(one_before));
        assert!(*rt; table.get(digits[1]) == Some(&(last as u64)));
        assert!(*rt; table.get_index_of(digits[2]).is_none());
        granted!(rt; ReserveError::Memory; table.shrink_to_fit());
    }
    drop(table);
}

#[test]
fn room_and_numbers(rt: HostRuntime) {
    each_store!(grows_far(&rt, 300));
    takes_many(&rt, 100, 128, ["98", "99", "100"]);
}
