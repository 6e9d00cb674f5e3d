//! Tests of the slots of tables, and of numbers of inspections.

use super::Step::*;
use super::sizes::{fill, listed};
use super::*;

/// Returns `true` if each lookup of `key` finds the index `at`, or no entry if `at` is `None`.
/// `locate` and `get_counted` must make `count` inspections each.
fn finds<H: KeyHash>(table: &Table<u64, H>, key: &str, at: Option<usize>, count: u128) -> bool {
    if table.len() > 1000 {
        return false;
    }
    let (mut looks, mut looks_of_get) = (Looks::new(), Looks::new());
    locate(table, key, &mut looks) == at
        && table.get_counted(key, &mut looks_of_get).is_some() == at.is_some()
        && table.get_index_of(key) == at
        && [looks.count(), looks_of_get.count()] == [count, count]
}

/// Returns `true` if the slots of `table` contain `positions`, with 9 for an empty slot.
fn has_positions<P: Places>(table: &P, positions: &[usize]) -> bool {
    if table.places() != positions.len() {
        return false;
    }
    for slot in 0..table.places() {
        let position = match table.look(slot, "", &mut Looks::new()) {
            Seen::Empty => 9,
            Seen::Resident { at, .. } => at,
        };
        if positions[slot] != position {
            return false;
        }
    }
    true
}

/// A step, its reply's debug output, the indices in the slots, and the inspections of a `Find`.
type Worked = (Step, &'static str, &'static [usize], u128);

const A_REMOVED: &str = "Removed(Some((\"a\", 0)))";

const AAAA_REMOVED: &str = "Removed(Some((\"aaaa\", 0)))";

#[rattlefmt::skip]
static BY_LENGTH: [Worked; 36] = [
    // keys of two lengths
    (Put("a", 0), "Added", &[9, 0, 9, 9, 9], 0), (Put("bb", 1), "Added", &[9, 0, 1, 9, 9], 0),
    (Put("c", 2), "Added", &[9, 0, 2, 1, 9], 0), (Put("dd", 3), "Added", &[9, 0, 2, 1, 3], 0),
    (Find("dd"), "Found(Some(3))", &[9, 0, 2, 1, 3], 3), (Find("z"), "Found(None)", &[9, 0, 2, 1, 3], 3),
    (Find("zz"), "Found(None)", &[9, 0, 2, 1, 3], 4),
    // `Remove` moves the last entry into the gap; `ShiftRemove` shifts all entries after the gap
    (Remove("a"), A_REMOVED, &[9, 2, 1, 0, 9], 0), (Find("dd"), "Found(Some(0))", &[9, 2, 1, 0, 9], 2),
    (Find("bb"), "Found(Some(1))", &[9, 2, 1, 0, 9], 1), (Find("c"), "Found(Some(2))", &[9, 2, 1, 0, 9], 1),
    (Clear, "Done", &[9, 9, 9, 9, 9], 0), (Put("a", 0), "Added", &[9, 0, 9, 9, 9], 0),
    (Put("bb", 1), "Added", &[9, 0, 1, 9, 9], 0), (Put("c", 2), "Added", &[9, 0, 2, 1, 9], 0),
    (Put("dd", 3), "Added", &[9, 0, 2, 1, 3], 0), (ShiftRemove("a"), A_REMOVED, &[9, 1, 0, 2, 9], 0),
    (Find("bb"), "Found(Some(0))", &[9, 1, 0, 2, 9], 1), (Find("c"), "Found(Some(1))", &[9, 1, 0, 2, 9], 1),
    (Find("dd"), "Found(Some(2))", &[9, 1, 0, 2, 9], 2), (Clear, "Done", &[9, 9, 9, 9, 9], 0),
    (Shrink, "Done", &[], 0),
    // residents wrap around; when the table grows, residents of one home slot keep their order
    (Put("aaaa", 0), "Added", &[9, 9, 9, 9, 0], 0), (Put("bbbb", 1), "Added", &[1, 9, 9, 9, 0], 0),
    (Put("cccc", 2), "Added", &[1, 2, 9, 9, 0], 0), (Put("dddd", 3), "Added", &[1, 2, 3, 9, 0], 0),
    (Put("eeee", 4), "Added", &[9, 9, 9, 9, 0, 1, 2, 3, 4, 9], 0),
    (Clear, "Done", &[9, 9, 9, 9, 9, 9, 9, 9, 9, 9], 0), (Shrink, "Done", &[], 0),
    (Put("aaaa", 0), "Added", &[9, 9, 9, 9, 0], 0), (Put("bbbb", 1), "Added", &[1, 9, 9, 9, 0], 0),
    (Put("ccccc", 2), "Added", &[1, 2, 9, 9, 0], 0), (Remove("aaaa"), AAAA_REMOVED, &[0, 9, 9, 9, 1], 0),
    (Find("ccccc"), "Found(Some(0))", &[0, 9, 9, 9, 1], 1), (Find("bbbb"), "Found(Some(1))", &[0, 9, 9, 9, 1], 1),
    (Find("dddd"), "Found(None)", &[0, 9, 9, 9, 1], 2),
];

/// Steps on a table that grows, and whose keys all have the same home slot.
static GROWS: [Worked; 8] = [
    (Find("a"), "Found(None)", &[], 0),
    (Reserve(0), "Done", &[], 0),
    (Put("a", 0), "Added", &[0, 9, 9, 9, 9], 0),
    (Put("b", 1), "Added", &[0, 1, 9, 9, 9], 0),
    (Put("c", 2), "Added", &[0, 1, 2, 9, 9], 0),
    (Put("d", 3), "Added", &[0, 1, 2, 3, 9], 0),
    (Put("e", 4), "Added", &[0, 1, 2, 3, 4, 9, 9, 9, 9, 9], 0),
    (Find("z"), "Found(None)", &[0, 1, 2, 3, 4, 9, 9, 9, 9, 9], 6),
];

/// Steps on a table that is created with capacity for one entry.
static ONE_SLOT: [Worked; 3] = [
    (Put("a", 0), "Added", &[0], 0),
    (Find("a"), "Found(Some(0))", &[0], 1),
    (Find("b"), "Found(None)", &[0], 1),
];

/// Steps on a table that is created with capacity for three entries, so that all slots are filled.
static THREE_SLOTS: [Worked; 7] = [
    (Put("a", 0), "Added", &[0, 9, 9], 0),
    (Put("b", 1), "Added", &[0, 1, 9], 0),
    (Put("c", 2), "Added", &[0, 1, 2], 0),
    (Find("z"), "Found(None)", &[0, 1, 2], 3),
    (Remove("a"), A_REMOVED, &[1, 0, 9], 0),
    (Find("c"), "Found(Some(0))", &[1, 0, 9], 2),
    (Find("b"), "Found(Some(1))", &[1, 0, 9], 1),
];

/// Steps on a table of five slots. `FixedHash` selects the home slots 2, 3, 4, 0 for a, b, c, d.
static HOMES_OF_FIVE: [Worked; 5] = [
    (Put("a", 0), "Added", &[9, 9, 0, 9, 9], 0),
    (Put("b", 1), "Added", &[9, 9, 0, 1, 9], 0),
    (Put("c", 2), "Added", &[9, 9, 0, 1, 2], 0),
    (Put("d", 3), "Added", &[3, 9, 0, 1, 2], 0),
    (Find("d"), "Found(Some(3))", &[3, 9, 0, 1, 2], 1),
];

/// Steps on a table of three slots. `FixedHash` selects the home slots 1, 2, 0, 0 for a, b, c, d.
static HOMES_OF_THREE: [Worked; 5] = [
    (Put("a", 0), "Added", &[9, 0, 9], 0),
    (Put("b", 1), "Added", &[9, 0, 1], 0),
    (Put("c", 2), "Added", &[2, 0, 1], 0),
    (Find("b"), "Found(Some(1))", &[2, 0, 1], 1),
    (Find("d"), "Found(None)", &[2, 0, 1], 2),
];

/// Asserts the effect of each step of `rows` on `table`, which is empty at first.
fn follows<H: KeyHash + Drop>(rt: &impl Host, mut table: Table<u64, H>, rows: &[Worked]) {
    for (step, want, positions, looks) in rows {
        replies(rt, &mut table, *step, Way::Run, want);
        assert!(*rt; counted!(rt.alloc(); has_positions(&table, positions)));
        if let Find(key) = step {
            let position = table.position(key);
            assert!(*rt; counted!(rt.alloc(); finds(&table, key, position, *looks)));
        }
    }
    drop(table);
}

#[test]
fn tables_slot_by_slot(rt: HostRuntime) {
    follows::<ByLength>(&rt, Table::new(rt.alloc()), &BY_LENGTH);
    follows::<AlwaysZero>(&rt, Table::new(rt.alloc()), &GROWS);
    follows::<AlwaysZero>(&rt, roomy(&rt, 1), &ONE_SLOT);
    follows::<AlwaysZero>(&rt, roomy(&rt, 3), &THREE_SLOTS);
    follows::<FixedHash>(&rt, Table::new(rt.alloc()), &HOMES_OF_FIVE);
    follows::<FixedHash>(&rt, roomy(&rt, 3), &HOMES_OF_THREE);
}

/// A table has five slots for every four entries of its capacity.
#[test]
fn hashes_and_slots(rt: HostRuntime) {
    for (capacity, slots) in [(0, 0), (1, 1), (3, 3), (4, 5), (8, 10), (10, 12)] {
        let table: Crowded = roomy(&rt, capacity);
        assert!(rt; table.capacity() == capacity && table.places() == slots);
        drop(table);
    }
    assert!(rt; FixedHash::hash("") == 0xcbf2_9ce4_8422_2325);
    assert!(rt; FixedHash::hash("a") == 0xaf63_bd4c_8601_b840);
    let table: Fixed = roomy(&rt, 4);
    assert!(rt; table.places() > 0 && table.home("d") == 0);
    drop(table);
}

/// Inserts `key`, and returns the number of inspections.
fn insertion(table: &mut Table<u64, ByLength>, key: IString) -> Result<u128, ReserveError> {
    let mut looks = Looks::new();
    table.insert_counted(key, 7, &mut looks)?;
    Ok(looks.count())
}

/// The first key is inserted twice. Filling the slots again after growth is not counted.
#[test]
fn insertions_count_their_looks(rt: HostRuntime) {
    let (rt, mut table) = (&rt, Table::new(rt.alloc()));
    for (letters, count) in [("a", 0), ("bb", 1), ("c", 2), ("dd", 3), ("a", 1)] {
        let looks =
            granted!(rt; ReserveError::Memory; insertion(&mut table, key(rt, rt.alloc(), letters)));
        assert!(*rt; looks == count);
    }
    drop(table);
}

/// With one home slot, the lookup of a key inspects its slot and the slots of the keys inserted
/// before it. The lookup of a missing key inspects the slots of all keys and one more slot.
#[test]
fn lookups_count_each_slot(rt: HostRuntime) {
    for count in [20u16, 200] {
        let mut table: Crowded = roomy(&rt, usize::from(count));
        let pairs = listed(&rt, count, false);
        let before = pairs.get(..usize::from(count)).expect(&rt, "the entries");
        fill(&rt, &mut table, before, true);
        for (at, (key, _)) in before.iter().enumerate() {
            assert!(rt; finds(&table, key.as_str(), Some(at), at as u128 + 1));
        }
        assert!(rt; finds(&table, "z", None, u128::from(count) + 1));
        drop(table);
        drop(pairs);
    }
}

/// Lists of keys, whose values are their indices, each with the debug output of its table. A
/// duplicate key keeps its first index and its last value.
static MADE: [(&[&str], &str); 4] = [
    (&[], "{}"),
    (&["a", "b", "c"], r#"{"a": 0, "b": 1, "c": 2}"#),
    (&["a", "b", "a", "c"], r#"{"a": 2, "b": 1, "c": 3}"#),
    (
        &["a long key", "b", "a long key", "one more key", "b"],
        r#"{"a long key": 2, "b": 4, "one more key": 3}"#,
    ),
];

/// Returns a table built from a list of `keys` with spare capacity.
fn made(rt: &impl Host, keys: &[&str]) -> Result<Fixed, ReserveError> {
    let mut pairs = granted!(rt; Vec::with_capacity(rt.alloc(), 9));
    for (letters, value) in keys.iter().zip(0..) {
        let key = key(rt, rt.alloc(), letters);
        pairs.push((key, value)).expect(rt, "room");
    }
    Table::from_pairs(rt.alloc(), pairs)
}

#[test]
fn a_table_made_of_a_list_has_no_spare_capacity(rt: HostRuntime) {
    let rt = &rt;
    for (keys, want) in &MADE {
        let table = granted!(rt; ReserveError::Memory; made(rt, keys));
        is_shown(rt, rt.alloc(), &table, want);
        assert!(*rt; holds(&table, table.as_slice(), keys.len()));
        assert!(*rt; table.places() == keys.len() + keys.len() / 4);
        drop(table);
    }
}
