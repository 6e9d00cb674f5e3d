//! Tests of all stores by one script, and by long lists of pseudorandom steps.

use super::Step::*;
use super::*;

/// Steps on a new store, each with its reply's debug output, and the length and capacity after it.
#[rattlefmt::skip]
static STEPS: [(Step, &str, usize, usize); 81] = [
    // the fifth key doubles the capacity to eight
    (Put("a", 0), "Added", 1, 4), (Put("b", 1), "Added", 2, 4), (Put("c", 2), "Added", 3, 4),
    (Put("d", 3), "Added", 4, 4), (Put("e", 4), "Added", 5, 8),
    // `ShiftRemove` keeps the order of the other entries
    (ShiftRemove("b"), "Removed(Some((\"b\", 1)))", 4, 8), (Find("a"), "Found(Some(0))", 4, 8),
    (Find("c"), "Found(Some(1))", 4, 8), (Find("e"), "Found(Some(3))", 4, 8),
    // `Remove` of the last of four entries, and of the first of three
    (Remove("e"), "Removed(Some((\"e\", 4)))", 3, 8), (Remove("a"), "Removed(Some((\"a\", 0)))", 2, 8),
    (Find("d"), "Found(Some(0))", 2, 8), (Find("c"), "Found(Some(1))", 2, 8),
    (ShiftRemove("b"), "Removed(None)", 2, 8), (Remove("b"), "Removed(None)", 2, 8),
    // `Shrink` drops spare capacity, `Reserve` fails over the limit, and `Clear` keeps the capacity
    (Shrink, "Done", 2, 2), (Reserve(usize::MAX), "NotDone(TooLarge)", 2, 2), (Clear, "Done", 0, 2),
    (Shrink, "Done", 0, 0),
    // two of three entries remain
    (Put("a", 0), "Added", 1, 4), (Put("b", 1), "Added", 2, 4), (Put("c", 2), "Added", 3, 4),
    (Remove("b"), "Removed(Some((\"b\", 1)))", 2, 4), (Shrink, "Done", 2, 2), (Find("a"), "Found(Some(0))", 2, 2),
    (Find("c"), "Found(Some(1))", 2, 2), (Clear, "Done", 0, 2), (Shrink, "Done", 0, 0),
    // three entries fit in the reserved capacity
    (Reserve(3), "Done", 0, 4), (Put("a", 0), "Added", 1, 4), (Put("bb", 1), "Added", 2, 4),
    (Put("c", 2), "Added", 3, 4), (Find("bb"), "Found(Some(1))", 3, 4), (Clear, "Done", 0, 4), (Shrink, "Done", 0, 0),
    // a key is inserted twice
    (Put("a", 1), "Added", 1, 4), (Put("a", 2), "Replaced(1)", 1, 4), (Find("a"), "Found(Some(0))", 1, 4),
    (Find("b"), "Found(None)", 1, 4), (Remove("a"), "Removed(Some((\"a\", 2)))", 0, 4), (Shrink, "Done", 0, 0),
    (Shrink, "Done", 0, 0), (Find("a"), "Found(None)", 0, 0),
    // a full store grows, shrinks and replaces a value; insertions grow the capacity to 4, 8 and 16
    (Reserve(1), "Done", 0, 4), (Put("a", 0), "Added", 1, 4), (Put("b", 1), "Added", 2, 4),
    (Put("c", 2), "Added", 3, 4), (Put("d", 3), "Added", 4, 4), (Reserve(1), "Done", 4, 8), (Shrink, "Done", 4, 4),
    (Put("a", 0), "Replaced(0)", 4, 4), (Put("e", 4), "Added", 5, 8), (Put("f", 5), "Added", 6, 8),
    (Put("g", 6), "Added", 7, 8), (Put("h", 7), "Added", 8, 8), (Put("i", 8), "Added", 9, 16),
    // `Reserve` keeps, doubles or more than doubles the capacity; `Shrink` drops spare capacity
    (Reserve(7), "Done", 9, 16), (Reserve(8), "Done", 9, 32), (Reserve(60), "Done", 9, 69), (Shrink, "Done", 9, 9),
    (Find("i"), "Found(Some(8))", 9, 9), (Clear, "Done", 0, 9), (Shrink, "Done", 0, 0),
    // without spare capacity, the order of three entries is changed and restored
    (Put("a", 1), "Added", 1, 4), (Put("b", 1), "Added", 2, 4), (Put("c", 1), "Added", 3, 4), (Shrink, "Done", 3, 3),
    (Remove("a"), "Removed(Some((\"a\", 1)))", 2, 3), (Put("a", 1), "Added", 3, 3),
    (ShiftRemove("c"), "Removed(Some((\"c\", 1)))", 2, 3), (Put("c", 1), "Added", 3, 3),
    (Find("b"), "Found(Some(0))", 3, 3), (Find("a"), "Found(Some(1))", 3, 3), (Find("c"), "Found(Some(2))", 3, 3),
    (Remove("b"), "Removed(Some((\"b\", 1)))", 2, 3), (Put("b", 1), "Added", 3, 3),
    (ShiftRemove("c"), "Removed(Some((\"c\", 1)))", 2, 3), (Put("c", 1), "Added", 3, 3),
    (Find("a"), "Found(Some(0))", 3, 3), (Find("b"), "Found(Some(1))", 3, 3), (Shrink, "Done", 3, 3),
];

/// Asserts the effect of each of `STEPS` on a new store, and moves the entries out at the end.
fn follows<S: Store>(rt: &impl Host, way: Way) {
    let mut store = counted!(rt.alloc(); S::new(rt.alloc()));
    for (step, want, len, capacity) in &STEPS {
        replies(rt, &mut store, *step, way, want);
        assert!(*rt; store.len() == *len && store.capacity() == *capacity);
    }
    let before = copied(rt, rt.alloc(), store.entries());
    let pairs = counted!(rt.alloc(); store.into_pairs());
    assert!(*rt; pairs.as_slice() == before.as_slice());
    drop(pairs);
    drop(before);
}

#[test]
fn each_store_runs_the_script(rt: HostRuntime) {
    each_store!(follows(&rt, Way::Run));
}

#[test]
fn each_store_follows_the_script(rt: HostRuntime) {
    each_store!(follows(&rt, Way::Call));
}

/// Writes values through `value_mut` and `pair_mut`, and reads the third entry.
fn writes<S: Store>(rt: &impl Host, store: &mut S) {
    assert!(*rt; store.len() == 3);
    *store.value_mut(0) = 7;
    assert!(*rt; store.len() == 3);
    let (key, value) = store.pair_mut(1);
    assert!(*rt; key.eq_str("b"));
    *value = 8;
    assert!(*rt; store.len() == 3);
    let (key, value) = store.pair(2);
    assert!(*rt; key.eq_str("c") && *value == 2);
}

/// Asserts the entries that a store returns by reference, and the entries that are moved out.
fn lends<S: Store>(rt: &impl Host) {
    let (mut store, alloc) = (S::new(rt.alloc()), rt.alloc());
    replies(rt, &mut store, Put("a", 0), Way::Run, "Added");
    replies(rt, &mut store, Put("b", 1), Way::Run, "Added");
    is_shown(rt, alloc, &store.entries(), r#"[("a", 0), ("b", 1)]"#);
    assert!(*rt; store.value_of("b") == Some(&1) && store.value_of("c").is_none());
    replies(rt, &mut store, Put("c", 2), Way::Run, "Added");
    counted!(alloc; writes(rt, &mut store));
    let pairs = counted!(alloc; store.into_pairs());
    is_shown(rt, alloc, &pairs, r#"[("a", 7), ("b", 8), ("c", 2)]"#);
    drop(pairs);
}

#[test]
fn each_store_lends(rt: HostRuntime) {
    each_store!(lends(&rt));
}

/// The keys of pseudorandom steps, separated by vertical bars. The first key is empty.
const KEYS: &str = "|a|b|c|d|e|f|aa|bb|cc|dd|ee|ff|gg|aaa|bbb|ccc|seven77|eight888|nine99999|\
    a longer key|another key|one more key|é";

/// Returns the step that the pseudorandom number `number` selects.
fn step(rt: &impl Host, number: u64) -> Step {
    let key = KEYS.split('|').nth((number >> 33) as usize % 24);
    let key = key.expect(rt, "a key");
    match (number >> 40) % 64 {
        0..=35 => Put(key, number),
        36..=43 => Find(key),
        44..=49 => Remove(key),
        50..=55 => ShiftRemove(key),
        56..=59 => Reserve((number >> 20) as usize % 12),
        60..=61 => Shrink,
        _ => Clear,
    }
}

/// Asserts that a store and a list agree on each of `count` pseudorandom steps.
fn agrees<S: Store>(rt: &impl Host, seed: u64, count: usize, way: Way) {
    let (mut store, mut list) = (S::new(rt.alloc()), LinearPairs::new(rt.alloc()));
    let (mut state, factor) = (seed, 6_364_136_223_846_793_005);
    for _ in 0..count {
        state = state
            .wrapping_mul(factor)
            .wrapping_add(1_442_695_040_888_963_407);
        let step = step(rt, state);
        let found = reply(rt, &mut store, step, way);
        let expected = reply(rt, &mut list, step, Way::Run);
        assert!(*rt; found == expected && holds(&store, list.as_slice(), list.capacity()));
        drop(found);
        drop(expected);
    }
    drop(store);
    drop(list);
}

/// Asserts that each store agrees with a list on `count` steps, for each seed below `seeds`.
pub fn all_agree(rt: &impl Host, seeds: u64, count: usize) {
    for seed in 0..seeds {
        each_store!(agrees(rt, seed, count, Way::Run));
        each_store!(agrees(rt, seed, count, Way::Call));
    }
}

/// Returns `count` commands that clear a store.
fn clearings(rt: &impl Host, count: usize) -> Vec<Command<u64>> {
    let mut commands = granted!(rt; Vec::with_capacity(rt.alloc(), count));
    for _ in 0..count {
        commands.push(Command::Clear).expect(rt, "room");
    }
    commands
}

/// Asserts that a run of `count` commands returns `count` replies.
pub fn clears(rt: &impl Host, count: usize) {
    let mut store: LinearPairs<u64> = LinearPairs::new(rt.alloc());
    let replies = granted!(rt; run(rt.alloc(), &mut store, clearings(rt, count)));
    drop(store);
    assert!(*rt; replies.len() == count);
    drop(replies);
}

#[test]
fn lists_of_commands(rt: HostRuntime) {
    all_agree(&rt, 1, 20);
    clears(&rt, 200);
}
