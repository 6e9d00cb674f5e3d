//! Tests of numbers of inspections, with keys that were chosen to collide.

use super::sizes::{built, listed};
use super::*;

/// A hash that is 2,560 times the upper half of the fixed hash. If 2,560 is a multiple of the
/// number of slots, all keys have the first slot as their home slot, although few hashes are equal.
#[derive(Drop)]
pub struct Multiples;

impl KeyHash for Multiples {
    ghost use Rattle.std.specs.Prelude.{◌*◌, ◌/◌};
    ghost use Rattle.ijson_table.specs.Fold.{fold_words};

    ghost hash_of = { λ text. fold_words text / 4294967296 * 2560 };

    fn hash(text: &str) -> u64 {
        FixedHash::hash(text) / 4_294_967_296 * 2560
    }
}

/// How the keys of a list are chosen.
#[derive(Clone, Copy, Drop)]
pub enum Chosen {
    /// The digits of the numbers from 0 on.
    Digits,
    /// Strings composed of `TWINS`, one for each bit of a number. All have the same fixed hash.
    Twins,
    /// Half as many strings as `Twins`, followed by the same strings again.
    TwinsAgain,
    /// Half as many strings as `Twins`, each twice in a row.
    TwinsInARow,
    /// A key of each length, then a second key of each length, from the longest on. Inserted one by
    /// one, a second key takes two inspections, and moves two residents for each greater length.
    Lengths,
}

/// Two strings that the fixed hash does not distinguish, from any state: their bytes, weighted by
/// the powers of the prime of the hash, have the same sum modulo `2 ^ 64`.
static TWINS: [&str; 2] = ["aacekgaaaapa", "biaaaaocsnar"];

/// Returns a string of 11 twins: one of `TWINS` for each of the lowest bits of `number`.
fn twins(rt: &impl Host, number: usize) -> String {
    let mut text = granted!(rt; String::with_capacity(rt.alloc(), 132));
    let mut bits = number;
    for _ in 0..11 {
        text.push_str(TWINS[bits % 2]).expect(rt, "room");
        bits /= 2;
    }
    text
}

/// Returns the key at the index `at` of a list of `count` keys.
fn letters(rt: &impl Host, chosen: Chosen, count: usize, at: usize) -> String {
    match chosen {
        Chosen::Digits => granted!(rt; format!(in rt.alloc(); "{at}")),
        Chosen::Twins => twins(rt, at),
        Chosen::TwinsAgain => twins(rt, at % (count / 2).max(1)),
        Chosen::TwinsInARow => twins(rt, at / 2),
        Chosen::Lengths if at < count / 2 => granted!(rt; "a".repeat(rt.alloc(), at + 1)),
        Chosen::Lengths => granted!(rt; "b".repeat(rt.alloc(), count.saturating_sub(at))),
    }
}

/// Returns a list of `count` entries, whose values are their indices.
fn chosen_list(rt: &impl Host, chosen: Chosen, count: usize) -> Vec<Entry> {
    let mut pairs = granted!(rt; Vec::with_capacity(rt.alloc(), count));
    for at in 0..count {
        let letters = letters(rt, chosen, count, at);
        let key = key(rt, rt.alloc(), &letters);
        pairs.push((key, at as u64)).expect(rt, "room");
        drop(letters);
    }
    pairs
}

/// Returns a table built from `pairs`, and the number of inspections that building it takes.
fn build<H: KeyHash>(
    rt: &impl Host,
    pairs: &[Entry],
) -> Result<(Table<u64, H>, u128), ReserveError> {
    let mut looks = Looks::new();
    let table = Table::from_pairs_counted(rt.alloc(), copied(rt, rt.alloc(), pairs), &mut looks)?;
    Ok((table, looks.count()))
}

/// Asserts that a table built from a list has the entries of a list filled by insertions. Returns
/// the number of inspections for the table.
pub fn inspections<H: KeyHash + Drop>(rt: &impl Host, chosen: Chosen, count: usize) -> u128 {
    let pairs = chosen_list(rt, chosen, count);
    let mut list: LinearPairs<u64> = roomy(rt, count);
    for (key, value) in &pairs {
        drop(inserted(&mut list, key.clone().expect(rt, "a key"), *value));
    }
    let (table, looks) = granted!(rt; ReserveError::Memory; build::<H>(rt, &pairs));
    drop(pairs);
    assert!(*rt; holds(&table, list.as_slice(), count));
    drop(list);
    drop(table);
    looks
}

/// Asserts bounds of the number of inspections for a list whose table is built by sorting.
///
/// `count` must be `2 ^ halvings`. The maximum per entry is 36, and two more per halving. The
/// minimum per entry is 33 (32 steps before sorting, and one at the first entry of each key), and
/// half a comparison more per halving. If keys are repeated consecutively, fewer entries are
/// sorted, but each takes more than the minimum.
pub fn is_sorted<H: KeyHash + Drop>(rt: &impl Host, chosen: Chosen, count: usize) {
    let looks = inspections::<H>(rt, chosen, count);
    let (entries, halvings) = (count as u128, u128::from(count.max(1).ilog2()));
    let least = entries * 33 + entries / 2 * halvings;
    assert!(*rt; least < looks && looks <= entries * (36 + 2 * halvings));
}

/// Doubles the capacity of a full table, or shrinks it to the length. Returns the number of steps.
fn steps_of(table: &mut Crowded, is_doubled: bool) -> Result<u128, ReserveError> {
    let mut looks = Looks::new();
    if is_doubled {
        table.reserve_counted(1, &mut looks)?;
    } else {
        table.shrink_to_fit_counted(&mut looks)?;
    }
    Ok(looks.count())
}

/// Asserts the number of steps for doubling the capacity of a table of `count` entries, and for
/// shrinking it. Inserted one by one, an entry inspects the slots of the entries before it and an
/// empty slot, which it writes. After 32 steps per entry of the new capacity, all entries are
/// sorted instead. Merging two halves takes one comparison for each entry of the left half.
pub fn takes_steps(rt: &impl Host, count: u16, grown: u128, shrunk: u128) {
    let pairs = listed(rt, count.saturating_sub(1), false);
    let mut table = granted!(rt; ReserveError::Memory; built(rt, &pairs, false));
    assert!(*rt; granted!(rt; ReserveError::Memory; steps_of(&mut table, true)) == grown);
    assert!(*rt; table.capacity() == 2 * usize::from(count));
    assert!(*rt; granted!(rt; ReserveError::Memory; steps_of(&mut table, false)) == shrunk);
    assert!(*rt; table.capacity() == usize::from(count));
    drop(table);
    drop(pairs);
}

/// The number 378 was computed without this library, from the fixed hashes of the numbers. A key
/// inspects the slots from its home slot to the empty slot that is written last. The slot at which
/// its probe ends counts twice.
///
/// With one home slot, the first 159 entries exceed 32 steps per entry of the new capacity in
/// growth, and the first 112 in shrinking. Sorting 200 entries takes 732 comparisons.
#[test]
fn inspections_are_counted(rt: HostRuntime) {
    assert!(rt; inspections::<FixedHash>(&rt, Chosen::Digits, 64) == 378);
    is_sorted::<Multiples>(&rt, Chosen::Digits, 64);
    is_sorted::<FixedHash>(&rt, Chosen::Twins, 64);
    takes_steps(&rt, 200, 12_879 + 732, 6_440 + 732);
}
