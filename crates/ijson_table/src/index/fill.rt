//! Filling of slots from hashed indices sorted by home slot.
//!
//! Each index is written once, and slots are not inspected.

ghost use Rattle.std.specs.Prelude.{◌≡◌, ℕ, ◌+◌, ◌-◌, ◌*◌, ◌^◌, ◌<◌, ◌≤◌, [], List, length, map, OnOk};
ghost use Rattle.ijson_table.specs.Growth.{capacity_limit};
ghost use Rattle.ijson_table.specs.Store.{keys_of};
ghost use Rattle.ijson_table.specs.private.Entries.{AreEntries};
ghost use Rattle.ijson_table.specs.private.EntryOrder.{entry_before};
ghost use Rattle.ijson_table.specs.private.Homes.{passing};
ghost use Rattle.ijson_table.specs.private.Insertion.{IsTableOf};
ghost use Rattle.ijson_table.specs.private.Sorting.{IsSortedBy};

use crate::hash::KeyHash;
use crate::index::slots::Slots;
use crate::slot::Modulus;
use crate::sorting::build::sorted_entries;
use crate::sorting::order::{EntryOrder, HashedIndex};
use ijson_number::Looks;
use ijson_string::IString;
use std::alloc::{AllocError, Global};

/// Returns the number of hashed indices that wrap around if they are written from the first slot
/// on.
fn wrapped_count(sorted: &[HashedIndex], modulus: Modulus) -> usize
    requires few { modulus.count ≤ 2 ^ 60 }
    requires limited { length sorted.now ≤ 2 ^ 60 }
    ensures { result ≡ passing modulus.count sorted.now }
{
    let mut next = 0;
    for index in 0..sorted.len() {
        next = next.max(modulus.home_of_hash(sorted[index].hash)) + 1;
    }
    next.saturating_sub(modulus.count)
}

/// Fills empty slots from hashed indices sorted by home slot.
///
/// There must be a slot for each index. Each index is written to its home slot, or to the slot
/// after the previous index if that slot is later. Indices past the last slot wrap around to the
/// first slots.
///
/// # Cost
///
/// Linear in the number of indices, for all home slots.
fn fill(slots: &mut Slots, sorted: &[HashedIndex], modulus: Modulus)
    requires counted { modulus.count ≡ length slots.old }
    requires few { length slots.old ≤ 2 ^ 60 }
    requires empty { IsTableOf [] slots.old }
    requires room { length sorted.now ≤ length slots.old }
    requires entries { (hashes : List ℕ) × AreEntries modulus.count hashes sorted.now }
    requires sorted { (keys : List (List ℕ)) × IsSortedBy (entry_before modulus.count keys) sorted.now }
    ensures table { (hashes : List ℕ) → AreEntries modulus.count hashes sorted.now → IsTableOf hashes slots.new }
    ensures count { length slots.new ≡ length slots.old }
{
    let count = modulus.count;
    let mut next = wrapped_count(sorted, modulus);
    for index in 0..sorted.len() {
        let entry = sorted[index];
        let spot = next.max(modulus.home_of_hash(entry.hash));
        let slot = if spot < count { spot } else { spot - count };
        slots.set(slot, entry.slot());
        next = spot + 1;
    }
}

/// Fills empty slots with the indices of `pairs`, sorted by home slot.
///
/// There must be a slot for each pair. Each comparison is counted in `looks`, and each key is
/// hashed once.
pub fn fill_sorted<V, H: KeyHash>(
    alloc: Global,
    pairs: &[(IString, V)],
    slots: &mut Slots,
    looks: &mut Looks,
) -> Result<(), AllocError>
    requires empty { IsTableOf [] slots.old }
    requires some { 0 < length slots.old }
    requires room { length pairs.now ≤ length slots.old }
    requires few { length slots.old ≤ 2 ^ 60 }
    requires limited { length pairs.now ≤ capacity_limit }
    requires fits { looks.old + 2 ^ 71 < 2 ^ 128 }
    ensures table { OnOk result (IsTableOf (map H.hash_of (keys_of pairs.now)) slots.new) }
    ensures count { length slots.new ≡ length slots.old }
    ensures grows { looks.old ≤ looks.new }
    ensures bounded { (k : ℕ) → length pairs.now ≤ 2 ^ k → looks.new ≤ looks.old + length pairs.now * k }
{
    let modulus = Modulus::new(slots.len());
    // Filling needs only home slots, so the sort is passed no pairs and compares no keys.
    let order = EntryOrder {
        pairs: &pairs[..0],
        modulus,
    };
    let sorted = sorted_entries::<V, H>(alloc, pairs, &order, looks)?;
    fill(slots, &sorted, modulus);
    Ok(())
}
