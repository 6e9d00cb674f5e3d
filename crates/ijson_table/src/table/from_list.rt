//! Tables built from lists of pairs.

ghost use Rattle.std.specs.Prelude.{◌≡◌, ◌↔◌, ℕ, ◌+◌, ◌-◌, ◌*◌, ◌^◌, ◌<◌, ◌≤◌, [], length, take, drop};
ghost use Rattle.std.specs.Prelude.{vec_capacity, Err, IfOk, IsOk, OnOk};
ghost use Rattle.ijson_table.specs.BuildBound.{IsBuildBounded};
ghost use Rattle.ijson_table.specs.Crowd.{slot_count};
ghost use Rattle.ijson_table.specs.Growth.{capacity_limit};
ghost use Rattle.ijson_table.specs.Store.{put_each};
ghost use Rattle.ijson_table.specs.private.FirstPlaced.{FirstPlaced};
ghost use Rattle.ijson_table.specs.private.Insertion.{IsTableOf};

use super::Table;
use crate::growth::{check_capacity, slots_for};
use crate::hash::KeyHash;
use crate::index::add::{STEPS_PER_PAIR, add_new_key, add_new_keys};
use crate::index::fill::fill_sorted;
use crate::index::slots::Slots;
use crate::slot::Modulus;
use crate::sorting::build::put_sorted;
use crate::store::ReserveError;
use crate::vec::{remove_range, shrink_to_len};
use ijson_number::Looks;
use ijson_string::IString;
use std::alloc::{AllocError, Global};
use std::marker::PhantomData;

impl<V: Drop, H: KeyHash> Table<V, H> {
    /// Creates a store by inserting `pairs` in order.
    ///
    /// A duplicate key keeps its first index and has its last value. The store reuses the
    /// allocation of `pairs`: the length of `pairs` is the capacity, and spare capacity is freed.
    /// Pairs before the first duplicate key do not move. Later pairs move down to the indices of
    /// their keys. An empty list does not allocate.
    ///
    /// # Errors
    ///
    /// `TooLarge` if the length exceeds 2^56, `Memory` if an allocation fails. The pairs are
    /// dropped.
    ///
    /// # Cost
    ///
    /// If few keys collide, the time is linear in the number of pairs. Each key is hashed once, and
    /// the first duplicate key twice.
    ///
    /// If many keys collide, the table is built by sorting. Each key is hashed up to three times,
    /// and hashed indices of 16 bytes each are sorted in temporary memory.
    ///
    /// For all keys, the time is at most O(n log n), plus the time to hash all keys and to compare
    /// keys of equal hashes.
    pub fn from_pairs(alloc: Global, pairs: Vec<(IString, V)>) -> Result<Table<V, H>, ReserveError>
        ensures pairs { IfOk result (λ table. table.store.pairs ≡ put_each [] pairs.items) }
        ensures capacity { IfOk result (λ table. table.store.capacity ≡ length pairs.items) }
        ensures too_large { (result ≡ Err ReserveError.TooLarge) ↔ (capacity_limit < length pairs.items) }
        ensures none { length pairs.items ≡ 0 → IsOk result }
    {
        Table::from_pairs_counted(alloc, pairs, &mut Looks::new())
    }

    /// Like `from_pairs`, but adds the steps to `looks`.
    ///
    /// A step is a slot inspected or written by an insertion, or a comparison in sorting.
    pub fn from_pairs_counted(
        alloc: Global,
        mut pairs: Vec<(IString, V)>,
        looks: &mut Looks,
    ) -> Result<Table<V, H>, ReserveError>
        requires fits { looks.old + 2 ^ 72 < 2 ^ 128 }
        ensures pairs { IfOk result (λ table. table.store.pairs ≡ put_each [] pairs.items) }
        ensures capacity { IfOk result (λ table. table.store.capacity ≡ length pairs.items) }
        ensures too_large { (result ≡ Err ReserveError.TooLarge) ↔ (capacity_limit < length pairs.items) }
        ensures none { length pairs.items ≡ 0 → IsOk result }
        ensures counted { OnOk result (looks.old + length pairs.items ≤ looks.new) }
        ensures grows { looks.old ≤ looks.new }
        ensures bounded { IsBuildBounded (length pairs.items) (looks.new - looks.old) }
    {
        let capacity = check_capacity(pairs.len())?;
        shrink_to_len(alloc, &mut pairs)?;
        let mut slots = Slots::with_count(alloc, slots_for(capacity))?;
        let most = STEPS_PER_PAIR * capacity;
        let mut steps = 0;
        let (kept, read) = put_in_place::<V, H>(&mut pairs, &mut slots, most, &mut steps);
        looks.add(steps as u128);
        remove_range(&mut pairs, kept, read);
        if read < capacity {
            return Ok(Table::from_pairs_sorted(alloc, pairs, slots, looks)?);
        }
        Ok(Table {
            pairs,
            slots,
            alloc,
            hash: PhantomData,
        })
    }

    /// Like `from_pairs`, but sorts the pairs and fills the given slots.
    ///
    /// The capacity is the capacity of `pairs`.
    fn from_pairs_sorted(
        alloc: Global,
        pairs: Vec<(IString, V)>,
        mut slots: Slots,
        looks: &mut Looks,
    ) -> Result<Table<V, H>, AllocError>
        requires some { 0 < length pairs.items }
        requires limited { vec_capacity pairs ≤ capacity_limit }
        requires slots { length slots ≡ slot_count (vec_capacity pairs) }
        requires fits { looks.old + 2 ^ 71 + 2 ^ 64 < 2 ^ 128 }
        ensures pairs { IfOk result (λ table. table.store.pairs ≡ put_each [] pairs.items) }
        ensures capacity { IfOk result (λ table. table.store.capacity ≡ vec_capacity pairs) }
        ensures grows { looks.old ≤ looks.new }
        ensures bounded { (k : ℕ) → vec_capacity pairs ≤ 2 ^ k
            → looks.new ≤ looks.old + vec_capacity pairs * (1 + 2 * k) }
    {
        let modulus = Modulus::new(slots.len());
        let Ok(pairs) = put_sorted::<V, H>(alloc, pairs, modulus, looks) else {
            drop(slots);
            return Err(AllocError);
        };
        slots.clear();
        if let Err(refused) = fill_sorted::<V, H>(alloc, &pairs, &mut slots, looks) {
            drop(pairs);
            drop(slots);
            return Err(refused);
        }
        Ok(Table {
            pairs,
            slots,
            alloc,
            hash: PhantomData,
        })
    }
}

/// Inserts the pairs in order within their list, until the steps exceed `most`.
///
/// The indices of the pairs are inserted into `slots`, which must be empty. Returns the number of
/// keys inserted and the number of pairs read. The pairs between these two indices hold values that
/// were replaced.
#[inline(always)]
fn put_in_place<V: Drop, H: KeyHash>(
    pairs: &mut [(IString, V)],
    slots: &mut Slots,
    most: usize,
    steps: &mut usize,
) -> (usize, usize)
    requires empty { IsTableOf [] slots.old }
    requires room { length pairs.old ≤ length slots.old }
    requires most { most ≤ 2 ^ 62 }
    requires steps { steps.old ≡ 0 }
    requires few { length slots.old ≤ 2 ^ 60 }
    ensures within { result.0 ≤ result.1 }
    ensures read { result.1 ≤ length pairs.old }
    ensures placed { FirstPlaced H.hash_of pairs.new result.0 slots.new }
    ensures pairs { put_each (take result.0 pairs.new) (drop result.1 pairs.new) ≡ put_each [] pairs.old }
    ensures stops { result.1 < length pairs.old → most < steps.new }
    ensures count { length slots.new ≡ length slots.old }
    ensures steps { steps.new ≤ most + 2 * length slots.old }
    ensures counted { result.1 ≤ steps.new }
{
    let mut kept = add_new_keys::<V, H>(pairs, slots, most, steps);
    if kept == pairs.len() {
        return (kept, kept);
    }
    let modulus = Modulus::new(slots.len());
    for position in kept..pairs.len() {
        if *steps > most {
            return (kept, position);
        }
        pairs.swap(kept, position);
        match add_new_key::<V, H>(pairs, slots, modulus, kept, steps) {
            None => kept += 1,
            // Both pairs have the same key, so the index in the slot of that key remains valid.
            Some(at) => pairs.swap(at, kept),
        }
    }
    (kept, pairs.len())
}
