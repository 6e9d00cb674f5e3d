//! Removes indices from the slots with backward shift, and moves an index if the hash of its key
//! changes.

ghost use Rattle.std.specs.Prelude.{◌≡◌, ℕ, ◌+◌, ◌<◌, ◌≤◌, ◌%◌, ◌^◌, List, length, map, set, Some};
ghost use Rattle.ijson_table.specs.Slots.{resident};
ghost use Rattle.ijson_table.specs.Store.{keys_of};
ghost use Rattle.ijson_table.specs.private.Holds.{HasEmpty};
ghost use Rattle.ijson_table.specs.private.Insertion.{IsTableBut, IsTableOf, Stands};
ghost use Rattle.ijson_table.specs.private.Moving.{renumbered};
ghost use Rattle.ijson_table.specs.private.SlotHashes.{displacement_in, positions};
ghost use Rattle.ijson_table.specs.private.Probe.{IsVacancy};
ghost use Rattle.std.specs.List.{remove, swap_remove as swapped_out};

use crate::hash::KeyHash;
use crate::index::probe::{ProbeTarget, Probed, next_slot, probe};
use crate::index::slots::Slots;
use crate::slot::{Modulus, Seen, Slot, distance_between};
use ijson_number::Looks;
use ijson_string::IString;

/// A probe that compares no keys.
///
/// The target is the slot of index `position`. With `None`, the probe ends at the slot at which a
/// missing key would be inserted.
#[derive(Drop)]
struct HashProbe<'a> {
    slots: &'a Slots,
    modulus: Modulus,
    position: Option<usize>,
    ghost counted: { modulus.count ≡ length slots.now },
}

impl<'a> ProbeTarget for HashProbe<'a> {
    ghost use Rattle.std.specs.Option.{option_eq};
    ghost use Rattle.std.specs.Prelude.{eqb, Some};
    ghost use Rattle.ijson_table.specs.private.SlotHashes.{displacement_in, positions};

    ghost slots = { λ s. positions s.slots.now };

    ghost displacements = { λ s. displacement_in s.slots.now };

    ghost seeks = { λ s i. option_eq eqb (Some i) s.position };

    fn look(&self, slot: usize, looks: &mut Looks) -> Seen {
        looks.add_one();
        let there = self.slots.at(slot);
        let same = there.position() == self.position;
        there.seen(self.modulus, slot, same)
    }
}

/// Returns the slot at which the probe for a missing key with home slot `home` ends.
fn vacant_slot(slots: &Slots, modulus: Modulus, home: usize) -> usize
    requires counted { modulus.count ≡ length slots.now }
    requires home { home < length slots.now }
    requires empty { HasEmpty (positions slots.now) }
    ensures { IsVacancy (displacement_in slots.now) (length slots.now) home result }
{
    let newcomer = HashProbe {
        slots,
        modulus,
        position: None,
    };
    match probe(&newcomer, modulus.count, home, &mut Looks::new()) {
        Probed::Vacant(slot) => slot,
        Probed::Found { .. } | Probed::Full => unreachable!(),
    }
}

/// Returns the slot of index `position`, whose key has hash `hash`.
fn slot_of(slots: &Slots, modulus: Modulus, position: usize, hash: u64) -> usize
    requires counted { modulus.count ≡ length slots.now }
    requires stands { (hashes : List ℕ) × Stands hashes slots.now position hash }
    ensures within { result < length slots.now }
    ensures there { resident (positions slots.now) result ≡ Some position }
{
    let resident = HashProbe {
        slots,
        modulus,
        position: Some(position),
    };
    let home = modulus.home_of_hash(hash);
    match probe(&resident, modulus.count, home, &mut Looks::new()) {
        Probed::Found { slot, .. } => slot,
        Probed::Vacant(_) | Probed::Full => unreachable!(),
    }
}

/// Removes index `position` from the slots of a table of `pairs`, and returns the modulus of the
/// slots.
///
/// Residents after the slot of the index are shifted back by one slot, up to an empty slot or a
/// resident in its home slot.
fn remove_index<V, H: KeyHash>(
    slots: &mut Slots,
    pairs: &[(IString, V)],
    position: usize,
) -> Modulus
    requires table { IsTableOf (map H.hash_of (keys_of pairs.now)) slots.old }
    requires within { position < length pairs.now }
    ensures left { IsTableBut (map H.hash_of (keys_of pairs.now)) position slots.new }
    ensures modulus { result.count ≡ length slots.new }
    ensures count { length slots.new ≡ length slots.old }
{
    let modulus = Modulus::new(slots.len());
    let mut gap = slot_of(
        slots,
        modulus,
        position,
        H::hash(pairs[position].0.as_str()),
    );
    slots.set(gap, Slot::EMPTY);
    loop {
        let next = next_slot(modulus.count, gap);
        let behind = slots.at(next);
        let home = modulus.home_of_hash(behind.hash);
        if behind.is_empty() || distance_between(modulus.count, home, next) == 0 {
            return modulus;
        }
        slots.set(gap, behind);
        slots.set(next, Slot::EMPTY);
        gap = next;
    }
}

/// Updates the slots for a change of the pairs. Call each method before the pairs change.
impl Slots {
    /// Removes index `position`, and renumbers the last index to `position`.
    pub fn swap_remove<V, H: KeyHash>(&mut self, pairs: &[(IString, V)], position: usize)
        requires table { IsTableOf (map H.hash_of (keys_of pairs.now)) self.old }
        requires within { position < length pairs.now }
        ensures table { IsTableOf (swapped_out (map H.hash_of (keys_of pairs.now)) position 0) self.new }
        ensures count { length self.new ≡ length self.old }
    {
        let modulus = remove_index::<V, H>(self, pairs, position);
        let last = pairs.len() - 1;
        if position == last {
            return;
        }
        let there = slot_of(self, modulus, last, H::hash(pairs[last].0.as_str()));
        let moved = self.at(there).hash;
        self.set(there, Slot::of(position, moved));
    }

    /// Moves index `position` to a slot for `hash`, which is the hash of its new key.
    pub fn rehash_one<V, H: KeyHash>(&mut self, pairs: &[(IString, V)], position: usize, hash: u64)
        requires table { IsTableOf (map H.hash_of (keys_of pairs.now)) self.old }
        requires within { position < length pairs.now }
        requires room { length pairs.now ≤ length self.old }
        ensures table { IsTableOf (set (map H.hash_of (keys_of pairs.now)) position hash) self.new }
        ensures count { length self.new ≡ length self.old }
    {
        let modulus = remove_index::<V, H>(self, pairs, position);
        let (home, kept) = modulus.split(hash);
        let slot = vacant_slot(self, modulus, home);
        self.shift_forward(slot, position, kept);
    }

    /// Removes index `position`, and decrements each later index.
    pub fn shift_remove<V, H: KeyHash>(&mut self, pairs: &[(IString, V)], position: usize)
        requires table { IsTableOf (map H.hash_of (keys_of pairs.now)) self.old }
        requires within { position < length pairs.now }
        requires room { length pairs.now ≤ length self.old }
        ensures table { IsTableOf (remove (map H.hash_of (keys_of pairs.now)) position) self.new }
        ensures count { length self.new ≡ length self.old }
    {
        remove_index::<V, H>(self, pairs, position);
        self.renumber(position, pairs.len() - 1);
    }
}
