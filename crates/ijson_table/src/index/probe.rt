//! The probe, which is the walk over the slots of a table, and `Lookup`, the probe for a key among
//! pairs.

ghost use Rattle.std.specs.Prelude.{◌≡◌, ◌↔◌, ℕ, ◌+◌, ◌-◌, ◌<◌, ◌≤◌, ◌^◌, Bool, List, [], length, get_or, map, Option, IsTrue};
ghost use Rattle.ijson_table.specs.Slots.{after};
ghost use Rattle.ijson_table.specs.Store.{keys_of};
ghost use Rattle.ijson_table.specs.private.Insertion.{IsTableOf};
ghost use Rattle.ijson_table.specs.private.KeptHash.{kept};
ghost use Rattle.ijson_table.specs.private.Lookup.{found_at};
ghost use Rattle.ijson_table.specs.private.Probe.{Ends, LooksAt, Passed};

use crate::hash::KeyHash;
use crate::slot::stored::StoredSlot;
use crate::slot::{Modulus, Seen};
use ijson_number::Looks;
use ijson_string::IString;
use std::marker::PhantomData;

/// The result of a probe.
#[derive(Clone, Copy, Drop)]
pub enum Probed {
    /// The probe found the target.
    Found {
        /// The index of the entry.
        at: usize,
        /// The slot of that entry.
        slot: usize,
    },
    /// The target is missing, and a new key would be inserted at this slot.
    Vacant(usize),
    /// The target is missing, and no slot is empty.
    Full,
}

impl Probed {
    /// Returns the index that the probe found, if any.
    pub fn found(self) -> Option<usize>
        ensures { result ≡ found_at self }
    {
        match self {
            Probed::Found { at, .. } => Some(at),
            Probed::Vacant(_) | Probed::Full => None,
        }
    }
}

/// The target of a probe, and the slots to search.
pub trait ProbeTarget {
    /// The resident of each slot.
    ghost slots: { Self → List (Option ℕ) };

    /// The displacement of the resident of each slot, or 0 if the slot is empty.
    ghost displacements: { Self → ℕ → ℕ };

    /// Returns `true` if an index is the target.
    ghost seeks: { Self → ℕ → Bool };

    /// Inspects one slot and adds one inspection to `looks`.
    fn look(&self, slot: usize, looks: &mut Looks) -> Seen
        requires within { slot < length (slots self.now) }
        requires fits { looks.old + 1 < 2 ^ 128 }
        ensures sees { LooksAt (slots self.now) (displacements self.now) (seeks self.now) slot result }
        ensures counts { looks.new ≡ looks.old + 1 };
}

/// Returns the slot after `slot`, wrapping around.
#[tactic(auto, using(std::proofs::lemmas::Bool::Decides::nat_tests), unfolding(crate::specs::Slots::after))]
pub fn next_slot(slots: usize, slot: usize) -> usize
    requires { slot < slots }
    ensures slot { result ≡ after slots slot }
    ensures within { result < slots }
{
    if slot + 1 == slots { 0 } else { slot + 1 }
}

/// Walks from the home slot to the target, an empty slot, or a resident closer to its own home
/// slot.
///
/// `count` is the number of slots.
#[inline(always)]
pub fn probe<P: ProbeTarget>(target: &P, count: usize, home: usize, looks: &mut Looks) -> Probed
    requires counted { count ≡ length (P.slots target.now) }
    requires home { home < count }
    requires fits { (m : ℕ) → m < length (P.slots target.now)
        → Passed (P.displacements target.now) (length (P.slots target.now)) home m
        → looks.old + m + 1 < 2 ^ 128 }
    ensures grows { looks.old ≤ looks.new }
    ensures ends { Ends (P.slots target.now) (P.displacements target.now) home (P.seeks target.now)
        (looks.new - looks.old) result }
{
    let mut slot = home;
    for passed in 0..count {
        match target.look(slot, looks) {
            Seen::Empty => return Probed::Vacant(slot),
            Seen::Resident { at, distance, same } => {
                if same {
                    return Probed::Found { at, slot };
                }
                if distance < passed {
                    return Probed::Vacant(slot);
                }
            }
        }
        slot = next_slot(count, slot);
    }
    Probed::Full
}

/// A key to look up among pairs, with the part of its hash that the slots keep.
///
/// A lookup reads the memory of a pair's key only if the kept parts of both hashes are equal.
#[derive(Drop)]
pub struct Lookup<'a, 'i, V, S: StoredSlot, H: KeyHash> {
    pub pairs: &'a [(IString, V)],
    pub slots: &'i [S],
    /// The number of slots.
    pub modulus: Modulus,
    pub hash: u64,
    pub key: &'a str,
    pub hash_by: PhantomData<H>,
    ghost table: { IsTableOf (map H.hash_of (keys_of pairs.now)) (map S.stands_for slots.now) },
    ghost counted: { modulus.count ≡ length slots.now },
    ghost hashed: { hash ≡ kept modulus.count (H.hash_of key.now) },
}

impl<'a, 'i, V, S: StoredSlot + Copy, H: KeyHash> ProbeTarget for Lookup<'a, 'i, V, S, H> {
    ghost use Rattle.std.specs.Prelude.{map};
    ghost use Rattle.ijson_table.specs.Slots.{displacement};
    ghost use Rattle.ijson_table.specs.Store.{keys_of};
    ghost use Rattle.ijson_table.specs.private.Lookup.{is_key};
    ghost use Rattle.ijson_table.specs.private.SlotHashes.{positions};

    ghost slots = { λ s. positions (map S.stands_for s.slots.now) };

    ghost displacements = { λ s. displacement (map H.hash_of (keys_of s.pairs.now)) (positions (map S.stands_for s.slots.now)) };

    ghost seeks = { λ s. is_key (keys_of s.pairs.now) s.key.now };

    fn look(&self, slot: usize, looks: &mut Looks) -> Seen {
        looks.add_one();
        let there = self.slots[slot].widened();
        match there.position() {
            None => Seen::Empty,
            Some(at) => {
                let same = there.hash == self.hash && has_key(self.pairs, at, self.key);
                there.seen(self.modulus, slot, same)
            }
        }
    }
}

/// Returns `true` if the pair at `position` has this key.
pub fn has_key<V>(pairs: &[(IString, V)], position: usize, key: &str) -> bool
    requires { position < length pairs.now }
    ensures { IsTrue result ↔ (get_or (keys_of pairs.now) position [] ≡ key.now) }
{
    pairs[position].0.eq_str(key)
}
