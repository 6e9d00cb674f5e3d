//! `Slots`: the slots of a table, in the smallest representation that fits.

ghost use Rattle.std.specs.Prelude.{◌≡◌, ℕ, ◌+◌, ◌-◌, ◌<◌, ◌≤◌, ◌^◌, List, [], length, map, set, get_or, IfOk, OnErr};
ghost use Rattle.ijson_table.specs.Crowd.{home_of};
ghost use Rattle.ijson_table.specs.Slots.{displacement};
ghost use Rattle.ijson_table.specs.Store.{keys_of};
ghost use Rattle.ijson_table.specs.private.CountedSteps.{Walks};
ghost use Rattle.ijson_table.specs.private.Insertion.{IsPut, IsTableOf, MayPut};
ghost use Rattle.ijson_table.specs.private.KeptHash.{kept};
ghost use Rattle.ijson_table.specs.private.Moving.{renumbered};
ghost use Rattle.ijson_table.specs.private.Narrow.{Fits, MayHold};
ghost use Rattle.ijson_table.specs.private.Probe.{Passed};
ghost use Rattle.ijson_table.specs.private.SlotHashes.{blank, positions};

use crate::hash::KeyHash;
use crate::index::forward::{renumber, shift_forward};
use crate::index::probe::{Lookup, Probed, probe};
use crate::slot::narrow::NarrowSlot;
use crate::slot::stored::StoredSlot;
use crate::slot::{Modulus, NARROW_SLOTS, Slot};
use ijson_number::Looks;
use ijson_string::IString;
use std::alloc::{AllocError, Global};
use std::marker::{Model, PhantomData};
use std::mem::size_of;

/// The maximum number of slots that are stored inline.
const FEW_SLOTS: usize = 10;

/// A list of slots. Each is empty or has the index of an entry and the kept part of its key's hash.
///
/// With at most `NARROW_SLOTS` slots, the kept part is the home slot and eight more bits.
/// Otherwise, the kept part is the full hash. Up to `FEW_SLOTS` slots do not allocate.
#[derive(Drop)]
pub struct Slots {
    stored: Stored,
}

/// Slots: up to 10 inline, up to 158 in a list of three-byte slots, and more in a list of 16-byte
/// slots.
#[derive(Drop)]
enum Stored {
    Few(FewSlots),
    Narrow(Vec<NarrowSlot>),
    Wide(Vec<Slot>),
}

/// At most 10 slots. The slots from index `count` on are unused.
#[derive(Clone, Copy, Drop)]
struct FewSlots {
    count: u8,
    slots: [NarrowSlot; FEW_SLOTS],
}

const _: () = prove!(size_of::<Slots>() == 32);

impl Model for Slots {
    ghost use Rattle.std.specs.Prelude.{List};
    ghost use Rattle.ijson_table.specs.declared.slot.Slot.{Slot};

    ghost Value = { List Slot };

    ghost use Rattle.ijson_table.specs.private.NarrowSlots.{stored_slots, IsStoredByCount};

    ghost view = { λ s. stored_slots s.stored };

    ghost invariant = { λ s. IsStoredByCount s.stored };
}

impl Slots {
    /// Creates an empty list of slots, without allocating.
    pub fn new() -> Slots
        ensures table { IsTableOf [] result }
        ensures count { length result ≡ 0 }
    {
        let stored = Stored::Few(FewSlots {
            count: 0,
            slots: [NarrowSlot::EMPTY; FEW_SLOTS],
        });
        Slots { stored }
    }

    /// Creates `count` empty slots.
    pub fn with_count(alloc: Global, count: usize) -> Result<Slots, AllocError>
        ensures table { IfOk result (IsTableOf []) }
        ensures count { IfOk result (λ slots. length slots ≡ count) }
        ensures refused { OnErr result (0 < count) }
    {
        let stored = if count <= FEW_SLOTS {
            Stored::Few(FewSlots {
                count: count as u8,
                slots: [NarrowSlot::EMPTY; FEW_SLOTS],
            })
        } else if count <= NARROW_SLOTS {
            Stored::Narrow(vec![in alloc; NarrowSlot::EMPTY; count]?)
        } else {
            Stored::Wide(vec![in alloc; Slot::EMPTY; count]?)
        };
        Ok(Slots { stored })
    }

    /// Returns a copy of the slots, in a new allocation if they are not inline.
    pub fn copied(&self, alloc: Global) -> Result<Slots, AllocError>
        ensures copied { IfOk result (λ slots. slots ≡ self.now) }
        ensures refused { OnErr result (0 < length self.now) }
    {
        let stored = match &self.stored {
            Stored::Few(few) => Stored::Few(*few),
            Stored::Narrow(slots) => Stored::Narrow(Vec::from_slice(alloc, slots)?),
            Stored::Wide(slots) => Stored::Wide(Vec::from_slice(alloc, slots)?),
        };
        Ok(Slots { stored })
    }

    /// Empties all slots.
    pub fn clear(&mut self)
        ensures table { IsTableOf [] self.new }
        ensures count { length self.new ≡ length self.old }
    {
        match &mut self.stored {
            Stored::Few(few) => few.slots.fill(NarrowSlot::EMPTY),
            Stored::Narrow(slots) => slots.fill(NarrowSlot::EMPTY),
            Stored::Wide(slots) => slots.fill(Slot::EMPTY),
        }
    }

    /// Returns the number of slots.
    #[inline(always)]
    pub fn len(&self) -> usize
        ensures { result ≡ length self.now }
    {
        match &self.stored {
            Stored::Few(few) => usize::from(few.count),
            Stored::Narrow(slots) => slots.len(),
            Stored::Wide(slots) => slots.len(),
        }
    }

    /// Returns the contents of a slot.
    #[inline(always)]
    pub fn at(&self, slot: usize) -> Slot
        requires { slot < length self.now }
        ensures value { result ≡ get_or self.now slot blank }
        ensures fits { Fits (length self.now) result }
    {
        match &self.stored {
            Stored::Few(few) => few.slots[slot].widened(),
            Stored::Narrow(slots) => slots[slot].widened(),
            Stored::Wide(slots) => slots[slot],
        }
    }

    /// Writes `entry` to a slot.
    #[inline(always)]
    pub fn set(&mut self, slot: usize, entry: Slot)
        requires within { slot < length self.old }
        requires fits { Fits (length self.old) entry }
        ensures { self.new ≡ set self.old slot entry }
    {
        match &mut self.stored {
            Stored::Few(few) => few.slots[slot] = NarrowSlot::stored(entry),
            Stored::Narrow(slots) => slots[slot] = NarrowSlot::stored(entry),
            Stored::Wide(slots) => slots[slot] = entry,
        }
    }

    /// Probes for a key among `pairs`, from its home slot.
    ///
    /// `hash` is the part of the key's hash that the slots keep. The representation of the slots is
    /// tested once, before the probe.
    #[inline(always)]
    pub fn probe_for<V, H: KeyHash>(
        &self,
        pairs: &[(IString, V)],
        modulus: Modulus,
        hash: u64,
        home: usize,
        key: &str,
        looks: &mut Looks,
    ) -> Probed
        requires table { IsTableOf (map H.hash_of (keys_of pairs.now)) self.now }
        requires counted { modulus.count ≡ length self.now }
        requires hash { hash ≡ kept modulus.count (H.hash_of key.now) }
        requires home { home ≡ home_of H.hash_of modulus.count key.now }
        requires fits { (m : ℕ) → m < length (positions self.now)
            → Passed (displacement (map H.hash_of (keys_of pairs.now)) (positions self.now)) (length (positions self.now)) home m
            → looks.old + m + 1 < 2 ^ 128 }
        ensures grows { looks.old ≤ looks.new }
        ensures ends { Walks H.hash_of (keys_of pairs.now) (positions self.now) key.now (looks.new - looks.old) result }
    {
        let narrow: &[NarrowSlot] = match &self.stored {
            Stored::Few(few) => &few.slots[..usize::from(few.count)],
            Stored::Narrow(slots) => slots,
            Stored::Wide(slots) => {
                let lookup = Lookup {
                    pairs,
                    slots,
                    modulus,
                    hash,
                    key,
                    hash_by: PhantomData::<H>,
                };
                return probe(&lookup, modulus.count, home, looks);
            }
        };
        let lookup = Lookup {
            pairs,
            slots: narrow,
            modulus,
            hash,
            key,
            hash_by: PhantomData::<H>,
        };
        probe(&lookup, modulus.count, home, looks)
    }

    /// Inserts index `position` at slot `from`, shifting the residents after it forward by one
    /// slot.
    ///
    /// `hash` is the part of the key's hash that the slots keep. The shift ends at the first empty
    /// slot. Returns that slot, which is the last slot written. The representation of the slots is
    /// tested once.
    pub fn shift_forward(&mut self, from: usize, position: usize, hash: u64) -> usize
        requires may { (hashes : List ℕ) × MayPut hashes self.old position hash from }
        requires narrow { MayHold (length self.old) position hash }
        ensures { (hashes : List ℕ) → MayPut hashes self.old position hash from
            → IsPut hashes self.old position from result self.new }
    {
        match &mut self.stored {
            Stored::Few(few) => shift_forward(
                &mut few.slots[..usize::from(few.count)],
                from,
                position,
                hash,
            ),
            Stored::Narrow(slots) => shift_forward(slots, from, position, hash),
            Stored::Wide(slots) => shift_forward(slots, from, position, hash),
        }
    }

    /// Renumbers the residents for a move of the entry at index `from` to index `to`.
    ///
    /// The representation of the slots is tested once.
    pub fn renumber(&mut self, from: usize, to: usize)
        requires from { from < length self.old }
        requires to { to < length self.old }
        ensures { self.new ≡ map (renumbered from to) self.old }
    {
        if from == to {
            return;
        }
        match &mut self.stored {
            Stored::Few(few) => renumber(&mut few.slots[..usize::from(few.count)], from, to),
            Stored::Narrow(slots) => renumber(slots, from, to),
            Stored::Wide(slots) => renumber(slots, from, to),
        }
    }
}
