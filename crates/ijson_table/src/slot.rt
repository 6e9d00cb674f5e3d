//! The slots of a table.
//!
//! - `Slot`: one slot.
//! - `Seen`: the result of an inspection.
//! - `Modulus`: the number of slots, by which hashes are reduced to home slots.

ghost use Rattle.std.specs.Prelude.{◌≡◌, ◌+◌, ◌-◌, ◌<◌, ◌/◌, ◌%◌, ◌^◌, Some, None, IsTrue, ◌↔◌};
ghost use Rattle.ijson_table.specs.Crowd.{distance};
ghost use Rattle.ijson_table.specs.private.KeptHash.{kept};
ghost use Rattle.ijson_table.specs.private.Moving.{moved, renumbered};
ghost use Rattle.ijson_table.specs.private.SlotHashes.{position_in, SeenAs};

pub mod narrow;
pub mod stored;

/// The result of one inspection of a slot.
#[derive(Clone, Copy, Debug, PartialEq, Eq, Drop)]
pub enum Seen {
    /// The slot is empty.
    Empty,
    /// The slot has a resident.
    Resident {
        /// The index of the entry.
        at: usize,
        /// The probe distance: the number of slots from the home slot to this slot, wrapping
        /// around.
        distance: usize,
        /// `true` if the key of the entry is the key sought.
        same: bool,
    },
}

/// A slot: empty, or the index of an entry with the kept part of its key's hash.
///
/// The probe distance follows from the hash. Most keys with the same home slot have different
/// hashes, so a probe rarely reads the memory of a key.
#[derive(Clone, Copy, Drop)]
pub struct Slot {
    /// 0 if the slot is empty, else the index plus one.
    code: usize,
    /// The kept part of the hash of the resident's key.
    pub hash: u64,
}

impl Slot {
    /// The empty slot.
    pub const EMPTY: Slot = Slot { code: 0, hash: 0 };

    /// Creates a slot with index `position` and hash `hash`.
    pub fn of(position: usize, hash: u64) -> Slot
        requires { position + 1 < 2 ^ 64 }
        ensures position { position_in result ≡ Some position }
        ensures hash { result.hash ≡ hash }
    {
        Slot {
            code: position + 1,
            hash,
        }
    }

    /// Returns `true` if the slot is empty.
    pub fn is_empty(self) -> bool
        ensures { IsTrue result ↔ (position_in self ≡ None) }
    {
        self.code == 0
    }

    /// Returns the index in the slot, or `None` if the slot is empty.
    pub fn position(self) -> Option<usize>
        ensures { result ≡ position_in self }
    {
        if self.code == 0 {
            None
        } else {
            Some(self.code - 1)
        }
    }

    /// Returns the slot, renumbered for a move of the entry at index `from` to index `to`.
    pub fn renumbered(self, from: usize, to: usize) -> Slot
        requires from { from + 1 < 2 ^ 64 }
        requires to { to + 1 < 2 ^ 64 }
        ensures { result ≡ renumbered from to self }
    {
        Slot {
            code: moved(self.code, from + 1, to + 1),
            hash: self.hash,
        }
    }

    /// Returns the result of inspecting this slot, which is slot number `slot`.
    ///
    /// `same` is whether the key of the resident is the key sought.
    pub fn seen(self, modulus: Modulus, slot: usize, same: bool) -> Seen
        requires { slot < modulus.count }
        ensures { SeenAs self modulus.count slot same result }
    {
        match self.position() {
            None => Seen::Empty,
            Some(at) => Seen::Resident {
                at,
                distance: distance_between(modulus.count, modulus.home_of_hash(self.hash), slot),
                same,
            },
        }
    }
}

/// Returns the new index of the element at `index` if the element at `from` is moved to `to`.
///
/// The indices in between change by one.
#[inline(always)]
fn moved(index: usize, from: usize, to: usize) -> usize
    ensures { result ≡ moved from to index }
{
    if index < from.min(to) || from.max(to) < index {
        index
    } else if index == from {
        to
    } else if from < to {
        index - 1
    } else {
        index + 1
    }
}

/// Returns the number of slots from `from` to `to`, wrapping around.
#[inline(always)]
pub fn distance_between(slots: usize, from: usize, to: usize) -> usize
    requires from { from < slots }
    requires to { to < slots }
    ensures { result ≡ distance slots from to }
{
    if from <= to {
        to - from
    } else {
        slots - (from - to)
    }
}

/// The maximum number of slots for which slots keep only part of a hash.
///
/// The kept part is the home slot and eight bits of the quotient of the hash by the number of
/// slots. A table of capacity 127 has 158 slots.
pub const NARROW_SLOTS: usize = 158;

/// A number of slots with its reciprocal.
///
/// Computing the reciprocal takes one division. With it, each hash is reduced by multiplication, in
/// a fraction of the time of a division.
#[derive(Clone, Copy, Drop)]
pub struct Modulus {
    /// The number of slots.
    pub count: usize,
    reciprocal: u64,
    ghost some: { 0 < count },
    ghost divided: { reciprocal ≡ (2 ^ 64 - 1) / count },
}

impl Modulus {
    /// Creates the modulus of `count` slots.
    pub fn new(count: usize) -> Modulus
        requires { 0 < count }
        ensures { result.count ≡ count }
    {
        Modulus {
            count,
            reciprocal: u64::MAX / count as u64,
        }
    }

    /// Returns the home slot of a hash.
    #[inline(always)]
    pub fn home_of_hash(self, hash: u64) -> usize
        ensures value { result ≡ hash % self.count }
        ensures within { result < self.count }
    {
        let (_quotient, home) = divided(hash, self.count as u64, self.reciprocal);
        home as usize
    }

    /// Returns the home slot of a hash, and the part of the hash that a slot keeps.
    ///
    /// With at most `NARROW_SLOTS` slots, the kept part is the home slot and eight bits of the
    /// quotient, which differ for most keys. Otherwise, the kept part is the full hash.
    #[inline(always)]
    pub fn split(self, hash: u64) -> (usize, u64)
        ensures home { result.0 ≡ hash % self.count }
        ensures within { result.0 < self.count }
        ensures kept { result.1 ≡ kept self.count hash }
    {
        let count = self.count as u64;
        let (quotient, home) = divided(hash, count, self.reciprocal);
        let kept = if self.count > NARROW_SLOTS {
            hash
        } else {
            quotient % 256 * count + home
        };
        (home as usize, kept)
    }
}

/// Returns the quotient and the remainder of a hash by `count`, computed with its reciprocal.
///
/// Multiplying by the reciprocal yields the quotient or the quotient minus one.
#[inline(always)]
fn divided(hash: u64, count: u64, reciprocal: u64) -> (u64, u64)
    requires some { 0 < count }
    requires reciprocal { reciprocal ≡ (2 ^ 64 - 1) / count }
    ensures quotient { result.0 ≡ hash / count }
    ensures left { result.1 ≡ hash % count }
{
    let quotient = ((u128::from(hash) * u128::from(reciprocal)) >> 64) as u64;
    let left = hash - quotient * count;
    if left < count {
        (quotient, left)
    } else {
        (quotient + 1, left - count)
    }
}
