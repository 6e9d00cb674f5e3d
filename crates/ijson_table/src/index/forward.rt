//! The forward shift of residents for an insertion, and the renumbering of residents.
//!
//! `shift_forward` and `renumber` work on each representation of slots.

ghost use Rattle.std.specs.Prelude.{◌≡◌, ℕ, ◌+◌, ◌<◌, List, length, map};
ghost use Rattle.ijson_table.specs.private.Insertion.{IsPut, MayPut};
ghost use Rattle.ijson_table.specs.private.Moving.{renumbered};

use crate::index::probe::next_slot;
use crate::slot::Slot;
use crate::slot::stored::StoredSlot;

/// Inserts index `position` at slot `from`, shifting the residents after it forward by one slot.
///
/// `hash` is the part of the key's hash that the slots keep. The shift ends at the first empty
/// slot. Returns that slot, which is the last slot written. `S` is the representation of the slots.
pub fn shift_forward<S: StoredSlot + Copy + Drop>(
    slots: &mut [S],
    from: usize,
    position: usize,
    hash: u64,
) -> usize
    requires may { (hashes : List ℕ) × MayPut hashes (map S.stands_for slots.old) position hash from }
    requires code { position + 1 < S.code_limit }
    requires hash { hash < S.hash_limit }
    ensures { (hashes : List ℕ) → MayPut hashes (map S.stands_for slots.old) position hash from
        → IsPut hashes (map S.stands_for slots.old) position from result (map S.stands_for slots.new) }
{
    let count = slots.len();
    let mut entry = S::stored(Slot::of(position, hash));
    let mut slot = from;
    loop {
        let was = slots[slot];
        slots[slot] = entry;
        if was.widened().is_empty() {
            return slot;
        }
        entry = was;
        slot = next_slot(count, slot);
    }
}

/// Renumbers the residents for a move of the entry at index `from` to index `to`.
pub fn renumber<S: StoredSlot + Copy + Drop>(slots: &mut [S], from: usize, to: usize)
    requires from { from < length slots.old }
    requires to { to < length slots.old }
    requires from_code { from + 1 < S.code_limit }
    requires to_code { to + 1 < S.code_limit }
    ensures { map S.stands_for slots.new ≡ map (renumbered from to) (map S.stands_for slots.old) }
{
    for slot in 0..slots.len() {
        slots[slot] = S::stored(slots[slot].widened().renumbered(from, to));
    }
}
