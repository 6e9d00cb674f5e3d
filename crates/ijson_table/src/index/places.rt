//! A table whose slots can be inspected, and the lookup that counts inspections.

ghost use Rattle.std.specs.Prelude.{◌≡◌, ℕ, ◌+◌, ◌-◌, ◌<◌, ◌≤◌, ◌^◌, List, length, map, Option};
ghost use Rattle.ijson_table.specs.Store.{position_of, IsDistinct};
ghost use Rattle.ijson_table.specs.Crowd.{home_of, slot_count};
ghost use Rattle.ijson_table.specs.Slots.{IsTable, IsBounded, displacement};
ghost use Rattle.ijson_table.specs.Sees.{Sees};
ghost use Rattle.ijson_table.specs.private.Lookup.{is_key};

use crate::index::probe::{ProbeTarget, probe};
use crate::slot::Seen;
use ijson_number::Looks;

/// A table: a list of keys, and slots that hold the indices of the keys.
///
/// A resident is displaced at most one slot further than the resident of the previous slot. After
/// an empty slot, a resident is in its home slot. There are five slots for every four entries of
/// the capacity.
pub trait Places {
    /// The hash that selects the home slot of a key.
    ghost hash_of: { List ℕ → ℕ };

    /// The keys, in order.
    ghost keys: { Self → List (List ℕ) };

    /// The capacity.
    ghost room: { Self → ℕ };

    /// The resident of each slot.
    ghost slots: { Self → List (Option ℕ) };

    /// All keys are distinct.
    ghost distinct: { (table : Self) → IsDistinct (keys table) };

    /// Returns the number of slots.
    fn places(&self) -> usize
        ensures count { result ≡ length (slots self.now) }
        ensures size { length (slots self.now) ≡ slot_count (room self.now) }
        ensures table { IsTable (map hash_of (keys self.now)) (slots self.now) };

    /// Returns the home slot of a key: its hash modulo the number of slots.
    fn home(&self, key: &str) -> usize
        requires { 0 < length (slots self.now) }
        ensures { result ≡ home_of hash_of (length (slots self.now)) key.now };

    /// Inspects one slot and the key of its resident, and adds one inspection to `looks`.
    ///
    /// The `distance` in the result is the number of slots from the home slot of the resident to
    /// `slot`.
    fn look(&self, slot: usize, key: &str, looks: &mut Looks) -> Seen
        requires within { slot < length (slots self.now) }
        requires fits { looks.old + 1 < 2 ^ 128 }
        ensures sees { Sees hash_of (keys self.now) (slots self.now) slot key.now result }
        ensures counts { looks.new ≡ looks.old + 1 };
}

/// A key to look up in a table.
#[derive(Drop)]
struct KeyProbe<'a, P: Places> {
    table: &'a P,
    key: &'a str,
}

impl<'a, P: Places> ProbeTarget for KeyProbe<'a, P> {
    ghost slots = { λ s. P.slots s.table.now };

    ghost displacements = { λ s. displacement (map P.hash_of (P.keys s.table.now)) (P.slots s.table.now) };

    ghost seeks = { λ s. is_key (P.keys s.table.now) s.key.now };

    #[tactic(auto, using(crate::proofs::probing::KeyTests::sees_looks))]
    fn look(&self, slot: usize, looks: &mut Looks) -> Seen {
        self.table.look(slot, self.key, looks)
    }
}

/// Returns the index of a key, or `None` if the key is missing.
///
/// The probe starts at the home slot of the key. It ends at the key, at an empty slot, or at a
/// resident closer to its own home slot. Each inspection is added to `looks`, which must not reach
/// 2^128.
///
/// # Cost
///
/// If a slot is empty, at most one inspection more than the size of the collision cluster (`crowd`)
/// of the home slot. If no slot is empty, at most one inspection per key.
pub fn locate<P: Places>(table: &P, key: &str, looks: &mut Looks) -> Option<usize>
    requires { looks.old + length (P.keys table.now) + 1 < 2 ^ 128 }
    ensures found { result ≡ position_of (P.keys table.now) key.now }
    ensures grows { looks.old ≤ looks.new }
    ensures bounded { IsBounded P.hash_of (P.keys table.now) (P.slots table.now) (P.room table.now) key.now
        (looks.new - looks.old) }
{
    let count = table.places();
    if count == 0 {
        return None;
    }
    probe(&KeyProbe { table, key }, count, table.home(key), looks).found()
}
