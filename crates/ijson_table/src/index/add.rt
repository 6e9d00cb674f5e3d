//! Insertion of the keys of a list of pairs, in order.

ghost use Rattle.std.specs.Prelude.{◌≡◌, ◌+◌, ◌-◌, ◌*◌, ◌^◌, ◌<◌, ◌≤◌, [], length, get_or, take, MatchOption};
ghost use Rattle.ijson_table.specs.Store.{at, keys_of};
ghost use Rattle.ijson_table.specs.private.CountedSteps.{CountsSteps};
ghost use Rattle.ijson_table.specs.private.FirstPlaced.{ComesAgain, FirstPlaced};
ghost use Rattle.ijson_table.specs.private.Insertion.{IsTableOf};
ghost use Rattle.ijson_table.specs.private.SlotHashes.{positions};

use crate::hash::KeyHash;
use crate::index::probe::Probed;
use crate::index::slots::Slots;
use crate::slot::{Modulus, distance_between};
use ijson_number::Looks;
use ijson_string::IString;

/// The average number of steps per pair above which a table is built by sorting.
///
/// Ordinary keys take about 3 steps in a small object, and 17 in an object with 30,000 numbered
/// keys.
pub const STEPS_PER_PAIR: usize = 32;

/// Inserts the indices of `pairs` into empty slots, until a key repeats or the steps exceed `most`.
///
/// Returns the number of indices inserted. `steps` counts each slot inspected and each slot
/// written.
#[inline(always)]
pub fn add_new_keys<V, H: KeyHash>(
    pairs: &[(IString, V)],
    slots: &mut Slots,
    most: usize,
    steps: &mut usize,
) -> usize
    requires empty { IsTableOf [] slots.old }
    requires room { length pairs.now ≤ length slots.old }
    requires most { most ≤ 2 ^ 62 }
    requires steps { steps.old ≡ 0 }
    requires few { length slots.old ≤ 2 ^ 60 }
    ensures within { result ≤ length pairs.now }
    ensures placed { FirstPlaced H.hash_of pairs.now result slots.new }
    ensures stops { result < length pairs.now → steps.new ≤ most → ComesAgain pairs.now result }
    ensures count { length slots.new ≡ length slots.old }
    ensures steps { steps.new ≤ most + 2 * length slots.old }
    ensures counted { result ≤ steps.new }
{
    if pairs.is_empty() {
        return 0;
    }
    let modulus = Modulus::new(slots.len());
    for position in 0..pairs.len() {
        if *steps > most {
            return position;
        }
        let None = add_new_key::<V, H>(pairs, slots, modulus, position, steps) else {
            return position;
        };
    }
    pairs.len()
}

/// Inserts index `position`, or returns the index of its key if the key is a duplicate.
///
/// Adds the number of slots read and written to `steps`. For a duplicate, these are the slots from
/// the home slot to the slot of the key. For a new key, these are the slots from the home slot to
/// the last slot written, with the slot at which the probe ended counted twice.
#[inline(always)]
pub fn add_new_key<V, H: KeyHash>(
    pairs: &[(IString, V)],
    slots: &mut Slots,
    modulus: Modulus,
    position: usize,
    steps: &mut usize,
) -> Option<usize>
    requires counted { modulus.count ≡ length slots.old }
    requires within { position < length pairs.now }
    requires room { position < length slots.old }
    requires placed { FirstPlaced H.hash_of pairs.now position slots.old }
    requires fits { steps.old + 2 * length slots.old < 2 ^ 64 }
    ensures found { result ≡ at (take position pairs.now) (get_or (keys_of pairs.now) position []) }
    ensures placed { MatchOption result
        (FirstPlaced H.hash_of pairs.now (position + 1) slots.new)
        (λ _. slots.new ≡ slots.old) }
    ensures count { length slots.new ≡ length slots.old }
    ensures steps { steps.new ≤ steps.old + 2 * length slots.old }
    ensures counted { CountsSteps H.hash_of (keys_of (take position pairs.now))
        (get_or (keys_of pairs.now) position []) (positions slots.old) (positions slots.new) (steps.new - steps.old) }
    ensures grows { steps.old < steps.new }
{
    let key = pairs[position].0.as_str();
    let (home, hash) = modulus.split(H::hash(key));
    let before = &pairs[..position];
    match slots.probe_for::<V, H>(before, modulus, hash, home, key, &mut Looks::new()) {
        Probed::Vacant(slot) => {
            let last = slots.shift_forward(slot, position, hash);
            *steps += distance_between(modulus.count, home, last) + 2;
            None
        }
        Probed::Found { at, slot } => {
            *steps += distance_between(modulus.count, home, slot) + 1;
            Some(at)
        }
        Probed::Full => unreachable!(),
    }
}
