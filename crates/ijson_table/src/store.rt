//! The interface of a pair store.

ghost use Rattle.std.specs.Prelude.{◌≡◌, ℕ, ◌+◌, ◌<◌, ◌≤◌, List, [], ◌∷◌, ◌++◌, length, slice_get, Some, None, OnOk};
ghost use Rattle.ijson_table.specs.Store.{at, keys_of, shift_out, swap_out, IsDistinct, with_value};
ghost use Rattle.ijson_table.specs.Growth.{Grow, Shrink, capacity_limit};
ghost use Rattle.ijson_table.specs.Inserts.{Inserts};
ghost use Rattle.std.specs.Borrow.{Lends, sem};

use ijson_string::IString;
use std::alloc::{AllocError, Global};
use std::mem;
use thiserror::Error;

/// The reason why a store was not created or its capacity did not change.
#[derive(Clone, Copy, Debug, PartialEq, Eq, Drop, Error)]
pub enum ReserveError {
    /// An allocation failed.
    #[error("out of memory")]
    Memory,
    /// The new capacity would exceed 2^56.
    #[error("the capacity would exceed 2^56")]
    TooLarge,
}

/// Converts an allocation error to `Memory`.
impl From<AllocError> for ReserveError {
    ghost use Rattle.std.specs.Prelude.{◌≡◌};
    ghost use Rattle.ijson_table.specs.declared.store.ReserveError.TheVariants.{Memory};

    ghost from_gives = { λ _ why. why ≡ Memory };

    fn from(_refused: AllocError) -> ReserveError {
        ReserveError::Memory
    }
}

/// An entry that was not inserted, and the reason.
///
/// The store is unchanged.
#[derive(Debug, Drop, Error)]
#[error("no capacity for the entry: {why}")]
pub struct RefusedPair<V> {
    /// The given key.
    pub key: IString,
    /// The given value.
    pub value: V,
    /// The reason why the store did not grow.
    pub why: ReserveError,
}

/// Converts to the reason, and drops the entry.
impl<V: Drop> From<RefusedPair<V>> for ReserveError {
    ghost use Rattle.std.specs.Prelude.{◌≡◌};

    ghost from_gives = { λ refused why. why ≡ refused.why };

    fn from(refused: RefusedPair<V>) -> ReserveError {
        let why = refused.why;
        drop(refused);
        why
    }
}

/// A list of entries with distinct keys, and a capacity.
///
/// The capacity is the number of entries that fit without growth.
///
/// # Cost
///
/// Each entry of the capacity takes 16 bytes plus the size of a value. The slots of a `Table` add,
/// per entry:
/// - up to a capacity of 8: nothing, because they are inline
/// - up to a capacity of 127: at most 4 bytes
/// - above: at most 20 bytes
///
/// Growing or shrinking a table, or copying it to a different number of slots, hashes each key
/// once, or twice if many keys collide. Copying it to the same number of slots hashes no key.
pub trait PairStore<V>: Sized {
    /// The entries, in order.
    ghost pairs: { Self → List (List ℕ × V) };

    /// The capacity.
    ghost room: { Self → ℕ };

    /// All keys are distinct.
    ghost distinct: { (s : Self) → IsDistinct (keys_of (pairs s)) };

    /// The store after the value at an index is replaced.
    ghost set_value: { Self → ℕ → V → Self };

    /// Creates an empty store of capacity 0, without allocating.
    fn new(alloc: Global) -> Self
        ensures pairs { pairs result ≡ [] }
        ensures room { room result ≡ 0 };

    /// Returns the number of entries.
    fn len(&self) -> usize
        ensures { result ≡ length (pairs self.now) };

    /// Returns the capacity, which is at least the length and at most 2^56.
    fn capacity(&self) -> usize
        ensures room { result ≡ room self.now }
        ensures within { length (pairs self.now) ≤ room self.now }
        ensures limited { room self.now ≤ capacity_limit };

    /// Reserves capacity for `additional` more entries.
    ///
    /// If they do not fit, the new capacity is the maximum of twice the old capacity, the length
    /// plus `additional`, and 4. If entries are inserted one by one, the capacity is 4, 8, 16 and
    /// so on, and each insertion takes amortized constant time.
    ///
    /// # Errors
    ///
    /// `TooLarge` if the capacity would exceed 2^56, `Memory` if an allocation fails. The store is
    /// unchanged.
    ///
    /// # Cost
    ///
    /// A growth moves each entry at most once. A table also fills new slots, in time linear in the
    /// old and the new capacity if few keys collide.
    ///
    /// If there are more than 127 keys and many of them collide, a table sorts hashed indices of 16
    /// bytes each in temporary memory. The time is at most O(n log n) for all keys.
    fn reserve(&mut self, additional: usize) -> Result<(), ReserveError>
        ensures grown { Grow (length (pairs self.old)) (room self.old) additional result (room self.new) }
        ensures room { OnOk result (length (pairs self.new) + additional ≤ room self.new) }
        ensures pairs { pairs self.new ≡ pairs self.old };

    /// Shrinks the capacity to the length.
    ///
    /// Does not allocate if the capacity equals the length or the length is 0. Each entry moves at
    /// most once, and a table fills new slots. If there are more than 63 keys and many of them
    /// collide, a table sorts hashed indices in temporary memory, like `reserve`.
    ///
    /// # Errors
    ///
    /// Only `Memory`, if an allocation fails. The store is unchanged.
    fn shrink_to_fit(&mut self) -> Result<(), ReserveError>
        ensures room { Shrink (length (pairs self.old)) (room self.old) result (room self.new) }
        ensures pairs { pairs self.new ≡ pairs self.old };

    /// Returns the index of a key, or `None` if the key is missing.
    ///
    /// # Cost
    ///
    /// A list compares its keys from the first on. A table hashes `key` once, and compares it with
    /// the key of each resident that the probe inspects.
    fn position(&self, key: &str) -> Option<usize>
        ensures { result ≡ at (pairs self.now) key.now };

    /// Returns the entry at `index`, which must be below the length, in constant time.
    fn pair(&self, index: usize) -> (&IString, &V)
        requires { index < length (pairs self.now) }
        ensures { slice_get (pairs self.now) index ≡ Some (result.0.now, result.1.now) };

    /// Mutably borrows the value at `index`, which must be below the length, in constant time.
    fn value_mut(&mut self, index: usize) -> &mut V
        requires { index < length (pairs self.old) }
        ensures* writes_back { sem 𝓛
            (Lends Self.row V.row self.entry result (λ w. set_value self.old index w)) }
        ensures value { (key : List ℕ) × (slice_get (pairs self.old) index ≡ Some (key, result.now)) }
    {
        let (_key, value) = self.pair_mut(index);
        value
    }

    /// Borrows the key and mutably borrows the value at `index`, in constant time.
    ///
    /// `index` must be below the length.
    fn pair_mut(&mut self, index: usize) -> (&IString, &mut V)
        requires { index < length (pairs self.old) }
        ensures* writes_back { sem 𝓛
            (Lends Self.row V.row self.entry result.1 (λ w. set_value self.old index w)) }
        ensures pair { slice_get (pairs self.old) index ≡ Some (result.0.now, result.1.now) };

    /// Appends an entry within the spare capacity.
    ///
    /// The key must be missing, and the length must be below the capacity. A table hashes the key.
    fn push_new(&mut self, key: IString, value: V)
        requires missing { at (pairs self.old) key ≡ None }
        requires within { length (pairs self.old) < room self.old }
        ensures pairs { pairs self.new ≡ pairs self.old ++ (key, value) ∷ [] }
        ensures room { room self.new ≡ room self.old };

    /// Removes and returns the entry at `index`, and moves the last entry to `index`.
    ///
    /// `index` must be below the length.
    ///
    /// # Cost
    ///
    /// Constant for a list. A table hashes the removed key and the last key, and shifts residents
    /// backward. Nothing is allocated.
    fn swap_out(&mut self, index: usize) -> (IString, V)
        requires { index < length (pairs self.old) }
        ensures pair { slice_get (pairs self.old) index ≡ Some result }
        ensures pairs { pairs self.new ≡ swap_out (pairs self.old) index }
        ensures room { room self.new ≡ room self.old };

    /// Removes and returns the entry at `index`, and moves each later entry down by one index.
    ///
    /// `index` must be below the length.
    ///
    /// # Cost
    ///
    /// Linear in the number of later entries. Nothing is allocated. A table also passes over all
    /// its slots, unless the entry is the last.
    fn shift_out(&mut self, index: usize) -> (IString, V)
        requires { index < length (pairs self.old) }
        ensures pair { slice_get (pairs self.old) index ≡ Some result }
        ensures pairs { pairs self.new ≡ shift_out (pairs self.old) index }
        ensures room { room self.new ≡ room self.old }
        ensures spare { length (pairs self.new) < room self.new };

    /// Converts the store into the list of its entries, in order, without copying them.
    fn into_pairs(self) -> Vec<(IString, V)>
        ensures { result.items ≡ pairs self };

    /// Drops all entries and keeps the capacity.
    ///
    /// A table also passes over all its slots.
    fn clear(&mut self)
        ensures pairs { pairs self.new ≡ [] }
        ensures room { room self.new ≡ room self.old };

    /// Setting a value leaves the keys, the other entries and the capacity unchanged.
    ghost set_value_is: { (s : Self) (i : ℕ) (v : V)
        → (pairs (set_value s i v) ≡ with_value (pairs s) i v) × (room (set_value s i v) ≡ room s) };
}

/// Inserts an entry into a store and returns the old value of its key, if any.
///
/// A present key keeps its index, and nothing is allocated. A new entry is appended. If the store
/// is full, it grows first.
///
/// # Errors
///
/// If the growth fails, the entry is returned and the store is unchanged.
pub fn insert<V: Drop, P: PairStore<V>>(
    store: &mut P,
    key: IString,
    value: V,
) -> Result<Option<V>, RefusedPair<V>>
    ensures { Inserts (P.pairs store.old) (P.room store.old) key value result
        (P.pairs store.new) (P.room store.new) }
{
    if let Some(at) = store.position(key.as_str()) {
        return Ok(Some(mem::replace(store.value_mut(at), value)));
    }
    if let Err(why) = store.reserve(1) {
        return Err(RefusedPair { key, value, why });
    }
    store.push_new(key, value);
    Ok(None)
}
