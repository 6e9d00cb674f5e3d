//! A pair store that finds keys by their hash.

ghost use Rattle.std.specs.Prelude.{◌≡◌, ℕ, ◌+◌, ◌-◌, ◌<◌, ◌≤◌, ◌^◌, List, [], ◌∷◌, ◌++◌, length, get_or, slice_get, map};
ghost use Rattle.std.specs.Prelude.{Err, refl, is_some, IfOk, IsOk, IsTrue, OnErr, OnOk, ◌↔◌, Some, None};
ghost use Rattle.std.specs.List.{insert};
ghost use Rattle.std.specs.Option.{option_copied};
ghost use Rattle.std.specs.Slice.Iter.{iter_rest};
ghost use Rattle.ijson_table.specs.BuildBound.{IsBuildBounded};
ghost use Rattle.ijson_table.specs.Growth.{Grow, Shrink, capacity_limit};
ghost use Rattle.ijson_table.specs.Inserts.{Inserts};
ghost use Rattle.ijson_table.specs.Slots.{IsBounded};
ghost use Rattle.ijson_table.specs.Store.{at, keys_of, shift_out, IsDistinct, lookup, with_key};
ghost use Rattle.ijson_table.specs.PlacedWithValue.{placed_with_value};
ghost use Rattle.ijson_table.specs.laws.Store.{IsDistinct-prop};
ghost use Rattle.ijson_table.specs.private.Holds.{HasEmpty, MayStand};
ghost use Rattle.ijson_table.specs.private.IsPlaced.{IsPlaced};
ghost use Rattle.ijson_table.specs.private.KeptHash.{kept as kept_part};
ghost use Rattle.ijson_table.specs.private.Lookup.{LookUpEnds};
ghost use Rattle.ijson_table.specs.private.Room.{HasRoom, IsResized};

mod from_list;

use crate::growth::{check_capacity, grown_capacity, slots_for};
use crate::hash::KeyHash;
use crate::index::add::{STEPS_PER_PAIR, add_new_keys};
use crate::index::fill::fill_sorted;
use crate::index::places::{Places, locate};
use crate::index::probe::{Probed, has_key};
use crate::index::slots::Slots;
use crate::slot::{Modulus, Seen};
use crate::store::{PairStore, RefusedPair, ReserveError};
use crate::vec::{set_capacity, shrink_to_len};
use ijson_number::Looks;
use ijson_string::IString;
use std::alloc::{AllocError, Global};
use std::marker::{Model, PhantomData};
use std::{fmt, mem, slice};

/// A list of entries, with a hash index: slots that hold the indices of the entries.
///
/// There are five slots for every four entries of the capacity. Up to a capacity of 127, a slot
/// takes three bytes, and keeps the home slot and eight more bits of a hash; up to a capacity of 8,
/// these slots are inline. Above 127, a slot takes 16 bytes, and keeps the full hash.
///
/// # Cost
///
/// `get`, `get_index_of` and `insert` read the memory of a key only if the kept parts of both
/// hashes are equal. `position` and `locate` read the key of each resident that they inspect.
#[derive(Drop)]
pub struct Table<V, H: KeyHash> {
    pairs: Vec<(IString, V)>,
    slots: Slots,
    alloc: Global,
    hash: PhantomData<H>,
    ghost distinct: { IsDistinct (keys_of pairs.items) } by { IsDistinct-prop (keys_of pairs.items) },
}

impl<V, H: KeyHash> Model for Table<V, H> {
    ghost use Rattle.std.specs.Prelude.{vec_capacity};
    ghost use Rattle.ijson_table.specs.Placed.{Placed};
    ghost use Rattle.ijson_table.specs.laws.Placed.{placed_code};
    ghost use Rattle.ijson_table.specs.private.IsPlaced.{IsPlaced};
    ghost use Rattle.ijson_table.specs.private.SlotHashes.{positions};

    ghost Value = { Placed V };

    ghost coded = { placed_code V.code };

    ghost view = { λ t. record {
      store = record { pairs = t.pairs.items; capacity = vec_capacity t.pairs; distinct = t.distinct };
      slots = positions t.slots;
    } };

    ghost invariant = { λ t. IsPlaced H.hash_of t.pairs.items (vec_capacity t.pairs) t.slots };
}

impl<V: Drop, H: KeyHash> Table<V, H> {
    /// Creates an empty store with capacity `capacity`.
    ///
    /// A capacity of 0 does not allocate.
    ///
    /// # Errors
    ///
    /// `TooLarge` if `capacity` exceeds 2^56, `Memory` if an allocation fails.
    pub fn with_capacity(alloc: Global, capacity: usize) -> Result<Table<V, H>, ReserveError>
        ensures made { IfOk result (λ t. (t.store.pairs ≡ []) × (t.store.capacity ≡ capacity)) }
        ensures too_large { (result ≡ Err ReserveError.TooLarge) ↔ (capacity_limit < capacity) }
        ensures none { capacity ≡ 0 → IsOk result }
    {
        let capacity = check_capacity(capacity)?;
        let pairs = Vec::with_capacity(alloc, capacity)?;
        let slots = Slots::with_count(alloc, slots_for(capacity))?;
        Ok(Table {
            pairs,
            slots,
            alloc,
            hash: PhantomData,
        })
    }

    /// Creates a store of `pairs`, whose keys must be the keys of this store in the same order.
    ///
    /// Use it to clone a store. The new store is without spare capacity. An empty list does not
    /// allocate.
    ///
    /// # Errors
    ///
    /// If an allocation fails, the pairs are dropped.
    ///
    /// # Cost
    ///
    /// If this store is without spare capacity, no key is hashed, and the time is linear in the
    /// number of entries. Otherwise, the cost is the same as for `from_pairs`.
    pub fn with_same_keys(
        &self,
        alloc: Global,
        mut pairs: Vec<(IString, V)>,
    ) -> Result<Table<V, H>, AllocError>
        requires { keys_of pairs.items ≡ keys_of self.now.store.pairs }
        ensures pairs { IfOk result (λ table. table.store.pairs ≡ pairs.items) }
        ensures capacity { IfOk result (λ table. table.store.capacity ≡ length pairs.items) }
        ensures refused { OnErr result (0 < length pairs.items) }
    {
        let capacity = self.pairs.len();
        let slots = self.slots_with_capacity(alloc, capacity, &mut Looks::new())?;
        shrink_to_len(alloc, &mut pairs)?;
        Ok(Table {
            pairs,
            slots,
            alloc,
            hash: PhantomData,
        })
    }

    /// Inserts an entry and returns the old value of its key, if any.
    ///
    /// A present key keeps its index, and nothing is allocated. A new entry is appended. If the
    /// store is full, it grows first.
    ///
    /// # Errors
    ///
    /// If the growth fails, the entry is returned and the store is unchanged.
    ///
    /// # Cost
    ///
    /// One probe, and `key` is hashed once. If the table grows, each of its keys is hashed once, or
    /// twice if many keys collide, and a second probe follows.
    pub fn insert(&mut self, key: IString, value: V) -> Result<Option<V>, RefusedPair<V>>
        ensures { Inserts self.old.store.pairs self.old.store.capacity key value result
            self.new.store.pairs self.new.store.capacity }
    {
        self.insert_counted(key, value, &mut Looks::new())
    }

    /// Like `insert`, but adds to `looks` each slot inspected for the key.
    ///
    /// The second probe, after a growth, is not counted.
    #[inline(always)]
    pub fn insert_counted(
        &mut self,
        key: IString,
        value: V,
        looks: &mut Looks,
    ) -> Result<Option<V>, RefusedPair<V>>
        requires fits { looks.old + capacity_limit + 1 < 2 ^ 128 }
        ensures inserts { Inserts self.old.store.pairs self.old.store.capacity key value result
            self.new.store.pairs self.new.store.capacity }
        ensures grows { looks.old ≤ looks.new }
        ensures bounded { IsBounded H.hash_of (keys_of self.old.store.pairs) self.old.slots
            self.old.store.capacity key (looks.new - looks.old) }
    {
        let hash = H::hash(key.as_str());
        match self.find(hash, key.as_str(), looks) {
            (Probed::Found { at, .. }, _kept) => {
                drop(key);
                Ok(Some(mem::replace(self.value_mut(at), value)))
            }
            (Probed::Vacant(slot), kept) if self.pairs.len() < self.pairs.capacity() => {
                self.push_at(slot, key, value, kept);
                Ok(None)
            }
            (Probed::Vacant(_) | Probed::Full, _kept) => {
                if let Err(why) = self.reserve(1) {
                    return Err(RefusedPair { key, value, why });
                }
                self.push_hashed(key, value, hash);
                Ok(None)
            }
        }
    }

    /// Sets the capacity to `capacity`, which must be the length or at least the old capacity.
    ///
    /// Adds the steps of `slots_with_capacity` to `looks`. If an allocation fails, the table is
    /// unchanged.
    fn set_capacity(&mut self, capacity: usize, looks: &mut Looks) -> Result<(), AllocError>
        requires room { HasRoom (length self.old.store.pairs) capacity }
        requires grows { length self.old.store.pairs < capacity → self.old.store.capacity ≤ capacity }
        requires fits { looks.old + 2 ^ 72 < 2 ^ 128 }
        ensures resized { IsResized self.old.store.pairs self.old.store.capacity capacity result
            self.new.store.pairs self.new.store.capacity }
        ensures bounded { IsBuildBounded capacity (looks.new - looks.old) }
    {
        let slots = self.slots_with_capacity(self.alloc, capacity, looks)?;
        if let Err(refused) = set_capacity(self.alloc, &mut self.pairs, capacity) {
            drop(slots);
            return Err(refused);
        }
        drop(mem::replace(&mut self.slots, slots));
        Ok(())
    }

    /// Like `reserve`, but adds the steps of a growth to `looks`.
    ///
    /// A step is a slot inspected or written by an insertion, or a comparison in sorting.
    pub fn reserve_counted(
        &mut self,
        additional: usize,
        looks: &mut Looks,
    ) -> Result<(), ReserveError>
        requires fits { looks.old + 2 ^ 72 < 2 ^ 128 }
        ensures grown { Grow (length self.old.store.pairs)
            self.old.store.capacity additional result self.new.store.capacity }
        ensures room { OnOk result (length self.new.store.pairs + additional ≤ self.new.store.capacity) }
        ensures pairs { self.new.store.pairs ≡ self.old.store.pairs }
        ensures bounded { OnOk result (IsBuildBounded self.new.store.capacity (looks.new - looks.old)) }
    {
        let len = self.pairs.len();
        match grown_capacity(len, self.pairs.capacity(), additional)? {
            Some(capacity) => Ok(self.set_capacity(capacity, looks)?),
            None => Ok(()),
        }
    }

    /// Like `shrink_to_fit`, but adds the steps of filling the new slots to `looks`.
    ///
    /// A step is a slot inspected or written by an insertion, or a comparison in sorting.
    pub fn shrink_to_fit_counted(&mut self, looks: &mut Looks) -> Result<(), ReserveError>
        requires fits { looks.old + 2 ^ 72 < 2 ^ 128 }
        ensures room { Shrink (length self.old.store.pairs) self.old.store.capacity result self.new.store.capacity }
        ensures pairs { self.new.store.pairs ≡ self.old.store.pairs }
        ensures bounded { OnOk result (IsBuildBounded self.new.store.capacity (looks.new - looks.old)) }
    {
        let len = self.pairs.len();
        if self.pairs.capacity() == len {
            return Ok(());
        }
        Ok(self.set_capacity(len, looks)?)
    }

    /// Like `push_new`, but with the hash of the key already computed.
    pub fn push_hashed(&mut self, key: IString, value: V, hash: u64)
        requires missing { at self.old.store.pairs key ≡ None }
        requires hash { hash ≡ H.hash_of key }
        requires room { length self.old.store.pairs < self.old.store.capacity }
        ensures pairs { self.new.store.pairs ≡ self.old.store.pairs ++ (key, value) ∷ [] }
        ensures capacity { self.new.store.capacity ≡ self.old.store.capacity }
    {
        match self.find(hash, key.as_str(), &mut Looks::new()) {
            (Probed::Vacant(slot), kept) => self.push_at(slot, key, value, kept),
            (Probed::Found { .. } | Probed::Full, _kept) => unreachable!(),
        };
    }

    /// Replaces the key at `index` with `key`, and returns the old key.
    ///
    /// `index` must be below the length, and `key` must be missing.
    ///
    /// # Cost
    ///
    /// Hashes the old and the new key, and inspects the collision clusters of their home slots.
    /// Nothing is allocated.
    pub fn replace_key_at(&mut self, index: usize, key: IString) -> IString
        requires within { index < length self.old.store.pairs }
        requires missing { at self.old.store.pairs key ≡ None }
        ensures key { result ≡ get_or (keys_of self.old.store.pairs) index [] }
        ensures pairs { self.new.store.pairs ≡ with_key self.old.store.pairs index key }
        ensures capacity { self.new.store.capacity ≡ self.old.store.capacity }
    {
        self.slots
            .rehash_one::<V, H>(&self.pairs, index, H::hash(key.as_str()));
        mem::replace(&mut self.pairs[index].0, key)
    }

    /// Moves the entry at index `from` to index `to`.
    ///
    /// Both indices must be below the length. The entries in between move by one index.
    ///
    /// # Cost
    ///
    /// Linear in the number of slots and in the number of entries from the lower index on. No key
    /// is hashed. Nothing is allocated.
    pub fn move_index(&mut self, from: usize, to: usize)
        requires from { from < length self.old.store.pairs }
        requires to { to < length self.old.store.pairs }
        ensures pairs { (pair : List ℕ × V) → slice_get self.old.store.pairs from ≡ Some pair
            → self.new.store.pairs ≡ insert (shift_out self.old.store.pairs from) to pair }
        ensures capacity { self.new.store.capacity ≡ self.old.store.capacity }
    {
        self.slots.renumber(from, to);
        let pair = self.pairs.remove(from);
        match self.pairs.insert(to, pair) {
            Ok(()) => (),
            Err(_) => unreachable!(),
        }
    }

    /// Like `push_hashed`, but inserts the index at `slot`, at which the probe for the key ended.
    ///
    /// `kept` is the part of the key's hash that the slots keep.
    #[inline(always)]
    fn push_at(&mut self, slot: usize, key: IString, value: V, kept: u64)
        requires missing { at self.old.store.pairs key ≡ None }
        requires kept { kept ≡ kept_part (length self.old.slots) (H.hash_of key) }
        requires room { length self.old.store.pairs < self.old.store.capacity }
        requires may { MayStand (map H.hash_of (keys_of self.old.store.pairs) ++ H.hash_of key ∷ []) self.old.slots
            (length (map H.hash_of (keys_of self.old.store.pairs))) slot }
        ensures pairs { self.new.store.pairs ≡ self.old.store.pairs ++ (key, value) ∷ [] }
        ensures capacity { self.new.store.capacity ≡ self.old.store.capacity }
    {
        let position = self.pairs.len();
        self.pairs.push_reserved((key, value));
        self.slots.shift_forward(slot, position, kept);
    }
}

impl<V, H: KeyHash> Table<V, H> {
    /// Borrows the entries, in order.
    pub fn as_slice(&self) -> &[(IString, V)]
        ensures { result.now ≡ self.now.store.pairs }
    {
        self.pairs.as_slice()
    }

    /// Returns an iterator over the entries, in order.
    pub fn iter(&self) -> slice::Iter<'_, (IString, V)>
        ensures { iter_rest result ≡ self.now.store.pairs }
    {
        self.pairs.iter()
    }

    /// Returns `true` if the table has no entries.
    pub fn is_empty(&self) -> bool
        ensures { IsTrue result ↔ (self.now.store.pairs ≡ []) }
    {
        self.pairs.is_empty()
    }

    /// Returns the value of a key, or `None` if the key is missing.
    ///
    /// # Cost
    ///
    /// Hashes the key once, and inspects the collision cluster of its home slot.
    pub fn get(&self, key: &str) -> Option<&V>
        ensures { option_copied result ≡ lookup key.now self.now.store.pairs }
    {
        self.get_counted(key, &mut Looks::new())
    }

    /// Like `get`, but adds each slot inspected to `looks`.
    #[inline(always)]
    pub fn get_counted(&self, key: &str, looks: &mut Looks) -> Option<&V>
        requires { looks.old + capacity_limit + 1 < 2 ^ 128 }
        ensures value { option_copied result ≡ lookup key.now self.now.store.pairs }
        ensures grows { looks.old ≤ looks.new }
        ensures bounded { IsBounded H.hash_of (keys_of self.now.store.pairs) self.now.slots
            self.now.store.capacity key.now (looks.new - looks.old) }
    {
        match self.find(H::hash(key), key, looks).0.found() {
            Some(at) => Some(&self.pairs[at].1),
            None => None,
        }
    }

    /// Returns the index of a key, or `None` if the key is missing.
    ///
    /// # Cost
    ///
    /// The same as for `get`.
    pub fn get_index_of(&self, key: &str) -> Option<usize>
        ensures { result ≡ at self.now.store.pairs key.now }
    {
        self.get_index_hashed(key, H::hash(key))
    }

    /// Like `get_index_of`, but with the hash of the key already computed.
    pub fn get_index_hashed(&self, key: &str, hash: u64) -> Option<usize>
        requires { hash ≡ H.hash_of key.now }
        ensures { result ≡ at self.now.store.pairs key.now }
    {
        self.find(hash, key, &mut Looks::new()).0.found()
    }

    /// Returns `true` if the table has `key`.
    ///
    /// # Cost
    ///
    /// The same as for `get`.
    pub fn contains_key(&self, key: &str) -> bool
        ensures { result ≡ is_some (at self.now.store.pairs key.now) }
    {
        self.get_index_of(key).is_some()
    }

    /// Probes for `key`, whose hash is `hash`.
    ///
    /// Returns the result of the probe and the part of the hash that the slots keep.
    #[inline(always)]
    fn find(&self, hash: u64, key: &str, looks: &mut Looks) -> (Probed, u64)
        requires hash { hash ≡ H.hash_of key.now }
        requires fits { looks.old + capacity_limit + 1 < 2 ^ 128 }
        ensures empty { length self.now.store.pairs < self.now.store.capacity → HasEmpty self.now.slots }
        ensures ends { LookUpEnds (map H.hash_of (keys_of self.now.store.pairs))
            (keys_of self.now.store.pairs) self.now.slots (H.hash_of key.now) key.now result.0 }
        ensures kept { 0 < length self.now.slots → result.1 ≡ kept_part (length self.now.slots) hash }
        ensures grows { looks.old ≤ looks.new }
        ensures bounded { IsBounded H.hash_of (keys_of self.now.store.pairs) self.now.slots
            self.now.store.capacity key.now (looks.new - looks.old) }
    {
        let count = self.slots.len();
        if count == 0 {
            return (Probed::Full, hash);
        }
        let modulus = Modulus::new(count);
        let (home, kept) = modulus.split(hash);
        let probed = self
            .slots
            .probe_for::<V, H>(&self.pairs, modulus, kept, home, key, looks);
        (probed, kept)
    }

    /// Creates the slots of a table with these entries and capacity `capacity`.
    ///
    /// If the number of slots is unchanged, the slots are copied. Otherwise, the indices are
    /// inserted in order. If that takes too many steps, the slots are filled by sorting instead.
    ///
    /// Adds to `looks` each slot inspected or written by an insertion, and each comparison in
    /// sorting.
    fn slots_with_capacity(
        &self,
        alloc: Global,
        capacity: usize,
        looks: &mut Looks,
    ) -> Result<Slots, AllocError>
        requires room { HasRoom (length self.now.store.pairs) capacity }
        requires fits { looks.old + 2 ^ 72 < 2 ^ 128 }
        ensures placed { IfOk result (IsPlaced H.hash_of self.now.store.pairs capacity) }
        ensures refused { OnErr result (0 < capacity) }
        ensures bounded { IsBuildBounded capacity (looks.new - looks.old) }
    {
        let count = slots_for(capacity);
        if count == self.slots.len() {
            return self.slots.copied(alloc);
        }
        let mut slots = Slots::with_count(alloc, count)?;
        let mut steps = 0;
        let placed = add_new_keys::<V, H>(
            &self.pairs,
            &mut slots,
            STEPS_PER_PAIR * capacity,
            &mut steps,
        );
        looks.add(steps as u128);
        if placed == self.pairs.len() {
            return Ok(slots);
        }
        slots.clear();
        if let Err(refused) = fill_sorted::<V, H>(alloc, &self.pairs, &mut slots, looks) {
            drop(slots);
            return Err(refused);
        }
        Ok(slots)
    }
}

/// Formats the entries as a map, in order.
impl<V: fmt::Debug, H: KeyHash> fmt::Debug for Table<V, H> {
    fn fmt<W: fmt::Write>(&self, f: &mut fmt::Formatter<W>) -> fmt::Result {
        f.debug_map()
            .entries(self.iter().map(|pair| (&pair.0, &pair.1)))
            .finish()
    }
}

/// An inspection compares the key with the key of the resident, if any.
impl<V, H: KeyHash> Places for Table<V, H> {
    ghost hash_of = { H.hash_of };

    ghost keys = { λ t. keys_of t.store.pairs };

    ghost room = { λ t. t.store.capacity };

    ghost slots = { λ t. t.slots };

    ghost distinct = { λ t. t.store.distinct };

    fn places(&self) -> usize {
        self.slots.len()
    }

    fn home(&self, key: &str) -> usize {
        Modulus::new(self.slots.len()).home_of_hash(H::hash(key))
    }

    fn look(&self, slot: usize, key: &str, looks: &mut Looks) -> Seen {
        looks.add_one();
        let modulus = Modulus::new(self.slots.len());
        let there = self.slots.at(slot);
        let same = match there.position() {
            None => false,
            Some(at) => has_key(&self.pairs, at, key),
        };
        there.seen(modulus, slot, same)
    }
}

/// Each key that is looked up, inserted or removed is hashed.
///
/// Growth and shrinking hash each key once, or twice if many keys collide.
impl<V: Drop, H: KeyHash> PairStore<V> for Table<V, H> {
    ghost pairs = { λ t. t.store.pairs };

    ghost room = { λ t. t.store.capacity };

    ghost distinct = { λ t. t.store.distinct };

    ghost set_value = { λ t i v. placed_with_value t i v };

    fn new(alloc: Global) -> Self {
        Table {
            pairs: Vec::new(alloc),
            slots: Slots::new(),
            alloc,
            hash: PhantomData,
        }
    }

    fn len(&self) -> usize {
        self.pairs.len()
    }

    fn capacity(&self) -> usize {
        self.pairs.capacity()
    }

    fn reserve(&mut self, additional: usize) -> Result<(), ReserveError> {
        self.reserve_counted(additional, &mut Looks::new())
    }

    fn shrink_to_fit(&mut self) -> Result<(), ReserveError> {
        self.shrink_to_fit_counted(&mut Looks::new())
    }

    fn position(&self, key: &str) -> Option<usize> {
        if self.pairs.is_empty() {
            return None;
        }
        locate(self, key, &mut Looks::new())
    }

    fn pair_mut(&mut self, index: usize) -> (&IString, &mut V) {
        let pair = &mut self.pairs[index];
        (&pair.0, &mut pair.1)
    }

    fn push_new(&mut self, key: IString, value: V) {
        let hash = H::hash(key.as_str());
        self.push_hashed(key, value, hash);
    }

    fn swap_out(&mut self, index: usize) -> (IString, V) {
        self.slots.swap_remove::<V, H>(&self.pairs, index);
        self.pairs.swap_remove(index)
    }

    fn shift_out(&mut self, index: usize) -> (IString, V) {
        self.slots.shift_remove::<V, H>(&self.pairs, index);
        self.pairs.remove(index)
    }

    fn pair(&self, index: usize) -> (&IString, &V) {
        let pair = &self.pairs[index];
        (&pair.0, &pair.1)
    }

    fn into_pairs(self) -> Vec<(IString, V)> {
        self.pairs
    }

    fn clear(&mut self) {
        self.pairs.clear();
        self.slots.clear();
    }

    ghost set_value_is = { λ t i v. (refl, refl) };
}
