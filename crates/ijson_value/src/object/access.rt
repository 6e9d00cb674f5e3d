//! Access to the entries of an object by index.
ghost use Rattle.std.specs.Prelude.{◌≡◌, ◌<◌, ◌++◌, ◌∷◌, ℕ, List, [], length, get_or, slice_get, option_map, IfSome};
ghost use Rattle.std.specs.Borrow.{sem};
ghost use Rattle.std.specs.Map.Iter.{deref_pair};
ghost use Rattle.std.specs.List.{insert};
ghost use Rattle.ijson_table.specs.Fold.{fold_words};
ghost use Rattle.ijson_table.specs.Store.{at, keys_of, swap_out, shift_out, with_key};
ghost use Rattle.ijson_value.specs.LendsValue.{LendsValue, LendsValueIf};
ghost use Rattle.ijson_value.specs.WellFormed.{WellFormed};

use super::map::IObject;
use crate::value::IValue;
use ijson_string::IString;
use ijson_table::PairStore;

impl IObject {
    /// Returns the entry at `index`, or `None` if `index` is out of bounds.
    ///
    /// Takes constant time.
    pub fn get_index(&self, index: usize) -> Option<(&IString, &IValue)>
        ensures { option_map deref_pair result ≡ slice_get self.now.pairs index }
    {
        match self.as_slice().get(index) {
            Some(pair) => Some((&pair.0, &pair.1)),
            None => None,
        }
    }

    /// Returns a mutable reference to the value at `index`, or `None` if `index` is out of bounds.
    ///
    /// Takes constant time.
    pub fn value_at_mut(&mut self, index: usize) -> Option<&mut IValue>
        ensures* writes_back { sem 𝓛 (LendsValueIf self.entry index result) }
        ensures value { option_map (λ value. value.now) result
            ≡ option_map (λ pair. pair.1) (slice_get self.old.pairs index) }
    {
        if index < self.len() {
            Some(self.value_mut(index))
        } else {
            None
        }
    }

    /// Returns the index of `key`, or `None` if the key is missing.
    #[tactic(auto, using(ijson_table::proofs::pairs::PairsByKey::position_within))]
    pub(super) fn position(&self, key: &str) -> Option<usize>
        ensures position { result ≡ at self.now.pairs key.now }
        ensures within { IfSome result (λ index. index < length self.now.pairs) }
    {
        match &self.table {
            None => None,
            Some(table) => table.get_index_of(key),
        }
    }

    /// Like `position`, but uses `hash`, which must be the hash of `key`.
    #[tactic(auto, using(ijson_table::proofs::pairs::PairsByKey::position_within))]
    pub(super) fn position_hashed(&self, key: &str, hash: u64) -> Option<usize>
        requires { hash ≡ fold_words key.now }
        ensures position { result ≡ at self.now.pairs key.now }
        ensures within { IfSome result (λ index. index < length self.now.pairs) }
    {
        match &self.table {
            None => None,
            Some(table) => table.get_index_hashed(key, hash),
        }
    }

    /// Returns the entry at `index`.
    pub(super) fn pair(&self, index: usize) -> (&IString, &IValue)
        requires { index < length self.now.pairs }
        ensures { slice_get self.now.pairs index ≡ Some (result.0.now, result.1.now) }
    {
        let pair = &self.as_slice()[index];
        (&pair.0, &pair.1)
    }

    /// Returns a mutable reference to the value at `index`.
    pub(super) fn value_mut(&mut self, index: usize) -> &mut IValue
        requires { index < length self.old.pairs }
        ensures* writes_back { sem 𝓛 (LendsValue self.entry index result) }
        ensures value { (key : List ℕ) × (slice_get self.old.pairs index ≡ Some (key, result.now)) }
    {
        self.pair_mut(index).1
    }

    /// Returns the key at `index` and a mutable reference to its value.
    pub(super) fn pair_mut(&mut self, index: usize) -> (&IString, &mut IValue)
        requires { index < length self.old.pairs }
        ensures* writes_back { sem 𝓛 (LendsValue self.entry index result.1) }
        ensures pair { slice_get self.old.pairs index ≡ Some (result.0.now, result.1.now) }
    {
        self.table.as_mut().unwrap().pair_mut(index)
    }

    /// Appends an entry, using `hash`, which must be the hash of `key`.
    ///
    /// The key must be missing, and there must be spare capacity.
    pub(super) fn push_hashed(&mut self, key: IString, value: IValue, hash: u64)
        requires missing { at self.old.pairs key ≡ None }
        requires hash { hash ≡ fold_words key }
        requires within { length self.old.pairs < self.old.capacity }
        ensures pairs { self.new.pairs ≡ self.old.pairs ++ (key, value) ∷ [] }
        ensures capacity { self.new.capacity ≡ self.old.capacity }
    {
        self.table.as_mut().unwrap().push_hashed(key, value, hash);
    }

    /// Inserts an entry at `index`, or appends it if `index` is past the end.
    ///
    /// `hash` must be the hash of `key`. The key must be missing, and there must be spare capacity.
    pub(super) fn insert_new(&mut self, index: usize, key: IString, value: IValue, hash: u64)
        requires missing { at self.old.pairs key ≡ None }
        requires hash { hash ≡ fold_words key }
        requires within { length self.old.pairs < self.old.capacity }
        ensures pairs { self.new.pairs ≡ insert self.old.pairs index (key, value) }
        ensures capacity { self.new.capacity ≡ self.old.capacity }
    {
        let last = self.len();
        self.push_hashed(key, value, hash);
        self.move_index(last, index.min(last));
    }

    /// Moves the entry at index `from` to index `to`.
    ///
    /// The entries between `from` and `to` shift by one index.
    fn move_index(&mut self, from: usize, to: usize)
        requires from { from < length self.old.pairs }
        requires to { to < length self.old.pairs }
        ensures pairs { (pair : List ℕ × WellFormed) → slice_get self.old.pairs from ≡ Some pair
            → self.new.pairs ≡ insert (shift_out self.old.pairs from) to pair }
        ensures capacity { self.new.capacity ≡ self.old.capacity }
    {
        self.table.as_mut().unwrap().move_index(from, to);
    }

    /// Replaces the key at `index` by `key`, and returns the old key.
    ///
    /// `key` must be missing.
    pub(super) fn replace_key_at(&mut self, index: usize, key: IString) -> IString
        requires within { index < length self.old.pairs }
        requires missing { at self.old.pairs key ≡ None }
        ensures key { result ≡ get_or (keys_of self.old.pairs) index [] }
        ensures pairs { self.new.pairs ≡ with_key self.old.pairs index key }
        ensures capacity { self.new.capacity ≡ self.old.capacity }
    {
        self.table.as_mut().unwrap().replace_key_at(index, key)
    }

    /// Removes and returns the entry at `index`.
    ///
    /// The last entry replaces the removed entry.
    pub(super) fn swap_out(&mut self, index: usize) -> (IString, IValue)
        requires { index < length self.old.pairs }
        ensures pair { slice_get self.old.pairs index ≡ Some result }
        ensures pairs { self.new.pairs ≡ swap_out self.old.pairs index }
        ensures capacity { self.new.capacity ≡ self.old.capacity }
    {
        self.table.as_mut().unwrap().swap_out(index)
    }

    /// Removes and returns the entry at `index`, shifting down all entries after it.
    pub(super) fn shift_out(&mut self, index: usize) -> (IString, IValue)
        requires { index < length self.old.pairs }
        ensures pair { slice_get self.old.pairs index ≡ Some result }
        ensures pairs { self.new.pairs ≡ shift_out self.old.pairs index }
        ensures capacity { self.new.capacity ≡ self.old.capacity }
        ensures spare { length self.new.pairs < self.new.capacity }
    {
        self.table.as_mut().unwrap().shift_out(index)
    }
}
