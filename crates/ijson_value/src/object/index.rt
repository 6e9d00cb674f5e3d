//! Access to the entries of an object by key.
ghost use Rattle.std.specs.Prelude.{◌≡◌, ◌<◌, ℕ, List, Some, length, option_map, IsSome, IsTrue, IfSome, IfOk, IfErr, ◌↔◌};
ghost use Rattle.ijson_value.specs.LendsPair.{LendsPairIf};
ghost use Rattle.std.specs.Borrow.{sem};
ghost use Rattle.std.specs.Map.Iter.{deref_pair, deref_pair_mut};
ghost use Rattle.std.specs.Option.{option_copied, option_copied_mut, unwrap_or};
ghost use Rattle.ijson_table.specs.Store.{at, lookup};
ghost use Rattle.ijson_value.specs.AtKey.{pair_at_key, shift_out_key, swap_out_key};
ghost use Rattle.ijson_value.specs.LendsAtKey.{LendsAtKey, LendsAtKeyIf, LendsPut};
ghost use Rattle.ijson_value.specs.FindsEntry.{FindsNoRoom};
ghost use Rattle.ijson_value.specs.Values.{null_value};

use super::map::{IObject, RefusedPair};
use crate::value::IValue;
use ijson_string::IString;
use ijson_table::{FixedHash, KeyHash};
use std::ops::{Index, IndexMut};

/// Seals `ObjectIndex`, so that only strings are keys.
pub trait Sealed {
    /// The bytes of the key.
    ghost key: { Self → List ℕ };

    fn as_key(&self) -> &str
        ensures { result.now ≡ key self.now };
}

impl Sealed for &str {
    ghost key = { λ text. text.now };

    fn as_key(&self) -> &str {
        self
    }
}

impl Sealed for &IString {
    ghost key = { λ text. text.now };

    fn as_key(&self) -> &str {
        self.as_str()
    }
}

impl<T: Sealed> Sealed for &T {
    ghost key = { λ index. T.Sealed.key index.now };

    fn as_key(&self) -> &str {
        (**self).as_key()
    }
}

/// A key to look up in an object: `&str`, `&IString`, or a reference to one of them.
///
/// A lookup does not allocate and does not use the string cache.
pub trait ObjectIndex: Sealed + Copy {
    /// Returns the entry of the key, or `None` if the key is missing.
    final fn index_into<'v>(self, v: &'v IObject) -> Option<(&'v IString, &'v IValue)>
        ensures { option_map deref_pair result ≡ pair_at_key (Self.Sealed.key self) v.now.pairs }
    {
        match v.position(self.as_key()) {
            Some(index) => Some(v.pair(index)),
            None => None,
        }
    }

    /// Like `index_into`, but returns a mutable reference to the value.
    final fn index_into_mut<'v>(self, v: &'v mut IObject) -> Option<(&'v IString, &'v mut IValue)>
        ensures* writes_back { sem 𝓛 (LendsPairIf v.entry (Self.Sealed.key self) result) }
        ensures value { option_map deref_pair_mut result ≡ pair_at_key (Self.Sealed.key self) v.old.pairs }
    {
        v.get_key_value_mut(self)
    }

    /// Removes and returns the entry of the key, or `None` if the key is missing.
    ///
    /// The last entry replaces the removed entry.
    final fn remove(self, v: &mut IObject) -> Option<(IString, IValue)>
        ensures pair { result ≡ pair_at_key (Self.Sealed.key self) v.old.pairs }
        ensures pairs { v.new.pairs ≡ swap_out_key (Self.Sealed.key self) v.old.pairs }
        ensures capacity { v.new.capacity ≡ v.old.capacity }
    {
        match v.position(self.as_key()) {
            Some(index) => Some(v.swap_out(index)),
            None => None,
        }
    }

    /// Removes and returns the entry of the key, or `None` if the key is missing.
    ///
    /// All entries after it shift down, which keeps their order.
    ///
    /// # Cost
    ///
    /// Linear in the capacity of the object, unless the removed entry is the last.
    final fn shift_remove(self, v: &mut IObject) -> Option<(IString, IValue)>
        ensures pair { result ≡ pair_at_key (Self.Sealed.key self) v.old.pairs }
        ensures pairs { v.new.pairs ≡ shift_out_key (Self.Sealed.key self) v.old.pairs }
        ensures capacity { v.new.capacity ≡ v.old.capacity }
    {
        match v.position(self.as_key()) {
            Some(index) => Some(v.shift_out(index)),
            None => None,
        }
    }
}

impl ObjectIndex for &str {}

impl ObjectIndex for &IString {}

impl<T: ObjectIndex> ObjectIndex for &T {}

impl IObject {
    /// Returns the value of `key`, or `None` if the key is missing.
    ///
    /// Hashes `key` once, and compares it with each key on its probe whose stored hash bits are
    /// equal.
    pub fn get<I: ObjectIndex>(&self, key: I) -> Option<&IValue>
        ensures { option_copied result ≡ lookup (I.Sealed.key key) self.now.pairs }
    {
        match &self.table {
            None => None,
            Some(table) => table.get(key.as_key()),
        }
    }

    /// Returns a mutable reference to the value of `key`, or `None` if the key is missing.
    pub fn get_mut<I: ObjectIndex>(&mut self, key: I) -> Option<&mut IValue>
        ensures* writes_back { sem 𝓛 (LendsAtKeyIf self.entry (I.Sealed.key key) result) }
        ensures value { option_copied_mut result ≡ lookup (I.Sealed.key key) self.old.pairs }
    {
        match self.position(key.as_key()) {
            Some(index) => Some(self.value_mut(index)),
            None => None,
        }
    }

    /// Returns the entry of `key`, or `None` if the key is missing.
    pub fn get_key_value<I: ObjectIndex>(&self, key: I) -> Option<(&IString, &IValue)>
        ensures { option_map deref_pair result ≡ pair_at_key (I.Sealed.key key) self.now.pairs }
    {
        key.index_into(self)
    }

    /// Like `get_key_value`, but returns a mutable reference to the value.
    pub fn get_key_value_mut<I: ObjectIndex>(&mut self, key: I) -> Option<(&IString, &mut IValue)>
        ensures* writes_back { sem 𝓛 (LendsPairIf self.entry (I.Sealed.key key) result) }
        ensures value { option_map deref_pair_mut result ≡ pair_at_key (I.Sealed.key key) self.old.pairs }
    {
        match self.position_of(key) {
            Some(index) => Some(self.pair_mut(index)),
            None => None,
        }
    }

    /// Returns the index of `key`, or `None` if the key is missing, without changing the object.
    fn position_of<I: ObjectIndex>(&mut self, key: I) -> Option<usize>
        ensures same { self.new ≡ self.old }
        ensures position { result ≡ at self.old.pairs (I.Sealed.key key) }
        ensures within { IfSome result (λ index. index < length self.old.pairs) }
    {
        self.get_index_of(key)
    }

    /// Returns the index of `key`, or `None` if the key is missing.
    ///
    /// Hashes `key` once.
    pub fn get_index_of<I: ObjectIndex>(&self, key: I) -> Option<usize>
        ensures position { result ≡ at self.now.pairs (I.Sealed.key key) }
        ensures within { IfSome result (λ index. index < length self.now.pairs) }
    {
        self.position(key.as_key())
    }

    /// Returns `true` if the object has an entry with the key `key`.
    pub fn contains_key<I: ObjectIndex>(&self, key: I) -> bool
        ensures { IsTrue result ↔ IsSome (lookup (I.Sealed.key key) self.now.pairs) }
    {
        self.get(key).is_some()
    }

    /// Removes the entry of `key` and returns its value, or `None` if the key is missing.
    ///
    /// The last entry replaces the removed entry, and no other entry moves. Does not allocate.
    /// `shift_remove` keeps the order.
    pub fn remove<I: ObjectIndex>(&mut self, key: I) -> Option<IValue>
        ensures value { result ≡ lookup (I.Sealed.key key) self.old.pairs }
        ensures pairs { self.new.pairs ≡ swap_out_key (I.Sealed.key key) self.old.pairs }
        ensures capacity { self.new.capacity ≡ self.old.capacity }
    {
        let Some((key, value)) = key.remove(self) else {
            return None;
        };
        drop(key);
        Some(value)
    }

    /// Removes and returns the entry of `key`, or `None` if the key is missing.
    ///
    /// The last entry replaces the removed entry.
    pub fn remove_entry<I: ObjectIndex>(&mut self, key: I) -> Option<(IString, IValue)>
        ensures pair { result ≡ pair_at_key (I.Sealed.key key) self.old.pairs }
        ensures pairs { self.new.pairs ≡ swap_out_key (I.Sealed.key key) self.old.pairs }
        ensures capacity { self.new.capacity ≡ self.old.capacity }
    {
        key.remove(self)
    }

    /// Removes the entry of `key` and returns its value, or `None` if the key is missing.
    ///
    /// All entries after it shift down, which keeps their order.
    ///
    /// # Cost
    ///
    /// Linear in the capacity of the object, unless the removed entry is the last.
    pub fn shift_remove<I: ObjectIndex>(&mut self, key: I) -> Option<IValue>
        ensures value { result ≡ lookup (I.Sealed.key key) self.old.pairs }
        ensures pairs { self.new.pairs ≡ shift_out_key (I.Sealed.key key) self.old.pairs }
        ensures capacity { self.new.capacity ≡ self.old.capacity }
    {
        let Some((key, value)) = key.shift_remove(self) else {
            return None;
        };
        drop(key);
        Some(value)
    }

    /// Removes and returns the entry of `key`, or `None` if the key is missing.
    ///
    /// All entries after it shift down, which keeps their order.
    ///
    /// # Cost
    ///
    /// Linear in the capacity of the object, unless the removed entry is the last.
    pub fn shift_remove_entry<I: ObjectIndex>(&mut self, key: I) -> Option<(IString, IValue)>
        ensures pair { result ≡ pair_at_key (I.Sealed.key key) self.old.pairs }
        ensures pairs { self.new.pairs ≡ shift_out_key (I.Sealed.key key) self.old.pairs }
        ensures capacity { self.new.capacity ≡ self.old.capacity }
    {
        key.shift_remove(self)
    }
}

impl IObject {
    /// Returns a mutable reference to the value of `key`, after appending null if the key is
    /// missing.
    ///
    /// ```
    /// *object.index_or_insert(key)? = IValue::from(1u64);
    /// ```
    ///
    /// # Errors
    ///
    /// Returns `key` with null if the key is missing and capacity cannot be reserved. The object is
    /// unchanged.
    pub fn index_or_insert(&mut self, key: IString) -> Result<&mut IValue, RefusedPair>
        ensures* writes_back { sem 𝓛 (LendsPut self.entry key result) }
        ensures value { IfOk result (λ value. value.now ≡ unwrap_or (lookup key self.old.pairs) null_value) }
        ensures refused { IfErr result (λ refused. (refused.key ≡ key)
            × (refused.value ≡ null_value) × FindsNoRoom self.old key refused.why) }
    {
        let text = key.as_str();
        let hash = FixedHash::hash(text);
        match self.position_hashed(text, hash) {
            Some(index) => {
                drop(key);
                Ok(self.value_mut(index))
            }
            None => match self.reserve(1) {
                Ok(()) => {
                    let index = self.len();
                    self.push_hashed(key, IValue::default(), hash);
                    Ok(self.value_mut(index))
                }
                Err(why) => Err(RefusedPair {
                    key,
                    value: IValue::default(),
                    why,
                }),
            },
        }
    }
}

/// Supports `object["port"]`. The key must exist.
impl<I: ObjectIndex + Drop> Index<I> for IObject {
    type Output = IValue;

    ghost can_index = { λ object index. IsSome (lookup (I.Sealed.key index) object.pairs) };

    ghost index_gives = { λ object index value. lookup (I.Sealed.key index) object.pairs ≡ Some value };

    fn index(&self, index: I) -> &IValue {
        self.get(index).unwrap()
    }
}

/// Supports `object["port"] = value`. The key must exist.
///
/// To add a missing key, use `index_or_insert`.
impl<I: ObjectIndex + Drop> IndexMut<I> for IObject {
    fn index_mut(&mut self, index: I) -> &mut IValue
        requires { IsSome (lookup (I.Sealed.key index) self.old.pairs) }
        ensures* writes_back { sem 𝓛 (LendsAtKey self.entry (I.Sealed.key index) result) }
        ensures value { lookup (I.Sealed.key index) self.old.pairs ≡ Some result.now }
    {
        let found = self.position(index.as_key()).unwrap();
        self.value_mut(found)
    }
}
