//! Views of the entry of one key of an object, which is occupied or vacant.
ghost use Rattle.std.specs.Prelude.{◌≡◌, ◌<◌, ℕ, List, length, Some, None, IfOk, IfErr};
ghost use Rattle.std.specs.Borrow.{sem};
ghost use Rattle.ijson_table.specs.Fold.{fold_words};
ghost use Rattle.ijson_table.specs.Store.{at, lookup};

use super::map::IObject;
use crate::value::IValue;
use ijson_string::IString;
use ijson_table::{FixedHash, KeyHash, ReserveError};
use std::{fmt, mem};
use thiserror::Error;

/// A view of the entry of one key of an object, which is occupied or vacant.
///
/// An occupied entry stores the index of its key. A vacant entry stores the hash of its key.
///
/// ```
/// let count = object.entry(key)?.or_insert(IValue::from(0u64)); // the value of the key, or 0
/// ```
#[derive(Drop)]
pub enum Entry<'a> {
    /// The key exists.
    Occupied(OccupiedEntry<'a>),
    /// The key is missing, and capacity for it is reserved.
    Vacant(VacantEntry<'a>),
}

/// A view of the entry of an existing key.
#[derive(Drop)]
pub struct OccupiedEntry<'a> {
    object: &'a mut IObject,
    index: usize,
    ghost valid: { index < length object.now.pairs },
}

/// A key type that denotes a string of bytes.
pub trait Text {
    /// The bytes of the key.
    ghost text: { Self → List ℕ };
}

impl Text for IString {
    ghost text = { λ key. key };
}

/// A view of the vacant entry of a missing key, with capacity reserved for it.
///
/// The key type is always `IString`. It is a parameter so that the contract of `drop` can state
/// that the object is unchanged.
pub struct VacantEntry<'a, K: Text = IString> {
    object: &'a mut IObject,
    key: K,
    hash: u64,
    ghost hashed: { hash ≡ fold_words (K.Text.text key) },
    ghost missing: { at object.now.pairs (K.Text.text key) ≡ None },
    ghost room: { length object.now.pairs < object.now.capacity },
}

/// Drops the key. The object keeps the reserved capacity.
impl<'a, K: Text + Drop> Drop for VacantEntry<'a, K> {
    fn drop(self)
        ensures { self.exit.0.now ≡ self.entry.object.now }
    {
        let VacantEntry {
            object: _,
            key,
            hash: _,
        } = self;
        drop(key);
    }
}

/// The error of `entry`: the key, and the reason why capacity could not be reserved.
///
/// The object is unchanged.
#[derive(Debug, Drop, Error)]
#[error("no capacity for the key: {why}")]
pub struct RefusedKey {
    /// The key passed to `entry`.
    pub key: IString,
    /// The reason why capacity could not be reserved.
    pub why: ReserveError,
}

/// Returns the reason and drops the key.
impl From<RefusedKey> for ReserveError {
    ghost from_gives = { λ refused why. why ≡ refused.why };

    fn from(refused: RefusedKey) -> ReserveError {
        let why = refused.why;
        drop(refused);
        why
    }
}

impl IObject {
    ghost use Rattle.ijson_value.specs.EntryParts.{entry_object, entry_key, entry_value};
    ghost use Rattle.ijson_value.specs.FindsEntry.{FindsEntry, FindsNoRoom, FindsNoRoomOrCopy};
    ghost use Rattle.ijson_value.specs.LendsEntry.{RestsIfNoEntry};
    ghost use Rattle.ijson_value.specs.WithEntry.{PutsThrough};

    /// Returns the `Entry` of `key`: occupied if the key exists, vacant if it is missing.
    ///
    /// Reserves capacity for one more entry if `key` is missing. Dropping a vacant entry keeps the
    /// reserved capacity.
    ///
    /// # Errors
    ///
    /// Returns `key` and the reason if `key` is missing and capacity cannot be reserved. The object
    /// is unchanged.
    pub fn entry(&mut self, key: IString) -> Result<Entry<'_>, RefusedKey>
        ensures same_object { IfOk result (λ e. (entry_object e).ghost_name ≡ self.entry.ghost_name) }
        ensures found { IfOk result (FindsEntry self.old key) }
        ensures key { IfOk result (λ e. entry_key e ≡ key) }
        ensures value { IfOk result (λ e. entry_value e ≡ lookup key self.old.pairs) }
        ensures update { IfOk result (PutsThrough self.old.pairs key) }
        ensures refused { IfErr result (λ refused.
            (refused.key ≡ key) × FindsNoRoom self.old key refused.why) }
        ensures* rests { sem 𝓛 (RestsIfNoEntry self.entry result) }
    {
        let text = key.as_str();
        let hash = FixedHash::hash(text);
        match self.position_hashed(text, hash) {
            Some(index) => {
                drop(key);
                Ok(Entry::Occupied(OccupiedEntry {
                    object: self,
                    index,
                }))
            }
            None => match self.reserve(1) {
                Ok(()) => Ok(Entry::Vacant(VacantEntry {
                    object: self,
                    key,
                    hash,
                })),
                Err(why) => Err(RefusedKey { key, why }),
            },
        }
    }

    /// Like `entry`, but takes `key` by reference, and clones it only if it is missing.
    ///
    /// The clone shares the string. The key is cloned before capacity is reserved.
    ///
    /// # Errors
    ///
    /// Returns `Memory` if the reference count of `key` is saturated, or the error of `reserve`.
    /// The object is unchanged.
    pub fn entry_or_clone(&mut self, key: &IString) -> Result<Entry<'_>, ReserveError>
        ensures same_object { IfOk result (λ e. (entry_object e).ghost_name ≡ self.entry.ghost_name) }
        ensures found { IfOk result (FindsEntry self.old key.now) }
        ensures key { IfOk result (λ e. entry_key e ≡ key.now) }
        ensures value { IfOk result (λ e. entry_value e ≡ lookup key.now self.old.pairs) }
        ensures update { IfOk result (PutsThrough self.old.pairs key.now) }
        ensures refused { IfErr result (FindsNoRoomOrCopy self.old key.now) }
        ensures* rests { sem 𝓛 (RestsIfNoEntry self.entry result) }
    {
        let text = key.as_str();
        let hash = FixedHash::hash(text);
        match self.position_hashed(text, hash) {
            Some(index) => Ok(Entry::Occupied(OccupiedEntry {
                object: self,
                index,
            })),
            None => match key.clone() {
                Ok(key) => match self.reserve(1) {
                    Ok(()) => Ok(Entry::Vacant(VacantEntry {
                        object: self,
                        key,
                        hash,
                    })),
                    Err(why) => {
                        drop(key);
                        Err(why)
                    }
                },
                Err(_) => Err(ReserveError::Memory),
            },
        }
    }
}

impl<'a> Entry<'a> {
    ghost use Rattle.std.specs.Option.{unwrap_or, UnwrapsOrElse};
    ghost use Rattle.std.specs.Borrow.{MutBor};
    ghost use Rattle.std.specs.Map.Calls.{ModifiesValue};
    ghost use Rattle.ijson_value.specs.EntryParts.{entry_object, entry_key, entry_value};
    ghost use Rattle.ijson_value.specs.LendsEntry.{EntryLends};
    ghost use Rattle.ijson_value.specs.WellFormed.{WellFormed};
    ghost use Rattle.ijson_value.specs.WithEntry.{with_entry};

    /// Returns the key.
    pub fn key(&self) -> &IString
        ensures { result.now ≡ entry_key self.now }
    {
        match self {
            Entry::Occupied(entry) => entry.key(),
            Entry::Vacant(entry) => entry.key(),
        }
    }

    /// Inserts `default` if the entry is vacant, and returns a mutable reference to the value.
    ///
    /// Does not allocate. If the entry is occupied, `default` is dropped.
    pub fn or_insert(self, default: IValue) -> &'a mut IValue
        ensures* writes_back { sem 𝓛 (EntryLends self.entry result) }
        ensures value { result.now ≡ unwrap_or (entry_value self.entry) default }
    {
        match self {
            Entry::Occupied(entry) => {
                drop(default);
                entry.into_mut()
            }
            Entry::Vacant(entry) => entry.insert(default),
        }
    }

    /// Inserts the result of `default` if the entry is vacant, and returns a mutable reference to
    /// the value.
    ///
    /// `default` is not called if the entry is occupied. Does not allocate.
    pub fn or_insert_with<F: FnOnce() -> IValue>(self, default: F) -> &'a mut IValue
        requires { entry_value self ≡ None → F.pre default }
        ensures* writes_back { sem 𝓛 (EntryLends self.entry result) }
        ensures value { UnwrapsOrElse (entry_value self.entry) (F.post default) result.now }
    {
        match self {
            Entry::Occupied(entry) => entry.into_mut(),
            Entry::Vacant(entry) => entry.insert(default()),
        }
    }

    /// Calls `change` on the value if the entry is occupied, and returns the entry.
    pub fn and_modify<F: FnOnce(&mut IValue)>(self, change: F) -> Entry<'a>
        requires { (value : MutBor WellFormed) → entry_value self ≡ Some value.now → F.pre change value }
        ensures same_object { (entry_object result).ghost_name ≡ (entry_object self.entry).ghost_name }
        ensures same_key { entry_key result ≡ entry_key self.entry }
        ensures same_writes { (w : WellFormed) → with_entry result w ≡ with_entry self.entry w }
        ensures update { ModifiesValue F.FnOnce change (entry_value self.entry) (entry_value result) }
    {
        match self {
            Entry::Occupied(mut entry) => {
                change(entry.get_mut());
                Entry::Occupied(entry)
            }
            Entry::Vacant(entry) => Entry::Vacant(entry),
        }
    }
}

impl<'a> OccupiedEntry<'a> {
    ghost use Rattle.ijson_value.specs.AtKey.{swap_out_key};
    ghost use Rattle.ijson_value.specs.EntryParts.{entry_object, entry_key, entry_value};
    ghost use Rattle.ijson_value.specs.declared.object.entry.Entry.TheVariants.{Occupied};
    ghost use Rattle.ijson_value.specs.LendsEntry.{EntryLends, OccupiedLends};
    ghost use Rattle.ijson_value.specs.WithEntry.{with_entry_value};

    /// Returns the key.
    pub fn key(&self) -> &IString
        ensures { result.now ≡ entry_key (Occupied self.now) }
    {
        self.object.pair(self.index).0
    }

    /// Returns the value.
    pub fn get(&self) -> &IValue
        ensures { entry_value (Occupied self.now) ≡ Some result.now }
    {
        self.object.pair(self.index).1
    }

    /// Returns a mutable reference to the value.
    pub fn get_mut(&mut self) -> &mut IValue
        ensures* writes_back { sem 𝓛 (OccupiedLends self.entry result) }
        ensures value { entry_value (Occupied self.old) ≡ Some result.now }
    {
        let index = self.index;
        self.object.value_mut(index)
    }

    /// Converts the entry to a mutable reference to the value, which lives as long as the borrow of
    /// the object.
    pub fn into_mut(self) -> &'a mut IValue
        ensures* writes_back { sem 𝓛 (EntryLends (Occupied self.entry) result) }
        ensures value { entry_value (Occupied self.entry) ≡ Some result.now }
    {
        let index = self.index;
        let object = self.object;
        object.value_mut(index)
    }

    /// Replaces the value and returns the old value.
    ///
    /// Does not allocate.
    pub fn insert(&mut self, value: IValue) -> IValue
        ensures old { entry_value (Occupied self.old) ≡ Some result }
        ensures written { self.new ≡ with_entry_value self.old value }
    {
        mem::replace(self.get_mut(), value)
    }

    /// Removes the entry and returns its value.
    ///
    /// The last entry of the object replaces the removed entry. Does not allocate.
    pub fn remove(self) -> IValue
        ensures value { entry_value (Occupied self.entry) ≡ Some result }
        ensures removed { self.exit.0.now.pairs ≡ swap_out_key (entry_key (Occupied self.entry))
            (entry_object (Occupied self.entry)).now.pairs }
        ensures capacity { self.exit.0.now.capacity
            ≡ (entry_object (Occupied self.entry)).now.capacity }
    {
        let (key, value) = self.remove_entry();
        drop(key);
        value
    }

    /// Removes and returns the entry.
    ///
    /// The last entry of the object replaces the removed entry. Does not allocate.
    pub fn remove_entry(self) -> (IString, IValue)
        ensures key { result.0 ≡ entry_key (Occupied self.entry) }
        ensures value { entry_value (Occupied self.entry) ≡ Some result.1 }
        ensures removed { self.exit.0.now.pairs ≡ swap_out_key (entry_key (Occupied self.entry))
            (entry_object (Occupied self.entry)).now.pairs }
        ensures capacity { self.exit.0.now.capacity
            ≡ (entry_object (Occupied self.entry)).now.capacity }
    {
        let index = self.index;
        self.object.swap_out(index)
    }
}

impl<'a> VacantEntry<'a> {
    ghost use Rattle.ijson_value.specs.EntryParts.{entry_object, entry_key};
    ghost use Rattle.ijson_value.specs.declared.object.entry.Entry.TheVariants.{Vacant};
    ghost use Rattle.ijson_value.specs.LendsEntry.{EntryLends};

    /// Returns the key.
    pub fn key(&self) -> &IString
        ensures { result.now ≡ entry_key (Vacant self.now) }
    {
        &self.key
    }

    /// Returns the key.
    ///
    /// The object keeps the reserved capacity.
    pub fn into_key(self) -> IString
        ensures key { result ≡ entry_key (Vacant self.entry) }
        ensures stays { self.exit.0.now ≡ (entry_object (Vacant self.entry)).now }
    {
        let VacantEntry {
            object: _,
            key,
            hash: _,
        } = self;
        key
    }

    /// Appends the entry and returns a mutable reference to its value.
    ///
    /// Does not allocate.
    pub fn insert(self, value: IValue) -> &'a mut IValue
        ensures* writes_back { sem 𝓛 (EntryLends (Vacant self.entry) result) }
        ensures value { result.now ≡ value }
    {
        let VacantEntry { object, key, hash } = self;
        let index = object.len();
        object.push_hashed(key, value, hash);
        object.value_mut(index)
    }
}

/// Formats the variant and its entry.
impl<'a> fmt::Debug for Entry<'a> {
    fn fmt<W: fmt::Write>(&self, f: &mut fmt::Formatter<W>) -> fmt::Result {
        match self {
            Entry::Occupied(entry) => f.debug_tuple("Occupied").field(entry).finish(),
            Entry::Vacant(entry) => f.debug_tuple("Vacant").field(entry).finish(),
        }
    }
}

/// Formats the key and the value.
impl<'a> fmt::Debug for OccupiedEntry<'a> {
    fn fmt<W: fmt::Write>(&self, f: &mut fmt::Formatter<W>) -> fmt::Result {
        f.debug_struct("OccupiedEntry")
            .field("key", self.key())
            .field("value", self.get())
            .finish()
    }
}

/// Formats the key.
impl<'a> fmt::Debug for VacantEntry<'a> {
    fn fmt<W: fmt::Write>(&self, f: &mut fmt::Formatter<W>) -> fmt::Result {
        f.debug_struct("VacantEntry")
            .field("key", self.key())
            .finish()
    }
}
