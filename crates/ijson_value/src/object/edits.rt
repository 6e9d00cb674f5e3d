//! Insertion of an entry at an index, and replacement of a key.
ghost use Rattle.std.specs.Prelude.{◌≡◌, ◌≤◌, length, IfOk, IfErr, IsSome, None, OnOk};
ghost use Rattle.std.specs.List.{insert};
ghost use Rattle.ijson_table.specs.Growth.{Grown};
ghost use Rattle.ijson_table.specs.Store.{lookup};
ghost use Rattle.ijson_value.specs.AtKey.{shift_out_key};
ghost use Rattle.ijson_value.specs.FindsEntry.{FindsNoRoom};
ghost use Rattle.ijson_value.specs.ReplacesKey.{ReplacesKey};

use super::map::{IObject, RefusedPair};
use crate::value::IValue;
use ijson_string::IString;
use ijson_table::{FixedHash, KeyHash};
use thiserror::Error;

/// The error of `replace_key`, with the new key.
#[derive(Debug, Drop, Error)]
pub enum RefusedReplacement {
    /// The old key is missing.
    #[error("the key to replace is missing")]
    Missing(IString),
    /// Another entry has the new key.
    #[error("another entry has the new key")]
    Exists(IString),
}

impl IObject {
    /// Inserts an entry at `index` and returns the old value of its key, if any.
    ///
    /// All entries from `index` on shift up. An existing key is moved to `index`, or to the end if
    /// `index` is the length. `index` must be at most `len`.
    ///
    /// # Errors
    ///
    /// Returns the entry if `key` is missing and capacity cannot be reserved. The object is
    /// unchanged.
    ///
    /// # Cost
    ///
    /// Linear in the number of entries and in the capacity if few keys collide. A missing key is
    /// hashed once. An existing key is removed first, as by `shift_remove`, and is hashed twice.
    pub fn shift_insert(
        &mut self,
        index: usize,
        key: IString,
        value: IValue,
    ) -> Result<Option<IValue>, RefusedPair>
        requires { index ≤ length self.old.pairs }
        ensures old { IfOk result (λ old. old ≡ lookup key self.old.pairs) }
        ensures pairs { OnOk result
            (self.new.pairs ≡ insert (shift_out_key key self.old.pairs) index (key, value)) }
        ensures stays { OnOk result (IsSome (lookup key self.old.pairs) → self.new.capacity ≡ self.old.capacity) }
        ensures grows { OnOk result (lookup key self.old.pairs ≡ None
            → Grown (length self.old.pairs) self.old.capacity 1 self.new.capacity) }
        ensures refused { IfErr result (λ refused. (refused.key ≡ key) × (refused.value ≡ value)
            × FindsNoRoom self.old key refused.why × (self.new ≡ self.old)) }
    {
        let text = key.as_str();
        let hash = FixedHash::hash(text);
        match self.position_hashed(text, hash) {
            Some(found) => {
                let (same, old) = self.shift_out(found);
                drop(same);
                self.insert_new(index, key, value, hash);
                Ok(Some(old))
            }
            None => match self.reserve(1) {
                Ok(()) => {
                    self.insert_new(index, key, value, hash);
                    Ok(None)
                }
                Err(why) => Err(RefusedPair { key, value, why }),
            },
        }
    }

    /// Replaces the key `old` by `new` and returns the old key.
    ///
    /// The index, the value and the capacity are unchanged. Replacing a key by itself changes
    /// nothing. Does not allocate.
    ///
    /// # Errors
    ///
    /// Returns `new` if `old` is missing or if another entry has the key `new`. The object is
    /// unchanged.
    ///
    /// # Cost
    ///
    /// Two lookups, and a scan of the collision clusters of `old` and `new`.
    pub fn replace_key(&mut self, old: &str, new: IString) -> Result<IString, RefusedReplacement>
        ensures replaces { ReplacesKey self.old.pairs old.now new result self.new.pairs }
        ensures capacity { self.new.capacity ≡ self.old.capacity }
    {
        let Some(index) = self.position(old) else {
            return Err(RefusedReplacement::Missing(new));
        };
        match self.position(new.as_str()) {
            None => Ok(self.replace_key_at(index, new)),
            Some(found) if found == index => Ok(new),
            Some(_) => Err(RefusedReplacement::Exists(new)),
        }
    }
}
