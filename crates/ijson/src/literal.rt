//! The functions that an `ijson!` literal calls. Do not call them directly.
//!
//! If an allocation fails, the function drops its element or entry and leaves the list or object
//! unchanged. The macro then drops the lists and objects built so far.
ghost use Rattle.std.specs.Prelude.{◌≡◌, ◌<◌, ◌≤◌, ◌∷◌, ◌++◌, [], length, map, OnOk, OnErr, IfOk, IfErr, IsOk, IsSome};
ghost use Rattle.ijson_string.specs.Cache.{interned};
ghost use Rattle.ijson_table.specs.Store.{lookup, put};
ghost use Rattle.ijson_value.specs.WellFormed.{tree_of};
ghost use Rattle.ijson_convert.specs.Interned.{all_interned, SomeInterned};
ghost use Rattle.ijson_convert.specs.TextsOf.{texts_of};
ghost use Rattle.ijson_convert.specs.declared.convert_error.ConvertError.TheVariants.{Memory};

use crate::convert::{ConvertError, ToIValue, to_value};
use crate::string::StringCache;
use crate::{IArray, IObject, IString, IValue};
use std::alloc::Global;
use std::hash::BuildHasher;

/// Interns a key, like `IString::intern`.
pub fn intern<S: BuildHasher>(
    cache: &mut StringCache<S>,
    key: &str,
) -> Result<IString, ConvertError>
    ensures key { IfOk result (λ s. s ≡ key.now) }
    ensures cache { OnOk result (cache.new ≡ interned key.now cache.old) }
    ensures memory { IfErr result (λ e. e ≡ Memory) }
    ensures refused { OnErr result (cache.new ≡ cache.old) }
    ensures short { length key.now ≤ 7 → IsOk result }
{
    Ok(IString::intern(cache, key)?)
}

/// Appends an element. If an allocation fails, `item` is dropped and `list` is unchanged.
pub fn push(list: &mut IArray, item: IValue) -> Result<(), ConvertError>
    ensures items { OnOk result (list.new.items ≡ list.old.items ++ item ∷ []) }
    ensures memory { IfErr result (λ e. e ≡ Memory) }
    ensures refused { OnErr result (list.new.items ≡ list.old.items) }
    ensures room { length list.old.items < list.old.capacity → IsOk result }
{
    Ok(list.push(item)?)
}

/// Appends the JSON value of `x`. If an allocation fails, `list` is unchanged.
pub fn push_of<T: ToIValue, S: BuildHasher>(
    alloc: Global,
    cache: &mut StringCache<S>,
    list: &mut IArray,
    x: &T,
) -> Result<(), ConvertError>
    ensures items { OnOk result
        (map tree_of list.new.items ≡ map tree_of list.old.items ++ T.ToIValue.tree x.now ∷ []) }
    ensures cache { OnOk result
        (cache.new ≡ all_interned (texts_of (T.ToIValue.tree x.now)) cache.old) }
    ensures memory { IfErr result (λ e. e ≡ Memory) }
    ensures refused { OnErr result (list.new.items ≡ list.old.items) }
    ensures beginning { OnErr result
        (SomeInterned (texts_of (T.ToIValue.tree x.now)) cache.old cache.new) }
{
    push(list, to_value(alloc, cache, x)?)
}

/// Inserts an entry. The old value of the key is dropped.
///
/// If an allocation fails, the new entry is dropped and `object` is unchanged.
pub fn insert(object: &mut IObject, key: IString, value: IValue) -> Result<(), ConvertError>
    ensures pairs { OnOk result (object.new.pairs ≡ put object.old.pairs key value) }
    ensures memory { IfErr result (λ e. e ≡ Memory) }
    ensures refused { OnErr result (object.new.pairs ≡ object.old.pairs) }
    ensures there { IsSome (lookup key object.old.pairs) → IsOk result }
    ensures room { length object.old.pairs < object.old.capacity → IsOk result }
{
    object.insert(key, value)?;
    Ok(())
}

/// Inserts an entry with the key `key` and the JSON value of `x`. The old value of the key is
/// dropped.
///
/// If an allocation fails, `object` is unchanged.
pub fn insert_of<T: ToIValue, S: BuildHasher>(
    alloc: Global,
    cache: &mut StringCache<S>,
    object: &mut IObject,
    key: &str,
    x: &T,
) -> Result<(), ConvertError>
    ensures pairs { OnOk result ((value : IValue)
        × (value.tree ≡ T.ToIValue.tree x.now) × (object.new.pairs ≡ put object.old.pairs key.now value)) }
    ensures cache { OnOk result
        (cache.new ≡ all_interned (key.now ∷ texts_of (T.ToIValue.tree x.now)) cache.old) }
    ensures memory { IfErr result (λ e. e ≡ Memory) }
    ensures refused { OnErr result (object.new.pairs ≡ object.old.pairs) }
    ensures beginning { OnErr result
        (SomeInterned (key.now ∷ texts_of (T.ToIValue.tree x.now)) cache.old cache.new) }
{
    let key = IString::intern(cache, key)?;
    let value = to_value(alloc, cache, x)?;
    insert(object, key, value)
}
