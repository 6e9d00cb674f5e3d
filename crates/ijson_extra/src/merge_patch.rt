//! JSON Merge Patch (RFC 7396): a patch has the structure of the value to change, with null for
//! members to remove.
ghost use Rattle.std.specs.Prelude.{◌≡◌, ◌++◌, ◌+◌, ◌≤◌, [], length, drop, map, get_or, option_map, IfOk, Ok, OnOk};
ghost use Rattle.std.specs.Borrow.{sem};
ghost use Rattle.std.specs.Option.{unwrap_or};
ghost use Rattle.std.specs.Vec.{vec_capacity};
ghost use Rattle.ijson_table.specs.Store.{keys_of, lookup, put_each};
ghost use Rattle.ijson_value.specs.AtKey.{shift_out_key};
ghost use Rattle.ijson_value.specs.LendsAtKey.{LendsPut};
ghost use Rattle.ijson_value.specs.Tree.{null};
ghost use Rattle.ijson_value.specs.Values.{null_value, object_tree};
ghost use Rattle.ijson_value.specs.WellFormed.{tree_of};
ghost use Rattle.ijson_extra.specs.MergePatch.{merged, members_in};
ghost use Rattle.ijson_extra.specs.private.Joined.{after, change_of, joined, old_trees, unchanged, all_changed, shown};

use ijson_string::IString;
use ijson_table::{FixedTable, PairStore, ReserveError};
use ijson_value::object::{IObject, IntoIter, RefusedPair};
use ijson_value::value::IValue;
use std::alloc::{AllocError, Global};
use std::mem;

/// A patch with up to `FEW` members is applied by a lookup of each key.
///
/// If many keys collide, up to `FEW` scans of the target take less time than a table of all keys.
const FEW: usize = 32;

/// Keys, each with its change. A key without a change is kept.
type Changes<'a> = Vec<(IString, Option<&'a IValue>)>;

/// Applies `patch` to `target` and returns the result (RFC 7396, section 2).
///
/// A patch that is not an object replaces the target. Each member of an object patch changes the
/// target's member with the same key: null removes the member, and any other value is applied to it
/// as a patch.
///
/// Changed members keep their order, and new members are appended in the order of the patch. A
/// target that is not an object is treated as an empty object.
///
/// ```
/// // The target {"a":1,"b":2} and the patch {"a":null,"c":3} have the result {"b":2,"c":3}.
/// let value = merge_patch(alloc, target, &patch)?;
/// ```
///
/// # Errors
///
/// Returns `AllocError` if an allocation fails, or if an object would have more than `2 ^ 56`
/// entries. The target is dropped.
///
/// # Cost
///
/// For an object of the patch with at most 32 members, one lookup per member, plus a shift of the
/// later entries for each removal. If many keys collide, each lookup scans the target's object.
///
/// For a larger object, two tables of the keys of both objects are built, each at the cost of
/// `IObject::from_pairs`: linear if few keys collide, n log n otherwise.
///
/// The call recurses once per level of the patch.
#[cycle(merge)]
pub fn merge_patch(alloc: Global, target: IValue, patch: &IValue) -> Result<IValue, AllocError>
    ensures { IfOk result (λ value. value.tree ≡ merged target.tree patch.now.tree) }
{
    let Some(changes) = patch.as_object() else {
        return patch.clone();
    };
    // `object_of` is not inlined, because that would increase the stack frame of each level of the
    // recursion.
    let object = object_of(alloc, target);
    if changes.len() <= FEW {
        changed_in_turn(alloc, object, changes)
    } else {
        changed_at_once(alloc, object, changes)
    }
}

/// Returns the object in `value`, or an empty object if `value` is of another kind.
#[inline(never)]
fn object_of(alloc: Global, value: IValue) -> IObject
    ensures { members_in (object_tree result.pairs) ≡ members_in value.tree }
{
    match value.into_object() {
        Ok(object) => object,
        Err(_) => IObject::new(alloc),
    }
}

/// Returns `object` changed by the patch `changes`, with one lookup per member of the patch.
#[cycle(merge)]
fn changed_in_turn(
    alloc: Global,
    mut object: IObject,
    changes: &IObject,
) -> Result<IValue, AllocError>
    ensures { IfOk result (λ value. value.tree ≡ merged (object_tree object.pairs) (object_tree changes.now.pairs)) }
{
    for (key, change) in changes.iter() {
        if change.is_null() {
            remove(&mut object, key);
            continue;
        }
        let Ok(place) = place_of(&mut object, key.clone()?) else {
            return Err(AllocError);
        };
        let value = merge_patch(alloc, place.take(), change)?;
        // An assignment to `*place` would make the proof split by each kind of the old value.
        drop(mem::replace(place, value));
    }
    Ok(IValue::from(object))
}

/// Removes the entry of a key, if it exists. The order of all other entries is unchanged.
#[inline(never)]
fn remove(object: &mut IObject, key: &IString)
    ensures { object.new.pairs ≡ shift_out_key key.now object.old.pairs }
{
    drop(object.shift_remove(key));
}

/// Returns a mutable reference to the value of `key`. A missing key is first appended with null.
#[inline(never)]
fn place_of(object: &mut IObject, key: IString) -> Result<&mut IValue, RefusedPair>
    ensures* writes_back { sem 𝓛 (LendsPut object.entry key result) }
    ensures value { IfOk result (λ value. value.now ≡ unwrap_or (lookup key object.old.pairs) null_value) }
{
    object.index_or_insert(key)
}

/// Returns `object` changed by the patch `changes`, with one table of the keys of `object` and
/// `changes`.
#[cycle(merge)]
fn changed_at_once(alloc: Global, object: IObject, changes: &IObject) -> Result<IValue, AllocError>
    ensures { IfOk result (λ value. value.tree ≡ merged (object_tree object.pairs) (object_tree changes.now.pairs)) }
{
    let keys = joined_keys(alloc, &object, changes)?;
    let mut pairs = Vec::with_capacity(alloc, keys.len())?;
    let mut olds = object.into_iter();
    for (key, change) in keys {
        let old = next_value(&mut olds);
        if let Some(value) = changed_value(alloc, old, change)? {
            pairs.push_reserved((key, value));
        }
    }
    value_of_pairs(alloc, pairs)
}

/// Returns an object of the entries `pairs`, as a value. A duplicate key replaces the earlier
/// value.
#[inline(never)]
fn value_of_pairs(alloc: Global, pairs: Vec<(IString, IValue)>) -> Result<IValue, AllocError>
    ensures { IfOk result (λ value. value.tree ≡ object_tree (put_each [] pairs.items)) }
{
    let object = within_memory(IObject::from_pairs(alloc, pairs))?;
    Ok(IValue::from(object))
}

/// Returns the value of the next entry, or null if the entries have ended.
#[inline(never)]
fn next_value(olds: &mut IntoIter) -> IValue
    ensures value { result.tree ≡ get_or (old_trees olds.old) 0 null }
    ensures rest { olds.new ≡ drop 1 olds.old }
{
    match olds.next() {
        Some((key, value)) => {
            drop(key);
            value
        }
        None => IValue::default(),
    }
}

/// Returns the value of a member after its change, or `None` if the change removes the member.
#[cycle(merge)]
fn changed_value(
    alloc: Global,
    old: IValue,
    change: Option<&IValue>,
) -> Result<Option<IValue>, AllocError>
    ensures { IfOk result (λ value. option_map tree_of value ≡ after old.tree (change_of change.entry)) }
{
    match change {
        None => Ok(Some(old)),
        Some(change) if change.is_null() => {
            drop(old);
            Ok(None)
        }
        Some(change) => Ok(Some(merge_patch(alloc, old, change)?)),
    }
}

/// Returns the keys of `object`, then the new keys of `changes`, each with its change, if any.
#[inline(never)]
fn joined_keys<'a>(
    alloc: Global,
    object: &IObject,
    changes: &'a IObject,
) -> Result<Changes<'a>, AllocError>
    ensures { IfOk result (λ keys. map shown keys.items ≡ joined object.now.pairs changes.now.pairs) }
{
    let mut keys = Vec::with_capacity(alloc, object.capacity() + changes.capacity())?;
    push_unchanged(&mut keys, object)?;
    push_changed(&mut keys, changes)?;
    let table = within_memory(FixedTable::from_pairs(alloc, keys))?;
    Ok(table.into_pairs())
}

/// Converts an error to `AllocError`, whether an allocation failed or the capacity was too large.
fn within_memory<T>(made: Result<T, ReserveError>) -> Result<T, AllocError>
    ensures { IfOk result (λ value. made ≡ Ok value) }
{
    match made {
        Ok(value) => Ok(value),
        Err(_) => Err(AllocError),
    }
}

/// Appends the keys of `object`, each without a change.
fn push_unchanged(keys: &mut Changes, object: &IObject) -> Result<(), AllocError>
    requires { length keys.old.items + length object.now.pairs ≤ vec_capacity keys.old }
    ensures keys { OnOk result
        (map shown keys.new.items ≡ map shown keys.old.items ++ unchanged (keys_of object.now.pairs)) }
    ensures room { vec_capacity keys.new ≡ vec_capacity keys.old }
{
    for key in object.keys() {
        keys.push_reserved((key.clone()?, None));
    }
    Ok(())
}

/// Appends the keys of the patch `changes`, each with its change.
fn push_changed<'a>(keys: &mut Changes<'a>, changes: &'a IObject) -> Result<(), AllocError>
    requires { length keys.old.items + length changes.now.pairs ≤ vec_capacity keys.old }
    ensures keys { OnOk result (map shown keys.new.items ≡ map shown keys.old.items ++ all_changed changes.now.pairs) }
{
    for (key, change) in changes.iter() {
        keys.push_reserved((key.clone()?, Some(change)));
    }
    Ok(())
}
