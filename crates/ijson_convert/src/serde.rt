//! Conversions between JSON values and the values, maps and numbers of `serde_json`.
ghost use Rattle.std.specs.Prelude.{◌≡◌, ◌⊎◌, OnOk, OnErr, IfOk, IfErr};
ghost use Rattle.serde_json.specs.Data.{array as data_array, object as data_object, number as data_number};
ghost use Rattle.serde_json.specs.View.{view, number_view, items_view, members_view};
ghost use Rattle.ijson_value.specs.Tree.{number as number_tree};
ghost use Rattle.ijson_value.specs.Values.{array_tree, object_tree};
ghost use Rattle.ijson_convert.specs.Interned.{all_interned, SomeInterned};
ghost use Rattle.ijson_convert.specs.SerdeTexts.{serde_texts};
ghost use Rattle.ijson_convert.specs.SerdeTree.{SerdeNumber, SerdeTree, HasNoTree, SerdeMeans, NoSerdeMeans};
ghost use Rattle.ijson_convert.specs.TextsOf.{texts_of};
ghost use Rattle.ijson_convert.specs.declared.convert_error.ConvertError.TheVariants as why;

use crate::convert_error::ConvertError;
use ijson_number::INumber;
use ijson_string::{IString, StringCache};
use ijson_value::array::IArray;
use ijson_value::object::IObject;
use ijson_value::value::{DestructuredRef, IValue};
use serde_json::{Map, Number, Value};
use std::alloc::Global;
use std::hash::BuildHasher;

/// Converts an integer of `serde_json` to a number without a decimal point.
///
/// Does not allocate.
///
/// # Errors
///
/// Returns `Number` for any float of `serde_json`.
#[tactic(auto, using(crate::proofs::serde_trees::SerdeNumbers::numbers_here))]
pub fn from_serde_number(number: &Number) -> Result<INumber, ConvertError>
    ensures number { IfOk result (λ made. SerdeNumber (number_view number.now) made.decimal) }
    ensures refused { IfErr result (λ e.
        (e ≡ why.Number) × HasNoTree (data_number (number_view number.now))) }
{
    if let Some(unsigned) = number.as_u64() {
        return Ok(INumber::from(unsigned));
    }
    match number.as_i64() {
        Some(signed) => Ok(INumber::from(signed)),
        None => Err(ConvertError::Number),
    }
}

/// Converts a number to a number of `serde_json` with the same value.
///
/// The result does not record whether the number had a decimal point. Does not allocate.
///
/// # Errors
///
/// Returns `Number` if the value is not an integer in the range of `i64` or `u64`.
pub fn to_serde_number(number: &INumber) -> Result<Number, ConvertError>
    ensures number { IfOk result (λ made.
        SerdeMeans (data_number (number_view made)) (number_tree number.now.decimal)) }
    ensures refused { IfErr result (λ e.
        (e ≡ why.Number) × NoSerdeMeans (number_tree number.now.decimal)) }
{
    if let Some(unsigned) = number.to_u64() {
        return Ok(Number::from(unsigned));
    }
    match number.to_i64() {
        Some(signed) => Ok(Number::from(signed)),
        None => Err(ConvertError::Number),
    }
}

/// Converts a value of `serde_json` to a JSON value.
///
/// The entries of an object are in the order of the `serde_json` map, which is sorted by key.
/// Strings and keys are interned in `cache`, in order. Numbers are without a decimal point.
///
/// # Errors
///
/// Returns `Number` if the value contains a float, and `Memory` if an allocation for an array, an
/// object or a string fails. Some leading strings and keys may then be in `cache`.
///
/// # Cost
///
/// Linear in the value, plus hash lookups of keys and strings. If many keys of an object collide,
/// the time for its n entries is n log n. The depth is not limited: the call recurses once per
/// level, so that a very deep value can overflow the stack.
#[cycle(from)]
pub fn from_serde<S: BuildHasher>(
    alloc: Global,
    cache: &mut StringCache<S>,
    value: &Value,
) -> Result<IValue, ConvertError>
    ensures tree { IfOk result (λ made. SerdeTree (view value.now) made.tree) }
    ensures cache { IfOk result (λ made. cache.new ≡ all_interned (texts_of made.tree) cache.old) }
    ensures refused { IfErr result (λ e.
        (e ≡ why.Memory) ⊎ ((e ≡ why.Number) × HasNoTree (view value.now))) }
    ensures begun { OnErr result (SomeInterned (serde_texts (view value.now)) cache.old cache.new) }
{
    match value {
        Value::Null => Ok(IValue::default()),
        Value::Bool(truth) => Ok(IValue::from(*truth)),
        Value::Number(number) => Ok(IValue::from(from_serde_number(number)?)),
        Value::String(text) => Ok(IValue::from(IString::intern(cache, text.as_str())?)),
        Value::Array(items) => Ok(IValue::from(from_items(alloc, cache, items)?)),
        Value::Object(map) => Ok(IValue::from(from_serde_map(alloc, cache, map)?)),
    }
}

/// Converts the elements of a `serde_json` list to an array, which is allocated once.
#[cycle(from)]
fn from_items<S: BuildHasher>(
    alloc: Global,
    cache: &mut StringCache<S>,
    items: &Vec<Value>,
) -> Result<IArray, ConvertError>
    ensures tree { IfOk result (λ made.
        SerdeTree (data_array (items_view items.now.items)) (array_tree made.items)) }
    ensures cache { OnOk result (cache.new
        ≡ all_interned (serde_texts (data_array (items_view items.now.items))) cache.old) }
    ensures refused { IfErr result (λ e. (e ≡ why.Memory)
        ⊎ ((e ≡ why.Number) × HasNoTree (data_array (items_view items.now.items)))) }
    ensures begun { OnErr result
        (SomeInterned (serde_texts (data_array (items_view items.now.items))) cache.old cache.new) }
{
    let mut array = IArray::with_capacity(alloc, items.len())?;
    for item in items {
        let value = from_serde(alloc, cache, item)?;
        array.push(value)?;
    }
    Ok(array)
}

/// Converts a `serde_json` map to an object, in the order of the map, which is sorted by key.
///
/// The entries are first collected in a list, which is allocated once, and `from_pairs` then builds
/// the object. Keys and strings are interned in `cache`, in order.
///
/// # Errors
///
/// Returns `Number` if the map contains a float, and `Memory` if an allocation fails. Some leading
/// keys and strings may then be in `cache`.
///
/// # Cost
///
/// Like `from_serde`.
#[cycle(from)]
pub fn from_serde_map<S: BuildHasher>(
    alloc: Global,
    cache: &mut StringCache<S>,
    map: &Map<String, Value>,
) -> Result<IObject, ConvertError>
    ensures tree { IfOk result (λ made.
        SerdeTree (data_object (members_view map.now.entries)) (object_tree made.pairs)) }
    ensures cache { IfOk result (λ made.
        cache.new ≡ all_interned (texts_of (object_tree made.pairs)) cache.old) }
    ensures refused { IfErr result (λ e. (e ≡ why.Memory)
        ⊎ ((e ≡ why.Number) × HasNoTree (data_object (members_view map.now.entries)))) }
    ensures begun { OnErr result
        (SomeInterned (serde_texts (data_object (members_view map.now.entries))) cache.old cache.new) }
{
    let mut pairs = Vec::with_capacity(alloc, map.len())?;
    for (key, member) in map.iter() {
        let key = IString::intern(cache, key.as_str())?;
        match from_serde(alloc, cache, member) {
            Ok(value) => pairs.push_reserved((key, value)),
            Err(error) => {
                drop(key);
                return Err(error);
            }
        }
    }
    Ok(IObject::from_pairs(alloc, pairs)?)
}

/// Converts a JSON value to a value of `serde_json`.
///
/// Numbers keep their values but not their decimal points. Strings are copied. The entries of each
/// object are sorted by key.
///
/// # Errors
///
/// Returns `Number` if a number in the value is not an integer in the range of `i64` or `u64`, and
/// `Memory` if an allocation for a list, a map or a string fails.
///
/// # Cost
///
/// The entries of each object are inserted into a sorted map, in n log n time plus the comparisons
/// of keys. All other work is linear. The depth is not limited: the call recurses once per level,
/// so that a very deep value can overflow the stack.
#[cycle(to)]
pub fn to_serde(alloc: Global, value: &IValue) -> Result<Value, ConvertError>
    ensures means { IfOk result (λ made. SerdeMeans (view made) value.now.tree) }
    ensures refused { IfErr result (λ e.
        (e ≡ why.Memory) ⊎ ((e ≡ why.Number) × NoSerdeMeans value.now.tree)) }
{
    match value.destructure_ref() {
        DestructuredRef::Null => Ok(Value::Null),
        DestructuredRef::Bool(truth) => Ok(Value::Bool(truth)),
        DestructuredRef::Number(number) => Ok(Value::Number(to_serde_number(number)?)),
        DestructuredRef::String(text) => Ok(Value::String(text.to_owned_string(alloc)?)),
        DestructuredRef::Array(array) => Ok(Value::Array(to_items(alloc, array.as_slice())?)),
        DestructuredRef::Object(object) => Ok(Value::Object(to_serde_map(alloc, object)?)),
    }
}

/// Converts `items` to a list of `serde_json` values, which is allocated once.
#[cycle(to)]
fn to_items(alloc: Global, items: &[IValue]) -> Result<Vec<Value>, ConvertError>
    ensures means { IfOk result (λ made.
        SerdeMeans (data_array (items_view made.items)) (array_tree items.now)) }
    ensures refused { IfErr result (λ e.
        (e ≡ why.Memory) ⊎ ((e ≡ why.Number) × NoSerdeMeans (array_tree items.now))) }
{
    let mut list = Vec::with_capacity(alloc, items.len())?;
    for item in items {
        list.push_reserved(to_serde(alloc, item)?);
    }
    Ok(list)
}

/// Converts an object to a map of `serde_json`, which is sorted by key.
///
/// # Errors
///
/// Returns `Number` if a number in the object is not an integer in the range of `i64` or `u64`, and
/// `Memory` if an allocation fails.
///
/// # Cost
///
/// Like `to_serde`.
#[cycle(to)]
pub fn to_serde_map(alloc: Global, object: &IObject) -> Result<Map<String, Value>, ConvertError>
    ensures means { IfOk result (λ made.
        SerdeMeans (data_object (members_view made.entries)) (object_tree object.now.pairs)) }
    ensures refused { IfErr result (λ e.
        (e ≡ why.Memory) ⊎ ((e ≡ why.Number) × NoSerdeMeans (object_tree object.now.pairs))) }
{
    let mut map = Map::new(alloc);
    for (key, value) in object.iter() {
        let key = key.to_owned_string(alloc)?;
        let member = to_serde(alloc, value)?;
        if map.insert(key, member).is_err() {
            return Err(ConvertError::Memory);
        }
    }
    Ok(map)
}
