//! `ToIValue` for JSON values and their parts: copies them and interns their strings.
ghost use Rattle.std.specs.Prelude.{◌≡◌, OnOk, IfOk, IfErr};
ghost use Rattle.ijson_value.specs.Tree.{number, string};
ghost use Rattle.ijson_value.specs.Values.{array_tree, object_tree};
ghost use Rattle.ijson_convert.specs.Interned.{all_interned, SomeInterned};
ghost use Rattle.ijson_convert.specs.TextsOf.{texts_of};
ghost use Rattle.ijson_convert.specs.declared.convert_error.ConvertError.TheVariants.{Memory};

use crate::convert_error::ConvertError;
use crate::to_ivalue::ToIValue;
use ijson_number::INumber;
use ijson_string::{IString, StringCache};
use ijson_value::array::IArray;
use ijson_value::object::IObject;
use ijson_value::value::{DestructuredRef, IValue};
use std::alloc::Global;
use std::hash::BuildHasher;

/// Copies a value. Its strings and keys are interned in `cache`.
#[cycle(copy)]
fn copy_value<S: BuildHasher>(
    alloc: Global,
    cache: &mut StringCache<S>,
    value: &IValue,
) -> Result<IValue, ConvertError>
    ensures tree { IfOk result (λ copy. copy.tree ≡ value.now.tree) }
    ensures cache { OnOk result (cache.new ≡ all_interned (texts_of value.now.tree) cache.old) }
    ensures refused { IfErr result (λ e.
        (e ≡ Memory) × SomeInterned (texts_of value.now.tree) cache.old cache.new) }
{
    match value.destructure_ref() {
        DestructuredRef::Null => Ok(IValue::default()),
        DestructuredRef::Bool(truth) => Ok(IValue::from(truth)),
        DestructuredRef::Number(number) => number.to_ivalue(alloc, cache),
        DestructuredRef::String(text) => text.to_ivalue(alloc, cache),
        DestructuredRef::Array(array) => {
            Ok(IValue::from(copy_items(alloc, cache, array.as_slice())?))
        }
        DestructuredRef::Object(object) => Ok(IValue::from(copy_pairs(alloc, cache, object)?)),
    }
}

/// Copies `items` to an array, which is allocated once.
#[cycle(copy)]
fn copy_items<S: BuildHasher>(
    alloc: Global,
    cache: &mut StringCache<S>,
    items: &[IValue],
) -> Result<IArray, ConvertError>
    ensures tree { IfOk result (λ copy. array_tree copy.items ≡ array_tree items.now) }
    ensures cache { OnOk result
        (cache.new ≡ all_interned (texts_of (array_tree items.now)) cache.old) }
    ensures refused { IfErr result (λ e.
        (e ≡ Memory) × SomeInterned (texts_of (array_tree items.now)) cache.old cache.new) }
{
    let mut array = IArray::with_capacity(alloc, items.len())?;
    for item in items {
        let copy = copy_value(alloc, cache, item)?;
        array.push(copy)?;
    }
    Ok(array)
}

/// Copies `object`, in the same order and without spare capacity.
#[cycle(copy)]
fn copy_pairs<S: BuildHasher>(
    alloc: Global,
    cache: &mut StringCache<S>,
    object: &IObject,
) -> Result<IObject, ConvertError>
    ensures tree { IfOk result (λ copy. object_tree copy.pairs ≡ object_tree object.now.pairs) }
    ensures cache { OnOk result
        (cache.new ≡ all_interned (texts_of (object_tree object.now.pairs)) cache.old) }
    ensures refused { IfErr result (λ e.
        (e ≡ Memory) × SomeInterned (texts_of (object_tree object.now.pairs)) cache.old cache.new) }
{
    let mut pairs = Vec::with_capacity(alloc, object.len())?;
    for (key, value) in object.iter() {
        let key = IString::intern(cache, key.as_str())?;
        match copy_value(alloc, cache, value) {
            Ok(copy) => pairs.push_reserved((key, copy)),
            Err(error) => {
                drop(key);
                return Err(error);
            }
        }
    }
    Ok(IObject::from_pairs(alloc, pairs)?)
}

/// Copies a number.
impl ToIValue for INumber {
    ghost tree = { λ n. number n.decimal };

    fn to_ivalue<S: BuildHasher>(
        &self,
        _alloc: Global,
        _cache: &mut StringCache<S>,
    ) -> Result<IValue, ConvertError> {
        Ok(IValue::from(self.clone()?))
    }
}

/// Interns the string in `cache`.
impl ToIValue for IString {
    ghost tree = { λ s. string s };

    fn to_ivalue<S: BuildHasher>(
        &self,
        alloc: Global,
        cache: &mut StringCache<S>,
    ) -> Result<IValue, ConvertError> {
        self.as_str().to_ivalue(alloc, cache)
    }
}

/// Copies an array. Its strings and keys are interned in `cache`.
impl ToIValue for IArray {
    ghost tree = { λ array. array_tree array.items };

    fn to_ivalue<S: BuildHasher>(
        &self,
        alloc: Global,
        cache: &mut StringCache<S>,
    ) -> Result<IValue, ConvertError> {
        Ok(IValue::from(copy_items(alloc, cache, self.as_slice())?))
    }
}

/// Copies an object. Its strings and keys are interned in `cache`.
impl ToIValue for IObject {
    ghost tree = { λ object. object_tree object.pairs };

    fn to_ivalue<S: BuildHasher>(
        &self,
        alloc: Global,
        cache: &mut StringCache<S>,
    ) -> Result<IValue, ConvertError> {
        Ok(IValue::from(copy_pairs(alloc, cache, self)?))
    }
}

/// Copies a value. Its strings and keys are interned in `cache`.
impl ToIValue for IValue {
    ghost tree = { λ value. value.tree };

    fn to_ivalue<S: BuildHasher>(
        &self,
        alloc: Global,
        cache: &mut StringCache<S>,
    ) -> Result<IValue, ConvertError> {
        copy_value(alloc, cache, self)
    }
}
