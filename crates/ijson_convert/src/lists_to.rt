//! `ToIValue` for lists.
ghost use Rattle.std.specs.Prelude.{◌≡◌, map, OnOk, IfOk, IfErr};
ghost use Rattle.ijson_value.specs.WellFormed.{tree_of};
ghost use Rattle.ijson_convert.specs.Interned.{all_interned, SomeInterned};
ghost use Rattle.ijson_convert.specs.ListTree.{list_tree};
ghost use Rattle.ijson_convert.specs.TextsOf.{texts_of};
ghost use Rattle.ijson_convert.specs.declared.convert_error.ConvertError.TheVariants.{Memory};

use crate::convert_error::ConvertError;
use crate::to_ivalue::ToIValue;
use ijson_string::StringCache;
use ijson_value::array::IArray;
use ijson_value::value::IValue;
use std::alloc::Global;
use std::hash::BuildHasher;

/// Converts `items` to an array, which is allocated once.
fn array_of<T: ToIValue, S: BuildHasher>(
    alloc: Global,
    cache: &mut StringCache<S>,
    items: &[T],
) -> Result<IArray, ConvertError>
    ensures items { IfOk result (λ array.
        map tree_of array.items ≡ map T.ToIValue.tree items.now) }
    ensures cache { OnOk result
        (cache.new ≡ all_interned (texts_of (list_tree T.ToIValue.tree items.now)) cache.old) }
    ensures refused { IfErr result (λ e.
        (e ≡ Memory)
        × SomeInterned (texts_of (list_tree T.ToIValue.tree items.now)) cache.old cache.new) }
{
    let mut array = IArray::with_capacity(alloc, items.len())?;
    for x in items {
        let item = x.to_ivalue(alloc, cache)?;
        array.push(item)?;
    }
    Ok(array)
}

/// Converts the elements to an array, which is allocated once.
impl<T: ToIValue> ToIValue for &[T] {
    ghost tree = { λ items. list_tree T.ToIValue.tree items.now };

    fn to_ivalue<S: BuildHasher>(
        &self,
        alloc: Global,
        cache: &mut StringCache<S>,
    ) -> Result<IValue, ConvertError> {
        let array = array_of(alloc, cache, *self)?;
        Ok(IValue::from(array))
    }
}

/// Converts the elements to an array, which is allocated once.
impl<T: ToIValue, const N: usize> ToIValue for [T; N] {
    ghost tree = { λ items. list_tree T.ToIValue.tree items };

    fn to_ivalue<S: BuildHasher>(
        &self,
        alloc: Global,
        cache: &mut StringCache<S>,
    ) -> Result<IValue, ConvertError> {
        self.as_slice().to_ivalue(alloc, cache)
    }
}

/// Converts the elements to an array, which is allocated once.
impl<T: ToIValue> ToIValue for Vec<T> {
    ghost tree = { λ list. list_tree T.ToIValue.tree list.items };

    fn to_ivalue<S: BuildHasher>(
        &self,
        alloc: Global,
        cache: &mut StringCache<S>,
    ) -> Result<IValue, ConvertError> {
        self.as_slice().to_ivalue(alloc, cache)
    }
}
