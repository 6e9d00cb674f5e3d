//! `ToIValue` for tuples, which are converted to arrays.
ghost use Rattle.std.specs.Prelude.{[], ◌∷◌};
ghost use Rattle.ijson_value.specs.Tree.{array, items_of};
ghost use Rattle.ijson_convert.specs.private.Pushes.{Pushes};

use crate::convert_error::ConvertError;
use crate::to_ivalue::ToIValue;
use ijson_string::StringCache;
use ijson_value::array::IArray;
use ijson_value::value::IValue;
use std::alloc::Global;
use std::hash::BuildHasher;

/// Appends the JSON value of `x` to `list`.
fn push_of<T: ToIValue, S: BuildHasher>(
    alloc: Global,
    cache: &mut StringCache<S>,
    list: &mut IArray,
    x: &T,
) -> Result<(), ConvertError>
    ensures { Pushes (T.ToIValue.tree x.now ∷ []) list.old.items list.new.items cache.old cache.new result }
{
    let item = x.to_ivalue(alloc, cache)?;
    Ok(list.push(item)?)
}

/// Appends the JSON values of `x` and `y` to `list`.
fn push_both<A: ToIValue, B: ToIValue, S: BuildHasher>(
    alloc: Global,
    cache: &mut StringCache<S>,
    list: &mut IArray,
    x: &A,
    y: &B,
) -> Result<(), ConvertError>
    ensures { Pushes (A.ToIValue.tree x.now ∷ B.ToIValue.tree y.now ∷ [])
        list.old.items list.new.items cache.old cache.new result }
{
    push_of(alloc, cache, list, x)?;
    push_of(alloc, cache, list, y)
}

/// Converts to an array of two elements.
impl<A: ToIValue, B: ToIValue> ToIValue for (A, B) {
    ghost tree = { λ p. array (items_of (A.ToIValue.tree p.0 ∷ B.ToIValue.tree p.1 ∷ [])) };

    fn to_ivalue<S: BuildHasher>(
        &self,
        alloc: Global,
        cache: &mut StringCache<S>,
    ) -> Result<IValue, ConvertError> {
        let mut list = IArray::with_capacity(alloc, 2)?;
        push_both(alloc, cache, &mut list, &self.0, &self.1)?;
        Ok(IValue::from(list))
    }
}

/// Converts to an array of three elements.
impl<A: ToIValue, B: ToIValue, C: ToIValue> ToIValue for (A, B, C) {
    ghost tree = { λ p. array (items_of (A.ToIValue.tree p.0 ∷ B.ToIValue.tree p.1 ∷ C.ToIValue.tree p.2 ∷ [])) };

    fn to_ivalue<S: BuildHasher>(
        &self,
        alloc: Global,
        cache: &mut StringCache<S>,
    ) -> Result<IValue, ConvertError> {
        let mut list = IArray::with_capacity(alloc, 3)?;
        push_both(alloc, cache, &mut list, &self.0, &self.1)?;
        push_of(alloc, cache, &mut list, &self.2)?;
        Ok(IValue::from(list))
    }
}

/// Converts to an array of four elements.
impl<A: ToIValue, B: ToIValue, C: ToIValue, D: ToIValue> ToIValue for (A, B, C, D) {
    ghost tree = { λ p. array (items_of (A.ToIValue.tree p.0 ∷ B.ToIValue.tree p.1 ∷ C.ToIValue.tree p.2
        ∷ D.ToIValue.tree p.3 ∷ [])) };

    fn to_ivalue<S: BuildHasher>(
        &self,
        alloc: Global,
        cache: &mut StringCache<S>,
    ) -> Result<IValue, ConvertError> {
        let mut list = IArray::with_capacity(alloc, 4)?;
        push_both(alloc, cache, &mut list, &self.0, &self.1)?;
        push_both(alloc, cache, &mut list, &self.2, &self.3)?;
        Ok(IValue::from(list))
    }
}
