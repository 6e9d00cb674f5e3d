//! `ToIValue` for maps.
ghost use Rattle.std.specs.Prelude.{◌≡◌, List, ◌∷◌, length, map, String, string_bytes, OnOk, IfOk, IfErr};
ghost use Rattle.std.specs.Iterator.{AlwaysYields, IsFinite};
ghost use Rattle.std.specs.Map.Iter.{deref_pair};
ghost use Rattle.std.specs.declared.alloc.Global.{Global};
ghost use Rattle.ijson_table.specs.Store.{IsDistinct};
ghost use Rattle.ijson_convert.specs.Interned.{all_interned, SomeInterned};
ghost use Rattle.ijson_convert.specs.MapTree.{map_tree};
ghost use Rattle.ijson_convert.specs.TextsOf.{texts_of};
ghost use Rattle.ijson_convert.specs.declared.convert_error.ConvertError.TheVariants.{Memory};

use crate::convert_error::ConvertError;
use crate::to_ivalue::ToIValue;
use ijson_string::{IString, StringCache};
use ijson_value::object::IObject;
use ijson_value::value::IValue;
use indexmap::IndexMap;
use std::alloc::Global;
use std::collections::BTreeMap;
use std::hash::BuildHasher;

/// Interns `key` and converts `x`.
fn pair_of<T: ToIValue, S: BuildHasher>(
    alloc: Global,
    cache: &mut StringCache<S>,
    key: &str,
    x: &T,
) -> Result<(IString, IValue), ConvertError>
    ensures pair { IfOk result (λ pair.
        (pair.0 ≡ key.now) × (pair.1.tree ≡ T.ToIValue.tree x.now)) }
    ensures cache { OnOk result
        (cache.new ≡ all_interned (key.now ∷ texts_of (T.ToIValue.tree x.now)) cache.old) }
    ensures refused { IfErr result (λ e.
        (e ≡ Memory)
        × SomeInterned (key.now ∷ texts_of (T.ToIValue.tree x.now)) cache.old cache.new) }
{
    let key = IString::intern(cache, key)?;
    match x.to_ivalue(alloc, cache) {
        Ok(value) => Ok((key, value)),
        Err(error) => {
            drop(key);
            Err(error)
        }
    }
}

/// Creates an object from the `count` entries of a map, in the order of `entries`.
///
/// The capacity of the object is `count`. The entries are first collected in a list, which is
/// allocated once, and `from_pairs` then builds the object.
fn object_of<'a, T: ToIValue + 'a, S: BuildHasher, I: Iterator<Item = (&'a String, &'a T)> + Drop>(
    alloc: Global,
    cache: &mut StringCache<S>,
    count: usize,
    entries: I,
) -> Result<IValue, ConvertError>
    requires finite { I.can_next entries × IsFinite (I.remaining entries) }
    requires given { (all : List (String Global × T))
        × AlwaysYields I.next_gives deref_pair entries all
        × (count ≡ length all) × IsDistinct (map (λ e. string_bytes e.0) all) }
    ensures tree { (all : List (String Global × T))
        → AlwaysYields I.next_gives deref_pair entries all
        → IfOk result (λ value. value.tree ≡ map_tree T.ToIValue.tree all) }
    ensures cache { (all : List (String Global × T))
        → AlwaysYields I.next_gives deref_pair entries all
        → OnOk result
        (cache.new ≡ all_interned (texts_of (map_tree T.ToIValue.tree all)) cache.old) }
    ensures refused { (all : List (String Global × T))
        → AlwaysYields I.next_gives deref_pair entries all
        → IfErr result (λ e. (e ≡ Memory)
        × SomeInterned (texts_of (map_tree T.ToIValue.tree all)) cache.old cache.new) }
{
    let mut pairs = Vec::with_capacity(alloc, count)?;
    for (key, x) in entries {
        pairs.push_reserved(pair_of(alloc, cache, key.as_str(), x)?);
    }
    let object = IObject::from_pairs(alloc, pairs)?;
    Ok(IValue::from(object))
}

/// Converts to an object, in the order of the keys, without spare capacity.
impl<T: ToIValue> ToIValue for BTreeMap<String, T> {
    ghost tree = { λ map. map_tree T.ToIValue.tree map.entries };

    fn to_ivalue<S: BuildHasher>(
        &self,
        alloc: Global,
        cache: &mut StringCache<S>,
    ) -> Result<IValue, ConvertError> {
        object_of(alloc, cache, self.len(), self.iter())
    }
}

/// Converts to an object, in the order of the map, without spare capacity.
impl<T: ToIValue> ToIValue for IndexMap<String, T> {
    ghost tree = { λ map. map_tree T.ToIValue.tree map.entries };

    fn to_ivalue<S: BuildHasher>(
        &self,
        alloc: Global,
        cache: &mut StringCache<S>,
    ) -> Result<IValue, ConvertError> {
        object_of(alloc, cache, self.len(), self.iter())
    }
}
