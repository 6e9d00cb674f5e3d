//! `FromIValue` for maps.
ghost use Rattle.std.specs.Map.{values_of};
ghost use Rattle.std.specs.Prelude.{All};
ghost use Rattle.ijson_convert.specs.MapTree.{map_tree};
ghost use Rattle.ijson_convert.specs.Refused.{MapRefused};
ghost use Rattle.ijson_convert.specs.laws.Complete.{map_complete};

use crate::convert_error::ConvertError;
use crate::from_ivalue::FromIValue;
use ijson_value::value::{DestructuredRef, IValue};
use std::alloc::Global;
use std::collections::{BTreeMap, HashMap};

/// Reads the values of an object in order. The keys are copied and sorted.
///
/// # Cost
///
/// The entries are inserted into a sorted map, in n log n time plus the comparisons of keys.
impl<T: FromIValue + Drop> FromIValue for BTreeMap<String, T> {
    ghost tree = { λ map. map_tree T.FromIValue.tree map.entries };

    ghost refused = { MapRefused T.FromIValue.refused };

    ghost in_range = { λ map. All T.FromIValue.in_range (values_of map.entries) };

    ghost null_is_none = { λ map. All T.FromIValue.null_is_none (values_of map.entries) };

    fn from_ivalue(alloc: Global, value: &IValue) -> Result<BTreeMap<String, T>, ConvertError> {
        let DestructuredRef::Object(object) = value.destructure_ref() else {
            return Err(ConvertError::WrongKind);
        };
        let mut map = BTreeMap::new(alloc);
        for (key, item) in object.iter() {
            let x = T::from_ivalue(alloc, item)?;
            let key = key.to_owned_string(alloc)?;
            if map.insert(key, x).is_err() {
                return Err(ConvertError::Memory);
            }
        }
        Ok(map)
    }

    ghost complete = { λ map. map_complete T.FromIValue.tree T.FromIValue.refused
        T.FromIValue.in_range T.FromIValue.complete map.entries };
}

/// Reads the values of an object in order. The keys are copied.
///
/// The map does not keep the order of the object. Its hasher is std's, with a fixed seed: for
/// untrusted keys, read a `BTreeMap`.
///
/// # Cost
///
/// Reserves capacity for all entries, then hashes and inserts each key.
impl<T: FromIValue + Drop> FromIValue for HashMap<String, T> {
    ghost tree = { λ map. map_tree T.FromIValue.tree map.entries };

    ghost refused = { MapRefused T.FromIValue.refused };

    ghost in_range = { λ map. All T.FromIValue.in_range (values_of map.entries) };

    ghost null_is_none = { λ map. All T.FromIValue.null_is_none (values_of map.entries) };

    fn from_ivalue(alloc: Global, value: &IValue) -> Result<HashMap<String, T>, ConvertError> {
        let DestructuredRef::Object(object) = value.destructure_ref() else {
            return Err(ConvertError::WrongKind);
        };
        let mut map = HashMap::with_capacity(alloc, object.len())?;
        for (key, item) in object.iter() {
            let x = T::from_ivalue(alloc, item)?;
            let key = key.to_owned_string(alloc)?;
            if map.insert(key, x).is_err() {
                return Err(ConvertError::Memory);
            }
        }
        Ok(map)
    }

    ghost complete = { λ map. map_complete T.FromIValue.tree T.FromIValue.refused
        T.FromIValue.in_range T.FromIValue.complete map.entries };
}
