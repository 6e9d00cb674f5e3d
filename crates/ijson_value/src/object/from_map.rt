//! Conversion of maps to objects.
ghost use Rattle.std.specs.Prelude.{◌≡◌, ◌<◌, ◌↔◌, Err, IfOk, IsOk};
ghost use Rattle.std.specs.BTreeMap.{btree_map_len};
ghost use Rattle.std.specs.HashMap.{hash_map_len};
ghost use Rattle.std.specs.Iterator.{IsFiniteIterable};
ghost use Rattle.indexmap.specs.IndexMap.{index_map_len};
ghost use Rattle.ijson_table.specs.Growth.{capacity_limit};
ghost use Rattle.ijson_value.specs.Gives.{GivesAll};
ghost use Rattle.ijson_value.specs.private.GivesPairs.{GivesDistinctPairs};

use super::map::IObject;
use crate::value::IValue;
use ijson_string::IString;
use ijson_table::{CAPACITY_LIMIT, ReserveError};
use indexmap::IndexMap;
use std::alloc::Global;
use std::collections::{BTreeMap, HashMap};
use std::hash::BuildHasher;

impl IObject {
    /// Creates an object from the entries of a hash map, in the iteration order of the map.
    ///
    /// The capacity of the object is the number of entries. The entries are moved to a list, and
    /// the object is built from the list as by `from_pairs`. An empty map does not allocate.
    ///
    /// # Errors
    ///
    /// Returns `TooLarge` if the map has more than `2 ^ 56` entries, before allocating, and
    /// `Memory` if an allocation fails. The map and its entries are dropped.
    ///
    /// # Cost
    ///
    /// Each key is hashed once, or up to three times if many keys collide. The worst case is
    /// `n log n` in the number of entries, plus hashing the keys and comparing keys with equal
    /// hashes.
    pub fn from_hash_map<S: BuildHasher + Drop>(
        alloc: Global,
        map: HashMap<IString, IValue, S>,
    ) -> Result<IObject, ReserveError>
        ensures pairs { IfOk result (λ object. object.pairs ≡ map.entries) }
        ensures capacity { IfOk result (λ object. object.capacity ≡ hash_map_len map) }
        ensures too_large { (result ≡ Err ReserveError.TooLarge) ↔ (capacity_limit < hash_map_len map) }
        ensures none { hash_map_len map ≡ 0 → IsOk result }
    {
        IObject::from_distinct_pairs(alloc, map.len(), map)
    }

    /// Creates an object from the entries of a sorted map, in the order of their keys.
    ///
    /// See `from_hash_map` for allocations, errors and cost.
    pub fn from_btree_map(
        alloc: Global,
        map: BTreeMap<IString, IValue>,
    ) -> Result<IObject, ReserveError>
        ensures pairs { IfOk result (λ object. object.pairs ≡ map.entries) }
        ensures capacity { IfOk result (λ object. object.capacity ≡ btree_map_len map) }
        ensures too_large { (result ≡ Err ReserveError.TooLarge) ↔ (capacity_limit < btree_map_len map) }
        ensures none { btree_map_len map ≡ 0 → IsOk result }
    {
        IObject::from_distinct_pairs(alloc, map.len(), map)
    }

    /// Creates an object from the entries of an `IndexMap`, in insertion order.
    ///
    /// See `from_hash_map` for allocations, errors and cost.
    pub fn from_index_map<S: BuildHasher + Drop>(
        alloc: Global,
        map: IndexMap<IString, IValue, S>,
    ) -> Result<IObject, ReserveError>
        ensures pairs { IfOk result (λ object. object.pairs ≡ map.entries) }
        ensures capacity { IfOk result (λ object. object.capacity ≡ index_map_len map) }
        ensures too_large { (result ≡ Err ReserveError.TooLarge) ↔ (capacity_limit < index_map_len map) }
        ensures none { index_map_len map ≡ 0 → IsOk result }
    {
        IObject::from_distinct_pairs(alloc, map.len(), map)
    }

    /// Creates an object from an iterator that yields `count` entries with distinct keys.
    ///
    /// A list with capacity `count` is allocated first, so adding an entry to the list cannot fail.
    fn from_distinct_pairs<I: IntoIterator<Item = (IString, IValue)> + Drop>(
        alloc: Global,
        count: usize,
        pairs: I,
    ) -> Result<IObject, ReserveError>
        requires finite { IsFiniteIterable I.into_iter_gives I.IntoIter.can_next I.IntoIter.remaining pairs }
        requires gives { GivesDistinctPairs I.into_iter_gives I.IntoIter.next_gives pairs count }
        ensures pairs { IfOk result (λ object.
            GivesAll I.into_iter_gives I.IntoIter.next_gives pairs object.pairs) }
        ensures capacity { IfOk result (λ object. object.capacity ≡ count) }
        ensures too_large { (result ≡ Err ReserveError.TooLarge) ↔ (capacity_limit < count) }
        ensures none { count ≡ 0 → IsOk result }
    {
        if count > CAPACITY_LIMIT {
            return Err(ReserveError::TooLarge);
        }
        let mut list = Vec::with_capacity(alloc, count)?;
        for pair in pairs {
            list.push_reserved(pair);
        }
        IObject::from_pairs(alloc, list)
    }
}
