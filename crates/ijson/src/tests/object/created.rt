//! Tests of objects that are created from lists, iterators and maps.

use super::{Pair, holds, is_back, is_pair, pair_at, pair_of, spelled};
use crate::object::{IObject, RefusedPairs};
use crate::string::IString;
use crate::table::ReserveError;
use crate::tests::hashes::are_same;
use crate::value::IValue;
use Way::*;
use indexmap::IndexMap;
use std::alloc::{AllocError, Global};
use std::collections::{BTreeMap, HashMap};
use std::process::Abort;

/// The source from which an object is created.
#[derive(Clone, Copy)]
pub enum Way {
    Pairs,
    PairsOrBack,
    Iterator,
    /// A `HashMap`.
    Hashes,
    /// A `BTreeMap`.
    Sorts,
    /// An `IndexMap`.
    Keeps,
}

/// Sources and their entries, with the entries and the capacity of the created object. A `HashMap`
/// does not specify an order.
#[rattlefmt::skip]
static CREATED: [(Way, &str, &str, usize); 12] = [
    (Pairs, "a1b2a3", "a3b2", 3), (Pairs, "", "", 0), (Pairs, "a1b2c3d4e5a1", "a1b2c3d4e5", 6),
    (PairsOrBack, "a1b2a3", "a3b2", 3), (PairsOrBack, "", "", 0), (PairsOrBack, "a1b2c3d4e5a1", "a1b2c3d4e5", 6),
    (Iterator, "J1F2K3", "J1F2K3", 4), (Iterator, "001122", "001122", 4), (Iterator, "a1b2c3d4e5", "a1b2c3d4e5", 8),
    (Hashes, "b1a2E3", "a2b1E3", 3), (Sorts, "b1a2E3", "a2b1E3", 3), (Keeps, "b1a2E3", "b1a2E3", 3),
];

/// Returns a list of the entries that `letters` denote.
pub fn listed(rt: &impl Abort, alloc: Global, letters: &str) -> Vec<Pair> {
    let mut pairs = granted!(rt; Vec::with_capacity(alloc, letters.len() / 2));
    for index in 0..letters.len() / 2 {
        pairs
            .push(pair_of(rt, alloc, letters, index))
            .expect(rt, "room");
    }
    pairs
}

/// Returns the object that `try_from_pairs` creates. A failed call must return the list.
fn of_list(rt: &impl Abort, alloc: Global, letters: &str) -> IObject {
    match IObject::try_from_pairs(alloc, listed(rt, alloc, letters)) {
        Ok(object) => object,
        Err(RefusedPairs { pairs, why }) => {
            assert!(*rt; why == ReserveError::Memory && pairs.len() == letters.len() / 2);
            for (index, pair) in pairs.iter().enumerate() {
                let (name, letter) = pair_at(letters, index);
                assert!(*rt; is_pair(Some((&pair.0, &pair.1)), name, letter));
            }
            IObject::try_from_pairs(alloc, pairs).expect(rt, "an object")
        }
    }
}

/// Returns the object that `from_iter` creates. A failed call must return the first or fifth entry.
fn of_iterator(rt: &impl Abort, alloc: Global, letters: &str) -> IObject {
    let pairs = spelled(rt, alloc, (letters, letters.len() / 2));
    match IObject::from_iter(alloc, pairs) {
        Ok(object) => object,
        Err(refused) => {
            let is_first = refused.key.eq_str(pair_at(letters, 0).0);
            is_back(rt, &refused, letters, if is_first { 0 } else { 4 });
            drop(refused);
            let pairs = spelled(rt, alloc, (letters, letters.len() / 2));
            IObject::from_iter(alloc, pairs).expect(rt, "an object")
        }
    }
}

/// Returns the object created from a map of the type `way` with the entries of `object`.
pub fn through_map(alloc: Global, object: IObject, way: Way) -> Result<IObject, ReserveError> {
    let pairs = object.into_iter();
    match way {
        Hashes => {
            let map: HashMap<IString, IValue> = pairs.collect(alloc)?;
            IObject::from_hash_map(alloc, map)
        }
        Sorts => {
            let map: BTreeMap<IString, IValue> = pairs.collect(alloc)?;
            IObject::from_btree_map(alloc, map)
        }
        _ => {
            let map: IndexMap<IString, IValue> = pairs.collect(alloc)?;
            IObject::from_index_map(alloc, map)
        }
    }
}

fn created(rt: &impl Abort, alloc: Global, way: Way, letters: &str) -> IObject {
    match way {
        Pairs => {
            granted!(rt; ReserveError::Memory; IObject::from_pairs(alloc, listed(rt, alloc, letters)))
        }
        PairsOrBack => of_list(rt, alloc, letters),
        Iterator => of_iterator(rt, alloc, letters),
        map => {
            granted!(rt; ReserveError::Memory; through_map(alloc, spelled(rt, alloc, (letters, letters.len() / 2)), map))
        }
    }
}

#[test]
fn creations(rt: HostRuntime) {
    let alloc = rt.alloc();
    for &(way, given, letters, capacity) in &CREATED {
        let object = created(&rt, alloc, way, given);
        let same = spelled(&rt, alloc, (letters, capacity));
        are_same(&rt, alloc, &object, &same);
        drop(same);
        if let Hashes = way {
            assert!(rt; object.capacity() == capacity);
        } else {
            holds(&rt, &object, (letters, capacity));
        }
        drop(object);
    }
}

#[test]
fn the_limit(rt: HostRuntime) {
    let past = 72_057_594_037_927_937;
    let refused = Some(ReserveError::TooLarge);
    assert!(rt; IObject::with_capacity(rt.alloc(), past).err() == refused);
    let mut object = spelled(&rt, rt.alloc(), ("a0", 4));
    assert!(rt; object.reserve(past - 1).err() == refused);
    holds(&rt, &object, ("a0", 4));
    drop(object);
}
