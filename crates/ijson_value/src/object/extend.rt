//! Insertion of the entries of iterators, objects and lists.
ghost use Rattle.std.specs.Option.{option_or};
ghost use Rattle.std.specs.Prelude.{◌≡◌, ◌↔◌, ◌<◌, ◌≤◌, ℕ, List, [], MatchResult, IfErr, IfOk, IsOk, OnOk, Some};
ghost use Rattle.std.specs.Prelude.{length, slice_get, take};
ghost use Rattle.std.specs.Iterator.{IsFiniteIterable};
ghost use Rattle.ijson_table.specs.Growth.{capacity_limit};
ghost use Rattle.ijson_table.specs.Store.{Store, lookup, put, put_each};
ghost use Rattle.ijson_value.specs.FindsEntry.{FindsNoRoom};
ghost use Rattle.ijson_value.specs.Gives.{GivesAll, GivesList, GivesThen};
ghost use Rattle.ijson_value.specs.InsertsEach.{InsertsEach};
ghost use Rattle.ijson_value.specs.WellFormed.{WellFormed};

use super::map::{IObject, RefusedPair};
use crate::value::IValue;
use ijson_string::IString;
use ijson_table::ReserveError;
use std::alloc::Global;
use thiserror::Error;

/// The error of `try_from_pairs`: the given entries, and the reason why the object was not created.
#[derive(Debug, Drop, Error)]
#[error("the object was not created: {why}")]
pub struct RefusedPairs {
    /// The given entries, in order.
    pub pairs: Vec<(IString, IValue)>,
    /// The reason why the object was not created.
    pub why: ReserveError,
}

/// Returns the reason and drops the entries.
impl From<RefusedPairs> for ReserveError {
    ghost use Rattle.std.specs.Prelude.{◌≡◌};

    ghost from_gives = { λ refused why. why ≡ refused.why };

    fn from(refused: RefusedPairs) -> ReserveError {
        let why = refused.why;
        drop(refused);
        why
    }
}

impl IObject {
    /// Inserts the entries of an iterator, in order.
    ///
    /// The capacity grows as by `insert`; no capacity is reserved in advance. The iterator must be
    /// finite.
    ///
    /// # Errors
    ///
    /// Returns the first entry for which capacity cannot be reserved. The entries before it remain
    /// inserted, and the rest of the iterator is dropped.
    pub fn extend<I: IntoIterator<Item = (IString, IValue)>>(
        &mut self,
        pairs: I,
    ) -> Result<(), RefusedPair>
        requires { IsFiniteIterable I.into_iter_gives I.IntoIter.can_next I.IntoIter.remaining pairs }
        ensures added { (added : List (List ℕ × WellFormed))
            × InsertsEach self.old.pairs self.old.capacity added self.new.pairs self.new.capacity
            × MatchResult result
            (λ _. GivesAll I.into_iter_gives I.IntoIter.next_gives pairs added)
            (λ refused. GivesThen I.into_iter_gives I.IntoIter.next_gives pairs added
            (refused.key, refused.value) × FindsNoRoom self.new refused.key refused.why) }
        ensures list { (all : List (List ℕ × WellFormed))
            → GivesList I.into_iter_gives I.IntoIter.next_gives pairs all
            → OnOk result (self.new.pairs ≡ put_each self.old.pairs all) }
    {
        for (key, value) in pairs {
            match self.insert(key, value) {
                Ok(old) => drop(old),
                Err(refused) => return Err(refused),
            }
        }
        Ok(())
    }

    /// Inserts the entries of `other`, replacing the values of existing keys.
    ///
    /// An existing key keeps its index. Missing keys are appended in the order of `other`. Keys
    /// that `other` lacks are unchanged. The capacity grows as by `insert`.
    ///
    /// # Errors
    ///
    /// Returns the first entry for which capacity cannot be reserved. The entries before it remain
    /// inserted, and the entries after it are dropped.
    pub fn overlay(&mut self, other: IObject) -> Result<(), RefusedPair>
        ensures inserts { OnOk result
            (InsertsEach self.old.pairs self.old.capacity other.pairs self.new.pairs self.new.capacity) }
        ensures pairs { OnOk result (self.new.pairs ≡ put_each self.old.pairs other.pairs) }
        ensures each { OnOk result ((key : List ℕ)
            → lookup key self.new.pairs ≡ option_or (lookup key other.pairs) (lookup key self.old.pairs)) }
        ensures refused { IfErr result (λ refused. (n : ℕ)
            × (slice_get other.pairs n ≡ Some (refused.key, refused.value))
            × InsertsEach self.old.pairs self.old.capacity (take n other.pairs) self.new.pairs self.new.capacity
            × FindsNoRoom self.new refused.key refused.why) }
    {
        self.extend(other)
    }

    /// Creates an object by inserting the entries of an iterator, in order.
    ///
    /// The capacity grows as by `insert`. The iterator must be finite.
    ///
    /// # Errors
    ///
    /// Returns the first entry for which capacity cannot be reserved. The entries before it and the
    /// rest of the iterator are dropped.
    pub fn from_iter<I: IntoIterator<Item = (IString, IValue)>>(
        alloc: Global,
        pairs: I,
    ) -> Result<IObject, RefusedPair>
        requires { IsFiniteIterable I.into_iter_gives I.IntoIter.can_next I.IntoIter.remaining pairs }
        ensures { (added : List (List ℕ × WellFormed)) × MatchResult result
            (λ object. InsertsEach [] 0 added object.pairs object.capacity
            × GivesAll I.into_iter_gives I.IntoIter.next_gives pairs added)
            (λ refused. (made : Store WellFormed)
            × InsertsEach [] 0 added made.pairs made.capacity
            × GivesThen I.into_iter_gives I.IntoIter.next_gives pairs added
            (refused.key, refused.value) × FindsNoRoom made refused.key refused.why) }
    {
        let mut object = IObject::new(alloc);
        match object.extend(pairs) {
            Ok(()) => Ok(object),
            Err(refused) => Err(refused),
        }
    }

    /// Like `from_pairs`, but returns the entries if it fails.
    ///
    /// The capacity is allocated first, so the insertions cannot fail. The entries are moved to the
    /// object, and their list is freed.
    ///
    /// # Errors
    ///
    /// Returns all entries in their order, with `TooLarge` if there are more than `2 ^ 56`, or with
    /// `Memory` if an allocation fails.
    ///
    /// # Cost
    ///
    /// Each key is hashed once, and each entry is moved once. Takes linear time if few keys
    /// collide. If many keys collide, each key is compared with the colliding keys before it,
    /// whereas `from_pairs` sorts them. The list and the object are both allocated until the call
    /// returns.
    pub fn try_from_pairs(
        alloc: Global,
        pairs: Vec<(IString, IValue)>,
    ) -> Result<IObject, RefusedPairs>
        ensures pairs { IfOk result (λ object. object.pairs ≡ put_each [] pairs.items) }
        ensures capacity { IfOk result (λ object. object.capacity ≡ length pairs.items) }
        ensures refused { IfErr result (λ refused. refused.pairs.items ≡ pairs.items) }
        ensures too_large { IfErr result (λ refused.
            (refused.why ≡ ReserveError.TooLarge) ↔ (capacity_limit < length pairs.items)) }
        ensures limited { OnOk result (length pairs.items ≤ capacity_limit) }
        ensures none { length pairs.items ≡ 0 → IsOk result }
    {
        let mut object = match IObject::with_capacity(alloc, pairs.len()) {
            Ok(object) => object,
            Err(why) => return Err(RefusedPairs { pairs, why }),
        };
        for (key, value) in pairs {
            object.insert_within(key, value);
        }
        Ok(object)
    }

    /// Inserts an entry without allocating, and drops the old value of its key.
    ///
    /// There must be spare capacity.
    #[tactic(auto, using(ijson_table::proofs::pairs::PutEach::put_in_room))]
    fn insert_within(&mut self, key: IString, value: IValue)
        requires { length self.old.pairs < self.old.capacity }
        ensures pairs { self.new.pairs ≡ put self.old.pairs key value }
        ensures capacity { self.new.capacity ≡ self.old.capacity }
    {
        match self.insert(key, value) {
            Ok(old) => drop(old),
            Err(_) => unreachable!(),
        }
    }
}
