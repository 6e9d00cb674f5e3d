//! `IObject`: creation, capacity and insertion.
ghost use Rattle.std.specs.Prelude.{◌≡◌, ◌==◌, ◌<◌, ◌≤◌, [], length, Err, OnOk, IfOk, IsOk, IsTrue, ◌↔◌, MatchResult};
ghost use Rattle.ijson_table.specs.Growth.{Grow, Shrink, capacity_limit};
ghost use Rattle.ijson_table.specs.Store.{put, put_each};
ghost use Rattle.ijson_table.specs.Inserts.{Inserts};
ghost use Rattle.ijson_value.specs.Same.{Same};
ghost use Rattle.ijson_value.specs.SameTest.{same};
ghost use Rattle.ijson_value.specs.Values.{object_tree, object_value};
ghost use Rattle.ijson_value.specs.laws.Equality.{partial_equivalence, equivalence};

use crate::same::same_pairs;
use crate::value::IValue;
use ijson_string::IString;
use ijson_table::{FixedTable, PairStore, ReserveError};
use std::alloc::Global;
use std::marker::Model;
use std::mem::{self, size_of};

/// A hash map from strings to values that keeps its entries in order.
///
/// JSON calls an entry a member. Objects are equal if they have equal entries, in any order. The
/// hash function is fixed, so keys chosen to have equal hashes are searched sequentially.
///
/// # Memory
///
/// An object takes 16 bytes, including a pointer to its table, which exists after the first
/// allocation. The table takes 40 bytes for each entry of its capacity. For each entry, the slots
/// of the hash index take nothing more up to a capacity of 8, at most 4 bytes up to a capacity of
/// 127, and at most 20 bytes above.
#[cycle(value)]
#[derive(Drop)]
pub struct IObject {
    pub(super) table: Option<Box<FixedTable<IValue>>>,
    pub(super) alloc: Global,
}

const _: () = prove!(size_of::<IObject>() == 16);

impl Model for IObject {
    ghost use Rattle.ijson_table.specs.Store.{Store};
    ghost use Rattle.ijson_table.specs.laws.Store.{store_code};
    ghost use Rattle.ijson_value.specs.WellFormed.{WellFormed};
    ghost use Rattle.ijson_value.specs.laws.WellFormedCode.{well_formed_code};
    ghost use Rattle.ijson_value.specs.private.Boxed.{table_store};
    ghost use Rattle.ijson_value.specs.Sizes.{object_size};

    ghost Value = { Store WellFormed };

    ghost coded = { store_code well_formed_code };

    ghost view = { λ o. table_store o.table };

    ghost size = { object_size };

    ghost use Rattle.ijson_value.specs.laws.ObjectFalls.{object_falls};

    ghost size_decreases = { λ o h. object_falls o.table o.alloc };
}

/// The entry that could not be inserted, and the reason why capacity could not be reserved.
///
/// After a failed `extend` or `overlay`, the object has the entries before the returned entry.
/// After any other failed call, the object is unchanged.
pub type RefusedPair = ijson_table::RefusedPair<IValue>;

impl IObject {
    /// Creates an empty object with capacity 0, without allocating.
    pub fn new(alloc: Global) -> IObject
        ensures pairs { result.pairs ≡ [] }
        ensures capacity { result.capacity ≡ 0 }
    {
        IObject { table: None, alloc }
    }

    /// Creates an empty object with capacity for exactly `capacity` entries.
    ///
    /// A capacity of 0 does not allocate.
    ///
    /// # Errors
    ///
    /// Returns `TooLarge` if `capacity` exceeds `2 ^ 56`, and `Memory` if an allocation fails.
    pub fn with_capacity(alloc: Global, capacity: usize) -> Result<IObject, ReserveError>
        ensures pairs { IfOk result (λ object. object.pairs ≡ []) }
        ensures capacity { IfOk result (λ object. object.capacity ≡ capacity) }
        ensures too_large { (result ≡ Err ReserveError.TooLarge) ↔ (capacity_limit < capacity) }
        ensures none { capacity ≡ 0 → IsOk result }
    {
        if capacity == 0 {
            return Ok(IObject::new(alloc));
        }
        let table = FixedTable::with_capacity(alloc, capacity)?;
        IObject::of_table(alloc, table)
    }

    /// Creates an object from `pairs`, as if they were inserted in order.
    ///
    /// A duplicate key keeps its first index and its last value. The object reuses the memory of
    /// the list and frees its spare capacity. The capacity of the object is `pairs.len()`,
    /// including duplicates. An empty list does not allocate; any other list allocates the table.
    ///
    /// ```
    /// let object = IObject::from_pairs(alloc, pairs)?; // a: 1, b: 2, a: 3 gives a: 3, b: 2
    /// ```
    ///
    /// # Errors
    ///
    /// Returns `TooLarge` if there are more than `2 ^ 56` entries, and `Memory` if an allocation
    /// fails. The entries are dropped; `try_from_pairs` returns them.
    ///
    /// # Cost
    ///
    /// If few keys collide, takes linear time and hashes each key once, except that the first
    /// duplicate is hashed twice. Entries before the first duplicate are not moved. Later entries
    /// move down within the list.
    ///
    /// If many keys collide, hashes each key up to three times, and allocates and sorts 16 bytes
    /// for each entry. The worst case is `n log n` in the number of entries, plus hashing the keys
    /// and comparing keys with equal hashes.
    pub fn from_pairs(alloc: Global, pairs: Vec<(IString, IValue)>) -> Result<IObject, ReserveError>
        ensures pairs { IfOk result (λ object. object.pairs ≡ put_each [] pairs.items) }
        ensures capacity { IfOk result (λ object. object.capacity ≡ length pairs.items) }
        ensures too_large { (result ≡ Err ReserveError.TooLarge) ↔ (capacity_limit < length pairs.items) }
        ensures none { length pairs.items ≡ 0 → IsOk result }
    {
        if pairs.is_empty() {
            return Ok(IObject::new(alloc));
        }
        let table = FixedTable::from_pairs(alloc, pairs)?;
        IObject::of_table(alloc, table)
    }

    /// Creates an object from `table`, which is moved to the heap.
    fn of_table(alloc: Global, table: FixedTable<IValue>) -> Result<IObject, ReserveError>
        ensures { MatchResult result
            (λ object. (object.pairs ≡ table.store.pairs) × (object.capacity ≡ table.store.capacity))
            (λ why. why ≡ ReserveError.Memory) }
    {
        match Box::new(alloc, table) {
            Ok(table) => Ok(IObject {
                table: Some(table),
                alloc,
            }),
            Err(refused) => {
                drop(refused);
                Err(ReserveError::Memory)
            }
        }
    }

    /// Returns the number of entries.
    pub fn len(&self) -> usize
        ensures { result ≡ length self.now.pairs }
    {
        self.as_slice().len()
    }

    /// Returns `true` if the object has no entries.
    pub fn is_empty(&self) -> bool
        ensures { result ≡ (length self.now.pairs == 0) }
    {
        self.len() == 0
    }

    /// Returns the number of entries that the object can hold without reallocating.
    ///
    /// The capacity is at most `2 ^ 56`.
    pub fn capacity(&self) -> usize
        ensures capacity { result ≡ self.now.capacity }
        ensures room { length self.now.pairs ≤ self.now.capacity }
        ensures limited { self.now.capacity ≤ capacity_limit }
    {
        match &self.table {
            None => 0,
            Some(table) => table.capacity(),
        }
    }

    /// Reserves capacity for at least `additional` more entries.
    ///
    /// If the spare capacity is too small, the capacity becomes the maximum of twice the old
    /// capacity, the length plus `additional`, and 4. Repeated insertions give capacities of 4, 8,
    /// 16 and so on. Each entry is moved at most once. Each key is hashed once, or twice if many
    /// keys collide.
    ///
    /// # Errors
    ///
    /// Returns `TooLarge` if the capacity would exceed `2 ^ 56`, and `Memory` if an allocation
    /// fails. The object is unchanged.
    pub fn reserve(&mut self, additional: usize) -> Result<(), ReserveError>
        ensures growth { Grow (length self.old.pairs) self.old.capacity additional result
            self.new.capacity }
        ensures pairs { self.new.pairs ≡ self.old.pairs }
    {
        if let Some(table) = &mut self.table {
            return table.reserve(additional);
        }
        if additional == 0 {
            return Ok(());
        }
        let mut table = FixedTable::new(self.alloc);
        if let Err(error) = table.reserve(additional) {
            drop(table);
            return Err(error);
        }
        drop(mem::replace(self, IObject::of_table(self.alloc, table)?));
        Ok(())
    }

    /// Shrinks the capacity to the length.
    ///
    /// Does not allocate if there is no spare capacity or the object is empty. Each entry is moved
    /// at most once.
    ///
    /// # Errors
    ///
    /// Returns `Memory` if the allocation fails. The object is unchanged.
    pub fn shrink_to_fit(&mut self) -> Result<(), ReserveError>
        ensures capacity { Shrink (length self.old.pairs) self.old.capacity result self.new.capacity }
        ensures pairs { self.new.pairs ≡ self.old.pairs }
    {
        match &mut self.table {
            None => Ok(()),
            Some(table) => table.shrink_to_fit(),
        }
    }

    /// Drops all entries and keeps the capacity.
    ///
    /// Takes time linear in the capacity.
    pub fn clear(&mut self)
        ensures pairs { self.new.pairs ≡ [] }
        ensures capacity { self.new.capacity ≡ self.old.capacity }
    {
        if let Some(table) = &mut self.table {
            table.clear();
        }
    }

    /// Inserts an entry and returns the old value of its key, if any.
    ///
    /// An existing key keeps its index, and nothing is allocated. A missing key is appended, after
    /// reserving capacity if needed.
    ///
    /// ```
    /// let old = object.insert(key, IValue::from(1u64))?; // `None` if the key is new
    /// ```
    ///
    /// # Errors
    ///
    /// Returns the entry if capacity cannot be reserved. The object is unchanged.
    ///
    /// # Cost
    ///
    /// Hashes the key once. Takes amortized constant time, plus the time of the lookup.
    #[tactic(auto, using(crate::proofs::pairs::Inserted::put_where_ok))]
    pub fn insert(&mut self, key: IString, value: IValue) -> Result<Option<IValue>, RefusedPair>
        ensures inserts { Inserts self.old.pairs self.old.capacity key value result self.new.pairs
            self.new.capacity }
        ensures pairs { OnOk result (self.new.pairs ≡ put self.old.pairs key value) }
    {
        if self.table.is_none() {
            match Box::new(self.alloc, FixedTable::new(self.alloc)) {
                Ok(table) => self.table = Some(table),
                Err(refused) => {
                    drop(refused);
                    let why = ReserveError::Memory;
                    return Err(RefusedPair { key, value, why });
                }
            }
        }
        self.table.as_mut().unwrap().insert(key, value)
    }

    /// Returns the entries as a slice.
    pub(crate) fn as_slice(&self) -> &[(IString, IValue)]
        ensures { result.now ≡ self.now.pairs }
    {
        match &self.table {
            None => &[],
            Some(table) => table.as_slice(),
        }
    }
}

/// Objects are equal if they have the same length and each key has equal values in both objects.
///
/// Does not allocate.
impl PartialEq for IObject {
    ghost eq = { λ a b. same (object_tree a.pairs) (object_tree b.pairs) };

    ghost laws = { partial_equivalence object_value };

    #[tactic(auto, using(crate::specs::laws::Equality::is_same_object))]
    fn eq(&self, other: &IObject) -> bool
        ensures { IsTrue result ↔ Same (object_tree self.now.pairs) (object_tree other.now.pairs) }
    {
        same_pairs(self, other)
    }
}

impl Eq for IObject {
    ghost laws = { equivalence object_value };
}
