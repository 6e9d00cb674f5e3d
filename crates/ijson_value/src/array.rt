//! Arrays of values.
ghost use Rattle.std.specs.Prelude.{◌≡◌, ◌==◌, [], ◌∷◌, ◌++◌, ◌+◌, ◌*◌, ◌^◌, ◌<◌, ◌≤◌, length, vec_capacity, OnOk, OnErr, IfOk};
ghost use Rattle.std.specs.Prelude.{IfErr, IsOk, IsTrue, ◌↔◌};
ghost use Rattle.ijson_value.specs.Same.{Same};
ghost use Rattle.ijson_value.specs.SameTest.{same};
ghost use Rattle.ijson_value.specs.Values.{array_tree, array_value};
ghost use Rattle.ijson_value.specs.laws.Equality.{partial_equivalence, equivalence};

mod edits;
mod extend;
mod index;
mod iter;

use crate::same::same_items;
use crate::value::IValue;
use ijson_table::ReserveError;
pub use iter::IntoIter;
use std::alloc::{AllocError, AllocFailed, Global};
use std::marker::Model;
use std::mem::size_of;
use thiserror::Error;

/// A growable array of values.
///
/// An array takes 16 bytes, including a pointer to its heap list, which exists after the first
/// allocation. The list takes a header and 24 bytes for each element of its capacity.
#[cycle(value)]
#[derive(Drop)]
pub struct IArray {
    list: Option<Box<Vec<IValue>>>,
    alloc: Global,
}

const _: () = prove!(size_of::<IArray>() == 16);

/// The minimum capacity that `reserve`, `push`, `insert` and `extend` allocate.
///
/// `with_capacity` allocates exactly the given capacity.
const LEAST_ROOM: usize = 4;

impl Model for IArray {
    ghost use Rattle.ijson_value.specs.Sequence.{Sequence};
    ghost use Rattle.ijson_value.specs.laws.SequenceCode.{sequence_code};
    ghost use Rattle.ijson_value.specs.private.Boxed.{list_items, list_capacity};
    ghost use Rattle.ijson_value.specs.Sizes.{array_size};

    ghost Value = { Sequence };

    ghost coded = { sequence_code };

    ghost view = { λ a. record { items = list_items a.list; capacity = list_capacity a.list } };

    ghost size = { array_size };

    ghost use Rattle.ijson_value.specs.laws.ArrayFalls.{array_falls};

    ghost size_decreases = { λ a h. array_falls a.list a.alloc };
}

/// An element that could not be added because an allocation failed.
///
/// After a failed `extend`, the array has the elements before the returned element. After any other
/// failed call, the array is unchanged.
#[derive(Debug, Drop, Error)]
#[error("no memory for the element")]
pub struct Refused(pub IValue);

/// Returns `Memory` and drops the element.
impl From<Refused> for ReserveError {
    ghost use Rattle.ijson_table.specs.declared.store.ReserveError.TheVariants.{Memory};

    ghost from_gives = { λ _ why. why ≡ Memory };

    fn from(refused: Refused) -> ReserveError {
        drop(refused);
        ReserveError::Memory
    }
}

impl IArray {
    /// Creates an empty array without allocating.
    pub fn new(alloc: Global) -> IArray
        ensures items { result.items ≡ [] }
        ensures capacity { result.capacity ≡ 0 }
    {
        IArray { list: None, alloc }
    }

    /// Creates an empty array with capacity for exactly `capacity` elements.
    ///
    /// A capacity of 0 does not allocate.
    ///
    /// # Errors
    ///
    /// Returns `AllocError` if the allocation fails.
    pub fn with_capacity(alloc: Global, capacity: usize) -> Result<IArray, AllocError>
        ensures items { IfOk result (λ array. array.items ≡ []) }
        ensures room { IfOk result (λ array. capacity ≤ array.capacity) }
        ensures exact { IfOk result (λ array. array.capacity ≡ capacity) }
        ensures none { capacity ≡ 0 → IsOk result }
    {
        IArray::of_list(alloc, Vec::with_capacity(alloc, capacity)?)
    }

    /// Creates an array from the elements of `list`, without copying them.
    ///
    /// Allocates only the header of the list, and nothing if the capacity of `list` is 0. If the
    /// allocation fails, the list is dropped.
    pub(crate) fn of_list(alloc: Global, list: Vec<IValue>) -> Result<IArray, AllocError>
        ensures items { IfOk result (λ array. array.items ≡ list.items) }
        ensures room { IfOk result (λ array. array.capacity ≡ vec_capacity list) }
        ensures none { vec_capacity list ≡ 0 → IsOk result }
    {
        if list.capacity() == 0 {
            return Ok(IArray::new(alloc));
        }
        Ok(IArray::from_vec(alloc, list)?)
    }

    /// Creates an array from the elements of `list`, without copying them.
    ///
    /// Allocates only the header of the list.
    ///
    /// # Errors
    ///
    /// Returns the list if the allocation fails.
    pub fn from_vec(alloc: Global, list: Vec<IValue>) -> Result<IArray, AllocFailed<Vec<IValue>>>
        ensures items { IfOk result (λ array. array.items ≡ list.items) }
        ensures room { IfOk result (λ array. array.capacity ≡ vec_capacity list) }
        ensures refused { IfErr result (λ refused. refused.value ≡ list) }
    {
        let list = Box::new(alloc, list)?;
        Ok(IArray {
            list: Some(list),
            alloc,
        })
    }

    /// Returns the number of elements.
    pub fn len(&self) -> usize
        ensures { result ≡ length self.now.items }
    {
        self.as_slice().len()
    }

    /// Returns `true` if the array has no elements.
    pub fn is_empty(&self) -> bool
        ensures { result ≡ (length self.now.items == 0) }
    {
        self.len() == 0
    }

    /// Returns the number of elements that the array can hold without reallocating.
    pub fn capacity(&self) -> usize
        ensures capacity { result ≡ self.now.capacity }
        ensures room { length self.now.items ≤ self.now.capacity }
    {
        match &self.list {
            None => 0,
            Some(list) => list.capacity(),
        }
    }

    /// Returns the elements as a slice.
    pub fn as_slice(&self) -> &[IValue]
        ensures { result.now ≡ self.now.items }
    {
        match &self.list {
            None => &[],
            Some(list) => list.as_slice(),
        }
    }

    /// Returns the allocator of the array.
    pub(crate) fn allocator(&self) -> Global {
        self.alloc
    }

    /// Appends an element.
    ///
    /// Allocates only if there is no spare capacity. The capacity then at least doubles, so a push
    /// takes amortized constant time.
    ///
    /// # Errors
    ///
    /// Returns the element if the allocation fails. The array and its capacity are unchanged.
    pub fn push(&mut self, item: IValue) -> Result<(), Refused>
        ensures ok { OnOk result (self.new.items ≡ self.old.items ++ item ∷ []) }
        ensures refused { IfErr result (λ refused.
            (refused.0 ≡ item) × (self.new.items ≡ self.old.items)) }
        ensures kept { OnErr result (self.new.capacity ≡ self.old.capacity) }
        ensures room { length self.old.items < self.old.capacity → IsOk result }
        ensures stays { length self.old.items < self.old.capacity
            → self.new.capacity ≡ self.old.capacity }
        ensures doubles { OnOk result (self.old.capacity ≤ length self.old.items
            → 2 * self.old.capacity ≤ self.new.capacity) }
        ensures capacity { self.old.capacity ≤ self.new.capacity }
        ensures within { OnOk result (length self.new.items < 2 ^ 64) }
    {
        if let Err(AllocError) = self.reserve(1) {
            return Err(Refused(item));
        }
        self.list.as_mut().unwrap().push_reserved(item);
        Ok(())
    }

    /// Reserves capacity for at least `additional` more elements.
    ///
    /// Allocates only if the spare capacity is too small. The capacity then at least doubles, and
    /// each element is moved at most once.
    ///
    /// # Errors
    ///
    /// Returns `AllocError` if the allocation fails or the capacity would overflow a `usize`. The
    /// array is unchanged.
    pub fn reserve(&mut self, additional: usize) -> Result<(), AllocError>
        ensures items { self.new.items ≡ self.old.items }
        ensures ok { OnOk result (length self.new.items + additional ≤ self.new.capacity) }
        ensures refused { OnErr result (self.new.capacity ≡ self.old.capacity) }
        ensures room { length self.old.items + additional ≤ self.old.capacity → IsOk result }
        ensures stays { length self.old.items + additional ≤ self.old.capacity
            → self.new.capacity ≡ self.old.capacity }
        ensures doubles { OnOk result (self.old.capacity < length self.old.items + additional
            → 2 * self.old.capacity ≤ self.new.capacity) }
        ensures capacity { self.old.capacity ≤ self.new.capacity }
    {
        if let Some(list) = &mut self.list {
            return grow(list, additional);
        }
        if additional == 0 {
            return Ok(());
        }
        let list = Vec::with_capacity(self.alloc, additional.max(LEAST_ROOM))?;
        self.list = Some(Box::new(self.alloc, list)?);
        Ok(())
    }

    /// Shrinks the capacity to the length.
    ///
    /// If there is spare capacity, requests memory for a list of exactly the length. Otherwise does
    /// not allocate.
    ///
    /// # Errors
    ///
    /// Returns `AllocError` if that request fails. The elements are unchanged, and the capacity
    /// does not increase.
    pub fn shrink_to_fit(&mut self) -> Result<(), AllocError>
        ensures items { self.new.items ≡ self.old.items }
        ensures ok { OnOk result (self.new.capacity ≡ length self.new.items) }
        ensures room { self.old.capacity ≡ length self.old.items → IsOk result }
        ensures capacity { self.new.capacity ≤ self.old.capacity }
    {
        let Some(list) = &mut self.list else {
            return Ok(());
        };
        list.shrink_to_fit();
        if list.len() < list.capacity() {
            return Err(AllocError);
        }
        Ok(())
    }
}

/// Reserves capacity for at least `additional` more elements in `list`.
///
/// If the spare capacity is too small, the capacity becomes the maximum of twice the old capacity,
/// the new length, and `LEAST_ROOM`. If one of these overflows a `usize`, returns `AllocError`,
/// because an allocation of that size cannot succeed. Twice the old capacity never overflows,
/// because an element takes 24 bytes, but no contract of `Vec` states this.
fn grow(list: &mut Vec<IValue>, additional: usize) -> Result<(), AllocError>
    ensures items { list.new.items ≡ list.old.items }
    ensures ok { OnOk result (length list.new.items + additional ≤ vec_capacity list.new) }
    ensures refused { OnErr result (vec_capacity list.new ≡ vec_capacity list.old) }
    ensures room { length list.old.items + additional ≤ vec_capacity list.old → IsOk result }
    ensures stays { length list.old.items + additional ≤ vec_capacity list.old
        → vec_capacity list.new ≡ vec_capacity list.old }
    ensures doubles { OnOk result (vec_capacity list.old < length list.old.items + additional
        → 2 * vec_capacity list.old ≤ vec_capacity list.new) }
{
    let len = list.len();
    if additional <= list.capacity() - len {
        return Ok(());
    }
    let Some(twice) = list.capacity().checked_mul(2) else {
        return Err(AllocError);
    };
    list.reserve_exact(additional.max(twice.max(LEAST_ROOM) - len))
}

/// Arrays are equal if they have the same length and equal elements at each index.
///
/// Does not allocate.
impl PartialEq for IArray {
    ghost eq = { λ a b. same (array_tree a.items) (array_tree b.items) };

    ghost laws = { partial_equivalence (λ a. array_value a.items) };

    #[tactic(auto, using(crate::specs::laws::Equality::is_same_array))]
    fn eq(&self, other: &IArray) -> bool
        ensures { IsTrue result ↔ Same (array_tree self.now.items) (array_tree other.now.items) }
    {
        same_items(self.as_slice(), other.as_slice())
    }
}

impl Eq for IArray {
    ghost laws = { equivalence (λ a. array_value a.items) };
}
