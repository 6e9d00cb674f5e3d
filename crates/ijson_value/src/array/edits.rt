//! Insertion and removal of elements by index.
ghost use Rattle.std.specs.Prelude.{◌≡◌, ◌-◌, ◌*◌, ◌<◌, ◌≤◌, [], length, take, slice_get, OnOk, OnErr, IfErr, IsOk, MatchOption};
ghost use Rattle.std.specs.List.{insert, remove, swap_remove};

use super::{IArray, Refused};
use crate::value::IValue;
use std::alloc::AllocError;

impl IArray {
    /// Inserts an element at `index`, shifting all elements after it to the right.
    ///
    /// `index` must be at most `len`. At `len`, the element is appended. Allocates only if there is
    /// no spare capacity.
    ///
    /// # Errors
    ///
    /// Returns the element if the allocation fails. The array and its capacity are unchanged.
    ///
    /// # Cost
    ///
    /// Linear in the number of elements from `index` on.
    pub fn insert(&mut self, index: usize, item: IValue) -> Result<(), Refused>
        requires { index ≤ length self.old.items }
        ensures ok { OnOk result (self.new.items ≡ insert self.old.items index item) }
        ensures refused { IfErr result (λ refused.
            (refused.0 ≡ item) × (self.new.items ≡ self.old.items)) }
        ensures kept { OnErr result (self.new.capacity ≡ self.old.capacity) }
        ensures room { length self.old.items < self.old.capacity → IsOk result }
        ensures stays { length self.old.items < self.old.capacity
            → self.new.capacity ≡ self.old.capacity }
        ensures doubles { OnOk result (self.old.capacity ≤ length self.old.items
            → 2 * self.old.capacity ≤ self.new.capacity) }
        ensures capacity { self.old.capacity ≤ self.new.capacity }
    {
        if let Err(AllocError) = self.reserve(1) {
            return Err(Refused(item));
        }
        match self.list.as_mut().unwrap().insert(index, item) {
            Ok(()) => Ok(()),
            Err(refused) => Err(Refused(refused.value)),
        }
    }

    /// Removes and returns the element at `index`, or `None` if `index` is out of bounds.
    ///
    /// All elements after it shift to the left. The capacity is unchanged.
    ///
    /// # Cost
    ///
    /// Linear in the number of elements after `index`.
    pub fn remove(&mut self, index: usize) -> Option<IValue>
        ensures item { result ≡ slice_get self.old.items index }
        ensures items { self.new.items ≡ remove self.old.items index }
        ensures capacity { self.new.capacity ≡ self.old.capacity }
    {
        match &mut self.list {
            Some(list) if index < list.len() => Some(list.remove(index)),
            _ => None,
        }
    }

    /// Removes and returns the element at `index`, or `None` if `index` is out of bounds.
    ///
    /// The last element replaces the removed element: removing the first element of `[1,2,3]`
    /// leaves `[3,2]`. Takes constant time. The capacity is unchanged.
    pub fn swap_remove(&mut self, index: usize) -> Option<IValue>
        ensures item { result ≡ slice_get self.old.items index }
        ensures items { MatchOption result (self.new.items ≡ self.old.items)
            (λ item. self.new.items ≡ swap_remove self.old.items index item) }
        ensures capacity { self.new.capacity ≡ self.old.capacity }
    {
        match &mut self.list {
            Some(list) if index < list.len() => Some(list.swap_remove(index)),
            _ => None,
        }
    }

    /// Removes and returns the last element, or `None` if the array is empty.
    ///
    /// The capacity is unchanged.
    pub fn pop(&mut self) -> Option<IValue>
        ensures item { result ≡ slice_get self.old.items (length self.old.items - 1) }
        ensures items { self.new.items ≡ take (length self.old.items - 1) self.old.items }
        ensures capacity { self.new.capacity ≡ self.old.capacity }
    {
        self.list.as_mut()?.pop()
    }

    /// Keeps the first `len` elements and drops the rest.
    ///
    /// If the length is at most `len`, the array is unchanged. The capacity is always unchanged.
    pub fn truncate(&mut self, len: usize)
        ensures items { self.new.items ≡ take len self.old.items }
        ensures capacity { self.new.capacity ≡ self.old.capacity }
    {
        if let Some(list) = &mut self.list {
            list.truncate(len);
        }
    }

    /// Drops all elements and keeps the capacity.
    pub fn clear(&mut self)
        ensures items { self.new.items ≡ [] }
        ensures capacity { self.new.capacity ≡ self.old.capacity }
    {
        self.truncate(0);
    }
}
