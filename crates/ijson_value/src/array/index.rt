//! Access to the elements of an array by index, and as a mutable slice.
ghost use Rattle.std.specs.Prelude.{◌≡◌, ◌<◌, [], length, Some, slice_get, option_map};
ghost use Rattle.std.specs.Borrow.{sem};
ghost use Rattle.ijson_value.specs.LendsItem.{LendsItem, LendsItemIf};
ghost use Rattle.ijson_value.specs.LendsItems.{LendsItems};
ghost use Rattle.ijson_value.specs.private.Boxed.{list_items};
ghost use Rattle.ijson_value.specs.private.LendsList.{LendsListItems, LendsNoItems};

use super::IArray;
use crate::value::IValue;
use std::ops::{Index, IndexMut};

/// Supports `array[0]`. The index must be less than the length.
impl Index<usize> for IArray {
    type Output = IValue;

    ghost can_index = { λ array index. index < length array.items };

    ghost index_gives = { λ array index item. slice_get array.items index ≡ Some item };

    fn index(&self, index: usize) -> &IValue {
        &self.as_slice()[index]
    }
}

/// Supports `array[0] = element`. The index must be less than the length.
impl IndexMut<usize> for IArray {
    fn index_mut(&mut self, index: usize) -> &mut IValue
        requires { index < length self.old.items }
        ensures* writes_back { sem 𝓛 (LendsItem self.entry index result) }
        ensures item { slice_get self.old.items index ≡ Some result.now }
    {
        &mut self.list.as_mut().unwrap()[index]
    }
}

impl IArray {
    /// Returns a mutable reference to the element at `index`, or `None` if `index` is out of
    /// bounds.
    pub(crate) fn get_mut(&mut self, index: usize) -> Option<&mut IValue>
        ensures* writes_back { sem 𝓛 (LendsItemIf self.entry index result) }
        ensures item { option_map (λ item. item.now) result ≡ slice_get self.old.items index }
    {
        match &mut self.list {
            None => None,
            Some(list) => list.get_mut(index),
        }
    }

    /// Returns the elements as a mutable slice.
    pub fn as_mut_slice(&mut self) -> &mut [IValue]
        ensures* writes_back { sem 𝓛 (LendsItems self.entry result) }
        ensures items { result.now ≡ self.old.items }
    {
        items_mut(&mut self.list)
    }
}

/// Returns the elements of the list as a mutable slice, which is empty if `place` is `None`.
fn items_mut(place: &mut Option<Box<Vec<IValue>>>) -> &mut [IValue]
    ensures* writes_back { sem 𝓛 (LendsListItems place.entry result) }
    ensures items { result.now ≡ list_items place.old }
{
    match place {
        Some(list) => list.as_mut_slice(),
        None => no_items(place),
    }
}

/// Returns an empty mutable slice, without changing `place`.
fn no_items(place: &mut Option<Box<Vec<IValue>>>) -> &mut [IValue]
    ensures* writes_back { sem 𝓛 (LendsNoItems place.entry result) }
    ensures items { result.now ≡ [] }
{
    &mut []
}
