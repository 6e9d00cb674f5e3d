//! Lists with an exact capacity.

ghost use Rattle.std.specs.Prelude.{◌≡◌, ◌<◌, ◌≤◌, ◌++◌, length, take, drop, vec_capacity, OnOk, OnErr};
ghost use Rattle.ijson_table.specs.private.Room.{IsResized};

use std::alloc::{AllocError, Global};
use std::mem;

/// Moves the items to a new list without spare capacity.
///
/// If the allocation fails, `list` is unchanged.
pub fn reallocate_exact<T: Drop>(alloc: Global, list: &mut Vec<T>) -> Result<(), AllocError>
    ensures items { list.new.items ≡ list.old.items }
    ensures room { OnOk result (vec_capacity list.new ≡ length list.old.items) }
    ensures refused { OnErr result
        ((0 < length list.old.items) × (vec_capacity list.new ≡ vec_capacity list.old)) }
{
    let fitted = Vec::with_capacity(alloc, list.len())?;
    for item in mem::replace(list, fitted) {
        list.push_reserved(item);
    }
    Ok(())
}

/// Sets the capacity to `room`, which must be the length or at least the old capacity.
///
/// The list grows in place if the allocator can. If an allocation fails, `list` is unchanged.
pub fn set_capacity<T: Drop>(
    alloc: Global,
    list: &mut Vec<T>,
    room: usize,
) -> Result<(), AllocError>
    requires within { length list.old.items ≤ room }
    requires grows { length list.old.items < room → vec_capacity list.old ≤ room }
    ensures { IsResized list.old.items (vec_capacity list.old) room result list.new.items (vec_capacity list.new) }
{
    let len = list.len();
    if len < room {
        return list.reserve_exact(room - len);
    }
    reallocate_exact(alloc, list)
}

/// Frees the spare capacity.
///
/// The list shrinks in place if the allocator can. Otherwise, the items are moved to a new list,
/// which may fail.
pub fn shrink_to_len<T: Drop>(alloc: Global, list: &mut Vec<T>) -> Result<(), AllocError>
    ensures items { list.new.items ≡ list.old.items }
    ensures room { OnOk result (vec_capacity list.new ≡ length list.old.items) }
    ensures refused { OnErr result (0 < length list.old.items) }
{
    list.shrink_to_fit();
    if list.capacity() == list.len() {
        return Ok(());
    }
    reallocate_exact(alloc, list)
}

/// Removes the items at the indices `start..end`.
#[inline(always)]
pub fn remove_range<T: Drop>(list: &mut Vec<T>, start: usize, end: usize)
    requires start { start ≤ end }
    requires end { end ≤ length list.old.items }
    ensures items { list.new.items ≡ take start list.old.items ++ drop end list.old.items }
    ensures room { vec_capacity list.new ≡ vec_capacity list.old }
{
    // Most ranges are empty, and draining an empty range costs as much as inserting a pair.
    if start == end {
        return;
    }
    drop(list.drain(start..end));
}
