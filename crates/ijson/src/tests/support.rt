//! Functions that the tests of several modules share.

use std::alloc::{AllocError, Global};

/// Replaces the value in `place`, and drops the old value, whatever its type.
pub fn set<T: Drop>(place: &mut T, value: T) {
    *place = value;
}

/// Stores the value of `made` in `place`. Returns `false` if the allocation of the value failed.
pub fn is_set<T: Drop>(place: &mut T, made: Result<T, AllocError>) -> bool {
    match made {
        Ok(value) => {
            set(place, value);
            true
        }
        Err(AllocError) => false,
    }
}

/// Returns `integer` as a `T`, or `None` if it is missing or out of range.
pub fn in_type<T: TryFrom<i128>>(integer: Option<i128>) -> Option<T>
where
    T::Error: Drop,
{
    T::try_from(integer?).ok()
}

/// The size, in bytes, of the allocation at which `tests/alloc/refuse.c` starts a count.
const COUNT_BEGINS: usize = 1_234_567;

/// The size, in bytes, of the allocation that ends a count. Each expected allocation adds a byte.
const COUNT_ENDS: usize = 1_300_000;

/// Allocates and frees a block of `size` bytes.
fn mark(alloc: Global, size: usize) {
    match Vec::<u8>::with_capacity(alloc, size) {
        Ok(mark) => drop(mark),
        Err(AllocError) => {}
    }
}

/// Starts a count of allocations.
pub fn begin_count(alloc: Global) {
    mark(alloc, COUNT_BEGINS);
}

/// Ends the count of allocations, which `tests/alloc/modes` compares with `count`.
pub fn end_count(alloc: Global, count: u8) {
    mark(alloc, COUNT_ENDS + usize::from(count));
}
