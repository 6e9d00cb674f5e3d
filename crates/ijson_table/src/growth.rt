//! Growth and shrinking of a store.

ghost use Rattle.std.specs.Prelude.{◌≡◌, ◌<◌, ◌≤◌, ◌^◌, MatchResult};
ghost use Rattle.ijson_table.specs.Crowd.{slot_count};
ghost use Rattle.ijson_table.specs.Growth.{capacity_limit};
ghost use Rattle.ijson_table.specs.private.Room.{AsksFor};

use crate::store::ReserveError;

/// The maximum capacity of a store.
pub const CAPACITY_LIMIT: usize = 1 << 56;

/// Returns the capacity that `additional` more entries require, or `None` if they fit.
///
/// # Errors
///
/// `TooLarge` if that capacity exceeds the limit.
pub fn grown_capacity(
    len: usize,
    capacity: usize,
    additional: usize,
) -> Result<Option<usize>, ReserveError>
    requires length { len ≤ capacity }
    requires limited { capacity ≤ capacity_limit }
    ensures { AsksFor len capacity additional result }
{
    if additional <= capacity - len {
        return Ok(None);
    }
    if additional > CAPACITY_LIMIT
        || len + additional > CAPACITY_LIMIT
        || 2 * capacity > CAPACITY_LIMIT
    {
        return Err(ReserveError::TooLarge);
    }
    Ok(Some((2 * capacity).max(len + additional).max(4)))
}

/// Returns `capacity`, or the error `TooLarge` if `capacity` exceeds the limit.
pub fn check_capacity(capacity: usize) -> Result<usize, ReserveError>
    ensures { MatchResult result
        (λ n. (n ≡ capacity) × (capacity ≤ capacity_limit))
        (λ why. (why ≡ ReserveError.TooLarge) × (capacity_limit < capacity)) }
{
    if capacity > CAPACITY_LIMIT {
        return Err(ReserveError::TooLarge);
    }
    Ok(capacity)
}

/// Returns the number of slots of a table with this capacity: five for every four entries.
#[inline(always)]
pub fn slots_for(capacity: usize) -> usize
    requires { capacity < 2 ^ 63 }
    ensures { result ≡ slot_count capacity }
{
    capacity + capacity / 4
}
