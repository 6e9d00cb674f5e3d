//! The hash index of a table: slots with the indices of its entries, as in Robin Hood hashing.
//!
//! Residents are ordered by probe distance. A slot stores the kept part of the hash of a key, not
//! the key.
//!
//! - `slots`: the slots, in a representation that depends on their number.
//! - `places`: the trait of a table whose slots can be inspected, and `locate`, the lookup that
//!   counts inspections.
//! - `probe`: the walk over the slots with which each lookup and each shift begins.
//! - `forward`: the forward shift and the renumbering of residents, for each representation.
//! - `shift`: removal with backward shift, and the move of an index to a new hash.
//! - `add`: insertion of the keys of a list, in order.
//! - `fill`: filling of slots from hashed indices sorted by home slot.

pub mod add;
pub mod fill;
mod forward;
pub mod places;
pub mod probe;
mod shift;
pub mod slots;
