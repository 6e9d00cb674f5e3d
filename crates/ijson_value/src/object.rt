//! JSON objects, whose entries have distinct keys and are in order.

mod access;
mod copy;
mod edits;
mod entry;
mod extend;
mod from_map;
mod index;
mod iter;
mod map;
mod retain;

pub use edits::RefusedReplacement;
pub use entry::{Entry, OccupiedEntry, RefusedKey, VacantEntry};
pub use extend::RefusedPairs;
pub use index::ObjectIndex;
pub use iter::{IntoIter, Iter, Keys, Values};
pub use map::{IObject, RefusedPair};
