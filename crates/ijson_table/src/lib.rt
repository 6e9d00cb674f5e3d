//! Stores of entries with distinct keys, in insertion order.
#![tactic(auto)]

mod commands;
mod fixed;
mod growth;
mod hash;
mod index;
mod linear;
mod slot;
mod sorting;
mod store;
mod table;
mod vec;

pub use commands::{Command, Reply, run};
pub use fixed::FixedTable;
pub use growth::CAPACITY_LIMIT;
pub use hash::{FixedHash, KeyHash};
pub use index::places::{Places, locate};
pub use linear::LinearPairs;
pub use slot::Seen;
pub use store::{PairStore, RefusedPair, ReserveError};
pub use table::Table;
