//! The table with the fixed hash.

use crate::hash::FixedHash;
use crate::table::Table;

/// A [`Table`] that hashes keys with [`FixedHash`]. Objects store their entries in it.
///
/// # Cost
///
/// A lookup costs the same as in every other [`Table`]. Keys that were chosen to have equal hashes
/// form one collision cluster, and a lookup of such a key scans all of the cluster.
pub type FixedTable<V> = Table<V, FixedHash>;
