//! Finds the previous index with the same key for each pair, in one pass over sorted hashed
//! indices.

ghost use Rattle.std.specs.Prelude.{◌≡◌, ℕ, List, ◌+◌, ◌<◌, ◌≤◌, ◌^◌, length, IfOk, OnErr, IsTrue, ◌↔◌};
ghost use Rattle.ijson_table.specs.Store.{keys_of};
ghost use Rattle.ijson_table.specs.private.EntryOrder.{entry_key, AreEarlier, AreInOrder};

use crate::sorting::order::{HashedIndex, key_of};
use ijson_number::Looks;
use ijson_string::IString;
use std::alloc::{AllocError, Global};

/// Returns, for each pair, the previous index with the same key, or its own index if its key is
/// new.
///
/// `sorted` must have the hashed indices of all pairs in the order of `EntryOrder`: indices with
/// equal keys are adjacent, in ascending order. Each pair counts as one inspection, which compares
/// two keys only if their hashes are equal. An empty list does not allocate.
pub fn earlier_positions<V>(
    alloc: Global,
    sorted: &[HashedIndex],
    pairs: &[(IString, V)],
    looks: &mut Looks,
) -> Result<Vec<usize>, AllocError>
    requires entries { (n : ℕ) × (hash : List ℕ → ℕ) × AreInOrder n hash (keys_of pairs.now) sorted.now }
    requires fits { looks.old + length pairs.now < 2 ^ 128 }
    ensures earlier { IfOk result (λ earlier. AreEarlier (keys_of pairs.now) earlier.items) }
    ensures grows { looks.old ≤ looks.new }
    ensures bounded { looks.new ≤ looks.old + length pairs.now }
    ensures refused { OnErr result (0 < length pairs.now) }
{
    if sorted.is_empty() {
        return Ok(Vec::new(alloc));
    }
    let mut earlier = vec![in alloc; 0; pairs.len()]?;
    // The previous hashed index, or the current hashed index if their keys differ.
    let mut last = sorted[0];
    for entry in sorted {
        looks.add_one();
        if !has_same_key(pairs, last, *entry) {
            last = *entry;
        }
        earlier[entry.index] = last.index;
        last = *entry;
    }
    Ok(earlier)
}

/// Returns `true` if two hashed indices have the same key and the same hash.
fn has_same_key<V>(pairs: &[(IString, V)], first: HashedIndex, second: HashedIndex) -> bool
    ensures { IsTrue result ↔ ((first.hash ≡ second.hash)
        × (entry_key (keys_of pairs.now) first ≡ entry_key (keys_of pairs.now) second)) }
{
    first.hash == second.hash && key_of(pairs, first) == key_of(pairs, second)
}
