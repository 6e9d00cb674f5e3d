//! Merging of duplicate keys, given an earlier index of each.

ghost use Rattle.std.specs.Prelude.{◌≡◌, [], take};
ghost use Rattle.ijson_table.specs.Store.{keys_of, put_each};
ghost use Rattle.ijson_table.specs.private.EntryOrder.{AreEarlier};

use ijson_string::IString;

/// Merges duplicate keys in place, and returns the number of distinct keys.
///
/// The distinct keys are first, in the order of their first occurrence, each with its last value.
/// Replaced pairs are moved to the end. `earlier[i]` must be the index of an earlier pair with the
/// key of pair `i`, or `i` if its key is new. Keys are not compared.
///
/// # Cost
///
/// Linear in the number of pairs.
pub fn merge_duplicates<V>(pairs: &mut [(IString, V)], earlier: Vec<usize>) -> usize
    requires { AreEarlier (keys_of pairs.old) earlier.items }
    ensures { take result pairs.new ≡ put_each [] pairs.old }
{
    // For each `i < position`, `places[i]` is the index in `pairs[..kept]` of the key that pair `i`
    // had at first. From `position` on, `places` is unchanged.
    let mut places = earlier;
    let mut kept = 0;
    for position in 0..pairs.len() {
        let before = places[position];
        pairs.swap(kept, position);
        if before == position {
            places[position] = kept;
            kept += 1;
        } else {
            let place = places[before];
            places[position] = place;
            pairs.swap(place, kept);
        }
    }
    kept
}
