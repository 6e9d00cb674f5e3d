//! Tests with much larger sizes than the other tests of stores.

use super::crowds::{Chosen, Multiples, inspections, is_sorted, takes_steps};
use super::script::{all_agree, clears};
use super::sizes::{ByParity, all_resize, builds, fills, grows_far, takes_many};
use super::*;

#[test]
fn each_small_size(rt: HostRuntime) {
    for count in 0..161 {
        all_resize(&rt, count);
    }
}

#[test]
fn many_entries(rt: HostRuntime) {
    fills::<LinearPairs<u64>>(&rt, 2_000, 2_000, false);
    fills::<Fixed>(&rt, 10_000, 10_000, false);
    builds::<FixedHash>(&rt, 10_000, true);
    builds::<FixedHash>(&rt, 3_000, false);
    builds::<AlwaysZero>(&rt, 3_000, false);
    // These insertions exceed the bound of steps, so the slots are filled by sorting.
    fills::<Crowded>(&rt, 2_000, 2_000, true);
    fills::<Crowded>(&rt, 2_000, 4_000, true);
    // Growth reverses the two home slots of `ByParity`: 0 and 1 before it, 2500 and 1 after it. An
    // order by the old home slots is therefore not an order by the new home slots.
    fills::<Table<u64, ByParity>>(&rt, 2_000, 2_000, true);
}

#[test]
fn much_room_and_many_numbers(rt: HostRuntime) {
    each_store!(grows_far(&rt, 3_000_000));
    takes_many(&rt, 400_000, 524_288, ["399998", "399999", "400000"]);
}

#[test]
fn long_lists_of_commands(rt: HostRuntime) {
    all_agree(&rt, 40, 200);
    clears(&rt, 2_000_000);
}

/// The number 13,560 was computed without this library, from the fixed hashes of the numbers.
/// Inserting the keys of any other list one by one takes at least a million inspections and writes.
/// With one home slot, 4,000 entries take 8,006,000 steps. The first 715 entries exceed 32 steps
/// per entry of the new capacity in growth, and the first 505 in shrinking.
#[test]
fn inspections_are_counted(rt: HostRuntime) {
    assert!(rt; inspections::<FixedHash>(&rt, Chosen::Digits, 2048) == 13_560);
    is_sorted::<Multiples>(&rt, Chosen::Digits, 2048);
    is_sorted::<FixedHash>(&rt, Chosen::Twins, 2048);
    is_sorted::<FixedHash>(&rt, Chosen::TwinsAgain, 2048);
    is_sorted::<FixedHash>(&rt, Chosen::TwinsInARow, 2048);
    is_sorted::<ByLength>(&rt, Chosen::Lengths, 2048);
    takes_steps(&rt, 4_000, 256_685 + 23_728, 128_270 + 23_728);
}
