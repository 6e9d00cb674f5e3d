//! Tests that make too many calls, or use numbers that are too long, to be run once per failing
//! allocation.

use super::lengths::{POWERS, keep_long, keeps_each};

#[test]
fn digits(rt: HostRuntime) {
    for count in 1..22 {
        keeps_each(&rt, rt.alloc(), count, 20, &POWERS);
    }
}

#[test]
fn integers(rt: HostRuntime) {
    keep_long(&rt, rt.alloc(), &[("", 5000, 0, 0), ("", 700_000, 0, 0)]);
}

#[test]
fn fractions(rt: HostRuntime) {
    let rows = [("-0.", 5000, 0, -5000), ("-0.", 700_000, 0, -700_000)];
    keep_long(&rt, rt.alloc(), &rows);
}

#[test]
fn zeros(rt: HostRuntime) {
    let rows = [("-", 5000, 300, 300), ("-", 700_000, 300, 300)];
    keep_long(&rt, rt.alloc(), &rows);
}
