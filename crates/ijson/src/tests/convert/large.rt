//! Tests of conversions of many more letters, elements and entries than the initial capacity.

use super::{items_go_back, letters_go_back, pairs_go_back};

#[test]
fn many_letters(rt: HostRuntime) {
    letters_go_back(&rt, rt.alloc(), 100_000);
}

#[test]
fn many_items(rt: HostRuntime) {
    items_go_back(&rt, rt.alloc(), 100_000);
}

#[test]
fn many_pairs(rt: HostRuntime) {
    pairs_go_back(&rt, rt.alloc(), 10_000);
}
