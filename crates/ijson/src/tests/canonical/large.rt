//! Tests of the canonical text of many nested objects, and of many entries.

use super::{much_is_sorted, objects_are_sorted};

#[test]
fn deep_objects(rt: HostRuntime) {
    objects_are_sorted(&rt, rt.alloc(), 127);
}

#[test]
fn many_members(rt: HostRuntime) {
    much_is_sorted(&rt, rt.alloc(), 5000, 100_000);
}
