//! Tests of objects with many entries.

use super::sizes::{changes_size, creates, each_size};

#[test]
fn sizes(rt: HostRuntime) {
    each_size(&rt, rt.alloc(), 161);
    changes_size(&rt, rt.alloc(), 400_000, 800_000);
}

#[test]
fn creations(rt: HostRuntime) {
    creates(&rt, rt.alloc(), 500);
    creates(&rt, rt.alloc(), 10_000);
}
