//! Tests of arrays with many elements.

use super::{changes_size, each_size, pushes};

#[test]
fn sizes(rt: HostRuntime) {
    let mut array = each_size(&rt, rt.alloc(), 161);
    pushes(&rt, &mut array, 2_000_161);
    changes_size(&rt, &mut array, 2_000_161);
    drop(array);
}
