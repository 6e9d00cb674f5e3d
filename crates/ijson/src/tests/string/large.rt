//! The tests of `numbers` and `cache` with more and longer strings.
use super::cache::run_prefixes;
use super::numbers::{Fold, One, SCRIPTS, run_all, runs};

#[test]
fn kept(rt: HostRuntime) {
    for unit in [32, 2_500, 350_000] {
        runs(&rt, rt.alloc(), Fold::new(), unit, SCRIPTS[0]);
    }
}

#[test]
fn kept_with_one_hash(rt: HostRuntime) {
    runs(&rt, rt.alloc(), One::new(), 2_500, SCRIPTS[0]);
}

#[test]
fn all(rt: HostRuntime) {
    run_all(&rt, rt.alloc(), 50);
}

#[test]
fn prefixes(rt: HostRuntime) {
    let text = granted!(&rt; "0123456789".repeat(rt.alloc(), 100_000));
    run_prefixes(&rt, rt.alloc(), text.as_str(), 203, true);
    drop(text);
}
