//! Removes duplicates from an array with an `IndexSet` of values, which uses their `Hash` and `==`.
ghost use Rattle.std.specs.Prelude.{◌≡◌, IfOk};
ghost use Rattle.std.specs.List.{IsDistinct};
ghost use Rattle.ijson_value.specs.SameTest.{same};
ghost use Rattle.ijson_value.specs.WellFormed.{WellFormed};
ghost use Rattle.ijson_value.specs.laws.EqualAmong.{has_equal};

use super::{is_written, parsed};
use crate::{IArray, IValue};
use indexmap::IndexSet;
use std::alloc::{AllocError, Global};
use std::process::Abort;

/// Returns the elements that are not equal to an earlier element, in order.
///
/// The contract states that the returned elements are distinct, and that each element of `items` is
/// equal to a returned element. The test also shows their order, and that the first of several
/// equal elements is kept.
fn without_repeats(alloc: Global, items: IArray) -> Result<IArray, AllocError>
    ensures distinct { IfOk result (λ kept. IsDistinct (λ a b. same a.tree b.tree) kept.items) }
    ensures each { IfOk result (λ kept. (v : WellFormed) → has_equal v kept.items ≡ has_equal v items.items) }
{
    let mut seen: IndexSet<IValue> = IndexSet::new(alloc);
    for item in items {
        let _new = seen.insert(item)?;
    }
    let list: Vec<IValue> = seen.into_iter().collect(alloc)?;
    let kept = IArray::from_vec(alloc, list)?;
    Ok(kept)
}

/// Parses `text` as an array and returns the array without duplicates.
fn left_of(rt: &impl Abort, alloc: Global, text: &str) -> IValue {
    let items = parsed(rt, alloc, text).into_array().expect(rt, "an array");
    IValue::from(without_repeats(alloc, items).expect(rt, "memory"))
}

#[test]
fn repeats(rt: HostRuntime) {
    let left = left_of(
        &rt,
        rt.alloc(),
        "[1,{\"a\":1,\"b\":2},1.0,\"1\",{\"b\":2,\"a\":1e0},[],1]",
    );
    is_written(&rt, rt.alloc(), &left, "[1,{\"a\":1,\"b\":2},\"1\",[]]");
    drop(left);
}
