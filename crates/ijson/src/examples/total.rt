//! A recursive function that sums the numbers in a value.
ghost use Rattle.std.specs.Prelude.{◌<◌, ◌^◌, ℕ, IfNone, IfSome};
ghost use Rattle.ijson.specs.examples.Total.{EachSumsTo, SumsTo, ValuesSumTo};
ghost use Rattle.ijson_value.specs.WellFormed.{item_trees, pair_trees};

use super::parsed;
use crate::object::IObject;
use crate::value::{DestructuredRef, IValue};

/// Returns the sum of the numbers in a value, at any depth.
///
/// Returns `None` if a number is negative or not an integer, or if the sum is at least `2 ^ 64`.
#[cycle(total)]
fn total(value: &IValue) -> Option<u64>
    ensures some { IfSome result (λ sum. SumsTo value.now.tree sum) }
    ensures none { IfNone result ((sum : ℕ) → sum < 2 ^ 64 → SumsTo value.now.tree sum → ⊥) }
{
    match value.destructure_ref() {
        DestructuredRef::Number(number) => number.to_u64(),
        DestructuredRef::Array(array) => total_of_items(array.as_slice()),
        DestructuredRef::Object(object) => total_of_members(object),
        _ => Some(0),
    }
}

#[cycle(total)]
fn total_of_items(items: &[IValue]) -> Option<u64>
    ensures some { IfSome result (λ sum. EachSumsTo (item_trees items.now) sum) }
    ensures none { IfNone result ((sum : ℕ) → sum < 2 ^ 64 → EachSumsTo (item_trees items.now) sum → ⊥) }
{
    let mut sum: u64 = 0;
    for item in items {
        sum = sum.checked_add(total(item)?)?;
    }
    Some(sum)
}

#[cycle(total)]
fn total_of_members(object: &IObject) -> Option<u64>
    ensures some { IfSome result (λ sum. ValuesSumTo (pair_trees object.now.pairs) sum) }
    ensures none { IfNone result ((sum : ℕ) → sum < 2 ^ 64 → ValuesSumTo (pair_trees object.now.pairs) sum → ⊥) }
{
    let mut sum: u64 = 0;
    for value in object.values() {
        sum = sum.checked_add(total(value)?)?;
    }
    Some(sum)
}

/// JSON texts, and the sum of the numbers in each.
static TOTALS: [(&str, Option<u64>); 6] = [
    (
        "{\"apples\":3,\"pears\":[1,2.0,{\"green\":4}],\"note\":\"7\",\"more\":[[],null,true,1e1]}",
        Some(20),
    ),
    ("[18446744073709551615,0]", Some(18446744073709551615)),
    ("[18446744073709551615,[1]]", None),
    ("{\"a\":1,\"b\":0.5}", None),
    ("[-1,2]", None),
    ("\"7\"", Some(0)),
];

#[test]
fn numbers_are_summed(rt: HostRuntime) {
    for &(text, sum) in &TOTALS {
        let value = parsed(&rt, rt.alloc(), text);
        assert!(rt; total(&value) == sum);
        drop(value);
    }
}
