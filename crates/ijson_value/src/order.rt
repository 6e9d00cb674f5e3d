//! The partial order of values, arrays and objects.
ghost use Rattle.std.specs.Prelude.{◌≡◌};
ghost use Rattle.ijson_value.specs.Order.{tree_cmp};
ghost use Rattle.ijson_value.specs.Values.{array_tree, object_tree, array_value, object_value};
ghost use Rattle.ijson_value.specs.laws.OrderLaws.{partial_order};

use crate::array::IArray;
use crate::object::IObject;
use crate::same::same_pairs;
use crate::value::{Destructured, IValue};
use std::cmp::Ordering;

/// Returns the order of `a` and `b`, or `None` if they are unordered.
#[cycle(order)]
fn value_cmp(a: &IValue, b: &IValue) -> Option<Ordering>
    ensures { result ≡ tree_cmp a.now.tree b.now.tree }
{
    match (&a.node, &b.node) {
        (Destructured::Null, Destructured::Null) => Some(Ordering::Equal),
        (Destructured::Bool(x), Destructured::Bool(y)) => Some(x.cmp(y)),
        (Destructured::Number(x), Destructured::Number(y)) => Some(x.cmp(y)),
        (Destructured::String(x), Destructured::String(y)) => Some(x.cmp(y)),
        (Destructured::Array(x), Destructured::Array(y)) => items_cmp(x.as_slice(), y.as_slice()),
        (Destructured::Object(x), Destructured::Object(y)) => pairs_cmp(x, y),
        _ => Some(a.type_().cmp(&b.type_())),
    }
}

/// Returns the order of arrays with the elements `xs` and `ys`, or `None` if they are unordered.
///
/// Compares the elements in order, and returns the first result that is not `Some(Equal)`. If all
/// compared elements are `Equal`, compares the lengths.
#[cycle(order)]
fn items_cmp(xs: &[IValue], ys: &[IValue]) -> Option<Ordering>
    ensures { result ≡ tree_cmp (array_tree xs.now) (array_tree ys.now) }
{
    for i in 0..xs.len() {
        if i == ys.len() {
            return Some(Ordering::Greater);
        }
        let answer = value_cmp(&xs[i], &ys[i]);
        if answer != Some(Ordering::Equal) {
            return answer;
        }
    }
    Some(xs.len().cmp(&ys.len()))
}

/// Returns `Some(Equal)` if the objects are equal, otherwise `None`.
fn pairs_cmp(a: &IObject, b: &IObject) -> Option<Ordering>
    ensures { result ≡ tree_cmp (object_tree a.now.pairs) (object_tree b.now.pairs) }
{
    if same_pairs(a, b) {
        Some(Ordering::Equal)
    } else {
        None
    }
}

/// Orders values of different kinds like `ValueType`.
///
/// Numbers are ordered by value, and strings by their bytes. Arrays are ordered by the first
/// elements that are not equal, then by length. Objects are `Equal` if they are equal, and
/// otherwise unordered. Does not allocate.
impl PartialOrd for IValue {
    ghost partial_cmp = { λ a b. tree_cmp a.tree b.tree };

    ghost laws = { partial_order (λ v. v) };

    fn partial_cmp(&self, other: &IValue) -> Option<Ordering> {
        value_cmp(self, other)
    }
}

/// Orders arrays by the first elements that are not equal, then by length.
///
/// If the first elements that are not equal are unordered, the arrays are unordered.
impl PartialOrd for IArray {
    ghost partial_cmp = { λ a b. tree_cmp (array_tree a.items) (array_tree b.items) };

    ghost laws = { partial_order (λ a. array_value a.items) };

    fn partial_cmp(&self, other: &IArray) -> Option<Ordering> {
        items_cmp(self.as_slice(), other.as_slice())
    }
}

/// Orders objects as `Equal` if they are equal. Other objects are unordered.
impl PartialOrd for IObject {
    ghost partial_cmp = { λ a b. tree_cmp (object_tree a.pairs) (object_tree b.pairs) };

    ghost laws = { partial_order object_value };

    fn partial_cmp(&self, other: &IObject) -> Option<Ordering> {
        pairs_cmp(self, other)
    }
}
