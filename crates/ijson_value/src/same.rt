//! Equality of values, arrays and objects.
ghost use Rattle.std.specs.Prelude.{◌≡◌};
ghost use Rattle.ijson_value.specs.Values.{array_tree, object_tree};
ghost use Rattle.ijson_value.specs.SameTest.{same};

use crate::object::IObject;
use crate::value::{Destructured, IValue};

/// Returns `true` if `a` and `b` are equal.
#[cycle(same)]
pub(crate) fn same_value(a: &IValue, b: &IValue) -> bool
    ensures { result ≡ same a.now.tree b.now.tree }
{
    match (&a.node, &b.node) {
        (Destructured::Null, Destructured::Null) => true,
        (Destructured::Bool(x), Destructured::Bool(y)) => *x == *y,
        (Destructured::Number(x), Destructured::Number(y)) => *x == *y,
        (Destructured::String(x), Destructured::String(y)) => *x == *y,
        (Destructured::Array(x), Destructured::Array(y)) => same_items(x.as_slice(), y.as_slice()),
        (Destructured::Object(x), Destructured::Object(y)) => same_pairs(x, y),
        _ => false,
    }
}

/// Returns `true` if the slices have the same length and equal elements at each index.
#[cycle(same)]
pub(crate) fn same_items(xs: &[IValue], ys: &[IValue]) -> bool
    ensures { result ≡ same (array_tree xs.now) (array_tree ys.now) }
{
    if xs.len() != ys.len() {
        return false;
    }
    for i in 0..xs.len() {
        if !same_value(&xs[i], &ys[i]) {
            return false;
        }
    }
    true
}

/// Returns `true` if the objects have the same length and each key has equal values in both
/// objects.
#[cycle(same)]
pub(crate) fn same_pairs(a: &IObject, b: &IObject) -> bool
    ensures { result ≡ same (object_tree a.now.pairs) (object_tree b.now.pairs) }
{
    if a.len() != b.len() {
        return false;
    }
    for pair in a.as_slice() {
        match b.get(pair.0.as_str()) {
            None => return false,
            Some(found) => {
                if !same_value(&pair.1, found) {
                    return false;
                }
            }
        }
    }
    true
}
