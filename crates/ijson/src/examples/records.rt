//! A validator that counts the elements of an array that it rejects, because they lack an id.
ghost use Rattle.std.specs.Prelude.{◌≢◌, ◌↔◌, IfNone, IfSome, IsTrue};
ghost use Rattle.ijson.specs.examples.Records.{HasId, RefusesSoMany};
ghost use Rattle.ijson_value.specs.Kind.{kind_of};
ghost use Rattle.ijson_value.specs.declared.value.ValueType.TheVariants as kind;

use super::parsed;
use crate::value::IValue;

/// Returns `true` if `value` is an object whose member `id` is an integer from 0 to `2 ^ 64 - 1`.
fn has_id(value: &IValue) -> bool
    ensures { IsTrue result ↔ HasId value.now.tree }
{
    if !value.is_object() {
        return false;
    }
    match value.get("id") {
        Some(id) => id.to_u64().is_some(),
        None => false,
    }
}

/// Returns the number of elements without an id, or `None` if `value` is not an array.
fn count_refused(value: &IValue) -> Option<usize>
    ensures some { IfSome result (λ count. RefusesSoMany value.now.tree count) }
    ensures none { IfNone result (kind_of value.now.tree ≢ kind.Array) }
{
    let items = value.as_array()?.as_slice();
    let mut count = 0;
    for item in items {
        if !has_id(item) {
            count += 1;
        }
    }
    Some(count)
}

/// JSON texts, and the number of rejected elements in each.
static REFUSED: [(&str, Option<usize>); 3] = [
    (
        "[{\"id\":7},{\"id\":0.0,\"name\":\"a\"},{\"id\":-1},{\"id\":1.5},{\"id\":\"7\"},{\"name\":\"b\"},7,\
        {\"id\":18446744073709551616},[],{\"id\":1e2},{\"id\":18446744073709551615}]",
        Some(7),
    ),
    ("[]", Some(0)),
    ("{\"id\":7}", None),
];

#[test]
fn items_with_no_id_are_counted(rt: HostRuntime) {
    for &(text, count) in &REFUSED {
        let value = parsed(&rt, rt.alloc(), text);
        assert!(rt; count_refused(&value) == count);
        drop(value);
    }
}
