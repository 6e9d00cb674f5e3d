//! Tests of `ijson!` literals. Each rule of the macro has a function whose contract states the tree
//! of one literal, so that a wrong rule leaves a goal unproved. The tests assert the text too,
//! since a literal that always returns `Memory` would meet its contract.
ghost use Rattle.std.specs.Prelude.{◌≡◌, IfOk, codes, string_bytes};
ghost use Rattle.ijson_value.specs.Tree.{null, boolean, array, object, no_items, item, no_members, member};

use super::{Converted, THERE, used_cache};
use crate::convert::{ConvertError, ToIValue};
use crate::ijson;
use crate::number::INumber;
use crate::tests::caches::Cache;
use crate::tests::texts::is_written;
use crate::value::IValue;
use std::alloc::{AllocError, Global};
use std::process::Abort;

type Built = Converted<IValue>;

fn null_alone(alloc: Global, cache: &mut Cache) -> Built
    ensures { IfOk result (λ value. value.tree ≡ null) }
{
    ijson!(alloc, cache; null)
}

fn expression_alone<T: ToIValue>(alloc: Global, cache: &mut Cache, x: &T) -> Built
    ensures { IfOk result (λ value. value.tree ≡ T.ToIValue.tree x.now) }
{
    ijson!(alloc, cache; *x)
}

fn empty_list(alloc: Global, cache: &mut Cache) -> Built
    ensures { IfOk result (λ value. value.tree ≡ array no_items) }
{
    ijson!(alloc, cache; [])
}

fn empty_object(alloc: Global, cache: &mut Cache) -> Built
    ensures { IfOk result (λ value. value.tree ≡ object no_members) }
{
    ijson!(alloc, cache; {})
}

fn null_first(alloc: Global, cache: &mut Cache, x: bool) -> Built
    ensures { IfOk result (λ value. value.tree ≡ array (item null (item (boolean x) no_items))) }
{
    ijson!(alloc, cache; [null, x])
}

fn null_last(alloc: Global, cache: &mut Cache, x: bool) -> Built
    ensures { IfOk result (λ value. value.tree ≡ array (item (boolean x) (item null no_items))) }
{
    ijson!(alloc, cache; [x, null,])
}

fn list_first(alloc: Global, cache: &mut Cache, x: bool, y: bool) -> Built
    ensures { IfOk result (λ value. value.tree
        ≡ array (item (array (item (boolean x) no_items)) (item (boolean y) no_items))) }
{
    ijson!(alloc, cache; [[x], y])
}

fn object_first(alloc: Global, cache: &mut Cache, x: bool, y: bool) -> Built
    ensures { IfOk result (λ value. value.tree
        ≡ array (item (object (member (codes "a") (boolean x) no_members)) (item (boolean y) no_items))) }
{
    ijson!(alloc, cache; [{"a": x}, y])
}

fn object_last(alloc: Global, cache: &mut Cache, x: bool, y: bool) -> Built
    ensures { IfOk result (λ value. value.tree
        ≡ array (item (boolean x) (item (object (member (codes "a") (boolean y) no_members)) no_items))) }
{
    ijson!(alloc, cache; [x, {"a": y}])
}

fn null_member(alloc: Global, cache: &mut Cache, x: bool) -> Built
    ensures { IfOk result (λ value. value.tree
        ≡ object (member (codes "a") null (member (codes "b") (boolean x) no_members))) }
{
    ijson!(alloc, cache; {"a": null, "b": x})
}

fn null_member_last(alloc: Global, cache: &mut Cache, x: bool) -> Built
    ensures { IfOk result (λ value. value.tree
        ≡ object (member (codes "a") (boolean x) (member (codes "b") null no_members))) }
{
    ijson!(alloc, cache; {"a": x, "b": null,})
}

fn list_member(alloc: Global, cache: &mut Cache, x: bool, y: bool) -> Built
    ensures { IfOk result (λ value. value.tree
        ≡ object (member (codes "a") (array (item (boolean x) no_items)) (member (codes "b") (boolean y) no_members))) }
{
    ijson!(alloc, cache; {"a": [x], "b": y})
}

fn object_member(alloc: Global, cache: &mut Cache, x: bool, y: bool) -> Built
    ensures { IfOk result (λ value. value.tree
        ≡ object (member (codes "a") (boolean x)
        (member (codes "b") (object (member (codes "c") (boolean y) no_members)) no_members))) }
{
    ijson!(alloc, cache; {"a": x, "b": {"c": y}})
}

fn repeated_key(alloc: Global, cache: &mut Cache, x: bool, y: bool) -> Built
    ensures { IfOk result (λ value. value.tree ≡ object (member (codes "a") (boolean y) no_members)) }
{
    ijson!(alloc, cache; {"a": x, "a": y})
}

fn key_of_tokens(alloc: Global, cache: &mut Cache, key: &String, x: bool) -> Built
    ensures { IfOk result (λ value. value.tree ≡ object (member (string_bytes key.now) (boolean x) no_members)) }
{
    ijson!(alloc, cache; {key.as_str(): x})
}

fn null_of_tokens(alloc: Global, cache: &mut Cache, key: &String) -> Built
    ensures { IfOk result (λ value. value.tree ≡ object (member (string_bytes key.now) null no_members)) }
{
    ijson!(alloc, cache; {key.as_str(): null})
}

// Each call in the expansion of a literal can return early, and then drops the arrays and objects
// built so far. With one literal per function, an early return has nothing else to drop.

fn pairs(alloc: Global, cache: &mut Cache, key: &str) -> Built {
    ijson!(alloc, cache; {"name": "ijson", "sizes": [], key: {}, "name": [],})
}

fn strings(alloc: Global, cache: &mut Cache) -> Built {
    ijson!(alloc, cache; {"foo": "bar", "x": [], "y": [1, null, true,]})
}

fn objects(alloc: Global, cache: &mut Cache, key: &str) -> Built {
    ijson!(alloc, cache; {key: {"deep": true, "none": {}}})
}

fn tokens(alloc: Global, cache: &mut Cache, n: i64) -> Built {
    ijson!(alloc, cache; [[], n / 2])
}

fn long(alloc: Global, cache: &mut Cache) -> Built {
    ijson!(alloc, cache; {"longlong": ["eight888", {}], "c": {}, "longlong": ["x"]})
}

fn values(alloc: Global, cache: &mut Cache, value: IValue, number: INumber) -> Built {
    ijson!(alloc, cache; {"a": [value], "n": number, "s": ("x", [1u8, 2])})
}

/// Builds the example of the documentation.
fn example(alloc: Global, cache: &mut Cache) -> Built {
    ijson!(alloc, cache; {"name": "ijson", "sizes": [1u8, 2u8, null], "nested": {"deep": true}})
}

/// Asserts the text of the value of each literal. Returns the error if an allocation fails.
macro_rules! are_written {
    ($rt:expr, $alloc:expr; $($literal:expr => $want:expr;)+) => {
        $(is_built($rt, $alloc, $literal?, $want);)+
    };
}

fn is_built(rt: &impl Abort, alloc: Global, value: IValue, want: &str) {
    is_written(rt, alloc, &value, want);
    drop(value);
}

fn lists(rt: &impl Abort, alloc: Global, cache: &mut Cache) -> Converted<()> {
    are_written! { rt, alloc;
        null_alone(alloc, cache) => "null";
        expression_alone(alloc, cache, &5u8) => "5";
        expression_alone(alloc, cache, &true) => "true";
        empty_list(alloc, cache) => "[]";
        empty_object(alloc, cache) => "{}";
        null_first(alloc, cache, true) => "[null,true]";
        null_last(alloc, cache, true) => "[true,null]";
        list_first(alloc, cache, true, false) => "[[true],false]";
        object_first(alloc, cache, true, false) => r#"[{"a":true},false]"#;
        object_last(alloc, cache, true, false) => r#"[true,{"a":false}]"#;
    }
    Ok(())
}

fn members(rt: &impl Abort, alloc: Global, cache: &mut Cache, key: &String) -> Converted<()> {
    are_written! { rt, alloc;
        null_member(alloc, cache, true) => r#"{"a":null,"b":true}"#;
        null_member_last(alloc, cache, true) => r#"{"a":true,"b":null}"#;
        list_member(alloc, cache, true, false) => r#"{"a":[true],"b":false}"#;
        object_member(alloc, cache, true, false) => r#"{"a":true,"b":{"c":false}}"#;
        repeated_key(alloc, cache, true, false) => r#"{"a":false}"#;
        key_of_tokens(alloc, cache, key, true) => r#"{"k":true}"#;
        null_of_tokens(alloc, cache, key) => r#"{"k":null}"#;
    }
    Ok(())
}

fn mixed(rt: &impl Abort, alloc: Global, cache: &mut Cache) -> Converted<()> {
    are_written! { rt, alloc;
        pairs(alloc, cache, "nested") => r#"{"name":[],"sizes":[],"nested":{}}"#;
        strings(alloc, cache) => r#"{"foo":"bar","x":[],"y":[1,null,true]}"#;
        objects(alloc, cache, "nested") => r#"{"nested":{"deep":true,"none":{}}}"#;
        tokens(alloc, cache, -14) => "[[],-7]";
        long(alloc, cache) => r#"{"longlong":["x"],"c":{}}"#;
        values(alloc, cache, IValue::TRUE, INumber::from(7)) => r#"{"a":[true],"n":7,"s":["x",[1,2]]}"#;
        example(alloc, cache) => r#"{"name":"ijson","sizes":[1,2,null],"nested":{"deep":true}}"#;
    }
    Ok(())
}

/// Checks the texts of all literals, and that only two strings are interned, also by failed calls.
#[test]
fn literals_are_values(rt: HostRuntime) {
    let alloc = rt.alloc();
    let mut cache = used_cache(&rt, alloc);
    granted!(&rt; ConvertError::Memory; lists(&rt, alloc, &mut cache));
    let key = granted!(&rt; String::from_str(alloc, "k"));
    granted!(&rt; ConvertError::Memory; members(&rt, alloc, &mut cache, &key));
    drop(key);
    assert!(rt; cache.contains(THERE) && cache.len() == 1);
    granted!(&rt; ConvertError::Memory; mixed(&rt, alloc, &mut cache));
    assert!(rt; cache.contains(THERE) && cache.len() == 3);
    drop(cache);
}
