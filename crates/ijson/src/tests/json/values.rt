//! Tests of the order, equality, hashes and copies of values.
ghost use Rattle.std.specs.Prelude.{◌≡◌, true, IfOk};

use super::{numbered, repeated};
use crate::array::IArray;
use crate::object::IObject;
use crate::table::ReserveError;
use crate::tests::hashes::hash_of;
use crate::tests::shown::is_shown;
use crate::tests::texts::{is_written, parsed};
use crate::value::IValue;
use std::alloc::{AllocError, Global};
use std::cmp::Ordering;
use std::collections::HashMap;
use std::hash::{BuildHasherDefault, FoldHasher};
use std::process::Abort;

/// JSON texts of two values, and the sign between them, which is `?` if they are not ordered.
#[rattlefmt::skip]
static ORDERED: [(&str, char, &str); 31] = [
    ("null", '<', "false"), ("false", '<', "true"), ("false", '<', "0"), ("true", '<', "0"), ("0", '<', "\"\""),
    ("1", '<', "\"1\""), ("\"\"", '<', "[]"), ("[]", '<', "{}"), ("null", '=', "null"), ("2", '=', "2.0"),
    ("-0", '=', "-0.0"), ("1e2", '=', "100"), ("-1e3", '<', "0.5"), ("0.1", '<', "0.10000000000000000001"),
    ("\"interned_string_a\"", '<', "\"interned_string_b\""), ("\"a\"", '<', "\"ab\""), ("[]", '<', "[{}]"),
    ("[1,2]", '>', "[1.0]"), ("[1,2]", '<', "[1,3,null]"), ("[1,2]", '<', "[2,1]"),
    (r#"[{"k":1}]"#, '?', r#"[{"k":2},0]"#), (r#"[{"k":1}]"#, '<', r#"[{"k":1.0},0]"#),
    (r#"[1,{"k":1}]"#, '<', r#"[2,{"k":2}]"#), (r#"{"k":1}"#, '?', r#"{"k":2}"#),
    (r#"{"k":1}"#, '?', r#"{"k":1,"l":1}"#), (r#"{"x":1}"#, '?', r#"{"x":1,"y":null}"#), ("{}", '?', r#"{"k":1}"#),
    (r#"{"k":true}"#, '=', r#"{"k":true}"#), (r#"[{"k":true}]"#, '=', r#"[{"k":true}]"#),
    (r#"{"x":1,"y":2}"#, '=', r#"{"y":2.0,"x":1e0}"#), (r#"{"k":2,"l":[1,{}]}"#, '=', r#"{"l":[1.0,{}],"k":2.0}"#),
];

fn order_of(sign: char) -> Option<Ordering> {
    match sign {
        '<' => Some(Ordering::Less),
        '=' => Some(Ordering::Equal),
        '>' => Some(Ordering::Greater),
        _ => None,
    }
}

/// Asserts that the order of two values is antisymmetric, and agrees with equality and hashes.
fn agree(rt: &impl Abort, left: &IValue, right: &IValue) {
    let order = left.partial_cmp(right);
    assert!(*rt; order == right.partial_cmp(left).map(|order| order.reverse()));
    assert!(*rt; (left == right) == (order == Some(Ordering::Equal)));
    assert!(*rt; left != right || hash_of(left) == hash_of(right));
}

#[test]
fn values_are_ordered(rt: HostRuntime) {
    for &(left, sign, right) in &ORDERED {
        let left = parsed(&rt, rt.alloc(), left);
        let right = parsed(&rt, rt.alloc(), right);
        assert!(rt; left.partial_cmp(&right) == order_of(sign));
        assert!(rt; (right == left) == (sign == '='));
        counted!(rt.alloc(); agree(&rt, &left, &right));
        drop(left);
        drop(right);
    }
}

/// An array of values of all kinds, some of which are equal.
const ALL_KINDS: &str =
    "[null,true,false,0,0.0,1,1.0,10,10.0,-1,0.5,0.1,1e22,18446744073709551616,123456789012345678901234567890.5,\
    \"\",\"a\",\"seven77\",\"eight888\",\"interned_string_a\",[],[[]],[null],[0],[0.0],[1,2],[2,1],[1,2,3],[{}],[[[]]],{},{\"a\":1},\
    {\"a\":1.0},{\"a\":2},{\"b\":1},{\"a\":1,\"b\":[1]},{\"b\":[1],\"a\":1},{\"b\":[1],\"c\":1},{\"longlonglong\":{\"a\":null}},\
    {\"a\":{\"a\":{}}}]";

fn is_copied(rt: &impl Abort, alloc: Global, value: &IValue, want: &str) {
    let copy = granted!(rt; value.clone());
    assert!(*rt; copy == *value);
    is_written(rt, alloc, &copy, want);
    drop(copy);
}

fn agrees_with_each(rt: &impl Abort, left: &IValue, values: &[IValue]) {
    for right in values {
        agree(rt, left, right);
    }
}

#[test]
fn each_pair_of_values_agrees(rt: HostRuntime) {
    let all = parsed(&rt, rt.alloc(), ALL_KINDS);
    is_copied(&rt, rt.alloc(), &all, ALL_KINDS);
    let values = all.as_array().expect(&rt, "an array");
    let copies = granted!(&rt; IArray::from_slice(rt.alloc(), values.as_slice()));
    assert!(rt; copies == *values);
    for left in values.as_slice() {
        agrees_with_each(&rt, left, copies.as_slice());
    }
    drop(copies);
    drop(all);
}

#[test]
fn a_large_value_is_copied(rt: HostRuntime) {
    let lists = repeated(&rt, rt.alloc(), &("a", "a", 69_999, "\",[0", ",0", "],"));
    let object = numbered(&rt, rt.alloc(), "\"#\":0", 100_000, 129_999);
    let text = granted!(&rt; format!(in rt.alloc(); "[\"{lists}{object}]"));
    drop(lists);
    drop(object);
    let value = parsed(&rt, rt.alloc(), text.as_str());
    is_written(&rt, rt.alloc(), &value, text.as_str());
    is_copied(&rt, rt.alloc(), &value, text.as_str());
    drop(value);
}

#[test]
fn copies_of_objects(rt: HostRuntime) {
    let text = r#"{"b":1.0,"a":[2],"c":{"d":null}}"#;
    let value = parsed(&rt, rt.alloc(), text);
    let object = value.as_object().expect(&rt, "an object");
    let copy = granted!(&rt; object.clone());
    assert!(rt; copy.get("a").is_some());
    let copy = IValue::from(copy);
    is_written(&rt, rt.alloc(), &copy, text);
    let shown = r#"{"b": 1.0, "a": [2], "c": {"d": null}}"#;
    is_shown(&rt, rt.alloc(), &value, shown);
    drop(copy);
    drop(value);
    let roomy = granted!(&rt; ReserveError::Memory; IObject::with_capacity(rt.alloc(), 10));
    let copy = counted!(rt.alloc(); granted!(&rt; roomy.clone()));
    assert!(rt; copy.capacity() == 0);
    drop(roomy);
    drop(copy);
}

/// Returns null inside `depth` nested arrays.
fn nested(rt: &impl Abort, alloc: Global, depth: usize) -> IValue {
    let mut value = IValue::NULL;
    for _ in 0..depth {
        let mut array = IArray::new(alloc);
        if let Err(refused) = array.push(value) {
            array.push(refused.0).expect(rt, "an item");
        }
        value = IValue::from(array);
    }
    value
}

/// Asserts that null inside `depth` nested arrays is equal to its copy, also by order and by hash.
pub fn is_copied_deep(rt: &impl Abort, alloc: Global, depth: usize) {
    let value = nested(rt, alloc, depth);
    let copy = granted!(rt; value.clone());
    agree(rt, &value, &copy);
    assert!(*rt; value == copy);
    drop(value);
    drop(copy);
}

#[test]
fn a_hundred_levels(rt: HostRuntime) {
    is_copied_deep(&rt, rt.alloc(), 100);
}

/// Returns `true`, since a map with the key `value` contains a copy of `value`.
fn found_by_copy(alloc: Global, value: IValue) -> Result<bool, AllocError>
    ensures { IfOk result (λ found. found ≡ true) }
{
    let copy = value.clone()?;
    let mut map = HashMap::with_hasher(alloc, BuildHasherDefault::<FoldHasher>::new());
    map.insert(value, 1u8)?;
    Ok(map.contains_key(&copy))
}

/// Returns `true` if a map whose only key is `key` contains `value`.
fn is_key(alloc: Global, key: IValue, value: &IValue) -> Result<bool, AllocError> {
    let mut map = HashMap::with_hasher(alloc, BuildHasherDefault::<FoldHasher>::new());
    map.insert(key, 1u8)?;
    Ok(map.contains_key(value))
}

#[test]
fn a_map_of_values_finds_an_equal_one(rt: HostRuntime) {
    let alloc = rt.alloc();
    assert!(rt; granted!(&rt; found_by_copy(alloc, parsed(&rt, alloc, ALL_KINDS))));
    let key = r#"{"k":2,"l":[1,{}]}"#;
    let same = parsed(&rt, alloc, r#"{"l":[1.0,{}],"k":2.0}"#);
    assert!(rt; granted!(&rt; is_key(alloc, parsed(&rt, alloc, key), &same)));
    drop(same);
    let other = parsed(&rt, alloc, r#"{"l":[1.0,{}],"k":3}"#);
    assert!(rt; !granted!(&rt; is_key(alloc, parsed(&rt, alloc, key), &other)));
    drop(other);
}
