//! Tests of writing through mutable references, with the signatures of the Rust crate `ijson`. The
//! contract of each caller states the whole new value. `set_pair`, `set_inside` and `turn_truth`
//! are proved by hand; the functions that call them need no such proof.
ghost use Rattle.std.specs.Prelude.{◌≡◌, ◌≢◌, Bool, true, not, IfOk, IfErr, IfSome, OnOk, IsTrue, IsFalse, IsSome, Some, None};
ghost use Rattle.std.specs.Option.{ghost_name_of};
ghost use Rattle.std.specs.String.{string_bytes};
ghost use Rattle.ijson_json.specs.Grammar.{Accepted};
ghost use Rattle.ijson_json.specs.Print.{print};
ghost use Rattle.ijson_value.specs.Kind.{kind_of};
ghost use Rattle.ijson_value.specs.LendsAtKey.{with_key};
ghost use Rattle.ijson_value.specs.LendsPair.{pair_name};
ghost use Rattle.ijson_value.specs.NodeValue.{node_value};
ghost use Rattle.ijson_value.specs.Step.{by_key, kind_for, tree_at, tree_with};
ghost use Rattle.ijson_value.specs.Tree.{Tree, boolean};
ghost use Rattle.ijson_value.specs.Values.{boolean_value, null_value};
ghost use Rattle.ijson_value.specs.declared.value.ValueType.TheVariants as kind;
ghost use Rattle.ijson_extra.specs.Pointer.{resolved, resolved_with};
ghost use Rattle.ijson.specs.tests.Turned.{IsTurned};

use crate::json::{JsonError, from_json, to_json};
use crate::object::{IObject, ObjectIndex, RefusedPair};
use crate::pointer::resolve_opened_mut;
use crate::string::IString;
use crate::tests::caches::{empty_cache, key};
use crate::tests::texts::{is_written, parsed};
use crate::value::{BoolMut, Destructured, DestructuredMut, IValue, ValueIndex};
use std::alloc::Global;
use std::process::Abort;

fn put_true(place: &mut IValue)
    ensures { place.new ≡ boolean_value true }
{
    *place = IValue::TRUE;
}

fn put_true_opened(place: &mut Destructured)
    ensures { node_value place.new ≡ boolean_value true }
{
    *place = Destructured::Bool(true);
}

/// Replaces the value at `pointer`, if any, by true. The rest of `value` is unchanged.
fn set_named(value: &mut IValue, pointer: &str)
    ensures there { (t : Tree) → resolved value.old.tree pointer.now ≡ Some (Some t)
        → value.new.tree ≡ resolved_with value.old.tree pointer.now (boolean true) }
    ensures missing { ((t : Tree) → resolved value.old.tree pointer.now ≡ Some (Some t) → ⊥)
        → value.new.tree ≡ value.old.tree }
{
    if let Ok(place) = resolve_opened_mut(value, pointer) {
        put_true_opened(place);
    }
}

/// Replaces the value in `found`, if any, by true, and returns the reference.
fn put_found(found: Option<&mut IValue>) -> Option<&mut IValue>
    ensures same_reference { ghost_name_of found.entry ≡ ghost_name_of result }
    ensures written { IfSome result (λ place. place.now ≡ boolean_value true) }
{
    match found {
        Some(place) => {
            put_true(place);
            Some(place)
        }
        None => None,
    }
}

/// Like `put_found`, but for the value of an entry.
fn put_entry<'a>(found: Option<(&'a IString, &'a mut IValue)>) -> Option<&'a mut IValue>
    ensures same_reference { pair_name found.entry ≡ ghost_name_of result }
    ensures written { IfSome result (λ place. place.now ≡ boolean_value true) }
{
    match found {
        Some((_, place)) => {
            put_true(place);
            Some(place)
        }
        None => None,
    }
}

/// Sets the value of the key `index`, if it exists, to true. The rest of `object` is unchanged.
fn set_pair<I: ObjectIndex>(object: &mut IObject, index: I)
    ensures { object.new ≡ with_key object.old (I.Sealed.key index) (boolean_value true) }
{
    put_entry(index.index_into_mut(object));
}

/// Sets the value of the key `letters`, if it exists, to true, through the entry that is found.
fn set_found(object: &mut IObject, letters: &str) {
    if let Some((_, place)) = object.get_key_value_mut(letters) {
        put_true(place);
    }
}

/// Replaces the value at the index or key `index`, if any, by true.
fn set_inside<I: ValueIndex>(value: &mut IValue, index: I)
    requires { kind_of value.old.tree ≡ kind_for (I.Sealed.step index) }
    ensures there { IsSome (tree_at value.old.tree (I.Sealed.step index))
        → value.new.tree ≡ tree_with value.old.tree (I.Sealed.step index) (boolean true) }
    ensures missing { tree_at value.old.tree (I.Sealed.step index) ≡ None → value.new ≡ value.old }
{
    put_found(index.index_into_mut(value));
}

/// Returns the compact text of the JSON text `text` after true is written at `pointer`.
fn with_true(alloc: Global, text: &str, pointer: &str) -> Result<String, JsonError>
    ensures { IfOk result (λ written. (t : Tree) × Accepted text.now t
        × ((u : Tree) → resolved t pointer.now ≡ Some (Some u)
        → string_bytes written ≡ print (resolved_with t pointer.now (boolean true)))) }
{
    let mut cache = empty_cache(alloc);
    let read = from_json(alloc, &mut cache, text);
    drop(cache);
    let mut value = read?;
    set_named(&mut value, pointer);
    let written = to_json(alloc, &value);
    drop(value);
    match written {
        Ok(written) => Ok(written),
        Err(_) => Err(JsonError::Memory),
    }
}

/// Sets the value of `key` to true by `IValue::get_mut`, and returns `true` if the key exists.
#[tactic(auto, using(ijson_value::specs::laws::Steps::tree_with_step))]
fn set_by_path(value: &mut IValue, key: &str) -> bool
    requires { kind_of value.old.tree ≡ kind_for (by_key key.now) }
    ensures there { IsTrue result → value.new.tree ≡ tree_with value.old.tree (by_key key.now) (boolean true) }
    ensures missing { IsFalse result → value.new ≡ value.old }
{
    match IValue::get_mut(value, key) {
        Some(place) => {
            put_true(place);
            true
        }
        None => false,
    }
}

/// Sets the value of `key` to true by `IValue::index_or_insert`, which appends a missing key. An
/// error returns the key with null, and leaves `value` unchanged.
#[tactic(auto, using(crate::proofs::test_lemmas::PutInside::is_kept_inside))]
fn put_by_path(value: &mut IValue, key: IString) -> Result<(), RefusedPair>
    requires { kind_of value.old.tree ≡ kind_for (by_key key) }
    ensures there { OnOk result (value.new.tree ≡ tree_with value.old.tree (by_key key) (boolean true)) }
    ensures refused { IfErr result (λ refused. (refused.key ≡ key) × (refused.value ≡ null_value)
        × (value.new.tree ≡ value.old.tree)) }
{
    let place = IValue::index_or_insert(value, key)?;
    put_true(place);
    Ok(())
}

/// Negates a Boolean through its reference `truth`, and returns the reference.
fn turned(truth: BoolMut<'_>) -> BoolMut<'_>
    ensures same_reference { result.place.ghost_name ≡ truth.entry.place.ghost_name }
    ensures turned { result.place.now ≡ not truth.entry.place.now }
{
    let mut truth = truth;
    truth.set(!truth.get());
    truth
}

/// Negates the Boolean in `parts`, if any, and returns all references in `parts`.
fn turned_parts(parts: DestructuredMut<'_>) -> DestructuredMut<'_>
    ensures { IsTurned parts.entry result }
{
    match parts {
        DestructuredMut::Null => DestructuredMut::Null,
        DestructuredMut::Bool(truth) => DestructuredMut::Bool(turned(truth)),
        DestructuredMut::Number(number) => DestructuredMut::Number(number),
        DestructuredMut::String(string) => DestructuredMut::String(string),
        DestructuredMut::Array(array) => DestructuredMut::Array(array),
        DestructuredMut::Object(object) => DestructuredMut::Object(object),
    }
}

/// Negates `value` if it is a Boolean. A value of another kind is unchanged.
fn turn_truth(value: &mut IValue)
    ensures turned { (truth : Bool) → value.old ≡ boolean_value truth → value.new ≡ boolean_value (not truth) }
    ensures same { kind_of value.old.tree ≢ kind.Bool → value.new ≡ value.old }
{
    turned_parts(value.destructure_mut());
}

const TEXT: &str = r#"{"a":1,"b":[2]}"#;

/// Keys, whether each exists in `TEXT`, and the text after its value is set to true.
#[rattlefmt::skip]
static WRITTEN: [(&str, bool, &str); 3] = [
    ("a", true, r#"{"a":true,"b":[2]}"#), ("b", true, r#"{"a":1,"b":true}"#),
    ("c", false, r#"{"a":1,"b":[2],"c":true}"#),
];

/// Asserts that each call for a key with a mutable value finds `letters` exactly if `there` is set.
fn is_beside(rt: &impl Abort, object: &mut IObject, letters: &str, there: bool) {
    let found = object.get_key_value_mut(letters);
    assert!(*rt; matches!(found, Some((key, _)) if key.eq_str(letters)) == there);
    let found = ObjectIndex::index_into_mut(letters, object);
    assert!(*rt; matches!(found, Some((key, _)) if key.eq_str(letters)) == there);
}

/// Returns the value of `TEXT`, after `is_beside` has looked up the key `letters`.
fn object_with(rt: &impl Abort, alloc: Global, letters: &str, there: bool) -> IValue
    ensures { kind_of result.tree ≡ kind.Object }
{
    let mut value = parsed(rt, alloc, TEXT);
    let object = value.as_object_mut().expect(rt, "an object");
    is_beside(rt, object, letters, there);
    assert!(*rt; value.is_object());
    value
}

/// Sets a value to true by each call that ignores a missing key, and asserts the resulting text.
fn writes(rt: &impl Abort, alloc: Global, letters: &str, there: bool, want: &str) {
    let mut value = object_with(rt, alloc, letters, there);
    set_pair(value.as_object_mut().expect(rt, "an object"), letters);
    is_written(rt, alloc, &value, want);
    drop(value);
    let mut value = object_with(rt, alloc, letters, there);
    set_found(value.as_object_mut().expect(rt, "an object"), letters);
    is_written(rt, alloc, &value, want);
    drop(value);
    let mut value = object_with(rt, alloc, letters, there);
    set_inside(&mut value, letters);
    is_written(rt, alloc, &value, want);
    drop(value);
    let mut value = object_with(rt, alloc, letters, there);
    assert!(*rt; set_by_path(&mut value, letters) == there);
    is_written(rt, alloc, &value, want);
    drop(value);
}

/// Asserts that `put_by_path` changes `TEXT` to `want`, and that a failed call changes nothing.
fn puts(rt: &impl Abort, alloc: Global, letters: &str, there: bool, want: &str) {
    let mut value = object_with(rt, alloc, letters, there);
    if let Err(refused) = put_by_path(&mut value, key(rt, alloc, letters)) {
        is_written(rt, alloc, &value, TEXT);
        assert!(*rt; refused.key.eq_str(letters) && value.is_object());
        put_by_path(&mut value, refused.key).expect(rt, "room");
    }
    is_written(rt, alloc, &value, want);
    drop(value);
}

/// Checks that setting the value of a key changes only that value.
#[test]
fn values_beside_keys(rt: HostRuntime) {
    for &(key, there, put) in &WRITTEN {
        writes(&rt, rt.alloc(), key, there, if there { put } else { TEXT });
        puts(&rt, rt.alloc(), key, there, put);
    }
}

/// JSON texts, each with the text after a Boolean value is negated.
#[rattlefmt::skip]
static TURNED: [(&str, &str); 7] = [
    ("true", "false"), ("false", "true"), ("null", "null"), ("1", "1"), (r#""true""#, r#""true""#),
    ("[true]", "[true]"), (r#"{"true":true}"#, r#"{"true":true}"#),
];

#[test]
fn truth_values_turned(rt: HostRuntime) {
    for &(text, want) in &TURNED {
        let mut value = parsed(&rt, rt.alloc(), text);
        turn_truth(&mut value);
        is_written(&rt, rt.alloc(), &value, want);
        drop(value);
    }
}

#[test]
fn texts_with_another_value(rt: HostRuntime) {
    let written = granted!(&rt; JsonError::Memory; with_true(rt.alloc(), TEXT, "/b/0"));
    assert!(rt; written.as_str() == r#"{"a":1,"b":[true]}"#);
}
