//! Tests of reading, writing, removing and adding values at an index or a key.
ghost use Rattle.std.specs.Prelude.{◌≡◌, IsSome, IsTrue, IsFalse, not};
ghost use Rattle.ijson_value.specs.Kind.{kind_of};
ghost use Rattle.ijson_value.specs.declared.value.ValueType.TheVariants as kind;
ghost use Rattle.ijson_value.specs.Step.{by_position, by_key, kind_for, tree_at, tree_with};
ghost use Rattle.ijson_value.specs.Tree.{boolean, null};

use super::built::Part::{self, Array, Bool, Characters, Null, Number, Numbers, Object};
use super::built::built;
use super::moves::capacity_of;
use crate::string::IString;
use crate::tests::caches::key;
use crate::tests::shown::is_shown;
use crate::tests::support::set;
use crate::value::{Destructured, IValue};
use std::alloc::Global;
use std::process::Abort;

/// Sets the element at the index `position` to null.
#[tactic(auto, using(ijson_value::specs::laws::Steps::tree_with_step))]
fn clear_item(value: &mut IValue, position: usize)
    requires { IsSome (tree_at value.old.tree (by_position position)) }
    ensures { value.new.tree ≡ tree_with value.old.tree (by_position position) null }
{
    value[position] = IValue::NULL;
}

/// Sets the value of `key` to null, and returns `true` if the key exists.
#[tactic(auto, using(ijson_value::specs::laws::Steps::tree_with_step))]
fn clear_member(value: &mut IValue, key: &str) -> bool
    requires { kind_of value.old.tree ≡ kind_for (by_key key.now) }
    ensures there { IsTrue result → value.new.tree ≡ tree_with value.old.tree (by_key key.now) null }
    ensures missing { IsFalse result → value.new ≡ value.old }
{
    match value.get_mut(key) {
        Some(found) => {
            *found = IValue::NULL;
            true
        }
        None => false,
    }
}

/// Negates the Boolean `value`, which is equal to `was`.
fn turn(value: &mut IValue, was: bool)
    requires { value.old.tree ≡ boolean was }
    ensures { value.new.tree ≡ boolean (not was) }
{
    if let Destructured::Bool(truth) = &mut **value {
        *truth = !*truth;
    }
}

/// Sets the second element of the array at key `b` to null, and returns `true` if it exists.
fn edit(value: &mut IValue) -> bool
    requires { kind_of value.old.tree ≡ kind.Object }
{
    let Some(items) = value.get_mut(&"b") else {
        return false;
    };
    if !items.is_array() || items.get(1usize).is_none() {
        return false;
    }
    clear_item(items, 1);
    true
}

/// A step into a value: an index, or a key of type `&str`, `&&str` or `&IString`.
#[derive(Clone, Copy)]
enum Step {
    Index(usize),
    Key(&'static str),
    Reference(&'static str),
    Interned(&'static str),
}

/// A call on a value. Each call keeps the capacity of the value.
#[derive(Clone, Copy)]
enum Call {
    Get(Step),
    /// Writes a number at a step. The reply is the old value.
    Put(Step, usize),
    Remove(Step),
    /// Sets the value of an old or new key to a number. The reply is the old value, or null.
    Insert(&'static str, usize),
    /// Appends a number to the array, and reverses the elements twice.
    Push(usize),
    /// Calls `clear_member`. The reply is `true` if the key exists.
    Clear(&'static str),
    /// Calls `edit`. The reply is `true` if the element exists.
    Edit,
    /// Calls `turn` for the value true.
    Turn,
}

use Call::{Clear, Edit, Get, Insert, Push, Put, Remove, Turn};
use Step::{Index, Interned, Key, Reference};

/// Creates a table of scripts: the parts of a value, calls with the debug output of their replies,
/// and the debug output of the resulting value, or `None` if the value is unchanged.
macro_rules! scripts {
    ($($parts:tt { $($call:expr => $reply:expr),* } $left:expr;)*) => {
        [$((&$parts, &[$(($call, $reply)),*], $left)),*]
    };
}

static SCRIPTS: [(&[Part], &[(Call, Option<&str>)], Option<&str>); 7] = scripts! {
    [Number("1"), Number("2"), Number("3"), Array(2), Number("0.5"), Object(&["d"]), Object(&["a", "b", "c"])] {
        Get(Key("a")) => Some("1"),
        Get(Reference("b")) => Some("[2, 3]"),
        Get(Key("e")) => None,
        Get(Interned("e")) => None,
        Put(Reference("e"), 1) => None,
        Remove(Reference("e")) => None,
        Clear("e") => Some("false"),
        Edit => Some("true"),
        Clear("c") => Some("true"),
        Remove(Key("a")) => Some("1")
    } Some(r#"{"c": null, "b": [2, null]}"#);
    [Null, Null, Null, Array(3)] { Remove(Index(0)) => Some("null") } Some("[null, null]");
    [Array(0)] { Get(Index(0)) => None, Put(Index(0), 1) => None, Remove(Index(0)) => None } None;
    [Bool(true)] { Turn => None } Some("false");
    [Number("1"), Number("2"), Number("3"), Number("4"), Object(&["a", "b", "c", "d"])] { Put(Key("c"), 3) => Some("3") } None;
    [Characters(100)] {
        Get(Interned("\u{4e62}")) => Some("98"),
        Put(Interned("\u{4e62}"), 98) => Some("98"),
        Remove(Interned("\u{4e62}")) => Some("98"),
        Insert("\u{4e62}", 98) => Some("null"),
        Insert("\u{4e62}", 98) => Some("98")
    } None;
    [Numbers(100)] {
        Get(Index(99)) => Some("99"),
        Put(Index(99), 99) => Some("99"),
        Remove(Index(99)) => Some("99"),
        Push(99) => None
    } None;
};

/// Calls a method of the value with the index or the key of a step.
macro_rules! step {
    ($rt:expr, $alloc:expr; $value:ident.$call:ident($step:expr)) => {
        match $step {
            Index(index) => {
                assert!(*$rt; $value.is_array());
                $value.$call(index)
            }
            Key(key) => {
                assert!(*$rt; $value.is_object());
                $value.$call(key)
            }
            Reference(key) => {
                assert!(*$rt; $value.is_object());
                $value.$call(&key)
            }
            Interned(letters) => {
                assert!(*$rt; $value.is_object());
                let key = key($rt, $alloc, letters);
                let item = $value.$call(&key);
                drop(key);
                item
            }
        }
    };
}

fn found<'a>(rt: &impl Abort, alloc: Global, value: &'a IValue, step: Step) -> Option<&'a IValue> {
    step!(rt, alloc; value.get(step))
}

/// Replaces the value in `place` by `number`, and returns the old value.
fn replaced(place: &mut IValue, number: usize) -> Option<IValue> {
    let old = place.take();
    set(place, IValue::from(number));
    Some(old)
}

/// Sets the value of `key` to `number`, and returns the old value, or null if the key was missing.
fn inserted(rt: &impl Abort, value: &mut IValue, key: IString, number: usize) -> Option<IValue> {
    assert!(*rt; value.is_object());
    replaced(value.index_or_insert(key).expect(rt, "room"), number)
}

fn pushed(rt: &impl Abort, value: &mut IValue, number: usize) -> Option<IValue> {
    let array = value.as_array_mut().expect(rt, "an array");
    array.push(IValue::from(number)).expect(rt, "room");
    array.as_mut_slice().reverse();
    array.as_mut_slice().reverse();
    None
}

fn changed(rt: &impl Abort, alloc: Global, value: &mut IValue, call: Call) -> Option<IValue> {
    match call {
        Get(_) => None,
        Put(step, number) => replaced(step!(rt, alloc; value.get_mut(step))?, number),
        Remove(step) => step!(rt, alloc; value.remove(step)),
        Insert(letters, number) => inserted(rt, value, key(rt, alloc, letters), number),
        Push(number) => pushed(rt, value, number),
        Turn => {
            assert!(*rt; value.is_true());
            turn(value, true);
            None
        }
        Clear(key) => {
            assert!(*rt; value.is_object());
            Some(IValue::from(clear_member(value, key)))
        }
        Edit => {
            assert!(*rt; value.is_object());
            Some(IValue::from(edit(value)))
        }
    }
}

/// Asserts that `reply` has the debug output `want`, or that both are `None`.
fn is_reply(rt: &impl Abort, alloc: Global, reply: Option<&IValue>, want: Option<&str>) {
    assert!(*rt; reply.is_some() == want.is_some());
    if let (Some(value), Some(want)) = (reply, want) {
        is_shown(rt, alloc, value, want);
    }
}

/// Asserts that the reply to `call` is `want`, without an allocation or a change of capacity.
fn runs(rt: &impl Abort, alloc: Global, value: &mut IValue, call: Call, want: Option<&str>) {
    let capacity = capacity_of(value);
    if let Get(step) = call {
        let reply = counted!(alloc; found(rt, alloc, value, step));
        is_reply(rt, alloc, reply, want);
    } else {
        let reply = counted!(alloc; changed(rt, alloc, value, call));
        is_reply(rt, alloc, reply.as_ref(), want);
        drop(reply);
    }
    assert!(*rt; capacity_of(value) == capacity);
}

#[test]
fn steps(rt: HostRuntime) {
    let alloc = rt.alloc();
    for &(parts, calls, left) in &SCRIPTS {
        let mut value = built(&rt, alloc, parts);
        assert!(rt; capacity_of(&value) == value.len());
        for &(call, want) in calls {
            runs(&rt, alloc, &mut value, call, want);
        }
        let same = built(&rt, alloc, parts);
        match left {
            Some(left) => is_shown(&rt, alloc, &value, left),
            None => assert!(rt; value == same),
        }
        drop(same);
        drop(value);
    }
}
