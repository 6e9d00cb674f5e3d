//! Tests of callers whose contracts state the entries of an object, and of the closure of `retain`.
ghost use Rattle.std.specs.Prelude.{◌≡◌, ◌≢◌, [], ◌∷◌, true, false, OnOk};
ghost use Rattle.std.specs.Option.{unwrap_or};
ghost use Rattle.ijson_table.specs.Store.{lookup, put};
ghost use Rattle.ijson_value.specs.Values.{boolean_value};

use super::spelled;
use crate::object::IObject;
use crate::string::IString;
use crate::table::ReserveError;
use crate::tests::caches::empty_cache;
use crate::tests::shown::is_shown;
use crate::tests::support::set;
use crate::value::IValue;
use std::process::Abort;

/// Inserts `key` with the value false, unless `key` exists.
fn put_false(object: &mut IObject, key: &IString) -> Result<(), ReserveError>
    ensures { OnOk result (object.new.pairs ≡ put object.old.pairs key.now
        (unwrap_or (lookup key.now object.old.pairs) (boolean_value false))) }
{
    object.entry_or_clone(key)?.or_insert(IValue::FALSE);
    Ok(())
}

fn put_two(object: &mut IObject, first: &IString, second: &IString) -> Result<(), ReserveError>
    requires empty { object.old.pairs ≡ [] }
    requires apart { first.now ≢ second.now }
    ensures { OnOk result (object.new.pairs
        ≡ (first.now, boolean_value false) ∷ (second.now, boolean_value true) ∷ []) }
{
    put_false(object, first)?;
    put_false(object, second)?;
    *object.get_mut(second).unwrap() = IValue::TRUE;
    Ok(())
}

/// Retains the entries with the value true. Returns whether an iterator over the object then yields
/// an entry, and whether the iterator ends after that entry.
fn keep_true(object: &mut IObject, first: &IString, second: &IString) -> (bool, bool)
    requires { object.old.pairs ≡ (first.now, boolean_value false) ∷ (second.now, boolean_value true) ∷ [] }
    ensures list { object.new.pairs ≡ (second.now, boolean_value true) ∷ [] }
    ensures seen { result ≡ (true, true) }
{
    object.retain(|_key, value| value.is_true());
    let mut pairs = object.iter();
    (pairs.next().is_some(), pairs.next().is_none())
}

// `put_two` requires two different strings, which no contract of `key` guarantees.
#[test]
fn two_are_put_and_one_is_kept(rt: HostRuntime) {
    let alloc = rt.alloc();
    let mut cache = empty_cache(alloc);
    let first = IString::intern(&mut cache, "a").expect(&rt, "a text");
    let second = IString::intern(&mut cache, "b").expect(&rt, "a text");
    drop(cache);
    let mut object = granted!(&rt; ReserveError::Memory; IObject::with_capacity(alloc, 2));
    put_two(&mut object, &first, &second).expect(&rt, "two pairs");
    let (one, none) = keep_true(&mut object, &first, &second);
    assert!(rt; one && none);
    drop(object);
    drop(first);
    drop(second);
}

/// Retains the even numbers, and multiplies each value by ten. The closure must be called exactly
/// once for each of the six entries.
fn retains(rt: &impl Abort, object: &mut IObject) {
    let mut asked = 7usize;
    object.retain(|_key, value| {
        let number = value.to_usize().unwrap_or(99);
        asked = asked.wrapping_mul(10).wrapping_add(number);
        set(value, IValue::from(number.wrapping_mul(10)));
        number % 2 == 0
    });
    assert!(*rt; asked == 7_015_423);
}

#[test]
fn retained(rt: HostRuntime) {
    let mut object = spelled(&rt, rt.alloc(), ("001122334455", 8));
    counted!(rt.alloc(); retains(&rt, &mut object));
    assert!(rt; object.capacity() == 8);
    is_shown(&rt, rt.alloc(), &object, r#"{"0": 0, "4": 40, "2": 20}"#);
    drop(object);
}
