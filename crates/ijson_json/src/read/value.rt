//! Reading of any value: arrays and objects here, all other values in `scalar`.

ghost use Rattle.std.specs.Prelude.{◌≡◌, ◌≢◌, ◌⊎◌, ◌∷◌, ◌<◌, ◌≤◌, IsTrue, IsFalse};
ghost use Rattle.ijson_json.specs.Limits.{max_depth};
ghost use Rattle.ijson_json.specs.private.ReadsValue.{ReadsValue};

use crate::fault::Fault;
use crate::read::delimiter::Delimiter;
use crate::read::scalar::read_scalar;
use crate::read::scratch::{Scratch, push_read, take_items, take_members};
use crate::read::string::read_key;
use crate::scan::prefix::{split_ascii, strip_byte};
use crate::scan::space::skip_space;
use ijson_string::StringCache;
use ijson_value::array::IArray;
use ijson_value::object::IObject;
use ijson_value::value::IValue;
use std::alloc::Global;
use std::hash::BuildHasher;

/// The maximum number of open containers.
const MAX_DEPTH: usize = 127;

/// Returns `true` if the byte is an opening bracket.
#[inline(always)]
fn opens_container(byte: u8) -> bool
    ensures opens { IsTrue result → (byte ≡ 91) ⊎ (byte ≡ 123) }
    ensures apart { IsFalse result → (byte ≢ 91) × (byte ≢ 123) }
{
    byte == b'[' || byte == b'{'
}

/// Reads the leading value, with `opened` containers open. Returns the value and the text after it.
#[cycle(read)]
#[inline(always)]
pub(crate) fn read_value<'a, S: BuildHasher>(
    alloc: Global,
    cache: &mut StringCache<S>,
    scratch: &mut Scratch,
    text: &'a str,
    opened: usize,
) -> Result<(IValue, &'a str), Fault>
    requires { opened ≤ max_depth }
    ensures { ReadsValue opened text.now result cache.old cache.new scratch.old scratch.new }
{
    let Some((first, inside)) = split_ascii(text) else {
        return Err(Fault::Syntax { left: text.len() });
    };
    if opens_container(first) {
        return read_container(alloc, cache, scratch, text, first, inside, opened);
    }
    read_scalar(alloc, cache, &mut scratch.content, text, first)
}

/// Reads the leading array or object, which begins with the bracket `first`.
///
/// Fails if the maximum number of containers is open.
///
/// Inlined, but `read_array` and `read_object` are not: their return slot is zeroed only if the
/// value is a container, and a scalar is returned without such a slot.
#[cycle(read)]
#[inline(always)]
fn read_container<'a, S: BuildHasher>(
    alloc: Global,
    cache: &mut StringCache<S>,
    scratch: &mut Scratch,
    text: &'a str,
    first: u8,
    inside: &'a str,
    opened: usize,
) -> Result<(IValue, &'a str), Fault>
    requires opened { opened ≤ max_depth }
    requires begins { text.now ≡ first ∷ inside.now }
    requires opens { (first ≡ 91) ⊎ (first ≡ 123) }
    ensures { ReadsValue opened text.now result cache.old cache.new scratch.old scratch.new }
{
    if opened == MAX_DEPTH {
        return Err(Fault::TooDeep { left: text.len() });
    }
    let read = if first == b'[' {
        read_array(alloc, cache, scratch, inside, opened)
    } else {
        read_object(alloc, cache, scratch, inside, opened)
    };
    let (container, rest) = read?;
    Ok((container, rest))
}

/// Reads the elements of an array. `inside` is the text after the opening bracket.
///
/// The elements are collected on a stack in `scratch`, so that each array is allocated once, in its
/// final size.
#[cycle(read)]
#[inline(never)]
fn read_array<'a, S: BuildHasher>(
    alloc: Global,
    cache: &mut StringCache<S>,
    scratch: &mut Scratch,
    inside: &'a str,
    opened: usize,
) -> Result<(IValue, &'a str), Fault>
    requires { opened < max_depth }
    ensures { ReadsValue opened (91 ∷ inside.now) result cache.old cache.new scratch.old scratch.new }
{
    let mut rest = skip_space(inside);
    if let Some(behind) = strip_byte(rest, b']') {
        return Ok((IValue::from(IArray::new(alloc)), behind));
    }
    let base = scratch.values.len();
    loop {
        let (item, after) = read_value(alloc, cache, scratch, rest, opened + 1)?;
        match push_read(&mut scratch.values, item, after, b']')? {
            Delimiter::Comma(next) => rest = next,
            Delimiter::End(behind) => {
                let items = take_items(alloc, &mut scratch.values, base)?;
                return Ok((IValue::from(items), behind));
            }
        }
    }
}

/// Reads the members of an object. `inside` is the text after the opening bracket.
///
/// A duplicate key replaces the earlier value.
#[cycle(read)]
#[inline(never)]
fn read_object<'a, S: BuildHasher>(
    alloc: Global,
    cache: &mut StringCache<S>,
    scratch: &mut Scratch,
    inside: &'a str,
    opened: usize,
) -> Result<(IValue, &'a str), Fault>
    requires { opened < max_depth }
    ensures { ReadsValue opened (123 ∷ inside.now) result cache.old cache.new scratch.old scratch.new }
{
    let mut rest = skip_space(inside);
    if let Some(behind) = strip_byte(rest, b'}') {
        return Ok((IValue::from(IObject::new(alloc)), behind));
    }
    let base = scratch.members.len();
    loop {
        let (key, start) = read_key(cache, &mut scratch.content, rest)?;
        let (value, after) = match read_value(alloc, cache, scratch, start, opened + 1) {
            Ok((value, after)) => (value, after),
            Err(fault) => {
                drop(key);
                return Err(fault);
            }
        };
        match push_read(&mut scratch.members, (key, value), after, b'}')? {
            Delimiter::Comma(next) => rest = next,
            Delimiter::End(behind) => {
                let object = take_members(alloc, &mut scratch.members, base)?;
                return Ok((IValue::from(object), behind));
            }
        }
    }
}
