//! Writing JSON: `push_value` appends any value, and `quote` appends strings.
//!
//! The length of the text is not computed first. The output grows as it is written.
ghost use Rattle.std.specs.Prelude.{◌≡◌, ◌++◌, IfOk, OnOk, OnErr};
ghost use Rattle.std.specs.String.{string_bytes};
ghost use Rattle.ijson_value.specs.WellFormed.{item_trees, pair_trees};
ghost use Rattle.ijson_json.specs.Print.{print, print_items, print_members};
ghost use Rattle.ijson_json.specs.Separator.{separator};

mod quote;

use ijson_value::object::IObject;
use ijson_value::value::{DestructuredRef, IValue};
use quote::{push_member_key, push_string};
pub use quote::{push_key, push_quoted};
use std::alloc::{AllocError, Global};

/// The initial capacity, in bytes, of the text that `to_json` writes. Short text needs one
/// allocation.
pub const INITIAL_CAPACITY: usize = 128;

/// Returns the JSON text of `value`, without white space.
///
/// Objects keep the order of their members. Numbers keep whether they have a decimal point.
///
/// ```
/// let text = to_json(alloc, &value)?; // {"a":[1.5,100.0]} after reading { "a" : [1.50, 1e2] }
/// ```
///
/// # Errors
///
/// Returns `AllocError` if an allocation fails.
///
/// # Cost
///
/// Time and memory are linear in the length of the text. The capacity is 128 bytes at first and
/// doubles as needed. The depth is not limited: the function recurses once per level, so a very
/// deep value can overflow the stack.
pub fn to_json(alloc: Global, value: &IValue) -> Result<String, AllocError>
    ensures { IfOk result (λ text. string_bytes text ≡ print value.now.tree) }
{
    let mut out = String::with_capacity(alloc, INITIAL_CAPACITY)?;
    push_value(&mut out, value)?;
    Ok(out)
}

/// Appends the JSON text of `value`.
#[cycle(push)]
#[inline(always)]
pub(crate) fn push_value(out: &mut String, value: &IValue) -> Result<(), AllocError>
    ensures { OnOk result (string_bytes out.new ≡ string_bytes out.old ++ print value.now.tree) }
{
    match value.destructure_ref() {
        DestructuredRef::Null => out.push_str("null"),
        DestructuredRef::Bool(false) => out.push_str("false"),
        DestructuredRef::Bool(true) => out.push_str("true"),
        DestructuredRef::Number(number) => number.push_to(out),
        DestructuredRef::String(text) => push_string(out, text),
        DestructuredRef::Array(array) => {
            out.push('[')?;
            push_items(out, array.as_slice())?;
            out.push(']')
        }
        DestructuredRef::Object(object) => {
            out.push('{')?;
            push_members(out, object)?;
            out.push('}')
        }
    }
}

/// Appends the elements of an array, separated by commas.
#[cycle(push)]
#[inline(never)]
fn push_items(out: &mut String, items: &[IValue]) -> Result<(), AllocError>
    ensures { OnOk result (string_bytes out.new
        ≡ string_bytes out.old ++ print_items (item_trees items.now)) }
{
    let mut is_first = true;
    for item in items {
        push_separator(out, is_first)?;
        push_value(out, item)?;
        is_first = false;
    }
    Ok(())
}

/// Appends the members of an object, separated by commas.
#[cycle(push)]
#[inline(never)]
fn push_members(out: &mut String, object: &IObject) -> Result<(), AllocError>
    ensures { OnOk result (string_bytes out.new
        ≡ string_bytes out.old ++ print_members (pair_trees object.now.pairs)) }
{
    let mut is_first = true;
    for (key, value) in object.iter() {
        push_member_key(out, key, is_first)?;
        push_value(out, value)?;
        is_first = false;
    }
    Ok(())
}

/// Appends a comma, except before the first element or member.
///
/// # Errors
///
/// Returns `AllocError` if an allocation fails. Then `out` is unchanged.
pub fn push_separator(out: &mut String, is_first: bool) -> Result<(), AllocError>
    ensures written { OnOk result (string_bytes out.new ≡ string_bytes out.old ++ separator is_first) }
    ensures refused { OnErr result (string_bytes out.new ≡ string_bytes out.old) }
{
    if is_first {
        return Ok(());
    }
    out.push(',')
}
