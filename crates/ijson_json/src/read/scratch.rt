//! Elements and members that were read, but whose array or object has not ended.

ghost use Rattle.std.specs.Prelude.{◌≡◌, [], ◌∷◌, ◌++◌, ◌⊎◌, ◌<◌, ◌≤◌, length, take, drop, vec_capacity, IfOk, IfErr, OnOk};
ghost use Rattle.ijson_table.specs.Store.{put_each};
ghost use Rattle.ijson_json.specs.private.Delimiters.{DelimiterAt, NoDelimiter};
ghost use Rattle.ijson_json.specs.declared.fault.Fault.TheVariants.{Memory};

use crate::fault::Fault;
use crate::read::delimiter::{Delimiter, read_delimiter};
use ijson_string::IString;
use ijson_value::array::IArray;
use ijson_value::object::IObject;
use ijson_value::value::IValue;
use std::alloc::{AllocError, Global};
use std::mem;

/// If a stack has more elements or members than this, and all of them are taken, the list of the
/// stack is moved instead of copied.
const MANY_ITEMS: usize = 64;

/// The elements, members and string content that are not part of a value yet.
#[derive(Drop)]
pub(crate) struct Scratch {
    /// A stack of the elements of the open arrays, the innermost array on top.
    pub(crate) values: Vec<IValue>,
    /// A stack of the members of the open objects, the innermost object on top.
    pub(crate) members: Vec<(IString, IValue)>,
    /// A buffer for the decoded content of a string with an escape.
    pub(crate) content: String,
}

/// Pushes `read`, and reads the delimiter after it, in a container that the bracket `closing`
/// closes.
#[tactic(auto, using(crate::proofs::faults::ElementFaults::behind_element))]
#[inline(always)]
pub(crate) fn push_read<'a, T: Drop>(
    stack: &mut Vec<T>,
    read: T,
    after: &'a str,
    closing: u8,
) -> Result<Delimiter<'a>, Fault>
    requires { closing < 128 }
    ensures pushed { OnOk result (stack.new.items ≡ stack.old.items ++ read ∷ []) }
    ensures delimiter { IfOk result (λ delimiter. DelimiterAt closing after.now delimiter) }
    ensures fault { IfErr result (λ fault. (fault ≡ Memory) ⊎ NoDelimiter closing after.now fault) }
{
    stack.push(read)?;
    read_delimiter(after, closing)
}

/// Removes the elements from index `base` on, and returns them as a list.
///
/// If `base` is 0 and the stack has more than 64 elements, moves the list of the stack instead of
/// copying elements. Afterwards the stack is empty and has capacity 0.
fn take_from<T: Drop>(alloc: Global, stack: &mut Vec<T>, base: usize) -> Result<Vec<T>, AllocError>
    requires { base ≤ length stack.old.items }
    ensures taken { IfOk result (λ taken. taken.items ≡ drop base stack.old.items) }
    ensures left { OnOk result (stack.new.items ≡ take base stack.old.items) }
    ensures moved { IfOk result (λ taken. base ≡ 0 → 64 < length stack.old.items
        → vec_capacity taken ≡ vec_capacity stack.old) }
    ensures spent { OnOk result (base ≡ 0 → 64 < length stack.old.items → vec_capacity stack.new ≡ 0) }
{
    if base == 0 && stack.len() > MANY_ITEMS {
        return Ok(mem::replace(stack, Vec::new(alloc)));
    }
    stack.split_off(base)
}

/// Removes the elements from index `base` on, and returns them as an array.
///
/// The array has the capacity of the stack if `take_from` moved the stack, otherwise no spare
/// capacity.
pub(crate) fn take_items(
    alloc: Global,
    stack: &mut Vec<IValue>,
    base: usize,
) -> Result<IArray, AllocError>
    requires { base ≤ length stack.old.items }
    ensures items { IfOk result (λ array. array.items ≡ drop base stack.old.items) }
    ensures stack { OnOk result (stack.new.items ≡ take base stack.old.items) }
    ensures moved { IfOk result (λ array. base ≡ 0 → 64 < length stack.old.items
        → array.capacity ≡ vec_capacity stack.old) }
{
    let items = take_from(alloc, stack, base)?;
    Ok(IArray::from_vec(alloc, items)?)
}

/// Removes the members from index `base` on, and returns them as an object without spare capacity.
pub(crate) fn take_members(
    alloc: Global,
    stack: &mut Vec<(IString, IValue)>,
    base: usize,
) -> Result<IObject, AllocError>
    requires { base ≤ length stack.old.items }
    ensures members { IfOk result (λ object.
        object.pairs ≡ put_each [] (drop base stack.old.items)) }
    ensures room { IfOk result (λ object. object.capacity ≡ length object.pairs) }
    ensures stack { OnOk result (stack.new.items ≡ take base stack.old.items) }
    // If `take_from` moved the list of the stack, the new stack has capacity 0.
    ensures spent { OnOk result (base ≡ 0 → 64 < length stack.old.items → vec_capacity stack.new ≡ 0) }
{
    let members = take_from(alloc, stack, base)?;
    let read = members.len();
    let mut object = IObject::from_pairs(alloc, members).map_err(|_| AllocError)?;
    if object.len() == read {
        return Ok(object);
    }
    // Duplicate keys leave spare capacity.
    match object.shrink_to_fit() {
        Ok(()) => Ok(object),
        Err(_) => {
            drop(object);
            Err(AllocError)
        }
    }
}
