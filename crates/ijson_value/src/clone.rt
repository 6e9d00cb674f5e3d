//! Copying of values, arrays and objects.
ghost use Rattle.std.specs.Prelude.{◌≡◌, IfOk, IsOk, length};

use crate::array::IArray;
use crate::object::IObject;
use crate::value::{Destructured, IValue};
use ijson_string::IString;
use std::alloc::{AllocError, Global};

/// Returns a copy of `value`.
///
/// Inlined, so that a loop over elements makes a call only for an array or an object.
#[cycle(clone)]
#[inline(always)]
fn clone_value(value: &IValue) -> Result<IValue, AllocError>
    ensures { IfOk result (λ copy. copy ≡ value.now) }
{
    let node = match &value.node {
        Destructured::Null => Destructured::Null,
        Destructured::Bool(b) => Destructured::Bool(*b),
        Destructured::Number(number) => Destructured::Number(number.clone()?),
        Destructured::String(text) => Destructured::String(text.clone()?),
        Destructured::Array(array) => Destructured::Array(clone_items(
            array.allocator(),
            array.as_slice(),
        )?),
        Destructured::Object(object) => Destructured::Object(clone_object(object)?),
    };
    Ok(IValue { node })
}

/// Returns an array of copies of `items`.
///
/// An empty slice does not allocate.
#[cycle(clone)]
#[inline(never)]
fn clone_items(alloc: Global, items: &[IValue]) -> Result<IArray, AllocError>
    ensures items { IfOk result (λ copy. copy.items ≡ items.now) }
    ensures room { IfOk result (λ copy. copy.capacity ≡ length items.now) }
    ensures none { length items.now ≡ 0 → IsOk result }
{
    let mut copies = Vec::with_capacity(alloc, items.len())?;
    for item in items {
        let copy = clone_value(item)?;
        copies.push_reserved(copy);
    }
    IArray::of_list(alloc, copies)
}

/// Returns a copy of `object`, without spare capacity.
///
/// An empty object does not allocate.
#[cycle(clone)]
#[inline(never)]
fn clone_object(object: &IObject) -> Result<IObject, AllocError>
    ensures pairs { IfOk result (λ copy. copy.pairs ≡ object.now.pairs) }
    ensures room { IfOk result (λ copy. copy.capacity ≡ length object.now.pairs) }
    ensures none { length object.now.pairs ≡ 0 → IsOk result }
{
    let pairs = clone_pairs(object.allocator(), object.as_slice())?;
    object.with_same_keys(pairs)
}

/// Returns copies of `pairs`.
#[cycle(clone)]
fn clone_pairs(
    alloc: Global,
    pairs: &[(IString, IValue)],
) -> Result<Vec<(IString, IValue)>, AllocError>
    ensures pairs { IfOk result (λ copies. copies.items ≡ pairs.now) }
    ensures none { length pairs.now ≡ 0 → IsOk result }
{
    let mut copies = Vec::with_capacity(alloc, pairs.len())?;
    for pair in pairs {
        let key = pair.0.clone()?;
        match clone_value(&pair.1) {
            Ok(value) => copies.push_reserved((key, value)),
            Err(refused) => {
                drop(key);
                return Err(refused);
            }
        }
    }
    Ok(copies)
}

/// Copies a value. The copy shares the strings of the original.
///
/// Allocates for each nonempty array or object and for each boxed number. If many keys of an object
/// collide, allocates to sort them.
///
/// # Errors
///
/// Returns `AllocError` if an allocation fails or the reference count of a string is saturated. The
/// partial copy is dropped.
///
/// # Cost
///
/// Linear in the size of the value and in the capacities of its objects. If many keys of an object
/// collide, at most `n log n` in the number of its entries. An object without spare capacity hashes
/// no keys. Any other object hashes each key once, or twice if many keys collide.
impl Clone for IValue {
    ghost is_clone = { λ v copy. copy ≡ v };

    fn clone(&self) -> Result<IValue, AllocError> {
        clone_value(self)
    }
}

/// Copies the elements. The capacity of the copy is the number of elements.
///
/// See `IValue::clone` for errors and cost.
impl Clone for IArray {
    ghost is_clone = { λ a copy. (copy.items ≡ a.items) × (copy.capacity ≡ length a.items) };

    ghost is_infallible = { λ a. length a.items ≡ 0 };

    fn clone(&self) -> Result<IArray, AllocError> {
        clone_items(self.allocator(), self.as_slice())
    }
}

/// Copies the entries in order. The capacity of the copy is the number of entries.
///
/// See `IValue::clone` for errors and cost.
impl Clone for IObject {
    ghost is_clone = { λ o copy. (copy.pairs ≡ o.pairs) × (copy.capacity ≡ length o.pairs) };

    ghost is_infallible = { λ o. length o.pairs ≡ 0 };

    fn clone(&self) -> Result<IObject, AllocError> {
        clone_object(self)
    }
}

impl IArray {
    /// Creates an array of copies of `items`.
    ///
    /// The capacity is the number of elements. An empty slice does not allocate. The copies share
    /// the strings of the originals. See `IValue::clone` for errors and cost.
    pub fn from_slice(alloc: Global, items: &[IValue]) -> Result<IArray, AllocError>
        ensures items { IfOk result (λ array. array.items ≡ items.now) }
        ensures room { IfOk result (λ array. array.capacity ≡ length items.now) }
        ensures none { length items.now ≡ 0 → IsOk result }
    {
        clone_items(alloc, items)
    }
}
