//! Iterators over the elements of an array.
ghost use Rattle.std.specs.Prelude.{◌≡◌, length, Some, IfSome};
ghost use Rattle.std.specs.Iterator.{YieldsFirst, item_count, at_most, UpTo};
ghost use Rattle.std.specs.Iterator.SizeHint.{IsWithinCount};
ghost use Rattle.std.specs.Borrow.{sem};
ghost use Rattle.std.specs.Iterator.Adapters.{IterMutYieldsInOrder, IterYieldsInOrder};
ghost use Rattle.std.specs.Slice.Iter.{iter_mut_rest, iter_rest};
ghost use Rattle.ijson_value.specs.LendsItems.{LendsItemsInTurn};
ghost use Rattle.ijson_value.specs.WellFormed.{WellFormed};

use super::IArray;
use crate::value::IValue;
use std::iter::FusedIterator;
use std::marker::Model;
use std::{fmt, slice, vec};

/// An iterator that moves the elements out of an array.
///
/// Dropping the iterator drops the remaining elements.
#[derive(Drop)]
pub struct IntoIter {
    left: vec::IntoIter<IValue>,
}

impl Model for IntoIter {
    ghost use Rattle.std.specs.Prelude.{List};
    ghost use Rattle.std.specs.Vec.Iter.{into_iter_items};
    ghost use Rattle.std.specs.Coded.{coded_list};
    ghost use Rattle.ijson_value.specs.WellFormed.{WellFormed};
    ghost use Rattle.ijson_value.specs.laws.WellFormedCode.{well_formed_code};

    ghost Value = { List WellFormed };

    ghost coded = { coded_list well_formed_code };

    ghost view = { λ i. into_iter_items i.left };
}

impl IArray {
    /// Returns an iterator over the elements. Does not allocate.
    pub fn iter(&self) -> slice::Iter<'_, IValue>
        ensures items { iter_rest result ≡ self.now.items }
        ensures runs { IterYieldsInOrder WellFormed }
    {
        self.as_slice().iter()
    }
}

/// Moves the elements out of the array, first to last, without copying them.
impl IntoIterator for IArray {
    type Item = IValue;

    type IntoIter = IntoIter;

    ghost into_iter_gives = { λ array items. items ≡ array.items };

    fn into_iter(self) -> IntoIter {
        let left = match self.list {
            None => Vec::new(self.alloc).into_iter(),
            Some(list) => Box::into_inner(list).into_iter(),
        };
        IntoIter { left }
    }
}

/// Supports `for item in &array`. See `iter`.
impl<'a> IntoIterator for &'a IArray {
    type Item = &'a IValue;

    type IntoIter = slice::Iter<'a, IValue>;

    ghost into_iter_gives = { λ array items. (iter_rest items ≡ array.now.items) × IterYieldsInOrder WellFormed };

    fn into_iter(self) -> slice::Iter<'a, IValue> {
        self.iter()
    }
}

/// Supports `for item in &mut array`. See `as_mut_slice`.
impl<'a> IntoIterator for &'a mut IArray {
    type Item = &'a mut IValue;

    type IntoIter = slice::IterMut<'a, IValue>;

    ghost into_iter_gives = { λ array items. (iter_mut_rest items ≡ array.now.items) × IterMutYieldsInOrder WellFormed };

    fn into_iter(self) -> slice::IterMut<'a, IValue>
        ensures* writes_back { sem 𝓛 (LendsItemsInTurn self.entry result) }
        ensures into_iter_gives { (iter_mut_rest result ≡ self.old.items) × IterMutYieldsInOrder WellFormed }
    {
        self.as_mut_slice().iter_mut()
    }
}

/// Yields each element once, first to last, and then always `None`. Does not allocate.
impl Iterator for IntoIter {
    type Item = IValue;

    ghost next_gives = { YieldsFirst (λ s. s) };

    ghost remaining = { item_count (λ s. s) };

    fn next(&mut self) -> Option<IValue> {
        self.left.next()
    }

    fn size_hint(&self) -> (usize, Option<usize>)
        ensures lower { IsWithinCount result.0 (at_most (length self.now)) }
        ensures upper { IfSome result.1 (UpTo (at_most (length self.now))) }
        ensures exact { (result.0 ≡ length self.now) × (result.1 ≡ Some (length self.now)) }
    {
        let len = self.len();
        (len, Some(len))
    }
}

impl FusedIterator for IntoIter {}

impl ExactSizeIterator for IntoIter {
    fn len(&self) -> usize {
        self.left.len()
    }
}

/// Formats the remaining elements.
impl fmt::Debug for IntoIter {
    fn fmt<W: fmt::Write>(&self, f: &mut fmt::Formatter<W>) -> fmt::Result {
        fmt::Debug::fmt(&self.left, f)
    }
}
