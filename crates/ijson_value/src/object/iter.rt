//! Iterators over the entries, keys and values of an object.
ghost use Rattle.std.specs.Prelude.{◌≡◌, length, map, Some, IfSome};
ghost use Rattle.std.specs.Iterator.{YieldsFirst, YieldsFirstBy, item_count, at_most, UpTo};
ghost use Rattle.std.specs.Iterator.SizeHint.{IsWithinCount};
ghost use Rattle.std.specs.Map.Iter.{deref_pair};
ghost use Rattle.ijson_table.specs.Store.{keys_of};

use crate::object::map::IObject;
use crate::value::IValue;
use ijson_string::IString;
use ijson_table::PairStore;
use std::iter::FusedIterator;
use std::marker::Model;
use std::{fmt, slice, vec};

/// An iterator over the entries of an object.
#[derive(Drop)]
pub struct Iter<'a> {
    left: slice::Iter<'a, (IString, IValue)>,
}

impl<'a> Model for Iter<'a> {
    ghost use Rattle.std.specs.Prelude.{ℕ, List};
    ghost use Rattle.std.specs.Slice.Iter.{iter_rest};
    ghost use Rattle.std.specs.Coded.{coded×, coded_list, coded_ℕ};
    ghost use Rattle.ijson_value.specs.WellFormed.{WellFormed};
    ghost use Rattle.ijson_value.specs.laws.WellFormedCode.{well_formed_code};

    ghost Value = { List (List ℕ × WellFormed) };

    ghost coded = { coded_list (coded× (coded_list coded_ℕ) well_formed_code) };

    ghost view = { λ i. iter_rest i.left };
}

/// An iterator over the keys of an object.
#[derive(Drop)]
pub struct Keys<'a> {
    left: Iter<'a>,
}

impl<'a> Model for Keys<'a> {
    ghost use Rattle.std.specs.Prelude.{ℕ, List};
    ghost use Rattle.std.specs.Coded.{coded_list, coded_ℕ};
    ghost use Rattle.ijson_table.specs.Store.{keys_of};

    ghost Value = { List (List ℕ) };

    ghost coded = { coded_list (coded_list coded_ℕ) };

    ghost view = { λ keys. keys_of keys.left };
}

/// An iterator over the values of an object.
#[derive(Drop)]
pub struct Values<'a> {
    left: Iter<'a>,
}

impl<'a> Model for Values<'a> {
    ghost use Rattle.std.specs.Prelude.{List, map};
    ghost use Rattle.std.specs.Coded.{coded_list};
    ghost use Rattle.ijson_value.specs.WellFormed.{WellFormed};
    ghost use Rattle.ijson_value.specs.laws.WellFormedCode.{well_formed_code};

    ghost Value = { List WellFormed };

    ghost coded = { coded_list well_formed_code };

    ghost view = { λ values. map (λ pair. pair.1) values.left };
}

/// An iterator that moves the entries out of an object.
///
/// Dropping the iterator drops the remaining entries.
#[derive(Drop)]
pub struct IntoIter {
    left: vec::IntoIter<(IString, IValue)>,
}

impl Model for IntoIter {
    ghost use Rattle.std.specs.Prelude.{ℕ, List};
    ghost use Rattle.std.specs.Vec.Iter.{into_iter_items};
    ghost use Rattle.std.specs.Coded.{coded×, coded_list, coded_ℕ};
    ghost use Rattle.ijson_value.specs.WellFormed.{WellFormed};
    ghost use Rattle.ijson_value.specs.laws.WellFormedCode.{well_formed_code};

    ghost Value = { List (List ℕ × WellFormed) };

    ghost coded = { coded_list (coded× (coded_list coded_ℕ) well_formed_code) };

    ghost view = { λ i. into_iter_items i.left };
}

impl IObject {
    /// Returns an iterator over the entries. Does not allocate.
    ///
    /// The `len` of the iterator is the number of remaining entries.
    pub fn iter(&self) -> Iter<'_>
        ensures { result ≡ self.now.pairs }
    {
        Iter {
            left: self.as_slice().iter(),
        }
    }

    /// Returns an iterator over the keys. Does not allocate.
    pub fn keys(&self) -> Keys<'_>
        ensures { result ≡ keys_of self.now.pairs }
    {
        Keys { left: self.iter() }
    }

    /// Returns an iterator over the values. Does not allocate.
    pub fn values(&self) -> Values<'_>
        ensures { result ≡ map (λ pair. pair.1) self.now.pairs }
    {
        Values { left: self.iter() }
    }

    /// Converts the object to a list of its entries, in order, without copying them.
    pub fn into_pairs(self) -> Vec<(IString, IValue)>
        ensures { result.items ≡ self.pairs }
    {
        match self.table {
            None => Vec::new(self.alloc),
            Some(table) => Box::into_inner(table).into_pairs(),
        }
    }
}

/// Moves the entries out of the object, first to last, without copying them.
impl IntoIterator for IObject {
    type Item = (IString, IValue);

    type IntoIter = IntoIter;

    ghost into_iter_gives = { λ object pairs. pairs ≡ object.pairs };

    fn into_iter(self) -> IntoIter {
        IntoIter {
            left: self.into_pairs().into_iter(),
        }
    }
}

/// Supports `for (key, value) in &object`. See `iter`.
impl<'a> IntoIterator for &'a IObject {
    type Item = (&'a IString, &'a IValue);

    type IntoIter = Iter<'a>;

    ghost into_iter_gives = { λ object pairs. pairs ≡ object.now.pairs };

    fn into_iter(self) -> Iter<'a> {
        self.iter()
    }
}

/// Yields each entry once, first to last, and then always `None`. Does not allocate.
impl<'a> Iterator for Iter<'a> {
    type Item = (&'a IString, &'a IValue);

    ghost next_gives = { YieldsFirstBy deref_pair (λ s. s) };

    ghost remaining = { item_count (λ s. s) };

    fn next(&mut self) -> Option<(&'a IString, &'a IValue)> {
        let pair = self.left.next()?;
        Some((&pair.0, &pair.1))
    }

    fn size_hint(&self) -> (usize, Option<usize>)
        ensures lower { IsWithinCount result.0 (at_most (length self.now)) }
        ensures upper { IfSome result.1 (UpTo (at_most (length self.now))) }
        ensures exact { (result.0 ≡ length self.now) × (result.1 ≡ Some (length self.now)) }
    {
        let pairs = self.len();
        (pairs, Some(pairs))
    }
}

impl<'a> FusedIterator for Iter<'a> {}

impl<'a> ExactSizeIterator for Iter<'a> {
    fn len(&self) -> usize {
        self.left.len()
    }
}

/// Yields each key once, first to last, and then always `None`. Does not allocate.
impl<'a> Iterator for Keys<'a> {
    type Item = &'a IString;

    ghost next_gives = { YieldsFirstBy (λ lent. lent.now) (λ s. s) };

    ghost remaining = { item_count (λ s. s) };

    fn next(&mut self) -> Option<&'a IString> {
        let pair = self.left.next()?;
        Some(pair.0)
    }

    fn size_hint(&self) -> (usize, Option<usize>)
        ensures lower { IsWithinCount result.0 (at_most (length self.now)) }
        ensures upper { IfSome result.1 (UpTo (at_most (length self.now))) }
        ensures exact { (result.0 ≡ length self.now) × (result.1 ≡ Some (length self.now)) }
    {
        let len = self.len();
        (len, Some(len))
    }
}

impl<'a> FusedIterator for Keys<'a> {}

impl<'a> ExactSizeIterator for Keys<'a> {
    fn len(&self) -> usize {
        self.left.len()
    }
}

/// Yields each value once, first to last, and then always `None`. Does not allocate.
impl<'a> Iterator for Values<'a> {
    type Item = &'a IValue;

    ghost next_gives = { YieldsFirstBy (λ lent. lent.now) (λ s. s) };

    ghost remaining = { item_count (λ s. s) };

    fn next(&mut self) -> Option<&'a IValue> {
        let pair = self.left.next()?;
        Some(pair.1)
    }

    fn size_hint(&self) -> (usize, Option<usize>)
        ensures lower { IsWithinCount result.0 (at_most (length self.now)) }
        ensures upper { IfSome result.1 (UpTo (at_most (length self.now))) }
        ensures exact { (result.0 ≡ length self.now) × (result.1 ≡ Some (length self.now)) }
    {
        let len = self.len();
        (len, Some(len))
    }
}

impl<'a> FusedIterator for Values<'a> {}

impl<'a> ExactSizeIterator for Values<'a> {
    fn len(&self) -> usize {
        self.left.len()
    }
}

/// Yields each entry once, first to last, and then always `None`. Does not allocate.
impl Iterator for IntoIter {
    type Item = (IString, IValue);

    ghost next_gives = { YieldsFirst (λ s. s) };

    ghost remaining = { item_count (λ s. s) };

    fn next(&mut self) -> Option<(IString, IValue)> {
        self.left.next()
    }

    fn size_hint(&self) -> (usize, Option<usize>)
        ensures lower { IsWithinCount result.0 (at_most (length self.now)) }
        ensures upper { IfSome result.1 (UpTo (at_most (length self.now))) }
        ensures exact { (result.0 ≡ length self.now) × (result.1 ≡ Some (length self.now)) }
    {
        let len = self.len();
        (len, Some(len))
    }
}

impl FusedIterator for IntoIter {}

impl ExactSizeIterator for IntoIter {
    fn len(&self) -> usize {
        self.left.len()
    }
}

/// Formats the remaining entries.
impl<'a> fmt::Debug for Iter<'a> {
    fn fmt<W: fmt::Write>(&self, f: &mut fmt::Formatter<W>) -> fmt::Result {
        f.debug_list().entries(self.left.as_slice()).finish()
    }
}

/// Formats the remaining entries.
impl fmt::Debug for IntoIter {
    fn fmt<W: fmt::Write>(&self, f: &mut fmt::Formatter<W>) -> fmt::Result {
        fmt::Debug::fmt(&self.left, f)
    }
}
