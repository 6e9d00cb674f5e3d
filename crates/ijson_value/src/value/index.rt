//! Access to the values inside a value, by index or by key.
ghost use Rattle.std.specs.Prelude.{◌≡◌, Some, option_map, unwrap_or, IsSome, IfOk, IfErr};
ghost use Rattle.std.specs.Borrow.{sem};
ghost use Rattle.ijson_value.specs.FindsEntry.{FindsNoRoom};
ghost use Rattle.ijson_value.specs.Kind.{kind_of};
ghost use Rattle.ijson_value.specs.LendsPart.{LendsOpened};
ghost use Rattle.ijson_value.specs.LendsInside.{LendsInsideIf};
ghost use Rattle.ijson_value.specs.LendsStep.{InObject, LendsPutInside, LendsStep, LendsStepIf};
ghost use Rattle.ijson_value.specs.NodeValue.{node_value};
ghost use Rattle.ijson_value.specs.Step.{Step, by_position, by_key, kind_for, tree_at, tree_without};
ghost use Rattle.ijson_value.specs.Tree.{null};
ghost use Rattle.ijson_value.specs.Values.{null_value};

use super::{Destructured, IValue};
use crate::object::RefusedPair;
use ijson_string::IString;
use std::ops::{Deref, DerefMut, Index, IndexMut};

/// Derefs to the content, which has methods to access the values inside.
impl Deref for IValue {
    type Target = Destructured;

    ghost deref_gives = { λ value opened. node_value opened ≡ value };

    fn deref(&self) -> &Destructured {
        &self.node
    }
}

/// Derefs to the content by mutable reference. Assigning new content changes the value.
impl DerefMut for IValue {
    ghost deref_mut_gives = { λ value opened. node_value opened ≡ value };

    fn deref_mut(&mut self) -> &mut Destructured
        ensures* writes_back { sem 𝓛 (LendsOpened self.entry result) }
        ensures value { node_value result.now ≡ self.old }
    {
        &mut self.node
    }
}

/// Seals `ValueIndex`, so that only integers and strings are indices.
pub trait Sealed: Copy {
    /// The step that the index denotes.
    ghost step: { Self → Step };

    fn find_in<'v>(self, v: &'v Destructured) -> Option<&'v IValue>
        requires { kind_of (node_value v.now).tree ≡ kind_for (step self) }
        ensures { option_map (λ found. found.now.tree) result
            ≡ tree_at (node_value v.now).tree (step self) };
}

/// An index of an array or a key of an object: `usize`, `&str`, `&IString`, or a reference to one
/// of them.
pub trait ValueIndex: Sealed {
    /// Returns the value at the index or key, or `None` if no value exists there.
    ///
    /// `v` must be an array for an index and an object for a key.
    final fn index_into<'v>(self, v: &'v IValue) -> Option<&'v IValue>
        requires { kind_of v.now.tree ≡ kind_for (Self.Sealed.step self) }
        ensures { option_map (λ found. found.now.tree) result
            ≡ tree_at v.now.tree (Self.Sealed.step self) }
    {
        self.find_in(&v.node)
    }

    /// Like `index_into`, but returns a mutable reference.
    ///
    /// Writing through the result changes only the value at the index or key. Callers have to prove
    /// this by hand. `value.get_mut(index)` returns the same reference and avoids this proof.
    final fn index_into_mut<'v>(self, v: &'v mut IValue) -> Option<&'v mut IValue>
        requires { kind_of v.old.tree ≡ kind_for (Self.Sealed.step self) }
        ensures* writes_back { sem 𝓛 (LendsInsideIf v.entry (Self.Sealed.step self) result) }
        ensures value { option_map (λ found. found.now.tree) result
            ≡ tree_at v.old.tree (Self.Sealed.step self) }
    {
        IValue::get_mut(v.deref_mut(), self)
    }

    /// Like `index_into_mut`, but on the content of a value.
    fn index_opened_mut<'v>(v: &'v mut Destructured, index: Self) -> Option<&'v mut IValue>
        requires { kind_of (node_value v.old).tree ≡ kind_for (Self.Sealed.step index) }
        ensures* writes_back { sem 𝓛 (LendsStepIf v.entry (Self.Sealed.step index) result) }
        ensures value { option_map (λ found. found.now.tree) result
            ≡ tree_at (node_value v.old).tree (Self.Sealed.step index) };

    /// Removes and returns the value at the index or key, or `None` if no value exists there.
    ///
    /// `v` must be an array for an index and an object for a key. All elements of an array after
    /// the removed element shift to the left. The last entry of an object replaces the removed
    /// entry.
    fn remove(self, v: &mut IValue) -> Option<IValue>
        requires { kind_of v.old.tree ≡ kind_for (Self.Sealed.step self) }
        ensures value { option_map (λ found. found.tree) result
            ≡ tree_at v.old.tree (Self.Sealed.step self) }
        ensures left { v.new.tree ≡ tree_without v.old.tree (Self.Sealed.step self) };
}

impl Sealed for usize {
    ghost step = { λ position. by_position position };

    fn find_in<'v>(self, v: &'v Destructured) -> Option<&'v IValue> {
        match v {
            Destructured::Array(array) => array.as_slice().get(self),
            _ => None,
        }
    }
}

/// An index of an array, from 0.
impl ValueIndex for usize {
    fn index_opened_mut<'v>(v: &'v mut Destructured, index: usize) -> Option<&'v mut IValue> {
        match v {
            Destructured::Array(array) => array.get_mut(index),
            _ => None,
        }
    }

    #[tactic(auto, using(crate::specs::laws::Steps::item_at, crate::specs::laws::Steps::item_without))]
    fn remove(self, v: &mut IValue) -> Option<IValue> {
        v.as_array_mut()?.remove(self)
    }
}

impl Sealed for &str {
    ghost step = { λ key. by_key key.now };

    fn find_in<'v>(self, v: &'v Destructured) -> Option<&'v IValue> {
        match v {
            Destructured::Object(object) => object.get(self),
            _ => None,
        }
    }
}

/// A key of an object.
impl ValueIndex for &str {
    fn index_opened_mut<'v>(v: &'v mut Destructured, index: &str) -> Option<&'v mut IValue> {
        match v {
            Destructured::Object(object) => object.get_mut(index),
            _ => None,
        }
    }

    #[tactic(auto, using(crate::specs::laws::Steps::value_at, crate::specs::laws::Steps::value_without))]
    fn remove(self, v: &mut IValue) -> Option<IValue> {
        v.as_object_mut()?.remove(self)
    }
}

impl Sealed for &IString {
    ghost step = { λ key. by_key key.now };

    fn find_in<'v>(self, v: &'v Destructured) -> Option<&'v IValue> {
        self.as_str().find_in(v)
    }
}

/// A key of an object.
impl ValueIndex for &IString {
    fn index_opened_mut<'v>(v: &'v mut Destructured, index: &IString) -> Option<&'v mut IValue> {
        <&str>::index_opened_mut(v, index.as_str())
    }

    fn remove(self, v: &mut IValue) -> Option<IValue> {
        self.as_str().remove(v)
    }
}

impl<T: Sealed> Sealed for &T {
    ghost step = { λ index. T.Sealed.step index.now };

    fn find_in<'v>(self, v: &'v Destructured) -> Option<&'v IValue> {
        (*self).find_in(v)
    }
}

/// Looks up a value like the referenced index.
impl<T: ValueIndex> ValueIndex for &T {
    fn index_opened_mut<'v>(v: &'v mut Destructured, index: &T) -> Option<&'v mut IValue> {
        T::index_opened_mut(v, *index)
    }

    fn remove(self, v: &mut IValue) -> Option<IValue> {
        (*self).remove(v)
    }
}

impl IValue {
    /// Returns the value at an index or key, or `None` if no value exists there.
    ///
    /// The value must be an array for an index and an object for a key. An index takes constant
    /// time, and a key takes one hash lookup.
    ///
    /// ```
    /// let port = value.get("port"); // of an object
    /// let first = value.get(0); // of an array
    /// ```
    pub fn get<I: ValueIndex>(&self, index: I) -> Option<&IValue>
        requires { kind_of self.now.tree ≡ kind_for (I.Sealed.step index) }
        ensures { option_map (λ found. found.now.tree) result
            ≡ tree_at self.now.tree (I.Sealed.step index) }
    {
        index.index_into(self)
    }

    /// Removes and returns the value at an index or key, or `None` if no value exists there.
    ///
    /// The value must be an array for an index and an object for a key. All elements of an array
    /// after the removed element shift to the left. The last entry of an object replaces the
    /// removed entry.
    pub fn remove<I: ValueIndex>(&mut self, index: I) -> Option<IValue>
        requires { kind_of self.old.tree ≡ kind_for (I.Sealed.step index) }
        ensures value { option_map (λ found. found.tree) result
            ≡ tree_at self.old.tree (I.Sealed.step index) }
        ensures left { self.new.tree ≡ tree_without self.old.tree (I.Sealed.step index) }
    {
        index.remove(self)
    }
}

impl IValue {
    /// Returns `opened.get_mut(index)`, for calls written as `IValue::get_mut(&mut value, index)`.
    ///
    /// In such a call, `&mut value` derefs to `&mut Destructured`, which has the method `get_mut`.
    pub fn get_mut<I: ValueIndex>(opened: &mut Destructured, index: I) -> Option<&mut IValue>
        requires { kind_of (node_value opened.old).tree ≡ kind_for (I.Sealed.step index) }
        ensures* writes_back { sem 𝓛 (LendsStepIf opened.entry (I.Sealed.step index) result) }
        ensures value { option_map (λ found. found.now.tree) result
            ≡ tree_at (node_value opened.old).tree (I.Sealed.step index) }
    {
        I::index_opened_mut(opened, index)
    }

    /// Returns `opened.index_or_insert(key)`, for calls written as
    /// `IValue::index_or_insert(&mut value, key)`.
    pub fn index_or_insert(
        opened: &mut Destructured,
        key: IString,
    ) -> Result<&mut IValue, RefusedPair>
        requires { kind_of (node_value opened.old).tree ≡ kind_for (by_key key) }
        ensures* writes_back { sem 𝓛 (LendsPutInside opened.entry key result) }
        ensures value { IfOk result (λ value.
            value.now.tree ≡ unwrap_or (tree_at (node_value opened.old).tree (by_key key)) null) }
        ensures refused { IfErr result (λ refused. (refused.key ≡ key) × (refused.value ≡ null_value)
            × InObject (λ old. FindsNoRoom old key refused.why) opened.old) }
    {
        opened.index_or_insert(key)
    }
}

impl Destructured {
    /// Returns a mutable reference to the value at an index or key, or `None` if no value exists
    /// there.
    ///
    /// Call this method on a value, which derefs to its content: `value.get_mut("port")`. The value
    /// must be an array for an index and an object for a key.
    pub fn get_mut<I: ValueIndex>(&mut self, index: I) -> Option<&mut IValue>
        requires { kind_of (node_value self.old).tree ≡ kind_for (I.Sealed.step index) }
        ensures* writes_back { sem 𝓛 (LendsStepIf self.entry (I.Sealed.step index) result) }
        ensures value { option_map (λ found. found.now.tree) result
            ≡ tree_at (node_value self.old).tree (I.Sealed.step index) }
    {
        I::index_opened_mut(self, index)
    }

    /// Returns a mutable reference to the value of `key`, after appending null if the key is
    /// missing.
    ///
    /// The value must be an object.
    ///
    /// # Errors
    ///
    /// Returns `key` with null if the key is missing and capacity cannot be reserved. The object is
    /// unchanged.
    pub fn index_or_insert(&mut self, key: IString) -> Result<&mut IValue, RefusedPair>
        requires { kind_of (node_value self.old).tree ≡ kind_for (by_key key) }
        ensures* writes_back { sem 𝓛 (LendsPutInside self.entry key result) }
        ensures value { IfOk result (λ value.
            value.now.tree ≡ unwrap_or (tree_at (node_value self.old).tree (by_key key)) null) }
        ensures refused { IfErr result (λ refused. (refused.key ≡ key) × (refused.value ≡ null_value)
            × InObject (λ old. FindsNoRoom old key refused.why) self.old) }
    {
        match self {
            Destructured::Object(object) => object.index_or_insert(key),
            _ => unreachable!(),
        }
    }
}

/// Supports `value[0]` and `value["port"]`. The index or key must exist.
impl<I: ValueIndex + Drop> Index<I> for Destructured {
    type Output = IValue;

    ghost can_index = { λ v index. IsSome (tree_at (node_value v).tree (I.Sealed.step index)) };

    ghost index_gives = { λ v index found.
        tree_at (node_value v).tree (I.Sealed.step index) ≡ Some found.tree };

    #[tactic(auto, using(crate::specs::laws::Steps::kind_at))]
    fn index(&self, index: I) -> &IValue {
        index.find_in(self).unwrap()
    }
}

/// Supports `value[0] = IValue::NULL`. The index or key must exist.
///
/// To add a missing key, use `index_or_insert`.
impl<I: ValueIndex + Drop> IndexMut<I> for Destructured {
    #[tactic(auto, using(crate::specs::laws::Steps::kind_at))]
    fn index_mut(&mut self, index: I) -> &mut IValue
        requires { IsSome (tree_at (node_value self.old).tree (I.Sealed.step index)) }
        ensures* writes_back { sem 𝓛 (LendsStep self.entry (I.Sealed.step index) result) }
        ensures value { tree_at (node_value self.old).tree (I.Sealed.step index) ≡ Some result.now.tree }
    {
        I::index_opened_mut(self, index).unwrap()
    }
}
