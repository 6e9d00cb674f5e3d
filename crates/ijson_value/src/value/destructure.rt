//! Matching on the kind of a value: by move, by reference and by mutable reference.
ghost use Rattle.std.specs.Prelude.{◌≡◌};
ghost use Rattle.std.specs.Borrow.{sem};
ghost use Rattle.ijson_value.specs.Kind.{kind_of};
ghost use Rattle.ijson_value.specs.LendsParts.{LendsParts, LendsBoolPart, LendsNumberPart, LendsStringPart, LendsArrayPart};
ghost use Rattle.ijson_value.specs.LendsParts.{LendsObjectPart};
ghost use Rattle.ijson_value.specs.NodeValue.{node_value};
ghost use Rattle.ijson_value.specs.Opened.{ref_value, mut_value};
ghost use Rattle.ijson_value.specs.Values.{boolean_value, number_value, string_value, array_value, object_value};
ghost use Rattle.ijson_value.specs.declared.value.ValueType.TheVariants as kind;

use super::{Destructured, IValue, ValueType};
use crate::array::IArray;
use crate::object::IObject;
use ijson_number::INumber;
use ijson_string::IString;

/// The content of a value by reference, by kind. Only a Boolean is copied.
#[derive(Clone, Copy, Debug, PartialEq, Eq)]
pub enum DestructuredRef<'a> {
    /// `null`.
    Null,
    /// `true` or `false`.
    Bool(bool),
    /// An exact decimal.
    Number(&'a INumber),
    /// A string.
    String(&'a IString),
    /// An array of values.
    Array(&'a IArray),
    /// Entries with distinct keys, in order.
    Object(&'a IObject),
}

/// The content of a value by mutable reference, by kind.
#[derive(Debug, Drop)]
pub enum DestructuredMut<'a> {
    /// `null`.
    Null,
    /// `true` or `false`.
    Bool(BoolMut<'a>),
    /// An exact decimal.
    Number(&'a mut INumber),
    /// A string.
    String(&'a mut IString),
    /// An array of values.
    Array(&'a mut IArray),
    /// Entries with distinct keys, in order.
    Object(&'a mut IObject),
}

/// A mutable reference to the Boolean in a value.
#[derive(Debug, Drop)]
pub struct BoolMut<'a> {
    place: &'a mut bool,
}

impl IValue {
    /// Returns the content of the value, to match on its kind, without copying.
    ///
    /// ```
    /// match value.destructure() {
    ///     Destructured::Array(items) => items.len(),
    ///     Destructured::Object(pairs) => pairs.len(),
    ///     _ => 0,
    /// }
    /// ```
    pub fn destructure(self) -> Destructured
        ensures { node_value result ≡ self }
    {
        let IValue { node } = self;
        node
    }

    /// Returns the content by reference, to match on its kind.
    pub fn destructure_ref(&self) -> DestructuredRef<'_>
        ensures { ref_value result ≡ self.now }
    {
        self.node.as_ref()
    }

    /// Returns the content by mutable reference, to match on its kind.
    ///
    /// Writing through the result changes the content but not the kind. Callers have to prove the
    /// new value by hand. Calling `as_*_mut` or matching on `&mut **value` avoids this proof.
    pub fn destructure_mut(&mut self) -> DestructuredMut<'_>
        ensures* writes_back { sem 𝓛 (LendsParts self.entry result) }
        ensures value { mut_value result ≡ self.old }
    {
        match self.kind_kept() {
            ValueType::Null => DestructuredMut::Null,
            ValueType::Bool => DestructuredMut::Bool(self.bool_part()),
            ValueType::Number => DestructuredMut::Number(self.number_part()),
            ValueType::String => DestructuredMut::String(self.string_part()),
            ValueType::Array => DestructuredMut::Array(self.array_part()),
            ValueType::Object => DestructuredMut::Object(self.object_part()),
        }
    }

    /// Returns the kind, without changing the value.
    fn kind_kept(&mut self) -> ValueType
        ensures same { self.new ≡ self.old }
        ensures kind { result ≡ kind_of self.old.tree }
    {
        self.type_()
    }

    /// Returns a mutable reference to the Boolean. The value must be a Boolean.
    fn bool_part(&mut self) -> BoolMut<'_>
        requires { kind_of self.old.tree ≡ kind.Bool }
        ensures* writes_back { sem 𝓛 (LendsBoolPart self.entry result.place) }
        ensures value { boolean_value result.place.now ≡ self.old }
    {
        BoolMut {
            place: self.bool_mut().unwrap(),
        }
    }

    /// Returns a mutable reference to the number. The value must be a number.
    fn number_part(&mut self) -> &mut INumber
        requires { kind_of self.old.tree ≡ kind.Number }
        ensures* writes_back { sem 𝓛 (LendsNumberPart self.entry result) }
        ensures value { number_value result.now ≡ self.old }
    {
        self.as_number_mut().unwrap()
    }

    /// Returns a mutable reference to the string. The value must be a string.
    fn string_part(&mut self) -> &mut IString
        requires { kind_of self.old.tree ≡ kind.String }
        ensures* writes_back { sem 𝓛 (LendsStringPart self.entry result) }
        ensures value { string_value result.now ≡ self.old }
    {
        self.as_string_mut().unwrap()
    }

    /// Returns a mutable reference to the array. The value must be an array.
    fn array_part(&mut self) -> &mut IArray
        requires { kind_of self.old.tree ≡ kind.Array }
        ensures* writes_back { sem 𝓛 (LendsArrayPart self.entry result) }
        ensures value { array_value result.now.items ≡ self.old }
    {
        self.as_array_mut().unwrap()
    }

    /// Returns a mutable reference to the object. The value must be an object.
    fn object_part(&mut self) -> &mut IObject
        requires { kind_of self.old.tree ≡ kind.Object }
        ensures* writes_back { sem 𝓛 (LendsObjectPart self.entry result) }
        ensures value { object_value result.now ≡ self.old }
    {
        self.as_object_mut().unwrap()
    }
}

impl Destructured {
    /// Returns the content by reference, to match on its kind.
    pub fn as_ref(&self) -> DestructuredRef<'_>
        ensures { ref_value result ≡ node_value self.now }
    {
        match self {
            Destructured::Null => DestructuredRef::Null,
            Destructured::Bool(b) => DestructuredRef::Bool(*b),
            Destructured::Number(n) => DestructuredRef::Number(n),
            Destructured::String(s) => DestructuredRef::String(s),
            Destructured::Array(a) => DestructuredRef::Array(a),
            Destructured::Object(o) => DestructuredRef::Object(o),
        }
    }
}

impl BoolMut<'_> {
    /// Returns the Boolean.
    pub fn get(&self) -> bool
        ensures { result ≡ self.now.place.now }
    {
        *self.place
    }

    /// Sets the Boolean.
    pub fn set(&mut self, value: bool)
        ensures same_reference { self.new.place.ghost_name ≡ self.old.place.ghost_name }
        ensures written { self.new.place.now ≡ value }
    {
        *self.place = value;
    }
}
