//! Mutable references to the content of a value, by kind.
ghost use Rattle.std.specs.Prelude.{◌≡◌, ◌≢◌, IfSome, IfNone};
ghost use Rattle.std.specs.Borrow.{sem};
ghost use Rattle.ijson_value.specs.Kind.{kind_of};
ghost use Rattle.ijson_value.specs.LendsPart.{LendsBool, LendsNumber, LendsString, LendsArray, LendsObject};
ghost use Rattle.ijson_value.specs.Values.{boolean_value, number_value, string_value, array_value, object_value};
ghost use Rattle.ijson_value.specs.declared.value.ValueType.TheVariants as kind;

use super::{Destructured, IValue};
use crate::array::IArray;
use crate::object::IObject;
use ijson_number::INumber;
use ijson_string::IString;

impl IValue {
    /// Returns a mutable reference to the Boolean, or `None` if the value is of another kind.
    pub(super) fn bool_mut(&mut self) -> Option<&mut bool>
        ensures* writes_back { sem 𝓛 (LendsBool self.entry result) }
        ensures some { IfSome result (λ truth. self.old ≡ boolean_value truth.now) }
        ensures none { IfNone result (kind_of self.old.tree ≢ kind.Bool) }
    {
        match &mut self.node {
            Destructured::Bool(truth) => Some(truth),
            _ => None,
        }
    }

    /// Returns a mutable reference to the number, or `None` if the value is of another kind.
    ///
    /// Assigning through the reference replaces the number: `*number = INumber::from(2u64)`.
    pub fn as_number_mut(&mut self) -> Option<&mut INumber>
        ensures* writes_back { sem 𝓛 (LendsNumber self.entry result) }
        ensures some { IfSome result (λ number. self.old ≡ number_value number.now) }
        ensures none { IfNone result (kind_of self.old.tree ≢ kind.Number) }
    {
        match &mut self.node {
            Destructured::Number(number) => Some(number),
            _ => None,
        }
    }

    /// Returns a mutable reference to the string, or `None` if the value is of another kind.
    pub fn as_string_mut(&mut self) -> Option<&mut IString>
        ensures* writes_back { sem 𝓛 (LendsString self.entry result) }
        ensures some { IfSome result (λ string. self.old ≡ string_value string.now) }
        ensures none { IfNone result (kind_of self.old.tree ≢ kind.String) }
    {
        match &mut self.node {
            Destructured::String(string) => Some(string),
            _ => None,
        }
    }

    /// Returns a mutable reference to the array, or `None` if the value is of another kind.
    pub fn as_array_mut(&mut self) -> Option<&mut IArray>
        ensures* writes_back { sem 𝓛 (LendsArray self.entry result) }
        ensures some { IfSome result (λ array. self.old ≡ array_value array.now.items) }
        ensures none { IfNone result (kind_of self.old.tree ≢ kind.Array) }
    {
        match &mut self.node {
            Destructured::Array(array) => Some(array),
            _ => None,
        }
    }

    /// Returns a mutable reference to the object, or `None` if the value is of another kind.
    pub fn as_object_mut(&mut self) -> Option<&mut IObject>
        ensures* writes_back { sem 𝓛 (LendsObject self.entry result) }
        ensures some { IfSome result (λ object. self.old ≡ object_value object.now) }
        ensures none { IfNone result (kind_of self.old.tree ≢ kind.Object) }
    {
        match &mut self.node {
            Destructured::Object(object) => Some(object),
            _ => None,
        }
    }
}
