//! Queries for the kind, the Boolean and the length of a value, and `take`.
ghost use Rattle.std.specs.Prelude.{◌≡◌, ◌≢◌, ◌==◌, ◌↔◌, IsTrue, IfSome, IfNone, true, false, option_map};
ghost use Rattle.ijson_value.specs.Kind.{kind_of};
ghost use Rattle.ijson_value.specs.declared.value.ValueType.TheVariants as kind;
ghost use Rattle.ijson_value.specs.Length.{length_of};
ghost use Rattle.ijson_value.specs.Tree.{boolean};
ghost use Rattle.ijson_value.specs.Values.{null_value};

use super::{Destructured, IValue};
use std::mem;

impl IValue {
    /// Returns `true` if the value is null.
    pub fn is_null(&self) -> bool
        ensures { IsTrue result ↔ (kind_of self.now.tree ≡ kind.Null) }
    {
        matches!(self.node, Destructured::Null)
    }

    /// Returns `true` if the value is a Boolean.
    pub fn is_bool(&self) -> bool
        ensures { IsTrue result ↔ (kind_of self.now.tree ≡ kind.Bool) }
    {
        matches!(self.node, Destructured::Bool(_))
    }

    /// Returns `true` if the value is true.
    pub fn is_true(&self) -> bool
        ensures { IsTrue result ↔ (self.now.tree ≡ boolean true) }
    {
        matches!(self.node, Destructured::Bool(true))
    }

    /// Returns `true` if the value is false.
    pub fn is_false(&self) -> bool
        ensures { IsTrue result ↔ (self.now.tree ≡ boolean false) }
    {
        matches!(self.node, Destructured::Bool(false))
    }

    /// Returns `true` if the value is a number.
    pub fn is_number(&self) -> bool
        ensures { IsTrue result ↔ (kind_of self.now.tree ≡ kind.Number) }
    {
        matches!(self.node, Destructured::Number(_))
    }

    /// Returns `true` if the value is a string.
    pub fn is_string(&self) -> bool
        ensures { IsTrue result ↔ (kind_of self.now.tree ≡ kind.String) }
    {
        matches!(self.node, Destructured::String(_))
    }

    /// Returns `true` if the value is an array.
    pub fn is_array(&self) -> bool
        ensures { IsTrue result ↔ (kind_of self.now.tree ≡ kind.Array) }
    {
        matches!(self.node, Destructured::Array(_))
    }

    /// Returns `true` if the value is an object.
    pub fn is_object(&self) -> bool
        ensures { IsTrue result ↔ (kind_of self.now.tree ≡ kind.Object) }
    {
        matches!(self.node, Destructured::Object(_))
    }

    /// Returns the Boolean, or `None` if the value is of another kind.
    pub fn to_bool(&self) -> Option<bool>
        ensures some { IfSome result (λ b. self.now.tree ≡ boolean b) }
        ensures none { IfNone result (kind_of self.now.tree ≢ kind.Bool) }
    {
        match self.node {
            Destructured::Bool(b) => Some(b),
            _ => None,
        }
    }

    /// Returns the Boolean, or `None` if the value is of another kind. Same as `to_bool`.
    pub fn as_bool(&self) -> Option<bool>
        ensures some { IfSome result (λ b. self.now.tree ≡ boolean b) }
        ensures none { IfNone result (kind_of self.now.tree ≢ kind.Bool) }
    {
        self.to_bool()
    }

    /// Returns the number of elements of an array or entries of an object, or `None` for another
    /// kind.
    #[tactic(auto, using(crate::specs::laws::Lengths::array_length, crate::specs::laws::Lengths::object_length))]
    pub fn len(&self) -> Option<usize>
        ensures { result ≡ length_of self.now.tree }
    {
        match &self.node {
            Destructured::Array(array) => Some(array.len()),
            Destructured::Object(object) => Some(object.len()),
            _ => None,
        }
    }

    /// Returns `Some(true)` if the value is an empty array or object, and `None` if it is of
    /// another kind.
    #[tactic(auto, using(crate::specs::laws::Lengths::array_length, crate::specs::laws::Lengths::object_length))]
    pub fn is_empty(&self) -> Option<bool>
        ensures { result ≡ option_map (λ length. length == 0) (length_of self.now.tree) }
    {
        match &self.node {
            Destructured::Array(array) => Some(array.is_empty()),
            Destructured::Object(object) => Some(object.is_empty()),
            _ => None,
        }
    }

    /// Returns the value and leaves null in its place. Nothing is copied.
    pub fn take(&mut self) -> IValue
        ensures taken { result ≡ self.old }
        ensures left { self.new ≡ null_value }
    {
        mem::take(self)
    }
}
