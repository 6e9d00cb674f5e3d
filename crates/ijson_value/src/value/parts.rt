//! Access to the content of a value: by reference, by move, and as an integer.
ghost use Rattle.std.specs.Prelude.{◌≡◌, ◌≢◌, ◌^◌, ◌<◌, ℕ, ℤ, pos, IfSome, IfNone, IfOk, IfErr, FitsSigned};
ghost use mir.Syntax.{w32, w64};
ghost use Rattle.ijson_value.specs.Integers.{HasInteger};
ghost use Rattle.ijson_value.specs.Kind.{kind_of};
ghost use Rattle.ijson_value.specs.declared.value.ValueType.TheVariants as kind;
ghost use Rattle.ijson_value.specs.Values.{number_value, string_value, array_value, object_value};

use super::{Destructured, IValue};
use crate::array::IArray;
use crate::object::IObject;
use ijson_number::INumber;
use ijson_string::IString;

impl IValue {
    /// Returns the number, or `None` if the value is of another kind.
    pub fn as_number(&self) -> Option<&INumber>
        ensures some { IfSome result (λ number. self.now ≡ number_value number.now) }
        ensures none { IfNone result (kind_of self.now.tree ≢ kind.Number) }
    {
        match &self.node {
            Destructured::Number(number) => Some(number),
            _ => None,
        }
    }

    /// Returns the string, or `None` if the value is of another kind.
    pub fn as_string(&self) -> Option<&IString>
        ensures some { IfSome result (λ string. self.now ≡ string_value string.now) }
        ensures none { IfNone result (kind_of self.now.tree ≢ kind.String) }
    {
        match &self.node {
            Destructured::String(string) => Some(string),
            _ => None,
        }
    }

    /// Returns the string, or `None` if the value is of another kind.
    pub fn as_str(&self) -> Option<&str>
        ensures some { IfSome result (λ text. self.now ≡ string_value text.now) }
        ensures none { IfNone result (kind_of self.now.tree ≢ kind.String) }
    {
        match &self.node {
            Destructured::String(string) => Some(string.as_str()),
            _ => None,
        }
    }

    /// Returns the array, or `None` if the value is of another kind.
    pub fn as_array(&self) -> Option<&IArray>
        ensures some { IfSome result (λ array. self.now ≡ array_value array.now.items) }
        ensures none { IfNone result (kind_of self.now.tree ≢ kind.Array) }
    {
        match &self.node {
            Destructured::Array(array) => Some(array),
            _ => None,
        }
    }

    /// Returns the object, or `None` if the value is of another kind.
    pub fn as_object(&self) -> Option<&IObject>
        ensures some { IfSome result (λ object. self.now ≡ object_value object.now) }
        ensures none { IfNone result (kind_of self.now.tree ≢ kind.Object) }
    {
        match &self.node {
            Destructured::Object(object) => Some(object),
            _ => None,
        }
    }

    /// Returns the number, or the value itself as `Err` if it is of another kind.
    ///
    /// Nothing is copied.
    pub fn into_number(self) -> Result<INumber, IValue>
        ensures ok { IfOk result (λ number. self ≡ number_value number) }
        ensures refused { IfErr result (λ value.
            (value ≡ self) × (kind_of self.tree ≢ kind.Number)) }
    {
        match self.node {
            Destructured::Number(number) => Ok(number),
            node => Err(IValue { node }),
        }
    }

    /// Returns the string, or the value itself as `Err` if it is of another kind.
    ///
    /// Nothing is copied.
    pub fn into_string(self) -> Result<IString, IValue>
        ensures ok { IfOk result (λ string. self ≡ string_value string) }
        ensures refused { IfErr result (λ value.
            (value ≡ self) × (kind_of self.tree ≢ kind.String)) }
    {
        match self.node {
            Destructured::String(string) => Ok(string),
            node => Err(IValue { node }),
        }
    }

    /// Returns the array, or the value itself as `Err` if it is of another kind.
    ///
    /// Nothing is copied.
    pub fn into_array(self) -> Result<IArray, IValue>
        ensures ok { IfOk result (λ array. self ≡ array_value array.items) }
        ensures refused { IfErr result (λ value.
            (value ≡ self) × (kind_of self.tree ≢ kind.Array)) }
    {
        match self.node {
            Destructured::Array(array) => Ok(array),
            node => Err(IValue { node }),
        }
    }

    /// Returns the object, or the value itself as `Err` if it is of another kind.
    ///
    /// Nothing is copied.
    pub fn into_object(self) -> Result<IObject, IValue>
        ensures ok { IfOk result (λ object. self ≡ object_value object) }
        ensures refused { IfErr result (λ value.
            (value ≡ self) × (kind_of self.tree ≢ kind.Object)) }
    {
        match self.node {
            Destructured::Object(object) => Ok(object),
            node => Err(IValue { node }),
        }
    }

    /// Returns the value as an `i64`, or `None` if it is not a whole number in range.
    ///
    /// For example, `2.0` is returned as 2, and `2.5` as `None`.
    pub fn to_i64(&self) -> Option<i64>
        ensures some { IfSome result (λ z. HasInteger self.now.tree z) }
        ensures none { IfNone result
            ((z : ℤ) → FitsSigned w64 z → HasInteger self.now.tree z → ⊥) }
    {
        self.as_number()?.to_i64()
    }

    /// Returns the value as an `i32`, or `None` if it is not a whole number in range. See `to_i64`.
    pub fn to_i32(&self) -> Option<i32>
        ensures some { IfSome result (λ z. HasInteger self.now.tree z) }
        ensures none { IfNone result
            ((z : ℤ) → FitsSigned w32 z → HasInteger self.now.tree z → ⊥) }
    {
        self.as_number()?.to_i32()
    }

    /// Returns the value as an `isize`, or `None` if it is not a whole number in range. See
    /// `to_i64`.
    pub fn to_isize(&self) -> Option<isize>
        ensures some { IfSome result (λ z. HasInteger self.now.tree z) }
        ensures none { IfNone result
            ((z : ℤ) → FitsSigned w64 z → HasInteger self.now.tree z → ⊥) }
    {
        self.as_number()?.to_isize()
    }

    /// Returns the value as a `u64`, or `None` if it is not a whole number in range. See `to_i64`.
    pub fn to_u64(&self) -> Option<u64>
        ensures some { IfSome result (λ n. HasInteger self.now.tree (pos n)) }
        ensures none { IfNone result
            ((n : ℕ) → n < 2 ^ 64 → HasInteger self.now.tree (pos n) → ⊥) }
    {
        self.as_number()?.to_u64()
    }

    /// Returns the value as a `u32`, or `None` if it is not a whole number in range. See `to_i64`.
    pub fn to_u32(&self) -> Option<u32>
        ensures some { IfSome result (λ n. HasInteger self.now.tree (pos n)) }
        ensures none { IfNone result
            ((n : ℕ) → n < 2 ^ 32 → HasInteger self.now.tree (pos n) → ⊥) }
    {
        self.as_number()?.to_u32()
    }

    /// Returns the value as a `usize`, or `None` if it is not a whole number in range. See
    /// `to_i64`.
    pub fn to_usize(&self) -> Option<usize>
        ensures some { IfSome result (λ n. HasInteger self.now.tree (pos n)) }
        ensures none { IfNone result
            ((n : ℕ) → n < 2 ^ 64 → HasInteger self.now.tree (pos n) → ⊥) }
    {
        self.as_number()?.to_usize()
    }
}
