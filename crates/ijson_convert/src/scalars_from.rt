//! `FromIValue` for Booleans, strings and options.
ghost use Rattle.std.specs.Prelude.{⊤, string_bytes, IfSome};
ghost use Rattle.ijson_value.specs.Tree.{boolean, string};
ghost use Rattle.ijson_convert.specs.NullIsNone.{option_null_is_none};
ghost use Rattle.ijson_convert.specs.OptionTree.{option_tree};
ghost use Rattle.ijson_convert.specs.Refused.{BoolRefused, TextRefused, OptionRefused};
ghost use Rattle.ijson_convert.specs.laws.Complete.{bool_complete, text_complete, option_complete};

use crate::convert_error::ConvertError;
use crate::from_ivalue::FromIValue;
use ijson_string::IString;
use ijson_value::value::{DestructuredRef, IValue};
use std::alloc::Global;

/// Reads a Boolean.
impl FromIValue for bool {
    ghost tree = { λ b. boolean b };

    ghost refused = { BoolRefused };

    ghost in_range = { λ _. ⊤ };

    ghost null_is_none = { λ _. ⊤ };

    fn from_ivalue(_alloc: Global, value: &IValue) -> Result<bool, ConvertError> {
        match value.destructure_ref() {
            DestructuredRef::Bool(b) => Ok(b),
            _ => Err(ConvertError::WrongKind),
        }
    }

    ghost complete = { bool_complete };
}

/// Reads a string, which is copied.
impl FromIValue for String {
    ghost tree = { λ s. string (string_bytes s) };

    ghost refused = { TextRefused };

    ghost in_range = { λ _. ⊤ };

    ghost null_is_none = { λ _. ⊤ };

    fn from_ivalue(alloc: Global, value: &IValue) -> Result<String, ConvertError> {
        match value.destructure_ref() {
            DestructuredRef::String(text) => Ok(text.to_owned_string(alloc)?),
            _ => Err(ConvertError::WrongKind),
        }
    }

    ghost complete = { λ s. text_complete (string_bytes s) };
}

/// Reads a string, which is shared with `value`.
impl FromIValue for IString {
    ghost tree = { λ s. string s };

    ghost refused = { TextRefused };

    ghost in_range = { λ _. ⊤ };

    ghost null_is_none = { λ _. ⊤ };

    fn from_ivalue(_alloc: Global, value: &IValue) -> Result<IString, ConvertError> {
        match value.destructure_ref() {
            DestructuredRef::String(text) => Ok(text.clone()?),
            _ => Err(ConvertError::WrongKind),
        }
    }

    ghost complete = { text_complete };
}

/// Reads null as `None`, also if a `T` can be read from null.
impl<T: FromIValue> FromIValue for Option<T> {
    ghost tree = { option_tree T.FromIValue.tree };

    ghost refused = { OptionRefused T.FromIValue.refused };

    ghost in_range = { λ option. IfSome option T.FromIValue.in_range };

    ghost null_is_none = { option_null_is_none T.FromIValue.tree T.FromIValue.null_is_none };

    fn from_ivalue(alloc: Global, value: &IValue) -> Result<Option<T>, ConvertError> {
        match value.destructure_ref() {
            DestructuredRef::Null => Ok(None),
            _ => Ok(Some(T::from_ivalue(alloc, value)?)),
        }
    }

    ghost complete = { option_complete T.FromIValue.tree T.FromIValue.refused T.FromIValue.in_range
        T.FromIValue.complete };
}
