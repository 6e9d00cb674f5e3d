//! `ToIValue` for Booleans, strings and options.
ghost use Rattle.std.specs.Prelude.{string_bytes};
ghost use Rattle.ijson_value.specs.Tree.{boolean, string};
ghost use Rattle.ijson_convert.specs.OptionTree.{option_tree};

use crate::convert_error::ConvertError;
use crate::to_ivalue::ToIValue;
use ijson_string::{IString, StringCache};
use ijson_value::value::IValue;
use std::alloc::Global;
use std::hash::BuildHasher;

/// Converts a Boolean. Does not allocate.
impl ToIValue for bool {
    ghost tree = { λ b. boolean b };

    fn to_ivalue<S: BuildHasher>(
        &self,
        _alloc: Global,
        _cache: &mut StringCache<S>,
    ) -> Result<IValue, ConvertError> {
        Ok(IValue::from(*self))
    }
}

/// Interns the string in `cache`.
impl ToIValue for &str {
    ghost tree = { λ s. string s.now };

    fn to_ivalue<S: BuildHasher>(
        &self,
        _alloc: Global,
        cache: &mut StringCache<S>,
    ) -> Result<IValue, ConvertError> {
        let text = IString::intern(cache, *self)?;
        Ok(IValue::from(text))
    }
}

/// Interns the string in `cache`.
impl ToIValue for String {
    ghost tree = { λ s. string (string_bytes s) };

    fn to_ivalue<S: BuildHasher>(
        &self,
        alloc: Global,
        cache: &mut StringCache<S>,
    ) -> Result<IValue, ConvertError> {
        self.as_str().to_ivalue(alloc, cache)
    }
}

/// Converts `None` to null, and `Some` to the JSON value of its content.
impl<T: ToIValue> ToIValue for Option<T> {
    ghost tree = { option_tree T.ToIValue.tree };

    fn to_ivalue<S: BuildHasher>(
        &self,
        alloc: Global,
        cache: &mut StringCache<S>,
    ) -> Result<IValue, ConvertError> {
        match self {
            None => Ok(IValue::default()),
            Some(x) => x.to_ivalue(alloc, cache),
        }
    }
}
