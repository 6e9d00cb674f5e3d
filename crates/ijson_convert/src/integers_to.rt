//! `ToIValue` for integers.
#![tactic(auto, using(crate::proofs::Whole::made_integers))]

ghost use Rattle.std.specs.Prelude.{pos};
ghost use Rattle.ijson_convert.specs.IntegerTree.{integer_tree};

use crate::convert_error::ConvertError;
use crate::to_ivalue::ToIValue;
use ijson_string::StringCache;
use ijson_value::value::IValue;
use std::alloc::Global;
use std::hash::BuildHasher;

/// Converts to a number without a decimal point. Does not allocate.
impl ToIValue for i8 {
    ghost tree = { λ z. integer_tree z };

    fn to_ivalue<S: BuildHasher>(
        &self,
        _alloc: Global,
        _cache: &mut StringCache<S>,
    ) -> Result<IValue, ConvertError> {
        Ok(IValue::from(*self))
    }
}

/// Converts to a number without a decimal point. Does not allocate.
impl ToIValue for i16 {
    ghost tree = { λ z. integer_tree z };

    fn to_ivalue<S: BuildHasher>(
        &self,
        _alloc: Global,
        _cache: &mut StringCache<S>,
    ) -> Result<IValue, ConvertError> {
        Ok(IValue::from(*self))
    }
}

/// Converts to a number without a decimal point. Does not allocate.
impl ToIValue for i32 {
    ghost tree = { λ z. integer_tree z };

    fn to_ivalue<S: BuildHasher>(
        &self,
        _alloc: Global,
        _cache: &mut StringCache<S>,
    ) -> Result<IValue, ConvertError> {
        Ok(IValue::from(*self))
    }
}

/// Converts to a number without a decimal point. Does not allocate.
impl ToIValue for i64 {
    ghost tree = { λ z. integer_tree z };

    fn to_ivalue<S: BuildHasher>(
        &self,
        _alloc: Global,
        _cache: &mut StringCache<S>,
    ) -> Result<IValue, ConvertError> {
        Ok(IValue::from(*self))
    }
}

/// Converts to a number without a decimal point. Does not allocate.
impl ToIValue for isize {
    ghost tree = { λ z. integer_tree z };

    fn to_ivalue<S: BuildHasher>(
        &self,
        _alloc: Global,
        _cache: &mut StringCache<S>,
    ) -> Result<IValue, ConvertError> {
        Ok(IValue::from(*self))
    }
}

/// Converts to a number without a decimal point. Does not allocate.
impl ToIValue for u8 {
    ghost tree = { λ n. integer_tree (pos n) };

    fn to_ivalue<S: BuildHasher>(
        &self,
        _alloc: Global,
        _cache: &mut StringCache<S>,
    ) -> Result<IValue, ConvertError> {
        Ok(IValue::from(*self))
    }
}

/// Converts to a number without a decimal point. Does not allocate.
impl ToIValue for u16 {
    ghost tree = { λ n. integer_tree (pos n) };

    fn to_ivalue<S: BuildHasher>(
        &self,
        _alloc: Global,
        _cache: &mut StringCache<S>,
    ) -> Result<IValue, ConvertError> {
        Ok(IValue::from(*self))
    }
}

/// Converts to a number without a decimal point. Does not allocate.
impl ToIValue for u32 {
    ghost tree = { λ n. integer_tree (pos n) };

    fn to_ivalue<S: BuildHasher>(
        &self,
        _alloc: Global,
        _cache: &mut StringCache<S>,
    ) -> Result<IValue, ConvertError> {
        Ok(IValue::from(*self))
    }
}

/// Converts to a number without a decimal point. Does not allocate.
impl ToIValue for u64 {
    ghost tree = { λ n. integer_tree (pos n) };

    fn to_ivalue<S: BuildHasher>(
        &self,
        _alloc: Global,
        _cache: &mut StringCache<S>,
    ) -> Result<IValue, ConvertError> {
        Ok(IValue::from(*self))
    }
}

/// Converts to a number without a decimal point. Does not allocate.
impl ToIValue for usize {
    ghost tree = { λ n. integer_tree (pos n) };

    fn to_ivalue<S: BuildHasher>(
        &self,
        _alloc: Global,
        _cache: &mut StringCache<S>,
    ) -> Result<IValue, ConvertError> {
        Ok(IValue::from(*self))
    }
}
