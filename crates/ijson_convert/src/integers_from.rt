//! `FromIValue` for integers.
#![tactic(auto, using(crate::proofs::Whole::read_integers))]

ghost use Rattle.std.specs.Prelude.{◌<◌, ◌^◌, pos, ⊤, FitsSigned};
ghost use Rattle.std.specs.Int.{w8, w16, w32, w64};
ghost use Rattle.ijson_convert.specs.IntegerTree.{integer_tree};
ghost use Rattle.ijson_convert.specs.private.NoInteger.{IsNoInteger};
ghost use Rattle.ijson_convert.specs.Refused.{SignedRefused, UnsignedRefused};
ghost use Rattle.ijson_convert.specs.laws.Whole.{signed_complete, unsigned_complete};
ghost use Rattle.ijson_convert.specs.laws.Whole.{wide_8, wide_16, wide_32, wide_64, below_8, below_16, below_32, below_64};

use crate::convert_error::ConvertError;
use crate::from_ivalue::FromIValue;
use ijson_value::value::IValue;
use std::alloc::Global;

/// Returns the error for a value that is not an integer of the requested type.
///
/// `OutOfRange` is returned for a number, `WrongKind` for any other kind.
fn why_no_integer(value: &IValue) -> ConvertError
    ensures { IsNoInteger value.now.tree result }
{
    if value.is_number() {
        ConvertError::OutOfRange
    } else {
        ConvertError::WrongKind
    }
}

/// Reads an integer, with or without a decimal point.
///
/// # Errors
///
/// Returns `OutOfRange` if the number is not an integer from `-2 ^ 7` to `2 ^ 7 - 1`, and
/// `WrongKind` if `value` is not a number.
impl FromIValue for i8 {
    ghost tree = { λ z. integer_tree z };

    ghost refused = { SignedRefused w8 };

    ghost in_range = { λ z. FitsSigned w8 z };

    ghost null_is_none = { λ _. ⊤ };

    fn from_ivalue(_alloc: Global, value: &IValue) -> Result<i8, ConvertError> {
        match value.to_i32() {
            Some(z) => match i8::try_from(z) {
                Ok(z) => Ok(z),
                Err(_) => Err(ConvertError::OutOfRange),
            },
            None => Err(why_no_integer(value)),
        }
    }

    ghost complete = { signed_complete w8 wide_8 };
}

/// Reads an integer, with or without a decimal point.
///
/// # Errors
///
/// Returns `OutOfRange` if the number is not an integer from `-2 ^ 15` to `2 ^ 15 - 1`, and
/// `WrongKind` if `value` is not a number.
impl FromIValue for i16 {
    ghost tree = { λ z. integer_tree z };

    ghost refused = { SignedRefused w16 };

    ghost in_range = { λ z. FitsSigned w16 z };

    ghost null_is_none = { λ _. ⊤ };

    fn from_ivalue(_alloc: Global, value: &IValue) -> Result<i16, ConvertError> {
        match value.to_i32() {
            Some(z) => match i16::try_from(z) {
                Ok(z) => Ok(z),
                Err(_) => Err(ConvertError::OutOfRange),
            },
            None => Err(why_no_integer(value)),
        }
    }

    ghost complete = { signed_complete w16 wide_16 };
}

/// Reads an integer, with or without a decimal point.
///
/// # Errors
///
/// Returns `OutOfRange` if the number is not an integer from `-2 ^ 31` to `2 ^ 31 - 1`, and
/// `WrongKind` if `value` is not a number.
impl FromIValue for i32 {
    ghost tree = { λ z. integer_tree z };

    ghost refused = { SignedRefused w32 };

    ghost in_range = { λ z. FitsSigned w32 z };

    ghost null_is_none = { λ _. ⊤ };

    fn from_ivalue(_alloc: Global, value: &IValue) -> Result<i32, ConvertError> {
        match value.to_i32() {
            Some(z) => Ok(z),
            None => Err(why_no_integer(value)),
        }
    }

    ghost complete = { signed_complete w32 wide_32 };
}

/// Reads an integer, with or without a decimal point.
///
/// # Errors
///
/// Returns `OutOfRange` if the number is not an integer from `-2 ^ 63` to `2 ^ 63 - 1`, and
/// `WrongKind` if `value` is not a number.
impl FromIValue for i64 {
    ghost tree = { λ z. integer_tree z };

    ghost refused = { SignedRefused w64 };

    ghost in_range = { λ z. FitsSigned w64 z };

    ghost null_is_none = { λ _. ⊤ };

    fn from_ivalue(_alloc: Global, value: &IValue) -> Result<i64, ConvertError> {
        match value.to_i64() {
            Some(z) => Ok(z),
            None => Err(why_no_integer(value)),
        }
    }

    ghost complete = { signed_complete w64 wide_64 };
}

/// Reads an integer, with or without a decimal point.
///
/// # Errors
///
/// Returns `OutOfRange` if the number is not an integer from `-2 ^ 63` to `2 ^ 63 - 1`, and
/// `WrongKind` if `value` is not a number.
impl FromIValue for isize {
    ghost tree = { λ z. integer_tree z };

    ghost refused = { SignedRefused w64 };

    ghost in_range = { λ z. FitsSigned w64 z };

    ghost null_is_none = { λ _. ⊤ };

    fn from_ivalue(_alloc: Global, value: &IValue) -> Result<isize, ConvertError> {
        match value.to_isize() {
            Some(z) => Ok(z),
            None => Err(why_no_integer(value)),
        }
    }

    ghost complete = { signed_complete w64 wide_64 };
}

/// Reads an integer, with or without a decimal point.
///
/// # Errors
///
/// Returns `OutOfRange` if the number is not an integer from 0 to `2 ^ 8 - 1`, and `WrongKind` if
/// `value` is not a number.
impl FromIValue for u8 {
    ghost tree = { λ m. integer_tree (pos m) };

    ghost refused = { UnsignedRefused (2 ^ 8) };

    ghost in_range = { λ m. m < 2 ^ 8 };

    ghost null_is_none = { λ _. ⊤ };

    fn from_ivalue(_alloc: Global, value: &IValue) -> Result<u8, ConvertError> {
        match value.to_u32() {
            Some(m) => match u8::try_from(m) {
                Ok(m) => Ok(m),
                Err(_) => Err(ConvertError::OutOfRange),
            },
            None => Err(why_no_integer(value)),
        }
    }

    ghost complete = { unsigned_complete (2 ^ 8) below_8 };
}

/// Reads an integer, with or without a decimal point.
///
/// # Errors
///
/// Returns `OutOfRange` if the number is not an integer from 0 to `2 ^ 16 - 1`, and `WrongKind` if
/// `value` is not a number.
impl FromIValue for u16 {
    ghost tree = { λ m. integer_tree (pos m) };

    ghost refused = { UnsignedRefused (2 ^ 16) };

    ghost in_range = { λ m. m < 2 ^ 16 };

    ghost null_is_none = { λ _. ⊤ };

    fn from_ivalue(_alloc: Global, value: &IValue) -> Result<u16, ConvertError> {
        match value.to_u32() {
            Some(m) => match u16::try_from(m) {
                Ok(m) => Ok(m),
                Err(_) => Err(ConvertError::OutOfRange),
            },
            None => Err(why_no_integer(value)),
        }
    }

    ghost complete = { unsigned_complete (2 ^ 16) below_16 };
}

/// Reads an integer, with or without a decimal point.
///
/// # Errors
///
/// Returns `OutOfRange` if the number is not an integer from 0 to `2 ^ 32 - 1`, and `WrongKind` if
/// `value` is not a number.
impl FromIValue for u32 {
    ghost tree = { λ m. integer_tree (pos m) };

    ghost refused = { UnsignedRefused (2 ^ 32) };

    ghost in_range = { λ m. m < 2 ^ 32 };

    ghost null_is_none = { λ _. ⊤ };

    fn from_ivalue(_alloc: Global, value: &IValue) -> Result<u32, ConvertError> {
        match value.to_u32() {
            Some(m) => Ok(m),
            None => Err(why_no_integer(value)),
        }
    }

    ghost complete = { unsigned_complete (2 ^ 32) below_32 };
}

/// Reads an integer, with or without a decimal point.
///
/// # Errors
///
/// Returns `OutOfRange` if the number is not an integer from 0 to `2 ^ 64 - 1`, and `WrongKind` if
/// `value` is not a number.
impl FromIValue for u64 {
    ghost tree = { λ m. integer_tree (pos m) };

    ghost refused = { UnsignedRefused (2 ^ 64) };

    ghost in_range = { λ m. m < 2 ^ 64 };

    ghost null_is_none = { λ _. ⊤ };

    fn from_ivalue(_alloc: Global, value: &IValue) -> Result<u64, ConvertError> {
        match value.to_u64() {
            Some(m) => Ok(m),
            None => Err(why_no_integer(value)),
        }
    }

    ghost complete = { unsigned_complete (2 ^ 64) below_64 };
}

/// Reads an integer, with or without a decimal point.
///
/// # Errors
///
/// Returns `OutOfRange` if the number is not an integer from 0 to `2 ^ 64 - 1`, and `WrongKind` if
/// `value` is not a number.
impl FromIValue for usize {
    ghost tree = { λ m. integer_tree (pos m) };

    ghost refused = { UnsignedRefused (2 ^ 64) };

    ghost in_range = { λ m. m < 2 ^ 64 };

    ghost null_is_none = { λ _. ⊤ };

    fn from_ivalue(_alloc: Global, value: &IValue) -> Result<usize, ConvertError> {
        match value.to_usize() {
            Some(m) => Ok(m),
            None => Err(why_no_integer(value)),
        }
    }

    ghost complete = { unsigned_complete (2 ^ 64) below_64 };
}
