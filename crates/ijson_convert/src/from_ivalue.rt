//! `FromIValue`: conversions from JSON values.
ghost use Rattle.std.specs.Prelude.{◌≡◌, ◌⊎◌, IfOk, IfErr};
ghost use Rattle.ijson_value.specs.Same.{Same};
ghost use Rattle.ijson_value.specs.Tree.{Tree};
ghost use Rattle.ijson_value.specs.WellFormed.{IsWellFormed};
ghost use Rattle.ijson_convert.specs.IsRead.{IsRead};
ghost use Rattle.ijson_convert.specs.declared.convert_error.ConvertError.{ConvertError};
ghost use Rattle.ijson_convert.specs.declared.convert_error.ConvertError.TheVariants.{Memory};

use crate::convert_error::ConvertError;
use ijson_value::value::IValue;
use std::alloc::Global;

/// A type that can be read from a JSON value.
///
/// Implemented for `bool`, the integers of up to 64 bits, `String` and `IString`. If `T` implements
/// `FromIValue`, so do `Option<T>`, `Vec<T>`, `BTreeMap<String, T>` and `HashMap<String, T>`.
///
/// A number with a decimal point can be read as an integer if its value is an integer: `2.0` is 2.
/// Null is read as the outermost `None`: as an `Option<Option<u8>>`, null is `None`, never
/// `Some(None)`.
pub trait FromIValue: Sized {
    /// The JSON tree of a Rust value.
    ghost tree: { Self → Tree };

    ghost use Rattle.std.specs.Prelude.{◌≡◌, ◌⊎◌, IfOk, IfErr};
    ghost use Rattle.ijson_value.specs.Same.{Same};
    ghost use Rattle.ijson_value.specs.WellFormed.{IsWellFormed};
    ghost use Rattle.ijson_convert.specs.IsRead.{IsRead};
    ghost use Rattle.ijson_convert.specs.declared.convert_error.ConvertError.{ConvertError};
    ghost use Rattle.ijson_convert.specs.declared.convert_error.ConvertError.TheVariants.{Memory};

    /// Holds if a tree is rejected with this error. The first rejected part in order decides the
    /// error.
    ghost refused: { Tree → ConvertError → Type 0 };

    /// Holds if each integer in the value is in the range of its Rust type.
    ///
    /// The laws need this property because they model each integer type by all integers.
    ghost in_range: { Self → Type 0 };

    /// Holds if each `Option` in the value is `None` when its tree is null.
    ghost null_is_none: { Self → Type 0 };

    /// Reads a JSON value. A `String` is copied, an `IString` is shared.
    ///
    /// # Errors
    ///
    /// Fails if the tree of `value` is rejected, and with `Memory` if an allocation fails. The
    /// partial result is dropped.
    fn from_ivalue(alloc: Global, value: &IValue) -> Result<Self, ConvertError>
        ensures same { IfOk result (λ x. Same (tree x) value.now.tree) }
        ensures read { IfOk result (λ x. IsRead refused value.now.tree) }
        ensures none { IfOk result (λ x. null_is_none x) }
        ensures refused { IfErr result (λ e. (e ≡ Memory) ⊎ refused value.now.tree e) };

    /// A rejected tree does not mean the same as the tree of any `Self`.
    ghost complete: { (x : Self) (t : Tree) (e : ConvertError) → in_range x → IsWellFormed (tree x)
        → IsWellFormed t → Same (tree x) t → refused t e → ⊥ };
}

/// Reads a JSON value as a `T`.
///
/// A `String` is copied, an `IString` is shared. Null is read as the outermost `None` of an
/// `Option`.
///
/// ```
/// // Reads [1,2.0]. The error is `WrongKind` for [1,"2"], and `OutOfRange` for [1,2.5].
/// let ids: Vec<u64> = from_value(alloc, &value)?;
/// ```
///
/// # Errors
///
/// Fails with `WrongKind` or `OutOfRange`, for the first part in order that cannot be read, and
/// with `Memory` if an allocation fails.
///
/// # Cost
///
/// Linear in the value. The entries of a `BTreeMap` take n log n time, plus the comparisons of
/// keys. The keys of a `HashMap` are hashed.
pub fn from_value<T: FromIValue>(alloc: Global, value: &IValue) -> Result<T, ConvertError>
    ensures same { IfOk result (λ x. Same (T.FromIValue.tree x) value.now.tree) }
    ensures read { IfOk result (λ x. IsRead T.FromIValue.refused value.now.tree) }
    ensures none { IfOk result (λ x. T.FromIValue.null_is_none x) }
    ensures refused { IfErr result (λ e. (e ≡ Memory) ⊎ T.FromIValue.refused value.now.tree e) }
{
    T::from_ivalue(alloc, value)
}
