//! The errors of conversions.
ghost use Rattle.std.specs.Prelude.{◌≡◌};
ghost use Rattle.ijson_convert.specs.declared.convert_error.ConvertError.TheVariants.{Memory};

use ijson_table::ReserveError;
use ijson_value::array::Refused;
use ijson_value::object::RefusedPair;
use std::alloc::AllocError;
use thiserror::Error;

/// The reason why a conversion failed.
#[derive(Clone, Copy, PartialEq, Eq, Debug, Drop, Error)]
pub enum ConvertError {
    /// The kind of the JSON value does not match the Rust type.
    #[error("the value is of another kind")]
    WrongKind,
    /// The number is not an integer in the range of the Rust type.
    #[error("not a whole number in the range of the type")]
    OutOfRange,
    /// The number is not an integer in the range of `i64` or `u64`, or is a float of `serde_json`.
    #[error("a number that is neither an i64 nor a u64")]
    Number,
    /// An allocation failed, or the capacity of an object would exceed `2 ^ 56`.
    #[error("out of memory")]
    Memory,
}

/// Converts to `Memory`.
impl From<AllocError> for ConvertError {
    ghost from_gives = { λ _ e. e ≡ Memory };

    fn from(_refused: AllocError) -> ConvertError {
        ConvertError::Memory
    }
}

/// Converts to `Memory` and drops the element.
impl From<Refused> for ConvertError {
    ghost from_gives = { λ _ e. e ≡ Memory };

    fn from(refused: Refused) -> ConvertError {
        drop(refused);
        ConvertError::Memory
    }
}

/// Converts to `Memory` and drops the entry.
impl From<RefusedPair> for ConvertError {
    ghost from_gives = { λ _ e. e ≡ Memory };

    fn from(refused: RefusedPair) -> ConvertError {
        drop(refused);
        ConvertError::Memory
    }
}

/// Converts to `Memory`, also if the requested capacity of an object was too large.
impl From<ReserveError> for ConvertError {
    ghost from_gives = { λ _ e. e ≡ Memory };

    fn from(_refused: ReserveError) -> ConvertError {
        ConvertError::Memory
    }
}
