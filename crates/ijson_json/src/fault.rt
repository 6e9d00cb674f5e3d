//! Errors of the reader.

ghost use Rattle.std.specs.Prelude.{◌≡◌};
ghost use Rattle.ijson_json.specs.declared.fault.Fault.TheVariants.{Memory};

use std::alloc::{AllocError, AllocFailed};
use thiserror::Error;

/// Why an input was rejected.
///
/// `at` is a byte offset from 0, at most the length of the input. Examples:
///
/// - `[1 2]`: `Syntax` at 3
/// - `[1,`: `Syntax` at 3
/// - `01`: `Syntax` at 1
/// - `1e2000000000`: `NumberRange` at 0
#[derive(Clone, Copy, PartialEq, Eq, Debug, Error)]
pub enum JsonError {
    /// The input is not JSON.
    ///
    /// `at` is the first byte that no JSON text can have there. If the input ends too early, `at`
    /// is its length. If an escape is invalid, `at` is its backslash.
    #[error("syntax at byte {at}")]
    Syntax { at: usize },
    /// Nesting deeper than 127. `at` is the opening bracket that exceeds the limit.
    #[error("nesting too deep at byte {at}")]
    TooDeep { at: usize },
    /// A nonzero number with a canonical exponent below -2^30 or above 2^30. `at` is its first
    /// byte.
    #[error("number out of range at byte {at}")]
    NumberRange { at: usize },
    /// An allocation failed.
    #[error("out of memory")]
    Memory,
}

/// Converts an allocation failure to `Memory`.
impl From<AllocError> for JsonError {
    ghost use Rattle.ijson_json.specs.declared.fault.JsonError.TheVariants.{Memory as NoMemory};

    ghost from_gives = { λ _ error. error ≡ NoMemory };

    fn from(_refused: AllocError) -> JsonError {
        JsonError::Memory
    }
}

/// Why reading failed. `left` is the number of bytes left at that point.
#[derive(Clone, Copy)]
pub(crate) enum Fault {
    Syntax { left: usize },
    TooDeep { left: usize },
    NumberRange { left: usize },
    Memory,
}

/// Converts an allocation failure to `Memory`, and drops the value that was not stored.
impl<T: Drop> From<AllocFailed<T>> for Fault {
    ghost from_gives = { λ _ fault. fault ≡ Memory };

    fn from(_refused: AllocFailed<T>) -> Fault {
        Fault::Memory
    }
}

impl From<AllocError> for Fault {
    ghost from_gives = { λ _ fault. fault ≡ Memory };

    fn from(_refused: AllocError) -> Fault {
        Fault::Memory
    }
}
