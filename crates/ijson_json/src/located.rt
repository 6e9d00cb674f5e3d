//! The error of a rejected text with its line and column, for messages.
ghost use Rattle.std.specs.Prelude.{◌≡◌, Some};
ghost use Rattle.ijson_json.specs.Located.{Locates, message};

use crate::fault::JsonError;
use crate::line_column::{LineColumn, line_and_column};
use std::error::Error;
use std::fmt;

/// Why a text was rejected, and the line and column of the fault.
///
/// Displays as `syntax at line 2, column 7`.
#[derive(Clone, Copy, PartialEq, Eq, Debug)]
pub enum LocatedError {
    /// The text is not JSON.
    Syntax { at: LineColumn },
    /// Nesting deeper than 127.
    TooDeep { at: LineColumn },
    /// A number with an exponent beyond the limit.
    NumberRange { at: LineColumn },
    /// An allocation failed.
    Memory,
}

/// Displays the reason, then the line and the column.
impl fmt::Display for LocatedError {
    ghost output = { λ error. Some (message error) };

    fn fmt<W: fmt::Write>(&self, f: &mut fmt::Formatter<W>) -> fmt::Result {
        match self {
            LocatedError::Syntax { at } => write!(f, "syntax at {at}"),
            LocatedError::TooDeep { at } => write!(f, "nesting too deep at {at}"),
            LocatedError::NumberRange { at } => write!(f, "number out of range at {at}"),
            LocatedError::Memory => f.write_str("out of memory"),
        }
    }
}

impl Error for LocatedError {}

impl JsonError {
    /// Returns the error with its line and column in `text`, which is the rejected text.
    ///
    /// ```
    /// let value = from_json(alloc, &mut cache, text).map_err(|error| error.locate(text))?;
    /// ```
    ///
    /// # Cost
    ///
    /// Linear in the text before the offset. Does not allocate.
    pub fn locate(self, text: &str) -> LocatedError
        ensures { Locates text.now self result }
    {
        match self {
            JsonError::Syntax { at } => LocatedError::Syntax {
                at: line_and_column(text, at),
            },
            JsonError::TooDeep { at } => LocatedError::TooDeep {
                at: line_and_column(text, at),
            },
            JsonError::NumberRange { at } => LocatedError::NumberRange {
                at: line_and_column(text, at),
            },
            JsonError::Memory => LocatedError::Memory,
        }
    }
}
