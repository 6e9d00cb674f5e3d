//! Exact decimals, as JSON writes numbers.
//!
//! Each module uses only those before it: `lanes`, `significand`, `repr::stored`, `repr`,
//! `grammar`, `fast_reader`, `general_reader`, `encode`, `write_display`, `write_fast`,
//! `comparison`, `number`, `integers`.
#![tactic(auto)]

mod comparison;
mod encode;
mod fast_reader;
mod general_reader;
mod grammar;
mod integers;
mod lanes;
mod number;
mod repr;
mod significand;
mod write_display;
mod write_fast;

pub use comparison::{DigitRow, Looks, compare};
pub use number::{Form, ParseNumberError, ReadNumberError};
pub use repr::INumber;
