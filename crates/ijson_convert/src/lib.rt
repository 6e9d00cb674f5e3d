//! Conversions between Rust values and JSON values.
//!
//! The tests are in `ijson/src/tests`: `conversions`, `serde`, `errors`, and `refusals` for failed
//! allocations.
#![tactic(auto)]

mod convert_error;
mod from_ivalue;
mod integers_from;
mod integers_to;
mod lists_from;
mod lists_to;
mod maps_from;
mod maps_to;
mod scalars_from;
mod scalars_to;
mod serde;
mod to_ivalue;
mod tuples_to;
mod values_to;

pub use convert_error::ConvertError;
pub use from_ivalue::{FromIValue, from_value};
pub use serde::{
    from_serde, from_serde_map, from_serde_number, to_serde, to_serde_map, to_serde_number,
};
pub use to_ivalue::{ToIValue, to_value};
