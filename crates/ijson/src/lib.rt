//! Compact JSON values with exact decimals.
//!
//! A number is an exact decimal that remembers whether it was written with a decimal point. An
//! object is an ordered list of entries with distinct keys. `==` ignores the order of entries.
//!
//! `json::from_json` reads JSON and `json::to_json` writes it. Every function that allocates
//! returns an error if the allocation fails. This crate re-exports the modules of the library.
//!
//! The tests of all modules are in `src/tests`. Example programs with contracts are in
//! `src/examples`.
#![tactic(auto)]

pub mod json;
pub mod literal;
pub mod macros;

pub use ijson_convert as convert;
pub use ijson_convert::{from_value, to_value};
pub use ijson_extra::{canonical, merge_patch, pointer};
pub use ijson_number as number;
pub use ijson_number::{INumber, ParseNumberError};
pub use ijson_string as string;
pub use ijson_string::IString;
pub use ijson_table as table;
pub use ijson_value::array::IArray;
pub use ijson_value::object::IObject;
pub use ijson_value::value::{
    BoolMut, Destructured, DestructuredMut, DestructuredRef, IValue, ValueIndex, ValueType,
};
pub use ijson_value::{array, object, value};

#[cfg(test)]
mod examples;
#[cfg(test)]
mod tests;
