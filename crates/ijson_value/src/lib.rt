//! JSON values, arrays, and objects with distinct keys.
#![tactic(auto)]

pub mod array;
mod clone;
mod debug;
mod hash;
pub mod object;
mod order;
mod same;
pub mod value;
mod word_fold;
