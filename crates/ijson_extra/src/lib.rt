//! Canonical text, JSON Merge Patch and JSON Pointer, built on the public contracts of the other
//! crates.
#![tactic(auto)]

pub mod canonical;
pub mod merge_patch;
pub mod pointer;
