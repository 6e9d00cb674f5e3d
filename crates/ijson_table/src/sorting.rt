//! Building tables by sorting, which bounds the time even if many keys collide.

pub mod build;
pub mod duplicates;
pub mod earlier;
pub mod merge_sort;
pub mod order;
