//! Immutable strings: up to 7 bytes are inline, and longer strings are shared through a cache.
#![tactic(auto)]

mod block;
mod cache;
mod hash;
mod seeded;
mod table;
mod text;

pub use cache::StringCache;
pub use seeded::SeededState;
pub use text::IString;
