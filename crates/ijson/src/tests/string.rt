//! Tests of strings: their properties, their cache and its allocations, how often strings are
//! hashed, and the seed of a `SeededState`.

mod cache;
mod large;
mod numbers;
mod seeds;
mod texts;
