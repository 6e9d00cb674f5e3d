//! Tests of values: the properties of values of all kinds, and the effects of calls on values.

mod built;
mod known;
mod moves;
mod numbers;
mod steps;
