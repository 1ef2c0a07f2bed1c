//! Event grammars: the parts that schemas are made of, and the measure of a pattern, taken without ever leaving its number ranges.
//! Patterns and schemas as data are in specs/, since no code has to hold one.

#![tactic(auto)]

pub mod measure;
pub mod part;

pub use measure::Measure;
pub use part::{Order, Relation, Selection};
