//! The items of a table, and the questions that are asked of numbers alone: 4 to 6 of an item, 8 and 9 of a measure, 10 to 12 of what
//! all items leave. Each call answers the first question that fails, or none, for every input.

#![tactic(auto)]

pub mod ask;
pub mod item;

pub use ask::{Tally, ask_item, ask_measure, ask_whole};
pub use item::{Item, item_of};
