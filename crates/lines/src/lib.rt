//! The text that the programs print, and what they read of their arguments.

#![tactic(auto)]

mod argument;
mod card;
mod laid;
mod page;
mod refused;

pub use argument::{number_said, scope_said};
pub use card::{card_of, card_text};
pub use laid::laid_text;
