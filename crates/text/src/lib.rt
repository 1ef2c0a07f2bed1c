//! Text in fixed room, without allocation: what has no room is left out.

#![tactic(auto)]

pub mod sheet;

pub use sheet::Text;
