//! The questions that a call asks of what it is handed, by number, and the refusal that names the first one that fails.
//! `limits` has the numbers that the questions ask about.

#![tactic(auto)]

pub mod limits;
pub mod question;
pub mod refusal;

pub use question::Question;
pub use refusal::Refusal;
