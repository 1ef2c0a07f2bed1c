//! Reads a schema table, which is any byte string: questions 1 to 12, the number of candidates and the plan of the roots.
//!
//! `check` answers exactly what specs/Questions.antt computes, and specs/Promises.antt says what that means: a table is accepted exactly
//! when it is the writing of a schema within the limits, and that schema is the only one.

#![tactic(auto)]

mod accepted;
mod ask;
pub mod checked;
mod found;
mod measured;
pub mod plan;
mod progress;
mod table;
mod verdict;

pub use checked::Checked;
pub use plan::{Plan, Root};
pub use verdict::check;
