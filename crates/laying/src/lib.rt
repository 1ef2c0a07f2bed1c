//! Lays the events of a candidate: their types in laying order, the nearest event around each, and which precede which.
//!
//! `lay` gives exactly what specs/Laying.antt computes from the candidate's choices, for every checked table, number and number of roots;
//! specs/Promises.antt says what that means in the words of events.

#![tactic(auto)]

mod candidate;
pub mod laid;
mod pattern;

pub use candidate::lay;
pub use laid::{Laid, LaidEvent};
