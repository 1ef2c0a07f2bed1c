//! Numbers and choices: every choice that a pattern allows has one number below its count, and every number below it is one choice.
//! specs/Allows.antt says which choices are allowed, specs/Numbers.antt what number is which choice, specs/Promises.antt that they
//! correspond. The calls take a number apart, one pattern at a time.

#![tactic(auto)]

pub mod split;

pub use split::{Repeated, Taken, split_pair, split_side, split_times};
