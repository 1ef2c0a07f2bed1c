//! Rows of bits, one for each event. How a row is stored is known here only: elsewhere it is the number that it holds.

#![tactic(auto)]

pub mod row;

pub use row::Row;
