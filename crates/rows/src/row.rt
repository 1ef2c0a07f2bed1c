//! A row of bits.

ghost use Rattle.std.specs.Prelude.{◌≡◌, bit_or};
ghost use Rattle.rows.specs.Bits.{bit};
ghost use Rattle.rows.specs.Row.{value, one_bit};

use questions::limits::MOST_EVENTS;
use std::ops::{BitOr, BitOrAssign};

/// Bit j says something of event j.
// Clauses see its `value` and no Model, since what is Copy and holds a struct with a Model is not passed by value twice.
#[derive(Clone, Copy)]
pub struct Row {
    bits: u64,
}

impl Row {
    /// No bit.
    pub fn none() -> Row
        ensures { value result ≡ 0 }
    {
        Row { bits: 0 }
    }

    /// The bit of one place; past the last place, none.
    pub fn one(place: usize) -> Row
        ensures { value result ≡ one_bit place }
    {
        if place < MOST_EVENTS {
            Row { bits: 1 << place }
        } else {
            Row::none()
        }
    }

    /// Is the bit of this place set?
    pub fn has(self, place: usize) -> bool
        ensures { result ≡ bit (value self) place }
    {
        place < MOST_EVENTS && (self.bits >> place) & 1 == 1
    }

    /// The number whose bits these are.
    pub fn number(self) -> u64
        ensures { result ≡ value self }
    {
        self.bits
    }
}

/// The bits of both.
impl BitOr for Row {
    type Output = Row;

    ghost bitor_gives = { λ self other result. value result ≡ bit_or (value self) (value other) };

    fn bitor(self, other: Row) -> Row {
        Row {
            bits: self.bits | other.bits,
        }
    }
}

/// Sets the bits of the other row too.
impl BitOrAssign for Row {
    ghost bitor_assign_gives = { λ old other new. value new ≡ bit_or (value old) (value other) };

    fn bitor_assign(&mut self, other: Row) {
        *self = *self | other;
    }
}
