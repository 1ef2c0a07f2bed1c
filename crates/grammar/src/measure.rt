//! How many items write a pattern, how many choices it has and how many events it lays at most.

ghost use Rattle.std.specs.Prelude.{◌≡◌, ◌*◌, ◌^◌};
ghost use Rattle.grammar.specs.Pattern.{powers, span, most as most_at};
ghost use Rattle.grammar.specs.Measures.{count_capped, capped, nothing_measure, atom_measure, inside_measure, both_measure, either_measure, repeat_measure};

use questions::limits::{MOST_CANDIDATES, MOST_EVENTS, MOST_ITEMS, SCOPE_MARK};

/// A pattern's measure. Each number stops one past its limit, so that it says whether the limit is passed and never overflows.
#[derive(Debug, Clone, Copy, PartialEq, Eq, Default)]
pub struct Measure {
    pub items: u16,
    pub count: u32,
    pub length: u8,
}

/// A number of choices, as far as one past the limit.
fn count_capped(n: u64) -> u32
    ensures { result ≡ count_capped n }
{
    n.min(u64::from(MOST_CANDIDATES) + 1) as u32
}

/// A product of numbers of choices, as far as one past the limit.
pub fn product_capped(a: u32, b: u32) -> u32
    ensures { result ≡ count_capped (a * b) }
{
    count_capped(u64::from(a) * u64::from(b))
}

/// The `k`-th power of a number of choices, as far as one past the limit.
fn power_capped(c: u32, k: u8) -> u32
    ensures { result ≡ count_capped (c ^ k) }
{
    (0..k).fold(1, |power, _i| product_capped(power, c))
}

/// All powers of `c` from the `least`-th to the `most`-th, added up.
fn powers_capped(c: u32, least: u8, most: u8) -> u32
    ensures { result ≡ count_capped (powers c (span least most) least) }
{
    // Each power is the one before times `c`: counted on its own, it would take as many products as its exponent.
    // The sum of 256 capped powers fits, so it is capped once, at the end.
    let first = power_capped(c, least);
    let exponents = u32::from(least)..u32::from(most) + 1;
    let sum = exponents
        .scan(first, |power, _k| {
            let here = *power;
            *power = product_capped(here, c);
            Some(u64::from(here))
        })
        .sum();
    count_capped(sum)
}

/// The most of a repetition: the mark stands for the scope.
pub fn most_of(scope: u8, most: u8) -> u8
    ensures { result ≡ most_at scope most }
{
    if most == SCOPE_MARK { scope } else { most }
}

impl Measure {
    /// Of so many items, choices and events, each as far as one past the limit.
    fn capped(items: u32, count: u64, length: u32) -> Measure
        ensures { result ≡ capped items count length }
    {
        Measure {
            items: items.min(MOST_ITEMS as u32 + 1) as u16,
            count: count_capped(count),
            length: length.min(MOST_EVENTS as u32 + 1) as u8,
        }
    }

    // `nothing` and `atom` differ in one number; with it as a parameter, a call would not say what is measured.

    /// Of nothing.
    pub fn nothing() -> Measure
        ensures { result ≡ nothing_measure }
    {
        Measure {
            items: 1,
            count: 1,
            length: 0,
        }
    }

    /// Of an atomic event.
    pub fn atom() -> Measure
        ensures { result ≡ atom_measure }
    {
        Measure {
            items: 1,
            count: 1,
            length: 1,
        }
    }

    /// Of an event or a root with this inside.
    pub fn inside(self) -> Measure
        ensures { result ≡ inside_measure self }
    {
        Measure::capped(
            u32::from(self.items) + 1,
            u64::from(self.count),
            u32::from(self.length) + 1,
        )
    }

    /// Of this and a later pattern, as a sequence or as a set.
    pub fn both(self, later: Measure) -> Measure
        ensures { result ≡ both_measure self later }
    {
        Measure::capped(
            u32::from(self.items) + u32::from(later.items) + 1,
            u64::from(self.count) * u64::from(later.count),
            u32::from(self.length) + u32::from(later.length),
        )
    }

    /// Of this or a later pattern.
    pub fn either(self, later: Measure) -> Measure
        ensures { result ≡ either_measure self later }
    {
        Measure::capped(
            u32::from(self.items) + u32::from(later.items) + 1,
            u64::from(self.count) + u64::from(later.count),
            u32::from(self.length.max(later.length)),
        )
    }

    /// Of this pattern from `least` to `most` times.
    // They stay two numbers: an item has its most as written, this call as the scope reads it.
    pub fn repeat(self, least: u8, most: u8) -> Measure
        ensures { result ≡ repeat_measure least most self }
    {
        Measure::capped(
            u32::from(self.items) + 1,
            u64::from(powers_capped(self.count, least, most)),
            u32::from(most) * u32::from(self.length),
        )
    }
}
