//! One number taken apart into those of the patterns below.

ghost use Rattle.std.specs.Prelude.{◌≡◌, ◌/◌, ◌%◌};
ghost use Rattle.numbering.specs.Splits.{side_at, times_at};

/// One past the largest number that 32 bits hold: a power stops here.
const POWER_CAP: u64 = 1 << 32;

/// The side of an alternative, with the number there.
// Not `Either` of the crate `either`: its `Left` and `Right` would not say which pattern comes first.
#[derive(Debug, Clone, Copy, PartialEq, Eq)]
pub enum Taken {
    Earlier(u32),
    Later(u32),
}

/// How often a pattern occurs, the number among the choices with as many occurrences, and how many those are, as far as 2^32.
#[derive(Debug, Clone, Copy, PartialEq, Eq, Default)]
pub struct Repeated {
    pub times: u8,
    pub number: u32,
    pub power: u64,
}

/// The numbers of the earlier and of the later pattern of a sequence or a set: quotient and rest by the later one's count. A pattern
/// without choices takes nothing off the number.
pub fn split_pair(number: u32, later: u32) -> (u32, u32)
    ensures earlier { result.0 ≡ number / later }
    ensures later { result.1 ≡ number % later }
{
    if later == 0 {
        return (0, number);
    }
    (number / later, number % later)
}

/// An alternative gives its earlier pattern the first numbers.
pub fn split_side(number: u32, earlier: u32) -> Taken
    ensures { result ≡ side_at earlier number }
{
    if number < earlier {
        Taken::Earlier(number)
    } else {
        Taken::Later(number - earlier)
    }
}

/// A repetition from `least` to `most` times of a pattern with `once` choices gives the smaller counts the first numbers. A number past all
/// of them stays with the last.
pub fn split_times(once: u32, least: u8, most: u8, number: u32) -> Repeated
    ensures { result ≡ times_at once least most number }
{
    let once = u64::from(once);
    let mut times = least;
    let mut power = once.saturating_pow(u32::from(times)).min(POWER_CAP);
    let mut rest = number;
    // No `for`: its count would be gone where `most` ends the loop, and is returned there too.
    while times < most && u64::from(rest) >= power {
        rest -= power as u32;
        power = power.saturating_mul(once).min(POWER_CAP);
        times += 1;
    }
    Repeated {
        times,
        number: rest,
        power,
    }
}
