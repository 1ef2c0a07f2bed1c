//! A program's argument.

ghost use Rattle.std.specs.Prelude.{◌≡◌};
ghost use Rattle.lines.specs.Argument.{scope_said, number_more, number_said};

/// How many digits a number has at most.
const MOST_DIGITS: usize = 10;

/// The scope that an argument says: one digit says itself, and anything else 0, which question 3 refuses.
// No `Option`: that an argument says no scope is for question 3 to say, after questions 1 and 2.
pub fn scope_said(argument: &[u8]) -> u8
    ensures { result ≡ scope_said argument.now }
{
    match argument {
        [digit @ b'0'..=b'9'] => *digit - b'0',
        _ => 0,
    }
}

/// A number and one digit more; none where that is no digit, or the number has more than 32 bits.
fn number_more(number: u32, digit: u8) -> Option<u32>
    ensures { result ≡ number_more number digit }
{
    let digit = char::from(digit).to_digit(10)?;
    number.checked_mul(10)?.checked_add(digit)
}

/// The number that an argument says in decimal, with ten digits at most; none where it says none, or one of more than 32 bits.
// `str::parse` does not serve: it takes a sign before the digits.
pub fn number_said(argument: &[u8]) -> Option<u32>
    ensures { result ≡ number_said argument.now }
{
    if argument.is_empty() || argument.len() > MOST_DIGITS {
        return None;
    }
    let mut number = 0;
    for digit in argument {
        number = number_more(number, *digit)?;
    }
    Some(number)
}
