//! Questions on numbers.

ghost use Rattle.std.specs.Prelude.{◌≡◌};
ghost use Rattle.items.specs.Asked.{counts_suit, pick_suits, asked, sized, closing};

use crate::item::Item;
use grammar::measure::most_of;
use grammar::{Measure, Selection};
use questions::Question;
use questions::limits::{MOST_CANDIDATES, MOST_EVENTS, MOST_TIMES, MOST_TYPE, SCOPE_MARK};

/// How many roots a table states, how many are closed, and how many patterns and picks wait.
#[derive(Clone, Copy)]
pub struct Tally {
    pub roots: usize,
    pub closed: usize,
    pub patterns: usize,
    pub picks: usize,
}

/// Do the least and the most count of a repetition suit?
fn counts_suit(scope: u8, least: u8, most: u8) -> bool
    ensures { result ≡ counts_suit scope least most }
{
    least <= MOST_TIMES
        && (most <= MOST_TIMES || most == SCOPE_MARK)
        && least <= most_of(scope, most)
}

/// Do the root and the type of a pick suit?
fn pick_suits(roots: usize, x: Selection) -> bool
    ensures { result ≡ pick_suits roots x }
{
    usize::from(x.root) < roots && u16::from(x.event) <= MOST_TYPE
}

/// Questions 4 to 6, of an item with its argument.
pub fn ask_item(scope: u8, tally: Tally, item: Item, argument: u16) -> Result<(), Question>
    ensures { result ≡ asked scope tally item argument }
{
    match (item, argument) {
        (Item::Unknown, _) => Err(Question::Kind),
        (Item::Nothing | Item::Both(_) | Item::Either | Item::Relate(_), 1..) => Err(
            Question::Argument,
        ),
        (Item::Atom(t) | Item::Event(t) | Item::Root(t), _) if t > MOST_TYPE => Err(
            Question::Argument,
        ),
        (Item::Repeat(_, least, most), _) if !counts_suit(scope, least, most) => Err(
            Question::Argument,
        ),
        (Item::Pick(x), _) if !pick_suits(tally.roots, x) => Err(Question::Argument),
        (Item::AtMost(n), _) if usize::from(n) > MOST_EVENTS => Err(Question::Argument),
        (Item::Pick(_) | Item::Relate(_) | Item::AtMost(_), _) if tally.closed != tally.roots =>
            Err(Question::Takes),
        (Item::Pick(_), _) if tally.picks > 1 => Err(Question::Takes),
        (Item::Relate(_), _) if tally.picks != 2 => Err(Question::Takes),
        (Item::AtMost(_), _) if tally.picks != 1 => Err(Question::Takes),
        (Item::Pick(_) | Item::Relate(_) | Item::AtMost(_), _) => Ok(()),
        (_, _) if tally.closed >= tally.roots => Err(Question::Takes),
        (Item::Event(_) | Item::Repeat(_, _, _), _) if tally.patterns < 1 => Err(Question::Takes),
        (Item::Both(_) | Item::Either, _) if tally.patterns < 2 => Err(Question::Takes),
        (Item::Root(_), _) if tally.patterns != 1 => Err(Question::Takes),
        (_, _) => Ok(()),
    }
}

/// Questions 8 and 9, of what a pattern or a root measures.
pub fn ask_measure(m: Measure) -> Result<(), Question>
    ensures { result ≡ sized m.count m.length }
{
    if m.count > MOST_CANDIDATES {
        return Err(Question::Count);
    }
    if usize::from(m.length) > MOST_EVENTS {
        return Err(Question::Length);
    }
    Ok(())
}

/// Questions 10 to 12, of what all items leave: the total and the sum of the root lengths.
pub fn ask_whole(tally: Tally, total: u32, length: u32) -> Result<(), Question>
    ensures { result ≡ closing tally total length }
{
    if tally.closed != tally.roots || tally.patterns != 0 || tally.picks != 0 {
        return Err(Question::Whole);
    }
    if total > MOST_CANDIDATES {
        return Err(Question::Total);
    }
    if length as usize > MOST_EVENTS {
        return Err(Question::Events);
    }
    Ok(())
}
