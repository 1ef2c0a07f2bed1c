//! What an item of a table says.

ghost use Rattle.std.specs.Prelude.{◌≡◌};
ghost use Rattle.items.specs.Items.{item_of};

use grammar::{Order, Relation, Selection};

/// An item, by its kind and argument. What it takes, it takes from the top of the stack of waiting patterns or picks.
#[derive(Debug, Clone, Copy, PartialEq, Eq)]
pub enum Item {
    /// Kind 0: nothing.
    Nothing,
    /// Kind 1: an atomic event of this type.
    Atom(u16),
    /// Kind 2: an event of this type, with a pattern inside.
    Event(u16),
    /// Kinds 3 and 4: two patterns, as a sequence or as a set.
    Both(Order),
    /// Kind 5: one of two patterns.
    Either,
    /// Kinds 6 and 7: a pattern from a least to a most number of times, in order or as a set.
    Repeat(Order, u8, u8),
    /// Kind 8: a root of this type.
    Root(u16),
    /// Kind 9: a pick.
    Pick(Selection),
    /// Kinds 10 to 13 and 15: an operation on two picks.
    Relate(Relation),
    /// Kind 14: at most so many events of one pick.
    AtMost(u16),
    /// Any other kind. No `None` instead: `item_of` cannot fail, and question 4 is asked of what it gives.
    Unknown,
}

/// The item of a kind and an argument.
// No `From`: two numbers of a table are no type of their own.
pub fn item_of(kind: u8, argument: u16) -> Item
    ensures { result ≡ item_of kind argument }
{
    let [low, high] = argument.to_le_bytes();
    match kind {
        0 => Item::Nothing,
        1 => Item::Atom(argument),
        2 => Item::Event(argument),
        3 => Item::Both(Order::InOrder),
        4 => Item::Both(Order::AsSet),
        5 => Item::Either,
        6 => Item::Repeat(Order::InOrder, low, high),
        7 => Item::Repeat(Order::AsSet, low, high),
        8 => Item::Root(argument),
        9 => Item::Pick(Selection {
            root: high,
            event: low,
        }),
        10 => Item::Relate(Relation::Share),
        11 => Item::Relate(Relation::Coordinate),
        12 => Item::Relate(Relation::AsMany),
        13 => Item::Relate(Relation::NoMore),
        14 => Item::AtMost(argument),
        15 => Item::Relate(Relation::FewerBefore),
        _ => Item::Unknown,
    }
}
