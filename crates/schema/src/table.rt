//! The bytes of a table whose items are all there.

ghost use Rattle.std.specs.Prelude.{◌≡◌, ◌+◌, ◌<◌, List, ℕ, length};
ghost use Rattle.schema.specs.Bytes.{word, item_count, root_count, argument_at, item_at};
ghost use Rattle.schema.specs.Questions.{encloses, enclosed};
ghost use Rattle.schema.specs.Progress.{Sized};

use items::{Item, item_of};
use std::marker::Model;

/// A table that passed questions 1 and 2: every item has its kind and its argument there.
#[derive(Drop)]
pub(crate) struct Table<'a> {
    bytes: &'a [u8],
}

impl<'a> Model for Table<'a> {
    ghost Value = { List ℕ };

    ghost view = { λ t. t.bytes.now };

    ghost invariant = { λ t. Sized t.bytes.now };
}

/// 16 bits at place `i`, low byte first.
pub(crate) fn word_at(bytes: &[u8], i: usize) -> u16
    requires { i + 1 < length bytes.now }
    ensures { result ≡ word bytes.now i }
{
    u16::from_le_bytes([bytes[i], bytes[i + 1]])
}

impl<'a> Table<'a> {
    /// The table of some bytes.
    pub(crate) fn of(bytes: &'a [u8]) -> Table<'a>
        requires { Sized bytes.now }
        ensures { result ≡ bytes.now }
    {
        Table { bytes }
    }

    /// How many items there are.
    pub(crate) fn items(&self) -> usize
        ensures { result ≡ item_count self.now }
    {
        usize::from(word_at(self.bytes, 0))
    }

    /// How many roots there are to be.
    pub(crate) fn roots(&self) -> usize
        ensures { result ≡ root_count self.now }
    {
        usize::from(word_at(self.bytes, 2))
    }

    // An item has no type of its own that says it is there: it is an index with its bound, as in a slice.

    /// The argument of item `i`.
    pub(crate) fn argument(&self, i: usize) -> u16
        requires { i < item_count self.now }
        ensures { result ≡ argument_at self.now i }
    {
        word_at(self.bytes, 4 + self.items() + 2 * i)
    }

    /// Item `i`. Any item that there is shows that the table is sized.
    pub(crate) fn item(&self, i: usize) -> Item
        requires { i < item_count self.now }
        ensures item { result ≡ item_at self.now i }
        ensures sized { Sized self.now }
    {
        let bytes = self.bytes;
        item_of(bytes[4 + i], self.argument(i))
    }
}

/// Is this an event with an inside, or a root, of type `event`?
fn encloses(item: Item, event: u16) -> bool
    ensures { result ≡ encloses item event }
{
    match item {
        Item::Event(t) | Item::Root(t) => t == event,
        _ => false,
    }
}

impl Table<'_> {
    /// Is there an event with an inside, or a root, of type `event` among its items?
    // All are read, since an accepted table has none: `any`, with its way out at each, takes twice the time.
    pub(crate) fn encloses(&self, event: u16) -> bool
        ensures { result ≡ enclosed self.now event (item_count self.now) }
    {
        (0..self.items()).fold(false, |found, i| encloses(self.item(i), event) || found)
    }
}
