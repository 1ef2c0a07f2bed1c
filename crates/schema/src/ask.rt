//! The questions that are asked of the table itself: 1 to 3, and 7.

ghost use Rattle.std.specs.Prelude.{◌≡◌};
ghost use Rattle.schema.specs.Questions.{opening, shares, shared};

use crate::table::{Table, word_at};
use grammar::{Relation, Selection};
use items::Item;
use questions::Question;
use questions::limits::{MOST_ITEMS, MOST_ROOTS, MOST_SCOPE};

/// Questions 1 to 3.
pub(crate) fn ask_opening(bytes: &[u8], scope: u8) -> Result<(), Question>
    ensures { result ≡ opening bytes.now scope }
{
    if bytes.len() < 4 {
        return Err(Question::Bytes);
    }
    // At their places, since there is no `Table` before this passes.
    let items = usize::from(word_at(bytes, 0));
    let roots = usize::from(word_at(bytes, 2));
    if bytes.len() != 4 + 3 * items {
        return Err(Question::Bytes);
    }
    if items < 1 || items > MOST_ITEMS || roots < 1 || roots > MOST_ROOTS {
        return Err(Question::Sizes);
    }
    if scope < 1 || scope > MOST_SCOPE {
        return Err(Question::Scope);
    }
    Ok(())
}

fn may_share(table: &Table, x: Selection, y: Selection) -> bool
    ensures { result ≡ shares table.now x y }
{
    x.event == y.event && x.root != y.root && !table.encloses(u16::from(x.event))
}

/// Question 7, of an item and the two picks before it.
pub(crate) fn ask_sharing(
    table: &Table,
    item: Item,
    x: Selection,
    y: Selection,
) -> Result<(), Question>
    ensures { result ≡ shared table.now item x y }
{
    match item {
        Item::Relate(Relation::Share) if !may_share(table, x, y) => Err(Question::Sharing),
        _ => Ok(()),
    }
}
