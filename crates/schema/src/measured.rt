//! The measures of the patterns that items end.

ghost use Rattle.std.specs.Prelude.{◌≡◌};
ghost use Rattle.grammar.specs.Measures.{measure_of};
ghost use Rattle.schema.specs.Reading.{pattern_at};
ghost use Rattle.schema.specs.Progress.{Ends, Knows};

use crate::progress::Progress;
use crate::table::Table;
use arrayvec::ArrayVec;
use grammar::Measure;
use grammar::measure::most_of;
use items::Item;
use questions::limits::MOST_ITEMS;

/// The measures of what the first items make.
pub(crate) type Known = ArrayVec<Measure, MOST_ITEMS>;

impl Progress {
    /// The measure of the pattern that item `i` ends, from those of the patterns that it takes. What is known is looked up.
    pub(crate) fn measure(&self, table: &Table, i: usize) -> Measure
        requires ends { Ends table.now i }
        requires knows { Knows table.now self.now.scope self.now.known }
        ensures { result ≡ measure_of self.now.scope (pattern_at table.now i) }
    {
        if let Some(m) = self.known.get(i) {
            return *m;
        }
        let item = table.item(i);
        match item {
            Item::Nothing => Measure::nothing(),
            Item::Atom(_) => Measure::atom(),
            Item::Event(_) => self.measure(table, i - 1).inside(),
            Item::Both(_) | Item::Either => {
                let later = self.measure(table, i - 1);
                let earlier = self.measure(table, i - 1 - usize::from(later.items));
                match item {
                    Item::Either => earlier.either(later),
                    _ => earlier.both(later),
                }
            }
            Item::Repeat(_, least, most) => {
                let once = self.measure(table, i - 1);
                once.repeat(least, most_of(self.scope, most))
            }
            Item::Root(_) | Item::Pick(_) | Item::Relate(_) | Item::AtMost(_) | Item::Unknown =>
                unreachable(),
        }
    }
}
