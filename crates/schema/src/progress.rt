//! How far a check has come, and one more item: asked, measured, counted, and its root planned.

ghost use Rattle.std.specs.Prelude.{◌≡◌, ℕ, suc, ◌<◌, ◌≤◌, List, OnOk};
ghost use Rattle.questions.specs.Limits.{most_candidates, most_events};
ghost use Rattle.grammar.specs.Measures.{measure_of};
ghost use Rattle.schema.specs.Bytes.{item_count, root_count};
ghost use Rattle.schema.specs.Questions.{made_at, asks};
ghost use Rattle.schema.specs.Progress.{Admitted, Knows, KnowsMade, Counted, Holds};

use crate::ask::ask_sharing;
use crate::measured::Known;
use crate::plan::{Plan, Root};
use crate::table::Table;
use grammar::measure::product_capped;
use grammar::{Measure, Selection};
use items::{Item, Tally, ask_item, ask_measure};
use questions::Question;

/// A check at a scope, and what the items so far leave: what is closed and what waits, the latest two picks, the total and the length of
/// the closed roots, their plan, and the measures of the items.
// A pick that does not wait is all zero, and no `None`: the tally says how many wait, and only a pick that waits is asked about.
#[derive(Drop)]
pub(crate) struct Progress {
    pub(crate) scope: u8,
    pub(crate) tally: Tally,
    pub(crate) earlier: Selection,
    pub(crate) later: Selection,
    pub(crate) total: u32,
    pub(crate) length: u32,
    pub(crate) plan: Plan,
    pub(crate) known: Known,
}

impl Progress {
    /// Before the first item.
    pub(crate) fn start(scope: u8, roots: usize) -> Progress
        ensures scope { result.scope ≡ scope }
        ensures holds { (b : List ℕ) → roots ≡ root_count b → Holds b 0 result }
    {
        Progress {
            scope,
            tally: Tally {
                roots,
                closed: 0,
                patterns: 0,
                picks: 0,
            },
            earlier: Selection::default(),
            later: Selection::default(),
            total: 1,
            length: 0,
            plan: Plan::empty(),
            known: Known::new(),
        }
    }

    /// The measure of what item `i` makes, which has passed questions 4 to 6: a pattern, a root's event, or else nothing.
    fn measure_made(&self, table: &Table, i: usize) -> Measure
        requires admitted { Admitted table.now self.now.scope i }
        requires knows { Knows table.now self.now.scope self.now.known }
        ensures { result ≡ measure_of self.now.scope (made_at table.now i) }
    {
        match table.item(i) {
            Item::Root(_) => self.measure(table, i - 1).inside(),
            Item::Pick(_) | Item::Relate(_) | Item::AtMost(_) | Item::Unknown => Measure::nothing(),
            _ => self.measure(table, i),
        }
    }

    /// Counts item `i`, which has passed, and whose measure is `m`.
    fn settle(&mut self, table: &Table, i: usize, m: Measure)
        requires admitted { Admitted table.now self.old.scope i }
        requires counted { Counted table.now i self.old }
        requires measured { m ≡ measure_of self.old.scope (made_at table.now i) }
        requires count { m.count ≤ most_candidates }
        requires length { m.length ≤ most_events }
        ensures counted { Counted table.now (suc i) self.new }
        ensures scope { self.new.scope ≡ self.old.scope }
        ensures known { self.new.known ≡ self.old.known }
    {
        match table.item(i) {
            Item::Nothing | Item::Atom(_) => self.tally.patterns += 1,
            Item::Event(_) | Item::Repeat(_, _, _) => {}
            Item::Both(_) | Item::Either => self.tally.patterns -= 1,
            Item::Root(event) => {
                let root = Root {
                    event: event as u8,
                    item: i as u8,
                    count: m.count,
                    length: m.length,
                };
                self.plan.close(self.tally.closed, root);
                self.tally.closed += 1;
                self.total = product_capped(self.total, m.count);
                self.length += u32::from(m.length);
                self.tally.patterns = 0;
            }
            Item::Pick(x) => {
                self.earlier = self.later;
                self.later = x;
                self.tally.picks += 1;
            }
            Item::Relate(_) | Item::AtMost(_) => {
                self.earlier = Selection::default();
                self.later = Selection::default();
                self.tally.picks = 0;
            }
            Item::Unknown => {}
        }
    }

    /// Asks questions 4 to 9 of item `i`, and counts it where none fails.
    // An item is its number, as in `Table::item`.
    pub(crate) fn take(&mut self, table: &Table, i: usize) -> Result<(), Question>
        requires within { i < item_count table.now }
        requires holds { Holds table.now i self.old }
        ensures answer { result ≡ asks table.now self.old.scope i }
        ensures scope { OnOk result (self.new.scope ≡ self.old.scope) }
        ensures goes { OnOk result (Holds table.now (suc i) self.new) }
        ensures made { OnOk result
            (KnowsMade table.now self.old.scope self.old.known
            → KnowsMade table.now self.new.scope self.new.known) }
    {
        let item = table.item(i);
        ask_item(self.scope, self.tally, item, table.argument(i))?;
        ask_sharing(table, item, self.earlier, self.later)?;
        let m = self.measure_made(table, i);
        ask_measure(m)?;
        self.known.push(m);
        self.settle(table, i, m);
        Ok(())
    }
}
