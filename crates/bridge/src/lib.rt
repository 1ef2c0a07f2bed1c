//! Calls by numbers and byte slices only. `bridge_c` exports them to Rust and C.

#![tactic(auto)]

ghost use Rattle.std.specs.Prelude.{◌≡◌, ◌-◌, ◌≤◌};
ghost use Rattle.bridge.specs.Laid.{events_at, events_from, told_events};
ghost use Rattle.bridge.specs.Packed.{packed};
ghost use Rattle.questions.specs.Limits.{most_events};
ghost use Rattle.schema.specs.Questions.{verdict};
ghost use Rattle.schema.specs.Told.{table_of};

use laying::lay;
use schema::{Checked, Plan, check};

// Answers are numbers, since only numbers and byte slices cross to C: a refusal is packed into one, and a refused table lays 0 events.

/// The total of a table at a scope; where the table is refused, 2^32 times the question's number, and the item added.
pub fn mandolkhui_check(table: &[u8], scope: u8) -> u64
    ensures { result ≡ packed (verdict table.now scope) }
{
    let mut plan = Plan::empty();
    match check(table, scope, &mut plan) {
        Ok(total) => u64::from(total),
        Err(refusal) => u64::from(refusal.question.number()) * 0x1_0000_0000
            + u64::from(refusal.item_shown()),
    }
}

// Named by bytes and scope, as for `lay`.

/// How many events a candidate lays, all its roots together; none where there is no such candidate.
fn events_at(schema: &Checked, number: u32) -> u64
    ensures events { result ≡ events_at (table_of schema.now) schema.now.scope number }
    ensures few { result ≤ most_events }
{
    lay(schema, number, schema.roots())
        .as_ref()
        .map_or(0, |laid| laid.events().len() as u64)
}

/// Lays the candidates from `first` on and below `last`, one after another, and tells how many events that were; 0 for a refused table.
pub fn mandolkhui_lay(table: &[u8], scope: u8, first: u32, last: u32) -> u64
    ensures { result
        ≡ told_events (verdict table.now scope) (events_from table.now scope first (last - first)) }
{
    let Ok(schema) = Checked::of(table, scope) else {
        return 0;
    };
    (first..last).map(|number| events_at(&schema, number)).sum()
}
