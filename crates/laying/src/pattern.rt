//! The patterns of a checked table, laid by their numbers. Each item lays what earlier items end, so the item's index falls. A pattern is
//! its items and no `Box`, since laying allocates nothing.

ghost use Rattle.std.specs.Prelude.{◌+◌, ◌≤◌};
ghost use Rattle.questions.specs.Limits.{most_events};
ghost use Rattle.rows.specs.Row.{value};
ghost use Rattle.laying.specs.Layable.{choice_at, longest, Layable, run_choice, longest_run, LayableRun};
ghost use Rattle.laying.specs.Lays.{LaysTop};

use crate::laid::Laid;
use grammar::Order;
use grammar::measure::most_of;
use items::Item;
use numbering::{Repeated, Taken, split_pair, split_side, split_times};
use rows::Row;
use schema::Checked;

/// Occurrences that are left to lay: in order or as a set, of a pattern that has so many choices.
#[derive(Clone, Copy)]
pub(crate) struct Run {
    pub(crate) order: Order,
    pub(crate) once: u32,
    pub(crate) left: Repeated,
}

/// Lays the choice that the pattern of item `i` has at a number, and gives its top events.
// No struct of what both functions pass on: `around` changes with each event around, and table and events would be joined inside laying
// alone.
// `room` is one inequality in three contracts: a name for it would hide what callers add up.
#[cycle(lay_pattern_lay_run)]
pub(crate) fn lay_pattern(
    schema: &Checked,
    i: usize,
    number: u32,
    around: Option<u8>,
    laid: &mut Laid,
) -> Row
    requires layable { Layable schema.now i number }
    requires room { laid.old.len + longest schema.now i ≤ most_events }
    ensures { LaysTop around (choice_at schema.now i number) (longest schema.now i)
        laid.old laid.new (value result) }
{
    match schema.item(i) {
        Item::Nothing => Row::none(),
        Item::Atom(event) => laid.push(event as u8, around),
        Item::Event(event) => {
            let place = laid.len as u8;
            let top = laid.push(event as u8, around);
            lay_pattern(schema, i - 1, number, Some(place), laid);
            top
        }
        Item::Both(order) => {
            let later = schema.measure(i - 1);
            let (n, m) = split_pair(number, later.count);
            let from = laid.len;
            let first = lay_pattern(schema, i - 1 - usize::from(later.items), n, around, laid);
            let to = laid.len;
            let second = lay_pattern(schema, i - 1, m, around, laid);
            laid.order(order, from, to, first, second)
        }
        Item::Either => {
            let at = i - 1 - usize::from(schema.measure(i - 1).items);
            match split_side(number, schema.measure(at).count) {
                Taken::Earlier(n) => lay_pattern(schema, at, n, around, laid),
                Taken::Later(n) => lay_pattern(schema, i - 1, n, around, laid),
            }
        }
        Item::Repeat(order, least, most) => {
            let once = schema.measure(i - 1).count;
            let left = split_times(once, least, most_of(schema.scope(), most), number);
            lay_run(schema, i - 1, Run { order, once, left }, around, laid)
        }
        Item::Root(_) | Item::Pick(_) | Item::Relate(_) | Item::AtMost(_) | Item::Unknown =>
            unreachable(),
    }
}

/// Lays occurrences of the pattern of item `i`: the first, and then the others.
#[cycle(lay_pattern_lay_run)]
fn lay_run(schema: &Checked, i: usize, run: Run, around: Option<u8>, laid: &mut Laid) -> Row
    requires runs { LayableRun schema.now i run }
    requires room { laid.old.len + longest_run schema.now i run ≤ most_events }
    ensures { LaysTop around (run_choice schema.now i run) (longest_run schema.now i run)
        laid.old laid.new (value result) }
{
    if run.left.times == 0 {
        return Row::none();
    }
    let others = run.left.power / u64::from(run.once);
    let (n, rest) = split_pair(run.left.number, others as u32);
    let from = laid.len;
    let first = lay_pattern(schema, i, n, around, laid);
    let to = laid.len;
    let left = Repeated {
        times: run.left.times - 1,
        number: rest,
        power: others,
    };
    let second = lay_run(schema, i, Run { left, ..run }, around, laid);
    laid.order(run.order, from, to, first, second)
}
