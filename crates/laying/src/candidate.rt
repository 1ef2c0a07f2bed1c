//! The beginnings of candidates.

ghost use Rattle.std.specs.Prelude.{◌≡◌, ◌+◌, ◌-◌, ◌<◌, ◌≤◌};
ghost use Rattle.std.specs.Option.{option_map};
ghost use Rattle.questions.specs.Limits.{most_events, most_roots};
ghost use Rattle.numbering.specs.Promises.{PatternsNumbered, RootsNumbered};
ghost use Rattle.schema.specs.Told.{table_of};
ghost use Rattle.laying.specs.Layable.{Layable, root_choice, longest_root};
ghost use Rattle.laying.specs.Lays.{shown, AddsRoot};
ghost use Rattle.laying.specs.Laying.{laid_at};
ghost use Rattle.laying.specs.Promises.{LayingLaws};

use crate::laid::Laid;
use crate::pattern::lay_pattern;
use numbering::split_pair;
use schema::{Checked, Root};

/// Lays one more root, whose pattern has this number.
fn lay_root(schema: &Checked, root: Root, number: u32, laid: &mut Laid)
    requires follows { 0 < root.item }
    requires layable { Layable schema.now (root.item - 1) number }
    requires few { laid.old.roots < most_roots }
    requires room { laid.old.len + longest_root schema.now root ≤ most_events }
    ensures lays { AddsRoot (root_choice schema.now root number) laid.old laid.new }
    ensures roots { laid.new.roots ≡ laid.old.roots + 1 }
    ensures length { laid.new.len ≤ laid.old.len + longest_root schema.now root }
{
    let place = laid.len as u8;
    laid.starts[laid.roots] = place;
    laid.roots += 1;
    laid.push(root.event, None);
    lay_pattern(
        schema,
        usize::from(root.item) - 1,
        number,
        Some(place),
        laid,
    );
}

// The clause names the bytes of a table and its scope, as `laid_at` does, which knows of no `Checked`. `numbers` is a pair, as it was: the
// theorems stand in the clauses they stood in.

/// Lays the first roots of a candidate; none where there is no such candidate or not as many roots, or no root is asked for.
pub fn lay(schema: &Checked, number: u32, roots: usize) -> Option<Laid>
    ensures answer { option_map shown result
        ≡ laid_at (table_of schema.now) schema.now.scope number roots }
    ensures numbers { (PatternsNumbered) × (RootsNumbered) }
    ensures laws { LayingLaws }
{
    if number >= schema.total() || roots == 0 || roots > schema.roots() {
        return None;
    }
    let mut laid = Laid::nothing();
    let mut after = schema.total();
    let mut rest = number;
    for root in &schema.entries()[..roots] {
        after /= root.count;
        let (digit, left) = split_pair(rest, after);
        lay_root(schema, *root, digit, &mut laid);
        rest = left;
    }
    Some(laid)
}
