//! The card of a table: a line for each root and one for the total, or the refusal.

ghost use Rattle.std.specs.Prelude.{◌≡◌, ◌*◌, ◌≤◌, length, IfOk, OnOk, string_bytes};
ghost use Rattle.text.specs.Room.{text_room};
ghost use Rattle.lines.specs.Card.{most_line, entry_line, entry_lines, total_line, card};

use crate::page::Page;
use crate::refused::write_refusal;
use schema::{Plan, Root, check};
use std::alloc::{AllocError, Global};
use text::Text;

/// Writes the line of an entry of the plan, where it is a root.
// `short` stands beside what is written, here and for the other lines, since the types of the numbers bound their digits, and a definition
// has no types.
fn write_root<P: Page>(page: &mut P, root: Root) -> Result<(), P::Error>
    ensures written { OnOk result (P.adds page.old (entry_line root) page.new) }
    ensures short { OnOk result (length (entry_line root) ≤ most_line) }
{
    if root.length == 0 {
        return Ok(());
    }
    page.add("root ")?;
    page.add_number(u64::from(root.event))?;
    page.add(" ")?;
    page.add_number(u64::from(root.count))?;
    page.add(" ")?;
    page.add_number(u64::from(root.length))?;
    page.add("\n")
}

/// Writes the line of the total.
fn write_total<P: Page>(page: &mut P, total: u32) -> Result<(), P::Error>
    ensures written { OnOk result (P.adds page.old (total_line total) page.new) }
    ensures short { OnOk result (length (total_line total) ≤ most_line) }
{
    page.add("total ")?;
    page.add_number(u64::from(total))?;
    page.add("\n")
}

/// Writes the lines of a plan's entries.
fn write_roots<P: Page>(page: &mut P, roots: &[Root]) -> Result<(), P::Error>
    ensures written { OnOk result (P.adds page.old (entry_lines roots.now) page.new) }
    ensures short { OnOk result (length (entry_lines roots.now) ≤ most_line * length roots.now) }
{
    for root in roots {
        write_root(page, *root)?;
    }
    Ok(())
}

/// Writes the card of a table at a scope.
fn write_card<P: Page>(page: &mut P, table: &[u8], scope: u8) -> Result<(), P::Error>
    ensures written { OnOk result (P.adds page.old (card table.now scope) page.new) }
    ensures short { OnOk result (length (card table.now scope) ≤ text_room) }
{
    let mut plan = Plan::empty();
    match check(table, scope, &mut plan) {
        Ok(total) => {
            write_roots(page, &plan.roots)?;
            write_total(page, total)
        }
        Err(refusal) => write_refusal(page, refusal),
    }
}

/// The card of a table at a scope. An `Err` says that memory failed, and nothing of the table.
pub fn card_of(heap: Global, table: &[u8], scope: u8) -> Result<String, AllocError>
    ensures { IfOk result (λ t. string_bytes t ≡ card table.now scope) }
{
    let mut page = String::new(heap);
    write_card(&mut page, table, scope)?;
    Ok(page)
}

/// The card of a table at a scope in fixed room, without allocation.
pub fn card_text(table: &[u8], scope: u8) -> Text
    ensures says { result ≡ card table.now scope }
    ensures within { length result ≤ text_room }
{
    let mut page = Text::new();
    let Ok(()) = write_card(&mut page, table, scope);
    page
}
