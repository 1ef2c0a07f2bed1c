//! The events that a candidate lays, a line for each, or the refusal of the table.

ghost use Rattle.std.specs.Prelude.{◌≡◌, ◌*◌, ◌≤◌, OnOk, length};
ghost use Rattle.questions.specs.Limits.{most_events};
ghost use Rattle.rows.specs.Row.{value};
ghost use Rattle.schema.specs.Told.{table_of};
ghost use Rattle.text.specs.Room.{text_room};
ghost use Rattle.laying.specs.Lays.{shown};
ghost use Rattle.lines.specs.Card.{most_line};
ghost use Rattle.lines.specs.Laid.{around_word, event_line, event_lines, number_lines, laid_text};

use crate::page::Page;
use crate::refused::write_refusal;
use laying::{Laid, LaidEvent, lay};
use schema::Checked;
use text::Text;

/// Writes the place of the nearest event around, or `-`.
fn write_around<P: Page>(page: &mut P, around: Option<u8>) -> Result<(), P::Error>
    ensures written { OnOk result (P.adds page.old (around_word around) page.new) }
    ensures short { OnOk result (length (around_word around) ≤ 3) }
{
    match around {
        Some(place) => page.add_number(u64::from(place)),
        None => page.add("-"),
    }
}

/// Writes the line of an event.
fn write_event<P: Page>(page: &mut P, event: LaidEvent) -> Result<(), P::Error>
    ensures written { OnOk result
        (P.adds page.old (event_line event.event event.around (value event.precedes)) page.new) }
    ensures short { OnOk result
        (length (event_line event.event event.around (value event.precedes)) ≤ most_line) }
{
    page.add_number(u64::from(event.event))?;
    page.add(" ")?;
    write_around(page, event.around)?;
    page.add(" ")?;
    page.add_number(event.precedes.number())?;
    page.add("\n")
}

/// Writes the lines of all events.
fn write_events<P: Page>(page: &mut P, laid: &Laid) -> Result<(), P::Error>
    ensures written { OnOk result (P.adds page.old (event_lines (shown laid.now)) page.new) }
    ensures short { OnOk result
        (length (event_lines (shown laid.now)) ≤ most_line * most_events) }
{
    for event in laid.events() {
        write_event(page, *event)?;
    }
    Ok(())
}

/// Writes the lines of the candidate of this number.
// Named by bytes and scope, as for `lay`.
fn write_number<P: Page>(
    page: &mut P,
    schema: &Checked,
    number: Option<u32>,
) -> Result<(), P::Error>
    ensures written { OnOk result
        (P.adds page.old (number_lines (table_of schema.now) schema.now.scope number) page.new) }
    ensures short { OnOk result
        (length (number_lines (table_of schema.now) schema.now.scope number)
        ≤ most_line * most_events) }
{
    match number.and_then(|number| lay(schema, number, schema.roots())) {
        Some(laid) => write_events(page, &laid),
        None => page.add("none\n"),
    }
}

/// The events that a candidate of a table lays at a scope.
pub fn laid_text(table: &[u8], scope: u8, number: Option<u32>) -> Text
    ensures says { result ≡ laid_text table.now scope number }
    ensures within { length result ≤ text_room }
{
    let mut page = Text::new();
    let written = match Checked::of(table, scope) {
        Ok(schema) => write_number(&mut page, &schema, number),
        Err(refusal) => write_refusal(&mut page, refusal),
    };
    let Ok(()) = written;
    page
}
