//! The check of a table.

ghost use Rattle.std.specs.Prelude.{◌≡◌, IfOk, IfErr, Err};
ghost use Rattle.schema.specs.Questions.{verdict, planned};
ghost use Rattle.schema.specs.Progress.{Taken, Passed};
ghost use Rattle.schema.specs.Promises.{TablesAreSchemas};

use crate::ask::ask_opening;
use crate::plan::Plan;
use crate::progress::Progress;
use crate::table::Table;
use items::ask_whole;
use questions::Refusal;

/// Asks questions 1 to 9: how far the check has come after the last item, or the first question that fails.
fn taken(bytes: &[u8], scope: u8) -> Result<Progress, Refusal>
    ensures ok { IfOk result (Taken bytes.now scope) }
    ensures err { IfErr result (λ refusal. verdict bytes.now scope ≡ Err refusal) }
{
    ask_opening(bytes, scope)?;
    let table = Table::of(bytes);
    let mut progress = Progress::start(scope, table.roots());
    // By number, since a refusal names the number.
    for i in 0..table.items() {
        progress.take(&table, i).map_err(|question| Refusal {
            question,
            item: Some(i as u8),
        })?;
    }
    Ok(progress)
}

/// Asks all questions: what the check found, or the first question that fails.
pub(crate) fn passed(bytes: &[u8], scope: u8) -> Result<Progress, Refusal>
    ensures ok { IfOk result (Passed bytes.now scope) }
    ensures err { IfErr result (λ refusal. verdict bytes.now scope ≡ Err refusal) }
{
    let progress = taken(bytes, scope)?;
    ask_whole(progress.tally, progress.total, progress.length)?;
    Ok(progress)
}

// Bytes and scope stay two parameters: a caller has them apart, and a `Checked` is what has both.

/// The number of candidates that a table has at a scope, with the caller's plan filled, or the first question that fails; then the plan
/// stays as it was.
pub fn check(table: &[u8], scope: u8, plan: &mut Plan) -> Result<u32, Refusal>
    ensures answer { result ≡ verdict table.now scope }
    ensures plan { plan.new ≡ planned table.now scope plan.old }
    ensures schema { TablesAreSchemas table.now scope result plan.new }
{
    let progress = passed(table, scope)?;
    *plan = progress.plan;
    Ok(progress.total)
}
