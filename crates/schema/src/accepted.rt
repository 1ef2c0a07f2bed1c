//! A table that is accepted, and all that the check found.

ghost use Rattle.std.specs.Prelude.{◌≡◌, ◌≤◌, IfOk, length, take};
ghost use Rattle.questions.specs.Limits.{most_bytes};
ghost use Rattle.schema.specs.Questions.{verdict};
ghost use Rattle.schema.specs.Told.{table_of, told};

use crate::checked::Checked;
use crate::progress::Progress;
use crate::verdict::passed;
use questions::Refusal;
use questions::limits::MOST_BYTES;

/// A copy of the bytes of a table; what does not fit is left out.
fn bytes_of(table: &[u8]) -> [u8; MOST_BYTES]
    ensures { length table.now ≤ most_bytes → take (length table.now) result ≡ table.now }
{
    let len = table.len().min(MOST_BYTES);
    let mut bytes = [0; MOST_BYTES];
    bytes[..len].copy_from_slice(&table[..len]);
    bytes
}

impl Checked {
    /// Checks a table at a scope: what it holds then, or the first question that fails.
    // Bytes and scope are two parameters, as in `check`.
    pub fn of(table: &[u8], scope: u8) -> Result<Checked, Refusal>
        ensures answer { told result ≡ verdict table.now scope }
        ensures table { IfOk result (λ c. table_of c ≡ table.now) }
        ensures scope { IfOk result (λ c. c.scope ≡ scope) }
    {
        let Progress {
            scope,
            total,
            plan,
            known,
            ..
        } = passed(table, scope)?;
        Ok(Checked {
            bytes: bytes_of(table),
            len: table.len(),
            scope,
            total,
            plan,
            known,
        })
    }
}
