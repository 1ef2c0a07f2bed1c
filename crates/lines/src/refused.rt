//! The line of a refusal.

ghost use Rattle.std.specs.Prelude.{◌≤◌, ◌++◌, OnOk, length};
ghost use Rattle.questions.specs.Numbers.{refusal_line};
ghost use Rattle.lines.specs.Card.{line_end, most_line};

use crate::page::Page;
use questions::Refusal;

/// Writes `no QUESTION ITEM`, and ends the line.
pub(crate) fn write_refusal<P: Page>(page: &mut P, refusal: Refusal) -> Result<(), P::Error>
    ensures written { OnOk result (P.adds page.old (refusal_line refusal ++ line_end) page.new) }
    ensures short { OnOk result (length (refusal_line refusal ++ line_end) ≤ most_line) }
{
    // Read for `short` alone: that each has 8 bits bounds its digits, and of `add_refusal` only the words are known.
    let _question = refusal.question.number();
    let _item = refusal.item_shown();
    page.add_refusal(refusal)?;
    page.add("\n")
}
