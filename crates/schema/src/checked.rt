//! A table that passed the questions.

ghost use Rattle.std.specs.Prelude.{◌≡◌, ℕ, ◌<◌, ◌≤◌, take, slice_index};
ghost use Rattle.arrayvec.specs.ArrayVec.{array_vec_len};
ghost use Rattle.questions.specs.Limits.{most_bytes};
ghost use Rattle.schema.specs.Bytes.{item_count};
ghost use Rattle.schema.specs.Sound.{Accepts, PlansRoots, MeasuresAll};

use crate::measured::Known;
use crate::plan::Plan;
use questions::limits::MOST_BYTES;

/// A table that passed all questions at a scope: its bytes, its total, the plan of its roots and the measures of its items.
// The bytes are an array with their number beside it: an `ArrayVec` would answer their copy with an error, which no accepted table can cause.
#[derive(Drop)]
pub struct Checked {
    pub(crate) bytes: [u8; MOST_BYTES],
    pub(crate) len: usize,
    pub(crate) scope: u8,
    pub(crate) total: u32,
    pub(crate) plan: Plan,
    pub(crate) known: Known,
    ghost short: { len ≤ most_bytes },
    ghost octets: { (i : ℕ) → slice_index (take len bytes) i < 256 },
    ghost accepted: { Accepts (take len bytes) scope total },
    ghost planned: { PlansRoots (take len bytes) scope plan },
    ghost all: { array_vec_len known ≡ item_count (take len bytes) },
    ghost measured: { MeasuresAll (take len bytes) scope known },
}
