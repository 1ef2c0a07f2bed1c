//! The calls of `bridge` for programs in Rust or C, such as the benchmark. They stand here a second time, because a crate is a library or a
//! static library, and C calls only the latter.

#![tactic(auto)]

ghost use Rattle.std.specs.Prelude.{◌≡◌, ◌-◌};
ghost use Rattle.bridge.specs.Laid.{events_from, told_events};
ghost use Rattle.bridge.specs.Packed.{packed};
ghost use Rattle.schema.specs.Questions.{verdict};

/// The total of a table at a scope; where the table is refused, 2^32 times the question's number, and the item added.
#[unsafe(no_mangle)]
pub extern "C" fn mandolkhui_check(table: &[u8], scope: u8) -> u64
    ensures { result ≡ packed (verdict table.now scope) }
{
    bridge::mandolkhui_check(table, scope)
}

/// Lays the candidates from `first` on and below `last`, one after another, and tells how many events that were; 0 for a refused table.
#[unsafe(no_mangle)]
pub extern "C" fn mandolkhui_lay(table: &[u8], scope: u8, first: u32, last: u32) -> u64
    ensures { result
        ≡ told_events (verdict table.now scope) (events_from table.now scope first (last - first)) }
{
    bridge::mandolkhui_lay(table, scope, first, last)
}
