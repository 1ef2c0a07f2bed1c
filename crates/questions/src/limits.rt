//! The limits of a schema. Each stands once in the code, here, and once in the definitions, in specs/Limits.antt.

/// How many items a table has at most.
pub const MOST_ITEMS: usize = 255;

/// How many bytes a table has at most: two numbers of 16 bits, and three bytes for each item.
pub const MOST_BYTES: usize = 4 + 3 * MOST_ITEMS;

/// How many roots a schema has at most.
pub const MOST_ROOTS: usize = 8;

/// The largest scope.
pub const MOST_SCOPE: u8 = 5;

/// The largest event type.
pub const MOST_TYPE: u16 = 99;

/// The largest count that a repetition states, least or most.
pub const MOST_TIMES: u8 = 15;

/// The "most" of a repetition that stands for the scope. A number and no `Option`, as it stands in a table, and in a pattern.
pub const SCOPE_MARK: u8 = 255;

/// How many candidates a pattern, a root or a schema counts at most.
pub const MOST_CANDIDATES: u32 = 1_000_000;

/// How many events a pattern, a root or a schema lays at most.
pub const MOST_EVENTS: usize = 64;

/// What a refusal shows for its item where its question was not asked of one.
pub const NO_ITEM: u8 = 255;
