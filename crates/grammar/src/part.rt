//! The small parts of patterns and operations: order, selections, relations.

/// Whether the members of a pair or of a repetition follow one another.
#[derive(Debug, Clone, Copy, PartialEq, Eq)]
pub enum Order {
    /// Each top event of an earlier member precedes each of a later one.
    InOrder,
    /// No precedence is added.
    AsSet,
}

/// The events of type `event` inside root number `root`, the root's own event excepted, in the order in which they are laid. Roots are
/// numbered from 0.
#[derive(Debug, Clone, Copy, PartialEq, Eq, Default)]
pub struct Selection {
    pub root: u8,
    pub event: u8,
}

/// What an operation does with two selections A and B, or demands of them.
#[derive(Debug, Clone, Copy, PartialEq, Eq)]
pub enum Relation {
    /// SHARE ALL: the events of A and of B become one, place by place.
    Share,
    /// COORDINATE: the events of A precede those of B, place by place.
    Coordinate,
    /// There are as many A as B.
    AsMany,
    /// There are at most as many A as B.
    NoMore,
    /// Before each A there are fewer A than B.
    FewerBefore,
}
