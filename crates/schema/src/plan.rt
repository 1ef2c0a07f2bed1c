//! The plan of a schema's roots.

ghost use Rattle.std.specs.Prelude.{◌≡◌, ◌<◌, slice_set};
ghost use Rattle.questions.specs.Limits.{most_roots};
ghost use Rattle.schema.specs.Plans.{empty_plan};

use questions::limits::MOST_ROOTS;

/// A root: its type, the item that closes it, how many choices it has and how many events it lays at most, its own among them.
#[derive(Clone, Copy, Default)]
pub struct Root {
    pub event: u8,
    pub item: u8,
    pub count: u32,
    pub length: u8,
}

/// The roots in order. An entry without a root is all zero, and no `None`: the eight entries are a format (docs/TABLE.md).
#[derive(Clone, Copy)]
pub struct Plan {
    pub roots: [Root; MOST_ROOTS],
}

impl Plan {
    /// No roots.
    pub fn empty() -> Plan
        ensures { result ≡ empty_plan }
    {
        Plan {
            roots: [Root::default(); MOST_ROOTS],
        }
    }

    /// Fills the entry of a root that closes.
    pub(crate) fn close(&mut self, r: usize, root: Root)
        requires { r < most_roots }
        ensures { self.new.roots ≡ slice_set self.old.roots r root }
    {
        self.roots[r] = root;
    }
}
