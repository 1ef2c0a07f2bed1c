//! What a checked table tells.

ghost use Rattle.std.specs.Prelude.{◌≡◌, length};
ghost use Rattle.schema.specs.Plans.{entries};
ghost use Rattle.schema.specs.Reading.{schema_of};
ghost use Rattle.schema.specs.Told.{table_of, item_found, measure_found, root_found};

use crate::checked::Checked;
use crate::plan::Root;
use crate::table::Table;
use grammar::Measure;
use items::Item;

impl Checked {
    /// The bytes of the table.
    pub fn table(&self) -> &[u8]
        ensures { result.now ≡ table_of self.now }
    {
        &self.bytes[0..self.len]
    }

    /// The table, whose items are all there.
    fn sized(&self) -> Table<'_>
        ensures { result ≡ table_of self.now }
    {
        Table::of(self.table())
    }

    /// The scope that it was checked at.
    pub fn scope(&self) -> u8
        ensures { result ≡ self.now.scope }
    {
        self.scope
    }

    /// The number of its candidates.
    pub fn total(&self) -> u32
        ensures { result ≡ self.now.total }
    {
        self.total
    }

    /// How many roots it has.
    pub fn roots(&self) -> usize
        ensures { result ≡ length (schema_of (table_of self.now)).roots }
    {
        self.sized().roots()
    }

    /// The entries of its roots in the plan, in order.
    pub fn entries(&self) -> &[Root]
        ensures { result.now ≡ entries self.now.scope 0 (schema_of (table_of self.now)).roots }
    {
        &self.plan.roots[..self.roots()]
    }

    // Past the last item or root there is no `None`, since these calls cannot fail.

    /// Item `i`; past the last, an unknown one.
    pub fn item(&self, i: usize) -> Item
        ensures { result ≡ item_found (table_of self.now) i }
    {
        if i < self.known.len() {
            self.sized().item(i)
        } else {
            Item::Unknown
        }
    }

    /// The measure of what item `i` makes; past the last, all zero.
    pub fn measure(&self, i: usize) -> Measure
        ensures { result ≡ measure_found (table_of self.now) self.now.scope i }
    {
        self.known.get(i).copied().unwrap_or_default()
    }

    /// Root `k`; past the last, all zero.
    pub fn root(&self, k: usize) -> Root
        ensures { result ≡ root_found (table_of self.now) self.now.scope k }
    {
        self.plan.roots.get(k).copied().unwrap_or_default()
    }
}
