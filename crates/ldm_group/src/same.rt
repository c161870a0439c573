//! Whether two databases are the same group.
ghost use Rattle.std.specs.Prelude.{◌≡◌, ◌↔◌, IsTrue};
ghost use Rattle.ldm_group.specs.Database.{IsSameHeader, IsSameCore};

use crate::db::Db;
use ldm_records::Record;
use ldm_vmdb::Header;

/// Whether both headers are the same but for the carried bytes.
pub fn is_same_header(a: &Header, b: &Header) -> bool
    ensures { IsTrue result ↔ IsSameHeader a.now b.now }
{
    a.last == b.last && a.seq == b.seq && a.name.as_slice() == b.name.as_slice() && a.guid == b.guid
}

fn are_same_records(records: &[Record], others: &[Record]) -> bool
    ensures { IsTrue result ↔ (records.now ≡ others.now) }
{
    if records.len() != others.len() {
        return false;
    }
    for (i, record) in records.iter().enumerate() {
        if !record.same(&others[i]) {
            return false;
        }
    }
    true
}

impl Db {
    /// Whether both are the same group: they are equal but for the carried bytes of their headers.
    /// It takes no memory.
    pub fn same_core(&self, other: &Db) -> bool
        ensures { IsTrue result ↔ IsSameCore self.now other.now }
    {
        is_same_header(self.header(), other.header())
            && are_same_records(self.as_slice(), other.as_slice())
    }
}
