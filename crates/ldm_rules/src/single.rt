//! Rules 1 and 9: one group record, and no volume or partition of size 0.
ghost use Rattle.std.specs.Prelude.{◌≡◌};
ghost use Rattle.std.specs.List.{filter_map};
ghost use Rattle.ldm_rules.specs.Rules.{group_id, group_fault, has_no_sectors};

use ldm_group::Db;
use ldm_records::Record;

/// 0 where there is no group record, the second where there are more than one.
pub fn not_one_group(db: &Db) -> Option<u64>
    ensures { result ≡ group_fault (filter_map group_id db.now.records) }
{
    let mut found = false;
    for r in db.as_slice() {
        if let Record::Group(g) = r {
            if found {
                return Some(g.head.id);
            }
            found = true;
        }
    }
    if found { None } else { Some(0) }
}

/// Whether it is a volume or a partition of size 0.
pub fn is_empty(r: &Record) -> bool
    ensures { result ≡ has_no_sectors r.now }
{
    match r {
        Record::Volume(v) => v.size == 0,
        Record::Partition(p) => p.size == 0,
        _ => false,
    }
}
