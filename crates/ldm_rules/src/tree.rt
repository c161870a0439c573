//! Rules 4 to 8: parents, disks and numbers of children.
ghost use Rattle.std.specs.Prelude.{◌≡◌, ◌==◌, count_by};
ghost use Rattle.ldm_group.specs.Looks.{is_at, children_of};
ghost use Rattle.ldm_rules.specs.Rules.{lacks_volume, lacks_component, lacks_disk};
ghost use Rattle.ldm_rules.specs.Rules.{miscounts_components, miscounts_partitions};

use ldm_group::Db;
use ldm_records::Record;

// Whether there is no object of this kind and id.
fn lacks(db: &Db, kind: u8, id: u64) -> bool
    ensures { result ≡ (count_by (is_at kind id) db.now.records == 0) }
{
    db.by_id(kind, id).is_none()
}

/// Whether it is a component whose volume isn't there.
pub fn lacks_volume(r: &Record, db: &Db) -> bool
    ensures { result ≡ lacks_volume (λ id. count_by (is_at 3 id) db.now.records) r.now }
{
    match r {
        Record::Component(c) => lacks(db, 3, c.parent),
        _ => false,
    }
}

/// Whether it is a partition whose component isn't there.
pub fn lacks_component(r: &Record, db: &Db) -> bool
    ensures { result ≡ lacks_component (λ id. count_by (is_at 4 id) db.now.records) r.now }
{
    match r {
        Record::Partition(p) => lacks(db, 4, p.parent),
        _ => false,
    }
}

/// Whether it is a partition whose disk isn't there.
pub fn lacks_disk(r: &Record, db: &Db) -> bool
    ensures { result ≡ lacks_disk (λ id. count_by (is_at 2 id) db.now.records) r.now }
{
    match r {
        Record::Partition(p) => lacks(db, 2, p.disk),
        _ => false,
    }
}

/// Whether it is a volume whose children number isn't the number of its components.
pub fn miscounts_components(r: &Record, db: &Db) -> bool
    ensures { result ≡ miscounts_components (λ id. children_of 3 id db.now.records) r.now }
{
    match r {
        Record::Volume(v) => v.children != db.children_of(3, v.head.id),
        _ => false,
    }
}

/// Whether it is a component whose children number isn't the number of its partitions.
pub fn miscounts_partitions(r: &Record, db: &Db) -> bool
    ensures { result ≡ miscounts_partitions (λ id. children_of 4 id db.now.records) r.now }
{
    match r {
        Record::Component(c) => c.children != db.children_of(4, c.head.id),
        _ => false,
    }
}
