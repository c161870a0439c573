//! Which disk of a volume isn't present.
ghost use Rattle.std.specs.Prelude.{◌≡◌, ◌&&◌};
ghost use Rattle.ldm_group.specs.Order.{Rising};
ghost use Rattle.ldm_layout.specs.Parts.{is_partition_of};
ghost use Rattle.ldm_rules.specs.Present.{is_absent};
ghost use Rattle.ldm_records.specs.declared.types.Record.TheVariants as kinds;
ghost use Rattle.ldm_scrub.specs.Missing.{owner_of, lies_on, has_part, is_missing, missing_of};

use ldm_found::Found;
use ldm_group::{Db, id_of};
use ldm_records::{Partition, Record};

fn is_absent(found: &Found, r: &Record) -> bool
    ensures { result ≡ is_absent found.now.labels r.now }
{
    match r {
        Record::Disk(d) => found.image_with(d.guid).is_none(),
        _ => false,
    }
}

// The volume of the component of this id.
fn owner(db: &Db, component: u64) -> Option<u64>
    ensures { result ≡ owner_of db.now.records component }
{
    match db.by_id(4, component) {
        Some(Record::Component(c)) => Some(c.parent),
        _ => None,
    }
}

// Whether the partition's component is one of the volume.
fn is_of(db: &Db, volume: u64, p: &Partition) -> bool
    requires { Rising db.now.records }
    ensures { result ≡ is_partition_of volume db.now.records (kinds.Partition p.now) }
{
    match owner(db, p.parent) {
        Some(parent) => parent == volume,
        None => false,
    }
}

// Whether it is a partition of the volume on this disk.
fn is_part(db: &Db, volume: u64, disk: u64, r: &Record) -> bool
    requires { Rising db.now.records }
    ensures { result ≡ (lies_on disk r.now && is_partition_of volume db.now.records r.now) }
{
    match r {
        Record::Partition(p) => p.disk == disk && is_of(db, volume, p),
        _ => false,
    }
}

fn has_part(db: &Db, volume: u64, disk: u64) -> bool
    ensures { result ≡ has_part db.now.records volume disk }
{
    'records: for r in db.as_slice() {
        if is_part(db, volume, disk, r) {
            return true;
        }
    }
    false
}

fn is_missing(found: &Found, volume: u64, r: &Record) -> bool
    ensures { result ≡ is_missing found.now volume r.now }
{
    is_absent(found, r) && has_part(&found.db, volume, id_of(r))
}

/// The least disk with a partition of the volume of which no image is there. It walks over the
/// partitions once for each absent disk.
pub fn missing_disk(found: &Found, volume: u64) -> Option<u64>
    ensures { result ≡ missing_of found.now volume }
{
    found
        .db
        .as_slice()
        .iter()
        .find(|r| is_missing(found, volume, r))
        .map(|r| id_of(r))
}
