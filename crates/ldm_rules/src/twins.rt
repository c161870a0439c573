//! Rules 2 and 3: GUIDs of disks and names of volumes that two have.
ghost use Rattle.std.specs.Prelude.{◌≡◌, count_by};
ghost use Rattle.ldm_group.specs.Looks.{is_disk_with, is_volume_named};
ghost use Rattle.ldm_rules.specs.Rules.{has_twin_guid, has_namesake};

use ldm_group::Db;
use ldm_records::Record;

/// Whether it is a disk whose GUID another has.
pub fn has_twin_guid(r: &Record, db: &Db) -> bool
    ensures { result ≡ has_twin_guid (λ guid. count_by (is_disk_with guid) db.now.records) r.now }
{
    match r {
        Record::Disk(d) => db.guid_count(d.guid) >= 2,
        _ => false,
    }
}

/// Whether it is a volume whose name another has.
pub fn has_namesake(r: &Record, db: &Db) -> bool
    ensures { result ≡ has_namesake (λ name. count_by (is_volume_named name) db.now.records) r.now }
{
    match r {
        Record::Volume(v) => db.name_count(v.head.name.as_slice()) >= 2,
        _ => false,
    }
}
