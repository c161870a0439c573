//! The database of a new group.
ghost use Rattle.std.specs.Prelude.{◌≡◌, ◌≢◌, ◌+◌, ◌<◌, ◌≤◌, List, Some, All, IfOk, length, map};
ghost use Rattle.ldm_label.specs.declared.Label.{Label};
ghost use Rattle.ldm_group.specs.Room.{room_of, FitsHeader};
ghost use Rattle.ldm_rules.specs.New.{IsNewOn};
ghost use Rattle.ldm_init.specs.NewGroup.{new_disk_at, first_records, IsNewGroup};

use ldm_bytes::NoMemory;
use ldm_group::{Db, DbError};
use ldm_made::{new_disk, new_group};
use ldm_records::Record;
use ldm_written::new_header;
use std::alloc::Global;

// The record of the disk of this place, from 0.
fn disk_record(alloc: Global, place: usize, guid: u128) -> Result<Record, NoMemory>
    requires { place < 64 }
    ensures { IfOk result (λ r. new_disk_at place guid ≡ Some r) }
{
    let name = format!(in alloc; "Disk{}", place + 1)?;
    new_disk(alloc, place as u64 + 2, name.as_bytes(), guid)
}

// The group record, and those of the disks.
fn records_of(
    alloc: Global,
    name: &[u8],
    guid: u128,
    disks: &[u128],
) -> Result<Vec<Record>, NoMemory>
    requires short { length name.now ≤ 30 }
    requires few { length disks.now ≤ 64 }
    ensures { IfOk result (λ records. records.items
        ≡ first_records name.now guid disks.now (length disks.now)) }
{
    let mut records = Vec::new(alloc);
    records.push(new_group(alloc, 1, name, guid)?)?;
    for place in 0..disks.len() {
        records.push(disk_record(alloc, place, disks[place])?)?;
    }
    Ok(records)
}

/// The database of a new group of 64 disks at most, which has no volume. Its name has 30 bytes at
/// most, none of them zero. `last` is the header's last VBLK sequence.
pub fn new_database(
    alloc: Global,
    name: &[u8],
    guid: u128,
    disks: &[u128],
    last: u32,
    seq: u64,
) -> Result<Db, NoMemory>
    requires short { length name.now ≤ 30 }
    requires without_zero { All (λ byte. byte ≢ 0) name.now }
    requires few { length disks.now ≤ 64 }
    ensures made { IfOk result (IsNewGroup name.now guid disks.now last seq) }
    ensures new { IfOk result (λ db. (labels : List Label)
        → map (λ label. label.disk_guid) labels ≡ disks.now
        → IsNewOn db.records labels) }
    ensures fits { IfOk result (λ db. length disks.now + 1 ≤ room_of last → FitsHeader db) }
{
    let header = new_header(alloc, name, guid, last, seq)?;
    let records = records_of(alloc, name, guid, disks)?;
    match Db::new(alloc, header, records) {
        Ok(db) => Ok(db),
        Err(DbError::SameId { .. } | DbError::NoMemory) => Err(NoMemory),
    }
}
