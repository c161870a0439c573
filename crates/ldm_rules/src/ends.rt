//! Rule 10: partitions that end behind their disk.
ghost use Rattle.std.specs.Prelude.{◌≡◌, All, false, None};
ghost use Rattle.ldm_group.specs.Partitions.{EndsInRange};
ghost use Rattle.ldm_rules.specs.Rules.{first_broken, passes_end};
ghost use Rattle.ldm_rules.specs.Ends.{data_size};
ghost use Rattle.ldm_label.specs.Present.{sectors_by, label_with};

use ldm_group::{Db, id_of};
use ldm_label::{Label, Labels, label_with};
use ldm_records::Record;

/// The sectors of the disk of this GUID, as its label says; of an absent disk, the most that a
/// number of the format says.
pub fn sectors_of(labels: &[Label], guid: u128) -> u64
    ensures { result ≡ sectors_by (label_with guid labels.now) }
{
    match label_with(labels, guid) {
        Some(l) => l.data_size,
        None => u64::MAX,
    }
}

// Where the data of the disk of this id end.
fn end_of(db: &Db, labels: &Labels, disk: u64) -> u64
    ensures { result ≡ data_size labels.now db.now.records disk }
{
    match db.by_id(2, disk) {
        Some(Record::Disk(d)) => sectors_of(labels.as_slice(), d.guid),
        _ => u64::MAX,
    }
}

fn passes_end(r: &Record, db: &Db, labels: &Labels) -> bool
    ensures is { result ≡ passes_end (data_size labels.now db.now.records) r.now }
    ensures ends { result ≡ false → EndsInRange r.now }
{
    match r {
        Record::Partition(p) => {
            u128::from(p.start) + u128::from(p.size) > u128::from(end_of(db, labels, p.disk))
        }
        _ => false,
    }
}

/// The least partition that ends behind the data of its disk.
pub fn over_the_end(db: &Db, labels: &Labels) -> Option<u64>
    ensures is { result ≡ first_broken (passes_end
        (data_size labels.now db.now.records)) db.now.records }
    ensures ends { result ≡ None → All EndsInRange db.now.records }
{
    let records = db.as_slice();
    for r in records {
        if passes_end(r, db, labels) {
            return Some(id_of(r));
        }
    }
    None
}
