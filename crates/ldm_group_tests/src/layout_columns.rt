//! Places in a RAID-5, whose parity goes round.
ghost use Rattle.std.specs.Prelude.{IsTrue, IsSome, All};
ghost use Rattle.ldm_group.specs.Partitions.{EndsInRange};
ghost use Rattle.ldm_layout.specs.Volumes.{volume_with};

use crate::made::database;
use ldm_group::Db;
use ldm_layout::{Plan, Shape, plan};
use ldm_records::Record;
use std::alloc::Global;
use std::process::Abort;
use std::test::Fail;

// Whether each partition ends below 2^64.
fn all_end(records: &[Record]) -> bool
    ensures { IsTrue result → All EndsInRange records.now }
{
    for r in records {
        if let Record::Partition(p) = r {
            if u128::from(p.start) + u128::from(p.size) > 0xFFFF_FFFF_FFFF_FFFF {
                return false;
            }
        }
    }
    true
}

// Whether the volume is there.
fn has_volume(db: &Db, id: u64) -> bool
    ensures { IsTrue result → IsSome (volume_with id db.now.records) }
{
    matches!(db.by_id(3, id), Some(Record::Volume(_)))
}

// The plan of the volume 5 of this database.
pub(crate) fn plan_in(rt: &impl Abort, alloc: Global, db: &Db) -> Result<Plan, Fail> {
    assert!(rt; all_end(db.as_slice()) && has_volume(db, 5));
    plan(alloc, db, 5).map_err(|_| Fail::from("no plan"))
}

// Three columns of 12 sectors on disks 2, 3 and 4, in chunks of 4. The records stand in another
// order, and the first column has no index.
const RAID5: &str =
    "3.5.0.0.24 4.6.0.0.5.3.4.3 5.7.0.0.12.6.4.0.3 5.8.0.0.12.6.2 5.9.0.0.12.6.3.0.2";

// A sector, its disk and that of its parity, and the sector at which both lie there.
const PLACES: [(u64, u64, u64, u64); 6] = [
    (0, 2, 4, 0),
    (4, 3, 4, 0),
    (8, 4, 3, 4),
    (12, 2, 3, 4),
    (16, 3, 2, 8),
    (20, 4, 2, 8),
];

// Whether the sector and its parity lie there.
fn lies_at(plan: &Plan, row: &(u64, u64, u64, u64)) -> bool {
    let (sector, disk, parity, at) = *row;
    if sector >= plan.size() || plan.copies() == 0 {
        return false;
    }
    let place = plan.place(sector, 0);
    let other = plan.parity(sector);
    place.disk == disk
        && place.sector == at
        && matches!(other, Some(p) if p.disk == parity && p.sector == at)
}

#[test]
fn parity_goes_round(rt: HostRuntime) -> Result<(), Fail> {
    let db = database(rt.alloc(), 64, RAID5)?;
    let plan = plan_in(&rt, rt.alloc(), &db)?;
    assert!(rt; plan.shape() == Shape::Raid5 && plan.size() == 24 && plan.copies() == 1);
    for row in &PLACES {
        assert!(rt; lies_at(&plan, row), "sector {}", row.0);
    }
    Ok(())
}
