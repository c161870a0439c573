//! Volumes of which a disk is absent: the least sector that is lost, and the least disk that is
//! missing.
use crate::layout_columns::plan_in;
use crate::made::database;
use crate::rules::label;
use ldm_dump::lost;
use ldm_found::{Found, Notes};
use ldm_label::Labels;
use ldm_scrub::missing_disk;
use std::alloc::Global;
use std::test::Fail;

// Three columns of 12 sectors on the disks 2, 3 and 4, whose GUIDs are their ids, in chunks of 4.
const RAID5: &str =
    "2.2.50.2 2.3.51.3 2.4.52.4 3.5.0.0.24 4.6.0.0.5.3.4.3 5.7.0.0.12.6.4.0.3 5.8.0.0.12.6.2 5.9.0.0.12.6.3.0.2";

// The group of the RAID-5, of which these disks are present.
fn found_on(alloc: Global, disks: &[u128]) -> Result<Found, Fail> {
    let db = database(alloc, 64, RAID5)?;
    let mut labels = Vec::new(alloc);
    for disk in disks {
        labels.push(label(*disk, 1000))?;
    }
    Ok(Found {
        db,
        labels: Labels::from_vec(labels),
        notes: Notes::from_vec(Vec::new(alloc)),
        blocked: None,
    })
}

// The disks that are present, the least sector that is lost, and the least disk that is missing.
const ROWS: [(&[u128], Option<u64>, Option<u64>); 5] = [
    (&[2, 3, 4], None, None),
    (&[2, 4], None, Some(3)),
    (&[3, 4], None, Some(2)),
    (&[2], Some(4), Some(3)),
    (&[], Some(0), Some(2)),
];

#[test]
fn absent_disks(rt: HostRuntime) -> Result<(), Fail> {
    for (disks, sector, disk) in &ROWS {
        let found = found_on(rt.alloc(), disks)?;
        let plan = plan_in(&rt, rt.alloc(), &found.db)?;
        assert!(rt; lost(&found, &plan) == *sector);
        assert!(rt; missing_disk(&found, 5) == *disk);
    }
    Ok(())
}
