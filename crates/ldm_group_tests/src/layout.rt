//! Layouts at the edge of each fault.
use crate::made::database;
use ldm_layout::{LayoutFault, faults};
use std::alloc::Global;
use std::test::Fail;

// The fault of the only volume, and the records: the volume 5, its components 6 and 7, and
// partitions on the disks 2 and 3.
const ROWS: &str = "\
Unknown 3.5.0.0.0
Unknown 3.5.0.0.1 4.6.0.0.5.2 4.7.0.0.5.1
Unknown 3.5.0.0.1 4.6.0.0.5.4
Gap 3.5.0.0.0 4.6.0.0.5.2
Gap 3.5.0.0.9 4.6.0.0.5.2 5.7.0.0.9.6.2.1
None 3.5.0.0.9 4.6.0.0.5.2 5.7.0.0.5.6.2.4 5.8.0.0.4.6.3.0
Short 3.5.0.0.10 4.6.0.0.5.2 5.7.0.0.5.6.2.4 5.8.0.0.4.6.3.0
Gap 3.5.0.0.9 4.6.0.0.5.2 5.7.0.0.5.6.2.3 5.8.0.0.4.6.3.0
None 3.5.0.0.4 4.6.0.0.5.2 4.7.0.0.5.2 5.8.0.0.5.6.2 5.9.0.0.4.7.3
Short 3.5.0.0.5 4.6.0.0.5.2 4.7.0.0.5.2 5.8.0.0.5.6.2 5.9.0.0.4.7.3
Chunk 3.5.0.0.1 4.6.0.0.5.1
Chunk 3.5.0.0.1 4.6.0.0.5.3.0.3
Columns 3.5.0.0.1 4.6.0.0.5.1.4.1 5.7.0.0.8.6.2
Columns 3.5.0.0.1 4.6.0.0.5.3.4.2 5.7.0.0.8.6.2 5.8.0.0.8.6.3.0.2
Columns 3.5.0.0.99 4.6.0.0.5.1.4.2 5.7.0.0.8.6.2 5.8.0.0.8.6.3.0.1
None 3.5.0.0.16 4.6.0.0.5.1.4.2 5.7.0.0.11.6.2.0.8 5.8.0.0.8.6.3.0.6
Short 3.5.0.0.17 4.6.0.0.5.1.4.2 5.7.0.0.11.6.2.0.8 5.8.0.0.8.6.3.0.6";

fn word_of(fault: LayoutFault) -> &'static str {
    match fault {
        LayoutFault::Unknown => "Unknown",
        LayoutFault::Gap => "Gap",
        LayoutFault::Chunk => "Chunk",
        LayoutFault::Columns => "Columns",
        LayoutFault::Short => "Short",
    }
}

// The first fault of the group of these records.
fn first_fault(alloc: Global, records: &str) -> Result<&'static str, Fail> {
    let db = database(alloc, 64, records)?;
    match faults(alloc, &db)?.first() {
        Some(found) => Ok(word_of(found.fault)),
        None => Ok("None"),
    }
}

#[test]
fn faults_at_their_edges(rt: HostRuntime) -> Result<(), Fail> {
    for row in ROWS.lines() {
        let (want, records) = row.split_once(' ').unwrap_or((row, ""));
        let found = first_fault(rt.alloc(), records)?;
        assert_eq!(rt; found, want, "{records}");
    }
    Ok(())
}
