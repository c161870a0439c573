//! The group of several images: the newest copy, and failing disks.
use crate::made::host_with;
use ldm_found::{Found, Note, OpenError, find_group};
use ldm_host::Host;
use std::alloc::Global;
use std::test::Fail;

// Where the header has the committed sequence.
const SEQUENCE: usize = 0x75;

// What is found on the first images of the sample group, with these changes, where these calls
// fail.
fn found_with(
    alloc: Global,
    count: usize,
    changes: &[(usize, usize, &[u8])],
    failing: &[u64],
) -> Result<Result<Found, OpenError>, Fail> {
    let mut host = host_with(alloc, count, changes, failing)?;
    if host.disks() == 0 {
        return Err(Fail::from("no disk"));
    }
    Ok(find_group(alloc, &mut host))
}

// The greatest sequence is that of the second image; the first image's copy is closed.
const CHANGES: [(usize, usize, &[u8]); 2] = [
    (0, 0, b"\x00"),
    (1, SEQUENCE, b"\x00\x00\x00\x00\x00\x00\x00\x09"),
];

const NOTES: [Note; 3] = [Note::Closed, Note::Sequence(9), Note::Sequence(7)];

// Whether the second image's copy is taken, and the last image is that of the disk 4.
fn is_newest(found: &Found) -> bool {
    found.db.header().seq == 9
        && found.blocked.is_none()
        && found.image_of(4) == Some(2)
        && found.image_of(5).is_none()
}

#[test]
fn newest_copy(rt: HostRuntime) -> Result<(), Fail> {
    let Ok(found) = found_with(rt.alloc(), 3, &CHANGES, &[])? else {
        return Err(Fail::from("no group"));
    };
    assert!(rt; is_newest(&found) && found.notes.as_slice() == NOTES.as_slice());
    Ok(())
}

// Why there is no group where this call fails, if there is none.
fn error_at(alloc: Global, call: u64) -> Result<Option<OpenError>, Fail> {
    Ok(found_with(alloc, 3, &[], &[call])?.err())
}

// The labels of three disks take 24 reads, and the first copy three: one for its header, and two
// for its 15 sectors of blocks, eight at a time. The others have the same bytes: they take two
// reads for every eight sectors.
#[test]
fn failing_disks(rt: HostRuntime) -> Result<(), Fail> {
    for call in &[1, 24, 25, 27, 28, 35] {
        let error = error_at(rt.alloc(), *call)?;
        assert!(rt; error == Some(OpenError::Disk), "call {call}");
    }
    assert!(rt; error_at(rt.alloc(), 36)?.is_none());
    Ok(())
}
