//! Copies of the database: valid, closed, and each first fault.
use crate::made::{host_with, kinds_of};
use ldm_copy::{CopyError, CopyFault, CopyState, read_copy};
use ldm_frags::FragFault;
use ldm_host::Host;
use ldm_label::read_label;
use ldm_payloads::RecordFault;
use ldm_vmdb::VmdbFault;
use std::alloc::Global;
use std::test::Fail;

// Bytes at a place of the config area of the first image.
type Change = (usize, usize, &'static [u8]);

// The group and its three disks stand in the blocks 4 to 7.
const B4: usize = 128 * 4;

const B5: usize = 128 * 5;

const B6: usize = 128 * 6;

const B7: usize = 128 * 7;

const B8: usize = 128 * 8;

const B9: usize = 128 * 9;

// The number of parts in a block's head; the type, the length and the id in the payload of a whole
// record.
const PARTS: usize = 14;

const TYPE: usize = 16 + 3;

const LENGTH: usize = 16 + 4;

const ID: usize = 16 + 9;

// The copy on the first image of the sample group, with these changes, where these calls fail.
fn copy_with(
    alloc: Global,
    changes: &[Change],
    failing: &[u64],
) -> Result<Result<CopyState, CopyError>, Fail> {
    let mut host = host_with(alloc, 1, changes, failing)?;
    if host.disks() == 0 {
        return Err(Fail::from("no disk"));
    }
    match read_label(&mut host, 0) {
        Ok(label) => Ok(read_copy(alloc, &mut host, 0, &label)),
        Err(_) => Err(Fail::from("no label")),
    }
}

// The kinds and ids of its records.
const KINDS: [(u8, u64); 4] = [(1, 1), (2, 2), (2, 3), (2, 4)];

#[test]
fn valid_copy(rt: HostRuntime) -> Result<(), Fail> {
    let Ok(CopyState::Valid(db)) = copy_with(rt.alloc(), &[], &[])? else {
        return Err(Fail::from("no database"));
    };
    assert!(rt; db.header().seq == 7);
    let kinds = kinds_of(rt.alloc(), &db)?;
    assert!(rt; kinds.as_slice() == KINDS.as_slice());
    Ok(())
}

// Whether the copy with this gate is closed. Nothing behind the gate is looked at.
fn is_closed(alloc: Global, gate: &'static [u8]) -> Result<bool, Fail> {
    let changes: [Change; 3] = [(0, 0, gate), (0, 1, b"X"), (0, B4, b"X")];
    let copy = copy_with(alloc, &changes, &[])?;
    Ok(matches!(copy, Ok(CopyState::Closed)))
}

#[test]
fn closed_copies(rt: HostRuntime) -> Result<(), Fail> {
    assert!(rt; is_closed(rt.alloc(), b"\x00")?);
    assert!(rt; is_closed(rt.alloc(), b"\x57")?);
    Ok(())
}

// Why there is no copy with these changes, where these calls fail, if there is none.
fn error_with(
    alloc: Global,
    changes: &[Change],
    failing: &[u64],
) -> Result<Option<CopyError>, Fail> {
    Ok(copy_with(alloc, changes, failing)?.err())
}

// Faults, and changes that make each of them the first.
const FAULTS: [(CopyFault, [Change; 2]); 6] = [
    // The header's fault comes before a block's.
    (
        CopyFault::Vmdb(VmdbFault::Unsettled),
        [(0, 0x10, b"\x00\x02"), (0, B4, b"X")],
    ),
    // A later block's comes before a record's.
    (
        CopyFault::Frag(FragFault::NoMagic(9)),
        [(0, B5 + TYPE, b"\x36"), (0, B9, b"X")],
    ),
    // An earlier record's comes before a later one's: its body of 500 bytes isn't there.
    (
        CopyFault::BadRecord(5, RecordFault::Malformed),
        [
            (0, B5 + LENGTH, b"\x00\x00\x01\xF4"),
            (0, B6 + TYPE, b"\x36"),
        ],
    ),
    // A record's comes before two records of one kind and id.
    (
        CopyFault::BadRecord(7, RecordFault::UnknownType(0x36)),
        [(0, B6 + ID, b"\x02"), (0, B7 + TYPE, b"\x36")],
    ),
    (
        CopyFault::SameId { kind: 2, id: 2 },
        [(0, B6 + ID, b"\x02"), (0, B8 + PARTS, b"\x00\x00")],
    ),
    // The last block in use is block 63.
    (
        CopyFault::Frag(FragFault::NoMagic(63)),
        [(0, 128 * 63, b"X"), (0, 128 * 64, b"Y")],
    ),
];

#[test]
fn first_faults(rt: HostRuntime) -> Result<(), Fail> {
    for (row, (fault, changes)) in FAULTS.iter().enumerate() {
        let error = error_with(rt.alloc(), changes, &[])?;
        assert!(rt; error == Some(CopyError::Fault(*fault)), "row {row}");
    }
    Ok(())
}

// A label takes eight reads, and a copy three: one for its header, and two for its 15 sectors of
// blocks.
#[test]
fn failing_disks(rt: HostRuntime) -> Result<(), Fail> {
    for call in &[9, 10, 11] {
        let error = error_with(rt.alloc(), &[], &[*call])?;
        assert!(rt; error == Some(CopyError::Disk), "call {call}");
    }
    assert!(rt; error_with(rt.alloc(), &[], &[12])?.is_none());
    Ok(())
}
