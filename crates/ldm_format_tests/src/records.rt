//! Records: what payloads spell, and own spellings.
use crate::made::{bytes_of, check};
use ldm_bytes::{Bytes, NoMemory};
use ldm_made::{new_component, new_partition, new_volume};
use ldm_payloads::{RecordError, RecordFault, read_record};
use ldm_records::{Record, Striping, spelled_len};
use ldm_vmdb::parts_of;
use ldm_written::spelling;
use std::alloc::Global;
use std::process::Abort;

const DISK: &str = "00000034 l58 0102 05 'Disk1 24 '11111111-1111-1111-1111-111111111111 00 z12";

const VOLUME_GUID: u128 = 0xBBBB_BBBB_BBBB_BBBB_BBBB_BBBB_BBBB_BBBB;

const COMPONENT: &str = "00001032 l42 0106 02 'c6 06 'ACTIVE 01 z4 0102 z16 0105 00 0104 0102";

const PARTITION: &str = "00000033 l40 0107 02 'p7 z28 020800 0106 0102";

// Two longer numbers, and filling.
const LONGER: &str = "00000033 l43 0107 02 'p7 z28 0400000800 020006 0102 0909";

const VOLUME: &str =
    "00000051 l75 0105 04 'Data 03 'gen 00 'ACTIVE z8 03 z6 0101 z16 02080a z4 07 bbbbbbbbbbbbbbbbbbbbbbbbbbbbbbbb";

fn are_bytes(bytes: &Result<Bytes, NoMemory>, want: &[u8]) -> bool {
    match bytes {
        Ok(bytes) => bytes.as_slice() == want,
        Err(_) => false,
    }
}

fn is_own(alloc: Global, record: &Result<Record, NoMemory>, own: &[u8]) -> bool {
    match record {
        Ok(record) => are_bytes(&spelling(alloc, record), own),
        Err(_) => false,
    }
}

// Whether the own spelling of a record is this one.
fn spells(alloc: Global, record: Result<Record, NoMemory>, own: &[u8]) -> bool {
    let spells = is_own(alloc, &record, own);
    drop(record);
    spells
}

fn clone_spells(alloc: Global, record: &Result<Record, RecordError>, own: &[u8]) -> bool {
    match record {
        Ok(record) => spells(alloc, record.clone_in(alloc), own),
        Err(_) => false,
    }
}

// Whether the own spelling of a copy of what the payload spells is this one.
fn copy_spells(alloc: Global, payload: &[u8], own: &[u8]) -> bool {
    let record = read_record(alloc, payload);
    let spells = clone_spells(alloc, &record, own);
    drop(record);
    spells
}

// Numbers of a record: the id, and a few of its type; of a disk the last four bytes of the GUID.
fn numbers(record: &Record) -> [u64; 4] {
    match record {
        Record::Volume(v) => [v.head.id, v.children, v.size, u64::from(v.part_type)],
        Record::Partition(p) => [p.head.id, p.size, p.parent, p.disk],
        Record::Disk(d) => [d.head.id, (d.guid % 0x1_0000_0000) as u64, 0, 0],
        _ => [0; 4],
    }
}

// A few numbers, and the length of the own spelling.
type Seen = ([u64; 4], usize);

fn seen_of(record: &Result<Record, RecordError>) -> Result<Seen, RecordError> {
    match record {
        Ok(record) => Ok((numbers(record), spelled_len(record))),
        Err(error) => Err(*error),
    }
}

// Those of what the payload spells.
fn read(alloc: Global, payload: &[u8]) -> Result<Seen, RecordError> {
    let record = read_record(alloc, payload);
    let seen = seen_of(&record);
    drop(record);
    seen
}

fn len_of(alloc: Global, payload: &[u8]) -> Result<usize, RecordError> {
    let (_, len) = read(alloc, payload)?;
    Ok(len)
}

// Whether the own spelling of what the payload spells is this one, and as long as is said.
fn is_spelled(rt: &impl Abort, alloc: Global, payload: &str, own: &str) -> bool {
    let payload = bytes_of(rt, alloc, payload);
    let own = bytes_of(rt, alloc, own);
    len_of(alloc, &payload) == Ok(own.len()) && copy_spells(alloc, &payload, &own)
}

fn numbers_of(alloc: Global, payload: &[u8]) -> Result<[u64; 4], RecordError> {
    let (numbers, _) = read(alloc, payload)?;
    Ok(numbers)
}

const NUMBERS: [(&str, [u64; 4]); 4] = [
    (PARTITION, [7, 2048, 6, 2]),
    (LONGER, [7, 2048, 6, 2]),
    (VOLUME, [5, 1, 2058, 7]),
    (DISK, [2, 0x1111_1111, 0, 0]),
];

#[test]
fn values(rt: HostRuntime) {
    for (payload, want) in NUMBERS {
        let numbers = numbers_of(rt.alloc(), &bytes_of(&rt, rt.alloc(), payload));
        check(&rt, numbers == Ok(want), payload);
    }
}

#[test]
fn longer_numbers_and_filling(rt: HostRuntime) {
    assert!(rt; is_spelled(&rt, rt.alloc(), LONGER, PARTITION));
}

#[test]
fn new_volumes(rt: HostRuntime) {
    let own = bytes_of(&rt, rt.alloc(), VOLUME);
    let volume = new_volume(rt.alloc(), 5, b"Data", VOLUME_GUID, false, 1, 2058);
    assert!(rt; spells(rt.alloc(), volume, &own));
}

const STRIPING: Striping = Striping {
    chunk: 4,
    columns: 2,
};

#[test]
fn new_components(rt: HostRuntime) {
    let own = bytes_of(&rt, rt.alloc(), COMPONENT);
    let component = new_component(rt.alloc(), 6, 5, 1, 2, Some(STRIPING));
    assert!(rt; spells(rt.alloc(), component, &own));
}

#[test]
fn new_partitions(rt: HostRuntime) {
    let own = bytes_of(&rt, rt.alloc(), PARTITION);
    let partition = new_partition(rt.alloc(), 7, 0, 0, 2048, 6, 2, None);
    assert!(rt; spells(rt.alloc(), partition, &own));
}

// Marks, flags of no field and tails come back, in each type and with each optional field.
const CARRIED: &str = "
beefff51 l85 021234 01 'A 03 'gen 01 's z21 0103 'ABCDEFGHIJKLMNOP 0120 'WXYZ 07 'abcdefghijklmnop 0169 00 0109 02 'E: 'tail
beeff032 l42 021234 01 'A 02 'OK 010203040501 07 z16 010809 0180 0103 'tail
beef0c33 l45 021234 01 'A z28 0101 0102 0103 0104 'tail
beefff34 l61 021234 01 'A 24 'abcdefab-1111-2222-3333-444444444444 02 'C1 z12 'tail
beefff44 l54 021234 01 'A aabbcc z42 'tail
beef1835 l28 021234 01 'A 02 'G1 z12 01 'B 01 'C 'tail
beef1845 l57 021234 01 'A z44 01 'B 01 'C 0202 'tl";

#[test]
fn carried(rt: HostRuntime) {
    for row in CARRIED.lines().skip(1) {
        check(&rt, is_spelled(&rt, rt.alloc(), row, row), row);
    }
}

#[test]
fn own_spellings(rt: HostRuntime) {
    for row in [DISK, PARTITION, VOLUME] {
        check(&rt, is_spelled(&rt, rt.alloc(), row, row), row);
    }
}

// A record of three blocks: a partition whose name has 255 bytes.
#[test]
fn long_names(rt: HostRuntime) {
    let name = "x".repeat(rt.alloc(), 255).expect(&rt, "memory");
    let row = format!(in rt.alloc(); "00000033 l293 0107 ff '{name} z28 020800 0106 0102");
    let row = row.expect(&rt, "memory");
    assert!(rt; is_spelled(&rt, rt.alloc(), &row, &row));
    let len = len_of(rt.alloc(), &bytes_of(&rt, rt.alloc(), &row));
    assert!(rt; len == Ok(301) && parts_of(301) == 3);
}

const MALFORMED: RecordError = RecordError::Fault(RecordFault::Malformed);

// A payload, and the length of its own spelling where it spells a record.
const PAYLOADS: [(&str, Option<usize>); 29] = [
    // Zero of no byte is spelled with one, which the record has to have room for.
    ("00000045 l46 z46", None),
    ("00000045 l46 z47", Some(55)),
    ("00000033 l36 00 01 'A z29 01010101 00", None),
    ("00000033 l36 00 01 'A z29 01010101 0000", Some(46)),
    // Numbers of 8, 9 and 255 bytes, past the end, and none.
    ("00000045 l54 0801 z52", Some(62)),
    ("00000045 l54 080000000000000005 z45", Some(55)),
    ("00000045 l55 09 z54", None),
    ("00000045 l5 08 z4", None),
    ("00000045 l0 z255", None),
    // Texts of no byte, of 255 bytes, past the end and in the filling.
    ("00000045 l47 0105 z45", Some(55)),
    ("00000045 l302 0105ff z299", Some(310)),
    ("00000045 l257 0105ff z254", None),
    ("00000045 l257 0105ff z299", None),
    // Fixed bytes and a number in the filling.
    ("00000045 l46 0105 z45", None),
    ("00000033 l36 0105 z29 01010101010101", None),
    // Two texts, their flag, and one of the two.
    ("00000845 l47 0105 z45 01 'B 01 'C", None),
    ("00000845 l49 0105 z45 01 'B", None),
    ("00000845 l51 0105 z45 01 'B 01 'C", Some(59)),
    ("0000f745 l51 0105 z45 01 'B 01 'C", Some(59)),
    // An index, chunk and columns, and the volume's fields, or their flag alone.
    ("00000833 l37 0105 z29 010101010101", None),
    ("00000833 l39 0105 z29 0101010101010109", Some(47)),
    ("00001032 l32 0105 z7 0107 z16 0105 00 0108", None),
    ("00001032 l34 0105 z7 0107 z16 0105 00 0108 0102", Some(42)),
    ("00008051 l65 0105 z63", None),
    ("00005551 l65 0105 z65", Some(75)),
    // GUID texts.
    (
        "00000034 l53 0105 00 24 'ABCDEFAB-1111-1111-1111-111111111111 z13",
        Some(61),
    ),
    (
        "00000034 l53 0105 00 24 'ABCDEFAG-1111-1111-1111-111111111111 z13",
        None,
    ),
    // Lengths past the payload.
    ("00000045 l4294967288 0105 z45", None),
    ("00000045 l48 0105 z45", None),
];

fn check_lens(rt: &impl Abort, alloc: Global, rows: &[(&str, Option<usize>)]) {
    for row in rows {
        let (payload, want) = *row;
        let len = len_of(alloc, &bytes_of(rt, alloc, payload));
        check(rt, len == want.ok_or(MALFORMED), payload);
    }
}

#[test]
fn payloads(rt: HostRuntime) {
    check_lens(&rt, rt.alloc(), &PAYLOADS);
}

// An unknown type byte is looked at where it is there and the payload has its eight bytes.
const TYPES: [(u8, RecordFault); 4] = [
    (0x51, RecordFault::Malformed),
    (0x36, RecordFault::UnknownType(0x36)),
    (0x45, RecordFault::Malformed),
    (0, RecordFault::UnknownType(0)),
];

#[test]
fn types(rt: HostRuntime) {
    for (kind, fault) in TYPES {
        let bytes = [0, 0, 0, kind, 0, 0, 0, 0];
        let whole = len_of(rt.alloc(), &bytes) == Err(RecordError::Fault(fault));
        check(&rt, whole, kind);
        check(&rt, len_of(rt.alloc(), &bytes[..7]) == Err(MALFORMED), kind);
    }
}
