//! The job `records`: the copy of the database on an image, or its first fault.
use crate::jobs::{Case, expect_cases};
use ldm_run::Status;
use std::test::Fail;

const RECORDS: &str =
    "vmdb Dg0 aaaaaaaa-aaaa-aaaa-aaaa-aaaaaaaaaaaa sequence 7 last 64\ndgr3 1 Dg0 63\ndsk3 2 Disk1 66\n";

// The config area of the image begins at this byte.
const AREA: usize = 512 * 6161;

const COPIES: [Case; 7] = [
    (&[], RECORDS, Status::Done),
    (&[(AREA, b"\x00")], "closed\n", Status::Done),
    (
        &[(AREA + 0x11, b"\x02")],
        "refused: image 0: VMDB not settled\n",
        Status::Refused,
    ),
    (
        &[(AREA + 128 * 8, b"VBLL")],
        "refused: image 0: block 8: no VBLK\n",
        Status::Refused,
    ),
    (
        &[
            (AREA + 128 * 8 + 0x0F, b"\x01"),
            (AREA + 128 * 8 + 0x13, b"\x36"),
        ],
        "refused: image 0: block 8: type 0x36\n",
        Status::Refused,
    ),
    (
        &[
            (AREA + 128 * 8 + 0x0F, b"\x01"),
            (AREA + 128 * 8 + 0x13, b"\x33\x00\x00\x01\xf4"),
        ],
        "refused: image 0: block 8: malformed\n",
        Status::Refused,
    ),
    (
        &[(0x1FE, b"\x00")],
        "refused: image 0: no signature\n",
        Status::Refused,
    ),
];

#[test]
fn says_the_records_or_the_fault_of_the_copy(rt: HostRuntime) -> Result<(), Fail> {
    expect_cases(rt.alloc(), &rt, "records on A", 1, &COPIES)
}

const THREE_DISKS: &str =
    "vmdb Dg0 aaaaaaaa-aaaa-aaaa-aaaa-aaaaaaaaaaaa sequence 7 last 64\ndgr3 1 Dg0 63\ndsk3 2 Disk1 66\ndsk3 3 Disk2 66\ndsk3 4 Disk3 66\n";

const IDS: [Case; 2] = [
    (&[], THREE_DISKS, Status::Done),
    // The id of the second disk record.
    (
        &[(AREA + 128 * 6 + 0x19, b"\x02")],
        "refused: image 0: kind 2 id 2 twice\n",
        Status::Refused,
    ),
];

#[test]
fn refuses_an_id_that_two_disks_have(rt: HostRuntime) -> Result<(), Fail> {
    expect_cases(rt.alloc(), &rt, "records on C", 3, &IDS)
}

// The texts of the faults of the header, in their order; each change makes no earlier fault.
const HEADERS: [Case; 7] = [
    (
        &[(AREA + 3, b"X")],
        "refused: image 0: VMDB magic\n",
        Status::Refused,
    ),
    (
        &[(AREA + 0x13, b"\x05")],
        "refused: image 0: VMDB version\n",
        Status::Refused,
    ),
    (
        &[(AREA + 0x0B, b"\x40")],
        "refused: image 0: VBLK size\n",
        Status::Refused,
    ),
    (
        &[(AREA + 0x0E, b"\x04")],
        "refused: image 0: first VBLK offset\n",
        Status::Refused,
    ),
    (
        &[(AREA + 0x11, b"\x02")],
        "refused: image 0: VMDB not settled\n",
        Status::Refused,
    ),
    // One more than four times the 1481 sectors of the area.
    (
        &[(AREA + 0x06, b"\x17\x25")],
        "refused: image 0: last VBLK\n",
        Status::Refused,
    ),
    (
        &[(AREA + 0x35, b"g")],
        "refused: image 0: group GUID\n",
        Status::Refused,
    ),
];

// Where block 8 and block 9 have their group, part and number of parts.
const GROUP_8: usize = AREA + 128 * 8 + 8;

const GROUP_9: usize = AREA + 128 * 9 + 8;

// The texts of the faults of the blocks.
const BLOCKS: [Case; 6] = [
    (
        &[(AREA + 128 * 8, b"VBLL")],
        "refused: image 0: block 8: no VBLK\n",
        Status::Refused,
    ),
    (
        &[(GROUP_8, b"\x00\x00\x00\x08\x00\x00\x00\x05")],
        "refused: image 0: block 8: parts\n",
        Status::Refused,
    ),
    (
        &[(GROUP_8, b"\x00\x00\x00\x08\x00\x02\x00\x02")],
        "refused: image 0: block 8: part\n",
        Status::Refused,
    ),
    (
        &[
            (GROUP_8, b"\x00\x00\x00\x08\x00\x00\x00\x02"),
            (GROUP_9, b"\x00\x00\x00\x08\x00\x01\x00\x03"),
        ],
        "refused: image 0: block 9: mixed group\n",
        Status::Refused,
    ),
    (
        &[
            (GROUP_8, b"\x00\x00\x00\x08\x00\x00\x00\x02"),
            (GROUP_9, b"\x00\x00\x00\x08\x00\x00\x00\x02"),
        ],
        "refused: image 0: block 9: repeated part\n",
        Status::Refused,
    ),
    (
        &[(GROUP_8, b"\x00\x00\x00\x08\x00\x00\x00\x02")],
        "refused: image 0: block 8: missing part\n",
        Status::Refused,
    ),
];

#[test]
fn says_each_fault_of_a_copy(rt: HostRuntime) -> Result<(), Fail> {
    expect_cases(rt.alloc(), &rt, "records on A", 1, &HEADERS)?;
    expect_cases(rt.alloc(), &rt, "records on A", 1, &BLOCKS)
}

// The group and the disk in the records that Vista writes: 44 bytes behind the group's name, and 16
// of a GUID and 29 behind the disk's. What else the blocks hold is carried.
const BY_VISTA: &[(usize, &[u8])] = &[
    (AREA + 128 * 4 + 0x13, b"\x45\x00\x00\x00\x32"),
    (AREA + 128 * 5 + 0x13, b"\x44\x00\x00\x00\x35"),
];

const VISTA: [Case; 1] = [(
    BY_VISTA,
    "vmdb Dg0 aaaaaaaa-aaaa-aaaa-aaaa-aaaaaaaaaaaa sequence 7 last 64\ndgr4 1 Dg0 58\ndsk4 2 Disk1 61\n",
    Status::Done,
)];

#[test]
fn says_the_records_of_vista(rt: HostRuntime) -> Result<(), Fail> {
    expect_cases(rt.alloc(), &rt, "records on A", 1, &VISTA)
}

const VISTA_AS_JSON: [Case; 1] = [(
    BY_VISTA,
    "{\"state\":\"open\",\"name\":\"Dg0\",\"guid\":\"aaaaaaaa-aaaa-aaaa-aaaa-aaaaaaaaaaaa\",\"sequence\":7,\"last\":64,\"records\":[{\"kind\":\"group\",\"type\":\"dgr4\",\"id\":1,\"name\":\"Dg0\",\"length\":58,\"mark\":0,\"flags\":0,\"guid\":null,\"id1\":null,\"id2\":null},{\"kind\":\"disk\",\"type\":\"dsk4\",\"id\":2,\"name\":\"Disk1\",\"length\":61,\"mark\":0,\"flags\":0,\"guid\":\"24313131-3131-3131-312d-313131312d31\",\"alternative_name\":null}]}\n",
    Status::Done,
)];

#[test]
fn says_the_records_of_vista_as_json(rt: HostRuntime) -> Result<(), Fail> {
    expect_cases(rt.alloc(), &rt, "records --json on A", 1, &VISTA_AS_JSON)
}
