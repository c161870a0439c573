//! Images that no healthy disk has: lengths, places and numbers at the ends of what the format can
//! say.
use crate::group::{expect_all, expect_last, expect_rows};
use crate::jobs::sample_group;
use std::test::Fail;

// WORDS;CHANGES;LAST LINE
const ROWS: &str = "\
disk on A;0.cut+6=;refused: image 0: too short
disk on A;0.cut+7=;refused: image 0: range
disk on A;0.cut+1fff=;refused: image 0: range
disk on A;0.head+11b=ffffffffffffffff;refused: image 0: range
disk on A;0.head+12b=ffffffffffffffff;refused: image 0: range
disk on A;0.toc+58=00000000000000e1;refused: image 0: TOCBLOCKs differ
disk on A;0.tocs+2e=ffffffffffffffff;refused: image 0: TOCBLOCK range
records on A;0.copy+4=ffffffff;refused: image 0: last VBLK
records on A;0.copy+4=00001724;refused: image 0: block 64: no VBLK
show on A;0.copy+4=00000007;refused: image 0 is not of the group
records on A;0.copy+294=ffffffff;refused: image 0: block 5: malformed
records on A;0.copy+298=09;refused: image 0: block 5: malformed
records on A;0.copy+28e=0005;refused: image 0: block 5: parts
records on A;0.copy+28c=00020002;refused: image 0: block 5: part
records on A;0.copy+28c=00000004;refused: image 0: block 5: missing part";

#[test]
fn refuses_numbers_at_their_ends(rt: HostRuntime) -> Result<(), Fail> {
    expect_rows(rt.alloc(), &rt, &sample_group(rt.alloc(), 3, 64)?, ROWS)
}

// Block 8: the component 5, whose parent is 5.
const ITS_OWN_PARENT: &str = "\
0.copy+400=56424c4b00000008000000080000000100000032000000260105026335064143544956450200000000
0.copy+429=0100 0.copy+43b=0105";

// Blocks 8 and 9: the volume 5, a span of one sector, and its component 6.
const SPAN: &str = "\
0.copy+400=56424c4b0000000800000008000000010000005100000047010501560367656e00414354495645000000000000000003
0.copy+430=00000000000001010000000000000000000000000000000001010000000007bbbbbbbbbbbbbbbbbbbbbbbbbbbbbbbb
0.copy+480=56424c4b0000000900000009000000010000003200000026010602633606414354495645020000000001010000000000
0.copy+4b0=0000000000000000000000010500";

// Block 10: its partition 7 on disk 4, which begins and is long by 2^64 - 1.
const GREATEST: &str = "\
0.copy+500=56424c4b0000000a0000000a00000001000000330000002e0107027037
0.copy+529=ffffffffffffffff 0.copy+539=08ffffffffffffffff01060104";

// Block 10: the partition 7 on disk 4, of one sector, which is the sector 2^64 - 2.
const LAST_SECTOR: &str = "\
0.copy+500=56424c4b0000000a0000000a0000000100000033000000270107027037
0.copy+529=fffffffffffffffe 0.copy+539=010101060104";

// The volume has two sectors.
const LARGER: &str = "0.copy+448=0102";

// Words, changes, and the last line.
const RECORDS: [(&str, &[&str], &str); 4] = [
    ("show on A", &[ITS_OWN_PARENT], "refused: rule 4 at 5"),
    ("show on A", &[SPAN, GREATEST], "refused: rule 10 at 7"),
    (
        "map V 0 1 on A",
        &[SPAN, LAST_SECTOR],
        "0 copy 0 Disk3 18446744073709551614 missing",
    ),
    (
        "show on A",
        &[SPAN, LAST_SECTOR, LARGER],
        "refused: rule 13 at 5",
    ),
];

#[test]
fn refuses_records_that_break_rules(rt: HostRuntime) -> Result<(), Fail> {
    let group = sample_group(rt.alloc(), 3, 64)?;
    for (words, changes, line) in RECORDS {
        expect_last(rt.alloc(), &rt, &group, words, changes, line)?;
    }
    Ok(())
}

// The group record has the id 2^64 - 1.
const LAST_ID: &str = "\
*.copy+210=000000350000003e08ffffffffffffffff03446730
*.copy+225=2461616161616161612d616161612d616161612d616161612d616161616161616161616161000000000000000000000000";

const CREATE: &str = "create X cccccccc-cccc-cccc-cccc-cccccccccccc span Disk1=1 on A B C";

#[test]
fn refuses_where_no_id_is_left(rt: HostRuntime) -> Result<(), Fail> {
    let group = sample_group(rt.alloc(), 3, 64)?;
    expect_last(
        rt.alloc(),
        &rt,
        &group,
        CREATE,
        &[LAST_ID],
        "1 refused: ids spent",
    )
}

// Words, changes, and all that is said.
const ANSWERS: [(&str, &str, &str); 3] = [
    (
        "records on A",
        "0.copy+4=00000007",
        "vmdb Dg0 aaaaaaaa-aaaa-aaaa-aaaa-aaaaaaaaaaaa sequence 7 last 7\n",
    ),
    (
        "check on A B C",
        "*.tocs+50=00000000000005d900000000000000e1",
        "image 0 sequence 7\nimage 1 sequence 7\nimage 2 sequence 7\nok: not editable: image 0: area clash\n",
    ),
    (
        "check on A B C",
        "1.tocs+36=000000000000000f 1.copy+0=00",
        "image 0 sequence 7\nimage 1 closed\nimage 2 sequence 7\nok: not editable: image 1: area too small\n",
    ),
];

#[test]
fn reads_areas_and_blocks_at_their_ends(rt: HostRuntime) -> Result<(), Fail> {
    let group = sample_group(rt.alloc(), 3, 64)?;
    for answer in ANSWERS {
        expect_all(rt.alloc(), &rt, &group, answer)?;
    }
    Ok(())
}
