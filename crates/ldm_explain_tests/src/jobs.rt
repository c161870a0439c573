//! What is explained of jobs over images in memory.
use crate::images::{Change, explained, untabled};
use std::alloc::Global;
use std::process::Abort;
use std::test::Fail;

const NONE: Change = Change::None;

// WORDS, where a letter names an image, a script, what is changed of the images, and what is
// explained.
type Row = (&'static str, &'static str, Change, &'static str);

const IMAGES: [Row; 5] = [
    (
        "show on a.img b.img a.img",
        "",
        NONE,
        "ldm: a.img and a.img are images of one disk: name one of them\n",
    ),
    (
        "disk on c.img",
        "",
        Change::Cut(2),
        "ldm: c.img has 8191 sectors, its label needs 8192: is its end missing?\n",
    ),
    (
        "show on a.img b.img c.img",
        "",
        Change::Cut(2),
        "ldm: c.img has 8191 sectors, its label needs 8192: is its end missing?\nldm: leave it out, where the others are enough to read\n",
    ),
    (
        "check on a.img b.img",
        "",
        Change::Gpt(1),
        "ldm: the MBR of b.img is that of a GPT disk, and sector 1 is no GPT header (EFI PART): was it overwritten?\nldm: leave it out, where the others are enough to read\n",
    ),
    (
        "records on a.img",
        "",
        Change::Block(0),
        "ldm: a.img: block 4 of its database doesn't begin with VBLK\n",
    ),
];

fn check_rows(alloc: Global, rt: &impl Abort, rows: &[Row]) -> Result<(), Fail> {
    for (words, script, change, text) in rows {
        let said = explained(alloc, words, script, *change)?;
        assert_eq!(rt; said.as_str(), *text);
    }
    Ok(())
}

#[test]
fn explains_what_is_wrong_with_images(rt: HostRuntime) -> Result<(), Fail> {
    check_rows(rt.alloc(), &rt, &IMAGES)
}

const GROUPS: [Row; 2] = [
    (
        "show on a.img b.img",
        "",
        Change::Close,
        "ldm: no image holds an open copy of the database: name more disks of the group\n",
    ),
    (
        "edit on a.img b.img",
        "delete Volume1\n",
        NONE,
        "ldm: Disk3 (33333333-3333-3333-3333-333333333333) is absent: name the images of all disks of the group\n",
    ),
];

#[test]
fn explains_why_there_is_no_group(rt: HostRuntime) -> Result<(), Fail> {
    check_rows(rt.alloc(), &rt, &GROUPS)
}

const STRANGERS: [Row; 1] = [(
    "show on a.img b.img x.img",
    "",
    NONE,
    "ldm: x.img is of group Xg0, the newest group is Dg0: leave one out\n",
)];

#[test]
fn explains_that_an_image_is_of_another_group(rt: HostRuntime) -> Result<(), Fail> {
    check_rows(rt.alloc(), &rt, &STRANGERS)
}

const VOLUMES: [Row; 4] = [
    (
        "map Volum1 0 1 on a.img b.img c.img",
        "",
        NONE,
        "ldm: no volume is called Volum1; the nearest is Volume1\n",
    ),
    (
        "dump Data on a.img b.img c.img",
        "",
        NONE,
        "ldm: no volume is called Data; the volumes of the group: Volume1, Volume2, Stripe1, Mirror1\n",
    ),
    (
        "map Volume1 990 5000 on a.img b.img c.img",
        "",
        NONE,
        "ldm: COUNT is 5000, and map takes 1 to 4096\n",
    ),
    (
        "map Stripe1 1020 5 on a.img b.img c.img",
        "",
        NONE,
        "ldm: Stripe1 has 1024 sectors, and 5 from sector 1020 on end behind them\n",
    ),
];

#[test]
fn explains_what_a_volume_does_not_have(rt: HostRuntime) -> Result<(), Fail> {
    check_rows(rt.alloc(), &rt, &VOLUMES)
}

const DISKS: [Row; 4] = [
    (
        "dump Stripe1 on b.img a.img",
        "",
        NONE,
        "ldm: sector 128 of Stripe1 lies on Disk3 (33333333-3333-3333-3333-333333333333), which is absent: name its image\n",
    ),
    (
        "table Stripe1 on b.img a.img",
        "",
        NONE,
        "ldm: sector 128 of Stripe1 lies on Disk3 (33333333-3333-3333-3333-333333333333), which is absent: name its image\n",
    ),
    (
        "scrub Stripe1 on a.img b.img c.img",
        "",
        NONE,
        "ldm: Stripe1 has no copies and no parity: only a mirror or a RAID-5 is scrubbed\n",
    ),
    (
        "table Stripe1 on a:b.img b.img c.img",
        "",
        NONE,
        "ldm: a table can't name a:b.img, as it has a colon, a backslash or a byte that isn't visible ASCII: name it by a link\n",
    ),
];

#[test]
fn explains_why_a_volume_is_not_had(rt: HostRuntime) -> Result<(), Fail> {
    check_rows(rt.alloc(), &rt, &DISKS)
}

const SECTIONS: [Row; 6] = [
    (
        "dump Stripe1 1020 5 on a.img b.img c.img",
        "",
        NONE,
        "ldm: Stripe1 has 1024 sectors, and 5 from sector 1020 on end behind them\n",
    ),
    // The range is said, and no disk that is absent.
    (
        "dump Stripe1 1025 1 on b.img a.img",
        "",
        NONE,
        "ldm: Stripe1 has 1024 sectors, and 1 from sector 1025 on end behind them\n",
    ),
    (
        "dump Stripe1 128 0 on b.img a.img",
        "",
        NONE,
        "ldm: COUNT is 0, and dump takes 1 at least\n",
    ),
    // Sectors 128 to 255 are lost too, and aren't asked for.
    (
        "dump Stripe1 300 100 on b.img a.img",
        "",
        NONE,
        "ldm: sector 384 of Stripe1 lies on Disk3 (33333333-3333-3333-3333-333333333333), which is absent: name its image\n",
    ),
    (
        "dump Stripe1 1023 1 on b.img a.img",
        "",
        NONE,
        "ldm: sector 1023 of Stripe1 lies on Disk3 (33333333-3333-3333-3333-333333333333), which is absent: name its image\n",
    ),
    (
        "dump Mirror 0 1 on a.img b.img c.img",
        "",
        NONE,
        "ldm: no volume is called Mirror; the nearest is Mirror1\n",
    ),
];

#[test]
fn explains_why_a_section_is_not_dumped(rt: HostRuntime) -> Result<(), Fail> {
    check_rows(rt.alloc(), &rt, &SECTIONS)
}

const TABLES: [Row; 6] = [
    (
        "table Stripe1 on b.img a.img",
        "",
        NONE,
        "ldm: sector 128 of Stripe1 lies on Disk3 (33333333-3333-3333-3333-333333333333), which is absent: name its image\n",
    ),
    // Others have a table.
    ("table on b.img a.img", "", NONE, ""),
    (
        "table on a.img b:.img c.img",
        "",
        NONE,
        "ldm: a table can't name b:.img, as it has a colon, a backslash or a byte that isn't visible ASCII: name it by a link\n",
    ),
    (
        "table on a.img b.img c.img",
        "",
        Change::NoVolume,
        "ldm: group Dg0 has no volume to make a device of\n",
    ),
    (
        "table on a.img b.img c.img",
        "",
        Change::Arrays,
        "ldm: R and T each have a partition called p2, and so two devices would have one name: take the table of one, and dump the other\n",
    ),
    // The partitions of one name lie on the absent disk, and nothing is wrong.
    ("table on a.img c.img", "", Change::Arrays, ""),
];

#[test]
fn explains_why_no_tables_are_had(rt: HostRuntime) -> Result<(), Fail> {
    check_rows(rt.alloc(), &rt, &TABLES)
}

// The words of the job, and what is told of the volumes that its text leaves out.
const UNTABLED: [(&str, &str); 3] = [
    ("table on a.img b.img c.img", ""),
    (
        "table on b.img a.img",
        "ldm: volume Stripe1 has no table: sector 128 is lost\n",
    ),
    (
        "table on c.img",
        "\
ldm: volume Volume1 has no table: sector 0 is lost
ldm: volume Volume2 has no table: sector 0 is lost
ldm: volume Stripe1 has no table: sector 0 is lost
",
    ),
];

#[test]
fn tells_which_volumes_have_no_table(rt: HostRuntime) -> Result<(), Fail> {
    for (words, text) in UNTABLED {
        let said = untabled(rt.alloc(), words)?;
        assert_eq!(&rt; said.as_str(), text);
    }
    Ok(())
}

const SCRIPT: &str = "\
create Data bbbbbbbb-bbbb-bbbb-bbbb-bbbbbbbbbbbb span Disk1=2048 Disk2=1000
create Fast cccccccc-cccc-cccc-cccc-cccccccccccc stripe 128 512 Disk2 Disk3
extend Data Disk3=100
extend Fast Disk3=100
delete Volume1
create Big dddddddd-dddd-dddd-dddd-dddddddddddd mirror 9000 Disk1 Disk2
delete Volume1

extend Data disk1=5
begin
begin
delete Data
extend Data Disk1=5
cancel
";

const REPLIES: &str = "\
ldm: line 4: Fast is neither a span nor a mirror, and no other volume is extended
ldm: line 6: Disk1 has no free run of 9000 sectors, the largest is 1833
ldm: line 7: no volume is called Volume1; the nearest is Volume2
ldm: line 8: it is blank, and a script has no blank lines
ldm: line 9: no disk is called disk1; the nearest is Disk1
ldm: line 11: a batch is open: commit or cancel ends it
ldm: line 13: no volume is called Data; the volumes of the group: Volume2, Stripe1, Mirror1, Fast
";

#[test]
fn explains_the_refused_lines(rt: HostRuntime) -> Result<(), Fail> {
    for words in ["try on a.img b.img c.img", "edit on a.img b.img c.img"] {
        let text = explained(rt.alloc(), words, SCRIPT, NONE)?;
        assert_eq!(rt; text.as_str(), REPLIES);
    }
    let lines = "\n\n\n\n\n\n\n\n\n\n\n\n";
    let text = explained(rt.alloc(), "try on a.img b.img c.img", lines, NONE)?;
    let end = "ldm: refused lines beside these: 2\n";
    assert!(rt; text.ends_with(end));
    assert_eq!(rt; text.lines().count(), 11);
    Ok(())
}

const COMMANDS: [Row; 3] = [
    (
        "extend Volume1 Disk4=1 on a.img b.img c.img",
        "",
        NONE,
        "ldm: no disk is called Disk4; the nearest is Disk1\n",
    ),
    (
        "create Big bbbbbbbb-bbbb-bbbb-bbbb-bbbbbbbbbbbb mirror 9000 Disk1 Disk2 on a.img b.img c.img",
        "",
        NONE,
        "ldm: Disk1 has no free run of 9000 sectors, the largest is 3881\n",
    ),
    (
        "create Big bbbbbbbb-bbbb-bbbb-bbbb-bbbbbbbbbbbb span Disk1=3000 Disk1=900 on a.img b.img c.img",
        "",
        NONE,
        "ldm: Disk1 has no free run of 900 sectors, the largest is 881, after the words before\n",
    ),
];

#[test]
fn explains_a_command(rt: HostRuntime) -> Result<(), Fail> {
    check_rows(rt.alloc(), &rt, &COMMANDS)
}

#[test]
fn explains_why_no_group_is_made(rt: HostRuntime) -> Result<(), Fail> {
    let words =
        "init G bbbbbbbb-bbbb-bbbb-bbbb-bbbbbbbbbbbb 11111111-1111-1111-1111-111111111111 22222222-2222-2222-2222-222222222222 on a.img b.img";
    let text = explained(rt.alloc(), words, "", NONE)?;
    assert_eq!(rt;
        text.as_str(),
        "ldm: a.img isn't empty: its first 63 sectors and its last 2048 have to be zero\n"
    );
    Ok(())
}
