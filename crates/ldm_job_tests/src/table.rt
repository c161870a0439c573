//! Tables of volumes, spelled.
use crate::edit::play;
use crate::jobs::{expect, named_images, run_over, sample_group, words_in};
use ldm_host::Host;
use ldm_memory::MemoryHost;
use ldm_run::Status;
use std::alloc::Global;
use std::test::Fail;

// Each shape on all disks and where one is absent, names that have to be spelled in another way,
// and what can't be had.
const TABLES: &str = "\
$ edit on A B C
< create Data bbbbbbbb-bbbb-bbbb-bbbb-bbbbbbbbbbbb span Disk1=2048 Disk1=10 Disk2=5
< create S dddddddd-dddd-dddd-dddd-dddddddddddd stripe 8 24 Disk1 Disk2
< create M eeeeeeee-eeee-eeee-eeee-eeeeeeeeeeee mirror 100 Disk1 Disk2
< create R cccccccc-cccc-cccc-cccc-cccccccccccc raid5 8 16 Disk1 Disk2 Disk3
< create V acacacac-acac-acac-acac-acacacacacac raid5 24 24 Disk1 Disk2 Disk3
< create My\\x20Vol ffffffff-ffff-ffff-ffff-ffffffffffff span Disk3=5
1 ok 8
2 ok 9
3 ok 10
4 ok 11
5 ok 12
6 ok 13
= 0 ABC
$ table Data on C B A
ldm_vol_Dg0_Data,LDM-bbbbbbbb-bbbb-bbbb-bbbb-bbbbbbbbbbbb,,ro,0 2058 linear A 63,2058 5 linear B 63
= 0
$ table Data on A C
refused: sector 2058 is lost
= 1
$ table Nope on A
refused: no volume
= 1
$ table S on A B
ldm_vol_Dg0_S,LDM-dddddddd-dddd-dddd-dddd-dddddddddddd,,ro,0 48 striped 2 8 A 2121 B 68
= 0
$ table M on B A
ldm_vol_Dg0_M,LDM-eeeeeeee-eeee-eeee-eeee-eeeeeeeeeeee,,ro,0 100 linear A 2145
= 0
$ table M on B C
ldm_vol_Dg0_M,LDM-eeeeeeee-eeee-eeee-eeee-eeeeeeeeeeee,,ro,0 100 linear B 92
= 0
$ table M on A B x:y
refused: image 2: no word of a table
= 1
$ table R on A B C
ldm_part_Dg0_p21,,,ro,0 16 linear A 2245;ldm_part_Dg0_p22,,,ro,0 16 linear B 192;ldm_part_Dg0_p23,,,ro,0 16 linear C 63;\
ldm_vol_Dg0_R,LDM-cccccccc-cccc-cccc-cccc-cccccccccccc,,ro,0 32 raid raid5_ls 2 8 nosync 3 \
- /dev/mapper/ldm_part_Dg0_p21 - /dev/mapper/ldm_part_Dg0_p22 - /dev/mapper/ldm_part_Dg0_p23
= 0
$ table R on C A
ldm_part_Dg0_p21,,,ro,0 16 linear A 2245;ldm_part_Dg0_p23,,,ro,0 16 linear C 63;\
ldm_vol_Dg0_R,LDM-cccccccc-cccc-cccc-cccc-cccccccccccc,,ro,0 32 raid raid5_ls 2 8 nosync 3 \
- /dev/mapper/ldm_part_Dg0_p21 - - - /dev/mapper/ldm_part_Dg0_p23
= 0
$ table R on A
refused: sector 8 is lost
= 1
$ table V on A B C
refused: chunk of 24 sectors
= 1
$ table My\\x20Vol on A C,1
ldm_vol_Dg0_My\\\\x20Vol,LDM-ffffffff-ffff-ffff-ffff-ffffffffffff,,ro,0 5 linear C\\,1 103
= 0
";

#[test]
fn spells_tables(rt: HostRuntime) -> Result<(), Fail> {
    play(rt.alloc(), &rt, 3, 64, TABLES)
}

// All volumes of a group in one line: none, three of which one has an array, those that have a table
// where another has none, and what can't be had.
const ALL_TABLES: &str = "\
$ table on A B C
refused: no volume
= 1
$ edit on A B C
< create S dddddddd-dddd-dddd-dddd-dddddddddddd stripe 8 24 Disk1 Disk2
< create R cccccccc-cccc-cccc-cccc-cccccccccccc raid5 8 16 Disk1 Disk2 Disk3
< create My\\x20Vol ffffffff-ffff-ffff-ffff-ffffffffffff span Disk3=5
1 ok 8
2 ok 9
3 ok 10
= 0 ABC
$ table on A B C
ldm_vol_Dg0_S,LDM-dddddddd-dddd-dddd-dddd-dddddddddddd,,ro,0 48 striped 2 8 A 63 B 63;\
ldm_part_Dg0_p11,,,ro,0 16 linear A 87;ldm_part_Dg0_p12,,,ro,0 16 linear B 87;ldm_part_Dg0_p13,,,ro,0 16 linear C 63;\
ldm_vol_Dg0_R,LDM-cccccccc-cccc-cccc-cccc-cccccccccccc,,ro,0 32 raid raid5_ls 2 8 nosync 3 \
- /dev/mapper/ldm_part_Dg0_p11 - /dev/mapper/ldm_part_Dg0_p12 - /dev/mapper/ldm_part_Dg0_p13;\
ldm_vol_Dg0_My\\\\x20Vol,LDM-ffffffff-ffff-ffff-ffff-ffffffffffff,,ro,0 5 linear C 79
= 0
$ table on A C
ldm_part_Dg0_p11,,,ro,0 16 linear A 87;ldm_part_Dg0_p13,,,ro,0 16 linear C 63;\
ldm_vol_Dg0_R,LDM-cccccccc-cccc-cccc-cccc-cccccccccccc,,ro,0 32 raid raid5_ls 2 8 nosync 3 \
- /dev/mapper/ldm_part_Dg0_p11 - - - /dev/mapper/ldm_part_Dg0_p13;\
ldm_vol_Dg0_My\\\\x20Vol,LDM-ffffffff-ffff-ffff-ffff-ffffffffffff,,ro,0 5 linear C 79
= 0
$ table on A B
ldm_vol_Dg0_S,LDM-dddddddd-dddd-dddd-dddd-dddddddddddd,,ro,0 48 striped 2 8 A 63 B 63;\
ldm_part_Dg0_p11,,,ro,0 16 linear A 87;ldm_part_Dg0_p12,,,ro,0 16 linear B 87;\
ldm_vol_Dg0_R,LDM-cccccccc-cccc-cccc-cccc-cccccccccccc,,ro,0 32 raid raid5_ls 2 8 nosync 3 \
- /dev/mapper/ldm_part_Dg0_p11 - /dev/mapper/ldm_part_Dg0_p12 - -
= 0
$ table on B
refused: volume S: sector 0 is lost
= 1
$ table on A B x:y
refused: volume S: image 2: no word of a table
= 1
$ create V acacacac-acac-acac-acac-acacacacacac raid5 24 24 Disk1 Disk2 Disk3 on A B C
1 ok 11
= 0 ABC
$ create T eeeeeeee-eeee-eeee-eeee-eeeeeeeeeeee span Disk2=7 on A B C
1 ok 12
= 0 ABC
$ table on C B
ldm_part_Dg0_p12,,,ro,0 16 linear B 87;ldm_part_Dg0_p13,,,ro,0 16 linear C 63;\
ldm_vol_Dg0_R,LDM-cccccccc-cccc-cccc-cccc-cccccccccccc,,ro,0 32 raid raid5_ls 2 8 nosync 3 \
- - - /dev/mapper/ldm_part_Dg0_p12 - /dev/mapper/ldm_part_Dg0_p13;\
ldm_vol_Dg0_My\\\\x20Vol,LDM-ffffffff-ffff-ffff-ffff-ffffffffffff,,ro,0 5 linear C 79;\
ldm_vol_Dg0_T,LDM-eeeeeeee-eeee-eeee-eeee-eeeeeeeeeeee,,ro,0 7 linear B 127
= 0
";

#[test]
fn spells_all_tables(rt: HostRuntime) -> Result<(), Fail> {
    play(rt.alloc(), &rt, 3, 64, ALL_TABLES)
}

// The names of the three partitions stand in the blocks 10 to 12: P1, P2 and P1, and then P1, P2 and
// P3.
const NAMESAKES: &str = "\
$ create R cccccccc-cccc-cccc-cccc-cccccccccccc raid5 8 16 Disk1 Disk2 Disk3 on A B C
1 ok 8
= 0 ABC
! *.copy+51b=5031
! *.copy+59b=5032
! *.copy+61b=5031
$ table R on A B C
refused: two parts have one name
= 1
! *.copy+61b=5033
$ table R on A B C
ldm_part_Dg0_P1,,,ro,0 16 linear A 63;ldm_part_Dg0_P2,,,ro,0 16 linear B 63;ldm_part_Dg0_P3,,,ro,0 16 linear C 63;\
ldm_vol_Dg0_R,LDM-cccccccc-cccc-cccc-cccc-cccccccccccc,,ro,0 32 raid raid5_ls 2 8 nosync 3 \
- /dev/mapper/ldm_part_Dg0_P1 - /dev/mapper/ldm_part_Dg0_P2 - /dev/mapper/ldm_part_Dg0_P3
= 0";

#[test]
fn refuses_two_parts_of_one_name(rt: HostRuntime) -> Result<(), Fail> {
    play(rt.alloc(), &rt, 3, 64, NAMESAKES)
}

// The name of the first partition of T stands in block 18: it is that of the first of R, and then
// its own.
const OTHER_NAMESAKES: &str = "\
$ edit on A B C
< create S dddddddd-dddd-dddd-dddd-dddddddddddd span Disk1=5
< create R cccccccc-cccc-cccc-cccc-cccccccccccc raid5 8 16 Disk1 Disk2 Disk3
< create T eeeeeeee-eeee-eeee-eeee-eeeeeeeeeeee raid5 8 8 Disk1 Disk2 Disk3
1 ok 8
2 ok 9
3 ok 10
= 0 ABC
! *.copy+91b=703130
$ table T on A B C
ldm_part_Dg0_p10,,,ro,0 8 linear A 84;ldm_part_Dg0_p16,,,ro,0 8 linear B 79;ldm_part_Dg0_p17,,,ro,0 8 linear C 79;\
ldm_vol_Dg0_T,LDM-eeeeeeee-eeee-eeee-eeee-eeeeeeeeeeee,,ro,0 16 raid raid5_ls 2 8 nosync 3 \
- /dev/mapper/ldm_part_Dg0_p10 - /dev/mapper/ldm_part_Dg0_p16 - /dev/mapper/ldm_part_Dg0_p17
= 0
$ table on A B C
refused: two parts have one name
= 1
! *.copy+91b=703135
$ table on A B C
ldm_vol_Dg0_S,LDM-dddddddd-dddd-dddd-dddd-dddddddddddd,,ro,0 5 linear A 63;\
ldm_part_Dg0_p10,,,ro,0 16 linear A 68;ldm_part_Dg0_p11,,,ro,0 16 linear B 63;ldm_part_Dg0_p12,,,ro,0 16 linear C 63;\
ldm_vol_Dg0_R,LDM-cccccccc-cccc-cccc-cccc-cccccccccccc,,ro,0 32 raid raid5_ls 2 8 nosync 3 \
- /dev/mapper/ldm_part_Dg0_p10 - /dev/mapper/ldm_part_Dg0_p11 - /dev/mapper/ldm_part_Dg0_p12;\
ldm_part_Dg0_p15,,,ro,0 8 linear A 84;ldm_part_Dg0_p16,,,ro,0 8 linear B 79;ldm_part_Dg0_p17,,,ro,0 8 linear C 79;\
ldm_vol_Dg0_T,LDM-eeeeeeee-eeee-eeee-eeee-eeeeeeeeeeee,,ro,0 16 raid raid5_ls 2 8 nosync 3 \
- /dev/mapper/ldm_part_Dg0_p15 - /dev/mapper/ldm_part_Dg0_p16 - /dev/mapper/ldm_part_Dg0_p17
= 0";

#[test]
fn refuses_parts_of_two_volumes_with_one_name(rt: HostRuntime) -> Result<(), Fail> {
    play(rt.alloc(), &rt, 3, 64, OTHER_NAMESAKES)
}

// The name of the first partition of T is that of the first of V, which has no table.
const NAMESAKES_WITHOUT: &str = "\
$ edit on A B C
< create S dddddddd-dddd-dddd-dddd-dddddddddddd span Disk1=5
< create V acacacac-acac-acac-acac-acacacacacac raid5 24 24 Disk1 Disk2 Disk3
< create T eeeeeeee-eeee-eeee-eeee-eeeeeeeeeeee raid5 8 8 Disk1 Disk2 Disk3
1 ok 8
2 ok 9
3 ok 10
= 0 ABC
! *.copy+91b=703130
$ table on A B C
ldm_vol_Dg0_S,LDM-dddddddd-dddd-dddd-dddd-dddddddddddd,,ro,0 5 linear A 63;\
ldm_part_Dg0_p10,,,ro,0 8 linear A 92;ldm_part_Dg0_p16,,,ro,0 8 linear B 87;ldm_part_Dg0_p17,,,ro,0 8 linear C 87;\
ldm_vol_Dg0_T,LDM-eeeeeeee-eeee-eeee-eeee-eeeeeeeeeeee,,ro,0 16 raid raid5_ls 2 8 nosync 3 \
- /dev/mapper/ldm_part_Dg0_p10 - /dev/mapper/ldm_part_Dg0_p16 - /dev/mapper/ldm_part_Dg0_p17
= 0";

#[test]
fn passes_over_names_of_a_volume_without_a_table(rt: HostRuntime) -> Result<(), Fail> {
    play(rt.alloc(), &rt, 3, 64, NAMESAKES_WITHOUT)
}

// Where the size of the volume stands whose GUID is sixteen of these bytes, in the last megabyte of
// an image: a number of one byte, and then five bytes up to the GUID.
fn size_place(image: &[u8], guid: u8) -> Option<usize> {
    let area = image.len().checked_sub(0x10_0000)?;
    let place = image[area..]
        .windows(16)
        .position(|bytes| bytes == [guid; 16].as_slice())?;
    area.checked_add(place)?.checked_sub(6)
}

// The images of the sample group with a volume of such a GUID that a line creates, whose size is
// then this.
fn resized(alloc: Global, line: &str, guid: u8, size: u8) -> Result<Vec<Vec<u8>>, Fail> {
    let script = line.as_bytes().to_vec(alloc)?;
    let mut host = MemoryHost::new(alloc, sample_group(alloc, 3, 64)?, script)?;
    if run_over(alloc, &words_in(alloc, "edit on A B C")?, &mut host) != Some(Status::Done) {
        return Err(Fail::from("no volume"));
    }
    let mut images = Vec::new(alloc);
    for disk in 0..host.disks() {
        let mut image = host.image(disk).to_vec(alloc)?;
        if let Some(place) = size_place(&image, guid)
            && place < image.len()
        {
            image[place] = size;
        }
        images.push(image)?;
    }
    Ok(images)
}

const STRIPE: &str = "create S dddddddd-dddd-dddd-dddd-dddddddddddd stripe 8 24 Disk1 Disk2";

const RAID5: &str = "create R cccccccc-cccc-cccc-cccc-cccccccccccc raid5 8 16 Disk1 Disk2 Disk3";

// The words, and what is said.
const PARTS: [(&str, &str, Status); 4] = [
    (
        "table S on A B C",
        "ldm_vol_Dg0_S,LDM-dddddddd-dddd-dddd-dddd-dddddddddddd,,ro,0 32 striped 2 8 A 63 B 63,32 8 linear A 79,40 2 linear B 79\n",
        Status::Done,
    ),
    (
        "table R on A B C",
        "ldm_part_Dg0_p7,,,ro,0 8 linear A 63;ldm_part_Dg0_p8,,,ro,0 8 linear B 63;ldm_part_Dg0_p9,,,ro,0 8 linear C 63;\
ldm_vol_Dg0_R,LDM-cccccccc-cccc-cccc-cccc-cccccccccccc,,ro,0 16 raid raid5_ls 2 8 nosync 3 \
- /dev/mapper/ldm_part_Dg0_p7 - /dev/mapper/ldm_part_Dg0_p8 - /dev/mapper/ldm_part_Dg0_p9,16 4 linear C 71\n",
        Status::Done,
    ),
    (
        "table R on A C",
        "ldm_part_Dg0_p7,,,ro,0 8 linear A 63;ldm_part_Dg0_p9,,,ro,0 8 linear C 63;\
ldm_vol_Dg0_R,LDM-cccccccc-cccc-cccc-cccc-cccccccccccc,,ro,0 16 raid raid5_ls 2 8 nosync 3 \
- /dev/mapper/ldm_part_Dg0_p7 - - - /dev/mapper/ldm_part_Dg0_p9,16 4 linear C 71\n",
        Status::Done,
    ),
    (
        "table R on A B",
        "refused: sector 16 is missing in a part of a row\n",
        Status::Refused,
    ),
];

// A stripe of 42 sectors, of which the last 10 fill no row, and a RAID-5 of 20, of which the last 4
// don't.
#[test]
fn spells_what_whole_rows_leave(rt: HostRuntime) -> Result<(), Fail> {
    let alloc = rt.alloc();
    let stripe = resized(alloc, STRIPE, 0xdd, 42)?;
    let raid5 = resized(alloc, RAID5, 0xcc, 20)?;
    for (words, text, status) in PARTS {
        let group = if words.starts_with("table S") {
            &stripe
        } else {
            &raid5
        };
        let images = named_images(alloc, group, words)?;
        expect(alloc, &rt, words, images, b"", (text, status))?;
    }
    Ok(())
}
