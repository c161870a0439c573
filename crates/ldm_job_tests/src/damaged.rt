//! Jobs on the images of the sample group of which some bytes are other ones: all that is said, and
//! how each ends.
use crate::edit::play;
use std::alloc::Global;
use std::process::Abort;
use std::test::Fail;

// Plays each of these sessions over new images of the sample group.
fn play_each(alloc: Global, rt: &impl Abort, texts: &[&str]) -> Result<(), Fail> {
    for text in texts {
        play(alloc, rt, 3, 64, text)?;
    }
    Ok(())
}

// The fourth entry of the table is that of an LDM disk.
const FOURTH_ENTRY: &str = "\
! 0.mbr+1c2=00
! 0.mbr+1f2=42
$ disk on A
disk 11111111-1111-1111-1111-111111111111 version 2.11 data 63+6081 database 6144+2048
area 17+1481 log 1498+224
= 0";

const LAST_HEADER: &str = "\
! 0.zero+1fff=
$ disk on A
disk 11111111-1111-1111-1111-111111111111 version 2.11 data 63+6081 database 6144+2048
area 17+1481 log 1498+224
= 0";

// The second header has another GUID.
const SECOND_HEADER: &str = "\
! 0.second+30=39393939393939392d393939392d393939392d393939392d393939393939393939393939
$ disk on A
refused: image 0: PRIVHEAD 2 differs
= 1";

// Three of the tables of contents are zero, and then all four.
const TABLES: &str = "\
! 0.zero+1801=
! 0.zero+1802=
! 0.zero+1ffd=
$ disk on A
disk 11111111-1111-1111-1111-111111111111 version 2.11 data 63+6081 database 6144+2048
area 17+1481 log 1498+224
= 0
! 0.zero+1ffe=
$ disk on A
refused: image 0: no TOCBLOCK
= 1";

#[test]
fn reads_labels_that_are_damaged(rt: HostRuntime) -> Result<(), Fail> {
    let labels = [FOURTH_ENTRY, LAST_HEADER, SECOND_HEADER, TABLES];
    play_each(rt.alloc(), &rt, &labels)
}

const UNSETTLED: &str = "\
! 1.copy+11=02
$ show on A B C
refused: image 1: VMDB not settled
= 1";

const ONE_CLOSED: &str = "\
! 1.copy+0=00
$ show on A B C
group Dg0 aaaaaaaa-aaaa-aaaa-aaaa-aaaaaaaaaaaa sequence 7 blocks 4 of 60
disk 2 Disk1 11111111-1111-1111-1111-111111111111 image 0 free 6081
disk 3 Disk2 22222222-2222-2222-2222-222222222222 image 1 free 6081
disk 4 Disk3 33333333-3333-3333-3333-333333333333 image 2 free 6081
= 0";

const ALL_CLOSED: &str = "\
! *.copy+0=00
$ show on A B C
refused: no open copy
= 1";

const CLOSED: &str = "\
! 0.copy+0=00
$ records on A
closed
= 0";

// Block 6 has the second disk's record, and now the id of the first.
const ONE_ID: &str = "\
! 0.copy+319=02
$ records on A
refused: image 0: kind 2 id 2 twice
= 1";

// Block 8 is unused before.
const UNKNOWN_TYPE: &str = "\
! 0.copy+40f=01
! 0.copy+413=36
$ records on A
refused: image 0: block 8: type 0x36
= 1";

const LONG_LENGTH: &str = "\
! 0.copy+40f=01
! 0.copy+413=33000001f4
$ records on A
refused: image 0: block 8: malformed
= 1";

#[test]
fn reads_copies_that_are_damaged(rt: HostRuntime) -> Result<(), Fail> {
    let groups = [UNSETTLED, ONE_CLOSED, ALL_CLOSED];
    play_each(rt.alloc(), &rt, &groups)?;
    let copies = [CLOSED, ONE_ID, UNKNOWN_TYPE, LONG_LENGTH];
    play_each(rt.alloc(), &rt, &copies)
}

// The second image calls the first disk DiskX.
const SPLIT: &str = "\
! 1.copy+29f=58
$ show on A B
refused: images 0 and 1 differ at one sequence
= 1";

const SPENT: &str = "\
$ create Data bbbbbbbb-bbbb-bbbb-bbbb-bbbbbbbbbbbb span Disk1=1 on A B C
1 ok 8
= 0 ABC
! *.copy+75=ffffffffffffffff
$ delete Data on A B C
1 refused: sequence spent
= 1";

const ABSENT: &str = "\
$ edit on A
refused: disk 3 is absent
= 1
$ show on A A
refused: images 0 and 1 are one disk
= 1";

const ALONE: &str = "\
$ edit on A
refused: fewer than two disks
= 1";

#[test]
fn refuses_images_that_are_no_whole_group(rt: HostRuntime) -> Result<(), Fail> {
    play_each(rt.alloc(), &rt, &[SPLIT, SPENT, ABSENT])?;
    play(rt.alloc(), &rt, 1, 64, ALONE)
}
