//! How many bytes jobs hand to the disks of groups whose copies are tidy.
use crate::group::change_images;
use crate::jobs::{run_over, sample_group, words_in};
use ldm_host::Host;
use ldm_images::usual_images;
use ldm_memory::MemoryHost;
use ldm_run::Status;
use std::alloc::Global;
use std::process::Abort;
use std::test::Fail;

fn handed_to(host: &MemoryHost, disk: usize) -> u64 {
    if disk < host.disks() {
        host.handed(disk)
    } else {
        0
    }
}

// Runs a job, which may hand each image so many bytes.
fn hands(
    alloc: Global,
    rt: &impl Abort,
    host: &mut MemoryHost,
    words: &str,
    most: [u64; 3],
) -> Result<(), Fail> {
    let before = [handed_to(host, 0), handed_to(host, 1), handed_to(host, 2)];
    let status = run_over(alloc, &words_in(alloc, words)?, host);
    assert_eq!(rt; status, Some(Status::Done), "{words}");
    for disk in 0..3 {
        let handed = handed_to(host, disk).saturating_sub(before[disk]);
        assert!(rt;
            handed <= most[disk],
            "{words}: image {disk} was handed {handed}"
        );
    }
    Ok(())
}

// Runs jobs one after another on these images, of which some bytes are changed before.
fn hand_each(
    alloc: Global,
    rt: &impl Abort,
    mut images: Vec<Vec<u8>>,
    changes: &str,
    jobs: &[(&str, [u64; 3])],
) -> Result<(), Fail> {
    for text in changes.split_whitespace() {
        change_images(alloc, images.as_mut_slice(), text)?;
    }
    let mut host = MemoryHost::new(alloc, images, Vec::new(alloc))?;
    for (words, most) in jobs {
        hands(alloc, rt, &mut host, words, *most)?;
    }
    Ok(())
}

// Of the header 511 bytes, the gate twice, and 128 for each block that is written.
#[test]
fn hands_the_disks_the_blocks_that_change(rt: HostRuntime) -> Result<(), Fail> {
    hand_each(
        rt.alloc(),
        &rt,
        sample_group(rt.alloc(), 3, 64)?,
        "",
        &[
            (
                "create Data bbbbbbbb-bbbb-bbbb-bbbb-bbbbbbbbbbbb span Disk1=2048 Disk1=10 on A B C",
                [1025, 1025, 1025],
            ),
            ("extend Data Disk2=100 on A B C", [1153, 1153, 1153]),
        ],
    )
}

// The blocks of three records that are new, and the four by which the database grows.
#[test]
fn hands_the_disks_the_blocks_that_are_more(rt: HostRuntime) -> Result<(), Fail> {
    hand_each(
        rt.alloc(),
        &rt,
        sample_group(rt.alloc(), 2, 8)?,
        "",
        &[
            (
                "create Data bbbbbbbb-bbbb-bbbb-bbbb-bbbbbbbbbbbb span Disk1=2048 on A B",
                [1409, 1409, 0],
            ),
            ("delete Data on A B", [897, 897, 0]),
        ],
    )
}

// A closed copy is healed with the body that the others share, and then all are tidy.
#[test]
fn heals_with_the_body_of_the_other_copies(rt: HostRuntime) -> Result<(), Fail> {
    hand_each(
        rt.alloc(),
        &rt,
        sample_group(rt.alloc(), 3, 64)?,
        "1.copy+0=00",
        &[(
            "create Data bbbbbbbb-bbbb-bbbb-bbbb-bbbbbbbbbbbb span Disk1=2048 Disk1=10 on A B C",
            [1025, 9217, 1025],
        )],
    )
}

// Volume 5 and its component 6 in the blocks 11 and 12, and its partition 7 in three parts, in the
// blocks 9, 5 and 7: its name has 255 letters. The disks 2 and 4 are in the blocks 8 and 10.
const OUT_OF_ORDER: &str = "\
*.copy+288=00000009000100037878787878787878787878787878787878787878787878787878787878787878
*.copy+2b0=78787878787878787878787878787878787878787878787878787878787878787878787878787878
*.copy+2d8=78787878787878787878787878787878787878787878787878787878787878787878787878787878
*.copy+388=00000009000200037878787878787878787878787878787878787878787878787878787878787878
*.copy+3b0=78787878787878787878000000000000000000000000000000000000000000000000000000000208
*.copy+3d8=00010601020000000000000000000000000000000000000000000000000000000000000000000000
*.copy+408=0000000800000001000000340000003a0102054469736b312431313131313131312d313131312d31
*.copy+430=3131312d313131312d31313131313131313131313100000000000000000000000000000000000000
*.copy+458=00000000000000000000000000000000000000000000000000000000000000000000000000000000
*.copy+488=000000090000000300000033000001250107ff787878787878787878787878787878787878787878
*.copy+4b0=78787878787878787878787878787878787878787878787878787878787878787878787878787878
*.copy+4d8=78787878787878787878787878787878787878787878787878787878787878787878787878787878
*.copy+508=0000000a00000001000000340000003a0104054469736b332433333333333333332d333333332d33
*.copy+530=3333332d333333332d33333333333333333333333300000000000000000000000000000000000000
*.copy+558=00000000000000000000000000000000000000000000000000000000000000000000000000000000
*.copy+588=0000000b00000001000000510000004b010504446174610367656e00414354495645000000000000
*.copy+5b0=0000030000000000000101000000000000000000000000000000000208000000000007bbbbbbbbbb
*.copy+5d8=bbbbbbbbbbbbbbbbbbbbbb0000000000000000000000000000000000000000000000000000000000
*.copy+608=0000000c000000010000003200000026010602633606414354495645020000000001010000000000
*.copy+630=00000000000000000000000105000000000000000000000000000000000000000000000000000000
*.copy+658=00000000000000000000000000000000000000000000000000000000000000000000000000000000";

#[test]
fn keeps_records_whose_blocks_are_out_of_order(rt: HostRuntime) -> Result<(), Fail> {
    hand_each(
        rt.alloc(),
        &rt,
        sample_group(rt.alloc(), 3, 64)?,
        OUT_OF_ORDER,
        &[
            ("check on A B C", [0, 0, 0]),
            (
                "create E cccccccc-cccc-cccc-cccc-cccccccccccc span Disk2=1 on A B C",
                [897, 897, 897],
            ),
            ("delete Data on A B C", [1153, 1153, 1153]),
        ],
    )
}

#[test]
fn finds_a_usual_group_tidy(rt: HostRuntime) -> Result<(), Fail> {
    hand_each(
        rt.alloc(),
        &rt,
        usual_images(rt.alloc())?,
        "",
        &[(
            "create One 99999999-0000-0000-0000-000000000001 span Disk1=10 on A B C",
            [897, 897, 897],
        )],
    )
}

// A change of the images, a script, what is said of it, and the most bytes that each image is
// handed. No script has a line that is refused but the word that is none.
type Edit = (&'static str, &'static str, &'static str, [u64; 2]);

const EDITS: [Edit; 5] = [
    ("", "nonsense\n", "1 refused: bad line\n", [0, 0]),
    (
        "",
        "create One bbbbbbbb-bbbb-bbbb-bbbb-bbbbbbbbbbbb span Disk1=10\n",
        "1 ok 8\n",
        [897, 897],
    ),
    (
        "",
        "nonsense\ncreate One bbbbbbbb-bbbb-bbbb-bbbb-bbbbbbbbbbbb span Disk1=10\n",
        "1 refused: bad line\n2 ok 8\n",
        [897, 897],
    ),
    (
        "",
        "begin\ncreate One bbbbbbbb-bbbb-bbbb-bbbb-bbbbbbbbbbbb span Disk1=10\n",
        "1 held\n2 held\n",
        [0, 0],
    ),
    // The copy of the second image is behind: it gets a body of 16 sectors.
    (
        "1.copy+7c=06",
        "nonsense\n",
        "1 refused: bad line\n",
        [0, 8193],
    ),
];

// Edits the sample group of two disks so.
fn edits(alloc: Global, rt: &impl Abort, (changes, script, said, most): Edit) -> Result<(), Fail> {
    let mut images = sample_group(alloc, 2, 64)?;
    for text in changes.split_whitespace() {
        change_images(alloc, images.as_mut_slice(), text)?;
    }
    let mut host = MemoryHost::new(alloc, images, script.as_bytes().to_vec(alloc)?)?;
    let status = run_over(alloc, &words_in(alloc, "edit on A B")?, &mut host);
    let wanted = if script.starts_with("nonsense") {
        Status::Refused
    } else {
        Status::Done
    };
    assert_eq!(rt;
        (status, host.said()),
        (Some(wanted), said.as_bytes()),
        "{script}"
    );
    let handed = [handed_to(&host, 0), handed_to(&host, 1)];
    assert!(rt;
        handed[0] <= most[0] && handed[1] <= most[1],
        "{script}: {handed:?}"
    );
    Ok(())
}

// A line that isn't done hands no byte to a disk, and one that is, only the blocks of its records.
#[test]
fn hands_a_disk_nothing_for_lines_that_are_not_done(rt: HostRuntime) -> Result<(), Fail> {
    for edit in EDITS {
        edits(rt.alloc(), &rt, edit)?;
    }
    Ok(())
}
