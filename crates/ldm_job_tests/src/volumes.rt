//! Jobs on the bytes of volumes.
use crate::edit::play;
use crate::jobs::{answer_of, expect, named_images, put, run_over, sample_group, words_in};
use ldm_host::Host;
use ldm_images::usual_images;
use ldm_memory::MemoryHost;
use ldm_run::Status;
use std::alloc::Global;
use std::process::Abort;
use std::test::Fail;

// A RAID-5 with zeros in all its sectors, and then with one byte of sector 71 of an image changed.
// A mirror, and then one byte of sector 162 of an image.
const SCRUBS: &str = "\
$ create R cccccccc-cccc-cccc-cccc-cccccccccccc raid5 4 12 Disk1 Disk2 Disk3 on A B C
1 ok 8
= 0 ABC
$ scrub R on A B C
scrub R checked 12 bad 0
= 0
! 1.mbr+8e00=01
$ scrub R on A B C
row 2 offset 0 parity fails
scrub R checked 12 bad 1
= 1
$ dump R on A
refused: sector 4 is lost
= 1
$ scrub R on A C
refused: disk 3 is missing
= 1
$ delete R on A B C
1 ok 9
= 0 ABC
$ create M bbbbbbbb-bbbb-bbbb-bbbb-bbbbbbbbbbbb mirror 100 Disk1 Disk2 on A B C
1 ok 10
= 0 ABC
! 1.mbr+8e00=00
$ scrub M on A B
scrub M checked 100 bad 0
= 0
! 1.mbr+145ff=01
$ scrub M on A B C
sector 99 differs
scrub M checked 100 bad 1
= 1
$ scrub M on A C
refused: disk 3 is missing
= 1
$ create S dddddddd-dddd-dddd-dddd-dddddddddddd span Disk1=10 on A B C
1 ok 11
= 0 ABC
$ scrub S on B C
refused: nothing to compare
= 1
$ scrub Nope on A B C
refused: no volume
= 1
$ dump Nope on A B C
refused: no volume
= 1
$ dump S on B C
refused: sector 0 is lost
= 1
$ dump S 9 1 on B C
refused: sector 9 is lost
= 1
$ dump S 0 0 on A B C
refused: bad range
= 1
$ dump S 9 2 on B C
refused: bad range
= 1
$ dump S 10 1 on A B C
refused: bad range
= 1
$ dump S 18446744073709551615 2 on A B C
refused: bad range
= 1
$ dump Nope 0 1 on A B C
refused: no volume
= 1
";

#[test]
fn compares_copies_and_rows(rt: HostRuntime) -> Result<(), Fail> {
    play(rt.alloc(), &rt, 3, 64, SCRUBS)
}

// The images of the sample group after the lines of a script.
fn group_after(alloc: Global, script: &str) -> Result<Vec<Vec<u8>>, Fail> {
    let lines = script.as_bytes().to_vec(alloc)?;
    let mut host = MemoryHost::new(alloc, sample_group(alloc, 3, 64)?, lines)?;
    if run_over(alloc, &words_in(alloc, "edit on A B C")?, &mut host) != Some(Status::Done) {
        return Err(Fail::from("no volume"));
    }
    let mut images = Vec::new(alloc);
    for disk in 0..host.disks() {
        images.push(host.image(disk).to_vec(alloc)?)?;
    }
    Ok(images)
}

// The RAID-5 that is scrubbed above.
const CREATE: &str = "create R cccccccc-cccc-cccc-cccc-cccccccccccc raid5 4 12 Disk1 Disk2 Disk3";

// The column of each chunk, and that of the parity of its row.
const CHUNKS: [(usize, usize); 6] = [(0, 2), (1, 2), (2, 1), (0, 1), (1, 0), (2, 0)];

// Fills each sector of a chunk with its number, and the parity beside it with this byte more.
fn fill_chunk(images: &mut [Vec<u8>], chunk: u8, column: usize, parity: usize) {
    for offset in 0..4u8 {
        let sector = chunk.saturating_mul(4).saturating_add(offset);
        let row = usize::from(chunk / 2)
            .saturating_mul(4)
            .saturating_add(usize::from(offset));
        let at = row.saturating_add(63).saturating_mul(512);
        if let Some(image) = images.get_mut(column) {
            put(image, at, &[sector; 512]);
        }
        if let Some(image) = images.get_mut(parity)
            && chunk % 2 == 0
        {
            put(image, at, &[sector ^ sector.saturating_add(4); 512]);
        }
    }
}

fn filled_group(alloc: Global) -> Result<Vec<Vec<u8>>, Fail> {
    let mut images = group_after(alloc, CREATE)?;
    let mut number = 0;
    for (column, parity) in CHUNKS {
        fill_chunk(images.as_mut_slice(), number, column, parity);
        number = number.saturating_add(1);
    }
    Ok(images)
}

// Compares the bytes that are said.
fn expect_bytes(
    alloc: Global,
    rt: &impl Abort,
    group: &[Vec<u8>],
    words: &str,
    bytes: &[u8],
) -> Result<(), Fail> {
    let images = named_images(alloc, group, words)?;
    let (status, said) = answer_of(alloc, words, images, b"")?;
    assert!(rt;
        status == Some(Status::Done) && said.as_slice() == bytes,
        "{words}"
    );
    Ok(())
}

// The bytes of 24 sectors, each filled with its number.
fn numbered(alloc: Global) -> Result<Vec<u8>, Fail> {
    let mut bytes = Vec::new(alloc);
    for sector in 0..24u8 {
        bytes.extend_from_slice(&[sector; 512])?;
    }
    Ok(bytes)
}

#[test]
fn says_the_bytes_of_a_volume(rt: HostRuntime) -> Result<(), Fail> {
    let alloc = rt.alloc();
    let group = filled_group(alloc)?;
    let bytes = numbered(alloc)?;
    for words in ["dump R on A B C", "dump R on A C", "dump R on C B"] {
        expect_bytes(alloc, &rt, &group, words, &bytes)?;
    }
    Ok(())
}

// Sections of the volume: the words, the first sector, and the one behind the last. On A alone are
// the chunks of the sectors 0 to 3 and 12 to 15.
const SECTIONS: [(&str, usize, usize); 7] = [
    ("dump R 0 24 on A B C", 0, 24),
    ("dump R 5 14 on A B C", 5, 19),
    ("dump R 5 14 on A C", 5, 19),
    ("dump R 23 1 on C B", 23, 24),
    ("dump R 0 4 on A", 0, 4),
    ("dump R 12 4 on A", 12, 16),
    ("dump R 14 1 on A", 14, 15),
];

// Sections that begin in front of a lost sector, in one, and among several.
const LOST: [(&str, &str); 4] = [
    ("dump R 3 2 on A", "refused: sector 4 is lost\n"),
    ("dump R 6 1 on A", "refused: sector 6 is lost\n"),
    ("dump R 12 12 on A", "refused: sector 16 is lost\n"),
    ("dump R 12 13 on A", "refused: bad range\n"),
];

#[test]
fn says_sections_of_a_volume(rt: HostRuntime) -> Result<(), Fail> {
    let alloc = rt.alloc();
    let group = filled_group(alloc)?;
    let bytes = numbered(alloc)?;
    for (words, first, end) in SECTIONS {
        let section = first.saturating_mul(512)..end.saturating_mul(512);
        let Some(wanted) = bytes.as_slice().get(section) else {
            return Err(Fail::from("no section"));
        };
        expect_bytes(alloc, &rt, &group, words, wanted)?;
    }
    for (words, line) in LOST {
        let images = named_images(alloc, &group, words)?;
        expect(alloc, &rt, words, images, b"", (line, Status::Refused))?;
    }
    Ok(())
}

// Fills so many sectors of an image, from this one on.
fn fill(images: &mut [Vec<u8>], image: usize, first: usize, count: usize, byte: u8) {
    if let Some(image) = images.get_mut(image) {
        for sector in 0..count {
            let at = first.saturating_add(sector).saturating_mul(512);
            put(image, at, &[byte; 512]);
        }
    }
}

fn push_run(bytes: &mut Vec<u8>, count: usize, byte: u8) -> Result<(), Fail> {
    for _ in 0..count {
        bytes.extend_from_slice(&[byte; 512])?;
    }
    Ok(())
}

// The bytes of runs of sectors: how many, and of which byte.
fn sectors(alloc: Global, runs: &[(usize, u8)]) -> Result<Vec<u8>, Fail> {
    let mut bytes = Vec::new(alloc);
    for (count, byte) in runs {
        push_run(&mut bytes, *count, *byte)?;
    }
    Ok(bytes)
}

// The copies of a mirror of 700 sectors, the first on A and the second on C, hold other bytes.
#[test]
fn says_the_first_copy_that_is_there(rt: HostRuntime) -> Result<(), Fail> {
    let alloc = rt.alloc();
    let mut group = usual_images(alloc)?;
    fill(group.as_mut_slice(), 0, 1563, 700, 1);
    fill(group.as_mut_slice(), 2, 575, 700, 2);
    let first = sectors(alloc, &[(700, 1)])?;
    let second = sectors(alloc, &[(700, 2)])?;
    expect_bytes(alloc, &rt, &group, "dump Mirror1 on A B C", &first)?;
    expect_bytes(alloc, &rt, &group, "dump Mirror1 on B A", &first)?;
    expect_bytes(alloc, &rt, &group, "dump Mirror1 on B C", &second)
}

// The first copy lies on Disk1 and then on Disk3, the second on Disk2 alone.
const PARTED: &str = "\
create M bbbbbbbb-bbbb-bbbb-bbbb-bbbbbbbbbbbb mirror 100 Disk1 Disk2
extend M Disk3=50 Disk2=50";

// Where Disk1 is absent the first copy is there again from sector 100 on.
#[test]
fn goes_back_to_the_first_copy(rt: HostRuntime) -> Result<(), Fail> {
    let alloc = rt.alloc();
    let mut group = group_after(alloc, PARTED)?;
    fill(group.as_mut_slice(), 0, 63, 100, 1);
    fill(group.as_mut_slice(), 1, 63, 150, 2);
    fill(group.as_mut_slice(), 2, 63, 50, 3);
    let all = sectors(alloc, &[(100, 1), (50, 3)])?;
    let absent = sectors(alloc, &[(100, 2), (50, 3)])?;
    expect_bytes(alloc, &rt, &group, "dump M on A B C", &all)?;
    expect_bytes(alloc, &rt, &group, "dump M on B C", &absent)?;
    let across = sectors(alloc, &[(9, 2), (7, 3)])?;
    expect_bytes(alloc, &rt, &group, "dump M 91 16 on B C", &across)
}
