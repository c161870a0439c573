//! The jobs on the images of a group, over the sample group with other bytes in its images.
use crate::jobs::{answer_of, expect, named_images, put, sample_group};
use ldm_images::usual_images;
use ldm_run::Status;
use std::alloc::Global;
use std::process::Abort;
use std::test::Fail;

// The sectors of an image with this name: what has several copies is in each of them.
fn sectors_of(name: &str) -> &'static [usize] {
    match name {
        "mbr" => &[0],
        "gpt" => &[1],
        "head" => &[6],
        "heads" => &[6, 8000, 8191],
        "second" => &[8000],
        "toc" => &[6145],
        "tocs" => &[6145, 6146, 8189, 8190],
        "copy" => &[6161],
        _ => &[],
    }
}

fn digit_of(byte: u8) -> Option<u8> {
    match byte {
        b'0'..=b'9' => Some(byte - b'0'),
        b'a'..=b'f' => Some(byte - b'a' + 10),
        _ => None,
    }
}

fn number_of(digits: &str) -> Result<usize, Fail> {
    let mut number: usize = 0;
    for byte in digits.as_bytes() {
        let Some(digit) = digit_of(*byte) else {
            return Err(Fail::from("no number"));
        };
        number = number.saturating_mul(16).saturating_add(usize::from(digit));
    }
    Ok(number)
}

fn bytes_of(alloc: Global, digits: &str) -> Result<Vec<u8>, Fail> {
    let mut bytes = Vec::new(alloc);
    for pair in digits.as_bytes().chunks(2) {
        let [high, low] = pair else {
            return Err(Fail::from("no byte"));
        };
        let (Some(high), Some(low)) = (digit_of(*high), digit_of(*low)) else {
            return Err(Fail::from("no byte"));
        };
        bytes.push(high << 4 | low)?;
    }
    Ok(bytes)
}

// Changes an image at a place SECTORS+OFFSET to these bytes, or cuts it at this sector, or makes
// this sector all zero.
fn change(image: &mut Vec<u8>, place: &str, bytes: &[u8]) -> Result<(), Fail> {
    let Some((name, offset)) = place.split_once('+') else {
        return Err(Fail::from("no place"));
    };
    let offset = number_of(offset)?;
    if name == "cut" {
        image.truncate(offset.saturating_mul(512));
    }
    if name == "zero" {
        put(image.as_mut_slice(), offset.saturating_mul(512), &[0; 512]);
    }
    for sector in sectors_of(name) {
        put(
            image.as_mut_slice(),
            offset.saturating_add(sector.saturating_mul(512)),
            bytes,
        );
    }
    Ok(())
}

// An image by its number, or each where that is a star.
fn is_named(which: &str, image: usize) -> bool {
    match which {
        "*" => true,
        "0" => image == 0,
        "1" => image == 1,
        _ => image == 2,
    }
}

// Does a change IMAGE.SECTORS+OFFSET=BYTES, IMAGE.cut+SECTOR= or IMAGE.zero+SECTOR=, or one of all
// images where IMAGE is a star.
pub(crate) fn change_images(alloc: Global, images: &mut [Vec<u8>], text: &str) -> Result<(), Fail> {
    let Some((which, rest)) = text.split_once('.') else {
        return Err(Fail::from("no image"));
    };
    let Some((place, digits)) = rest.split_once('=') else {
        return Err(Fail::from("no bytes"));
    };
    let bytes = bytes_of(alloc, digits)?;
    for (number, image) in images.iter_mut().enumerate() {
        if is_named(which, number) {
            change(image, place, &bytes)?;
        }
    }
    Ok(())
}

// The images of a group that the words name, with the changes made.
fn images_on(
    alloc: Global,
    group: &[Vec<u8>],
    words: &str,
    changes: &[&str],
) -> Result<Vec<Vec<u8>>, Fail> {
    let mut images = named_images(alloc, group, words)?;
    for part in changes {
        for text in part.split_whitespace() {
            change_images(alloc, images.as_mut_slice(), text)?;
        }
    }
    Ok(images)
}

// Compares the last line of what is said, and the status by how that line begins.
pub(crate) fn expect_last(
    alloc: Global,
    rt: &impl Abort,
    group: &[Vec<u8>],
    words: &str,
    changes: &[&str],
    line: &str,
) -> Result<(), Fail> {
    let images = images_on(alloc, group, words, changes)?;
    let (status, mut said) = answer_of(alloc, words, images, b"")?;
    let wanted = if line.starts_with("refused") || line.starts_with("1 refused") {
        Status::Refused
    } else {
        Status::Done
    };
    let end = said.pop();
    let is_last = said.as_slice().ends_with(line.as_bytes());
    assert_eq!(rt;
        (status, end, is_last),
        (Some(wanted), Some(b'\n'), true),
        "{words}: {line}"
    );
    Ok(())
}

// WORDS;CHANGES;LAST LINE: each fault of opening, and pairs of them, of which the earlier is named.
const FAULTS_OF_IMAGES: &str = "\
show on A B C;1.mbr+1fe=00;refused: image 1: no signature
show on A A C;2.mbr+1fe=00;refused: image 2: no signature
show on A A;;refused: images 0 and 1 are one disk
show on A C A;0.copy+11=02;refused: images 0 and 2 are one disk
show on A B C;1.copy+11=02;refused: image 1: VMDB not settled
show on A B C;0.copy+0=00 1.copy+11=02 2.copy+0=00;refused: image 1: VMDB not settled
show on A B C;*.copy+0=00;refused: no open copy
show on A B C;1.copy+29f=58;refused: images 0 and 1 differ at one sequence
show on A B C;2.copy+7=3f;refused: images 0 and 2 differ at one sequence
show on A B C;1.copy+29f=58 0.copy+7c=06;refused: images 1 and 2 differ at one sequence
show on A B C;1.copy+29f=58 2.heads+30=39;refused: images 0 and 1 differ at one sequence";

const FAULTS_OF_GROUPS: &str = "\
show on A B C;2.heads+30=39;refused: image 2 is not of the group
show on A B C;2.heads+30=39 *.copy+20f=00;refused: image 2 is not of the group
show on A B C;*.copy+20f=00;refused: rule 1 at 0
check on A B;*.copy+20f=00;refused: rule 1 at 0";

const REASONS: &str = "\
check on A B;;ok: not editable: disk 4 is absent
check on A;;ok: not editable: disk 3 is absent
check on A B;1.copy+0=00 1.tocs+3c=000f;ok: not editable: disk 4 is absent
check on A B C;1.copy+0=00 1.tocs+3c=000f;ok: not editable: image 1: area too small
check on A B C;2.copy+0=00 2.tocs+3c=000f 1.tocs+35=02;ok: not editable: image 2: area too small
check on A B C;1.tocs+56=05d9;ok: not editable: image 1: area clash
check on A B C;1.copy+0=00 2.tocs+56=05d9;ok: not editable: image 2: area clash
check on A B C;1.copy+0=00;ok: editable";

// Each row of a text is such words, changes and a line.
pub(crate) fn expect_rows(
    alloc: Global,
    rt: &impl Abort,
    group: &[Vec<u8>],
    rows: &str,
) -> Result<(), Fail> {
    for row in rows.lines() {
        let mut parts = row.split(';');
        let (Some(words), Some(changes), Some(line)) = (parts.next(), parts.next(), parts.next())
        else {
            return Err(Fail::from("no row"));
        };
        expect_last(alloc, rt, group, words, &[changes], line)?;
    }
    Ok(())
}

#[test]
fn names_the_first_fault_of_the_images(rt: HostRuntime) -> Result<(), Fail> {
    expect_rows(
        rt.alloc(),
        &rt,
        &sample_group(rt.alloc(), 3, 64)?,
        FAULTS_OF_IMAGES,
    )
}

#[test]
fn names_the_first_fault_of_the_group(rt: HostRuntime) -> Result<(), Fail> {
    expect_rows(
        rt.alloc(),
        &rt,
        &sample_group(rt.alloc(), 3, 64)?,
        FAULTS_OF_GROUPS,
    )
}

#[test]
fn names_the_first_reason_against_editing(rt: HostRuntime) -> Result<(), Fail> {
    expect_rows(rt.alloc(), &rt, &sample_group(rt.alloc(), 3, 64)?, REASONS)?;
    expect_rows(
        rt.alloc(),
        &rt,
        &sample_group(rt.alloc(), 1, 64)?,
        REASONS_OF_ONE,
    )
}

// Of a group of one disk.
const REASONS_OF_ONE: &str = "\
check on A;;ok: not editable: fewer than two disks
check on A;0.tocs+56=05d9;ok: not editable: fewer than two disks";

const SHOW: &str = "\
group Dg0 aaaaaaaa-aaaa-aaaa-aaaa-aaaaaaaaaaaa sequence 7 blocks 4 of 60
disk 2 Disk1 11111111-1111-1111-1111-111111111111 image 0 free 6081
disk 3 Disk2 22222222-2222-2222-2222-222222222222 image 1 free 6081
disk 4 Disk3 33333333-3333-3333-3333-333333333333 image 2 free 6081
";

const SHOW_OF_TWO: &str = "\
group Dg0 aaaaaaaa-aaaa-aaaa-aaaa-aaaaaaaaaaaa sequence 7 blocks 4 of 60
disk 2 Disk1 11111111-1111-1111-1111-111111111111 image 1 free 6081
disk 3 Disk2 22222222-2222-2222-2222-222222222222 missing
disk 4 Disk3 33333333-3333-3333-3333-333333333333 image 0 free 6081
";

// Compares all that is said of a job that is done.
pub(crate) fn expect_all(
    alloc: Global,
    rt: &impl Abort,
    group: &[Vec<u8>],
    (words, change, text): (&str, &str, &str),
) -> Result<(), Fail> {
    let images = images_on(alloc, group, words, &[change])?;
    expect(alloc, rt, words, images, b"", (text, Status::Done))
}

// Words, a change, and all that is said.
const ANSWERS: [(&str, &str, &str); 5] = [
    ("show on A B C", "", SHOW),
    ("show on A B C", "1.copy+0=00", SHOW),
    ("show on C A", "", SHOW_OF_TWO),
    (
        "check on A B",
        "1.copy+0=00",
        "image 0 sequence 7\nimage 1 closed\nok: not editable: disk 4 is absent\n",
    ),
    (
        "check on A",
        "",
        "image 0 sequence 7\nok: not editable: disk 3 is absent\n",
    ),
];

#[test]
fn shows_and_checks_the_group(rt: HostRuntime) -> Result<(), Fail> {
    let group = sample_group(rt.alloc(), 3, 64)?;
    for answer in ANSWERS {
        expect_all(rt.alloc(), &rt, &group, answer)?;
    }
    Ok(())
}

// The blocks 8 to 10: a volume of 200 sectors, its component with two partitions, and the first of
// them, on disk 2 from sector 0 on.
const VOLUME: &str = "\
*.copy+400=56424c4b0000000800000008000000010000005100000047010501560367656e00414354495645000000000000000003
*.copy+430=00000000000001010000000000000000000000000000000001c80000000007bbbbbbbbbbbbbbbbbbbbbbbbbbbbbbbb
*.copy+480=56424c4b0000000900000009000000010000003200000026010602633606414354495645020000000001020000000000
*.copy+4b0=0000000000000000000000010500
*.copy+500=56424c4b0000000a0000000a000000010000003300000028010a03703130000000000000000000000000000000000000
*.copy+530=00000000000000000000016401060102";

// Block 11: the second, 99+101 at offset 100.
const SECOND: &str = "\
*.copy+580=56424c4b0000000b0000000b000000010000003300000028010d03703133000000000000000000000000000000000000
*.copy+5b0=00630000000000000064016501060102";

const MEETING: [&str; 2] = [VOLUME, SECOND];

const APART: [&str; 3] = [VOLUME, SECOND, "*.copy+5b1=64 *.copy+5bb=64"];

#[test]
fn refuses_partitions_that_meet(rt: HostRuntime) -> Result<(), Fail> {
    let alloc = rt.alloc();
    let group = sample_group(alloc, 3, 64)?;
    let refused = "refused: rule 11 at 10";
    expect_last(alloc, &rt, &group, "show on A B C", &MEETING, refused)?;
    let shown = "    partition 13 p13 disk 2 start 100 size 100 offset 100";
    expect_last(alloc, &rt, &group, "show on A B C", &APART, shown)
}

// The blocks 8 to 10: a volume of 2^64 - 1 sectors on disk 4.
const GREATEST: &str = "\
*.copy+400=56424c4b000000080000000800000001000000510000004e010501560367656e00414354495645000000000000000003
*.copy+430=00000000000001010000000000000000000000000000000008ffffffffffffffff0000000007bbbbbbbbbbbbbbbbbbbb
*.copy+460=bbbbbbbbbbbb
*.copy+480=56424c4b0000000900000009000000010000003200000026010602633606414354495645020000000001010000000000
*.copy+4b0=0000000000000000000000010500
*.copy+500=56424c4b0000000a0000000a00000001000000330000002e010702703700000000000000000000000000000000000000
*.copy+530=00000000000000000008ffffffffffffffff01060104";

// Words and the last line.
const GREATEST_PLACES: [(&str, &str); 2] = [
    (
        "map V 18446744073709551614 1 on A B",
        "18446744073709551614 copy 0 Disk3 18446744073709551614 missing",
    ),
    ("map V 18446744073709551614 2 on A B", "refused: bad range"),
];

#[test]
fn maps_the_greatest_sector_of_an_absent_disk(rt: HostRuntime) -> Result<(), Fail> {
    let group = sample_group(rt.alloc(), 3, 64)?;
    for (words, line) in GREATEST_PLACES {
        expect_last(rt.alloc(), &rt, &group, words, &[GREATEST], line)?;
    }
    Ok(())
}

const USUAL: &str = "\
group Dg0 aaaaaaaa-aaaa-aaaa-aaaa-aaaaaaaaaaaa sequence 7 blocks 20 of 5920
disk 1025 Disk1 11111111-1111-1111-1111-111111111111 image 0 free 3881
disk 1026 Disk2 22222222-2222-2222-2222-222222222222 image 1 free 4569
disk 1027 Disk3 33333333-3333-3333-3333-333333333333 image 2 free 4869
volume 1028 Volume1 span 1000 55555555-5555-5555-5555-555555555555
  component 1029 Volume1-01 basic
    partition 1030 Disk1-01 disk 1025 start 0 size 1000 offset 0
volume 1031 Volume2 span 1500 66666666-6666-6666-6666-666666666666
  component 1032 Volume2-01 basic
    partition 1033 Disk1-02 disk 1025 start 1000 size 500 offset 0
    partition 1034 Disk2-01 disk 1026 start 0 size 1000 offset 500
volume 1035 Stripe1 stripe 1024 77777777-7777-7777-7777-777777777777
  component 1036 Stripe1-01 stripe 128 2
    partition 1037 Disk2-02 disk 1026 start 1000 size 512 offset 0 index 0
    partition 1038 Disk3-01 disk 1027 start 0 size 512 offset 0 index 1
volume 1039 Mirror1 mirror 700 88888888-8888-8888-8888-888888888888
  component 1040 Mirror1-01 basic
    partition 1041 Disk1-03 disk 1025 start 1500 size 700 offset 0
  component 1042 Mirror1-02 basic
    partition 1043 Disk3-02 disk 1027 start 512 size 700 offset 0
";

const PLACES: &str = "\
map Stripe1 200 1 on A B C;;200 copy 0 Disk3 72 at 135
map Stripe1 300 1 on A B C;;300 copy 0 Disk2 1172 at 1235
map Mirror1 699 1 on A B C;;699 copy 1 Disk3 1211 at 1274
map Mirror1 699 2 on A B C;;refused: bad range
map Mirror1 0 0 on A B C;;refused: bad range
map Nope 0 1 on A B C;;refused: no volume
map Volume1 0 1 on A B;;0 copy 0 Disk1 0 at 63
map Stripe1 200 1 on A B;;200 copy 0 Disk3 72 missing";

const MIRROR: &str = "699 copy 0 Disk1 2199 at 2262\n699 copy 1 Disk3 1211 at 1274\n";

#[test]
fn shows_and_maps_a_usual_group(rt: HostRuntime) -> Result<(), Fail> {
    let alloc = rt.alloc();
    let group = usual_images(alloc)?;
    expect_all(alloc, &rt, &group, ("show on A B C", "", USUAL))?;
    expect_all(
        alloc,
        &rt,
        &group,
        ("map Mirror1 699 1 on A B C", "", MIRROR),
    )?;
    expect_rows(alloc, &rt, &group, PLACES)
}
