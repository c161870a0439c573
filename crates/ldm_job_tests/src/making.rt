//! A new group on empty disks: its images, what disks are refused, and what a stop leaves.
use crate::jobs::{answer_of, expect, put, run_over, sample_group, words_in};
use ldm_host::Host;
use ldm_memory::{Filling, MemoryHost};
use ldm_run::Status;
use std::alloc::Global;
use std::process::Abort;
use std::test::Fail;

const INIT: &str =
    "init Dg0 aaaaaaaa-aaaa-aaaa-aaaa-aaaaaaaaaaaa 11111111-1111-1111-1111-111111111111 22222222-2222-2222-2222-222222222222 33333333-3333-3333-3333-333333333333 on A B C";

// Two disks of one GUID.
const SAME: &str =
    "init Dg0 aaaaaaaa-aaaa-aaaa-aaaa-aaaaaaaaaaaa 11111111-1111-1111-1111-111111111111 22222222-2222-2222-2222-222222222222 11111111-1111-1111-1111-111111111111 on A B C";

// Two GUIDs for three images.
const FEW: &str =
    "init Dg0 aaaaaaaa-aaaa-aaaa-aaaa-aaaaaaaaaaaa 11111111-1111-1111-1111-111111111111 22222222-2222-2222-2222-222222222222 on A B C";

const SHOWN: &str = "\
group Dg0 aaaaaaaa-aaaa-aaaa-aaaa-aaaaaaaaaaaa sequence 1 blocks 4 of 5920
disk 2 Disk1 11111111-1111-1111-1111-111111111111 image 0 free 6081
disk 3 Disk2 22222222-2222-2222-2222-222222222222 image 1 free 6081
disk 4 Disk3 33333333-3333-3333-3333-333333333333 image 2 free 6081
";

// Three images of zeros, of which the first has so many sectors and the others 8192.
fn zeros(alloc: Global, sectors: usize) -> Result<Vec<Vec<u8>>, Fail> {
    let mut images = Vec::new(alloc);
    images.push(vec![in alloc; 0u8; sectors.saturating_mul(512)]?)?;
    images.push(vec![in alloc; 0u8; 8192 * 512]?)?;
    images.push(vec![in alloc; 0u8; 8192 * 512]?)?;
    Ok(images)
}

// The images of the sample group, with sequence 1 in both places of the header.
fn new_images(alloc: Global) -> Result<Vec<Vec<u8>>, Fail> {
    let mut images = sample_group(alloc, 3, 5924)?;
    for image in &mut images {
        put(image, 512 * 6161 + 0x75, b"\0\0\0\0\0\0\0\x01");
        put(image, 512 * 6161 + 0x7D, b"\0\0\0\0\0\0\0\x01");
    }
    Ok(images)
}

#[test]
fn makes_the_images_of_a_new_group(rt: HostRuntime) -> Result<(), Fail> {
    let alloc = rt.alloc();
    let mut host = MemoryHost::new(alloc, zeros(alloc, 8192)?, Vec::new(alloc))?;
    let status = run_over(alloc, &words_in(alloc, INIT)?, &mut host);
    assert_eq!(&rt;
        (status, host.said()),
        (Some(Status::Done), b"ok 1\n".as_slice())
    );
    let images = host.left(alloc, Filling::Fill(0xAA))?;
    assert!(&rt; images == new_images(alloc)?, "other images");
    expect(
        alloc,
        &rt,
        "show on A B C",
        images,
        b"",
        (SHOWN, Status::Done),
    )
}

// Three images of 8192 sectors of zeros, but for byte 0 of sector 62 of the second.
fn one_filled(alloc: Global) -> Result<Vec<Vec<u8>>, Fail> {
    let mut images = zeros(alloc, 8192)?;
    if let Some(image) = images.get_mut(1) {
        put(image, 512 * 62, b"\x01");
    }
    Ok(images)
}

// Compares how a run ends, and what is said. No image is handed a byte, nor is changed.
fn makes_nothing(
    alloc: Global,
    rt: &impl Abort,
    words: &str,
    images: Vec<Vec<u8>>,
    (text, status): (&str, Status),
) -> Result<(), Fail> {
    let before = images.clone()?;
    let mut host = MemoryHost::new(alloc, images, Vec::new(alloc))?;
    let ended = run_over(alloc, &words_in(alloc, words)?, &mut host);
    assert_eq!(rt;
        (ended, host.said()),
        (Some(status), text.as_bytes()),
        "{text}"
    );
    for disk in 0..host.disks() {
        assert_eq!(rt; host.handed(disk), 0, "{text}");
    }
    assert!(rt; host.left(alloc, Filling::New)? == before, "{text}");
    Ok(())
}

#[test]
fn refuses_disks_that_are_not_empty_or_too_small(rt: HostRuntime) -> Result<(), Fail> {
    let alloc = rt.alloc();
    let filled = ("refused: image 1: not empty\n", Status::Refused);
    makes_nothing(alloc, &rt, INIT, one_filled(alloc)?, filled)?;
    let small = ("refused: image 0: too small\n", Status::Refused);
    makes_nothing(alloc, &rt, INIT, zeros(alloc, 2111)?, small)
}

#[test]
fn refuses_guids_that_are_one_or_too_few(rt: HostRuntime) -> Result<(), Fail> {
    let alloc = rt.alloc();
    let same = ("refused: GUIDs 0 and 2 are one\n", Status::Refused);
    makes_nothing(alloc, &rt, SAME, zeros(alloc, 8192)?, same)?;
    makes_nothing(alloc, &rt, FEW, zeros(alloc, 8192)?, ("", Status::Usage))
}

// Puts the last byte of the signature into each image, if one has it. Then all else is there on all
// of them.
fn sign_all(images: &mut [Vec<u8>]) -> bool {
    if !images.iter().any(|image| image.get(0x1FF) == Some(&0xAA)) {
        return false;
    }
    for image in images {
        put(image, 0x1FF, b"\xAA");
    }
    true
}

// Looks at what is left of a new group that is stopped after so many calls: no image has a
// signature, or the group is found. Answers whether it was made whole.
fn stops(alloc: Global, rt: &impl Abort, calls: u64, filling: Filling) -> Result<bool, Fail> {
    let mut host = MemoryHost::new(alloc, zeros(alloc, 8192)?, Vec::new(alloc))?.stop_after(calls);
    let status = run_over(alloc, &words_in(alloc, INIT)?, &mut host);
    let left = host.left(alloc, filling)?;
    let (ended, said) = answer_of(alloc, "show on A B C", left, b"")?;
    let is_new = ended == Some(Status::Done) && said.as_slice() == SHOWN.as_bytes();
    let lacks = ended == Some(Status::Refused)
        && said.starts_with(b"refused: image ")
        && said.ends_with(b": no signature\n");
    assert!(rt; is_new || lacks, "{calls}");
    let whole = host.said() == b"ok 1\n".as_slice();
    assert!(rt; is_new || !whole, "{calls}");
    let mut signed = host.left(alloc, filling)?;
    if sign_all(&mut signed) {
        let (ended, said) = answer_of(alloc, "show on A B C", signed, b"")?;
        assert_eq!(rt;
            (ended, said.as_slice()),
            (Some(Status::Done), SHOWN.as_bytes()),
            "{calls}"
        );
    }
    Ok(status == Some(Status::Done))
}

// Stops the making after each of its calls.
fn stops_each(alloc: Global, rt: &impl Abort, filling: Filling) -> Result<(), Fail> {
    for calls in 0..100 {
        if stops(alloc, rt, calls, filling)? {
            return Ok(());
        }
    }
    Err(Fail::from("no group was made"))
}

#[test]
fn leaves_no_signature_or_the_group_where_old_bytes_are_left(rt: HostRuntime) -> Result<(), Fail> {
    stops_each(rt.alloc(), &rt, Filling::Old)
}

#[test]
fn leaves_no_signature_or_the_group_where_new_bytes_are_left(rt: HostRuntime) -> Result<(), Fail> {
    stops_each(rt.alloc(), &rt, Filling::New)
}

#[test]
fn leaves_no_signature_or_the_group_where_signatures_are_left(rt: HostRuntime) -> Result<(), Fail> {
    stops_each(rt.alloc(), &rt, Filling::Fill(0xAA))
}
