//! The job `disk`: the label of an image, or its first fault.
use crate::jobs::{Case, expect, expect_cases, expect_fault, image_with, run_over, words_in};
use ldm_host::Host;
use ldm_memory::MemoryHost;
use ldm_run::Status;
use std::alloc::Global;
use std::process::Abort;
use std::test::Fail;

// A sector of zeros.
const ZEROS: &[u8] = &[0; 512];

const LABEL: &str =
    "disk 11111111-1111-1111-1111-111111111111 version 2.11 data 63+6081 database 6144+2048\narea 17+1481 log 1498+224\n";

const LABELS: [Case; 9] = [
    (&[], LABEL, Status::Done),
    (&[(0x1C2, b"\x00"), (0x1F2, b"\x42")], LABEL, Status::Done),
    (
        &[(0x1FE, b"\x00")],
        "refused: image 0: no signature\n",
        Status::Refused,
    ),
    (
        &[(0x1C2, b"\x07")],
        "refused: image 0: no 0x42 entry\n",
        Status::Refused,
    ),
    (&[(512 * 8191, ZEROS)], LABEL, Status::Done),
    (
        &[(512 * 8000 + 0x30, b"99999999-9999-9999-9999-999999999999")],
        "refused: image 0: PRIVHEAD 2 differs\n",
        Status::Refused,
    ),
    (
        &[
            (512 * 6145, ZEROS),
            (512 * 6146, ZEROS),
            (512 * 8189, ZEROS),
        ],
        LABEL,
        Status::Done,
    ),
    (
        &[
            (512 * 6145, ZEROS),
            (512 * 6146, ZEROS),
            (512 * 8189, ZEROS),
            (512 * 8190, ZEROS),
        ],
        "refused: image 0: no TOCBLOCK\n",
        Status::Refused,
    ),
    (
        &[(512 * 6 + 0x0F, b"\x0c")],
        "refused: image 0: PRIVHEAD 2 differs\n",
        Status::Refused,
    ),
];

#[test]
fn says_the_label_or_its_fault(rt: HostRuntime) -> Result<(), Fail> {
    expect_cases(rt.alloc(), &rt, "disk on A", 1, &LABELS)
}

// The size of an image of zeros, and its refusal.
const NO_DISKS: [(usize, &str); 3] = [
    (8192 * 512, "refused: image 0: no signature\n"),
    (3071, "refused: image 0: too short\n"),
    (0, "refused: image 0: too short\n"),
];

fn refuse_zeros(alloc: Global, rt: &impl Abort, size: usize, text: &str) -> Result<(), Fail> {
    let mut images = Vec::new(alloc);
    images.push(vec![in alloc; 0u8; size]?)?;
    let mut host = MemoryHost::new(alloc, images, Vec::new(alloc))?;
    let status = run_over(alloc, &words_in(alloc, "disk on A")?, &mut host);
    assert_eq!(rt;
        (status, host.said()),
        (Some(Status::Refused), text.as_bytes()),
        "{size}"
    );
    assert_eq!(rt; host.disks(), 1);
    assert_eq!(rt; host.handed(0), 0, "{size}");
    Ok(())
}

#[test]
fn refuses_what_is_no_disk(rt: HostRuntime) -> Result<(), Fail> {
    for (size, text) in NO_DISKS {
        refuse_zeros(rt.alloc(), &rt, size, text)?;
    }
    Ok(())
}

#[test]
fn says_nothing_without_a_reading_or_at_a_fault(rt: HostRuntime) -> Result<(), Fail> {
    let alloc = rt.alloc();
    for words in ["frob on A", "map Data 0 on A", "show on"] {
        let images = image_with(alloc, 1, &[])?;
        expect(alloc, &rt, words, images, b"", ("", Status::Usage))?;
    }
    let images = image_with(alloc, 1, &[])?;
    expect_fault(alloc, &rt, "disk on A", images, Status::DiskFault)
}
