//! What is said of images of which some don't open or can't be read.
ghost use Rattle.std.specs.Prelude.{◌≡◌, IsTrue};
ghost use Rattle.ldm_scan.specs.Findings.{opened_count};

use crate::jobs::{place_of, sample_group, words_in};
use ldm_bytes::Bytes;
use ldm_host::{DiskRange, Host};
use ldm_memory::MemoryHost;
use ldm_run::Status;
use ldm_scan::run_scan;
use ldm_words::{Format, Paths};
use std::alloc::Global;
use std::process::Abort;
use std::test::Fail;

// Whether just so many images opened.
fn are_disks(causes: &[Option<Bytes>], disks: usize) -> bool
    ensures { IsTrue result → opened_count causes.now ≡ disks }
{
    let mut left = disks;
    for cause in causes {
        if cause.is_none() {
            if left == 0 {
                return false;
            }
            left -= 1;
        }
    }
    left == 0
}

// Scans where just the images that opened are disks of the host.
fn scan_over<H: Host>(
    alloc: Global,
    format: &Format,
    causes: &[Option<Bytes>],
    host: H,
) -> (H, Option<Status>) {
    if !are_disks(causes, host.disks()) {
        return (host, None);
    }
    let (host, status) = run_scan(alloc, format, causes, host);
    (host, Some(status))
}

// A cause for each image that is `gone`, and none for the others.
fn causes_of(alloc: Global, words: &[String]) -> Result<Vec<Option<Bytes>>, Fail> {
    let mut causes = Vec::new(alloc);
    for word in words {
        causes.push(if word.as_str() == "gone" {
            Some(Bytes::from_slice(alloc, b"no such luck")?)
        } else {
            None
        })?;
    }
    Ok(causes)
}

// These sectors, each of a disk.
fn ranges_of(alloc: Global, sectors: &[(usize, u64)]) -> Result<Vec<DiskRange>, Fail> {
    let mut ranges = Vec::new(alloc);
    for (disk, sector) in sectors {
        ranges.push(DiskRange {
            disk: *disk,
            at: sector.wrapping_mul(512),
            length: 512,
        })?;
    }
    Ok(ranges)
}

// The images of a group that the words name by their letters, but for those that are `gone`.
fn images_of(alloc: Global, group: &[Vec<u8>], words: &[String]) -> Result<Vec<Vec<u8>>, Fail> {
    let mut images = Vec::new(alloc);
    for word in words {
        if word.as_str() != "gone"
            && let Some(image) = group.get(place_of(word.as_str()))
        {
            images.push(image.as_slice().to_vec(alloc)?)?;
        }
    }
    Ok(images)
}

// Compares what is said of images of which these sectors of disks can't be read.
fn expect_scan(
    alloc: Global,
    rt: &impl Abort,
    format: &Format,
    (names, bad, text): (&str, &[(usize, u64)], &str),
) -> Result<(), Fail> {
    let group = sample_group(alloc, 3, 64)?;
    let words = words_in(alloc, names)?;
    let images = images_of(alloc, &group, &words)?;
    let host = MemoryHost::new(alloc, images, Vec::new(alloc))?;
    let host = host.with_bad(ranges_of(alloc, bad)?);
    let causes = causes_of(alloc, &words)?;
    let (host, status) = scan_over(alloc, format, &causes, host);
    assert_eq!(rt;
        (status, host.said()),
        (Some(Status::Done), text.as_bytes()),
        "{names}"
    );
    Ok(())
}

const ONE_GONE: &str = "\
image 0 group Dg0 aaaaaaaa-aaaa-aaaa-aaaa-aaaaaaaaaaaa disk Disk1 11111111-1111-1111-1111-111111111111 sequence 7
image 1 cannot open: no such luck
image 2 group Dg0 aaaaaaaa-aaaa-aaaa-aaaa-aaaaaaaaaaaa disk Disk3 33333333-3333-3333-3333-333333333333 sequence 7
";

const ONE_UNREAD: &str = "\
image 0 cannot open: no such luck
image 1 cannot read
image 2 group Dg0 aaaaaaaa-aaaa-aaaa-aaaa-aaaaaaaaaaaa disk Disk3 33333333-3333-3333-3333-333333333333 sequence 7
";

const ALL_UNREAD: &str = "image 0 cannot read\nimage 1 cannot read\n";

// A sector of the data area, which a scan doesn't read.
const READ: &str = "\
image 0 group Dg0 aaaaaaaa-aaaa-aaaa-aaaa-aaaaaaaaaaaa disk Disk1 11111111-1111-1111-1111-111111111111 sequence 7
";

// The images, sectors of the disks that can't be read, and what is said.
const ROWS: [(&str, &[(usize, u64)], &str); 5] = [
    ("A gone C", &[], ONE_GONE),
    ("gone A C", &[(0, 6)], ONE_UNREAD),
    ("A C", &[(0, 6161), (1, 0)], ALL_UNREAD),
    ("A", &[(0, 3000)], READ),
    ("gone", &[], "image 0 cannot open: no such luck\n"),
];

#[test]
fn goes_on_past_images(rt: HostRuntime) -> Result<(), Fail> {
    for row in ROWS {
        expect_scan(rt.alloc(), &rt, &Format::Lines, row)?;
    }
    Ok(())
}

const JSON: &str =
    "[{\"image\":0,\"path\":\"gone\",\"state\":\"unopened\",\"group\":null,\"group_guid\":null,\"disk\":null,\"disk_guid\":null,\"sequence\":null,\"reason\":\"no such luck\",\"format\":null,\"partition_style\":null},{\"image\":1,\"path\":\"A\",\"state\":\"unread\",\"group\":null,\"group_guid\":null,\"disk\":null,\"disk_guid\":null,\"sequence\":null,\"reason\":\"a read failed\",\"format\":null,\"partition_style\":null},{\"image\":2,\"path\":\"C\",\"state\":\"open\",\"group\":\"Dg0\",\"group_guid\":\"aaaaaaaa-aaaa-aaaa-aaaa-aaaaaaaaaaaa\",\"disk\":\"Disk3\",\"disk_guid\":\"33333333-3333-3333-3333-333333333333\",\"sequence\":7,\"reason\":null,\"format\":null,\"partition_style\":\"mbr\"}]
";

#[test]
fn goes_on_past_images_in_json(rt: HostRuntime) -> Result<(), Fail> {
    let paths = Paths::of(rt.alloc(), &words_in(rt.alloc(), "gone A C")?)?;
    expect_scan(
        rt.alloc(),
        &rt,
        &Format::Json(paths),
        ("gone A C", &[(0, 6)], JSON),
    )
}
