//! Volumes that are said off disks of which some sectors can't be read, or which are absent.
ghost use Rattle.std.specs.Prelude.{◌<◌, IfOk};
ghost use Rattle.ldm_memory.specs.Memory.{memory_seen};
ghost use Rattle.ldm_found.specs.Facts.{IsSoundGroup, LieOn};

use crate::made::put_at;
use crate::steps::put_records;
use ldm_dump::volumes_lie_on_images;
use ldm_found::{Found, find_group};
use ldm_host::{DiskRange, Host};
use ldm_images::usual_images;
use ldm_memory::MemoryHost;
use ldm_rescue::{Cause, Loss, Losses, rescue_sectors};
use ldm_rules::sound_plan;
use ldm_vectors::sample_images;
use std::alloc::Global;
use std::test::Fail;

// The ranges that are told.
#[derive(Drop)]
pub(crate) struct Told {
    pub(crate) ranges: Vec<Loss>,
}

impl Losses<MemoryHost> for Told {
    ghost use Rattle.std.specs.Prelude.{[]};

    ghost tells = { ⊥ };

    ghost lost = { λ told. [] };

    fn begin(&mut self, _host: &MemoryHost, _cause: Cause) {}

    fn lose(&mut self, loss: Loss) {
        let _ = self.ranges.push(loss);
    }
}

// Sectors of an image: the image, the first and how many.
pub(crate) type Sectors = (usize, u64, usize);

// A host of these images, of which these sectors can't be read.
pub(crate) fn host_of(
    alloc: Global,
    images: Vec<Vec<u8>>,
    bad: &[Sectors],
) -> Result<MemoryHost, Fail> {
    let mut ranges = Vec::new(alloc);
    for (disk, first, count) in bad {
        ranges.push(DiskRange {
            disk: *disk,
            at: first.saturating_mul(512),
            length: count.saturating_mul(512),
        })?;
    }
    Ok(MemoryHost::new(alloc, images, Vec::new(alloc))?.with_bad(ranges))
}

// The group that the disks hold.
fn group_on(alloc: Global, host: &mut MemoryHost) -> Result<Found, Fail>
    ensures sound { IfOk result (λ found. IsSoundGroup found) }
    ensures lies { IfOk result (λ found. LieOn found.labels (memory_seen host.new).sizes) }
{
    if host.disks() == 0 {
        return Err(Fail::from("no disk"));
    }
    match find_group(alloc, host) {
        Ok(found) => Ok(found),
        Err(_) => Err(Fail::from("no group")),
    }
}

// Says the volume of this name, eight sectors at a time, and answers the ranges that are lost.
fn rescue(
    alloc: Global,
    host: &mut MemoryHost,
    found: &Found,
    name: &[u8],
) -> Result<Vec<Loss>, Fail>
    requires sound { IsSoundGroup found.now }
    requires lies { LieOn found.now.labels (memory_seen host.old).sizes }
{
    let Some(volume) = found.db.volume_named(name) else {
        return Err(Fail::from("no volume"));
    };
    let Ok(plan) = sound_plan(alloc, &found.db, &found.labels, volume) else {
        return Err(Fail::from("no plan"));
    };
    volumes_lie_on_images();
    let mut told = Told {
        ranges: Vec::new(alloc),
    };
    let mut buffer = [0u8; 4096];
    let mut scratch = [0u8; 4096];
    let size = plan.size();
    match rescue_sectors(
        host,
        &mut told,
        found,
        &plan,
        0,
        size,
        &mut buffer,
        &mut scratch,
    ) {
        Ok(_) => {
            let Told { ranges } = told;
            Ok(ranges)
        }
        Err(_) => Err(Fail::from("nothing can be said")),
    }
}

// Fills a sector of an image with this byte.
pub(crate) fn fill(images: &mut [Vec<u8>], image: usize, sector: usize, byte: u8) {
    if let Some(image) = images.get_mut(image) {
        put_at(image, sector.saturating_mul(512), &[byte; 512]);
    }
}

// Whether a sector of what was said has this byte alone.
pub(crate) fn was_said(host: &MemoryHost, sector: usize, byte: u8) -> bool {
    let from = sector.saturating_mul(512);
    match host.said().get(from..from.saturating_add(512)) {
        Some(bytes) => bytes == [byte; 512].as_slice(),
        None => false,
    }
}

// Sectors 5 and 9 of both copies hold bytes of their own.
pub(crate) fn mirror_images(alloc: Global) -> Result<Vec<Vec<u8>>, Fail> {
    let mut images = usual_images(alloc)?;
    for (image, first) in [(0, 1563usize), (2, 575)] {
        fill(images.as_mut_slice(), image, first + 5, 7);
        fill(images.as_mut_slice(), image, first + 9, 8);
    }
    Ok(images)
}

#[test]
fn takes_what_one_copy_lacks_from_the_other(rt: HostRuntime) -> Result<(), Fail> {
    let alloc = rt.alloc();
    let images = mirror_images(alloc)?;
    let mut host = host_of(alloc, images, &[(0, 1568, 1), (2, 584, 1)])?;
    let found = group_on(alloc, &mut host)?;
    let ranges = rescue(alloc, &mut host, &found, b"Mirror1")?;
    assert_eq!(rt; ranges.len(), 0);
    assert_eq!(rt; host.said().len(), 700 * 512);
    assert!(rt; was_said(&host, 5, 7));
    assert!(rt; was_said(&host, 9, 8));
    Ok(())
}

#[test]
fn tells_a_sector_that_no_copy_gives(rt: HostRuntime) -> Result<(), Fail> {
    let alloc = rt.alloc();
    let images = mirror_images(alloc)?;
    let mut host = host_of(alloc, images, &[(0, 1568, 1), (2, 580, 1)])?;
    let found = group_on(alloc, &mut host)?;
    let ranges = rescue(alloc, &mut host, &found, b"Mirror1")?;
    let lost = Loss {
        first: 5,
        count: 1,
        cause: Cause::Unread(2),
    };
    assert!(rt; ranges.as_slice() == [lost].as_slice());
    assert_eq!(rt; host.said().len(), 700 * 512);
    assert!(rt; was_said(&host, 5, 0));
    assert!(rt; was_said(&host, 9, 8));
    Ok(())
}

#[test]
fn says_zeros_for_the_disk_of_a_span_that_is_absent(rt: HostRuntime) -> Result<(), Fail> {
    let alloc = rt.alloc();
    let mut images = usual_images(alloc)?;
    fill(images.as_mut_slice(), 0, 63 + 1499, 3);
    if images.len() > 1 {
        let _absent = images.remove(1);
    }
    let mut host = host_of(alloc, images, &[])?;
    let found = group_on(alloc, &mut host)?;
    let ranges = rescue(alloc, &mut host, &found, b"Volume2")?;
    let lost = Loss {
        first: 500,
        count: 1000,
        cause: Cause::Absent(1026),
    };
    assert!(rt; ranges.as_slice() == [lost].as_slice());
    assert_eq!(rt; host.said().len(), 1500 * 512);
    assert!(rt; was_said(&host, 499, 3));
    assert!(rt; was_said(&host, 500, 0));
    Ok(())
}

// Three columns of 12 sectors on the three disks, in chunks of 4, named R.
const RAID5: &str =
    "3.5.82.1.24 4.6.99.3.5.3.4.3 5.7.112.0.12.6.2.0.1 5.8.112.0.12.6.3.0.2 5.9.112.0.12.6.4.0.3";

// The ranges of R that are lost where these sectors can't be read.
fn columns_without(alloc: Global, bad: &[Sectors]) -> Result<Vec<Loss>, Fail> {
    let mut images = sample_images(alloc, 3, 64)?;
    for image in &mut images {
        put_records(image, RAID5);
    }
    let mut host = host_of(alloc, images, bad)?;
    let found = group_on(alloc, &mut host)?;
    rescue(alloc, &mut host, &found, b"R")
}

#[test]
fn makes_a_sector_of_the_other_columns(rt: HostRuntime) -> Result<(), Fail> {
    let alloc = rt.alloc();
    let apart = columns_without(alloc, &[(0, 63, 1), (1, 64, 1)])?;
    assert_eq!(rt; apart.len(), 0);
    let lost = [
        Loss {
            first: 0,
            count: 1,
            cause: Cause::Unread(1),
        },
        Loss {
            first: 4,
            count: 1,
            cause: Cause::Unread(0),
        },
    ];
    let in_one_row = columns_without(alloc, &[(0, 63, 1), (1, 63, 1)])?;
    assert!(rt; in_one_row.as_slice() == lost.as_slice());
    Ok(())
}
