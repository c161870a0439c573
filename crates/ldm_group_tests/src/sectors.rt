//! A sector of a volume that is read, and a place that is compared, by themselves.
ghost use Rattle.std.specs.Prelude.{◌≡◌, ◌<◌, ℕ, false, IfOk};
ghost use Rattle.ldm_memory.specs.Memory.{memory_seen};
ghost use Rattle.ldm_found.specs.Facts.{IsSoundGroup, LieOn};
ghost use Rattle.ldm_dump.specs.Sources.{is_lost};
ghost use Rattle.ldm_dump.specs.Runs.{LiesOn, RowsLieOn};

use crate::made::put_at;
use crate::steps::put_records;
use ldm_dump::{lost, read_sector, volumes_lie_on_images};
use ldm_found::{Found, find_group};
use ldm_host::Host;
use ldm_images::usual_images;
use ldm_layout::{Plan, Shape};
use ldm_memory::MemoryHost;
use ldm_rules::sound_plan;
use ldm_scrub::place_bad;
use ldm_vectors::sample_images;
use std::alloc::Global;
use std::test::Fail;

// A host of these images.
fn host_of(alloc: Global, images: &[Vec<u8>]) -> Result<MemoryHost, Fail> {
    let mut copies = Vec::new(alloc);
    for image in images {
        copies.push(image.as_slice().to_vec(alloc)?)?;
    }
    Ok(MemoryHost::new(alloc, copies, Vec::new(alloc))?)
}

// The group that the disks hold.
fn group_on(alloc: Global, host: &mut MemoryHost) -> Result<Found, Fail>
    ensures sound { IfOk result (λ found. IsSoundGroup found) }
    ensures lies { IfOk result (λ found. LieOn found.labels (memory_seen host.new).sizes) }
{
    if host.disks() == 0 {
        return Err(Fail::from("no disk"));
    }
    match find_group(alloc, host) {
        Ok(found) => Ok(found),
        Err(_) => Err(Fail::from("no group")),
    }
}

// The bytes of a sector of a volume of which none is lost.
fn bytes_at(
    host: &mut MemoryHost,
    found: &Found,
    plan: &Plan,
    sector: u64,
) -> Result<[u8; 512], Fail>
    requires kept { (y : ℕ) → y < plan.now.size → is_lost found.now plan.now y ≡ false }
    requires lies { LiesOn found.now plan.now (memory_seen host.old).sizes }
{
    if sector >= plan.size() {
        return Err(Fail::from("no sector"));
    }
    let mut bytes = [0u8; 512];
    match read_sector(host, found, plan, sector, &mut bytes) {
        Ok(()) => Ok(bytes),
        Err(_) => Err(Fail::from("no bytes")),
    }
}

// The bytes of a sector of the volume of this name.
fn sector_of(
    alloc: Global,
    host: &mut MemoryHost,
    found: &Found,
    name: &[u8],
    sector: u64,
) -> Result<[u8; 512], Fail>
    requires sound { IsSoundGroup found.now }
    requires lies { LieOn found.now.labels (memory_seen host.old).sizes }
{
    let Some(volume) = found.db.volume_named(name) else {
        return Err(Fail::from("no volume"));
    };
    let Ok(plan) = sound_plan(alloc, &found.db, &found.labels, volume) else {
        return Err(Fail::from("no plan"));
    };
    volumes_lie_on_images();
    match lost(found, &plan) {
        Some(_) => Err(Fail::from("a sector is lost")),
        None => bytes_at(host, found, &plan, sector),
    }
}

// Whether a sector of a mirror is bad.
fn is_bad_at(host: &mut MemoryHost, found: &Found, plan: &Plan, sector: u64) -> Result<bool, Fail>
    requires lies { LiesOn found.now plan.now (memory_seen host.old).sizes }
    requires rows { RowsLieOn found.now plan.now (memory_seen host.old).sizes }
{
    if sector >= plan.size() {
        return Err(Fail::from("no sector"));
    }
    match plan.shape() {
        Shape::Mirror => match place_bad(host, found, plan, sector) {
            Ok(bad) => Ok(bad),
            Err(_) => Err(Fail::from("no answer")),
        },
        _ => Err(Fail::from("no mirror")),
    }
}

// Whether a sector of the mirror of this name is bad.
fn is_bad(
    alloc: Global,
    host: &mut MemoryHost,
    found: &Found,
    name: &[u8],
    sector: u64,
) -> Result<bool, Fail>
    requires sound { IsSoundGroup found.now }
    requires lies { LieOn found.now.labels (memory_seen host.old).sizes }
{
    let Some(volume) = found.db.volume_named(name) else {
        return Err(Fail::from("no volume"));
    };
    let Ok(plan) = sound_plan(alloc, &found.db, &found.labels, volume) else {
        return Err(Fail::from("no plan"));
    };
    volumes_lie_on_images();
    is_bad_at(host, found, &plan, sector)
}

// Fills a sector of an image with this byte.
fn fill(images: &mut [Vec<u8>], image: usize, sector: usize, byte: u8) {
    if let Some(image) = images.get_mut(image) {
        put_at(image, sector.saturating_mul(512), &[byte; 512]);
    }
}

// Whether a sector of a volume of these images has this byte alone.
fn has(
    alloc: Global,
    images: &[Vec<u8>],
    name: &[u8],
    sector: u64,
    byte: u8,
) -> Result<bool, Fail> {
    let mut host = host_of(alloc, images)?;
    let found = group_on(alloc, &mut host)?;
    Ok(sector_of(alloc, &mut host, &found, name, sector)? == [byte; 512])
}

// Whether a sector of a mirror of these images is bad.
fn differs(alloc: Global, images: &[Vec<u8>], name: &[u8], sector: u64) -> Result<bool, Fail> {
    let mut host = host_of(alloc, images)?;
    let found = group_on(alloc, &mut host)?;
    is_bad(alloc, &mut host, &found, name, sector)
}

// The copies of the last sector of a mirror hold other bytes.
#[test]
fn reads_and_compares_copies(rt: HostRuntime) -> Result<(), Fail> {
    let alloc = rt.alloc();
    let mut images = usual_images(alloc)?;
    fill(images.as_mut_slice(), 0, 2262, 1);
    fill(images.as_mut_slice(), 2, 1274, 2);
    for (sector, byte, bad) in [(0, 0, false), (698, 0, false), (699, 1, true)] {
        assert!(rt;
            has(alloc, &images, b"Mirror1", sector, byte)?,
            "sector {sector}"
        );
        assert_eq!(rt;
            differs(alloc, &images, b"Mirror1", sector)?,
            bad,
            "sector {sector}"
        );
    }
    Ok(())
}

// Three columns of 12 sectors on the three disks, in chunks of 4, named R.
const RAID5: &str =
    "3.5.82.1.24 4.6.99.3.5.3.4.3 5.7.112.0.12.6.2.0.1 5.8.112.0.12.6.3.0.2 5.9.112.0.12.6.4.0.3";

// The first sector of the last chunk is filled, on the third disk.
#[test]
fn reads_columns(rt: HostRuntime) -> Result<(), Fail> {
    let alloc = rt.alloc();
    let mut images = sample_images(alloc, 3, 64)?;
    for image in &mut images {
        put_records(image, RAID5);
    }
    fill(images.as_mut_slice(), 2, 71, 5);
    for (sector, byte) in [(0, 0), (19, 0), (20, 5), (21, 0)] {
        assert!(rt; has(alloc, &images, b"R", sector, byte)?, "sector {sector}");
    }
    Ok(())
}
