//! Whether the areas of two disks have the same bytes in use.
ghost use Rattle.std.specs.Prelude.{◌≡◌, ◌↔◌, ◌+◌, ◌*◌, ◌^◌, ◌<◌, ◌≤◌, IsTrue, length, slice_index};
ghost use Rattle.std.specs.Prelude.{slice_range, IfOk, IsErr};
ghost use Rattle.ldm_host.specs.Moves.{Looks};
ghost use Rattle.ldm_host.specs.Seen.{image};
ghost use Rattle.ldm_label.specs.LabelOf.{Fits};
ghost use Rattle.ldm_group.specs.Database.{Database};
ghost use Rattle.ldm_copy.specs.Copy.{IsWritten};
ghost use Rattle.ldm_copy.specs.Alike.{sectors_from, AreAlike};

use ldm_host::{Failed, Host};
use ldm_label::Label;

/// How many sectors of a disk are held at a time.
pub(crate) const CHUNK: u64 = 8;

/// The first sector of the config area on a disk.
pub(crate) fn area_start<H: Host>(host: &H, disk: usize, label: &Label) -> u64
    requires disk { disk < length (H.seen host.now).sizes }
    requires fits { Fits label.now (slice_index (H.seen host.now).sizes disk) }
    ensures is { result ≡ label.now.config_start + label.now.area_start }
    ensures inside { result + label.now.area_sectors ≤ slice_index (H.seen host.now).sizes disk }
    ensures small { result + label.now.area_sectors < 2 ^ 55 }
{
    let sectors = host.sectors(disk);
    // The label fits, so the area lies on the disk, and its places fit their type.
    prove!(label.config_start + 2048 <= sectors);
    label.config_start + label.area_start
}

// Whether two disks have the same bytes from these places on, as many as each buffer holds.
fn is_chunk_same<H: Host>(
    host: &mut H,
    disk: usize,
    at: u64,
    other: usize,
    other_at: u64,
    bytes: &mut [u8],
    other_bytes: &mut [u8],
) -> Result<bool, Failed>
    requires disk { disk < length (H.seen host.old).sizes }
    requires inside { at + length bytes.old ≤ 512 * slice_index (H.seen host.old).sizes disk }
    requires other { other < length (H.seen host.old).sizes }
    requires other_inside { other_at + length bytes.old
        ≤ 512 * slice_index (H.seen host.old).sizes other }
    requires one_size { length other_bytes.old ≡ length bytes.old }
    ensures is { H.tells_disks → IfOk result (λ same. IsTrue same
        ↔ (slice_range (image (H.seen host.old).content disk) at (at + length bytes.old)
        ≡ slice_range (image (H.seen host.old).content other) other_at
        (other_at + length bytes.old))) }
    ensures looks { Looks (H.seen host.old) (H.seen host.new) (IsErr result) }
{
    host.read_at(disk, at, bytes)?;
    host.read_at(other, other_at, other_bytes)?;
    Ok(*bytes == *other_bytes)
}

// Whether a few sectors of two disks, from these on, are the same.
fn are_few_same<H: Host>(
    host: &mut H,
    disk: usize,
    from: u64,
    other: usize,
    other_from: u64,
    sectors: u64,
) -> Result<bool, Failed>
    requires few { sectors ≤ 8 }
    requires disk { disk < length (H.seen host.old).sizes }
    requires inside { from + sectors ≤ slice_index (H.seen host.old).sizes disk }
    requires small { from < 2 ^ 55 }
    requires other { other < length (H.seen host.old).sizes }
    requires other_inside { other_from + sectors ≤ slice_index (H.seen host.old).sizes other }
    requires other_small { other_from < 2 ^ 55 }
    ensures is { H.tells_disks → IfOk result (λ same. IsTrue same
        ↔ (sectors_from from sectors (image (H.seen host.old).content disk)
        ≡ sectors_from other_from sectors (image (H.seen host.old).content other))) }
    ensures looks { Looks (H.seen host.old) (H.seen host.new) (IsErr result) }
{
    let mut bytes = [0u8; 4096];
    let mut other_bytes = [0u8; 4096];
    let size = 512 * sectors as usize;
    let mine = &mut bytes[..size];
    let others = &mut other_bytes[..size];
    is_chunk_same(
        host,
        disk,
        512 * from,
        other,
        512 * other_from,
        mine,
        others,
    )
}

// Whether so many sectors of two disks, from these on, are the same.
fn is_same<H: Host>(
    host: &mut H,
    disk: usize,
    from: u64,
    other: usize,
    other_from: u64,
    sectors: u64,
) -> Result<bool, Failed>
    requires disk { disk < length (H.seen host.old).sizes }
    requires inside { from + sectors ≤ slice_index (H.seen host.old).sizes disk }
    requires small { from + sectors < 2 ^ 55 }
    requires other { other < length (H.seen host.old).sizes }
    requires other_inside { other_from + sectors ≤ slice_index (H.seen host.old).sizes other }
    requires other_small { other_from + sectors < 2 ^ 55 }
    ensures is { H.tells_disks → IfOk result (λ same. IsTrue same
        ↔ (sectors_from from sectors (image (H.seen host.old).content disk)
        ≡ sectors_from other_from sectors (image (H.seen host.old).content other))) }
    ensures looks { Looks (H.seen host.old) (H.seen host.new) (IsErr result) }
{
    for chunk in 0..sectors.div_ceil(CHUNK) {
        let done = CHUNK * chunk;
        let few = CHUNK.min(sectors - done);
        if !are_few_same(host, disk, from + done, other, other_from + done, few)? {
            return Ok(false);
        }
    }
    Ok(true)
}

/// Whether the config areas of two disks have room for this last VBLK sequence, and the same header
/// sector and blocks in use. Then a valid copy with that sequence in one is the copy in the other.
///
/// It reads a few sectors of each disk at a time, up to the first that differ, and takes no memory
/// for them.
pub fn is_alike<H: Host>(
    host: &mut H,
    disk: usize,
    label: &Label,
    other: usize,
    other_label: &Label,
    last: u32,
) -> Result<bool, Failed>
    requires disk { disk < length (H.seen host.old).sizes }
    requires fits { Fits label.now (slice_index (H.seen host.old).sizes disk) }
    requires other { other < length (H.seen host.old).sizes }
    requires other_fits { Fits other_label.now (slice_index (H.seen host.old).sizes other) }
    ensures is { H.tells_disks → IfOk result (λ alike. IsTrue alike ↔ AreAlike last
        (label.now, image (H.seen host.old).content disk)
        (other_label.now, image (H.seen host.old).content other)) }
    // A valid copy with that sequence on the other disk is the copy on this disk.
    ensures copy { H.tells_disks → IfOk result (λ alike. IsTrue alike → (db : Database)
        → db.header.last ≡ last
        → IsWritten other_label.now db (image (H.seen host.old).content other)
        → IsWritten label.now db (image (H.seen host.old).content disk)) }
    ensures looks { Looks (H.seen host.old) (H.seen host.new) (IsErr result) }
{
    let from = area_start(host, disk, label);
    let other_from = area_start(host, other, other_label);
    let last = u64::from(last);
    if 4 * label.area_sectors < last || 4 * other_label.area_sectors < last {
        return Ok(false);
    }
    is_same(host, disk, from, other, other_from, (last / 4).max(1))
}
