//! What is written to a disk before its signature.
ghost use Rattle.std.specs.Prelude.{◌≡◌, ◌+◌, ◌*◌, ◌<◌, ◌≤◌, length, replicate, slice_index, OnOk};
ghost use Rattle.std.specs.Prelude.{IsErr};
ghost use Rattle.ldm_host.specs.Moves.{Settled, DiskFailed};
ghost use Rattle.ldm_host.specs.Seen.{image};
ghost use Rattle.ldm_bytes.specs.Places.{put};
ghost use Rattle.ldm_label.specs.Laws.{IsClearOfLabel};
ghost use Rattle.ldm_label.specs.Written.{written_sectors};
ghost use Rattle.ldm_group.specs.Database.{Database};
ghost use Rattle.ldm_body.specs.Body.{IsBodyOn};
ghost use Rattle.ldm_init.specs.Moments.{CanTake, IsReadyToSign};
ghost use Rattle.ldm_init.specs.Bytes.{IsLast, IsUnsignedImage};
ghost use Rattle.ldm_init.specs.Beside.{IsBeside, ChangesBeside};

use ldm_bytes::put_bytes;
use ldm_host::{Failed, Host};
use ldm_label::{Label, LabelSectors, label_sectors};

/// Writes the first bytes of a disk, at most 511, its sector 6, and bytes from a place on, then
/// syncs. At each moment, whatever the outcome, all other bytes are as they were, the last of the
/// signature among them.
pub(crate) fn write_unsigned<H: Host>(
    host: &mut H,
    disk: usize,
    front: &[u8],
    copy: &[u8; 512],
    begin: u64,
    last: &[u8],
) -> Result<(), Failed>
    requires disk { disk < length (H.seen host.old).sizes }
    requires few { length front.now ≤ 0x1FF }
    requires room { 7 ≤ slice_index (H.seen host.old).sizes disk }
    requires range { begin + length last.now ≤ 512 * slice_index (H.seen host.old).sizes disk }
    ensures written { H.tells_disks → OnOk result (image (H.seen host.new).content disk
        ≡ put (put (put (image (H.seen host.old).content disk) 0 front.now) 0xC00 copy.now)
        begin last.now) }
    ensures settled { OnOk result (Settled (H.seen host.new) disk) }
    ensures changes { ChangesBeside (IsBeside begin (length last.now)) disk (H.seen host.old)
        (H.seen host.new) }
    ensures cause { IsErr result → DiskFailed (H.seen host.old) (H.seen host.new) }
{
    host.write_at(disk, 0, front)?;
    host.write_at(disk, 0xC00, copy)?;
    host.write_at(disk, begin, last)?;
    host.sync(disk)
}

fn clear(buffer: &mut [u8])
    ensures { buffer.new ≡ replicate (length buffer.old) 0 }
{
    buffer.fill(0);
}

// Fills a buffer with the last 2048 sectors of a disk, zeros but for the label and the body.
fn fill_last(buffer: &mut [u8], label: &Label, sectors: &LabelSectors, body: &[u8])
    requires size { length buffer.old ≡ 512 * 2048 }
    requires clear { IsClearOfLabel label.now }
    requires fits { length body.now ≤ 512 * label.now.area_sectors }
    requires sectors { sectors.now ≡ written_sectors label.now }
    ensures last { IsLast label.now body.now buffer.new }
{
    clear(buffer);
    put_bytes(buffer, 512, &sectors.toc);
    put_bytes(buffer, 512 * 2, &sectors.toc);
    put_bytes(buffer, 512 * label.area_start as usize, body);
    put_bytes(buffer, 512 * 1856, &sectors.header);
    put_bytes(buffer, 512 * 2045, &sectors.toc);
    put_bytes(buffer, 512 * 2046, &sectors.toc);
    put_bytes(buffer, 512 * 2047, &sectors.header);
}

/// Writes all of a disk that a new group has but the last byte of the signature, then syncs. The
/// buffer is that of the last 2048 sectors.
pub fn write_disk<H: Host>(
    host: &mut H,
    disk: usize,
    label: &Label,
    body: &[u8],
    buffer: &mut [u8],
) -> Result<(), Failed>
    requires disk { disk < length (H.seen host.old).sizes }
    requires takes { CanTake label.now body.now (slice_index (H.seen host.old).sizes disk) }
    requires size { length buffer.old ≡ 512 * 2048 }
    ensures written { H.tells_disks
        → OnOk result (IsUnsignedImage label.now body.now (image (H.seen host.old).content disk)
        (image (H.seen host.new).content disk)) }
    ensures ready { H.tells_disks → OnOk result ((db : Database) → IsBodyOn db label.now body.now
        → IsReadyToSign db label.now (image (H.seen host.new).content disk)) }
    ensures settled { OnOk result (Settled (H.seen host.new) disk) }
    ensures changes { ChangesBeside (IsBeside (512 * label.now.config_start) (512 * 2048)) disk
        (H.seen host.old) (H.seen host.new) }
    ensures size { length buffer.new ≡ 512 * 2048 }
    ensures cause { IsErr result → DiskFailed (H.seen host.old) (H.seen host.new) }
{
    let count = host.sectors(disk);
    prove!(label.config_start + 2048 <= count);
    let sectors = label_sectors(label);
    fill_last(buffer, label, &sectors, body);
    write_unsigned(
        host,
        disk,
        &sectors.mbr[..511],
        &sectors.header,
        512 * label.config_start,
        buffer,
    )
}
