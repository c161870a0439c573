//! A usual group: a simple volume, a spanned, a striped and a mirrored one on three disks.
ghost use Rattle.std.specs.Prelude.{◌≡◌, ◌+◌, ◌*◌, ◌<◌, ◌≤◌, All, IfOk, length, vec_len};
ghost use Rattle.ldm_bytes.specs.Guid.{own_guid};
ghost use Rattle.ldm_bytes.specs.Places.{put};
ghost use Rattle.ldm_host.specs.Images.{items_of};
ghost use Rattle.ldm_images.specs.Usual.{usual_header, IsUsualImage, AreUsualImages, KeepsHeader};

use crate::payloads::{Payload, payloads};
use ldm_bytes::{NoMemory, put_bytes, put_u16, put_u32, put_u64, write_guid};
use ldm_label::write_label;
use ldm_sample_disks::{guid_with, sample_label, zeros};
use std::alloc::Global;

/// Bytes of an image: 8192 sectors.
const IMAGE: usize = 8192 * 512;
/// Where the config area begins, in bytes.
const AREA: usize = (6144 + 17) * 512;
/// The last VBLK sequence.
const LAST: u32 = 5924;

// The GUID's text in lower case.
fn put_guid(sector: &mut [u8; 512], at: usize, guid: u128)
    requires { at + 36 ≤ 512 }
    ensures { sector.new ≡ put sector.old at (own_guid guid) }
{
    let mut text = [0u8; 36];
    write_guid(guid, &mut text);
    put_bytes(sector, at, &text);
}

// The header of the database: group Dg0, sequence 7. It counts disks alone, which no reader minds.
fn header_sector() -> [u8; 512]
    ensures { result ≡ usual_header }
{
    let mut sector = [0u8; 512];
    put_bytes(&mut sector, 0x00, b"VMDB");
    put_u32(&mut sector, 0x04, LAST);
    put_u32(&mut sector, 0x08, 128);
    put_u32(&mut sector, 0x0C, 512);
    put_u16(&mut sector, 0x10, 1);
    put_u16(&mut sector, 0x12, 4);
    put_u16(&mut sector, 0x14, 10);
    put_bytes(&mut sector, 0x16, b"Dg0");
    put_guid(&mut sector, 0x35, guid_with(0xA));
    put_u64(&mut sector, 0x75, 7);
    put_u64(&mut sector, 0x7D, 7);
    put_u32(&mut sector, 0x85 + 12, 3);
    put_u32(&mut sector, 0xA1 + 12, 3);
    sector
}

// The heads of the blocks 4 to the last, unused.
fn write_unused(image: &mut [u8])
    requires { length image.old ≡ 8192 * 512 }
    ensures { KeepsHeader image.old image.new }
{
    for block in 4..LAST / 4 * 4 {
        let at = AREA + 128 * block as usize;
        put_bytes(image, at, b"VBLK");
        put_u32(image, at + 4, block);
    }
}

// A record, whole in its block. One that doesn't fit is left out.
fn write_payload(image: &mut [u8], block: usize, payload: &[u8])
    requires size { length image.old ≡ 8192 * 512 }
    requires in_use { 4 ≤ block }
    ensures { KeepsHeader image.old image.new }
{
    if block >= 5920 || payload.len() > 112 || payload.len() < 8 {
        return;
    }
    let at = AREA + 128 * block;
    put_u32(image, at + 0x08, block as u32);
    put_u16(image, at + 0x0E, 1);
    put_bytes(image, at + 16, payload);
    put_u32(image, at + 20, payload.len() as u32 - 8);
}

// The records, from block 4 on.
fn write_payloads(image: &mut [u8], payloads: &[Payload])
    requires { length image.old ≡ 8192 * 512 }
    ensures { KeepsHeader image.old image.new }
{
    for (place, payload) in payloads.iter().enumerate() {
        write_payload(image, place.saturating_add(4), payload.bytes.as_slice());
    }
}

// The header, the blocks and the label of a disk, into an image.
fn write_image(image: &mut [u8], disk: u8, payloads: &[Payload])
    requires size { length image.old ≡ 8192 * 512 }
    requires disk { disk < 3 }
    ensures { IsUsualImage disk image.new }
{
    put_bytes(image, AREA, &header_sector());
    write_unused(image);
    write_payloads(image, payloads);
    write_label(image, &sample_label(disk));
}

// The image of a disk.
fn image_of(alloc: Global, disk: u8, payloads: &[Payload]) -> Result<Vec<u8>, NoMemory>
    requires { disk < 3 }
    ensures { IfOk result (λ image. IsUsualImage disk image.items) }
{
    let mut image = zeros(alloc, IMAGE)?;
    write_image(&mut image, disk, payloads);
    Ok(image)
}

// The images of the three disks.
fn images_with(alloc: Global, payloads: &[Payload]) -> Result<Vec<Vec<u8>>, NoMemory>
    ensures sizes { IfOk result (λ images. All (λ image. length image.items
        ≡ 8192 * 512) images.items) }
    ensures are { IfOk result (λ images. AreUsualImages 3 (items_of images.items)) }
{
    let mut images = Vec::new(alloc);
    for disk in 0..3 {
        images.push(image_of(alloc, disk, payloads)?)?;
    }
    Ok(images)
}

/// The images of the three disks of a usual group: `Dg0`, sequence 7, last VBLK sequence 5924, with
/// the volumes `Volume1`, `Volume2`, `Stripe1` and `Mirror1`.
pub fn usual_images(alloc: Global) -> Result<Vec<Vec<u8>>, NoMemory>
    ensures sizes { IfOk result (λ images. (vec_len images ≡ 3)
        × All (λ image. length image.items ≡ 8192 * 512) images.items) }
    // Each reads as the label of its disk, and has the header of the database behind an open gate.
    ensures are { IfOk result (λ images. AreUsualImages 3 (items_of images.items)) }
{
    let payloads = payloads(alloc)?;
    images_with(alloc, &payloads)
}
