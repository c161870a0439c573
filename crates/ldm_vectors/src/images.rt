//! The images of the sample group.
ghost use Rattle.std.specs.Prelude.{◌≡◌, ◌*◌, ◌<◌, ◌≤◌, All, IfOk, Result, length, vec_len};
ghost use Rattle.ldm_host.specs.Images.{items_of};
ghost use Rattle.ldm_copy.specs.declared.found.Found.{Found};
ghost use Rattle.ldm_found.specs.Opening.{IsGroupIn};
ghost use Rattle.ldm_sample_disks.specs.Disks.{sample_label, IsZeros};
ghost use Rattle.ldm_vectors.specs.Sample.{IsSampleDatabase, IsSampleImage, AreImagesWith};
ghost use Rattle.ldm_vectors.specs.Sample.{AreSampleImages, IsSampleGroup};

use ldm_body::{Body, bodies_are_copies, body_of};
use ldm_bytes::{NoMemory, put_bytes};
use ldm_group::Db;
use ldm_init::{new_database, new_groups_open};
use ldm_label::{write_label, written_label_reads_back};
use ldm_sample_disks::{guid_with, sample_label, zeros};
use std::alloc::Global;

/// Bytes of an image: 8192 sectors.
const IMAGE: usize = 8192 * 512;
/// Where the config area begins, in bytes.
const AREA: usize = (6144 + 17) * 512;

// The group of so many disks.
fn sample_database(alloc: Global, disks: u8, last: u32) -> Result<Db, NoMemory>
    requires { disks ≤ 3 }
    ensures { IfOk result (λ db. IsSampleDatabase disks last db) }
{
    let guids = [guid_with(1), guid_with(2), guid_with(3)];
    let first = &guids[..usize::from(disks)];
    new_database(alloc, b"Dg0", guid_with(0xA), first, last, 7)
}

// Writes the image of the disk of this number, whose copy is this body, over zeros.
fn write_image(image: &mut [u8], disk: u8, body: &[u8])
    requires zeros { IsZeros IMAGE image.old }
    requires disk { disk < 3 }
    requires room { length body.now ≤ 512 * 1481 }
    ensures { IsSampleImage (sample_label disk) body.now image.new }
{
    put_bytes(image, AREA, body);
    write_label(image, &sample_label(disk));
}

fn sample_image(alloc: Global, disk: u8, body: &[u8]) -> Result<Vec<u8>, NoMemory>
    requires disk { disk < 3 }
    requires room { length body.now ≤ 512 * 1481 }
    ensures { IfOk result (λ image. IsSampleImage (sample_label disk) body.now image.items) }
{
    let mut image = zeros(alloc, IMAGE)?;
    write_image(&mut image, disk, body);
    Ok(image)
}

// An image for each of so many disks, whose copies are this body.
fn images_with(alloc: Global, disks: u8, body: &[u8]) -> Result<Vec<Vec<u8>>, NoMemory>
    requires disks { disks ≤ 3 }
    requires room { length body.now ≤ 512 * 1481 }
    ensures sizes { IfOk result (λ images. All (λ image. length image.items
        ≡ 8192 * 512) images.items) }
    ensures are { IfOk result (λ images. AreImagesWith disks body.now (items_of images.items)) }
{
    let mut images = Vec::new(alloc);
    for disk in 0..disks {
        images.push(sample_image(alloc, disk, body)?)?;
    }
    Ok(images)
}

/// The images of the first disks of the sample group, which is `Dg0` with sequence 7 and the disks
/// `Disk1` to `Disk3`. `last` is the header's last VBLK sequence.
pub fn sample_images(alloc: Global, disks: u8, last: u32) -> Result<Vec<Vec<u8>>, NoMemory>
    requires some { 1 ≤ disks }
    requires disks { disks ≤ 3 }
    requires room { 8 ≤ last }
    requires few { last ≤ 5924 }
    ensures sizes { IfOk result (λ images. (vec_len images ≡ disks)
        × All (λ image. length image.items ≡ 8192 * 512) images.items) }
    ensures made { IfOk result (λ images. AreSampleImages disks last (items_of images.items)) }
    ensures found { IfOk result (λ images. (found : Found)
        × IsGroupIn (items_of images.items) (Result.Ok found)
        × IsSampleGroup disks last found) }
{
    let db = sample_database(alloc, disks, last)?;
    let body = body_of(alloc, &db)?;
    bodies_are_copies();
    written_label_reads_back();
    new_groups_open();
    images_with(alloc, disks, body.as_slice())
}
