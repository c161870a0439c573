//! What is damaged on images, and the bytes that are shown in place of that.
use crate::made::put_at;
use ldm_copy::CopyFault;
use ldm_damage::{Damage, DamageError, find_damage};
use ldm_label::LabelFault;
use ldm_memory::MemoryHost;
use ldm_payloads::RecordFault;
use ldm_vectors::sample_images;
use ldm_view::{Patch, Patched};
use ldm_vmdb::VmdbFault;
use std::alloc::Global;
use std::test::Fail;

// Bytes at a place of an image.
type Change = (usize, &'static [u8]);

// The copies of the private header, and where the config area begins.
const FIRST: usize = 512 * 6;

const SECOND: usize = 512 * (6144 + 1856);

const THIRD: usize = 512 * 8191;

const AREA: usize = 512 * (6144 + 17);

const ZEROS: &[u8] = &[0; 512];

// The four tables of contents.
const TABLES: [Change; 4] = [
    (512 * (6144 + 1), ZEROS),
    (512 * (6144 + 2), ZEROS),
    (512 * (6144 + 2045), ZEROS),
    (512 * (6144 + 2046), ZEROS),
];

// What is damaged on an image of 8192 sectors.
type Told = (Option<LabelFault>, Option<CopyFault>);

// The three images of the sample group, of which image 1 has these changes and this length, where
// the calls with these numbers fail.
fn host_of(
    alloc: Global,
    changes: &[Change],
    length: usize,
    failing: &[u64],
) -> Result<MemoryHost, Fail> {
    let mut images = sample_images(alloc, 3, 64)?;
    if let Some(image) = images.get_mut(1) {
        for (place, bytes) in changes {
            put_at(image, *place, bytes);
        }
        image.truncate(length);
    }
    let host = MemoryHost::new(alloc, images, Vec::new(alloc))?;
    Ok(host.with_failures(Vec::from_slice(alloc, failing)?))
}

// An image is good.
fn is_good(damage: Option<&Damage>) -> bool {
    match damage {
        Some(damage) => damage.label.is_none() && damage.copy.is_none(),
        None => false,
    }
}

// Of the images, image 1 alone is damaged, so.
fn is_told(damages: &[Damage], told: Told) -> bool {
    let here = match damages.get(1) {
        Some(damage) => damage.label == told.0 && damage.copy == told.1,
        None => false,
    };
    damages.len() == 3 && here && is_good(damages.get(0)) && is_good(damages.get(2))
}

// A patch is one of image 1, at this place, and begins with these bytes.
fn is_patch(patch: Option<&Patch>, place: u64, front: &[u8]) -> bool {
    match patch {
        Some(patch) => patch.disk == 1 && patch.at == place && patch.bytes.starts_with(front),
        None => false,
    }
}

// Exactly these patches are shown.
fn are_shown(patches: &[Patch], places: &[(u64, &[u8])]) -> bool {
    let mut same = patches.len() == places.len();
    for (number, (place, front)) in places.iter().enumerate() {
        same = same && is_patch(patches.get(number), *place, front);
    }
    same
}

// Changes of image 1, what is told of it then, and what is shown in place of its bytes: places and
// the first bytes there.
type Row = (&'static [Change], Told, &'static [(u64, &'static [u8])]);

const ROWS: [Row; 13] = [
    (&[], (None, None), &[]),
    // The header of the copy says that it is being written.
    (
        &[(AREA + 0x10, b"\x00\x02")],
        (None, Some(CopyFault::Vmdb(VmdbFault::Unsettled))),
        &[(3154432, b"\x00")],
    ),
    // A record's body of 500 bytes isn't there.
    (
        &[(AREA + 128 * 5 + 20, b"\x00\x00\x01\xF4")],
        (None, Some(CopyFault::BadRecord(5, RecordFault::Malformed))),
        &[(3154432, b"\x00")],
    ),
    // A copy that is closed has no fault.
    (&[(AREA, ZEROS)], (None, None), &[]),
    // The MBR alone is mended.
    (
        &[(0, ZEROS)],
        (Some(LabelFault::NoSignature), None),
        &[(0x1C2, b"\x42"), (0x1FE, b"\x55\xAA")],
    ),
    // The MBR, and copy 1 of the private header by copy 3.
    (
        &[(0, ZEROS), (FIRST, ZEROS)],
        (Some(LabelFault::NoSignature), None),
        &[(0x1C2, b"\x42"), (0x1FE, b"\x55\xAA"), (3072, b"PRIVHEAD")],
    ),
    // By copy 2, where copy 3 is no good either.
    (
        &[(FIRST, ZEROS), (THIRD, ZEROS)],
        (Some(LabelFault::NoPrivhead), None),
        &[(0x1C2, b"\x42"), (0x1FE, b"\x55\xAA"), (3072, b"PRIVHEAD")],
    ),
    // No copy of the private header is good.
    (
        &[(FIRST, ZEROS), (SECOND, ZEROS), (THIRD, ZEROS)],
        (None, None),
        &[],
    ),
    // Copy 3 says another disk, while copy 1 is good: so the label isn't mended.
    (&[(THIRD + 0x30, b"3")], (None, None), &[]),
    // Copies 2 and 3 say different disks, and copy 1 is no good.
    (&[(FIRST, ZEROS), (THIRD + 0x30, b"3")], (None, None), &[]),
    // No table of contents parses.
    (&TABLES, (None, None), &[]),
    // The version of the private header.
    (
        &[(FIRST + 0x0C, b"\x00\x03")],
        (Some(LabelFault::Version), None),
        &[(0x1C2, b"\x42"), (0x1FE, b"\x55\xAA"), (3072, b"PRIVHEAD")],
    ),
    // The label is mended, and the copy is passed over.
    (
        &[(0, ZEROS), (AREA + 0x10, b"\x00\x02")],
        (
            Some(LabelFault::NoSignature),
            Some(CopyFault::Vmdb(VmdbFault::Unsettled)),
        ),
        &[(0x1C2, b"\x42"), (0x1FE, b"\x55\xAA"), (3154432, b"\x00")],
    ),
];

// The patches that are shown of a host's disks, and what is damaged on them.
fn found_on(alloc: Global, host: MemoryHost) -> (Vec<Patch>, Result<Vec<Damage>, DamageError>) {
    let (under, found) = find_damage(alloc, host);
    let Patched { host: _, patches } = under;
    (patches, found)
}

fn holds(alloc: Global, row: &Row) -> Result<bool, Fail> {
    let host = host_of(alloc, row.0, 512 * 8192, &[])?;
    let (patches, found) = found_on(alloc, host);
    Ok(match found {
        Ok(damages) => is_told(&damages, row.1) && are_shown(&patches, row.2),
        Err(_) => false,
    })
}

#[test]
fn damages(rt: HostRuntime) -> Result<(), Fail> {
    for row in &ROWS {
        assert!(rt; holds(rt.alloc(), row)?);
    }
    Ok(())
}

#[test]
fn short_images(rt: HostRuntime) -> Result<(), Fail> {
    let host = host_of(rt.alloc(), &[], 512 * 6, &[])?;
    let (patches, found) = found_on(rt.alloc(), host);
    let damages = found.map_err(|_| Fail::from("nothing found"))?;
    assert!(rt; is_told(&damages, (None, None)));
    assert!(rt; patches.is_empty());
    Ok(())
}

#[test]
fn reads_that_fail(rt: HostRuntime) -> Result<(), Fail> {
    for call in [1, 6, 20] {
        let host = host_of(rt.alloc(), &[(0, ZEROS)], 512 * 8192, &[call])?;
        let (_, found) = found_on(rt.alloc(), host);
        assert!(rt; matches!(found, Err(DamageError::Disk)));
    }
    Ok(())
}
