//! The images of the sample group, byte by byte.
use ldm_found::find_group;
use ldm_host::Host;
use ldm_memory::MemoryHost;
use ldm_vectors::sample_images;
use std::alloc::Global;
use std::test::Fail;

type Row = (usize, &'static [u8]);

const PRIVHEAD: [Row; 6] = [
    (0x00, b"PRIVHEAD"),
    (0x0C, b"\x00\x02\x00\x0b"),
    (0x11B, b"\x00\x00\x00\x00\x00\x00\x00\x3f"),
    (0x123, b"\x00\x00\x00\x00\x00\x00\x17\xc1"),
    (0x12B, b"\x00\x00\x00\x00\x00\x00\x18\x00"),
    (0x133, b"\x00\x00\x00\x00\x00\x00\x08\x00"),
];

const TOCBLOCK: [Row; 7] = [
    (0x00, b"TOCBLOCK"),
    (0x24, b"config\x00"),
    (0x2E, b"\x00\x00\x00\x00\x00\x00\x00\x11"),
    (0x36, b"\x00\x00\x00\x00\x00\x00\x05\xc9"),
    (0x46, b"log\x00"),
    (0x50, b"\x00\x00\x00\x00\x00\x00\x05\xda"),
    (0x58, b"\x00\x00\x00\x00\x00\x00\x00\xe0"),
];

const VMDB: [Row; 9] = [
    (0x00, b"VMDB\x00\x00\x00\x40"),
    (0x08, b"\x00\x00\x00\x80\x00\x00\x02\x00"),
    (0x10, b"\x00\x01\x00\x04\x00\x0a"),
    (0x16, b"Dg0\x00"),
    (0x35, b"aaaaaaaa-aaaa-aaaa-aaaa-aaaaaaaaaaaa"),
    (0x75, b"\x00\x00\x00\x00\x00\x00\x00\x07"),
    (0x7D, b"\x00\x00\x00\x00\x00\x00\x00\x07"),
    (0x91, b"\x00\x00\x00\x03"),
    (0xAD, b"\x00\x00\x00\x03"),
];

// The blocks of the records, each whole but for its filling of zeros; block 5 is a vector of the
// format.
const RECORDS: [Row; 4] = [
    (
        128 * 4,
        b"VBLK\x00\x00\x00\x04\x00\x00\x00\x04\x00\x00\x00\x01\x00\x00\x00\x35\x00\x00\x00\x37\x01\x01\x03Dg0\x24aaaaaaaa-aaaa-aaaa-aaaa-aaaaaaaaaaaa\x00",
    ),
    (
        128 * 5,
        b"\x56\x42\x4c\x4b\x00\x00\x00\x05\x00\x00\x00\x05\x00\x00\x00\x01\x00\x00\x00\x34\x00\x00\x00\x3a\x01\x02\x05\x44\x69\x73\x6b\x31\x2411111111-1111-1111-1111-111111111111\x00\x00",
    ),
    (
        128 * 6,
        b"VBLK\x00\x00\x00\x06\x00\x00\x00\x06\x00\x00\x00\x01\x00\x00\x00\x34\x00\x00\x00\x3a\x01\x03\x05Disk2\x2422222222-2222-2222-2222-222222222222\x00\x00",
    ),
    (
        128 * 7,
        b"VBLK\x00\x00\x00\x07\x00\x00\x00\x07\x00\x00\x00\x01\x00\x00\x00\x34\x00\x00\x00\x3a\x01\x04\x05Disk3\x2433333333-3333-3333-3333-333333333333\x00\x00",
    ),
];

const GUIDS: [&[u8]; 3] = [
    b"11111111-1111-1111-1111-111111111111",
    b"22222222-2222-2222-2222-222222222222",
    b"33333333-3333-3333-3333-333333333333",
];

// How many bytes aren't zero.
fn filled(bytes: &[u8]) -> usize {
    let mut count: usize = 0;
    for byte in bytes {
        if *byte != 0 {
            count = count.saturating_add(1);
        }
    }
    count
}

// How many bytes of the row aren't zero, where it stands in the image behind the base.
fn row(image: &[u8], base: usize, row: &Row) -> Option<usize> {
    let from = base.checked_add(row.0)?;
    let to = from.checked_add(row.1.len())?;
    if image.get(from..to)? == row.1 {
        Some(filled(row.1))
    } else {
        None
    }
}

// How many bytes of all rows of a table aren't zero, where they stand in the image.
fn rows(image: &[u8], base: usize, table: &[Row]) -> Option<usize> {
    let mut total: usize = 0;
    for one in table {
        total = total.saturating_add(row(image, base, one)?);
    }
    Some(total)
}

// How many bytes of an image the tables account for, where they all stand in it.
fn accounted(image: &[u8], guid: &'static [u8]) -> Option<usize> {
    let mut total = rows(image, 0, &[(0x1C2, b"\x42"), (0x1FE, b"\x55\xaa")])?;
    for sector in [6, 8000, 8191] {
        total = total.saturating_add(rows(image, 512 * sector, &PRIVHEAD)?);
        total = total.saturating_add(row(image, 512 * sector, &(0x30, guid))?);
    }
    for sector in [6145, 6146, 8189, 8190] {
        total = total.saturating_add(rows(image, 512 * sector, &TOCBLOCK)?);
    }
    total = total.saturating_add(rows(image, 512 * 6161, &VMDB)?);
    total = total.saturating_add(rows(image, 512 * 6161, &RECORDS)?);
    for block in 8..64u8 {
        let head = [b'V', b'B', b'L', b'K', 0, 0, 0, block];
        let at = 512 * 6161 + 128 * usize::from(block);
        if image.get(at..at + 8)? != head.as_slice() {
            return None;
        }
        total = total.saturating_add(5);
    }
    Some(total)
}

#[test]
fn writes_the_tables_and_nothing_else(rt: HostRuntime) -> Result<(), Fail> {
    let images = sample_images(rt.alloc(), 3, 64)?;
    assert!(rt; images.len() == 3);
    for (image, guid) in images.iter().zip(&GUIDS) {
        assert!(rt; image.len() == 8192 * 512);
        assert!(rt; accounted(image, guid) == Some(filled(image)));
    }
    Ok(())
}

// The number of the last block, the count of disks, the head of the block behind the disks'
// records, that of the last block, and what stands behind it.
const FEWER: [Row; 5] = [
    (0x04, b"\x00\x00\x17\x24"),
    (0x91, b"\x00\x00\x00\x02"),
    (
        128 * 7,
        b"VBLK\x00\x00\x00\x07\x00\x00\x00\x00\x00\x00\x00\x00",
    ),
    (128 * 5923, b"VBLK\x00\x00\x17\x23"),
    (128 * 5924, b"\x00\x00\x00\x00"),
];

#[test]
fn writes_fewer_disks_and_more_blocks(rt: HostRuntime) -> Result<(), Fail> {
    let images = sample_images(rt.alloc(), 2, 5924)?;
    assert!(rt; images.len() == 2);
    for image in &images {
        assert!(rt; rows(image, 512 * 6161, &FEWER).is_some());
    }
    Ok(())
}

// The committed sequence, the last VBLK sequence and the number of records of the sample group, as
// it is found.
fn found_in(alloc: Global, disks: u8, last: u32) -> Result<(u64, u32, usize), Fail> {
    let images = sample_images(alloc, disks.clamp(1, 3), last.clamp(8, 5924))?;
    let mut host = MemoryHost::new(alloc, images, Vec::new(alloc))?;
    if host.disks() == 0 {
        return Err(Fail::from("no disk"));
    }
    let Ok(found) = find_group(alloc, &mut host) else {
        return Err(Fail::from("no group"));
    };
    let header = found.db.header();
    Ok((header.seq, header.last, found.db.count()))
}

#[test]
fn found_with_few_blocks_and_with_all(rt: HostRuntime) -> Result<(), Fail> {
    assert!(rt; found_in(rt.alloc(), 1, 8)? == (7, 8, 2));
    assert!(rt; found_in(rt.alloc(), 3, 5924)? == (7, 5924, 4));
    Ok(())
}
