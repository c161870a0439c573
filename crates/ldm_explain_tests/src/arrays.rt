//! A group without volumes, and one whose volumes are two RAID-5s with partitions of one name.
use crate::images::{AREA, put};
use std::alloc::Global;
use std::test::Fail;

/// Takes the records of the volumes away: their blocks are of no record.
pub(crate) fn clear_volumes(image: &mut Vec<u8>) {
    // The blocks 4 to 7 are of the group and its disks.
    for block in 8u8..40 {
        let at = AREA + 128 * block as usize;
        for place in 8u8..128 {
            put(image, at + place as usize, 0);
        }
    }
}

// A record of this type, with its flags and the bytes of its fields, which fit into one block.
fn put_record(image: &mut Vec<u8>, block: u8, flags: u8, kind: u8, fields: &[u8]) {
    let at = AREA + 128 * block as usize;
    put(image, at + 0x0B, block);
    put(image, at + 0x0F, 1);
    put(image, at + 18, flags);
    put(image, at + 19, kind);
    put(image, at + 23, (fields.len() & 0x7F) as u8);
    for (place, byte) in fields.iter().enumerate() {
        if place < 104 {
            put(image, at + 24 + place, *byte);
        }
    }
}

// The fields of a RAID-5 of 16 sectors.
fn volume_fields(alloc: Global, id: u8, name: u8) -> Result<Vec<u8>, Fail> {
    let mut fields = Vec::new(alloc);
    fields.extend_from_slice(&[1, id, 1, name])?;
    fields.extend_from_slice(b"\x05raid5\0ACTIVE\0\0\0\0\0\0\0\0\x03\0\0\0\0\0\0\x01\x01")?;
    fields.extend_from_slice(&[0; 16])?;
    fields.extend_from_slice(&[1, 16, 0, 0, 0, 0, 7])?;
    fields.extend_from_slice(&[name; 16])?;
    Ok(fields)
}

// The fields of its component: a chunk of 8 sectors, and three columns.
fn component_fields(alloc: Global, id: u8, volume: u8) -> Result<Vec<u8>, Fail> {
    let mut fields = Vec::new(alloc);
    fields.extend_from_slice(&[1, id, 1, b'c'])?;
    fields.extend_from_slice(b"\x06ACTIVE\x03\0\0\0\0\x01\x03")?;
    fields.extend_from_slice(&[0; 16])?;
    fields.extend_from_slice(&[1, volume, 0, 1, 8, 1, 3])?;
    Ok(fields)
}

// The fields of a column of 8 sectors, on the disk of its number, whose id is 1025 or one behind.
fn column_fields(
    alloc: Global,
    id: u8,
    name: u8,
    start: u8,
    component: u8,
    column: u8,
) -> Result<Vec<u8>, Fail> {
    let mut fields = Vec::new(alloc);
    fields.extend_from_slice(&[1, id, 2, b'p', name])?;
    fields.extend_from_slice(&[0; 12])?;
    fields.extend_from_slice(&[0, 0, 0, 0, 0, 0, 0, start])?;
    fields.extend_from_slice(&[0; 8])?;
    fields.extend_from_slice(&[
        1,
        8,
        1,
        component,
        2,
        4,
        column.saturating_add(1),
        1,
        column,
    ])?;
    Ok(fields)
}

// A RAID-5 in the blocks and with the ids from this one on, and partitions of these names.
fn put_array(
    alloc: Global,
    image: &mut Vec<u8>,
    id: u8,
    name: u8,
    start: u8,
    names: &[u8; 3],
) -> Result<(), Fail> {
    let component = id.saturating_add(1);
    put_record(image, id, 0, 0x51, &volume_fields(alloc, id, name)?);
    put_record(
        image,
        component,
        0x10,
        0x32,
        &component_fields(alloc, component, id)?,
    );
    for column in 0..3u8 {
        let part = id.saturating_add(2).saturating_add(column);
        let fields = column_fields(
            alloc,
            part,
            names[column as usize],
            start,
            component,
            column,
        )?;
        put_record(image, part, 0x08, 0x33, &fields);
    }
    Ok(())
}

/// The volumes R, of the partitions p1, p2 and p3, and T, of p4, p2 and p5.
pub(crate) fn put_arrays(alloc: Global, image: &mut Vec<u8>) -> Result<(), Fail> {
    put_array(alloc, image, 8, b'R', 0, b"123")?;
    put_array(alloc, image, 13, b'T', 8, b"425")
}
