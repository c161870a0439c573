//! Rows of the tests: records, databases and hosts from short texts.
use ldm_bytes::{put_bytes, put_u16, put_u32, put_u64};
use ldm_group::{Db, DbError, id_of, kind_of};
use ldm_memory::MemoryHost;
use ldm_payloads::read_record;
use ldm_records::Record;
use ldm_vectors::sample_images;
use ldm_vmdb::{Header, read_header};
use std::alloc::Global;
use std::test::Fail;

// The header of a group `Dg0` at sequence 0.
fn header(alloc: Global, last: u32) -> Result<Header, Fail> {
    let mut sector = [0u8; 512];
    put_bytes(&mut sector, 0, b"VMDB");
    put_u32(&mut sector, 0x04, last);
    put_u32(&mut sector, 0x08, 128);
    put_u32(&mut sector, 0x0C, 512);
    put_u16(&mut sector, 0x10, 1);
    put_u16(&mut sector, 0x12, 4);
    put_u16(&mut sector, 0x14, 10);
    put_bytes(&mut sector, 0x16, b"Dg0");
    put_bytes(&mut sector, 0x35, b"aaaaaaaa-aaaa-aaaa-aaaa-aaaaaaaaaaaa");
    read_header(alloc, &sector, 1481).map_err(|_| Fail::from("no header"))
}

// A start of 255 stands for 2^64 - 1, and 254 for 2^64 - 2.
fn start_of(start: u8) -> u64 {
    match start {
        255 => 0xFFFF_FFFF_FFFF_FFFF,
        254 => 0xFFFF_FFFF_FFFF_FFFE,
        _ => u64::from(start),
    }
}

// A kind, an id and a name of one byte. Then, of a disk: its GUID; of a volume: its children number
// and size; of a component: its children number, volume and layout, and its chunk and columns if
// the latter isn't 0; of a partition: its start, size, component, disk and offset, and its index
// plus 1 if it has one.
pub(crate) type Row = [u8; 9];

// Puts the body of a component, and answers its flags and length.
fn put_component(payload: &mut [u8; 76], row: &Row) -> (u8, u8) {
    payload[13] = row[5];
    put_bytes(payload, 18, &[1, row[3]]);
    put_bytes(payload, 36, &[1, row[4]]);
    if row[7] == 0 {
        return (0, 31);
    }
    put_bytes(payload, 39, &[1, row[6], 1, row[7]]);
    (0x10, 35)
}

// Puts the body of a partition, and answers its flags and length.
fn put_partition(payload: &mut [u8; 76], row: &Row) -> (u8, u8) {
    put_u64(payload, 24, start_of(row[3]));
    put_u64(payload, 32, u64::from(row[7]));
    put_bytes(payload, 40, &[1, row[4], 1, row[5], 1, row[6]]);
    if row[8] == 0 {
        return (0, 38);
    }
    put_bytes(payload, 46, &[1, row[8] - 1]);
    (0x08, 40)
}

// The payload of a record, with filling.
pub(crate) fn payload_of(row: &Row) -> [u8; 76] {
    let mut payload = [0u8; 76];
    put_bytes(&mut payload, 8, &[1, row[1], 1, row[2]]);
    let (code, (flags, len)) = match row[0] {
        1 => (0x45, (0, 48)),
        2 => {
            payload[27] = row[3];
            (0x44, (0, 49))
        }
        3 => {
            put_bytes(&mut payload, 35, &[1, row[3]]);
            put_bytes(&mut payload, 53, &[1, row[4]]);
            (0x51, (0, 68))
        }
        4 => (0x32, put_component(&mut payload, row)),
        _ => (0x33, put_partition(&mut payload, row)),
    };
    payload[2] = flags;
    payload[3] = code;
    payload[7] = len;
    payload
}

// The row of a word: its numbers, with points between them, and zeros behind them.
pub(crate) fn row_of(word: &str) -> Row {
    let mut row = [0u8; 9];
    let mut place: usize = 0;
    for byte in word.as_bytes() {
        if *byte == b'.' {
            place = place.saturating_add(1);
        } else if place < row.len() {
            let digit = byte.wrapping_sub(b'0');
            row[place] = row[place].wrapping_mul(10).wrapping_add(digit);
        }
    }
    row
}

// The records of the words of a text.
fn records_of(alloc: Global, text: &str) -> Result<Vec<Record>, Fail> {
    let mut records = Vec::new(alloc);
    for word in text.split_whitespace() {
        let record = read_record(alloc, &payload_of(&row_of(word)));
        records.push(record.map_err(|_| Fail::from("no record"))?)?;
    }
    Ok(records)
}

// The database of the records of a text.
pub(crate) fn database(alloc: Global, last: u32, text: &str) -> Result<Db, Fail> {
    let records = records_of(alloc, text)?;
    Db::new(alloc, header(alloc, last)?, records).map_err(|_| Fail::from("no database"))
}

// Why there is no database of the records of a text, if there is none.
pub(crate) fn database_error(alloc: Global, text: &str) -> Result<Option<DbError>, Fail> {
    let records = records_of(alloc, text)?;
    Ok(Db::new(alloc, header(alloc, 64)?, records).err())
}

// The kinds and ids of the records.
pub(crate) fn kinds_of(alloc: Global, db: &Db) -> Result<Vec<(u8, u64)>, Fail> {
    let mut kinds = Vec::new(alloc);
    for r in db.as_slice() {
        kinds.push((kind_of(r), id_of(r)))?;
    }
    Ok(kinds)
}

// Where the config area begins, in bytes: at sector 17 of the database, which begins at sector
// 6144.
const AREA: usize = 512 * (6144 + 17);

// Puts bytes at a place, if they lie in the image.
pub(crate) fn put_at(image: &mut [u8], start: usize, bytes: &[u8]) {
    let end = start.saturating_add(bytes.len());
    if end <= image.len() && start <= end && end - start == bytes.len() {
        image[start..end].copy_from_slice(bytes);
    }
}

// Puts bytes at a place of the config area, if they lie in the image.
pub(crate) fn put(image: &mut [u8], place: usize, bytes: &[u8]) {
    put_at(image, place.saturating_add(AREA), bytes);
}

// Where the tables of contents say the size of the config area: they are at the sectors 1, 2, 2045
// and 2046 of the database.
const AREA_SIZES: [usize; 4] = [
    512 * (6144 + 1) + 0x36,
    512 * (6144 + 2) + 0x36,
    512 * (6144 + 2045) + 0x36,
    512 * (6144 + 2046) + 0x36,
];

// Makes the config area so many sectors long.
pub(crate) fn put_area_size(image: &mut [u8], sectors: u8) {
    for place in AREA_SIZES {
        put_at(image, place, &[0, 0, 0, 0, 0, 0, 0, sectors]);
    }
}

// A host that has the first images of the sample group, with these bytes at these places of the
// config areas of images. The calls with these numbers fail.
pub(crate) fn host_with(
    alloc: Global,
    count: usize,
    changes: &[(usize, usize, &[u8])],
    failing: &[u64],
) -> Result<MemoryHost, Fail> {
    let mut images = sample_images(alloc, 3, 64)?;
    images.truncate(count);
    for (disk, place, bytes) in changes {
        if let Some(image) = images.get_mut(*disk) {
            put(image, *place, bytes);
        }
    }
    let host = MemoryHost::new(alloc, images, Vec::new(alloc))?;
    Ok(host.with_failures(Vec::from_slice(alloc, failing)?))
}
