//! The records of a usual group: a table of them, and each as it is spelled.

use ldm_bytes::{NoMemory, number_len, put_number, write_guid};
use ldm_sample_disks::guid_with;
use std::alloc::Global;

/// A record as it is spelled, with 8 bytes for its type and length before its fields.
#[derive(Drop)]
pub(crate) struct Payload {
    pub bytes: Vec<u8>,
}

/// A field of a record.
#[derive(Clone, Copy)]
enum Field<'a> {
    /// These bytes.
    Plain(&'a [u8]),
    /// This byte.
    Byte(u8),
    /// A number in eight bytes, high byte first.
    Fixed(u64),
    /// These bytes, behind their count.
    Text(&'a [u8]),
    /// The bytes of a number, behind their count.
    Number(u64),
    /// The text of a GUID, behind its length.
    Guid(u128),
}

fn push_text(bytes: &mut Vec<u8>, text: &[u8]) -> Result<(), NoMemory> {
    bytes.push((text.len() & 0xFF) as u8)?;
    bytes.extend_from_slice(text)?;
    Ok(())
}

fn push_number(bytes: &mut Vec<u8>, value: u64) -> Result<(), NoMemory> {
    let mut buf = [0u8; 9];
    let len = number_len(value);
    put_number(&mut buf, 0, value);
    bytes.extend_from_slice(&buf[..len])?;
    Ok(())
}

fn push_guid(bytes: &mut Vec<u8>, guid: u128) -> Result<(), NoMemory> {
    let mut text = [0; 36];
    write_guid(guid, &mut text);
    push_text(bytes, &text)
}

fn push_field(bytes: &mut Vec<u8>, field: Field) -> Result<(), NoMemory> {
    match field {
        Field::Plain(plain) => Ok(bytes.extend_from_slice(plain)?),
        Field::Byte(byte) => Ok(bytes.push(byte)?),
        Field::Fixed(value) => Ok(bytes.extend_from_slice(&value.to_be_bytes())?),
        Field::Text(text) => push_text(bytes, text),
        Field::Number(value) => push_number(bytes, value),
        Field::Guid(guid) => push_guid(bytes, guid),
    }
}

fn push_fields(bytes: &mut Vec<u8>, fields: &[Field]) -> Result<(), NoMemory> {
    for field in fields {
        push_field(bytes, *field)?;
    }
    Ok(())
}

/// A record of this type with these flags: the fields that each record begins with, and its own.
fn payload_of(
    alloc: Global,
    kind: u8,
    flags: u8,
    head: &[Field],
    own: &[Field],
) -> Result<Payload, NoMemory> {
    let mut bytes = Vec::new(alloc);
    bytes.extend_from_slice(&[0, 0, flags, kind, 0, 0, 0, 0])?;
    push_fields(&mut bytes, head)?;
    push_fields(&mut bytes, own)?;
    Ok(Payload { bytes })
}

/// What a record has besides its id and its name. Sizes and places are in sectors.
#[derive(Clone, Copy)]
enum Rest {
    /// The group, whose GUID is number 0xA of the sample.
    Group,
    /// A disk: the number of its GUID in the sample, below 16.
    Disk(u8),
    /// A volume: how many components it has, its size, the byte that its GUID has 16 times, and its
    /// drive letter, if it isn't empty.
    Volume(u64, u64, u8, &'static [u8]),
    /// A component: its volume, how many partitions it has, and the chunk and the count of columns
    /// of a stripe, as they are spelled; of others nothing.
    Component(u64, u64, &'static [u8]),
    /// A partition: its component, its disk, where it begins in the disk's data, its size, its
    /// offset in the component, and the index of a column, as it is spelled; of others nothing.
    Partition(u64, u64, u64, u64, u64, &'static [u8]),
}

/// The records, in the order of their ids: the group and its three disks, a simple volume, a
/// spanned, a striped and a mirrored one.
const RECORDS: [(u64, &[u8], Rest); 20] = [
    (1, b"Dg0", Rest::Group),
    (1025, b"Disk1", Rest::Disk(1)),
    (1026, b"Disk2", Rest::Disk(2)),
    (1027, b"Disk3", Rest::Disk(3)),
    (1028, b"Volume1", Rest::Volume(1, 1000, 0x55, b"E:")),
    (1029, b"Volume1-01", Rest::Component(1028, 1, b"")),
    (
        1030,
        b"Disk1-01",
        Rest::Partition(1029, 1025, 0, 1000, 0, b""),
    ),
    (1031, b"Volume2", Rest::Volume(1, 1500, 0x66, b"")),
    (1032, b"Volume2-01", Rest::Component(1031, 2, b"")),
    (
        1033,
        b"Disk1-02",
        Rest::Partition(1032, 1025, 1000, 500, 0, b""),
    ),
    (
        1034,
        b"Disk2-01",
        Rest::Partition(1032, 1026, 0, 1000, 500, b""),
    ),
    (1035, b"Stripe1", Rest::Volume(1, 1024, 0x77, b"")),
    (
        1036,
        b"Stripe1-01",
        Rest::Component(1035, 2, &[1, 128, 1, 2]),
    ),
    (
        1037,
        b"Disk2-02",
        Rest::Partition(1036, 1026, 1000, 512, 0, &[1, 0]),
    ),
    (
        1038,
        b"Disk3-01",
        Rest::Partition(1036, 1027, 0, 512, 0, &[1, 1]),
    ),
    (1039, b"Mirror1", Rest::Volume(2, 700, 0x88, b"")),
    (1040, b"Mirror1-01", Rest::Component(1039, 1, b"")),
    (
        1041,
        b"Disk1-03",
        Rest::Partition(1040, 1025, 1500, 700, 0, b""),
    ),
    (1042, b"Mirror1-02", Rest::Component(1039, 1, b"")),
    (
        1043,
        b"Disk3-02",
        Rest::Partition(1042, 1027, 512, 700, 0, b""),
    ),
];

// Volume, component or partition: what each has behind its id and its name.

fn volume_of(
    alloc: Global,
    head: &[Field],
    (components, size, guid): (u64, u64, u8),
    hint: &[u8],
) -> Result<Payload, NoMemory> {
    let (flags, hint) = if hint.is_empty() {
        (0, Field::Plain(hint))
    } else {
        (0x02, Field::Text(hint))
    };
    let fields = [
        Field::Text(b"gen"),
        Field::Plain(b"\0ACTIVE\0\0\0\0\0\0\0\0\x03\0\0\0\0\0\0"),
        Field::Number(components),
        Field::Plain(&[0; 16]),
        Field::Number(size),
        Field::Plain(&[0, 0, 0, 0, 0x07]),
        Field::Plain(&[guid; 16]),
        hint,
    ];
    payload_of(alloc, 0x51, flags, head, &fields)
}

fn component_of(
    alloc: Global,
    head: &[Field],
    volume: u64,
    partitions: u64,
    striping: &[u8],
) -> Result<Payload, NoMemory> {
    let (flags, layout) = if striping.is_empty() {
        (0, 2)
    } else {
        (0x10, 1)
    };
    let fields = [
        Field::Text(b"ACTIVE"),
        Field::Byte(layout),
        Field::Plain(&[0; 4]),
        Field::Number(partitions),
        Field::Plain(&[0; 16]),
        Field::Number(volume),
        Field::Plain(&[0]),
        Field::Plain(striping),
    ];
    payload_of(alloc, 0x32, flags, head, &fields)
}

fn partition_of(
    alloc: Global,
    head: &[Field],
    (component, disk): (u64, u64),
    (start, size, offset): (u64, u64, u64),
    index: &[u8],
) -> Result<Payload, NoMemory> {
    let flags = if index.is_empty() { 0 } else { 0x08 };
    let fields = [
        Field::Plain(&[0; 12]),
        Field::Fixed(start),
        Field::Fixed(offset),
        Field::Number(size),
        Field::Number(component),
        Field::Number(disk),
        Field::Plain(index),
    ];
    payload_of(alloc, 0x33, flags, head, &fields)
}

fn record_of(alloc: Global, id: u64, name: &[u8], rest: Rest) -> Result<Payload, NoMemory> {
    let head = [Field::Number(id), Field::Text(name)];
    match rest {
        Rest::Group => {
            let fields = [Field::Guid(guid_with(0xA)), Field::Plain(&[0; 12])];
            payload_of(alloc, 0x35, 0, &head, &fields)
        }
        Rest::Disk(guid) => {
            let fields = [Field::Guid(guid_with(guid & 0xF)), Field::Plain(&[0; 13])];
            payload_of(alloc, 0x34, 0, &head, &fields)
        }
        Rest::Volume(components, size, guid, hint) => {
            volume_of(alloc, &head, (components, size, guid), hint)
        }
        Rest::Component(volume, partitions, striping) => {
            component_of(alloc, &head, volume, partitions, striping)
        }
        Rest::Partition(component, disk, start, size, offset, index) => {
            partition_of(
                alloc,
                &head,
                (component, disk),
                (start, size, offset),
                index,
            )
        }
    }
}

/// The records, each as it is spelled.
pub(crate) fn payloads(alloc: Global) -> Result<Vec<Payload>, NoMemory> {
    let mut payloads = Vec::new(alloc);
    for (id, name, rest) in &RECORDS {
        payloads.push(record_of(alloc, *id, name, *rest)?)?;
    }
    Ok(payloads)
}
