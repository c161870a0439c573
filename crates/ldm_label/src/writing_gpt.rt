//! The label of a GPT disk, as it is written.
ghost use Rattle.std.specs.Prelude.{◌≡◌, ◌+◌, ◌-◌, ◌*◌, ◌≤◌, ◌<◌, ◌^◌, length, min, Ok};
ghost use Rattle.byteorder.specs.Endian.{little_bytes};
ghost use Rattle.ldm_bytes.specs.Places.{put, put_each};
ghost use Rattle.ldm_crc32.specs.Crc32.{crc32};
ghost use Rattle.ldm_label.specs.Fields.{sectors_of};
ghost use Rattle.ldm_label.specs.LabelOf.{label_of, Fits};
ghost use Rattle.ldm_label.specs.WrittenGpt.{written_protective, guid_bytes, drawn_guid};
ghost use Rattle.ldm_label.specs.WrittenGpt.{entry_fields, written_entries, written_gpt};
ghost use Rattle.ldm_label.specs.WrittenGpt.{with_checksum, written_tables, gpt_parts};
ghost use Rattle.ldm_label.specs.WrittenGpt.{HasParts};
ghost use Rattle.ldm_label.specs.WrittenGpt.{SameOutsideParts, IsGptWritable};

use crate::Label;
use crate::gpt::METADATA;
use crate::writing::label_sectors;
use byteorder::{ByteOrder, LittleEndian};
use ldm_bytes::put_bytes;
use ldm_crc32::Crc32;
use uuid::Uuid;

// The type of a Microsoft reserved partition.
const RESERVED: u128 = 0xe3c9_e316_0b5c_4db8_817d_f92d_f002_15ae;

// The type of an LDM data partition.
const DATA: u128 = 0xaf9b_60a0_1431_4f62_bc68_3311_714a_69ad;

// The lowest bit of the first digit of the third group of a GUID.
const DRAWN: u128 = 0x1000_0000_0000_0000_0000;

fn put_le32(bytes: &mut [u8], at: usize, v: u32)
    requires { at + 4 ≤ length bytes.old }
    ensures { bytes.new ≡ put bytes.old at (little_bytes 4 v) }
{
    let mut number = [0u8; 4];
    LittleEndian::write_u32(&mut number, v);
    put_bytes(bytes, at, &number);
}

fn put_le64(bytes: &mut [u8], at: usize, v: u64)
    requires { at + 8 ≤ length bytes.old }
    ensures { bytes.new ≡ put bytes.old at (little_bytes 8 v) }
{
    let mut number = [0u8; 8];
    LittleEndian::write_u64(&mut number, v);
    put_bytes(bytes, at, &number);
}

fn put_mixed_guid(bytes: &mut [u8], at: usize, guid: u128)
    requires { at + 16 ≤ length bytes.old }
    ensures { bytes.new ≡ put bytes.old at (guid_bytes guid) }
{
    put_bytes(bytes, at, &Uuid::from_u128(guid).to_bytes_le());
}

// A GUID of the GPT of a disk: 1 its own, 2 to 4 those of its partitions.
fn drawn_guid(label: &Label, k: u8) -> u128
    requires { k ≤ 4 }
    ensures { result ≡ drawn_guid label.now k }
{
    label.disk_guid ^ (u128::from(k) * DRAWN)
}

// An entry of a GPT.
#[derive(Clone, Copy)]
struct Entry {
    type_guid: u128,
    guid: u128,
    first: u64,
    last: u64,
}

fn put_entry(entries: &mut [u8; 16384], at: usize, entry: &Entry, name: &[u8])
    requires room { at + 128 ≤ 16384 }
    requires name { length name.now ≤ 72 }
    ensures { entries.new ≡ put_each entries.old (entry_fields at (entry.now).type_guid
        (entry.now).guid (entry.now).first (entry.now).last name.now) }
{
    put_mixed_guid(entries, at, entry.type_guid);
    put_mixed_guid(entries, at + 16, entry.guid);
    put_le64(entries, at + 32, entry.first);
    put_le64(entries, at + 40, entry.last);
    put_bytes(entries, at + 56, name);
}

// The entries of the three partitions.
fn entries_of(label: &Label, sectors: u64) -> [u8; 16384]
    requires fits { Fits label.now sectors }
    requires writable { IsGptWritable label.now sectors }
    ensures { result ≡ written_entries label.now }
{
    let mut entries = [0u8; 16384];
    let metadata = Entry {
        type_guid: METADATA,
        guid: drawn_guid(label, 2),
        first: label.config_start,
        last: label.config_start + 2047,
    };
    let reserved = Entry {
        type_guid: RESERVED,
        guid: drawn_guid(label, 3),
        first: label.config_start + 2048,
        last: label.data_start - 1,
    };
    let data = Entry {
        type_guid: DATA,
        guid: drawn_guid(label, 4),
        first: label.data_start,
        last: label.data_start + label.data_size - 1,
    };
    put_entry(
        &mut entries,
        0,
        &metadata,
        b"L\0D\0M\0 \0m\0e\0t\0a\0d\0a\0t\0a\0 \0p\0a\0r\0t\0i\0t\0i\0o\0n\0",
    );
    put_entry(
        &mut entries,
        128,
        &reserved,
        b"M\0i\0c\0r\0o\0s\0o\0f\0t\0 \0r\0e\0s\0e\0r\0v\0e\0d\0 \0p\0a\0r\0t\0i\0t\0i\0o\0n\0",
    );
    put_entry(
        &mut entries,
        256,
        &data,
        b"L\0D\0M\0 \0d\0a\0t\0a\0 \0p\0a\0r\0t\0i\0t\0i\0o\0n\0",
    );
    entries
}

fn crc_of(bytes: &[u8]) -> u32
    ensures { result ≡ crc32 bytes.now }
{
    let mut crc = Crc32::new();
    crc.update(bytes);
    crc.value()
}

// Where a header is, where the other one, and where its entries begin.
#[derive(Clone, Copy)]
struct GptPlace {
    own: u64,
    other: u64,
    entries: u64,
}

// A GPT header of a disk of so many sectors, with the checksum of its entries.
fn gpt_sector(label: &Label, sectors: u64, place: &GptPlace, checksum: u32) -> [u8; 512]
    requires some { 34 ≤ sectors }
    requires checksum { checksum ≡ crc32 (written_entries label.now) }
    ensures { result ≡ written_gpt label.now sectors (place.now).own (place.now).other
        (place.now).entries }
{
    let mut sector = [0u8; 512];
    put_bytes(&mut sector, 0x00, b"EFI PART");
    put_le32(&mut sector, 0x08, 0x0001_0000);
    put_le32(&mut sector, 0x0C, 92);
    put_le64(&mut sector, 0x18, place.own);
    put_le64(&mut sector, 0x20, place.other);
    put_le64(&mut sector, 0x28, 34);
    put_le64(&mut sector, 0x30, sectors - 34);
    put_mixed_guid(&mut sector, 0x38, drawn_guid(label, 1));
    put_le64(&mut sector, 0x48, place.entries);
    put_le32(&mut sector, 0x50, 128);
    put_le32(&mut sector, 0x54, 128);
    put_le32(&mut sector, 0x58, checksum);
    put_checksum(&mut sector);
    sector
}

fn put_checksum(head: &mut [u8; 512])
    ensures { head.new ≡ with_checksum head.old }
{
    let checksum = crc_of(&head[0..92]);
    put_le32(head, 0x10, checksum);
}

// A number of sectors, as far as 32 bits count them.
fn counted(sectors: u64) -> u32
    ensures { result ≡ min sectors (2 ^ 32 - 1) }
{
    if sectors > 0xFFFF_FFFF {
        0xFFFF_FFFF
    } else {
        sectors as u32
    }
}

fn protective_sector(sectors: u64) -> [u8; 512]
    requires { 1 ≤ sectors }
    ensures { result ≡ written_protective sectors }
{
    let mut sector = [0u8; 512];
    put_bytes(&mut sector, 0x1BF, &[0x00, 0x02, 0x00]);
    put_bytes(&mut sector, 0x1C2, &[0xEE, 0xFF, 0xFF, 0xFF]);
    put_le32(&mut sector, 0x1C6, 1);
    put_le32(&mut sector, 0x1CA, counted(sectors - 1));
    put_bytes(&mut sector, 0x1FE, &[0x55, 0xAA]);
    sector
}

/// What is written of the tables of partitions of a GPT disk.
#[derive(Drop)]
pub struct GptSectors {
    /// The protective MBR, in sector 0.
    pub protective: [u8; 512],
    /// The header of the primary GPT, in sector 1.
    pub primary: [u8; 512],
    /// The entries, from sector 2 on, and in the 32 sectors in front of the last.
    pub entries: [u8; 16384],
    /// The header of the backup GPT, in the last sector.
    pub backup: [u8; 512],
}

/// The tables of partitions that are written for a label on a GPT disk of so many sectors. It takes
/// no memory.
pub fn gpt_sectors(label: &Label, sectors: u64) -> GptSectors
    requires fits { Fits label.now sectors }
    requires writable { IsGptWritable label.now sectors }
    ensures { result ≡ written_tables label.now sectors }
{
    let entries = entries_of(label, sectors);
    let checksum = crc_of(&entries);
    let primary = GptPlace {
        own: 1,
        other: sectors - 1,
        entries: 2,
    };
    let backup = GptPlace {
        own: sectors - 1,
        other: 1,
        entries: sectors - 33,
    };
    GptSectors {
        protective: protective_sector(sectors),
        primary: gpt_sector(label, sectors, &primary, checksum),
        entries,
        backup: gpt_sector(label, sectors, &backup, checksum),
    }
}

fn put_at(image: &mut [u8], at: u64, bytes: &[u8])
    requires { 512 * at + length bytes.now ≤ length image.old }
    ensures { image.new ≡ put image.old (512 * at) bytes.now }
{
    put_bytes(image, 512 * at as usize, bytes);
}

/// Writes the label of a GPT disk to an image that it fits. All other bytes stay. It takes no
/// memory.
pub fn write_gpt_label(image: &mut [u8], label: &Label)
    requires fits { Fits label.now (sectors_of image.old) }
    requires writable { IsGptWritable label.now (sectors_of image.old) }
    ensures written { HasParts (gpt_parts label.now (sectors_of image.old)) image.new }
    ensures reads_back { label_of image.new ≡ Ok label.now }
    ensures stays { SameOutsideParts (gpt_parts label.now (sectors_of image.old)) image.old
        image.new }
{
    let count = image.len() as u64 / 512;
    let tables = gpt_sectors(label, count);
    let sectors = label_sectors(label);
    let start = label.config_start;
    put_at(image, 0, &tables.protective);
    put_at(image, 1, &tables.primary);
    put_at(image, 2, &tables.entries);
    put_at(image, start + 1, &sectors.toc);
    put_at(image, start + 2, &sectors.toc);
    put_at(image, start + 1856, &sectors.header);
    put_at(image, start + 2045, &sectors.toc);
    put_at(image, start + 2046, &sectors.toc);
    put_at(image, start + 2047, &sectors.header);
    put_at(image, count - 33, &tables.entries);
    put_at(image, count - 1, &tables.backup);
}
