//! What is wrong with an image: its label, or its copy of the database.
use crate::saying::path_line;
use ldm_bytes::{NoMemory, get_u16, get_u64};
use ldm_copy::CopyFault;
use ldm_frags::FragFault;
use ldm_label::{LabelFault, is_protective};
use ldm_payloads::RecordFault;
use ldm_text::Text;
use ldm_vmdb::VmdbFault;
use std::alloc::Global;

/// What is read of an image to say what is wrong with its label. What can't be read is zeros.
#[derive(Drop)]
pub struct Glimpse {
    pub sectors: u64,
    /// Sector 0.
    pub mbr: [u8; 512],
    /// Sector 6.
    pub head: [u8; 512],
}

const NONE: [u64; 3] = [0, 0, 0];

// What is said of an image without an LDM disk's entry in its MBR, by the type of the first entry.
fn entry_said(first: u8) -> (&'static str, [u64; 3]) {
    match first {
        0 => (
            "% is no dynamic disk: the first entry of its MBR is empty, and none has the type 0x42",
            NONE,
        ),
        0x07 => (
            "% is a basic disk: the first entry of its MBR has the type 0x07, and none has 0x42",
            NONE,
        ),
        _ => (
            "% is no dynamic disk: the first entry of its MBR has the type % (in decimal), and none has 0x42",
            [u64::from(first), 0, 0],
        ),
    }
}

// What is said of an image whose private header says areas that don't fit.
fn range_said(sectors: u64, head: &[u8; 512]) -> (&'static str, [u64; 3]) {
    let database = get_u64(head, 0x12B);
    let need = database.saturating_add(2048);
    if sectors < need {
        return (
            "% has % sectors, its label needs %: is its end missing?",
            [sectors, need, 0],
        );
    }
    let (start, size) = (get_u64(head, 0x11B), get_u64(head, 0x123));
    (
        "the private header of % says data %+% and a database at %, which don't fit",
        [start, size, database],
    )
}

// What is said of an image with a private header that ldm doesn't read.
fn version_said(head: &[u8; 512]) -> (&'static str, [u64; 3]) {
    let (major, minor) = (get_u16(head, 0x0C), get_u16(head, 0x0E));
    (
        "the private header of % has the version %.%, and ldm reads 2.11 and 2.12",
        [u64::from(major), u64::from(minor), 0],
    )
}

// What is said of an image whose GPT has this fault.
fn gpt_said(fault: LabelFault) -> Option<&'static str> {
    match fault {
        LabelFault::NoGpt => Some(
            "the MBR of % is that of a GPT disk, and sector 1 is no GPT header (EFI PART): was it overwritten?",
        ),
        LabelFault::GptSize => Some("the GPT header of % has a size that ldm doesn't read"),
        LabelFault::GptChecksum => Some("the checksum of the GPT header of % is wrong"),
        LabelFault::GptEntries => {
            Some("the GPT of % has entries that don't have 128 bytes, or more than 1024")
        }
        LabelFault::GptRange => {
            Some("the GPT header of % says sectors that don't fit the disk: is its end missing?")
        }
        LabelFault::EntriesChecksum => Some("the checksum of the entries of the GPT of % is wrong"),
        LabelFault::NoMetadata => {
            Some("% is a basic GPT disk: its GPT has no LDM metadata partition")
        }
        LabelFault::MetadataSize => {
            Some("the LDM metadata partition of % doesn't have 2048 sectors")
        }
        LabelFault::MetadataRange => {
            Some("the LDM metadata partition of % isn't in the usable sectors of its GPT")
        }
        _ => None,
    }
}

// What is said of a GPT disk whose private header, in the last sector of the LDM metadata
// partition, has this fault.
fn header_on_gpt_said(fault: LabelFault) -> Option<&'static str> {
    match fault {
        LabelFault::NoPrivhead => Some(
            "the last sector of the LDM metadata partition of % is no private header (PRIVHEAD): was it overwritten?",
        ),
        LabelFault::Version => {
            Some(
                "the private header of % has a version that ldm doesn't read; it reads 2.11 and 2.12",
            )
        }
        LabelFault::DatabaseSize => {
            Some("the private header of % says a database that doesn't have 2048 sectors")
        }
        LabelFault::Range => {
            Some("the private header of % says data and a database that don't fit the GPT")
        }
        _ => None,
    }
}

// What is said of an image without a label, where its path and three numbers stand.
fn label_said(glimpse: &Glimpse, fault: LabelFault) -> (&'static str, [u64; 3]) {
    if let Some(said) = gpt_said(fault) {
        return (said, NONE);
    }
    if is_protective(&glimpse.mbr) {
        if let Some(said) = header_on_gpt_said(fault) {
            return (said, NONE);
        }
    }
    mbr_label_said(glimpse, fault)
}

// What is said of an MBR disk without a label, and of faults that any disk may have.
fn mbr_label_said(glimpse: &Glimpse, fault: LabelFault) -> (&'static str, [u64; 3]) {
    let (sectors, head) = (glimpse.sectors, &glimpse.head);
    match fault {
        LabelFault::Short => (
            "% has % sectors, and a disk has more: is it the image of a disk?",
            [sectors, 0, 0],
        ),
        LabelFault::NoSignature => (
            "sector 0 of % doesn't end with 55 AA, as an MBR does: is it the image of a whole disk?",
            NONE,
        ),
        LabelFault::NoLdmEntry => entry_said(glimpse.mbr[0x1C2]),
        LabelFault::NoPrivhead => (
            "sector 6 of % is no private header (PRIVHEAD): was it overwritten?",
            NONE,
        ),
        LabelFault::Version => version_said(head),
        LabelFault::DatabaseSize => (
            "the private header of % says a database of % sectors, and ldm reads 2048",
            [get_u64(head, 0x133), 0, 0],
        ),
        LabelFault::Range => range_said(sectors, head),
        LabelFault::Guid => ("the private header of % has no GUID of a disk", NONE),
        LabelFault::PrivheadsDiffer(copy) => (
            "the private header of % and its copy % say different things",
            [u64::from(copy), 0, 0],
        ),
        LabelFault::NoToc => ("none of the four tables of contents of % reads", NONE),
        LabelFault::TocsDiffer => ("two tables of contents of % say different things", NONE),
        LabelFault::TocRange => (
            "the table of contents of % says an area that is empty or ends behind the database",
            NONE,
        ),
        LabelFault::NoGpt
        | LabelFault::GptSize
        | LabelFault::GptChecksum
        | LabelFault::GptEntries
        | LabelFault::GptRange
        | LabelFault::EntriesChecksum
        | LabelFault::NoMetadata
        | LabelFault::MetadataSize
        | LabelFault::MetadataRange => ("the GPT of % can't be used", NONE),
    }
}

// What is said of an image whose database has a header with this fault.
fn header_said(fault: VmdbFault) -> &'static str {
    match fault {
        VmdbFault::Magic => "the header of the database on % doesn't begin with VMDB",
        VmdbFault::Version => "the header of the database on % hasn't the version 4.10",
        VmdbFault::BlockSize =>
            "the header of the database on % says blocks that don't have 128 bytes",
        VmdbFault::Offset =>
            "the header of the database on % says a first block that isn't at byte 512",
        VmdbFault::Unsettled => "an update of the database on % was begun and not ended",
        VmdbFault::Last =>
            "the header of the database on % says a last block behind the config area",
        VmdbFault::Guid => "the header of the database on % has no GUID of a group",
    }
}

// What is said of an image with a fault in a block, and the block.
fn block_said(fault: FragFault) -> (&'static str, u32) {
    match fault {
        FragFault::NoMagic(block) => ("%: block % of its database doesn't begin with VBLK", block),
        FragFault::Parts(block) => (
            "%: block % of its database is of a record of more than 4 parts",
            block,
        ),
        FragFault::Part(block) => (
            "%: block % of its database is a part that its record doesn't have",
            block,
        ),
        FragFault::Mixed(block) => (
            "%: block % of its database says another number of parts than one before it",
            block,
        ),
        FragFault::Repeated(block) => (
            "%: block % of its database is the same part as one before it",
            block,
        ),
        FragFault::Missing(block) => (
            "%: block % of its database is of a record that lacks a part",
            block,
        ),
    }
}

// What is said of an image whose copy has a fault, and the number that stands in it.
fn copy_said(fault: CopyFault) -> (&'static str, u64) {
    match fault {
        CopyFault::Vmdb(fault) => (header_said(fault), 0),
        CopyFault::Frag(fault) => {
            let (said, block) = block_said(fault);
            (said, u64::from(block))
        }
        CopyFault::BadRecord(block, RecordFault::UnknownType(_)) => (
            "%: the record at block % of its database has a type that ldm doesn't read",
            u64::from(block),
        ),
        CopyFault::BadRecord(block, RecordFault::Malformed) => (
            "%: block % of its database holds no record of its type",
            u64::from(block),
        ),
        CopyFault::SameId { kind: _, id } => ("%: two records of its database have the id %", id),
    }
}

/// Why an image of which this is read has no label.
pub fn label_line(
    alloc: Global,
    names: &[String],
    image: usize,
    glimpse: &Glimpse,
    fault: LabelFault,
) -> Result<Text, NoMemory> {
    let (said, numbers) = label_said(glimpse, fault);
    path_line(alloc, names, image, said, numbers)
}

/// Why the copy on an image isn't read.
pub fn copy_line(
    alloc: Global,
    names: &[String],
    image: usize,
    fault: CopyFault,
) -> Result<Text, NoMemory> {
    let (said, number) = copy_said(fault);
    path_line(alloc, names, image, said, [number, 0, 0])
}
