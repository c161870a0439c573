//! The label of a disk: what its MBR or GPT, its private headers (PRIVHEAD) and its tables of
//! contents (TOCBLOCK) say of the disk and its database, or the first fault that they have.
//!
//! Sectors have 512 bytes. The format's fields are in `specs/Fields.antt` and `specs/Gpt.antt`, the
//! faults in their order in `specs/LabelOf.antt`, the sectors that are written in
//! `specs/Written.antt` and `specs/WrittenGpt.antt`.
#![tactic(auto)]

ghost use Rattle.std.specs.Prelude.{◌≡◌};
ghost use Rattle.ldm_label.specs.declared.LabelError.TheVariants.{Fault, Disk};

mod counting;
mod gpt;
mod header;
mod labels;
mod laws;
mod mbr;
mod present;
mod reading;
mod reading_table;
mod sectors;
mod table;
mod toc;
mod writing;
mod writing_gpt;

pub use counting::{GoodCopies, count_good};
pub use labels::Labels;
pub use laws::{label_is_outside_its_area, written_gpt_reads_back, written_label_reads_back};
use ldm_host::Failed;
pub use mbr::is_protective;
pub use present::{image_with, label_with};
pub use reading::read_label;
pub use sectors::read_sector;
pub use writing::{LabelSectors, label_sectors, write_label};
pub use writing_gpt::{GptSectors, gpt_sectors, write_gpt_label};

/// How a disk is divided into partitions: by an MBR or by a GPT.
#[derive(Clone, Copy, PartialEq, Eq)]
pub enum Style {
    Mbr,
    Gpt,
}

/// What the label of a disk says. `minor` is the version's: 11 or 12. Data and database are in
/// sectors of the disk, the areas in sectors of the database.
#[derive(Clone, Copy, PartialEq, Eq)]
pub struct Label {
    pub style: Style,
    pub disk_guid: u128,
    pub minor: u16,
    pub data_start: u64,
    pub data_size: u64,
    pub config_start: u64,
    pub area_start: u64,
    pub area_sectors: u64,
    pub log_start: u64,
    pub log_sectors: u64,
}

/// A reason why a disk has no label, in the order in which they are looked for.
#[derive(Clone, Copy, PartialEq, Eq)]
pub enum LabelFault {
    /// The image has fewer than 7 sectors.
    Short,
    /// The MBR doesn't end with 55 AA.
    NoSignature,
    /// No entry of the MBR has the type 0x42, and the first not the type 0xEE.
    NoLdmEntry,
    /// Sector 1 of a GPT disk doesn't begin with `EFI PART`.
    NoGpt,
    /// The GPT header has fewer than 92 bytes or more than 512.
    GptSize,
    /// The GPT header doesn't have its checksum.
    GptChecksum,
    /// The entries of the GPT haven't 128 bytes each, or are more than 1024.
    GptEntries,
    /// The GPT header isn't that of sector 1, the entries aren't between it and the usable sectors,
    /// these begin in front of sector 34 or end behind the disk, or there are none.
    GptRange,
    /// The entries of the GPT don't have their checksum.
    EntriesChecksum,
    /// No entry of the GPT has the type of an LDM metadata partition.
    NoMetadata,
    /// The LDM metadata partition hasn't 2048 sectors.
    MetadataSize,
    /// The LDM metadata partition isn't in the usable sectors.
    MetadataRange,
    /// Sector 6, or the last sector of the LDM metadata partition, doesn't begin with `PRIVHEAD`.
    NoPrivhead,
    /// The version of the private header is neither 2.11 nor 2.12.
    Version,
    /// The database hasn't 2048 sectors.
    DatabaseSize,
    /// There are no data, or they meet the database. On an MBR disk: they are behind it, or it isn't
    /// behind the private header or not on the disk. On a GPT disk: it isn't the LDM metadata
    /// partition, or the data aren't in the usable sectors.
    Range,
    /// The disk's GUID is no GUID text.
    Guid,
    /// Copy 2 or 3 of the private header is good and says something else than copy 1.
    PrivheadsDiffer(u8),
    /// None of the four tables of contents parses.
    NoToc,
    /// Two tables of contents that parse say different things.
    TocsDiffer,
    /// The config area is empty, or it or the log area reaches behind the database.
    TocRange,
}

/// Why a label can't be had.
#[derive(Clone, Copy, PartialEq, Eq)]
pub enum LabelError {
    /// The disk has this fault.
    Fault(LabelFault),
    /// A call of the disk failed.
    Disk,
}

impl From<LabelFault> for LabelError {
    ghost from_gives = { λ fault error. error ≡ Fault fault };

    fn from(fault: LabelFault) -> LabelError {
        LabelError::Fault(fault)
    }
}

impl From<Failed> for LabelError {
    ghost from_gives = { λ _ error. error ≡ Disk };

    fn from(_failed: Failed) -> LabelError {
        LabelError::Disk
    }
}
