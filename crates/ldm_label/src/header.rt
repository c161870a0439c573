//! Private headers (PRIVHEAD).
ghost use Rattle.std.specs.Prelude.{◌≡◌, ◌+◌, ◌<◌, IfOk};
ghost use Rattle.ldm_label.specs.Answer.{answer};
ghost use Rattle.ldm_label.specs.Fields.{is_privhead, has_version, header_of, is_out_of_range};
ghost use Rattle.ldm_label.specs.Fields.{disk_guid, is_out_of_mbr, is_out_of_gpt};
ghost use Rattle.ldm_label.specs.Fields.{same_header};
ghost use Rattle.ldm_label.specs.LabelOf.{header_faults, differs, table_style};
ghost use Rattle.ldm_label.specs.GoodCopies.{header_values, is_whole_header, is_good_header};
ghost use Rattle.ldm_label.specs.Parts.{TableFits, HeaderFits};

use crate::gpt::GptBounds;
use crate::sectors::has_text;
use crate::table::Table;
use crate::{Label, LabelFault};
use ldm_bytes::{get_u16, get_u64, read_guid};

/// The values of a private header. Starts and sizes are in sectors of the disk.
#[derive(Clone, Copy)]
pub struct PrivateHeader {
    pub disk_guid: u128,
    pub minor: u16,
    pub data_start: u64,
    pub data_size: u64,
    pub config_start: u64,
}

#[tactic(auto, unfolding(crate::specs::Fields::is_privhead))]
fn begins_privhead(head: &[u8; 512]) -> bool
    ensures { result ≡ is_privhead head.now }
{
    has_text(head, 0, b"PRIVHEAD")
}

#[tactic(auto, unfolding(crate::specs::Fields::has_version))]
fn has_known_version(head: &[u8; 512]) -> bool
    ensures { result ≡ has_version head.now }
{
    let minor = get_u16(head, 0x0E);
    get_u16(head, 0x0C) == 2 && (minor == 11 || minor == 12)
}

fn exceeds(header: &PrivateHeader, table: &Table, sectors: u64) -> bool
    ensures { result ≡ is_out_of_range header.now table.now sectors }
{
    match table {
        Table::Mbr => exceeds_mbr(header, sectors),
        Table::Gpt(bounds) => exceeds_gpt(header, bounds),
    }
}

#[tactic(auto, unfolding(crate::specs::Fields::is_out_of_mbr))]
fn exceeds_mbr(header: &PrivateHeader, sectors: u64) -> bool
    ensures { result ≡ is_out_of_mbr header.now sectors }
{
    let data_end = u128::from(header.data_start) + u128::from(header.data_size);
    let config_start = u128::from(header.config_start);
    header.data_size == 0
        || config_start < data_end
        || config_start < 7
        || u128::from(sectors) < config_start + 2048
}

#[tactic(auto, unfolding(crate::specs::Fields::is_out_of_gpt))]
fn exceeds_gpt(header: &PrivateHeader, bounds: &GptBounds) -> bool
    ensures { result ≡ is_out_of_gpt header.now bounds.now }
{
    let data_start = u128::from(header.data_start);
    let data_end = data_start + u128::from(header.data_size);
    let config_start = u128::from(header.config_start);
    header.data_size == 0
        || header.config_start != bounds.metadata
        || header.data_start < bounds.first_usable
        || u128::from(bounds.last_usable) + 1 < data_end
        || (config_start < data_end && data_start < config_start + 2048)
}

#[tactic(auto, unfolding(crate::specs::Fields::same_header))]
fn agree(a: &PrivateHeader, b: &PrivateHeader) -> bool
    ensures { result ≡ same_header a.now b.now }
{
    a.disk_guid == b.disk_guid
        && a.minor == b.minor
        && a.data_start == b.data_start
        && a.data_size == b.data_size
        && a.config_start == b.config_start
}

fn read_disk_guid(head: &[u8; 512]) -> Option<u128>
    ensures { result ≡ disk_guid head.now }
{
    read_guid(&head[0x30..0x54])
}

#[tactic(auto, unfolding(crate::specs::GoodCopies::is_whole_header))]
fn is_whole(head: &[u8; 512]) -> bool
    ensures { result ≡ is_whole_header head.now }
{
    begins_privhead(head)
        && has_known_version(head)
        && get_u64(head, 0x133) == 2048
        && read_disk_guid(head).is_some()
}

impl PrivateHeader {
    // The values in a sector, whatever it is.
    fn of(head: &[u8; 512]) -> PrivateHeader
        ensures { result ≡ header_of head.now }
    {
        PrivateHeader {
            disk_guid: read_disk_guid(head).unwrap_or(0),
            minor: get_u16(head, 0x0E),
            data_start: get_u64(head, 0x11B),
            data_size: get_u64(head, 0x123),
            config_start: get_u64(head, 0x12B),
        }
    }

    // What a private header says on a disk with this label.
    fn of_label(label: &Label) -> PrivateHeader
        ensures { result ≡ header_values label.now }
    {
        PrivateHeader {
            disk_guid: label.disk_guid,
            minor: label.minor,
            data_start: label.data_start,
            data_size: label.data_size,
            config_start: label.config_start,
        }
    }

    /// The private header in a sector of a disk with that table of partitions and so many sectors,
    /// or its first fault.
    #[tactic(auto, unfolding(crate::specs::LabelOf::header_faults))]
    pub fn read(head: &[u8; 512], table: &Table, sectors: u64) -> Result<PrivateHeader, LabelFault>
        requires { TableFits table.now sectors }
        ensures is { result
            ≡ answer (header_faults head.now table.now sectors) (header_of head.now) }
        ensures fits { IfOk result (λ header.
            HeaderFits header (table_style table.now) sectors) }
    {
        if !begins_privhead(head) {
            return Err(LabelFault::NoPrivhead);
        }
        if !has_known_version(head) {
            return Err(LabelFault::Version);
        }
        if get_u64(head, 0x133) != 2048 {
            return Err(LabelFault::DatabaseSize);
        }
        let header = PrivateHeader::of(head);
        if exceeds(&header, table, sectors) {
            return Err(LabelFault::Range);
        }
        if read_disk_guid(head).is_none() {
            return Err(LabelFault::Guid);
        }
        Ok(header)
    }

    /// A sector is a private header that says what a label says.
    #[tactic(auto, unfolding(crate::specs::GoodCopies::is_good_header))]
    pub fn is_good(head: &[u8; 512], label: &Label) -> bool
        ensures { result ≡ is_good_header label.now head.now }
    {
        is_whole(head) && agree(&PrivateHeader::of(head), &PrivateHeader::of_label(label))
    }

    /// Another copy is good and has other values.
    #[tactic(auto, unfolding(crate::specs::LabelOf::differs))]
    pub fn differs_from(&self, copy: &[u8; 512], table: &Table, sectors: u64) -> bool
        requires { TableFits table.now sectors }
        ensures { result ≡ differs self.now copy.now table.now sectors }
    {
        match PrivateHeader::read(copy, table, sectors) {
            Ok(other) => !agree(self, &other),
            Err(_) => false,
        }
    }
}
