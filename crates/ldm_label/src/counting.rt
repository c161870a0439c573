//! Counts the private headers and the tables of contents of a disk that are good.
ghost use Rattle.std.specs.Prelude.{◌≡◌, ◌+◌, ◌^◌, ◌<◌, ◌≤◌, length, slice_index, IfOk, IsErr};
ghost use Rattle.ldm_host.specs.Moves.{Looks};
ghost use Rattle.ldm_host.specs.Seen.{image};
ghost use Rattle.ldm_label.specs.Fields.{sector};
ghost use Rattle.ldm_label.specs.LabelOf.{Fits};
ghost use Rattle.ldm_label.specs.GoodCopies.{is_good_header, is_good_table, header_places};
ghost use Rattle.ldm_label.specs.GoodCopies.{good_among, good_headers, good_tables, good_copies};

use crate::header::PrivateHeader;
use crate::sectors::read_sector;
use crate::toc::has_names;
use crate::{Label, Style};
use ldm_host::{Failed, Host};

/// How many of the private headers, three on an MBR disk and two on a GPT disk, and of the four
/// tables of contents of a disk are good.
#[derive(Clone, Copy, PartialEq, Eq)]
pub struct GoodCopies {
    pub headers: u64,
    pub tables: u64,
}

// That a sector has a private header that says what the label says.
fn header_is_good<H: Host>(
    host: &mut H,
    disk: usize,
    at: u64,
    label: &Label,
) -> Result<bool, Failed>
    requires disk { disk < length (H.seen host.old).sizes }
    requires inside { at < slice_index (H.seen host.old).sizes disk }
    requires few { at < 2 ^ 55 }
    ensures is { H.tells_disks → IfOk result (λ good. good
        ≡ is_good_header label.now (sector (image (H.seen host.old).content disk) at)) }
    ensures looks { Looks (H.seen host.old) (H.seen host.new) (IsErr result) }
{
    let head = read_sector(host, disk, at)?;
    Ok(PrivateHeader::is_good(&head, label))
}

// That the table of contents in a sector parses.
#[tactic(auto, unfolding(crate::specs::GoodCopies::is_good_table))]
fn table_is_good<H: Host>(host: &mut H, disk: usize, at: u64) -> Result<bool, Failed>
    requires disk { disk < length (H.seen host.old).sizes }
    requires inside { at < slice_index (H.seen host.old).sizes disk }
    requires few { at < 2 ^ 55 }
    ensures is { H.tells_disks → IfOk result (λ good. good
        ≡ is_good_table (image (H.seen host.old).content disk) at) }
    ensures looks { Looks (H.seen host.old) (H.seen host.new) (IsErr result) }
{
    let table = read_sector(host, disk, at)?;
    Ok(has_names(&table))
}

// How many of the two private headers in the database are good.
fn count_copies<H: Host>(host: &mut H, disk: usize, label: &Label) -> Result<u64, Failed>
    requires disk { disk < length (H.seen host.old).sizes }
    requires inside { label.now.config_start + 2048 ≤ slice_index (H.seen host.old).sizes disk }
    requires few { label.now.config_start + 2048 < 2 ^ 55 }
    ensures is { H.tells_disks → IfOk result (λ count. count
        ≡ good_among (header_places Style.Gpt label.now.config_start) label.now
        (image (H.seen host.old).content disk)) }
    ensures few { IfOk result (λ count. count ≤ 2) }
    ensures looks { Looks (H.seen host.old) (H.seen host.new) (IsErr result) }
{
    let second = header_is_good(host, disk, label.config_start + 1856, label)?;
    let third = header_is_good(host, disk, label.config_start + 2047, label)?;
    Ok(u64::from(second) + u64::from(third))
}

// How many private headers are good.
fn count_headers<H: Host>(host: &mut H, disk: usize, label: &Label) -> Result<u64, Failed>
    requires disk { disk < length (H.seen host.old).sizes }
    requires inside { label.now.config_start + 2048 ≤ slice_index (H.seen host.old).sizes disk }
    requires few { label.now.config_start + 2048 < 2 ^ 55 }
    ensures is { H.tells_disks → IfOk result (λ count. count
        ≡ good_headers label.now (image (H.seen host.old).content disk)) }
    ensures looks { Looks (H.seen host.old) (H.seen host.new) (IsErr result) }
{
    let copies = count_copies(host, disk, label)?;
    match label.style {
        Style::Gpt => Ok(copies),
        Style::Mbr => {
            let first = header_is_good(host, disk, 6, label)?;
            Ok(u64::from(first) + copies)
        }
    }
}

// How many tables of contents are good.
fn count_tables<H: Host>(host: &mut H, disk: usize, start: u64) -> Result<u64, Failed>
    requires disk { disk < length (H.seen host.old).sizes }
    requires inside { start + 2048 ≤ slice_index (H.seen host.old).sizes disk }
    requires few { start + 2048 < 2 ^ 55 }
    ensures is { H.tells_disks → IfOk result (λ count. count
        ≡ good_tables start (image (H.seen host.old).content disk)) }
    ensures looks { Looks (H.seen host.old) (H.seen host.new) (IsErr result) }
{
    let first = table_is_good(host, disk, start + 1)?;
    let second = table_is_good(host, disk, start + 2)?;
    let third = table_is_good(host, disk, start + 2045)?;
    let fourth = table_is_good(host, disk, start + 2046)?;
    Ok(u64::from(first) + u64::from(second) + u64::from(third) + u64::from(fourth))
}

/// How many private headers and tables of contents of a disk with this label are good. It takes no
/// memory, and reads seven sectors,
/// six on a GPT disk.
pub fn count_good<H: Host>(host: &mut H, disk: usize, label: &Label) -> Result<GoodCopies, Failed>
    requires disk { disk < length (H.seen host.old).sizes }
    requires fits { Fits label.now (slice_index (H.seen host.old).sizes disk) }
    ensures is { H.tells_disks → IfOk result (λ good. good
        ≡ good_copies (image (H.seen host.old).content disk) label.now) }
    ensures looks { Looks (H.seen host.old) (H.seen host.new) (IsErr result) }
{
    let _sectors = host.sectors(disk);
    let headers = count_headers(host, disk, label)?;
    let tables = count_tables(host, disk, label.config_start)?;
    Ok(GoodCopies { headers, tables })
}
