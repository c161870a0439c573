//! Tables of contents (TOCBLOCK).
ghost use Rattle.std.specs.Prelude.{◌≡◌, IfOk};
ghost use Rattle.ldm_label.specs.Fields.{parses, toc_of, is_out_of_database, same_toc};
ghost use Rattle.ldm_label.specs.Parts.{joined_tables, in_database, TocFits};

use crate::LabelFault;
use crate::sectors::has_text;
use ldm_bytes::get_u64;

/// The values of a table of contents. Starts and sizes are in sectors of the database.
#[derive(Clone, Copy)]
pub struct Toc {
    pub area_start: u64,
    pub area_sectors: u64,
    pub log_start: u64,
    pub log_sectors: u64,
}

/// That the sector begins as a table of contents does, and names its two areas.
#[tactic(auto, unfolding(crate::specs::Fields::parses))]
pub fn has_names(toc: &[u8; 512]) -> bool
    ensures { result ≡ parses toc.now }
{
    has_text(toc, 0, b"TOCBLOCK")
        && has_text(toc, 0x24, b"config\0")
        && has_text(toc, 0x46, b"log\0")
}

impl Toc {
    /// The values, where the sector parses.
    pub fn parse(toc: &[u8; 512]) -> Option<Toc>
        ensures { result ≡ toc_of toc.now }
    {
        if !has_names(toc) {
            return None;
        }
        Some(Toc {
            area_start: get_u64(toc, 0x2E),
            area_sectors: get_u64(toc, 0x36),
            log_start: get_u64(toc, 0x50),
            log_sectors: get_u64(toc, 0x58),
        })
    }

    /// The config area is empty, or an area ends behind the database.
    #[tactic(auto, unfolding(crate::specs::Fields::is_out_of_database))]
    pub fn exceeds(&self) -> bool
        ensures { result ≡ is_out_of_database self.now }
    {
        let area_end = u128::from(self.area_start) + u128::from(self.area_sectors);
        let log_end = u128::from(self.log_start) + u128::from(self.log_sectors);
        self.area_sectors == 0 || area_end > 2048 || log_end > 2048
    }

    /// Both have the same values.
    #[tactic(auto, unfolding(crate::specs::Fields::same_toc))]
    pub fn agrees(&self, other: &Toc) -> bool
        ensures { result ≡ same_toc self.now other.now }
    {
        self.area_start == other.area_start
            && self.area_sectors == other.area_sectors
            && self.log_start == other.log_start
            && self.log_sectors == other.log_sectors
    }

    /// What two tables of contents have in common, where there are two or one.
    pub fn join(common: Option<Toc>, other: Option<Toc>) -> Result<Option<Toc>, LabelFault>
        ensures { result ≡ joined_tables common other }
    {
        match (common, other) {
            (Some(first), Some(second)) if !first.agrees(&second) => Err(LabelFault::TocsDiffer),
            (None, other) => Ok(other),
            (common, _) => Ok(common),
        }
    }

    /// The values, where there are some and they are in the database.
    pub fn checked(common: Option<Toc>) -> Result<Toc, LabelFault>
        ensures is { result ≡ in_database common }
        ensures fits { IfOk result (λ toc. TocFits toc) }
    {
        match common {
            None => Err(LabelFault::NoToc),
            Some(toc) if toc.exceeds() => Err(LabelFault::TocRange),
            Some(toc) => Ok(toc),
        }
    }
}
