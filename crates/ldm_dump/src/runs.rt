//! Sectors of a volume that are read together.
ghost use Rattle.std.specs.Prelude.{◌≡◌, ◌<◌};
ghost use Rattle.ldm_places.specs.declared.shape.Shape.TheVariants.{Raid5};
ghost use Rattle.ldm_dump.specs.Sources.{can_rebuild, is_lost};
ghost use Rattle.ldm_dump.specs.Runs.{IsRun};

use crate::spots::is_here;
use ldm_found::Found;
use ldm_layout::{Plan, Shape};

/// Sectors of a volume that lie side by side wherever they are read, and the copy that they are
/// read from.
/// `None`: they are made of the other columns of a RAID-5, or lost.
#[derive(Clone, Copy)]
pub struct Run {
    pub copy: Option<usize>,
    pub sectors: u64,
}

/// The sectors from this one on.
pub fn run_at(found: &Found, plan: &Plan, sector: u64) -> Run
    requires { sector < plan.now.size }
    ensures { IsRun found.now plan.now sector result }
{
    let mut sectors = plan.size() - sector;
    'copies: for copy in 0..plan.copies() {
        sectors = sectors.min(plan.stretch(sector, copy));
        if is_here(found, plan.place(sector, copy)) {
            return Run {
                copy: Some(copy),
                sectors,
            };
        }
    }
    Run {
        copy: None,
        sectors,
    }
}

// Whether the disks of all other columns than the sector's are there.
fn are_others_here(found: &Found, plan: &Plan, sector: u64) -> bool
    requires raid5 { plan.now.shape ≡ Raid5 }
    requires within { sector < plan.now.size }
    ensures { result ≡ can_rebuild found.now plan.now sector }
{
    let own = plan.own_column(sector);
    'columns: for column in 0..plan.columns() {
        if column != own && !is_here(found, plan.column(sector, column)) {
            return false;
        }
    }
    true
}

/// Whether the sector can be made of the other columns of a RAID-5.
pub fn can_rebuild(found: &Found, plan: &Plan, sector: u64) -> bool
    requires { sector < plan.now.size }
    ensures { result ≡ can_rebuild found.now plan.now sector }
{
    match plan.shape() {
        Shape::Raid5 => are_others_here(found, plan, sector),
        _ => false,
    }
}

/// Whether the sector is lost, whose run this is.
pub fn is_run_lost(found: &Found, plan: &Plan, sector: u64, run: &Run) -> bool
    requires within { sector < plan.now.size }
    requires run { IsRun found.now plan.now sector run.now }
    ensures { result ≡ is_lost found.now plan.now sector }
{
    match run.copy {
        Some(_) => false,
        None => !can_rebuild(found, plan, sector),
    }
}
