//! The least sector of a volume, and of some of its sectors, that is lost, and how many are.
ghost use Rattle.std.specs.Prelude.{◌≡◌, ◌+◌, ◌<◌, ◌≤◌, false};
ghost use Rattle.ldm_places.specs.Layouts.{is_tiled};
ghost use Rattle.ldm_dump.specs.Sources.{is_lost, chunk_start, IsLeastLost, IsLeastLostIn};
ghost use Rattle.ldm_dump.specs.Sources.{lost_before, lost_sectors};

use crate::runs::{is_run_lost, run_at};
use ldm_found::Found;
use ldm_layout::{Plan, Shape};

// Whether a sector is lost.
fn is_lost(found: &Found, plan: &Plan, sector: u64) -> bool
    requires { sector < plan.now.size }
    ensures { result ≡ is_lost found.now plan.now sector }
{
    let run = run_at(found, plan, sector);
    is_run_lost(found, plan, sector, &run)
}

// The least sector from the first on, below an end, that is lost, by one test for each run.
fn lost_run(found: &Found, plan: &Plan, first: u64, end: u64) -> Option<u64>
    requires { end ≤ plan.now.size }
    ensures { IsLeastLostIn found.now plan.now first end result }
{
    prove!(end <= plan.size());
    let mut sector = first;
    'runs: while sector < end {
        let run = run_at(found, plan, sector);
        if is_run_lost(found, plan, sector, &run) {
            return Some(sector);
        }
        sector += run.sectors;
    }
    None
}

// Where the chunk begins that is so many behind the one of a sector, which itself begins there.
fn chunk_start(plan: &Plan, sector: u64, chunks: usize) -> u128
    requires { is_tiled plan.now.shape ≡ false }
    ensures { result ≡ chunk_start plan.now sector chunks }
{
    let chunk = u128::from(plan.chunk());
    let number = u128::from(sector) / chunk + chunks as u128;
    (chunk * number).max(u128::from(sector))
}

// The least sector from the first on, below an end, that is lost in a stripe or a RAID-5, by one
// test for each column: all chunks of a column are lost or none is, and as many chunks as there are
// columns, one behind the other, lie in all columns.
fn lost_chunk(found: &Found, plan: &Plan, first: u64, end: u64) -> Option<u64>
    requires chunked { is_tiled plan.now.shape ≡ false }
    requires within { end ≤ plan.now.size }
    ensures { IsLeastLostIn found.now plan.now first end result }
{
    'columns: for column in 0..plan.columns() {
        let at = chunk_start(plan, first, column);
        if u128::from(end) <= at {
            return None;
        }
        if is_lost(found, plan, at as u64) {
            return Some(at as u64);
        }
    }
    None
}

/// The least of so many sectors, from the first on, that is lost. It takes the time of the volume's
/// partitions and not of its sectors.
pub fn lost_in(found: &Found, plan: &Plan, first: u64, count: u64) -> Option<u64>
    requires { first + count ≤ plan.now.size }
    ensures { IsLeastLostIn found.now plan.now first (first + count) result }
{
    prove!(first <= plan.size());
    let end = first + count;
    match plan.shape() {
        Shape::Stripe | Shape::Raid5 => lost_chunk(found, plan, first, end),
        _ => lost_run(found, plan, first, end),
    }
}

/// The least sector of the volume that is lost. It takes the time of the volume's partitions and
/// not of its sectors.
pub fn lost(found: &Found, plan: &Plan) -> Option<u64>
    ensures { IsLeastLost found.now plan.now result }
{
    lost_in(found, plan, 0, plan.size())
}

// How many sectors in front of this one are lost, by one test for each run.
fn lost_before(found: &Found, plan: &Plan, end: u64) -> u64
    requires { end ≤ plan.now.size }
    ensures { result ≡ lost_before found.now plan.now end }
{
    prove!(end <= plan.size());
    let mut lost = 0;
    let mut sector = 0;
    'runs: while sector < end {
        let run = run_at(found, plan, sector);
        let sectors = run.sectors.min(end - sector);
        if is_run_lost(found, plan, sector, &run) {
            lost += sectors;
        }
        sector += sectors;
    }
    lost
}

// How many sectors of a stripe or a RAID-5 are lost. Its chunks go round the columns, so what is
// lost of one turn is lost of each.
fn lost_in_turns(found: &Found, plan: &Plan) -> u64
    requires { is_tiled plan.now.shape ≡ false }
    ensures { result ≡ lost_sectors found.now plan.now }
{
    let size = plan.size();
    let turn = u128::from(plan.chunk()) * plan.columns() as u128;
    if u128::from(size) < turn {
        return lost_before(found, plan, size);
    }
    let turn = turn as u64;
    size / turn * lost_before(found, plan, turn) + lost_before(found, plan, size % turn)
}

/// How many sectors of the volume are lost. It takes the time of the volume's partitions and not of
/// its sectors.
pub fn lost_sectors(found: &Found, plan: &Plan) -> u64
    ensures { result ≡ lost_sectors found.now plan.now }
{
    match plan.shape() {
        Shape::Stripe | Shape::Raid5 => lost_in_turns(found, plan),
        _ => lost_before(found, plan, plan.size()),
    }
}
