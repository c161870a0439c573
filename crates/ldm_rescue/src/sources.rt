//! Where the sectors of a volume can be read, in the order in which that is tried.
ghost use Rattle.std.specs.Prelude.{◌≡◌, ◌<◌, ◌≤◌, not, Some, slice_get, option_map};
ghost use Rattle.ldm_places.specs.Layouts.{copies_of};
ghost use Rattle.ldm_places.specs.declared.shape.Shape.TheVariants.{Raid5};
ghost use Rattle.ldm_dump.specs.Sources.{copy_spot, can_rebuild};
ghost use Rattle.ldm_dump.specs.Runs.{LiesOn};
ghost use Rattle.ldm_rescue.specs.declared.sources.Source.TheVariants.{Others};
ghost use Rattle.ldm_rescue.specs.Rescued.{is_stale, fresh_source, stale_source, source_in};
ghost use Rattle.ldm_rescue.specs.Rescued.{rebuilt_source, turn_count, sources_in_order, source_spots, AreTogether};

use ldm_dump::{Spot, spot_of};
use ldm_found::{Found, Note};
use ldm_host::Host;
use ldm_layout::{Plan, Shape};

/// Where sectors of a volume are read.
#[derive(Clone, Copy)]
pub(crate) enum Source {
    /// In a copy, from this sector of an image on.
    Copy(Spot),
    /// In all other columns of a RAID-5, whose exclusive-or they are.
    Others,
}

// Whether the image's copy of the database is older than the group.
fn is_stale(found: &Found, image: usize) -> bool
    ensures { result ≡ is_stale found.now image }
{
    match found.notes.as_slice().get(image) {
        Some(Note::Sequence(held)) => *held < found.db.header().seq,
        Some(Note::Closed) => true,
        None => false,
    }
}

// The copy of a sector, where its disk is there.
fn copy_spot<H: Host>(
    host: &H,
    found: &Found,
    plan: &Plan,
    sector: u64,
    copy: usize,
) -> Option<Spot>
    requires within { sector < plan.now.size }
    requires copied { copy < copies_of plan.now }
    requires lies { LiesOn found.now plan.now (H.seen host.now).sizes }
    ensures { result ≡ copy_spot found.now plan.now sector copy }
{
    spot_of(host, found, plan.place(sector, copy))
}

// The copy of a sector on a disk that isn't behind.
fn fresh_source<H: Host>(
    host: &H,
    found: &Found,
    plan: &Plan,
    sector: u64,
    copy: usize,
) -> Option<Source>
    requires within { sector < plan.now.size }
    requires copied { copy < copies_of plan.now }
    requires lies { LiesOn found.now plan.now (H.seen host.now).sizes }
    ensures is { option_map (source_spots found.now plan.now sector) result
        ≡ fresh_source found.now plan.now sector copy }
    ensures raid5 { result ≡ Some Others → plan.now.shape ≡ Raid5 }
{
    match copy_spot(host, found, plan, sector, copy) {
        Some(spot) if !is_stale(found, spot.image) => Some(Source::Copy(spot)),
        _ => None,
    }
}

// The copy of a sector on a disk that is behind.
fn stale_source<H: Host>(
    host: &H,
    found: &Found,
    plan: &Plan,
    sector: u64,
    copy: usize,
) -> Option<Source>
    requires within { sector < plan.now.size }
    requires copied { copy < copies_of plan.now }
    requires lies { LiesOn found.now plan.now (H.seen host.now).sizes }
    ensures is { option_map (source_spots found.now plan.now sector) result
        ≡ stale_source found.now plan.now sector copy }
    ensures raid5 { result ≡ Some Others → plan.now.shape ≡ Raid5 }
{
    match copy_spot(host, found, plan, sector, copy) {
        Some(spot) if is_stale(found, spot.image) => Some(Source::Copy(spot)),
        _ => None,
    }
}

// Whether the disks of all other columns than the sector's are there.
fn are_others_here(found: &Found, plan: &Plan, sector: u64) -> bool
    requires raid5 { plan.now.shape ≡ Raid5 }
    requires within { sector < plan.now.size }
    ensures { result ≡ can_rebuild found.now plan.now sector }
{
    let own = plan.own_column(sector);
    'columns: for column in 0..plan.columns() {
        if column != own && found.image_of(plan.column(sector, column).disk).is_none() {
            return false;
        }
    }
    true
}

// All other columns of a RAID-5, where their disks are there.
fn rebuilt_source(found: &Found, plan: &Plan, sector: u64) -> Option<Source>
    requires { sector < plan.now.size }
    ensures is { option_map (source_spots found.now plan.now sector) result
        ≡ rebuilt_source found.now plan.now sector }
    ensures raid5 { result ≡ Some Others → plan.now.shape ≡ Raid5 }
{
    match plan.shape() {
        Shape::Raid5 => {
            if are_others_here(found, plan, sector) {
                Some(Source::Others)
            } else {
                None
            }
        }
        _ => None,
    }
}

/// How often a source of a sector is looked for.
pub(crate) fn turns(plan: &Plan) -> u128
    ensures { result ≡ turn_count plan.now }
{
    2 * plan.copies() as u128 + 1
}

/// What is tried of a sector in this turn.
pub(crate) fn source_in<H: Host>(
    host: &H,
    found: &Found,
    plan: &Plan,
    sector: u64,
    turn: u128,
) -> Option<Source>
    requires within { sector < plan.now.size }
    requires lies { LiesOn found.now plan.now (H.seen host.now).sizes }
    ensures is { option_map (source_spots found.now plan.now sector) result
        ≡ source_in found.now plan.now sector turn }
    ensures raid5 { result ≡ Some Others → plan.now.shape ≡ Raid5 }
{
    let copies = plan.copies() as u128;
    if turn < copies {
        fresh_source(host, found, plan, sector, turn as usize)
    } else if turn < 2 * copies {
        stale_source(host, found, plan, sector, (turn - copies) as usize)
    } else {
        rebuilt_source(found, plan, sector)
    }
}

/// The first source of a sector.
pub(crate) fn first_source<H: Host>(
    host: &H,
    found: &Found,
    plan: &Plan,
    sector: u64,
) -> Option<Source>
    requires within { sector < plan.now.size }
    requires lies { LiesOn found.now plan.now (H.seen host.now).sizes }
    ensures is { option_map (source_spots found.now plan.now sector) result
        ≡ slice_get (sources_in_order found.now plan.now sector) 0 }
    ensures raid5 { result ≡ Some Others → plan.now.shape ≡ Raid5 }
{
    'turns: for turn in 0..turns(plan) {
        let source = source_in(host, found, plan, sector, turn);
        if source.is_some() {
            return source;
        }
    }
    None
}

/// How many sectors from this one on lie side by side in each copy and in each column.
pub(crate) fn together(plan: &Plan, sector: u64) -> u64
    requires { sector < plan.now.size }
    ensures { AreTogether plan.now sector result }
{
    let mut sectors = plan.size() - sector;
    'copies: for copy in 0..plan.copies() {
        sectors = sectors.min(plan.stretch(sector, copy));
    }
    sectors
}
