//! Sectors of a volume, read from the first of their sources that can be read.
ghost use Rattle.std.specs.Prelude.{◌≡◌, ◌+◌, ◌*◌, ◌<◌, ◌≤◌, ◌++◌, ◌∷◌, ◌-◌, [], ℕ, min, length};
ghost use Rattle.std.specs.Prelude.{map, fold, bit_xor, take, slice_get, slice_index, is_some, replicate};
ghost use Rattle.std.specs.Prelude.{OnOk, OnErr, IsErr, IfErr, IfSome, Some, false, Contains};
ghost use Rattle.std.specs.Option.{option_map, option_to_list};
ghost use Rattle.ldm_host.specs.Moves.{Looks};
ghost use Rattle.ldm_places.specs.Layouts.{copies_of, place_in};
ghost use Rattle.ldm_places.specs.Columns.{columns_of};
ghost use Rattle.ldm_places.specs.declared.shape.Shape.TheVariants.{Raid5};
ghost use Rattle.ldm_dump.specs.declared.spots.Spot.{Spot as Place};
ghost use Rattle.ldm_dump.specs.Sources.{other_spot, other_spots};
ghost use Rattle.ldm_dump.specs.Bytes.{byte_at, joined_byte, joined_sector};
ghost use Rattle.ldm_dump.specs.Runs.{HasBytes, LiesOn};
ghost use Rattle.ldm_rescue.specs.declared.sources.Source.TheVariants.{Others};
ghost use Rattle.ldm_rescue.specs.Rescued.{source_in, turn_count, sources_in_order, source_spots};
ghost use Rattle.ldm_rescue.specs.Rescued.{AreTogether, range_of, IsRescued};
ghost use Rattle.ldm_host.specs.Failed.{failed_since};
ghost use Rattle.ldm_rescue.specs.Rescued.{AreRescued, nth_sector, IsCause, HaveCause, FailedOn};
ghost use Rattle.ldm_rescue.specs.Rescued.{IsOutcome};

use crate::sources::{Source, first_source, source_in, together, turns};
use ldm_dump::{Spot, clear, spot_of};
use ldm_found::Found;
use ldm_host::{Failed, Host};
use ldm_layout::Plan;

/// Why a sector of a volume is lost.
#[derive(Clone, Copy, PartialEq, Eq)]
pub enum Cause {
    /// The disk of this id is absent, and so is all that the sector could be read from.
    Absent(u64),
    /// No source could be read, and of the last one a sector of this image.
    Unread(usize),
}

/// What was read of a volume: so many sectors, which all are lost for one cause, or none is.
#[derive(Clone, Copy)]
pub struct Rescued {
    pub count: u64,
    pub lost: Option<Cause>,
}

// Reads the bytes from the start of a sector of an image on.
fn read_spot<H: Host>(host: &mut H, spot: Spot, out: &mut [u8]) -> Result<(), usize>
    requires { HasBytes (H.seen host.old).sizes spot (length out.old) }
    ensures bytes { H.tells_disks → OnOk result ((j : ℕ) → j < length out.old
        → slice_index out.new j ≡ byte_at (H.seen host.old).content j spot) }
    ensures failed { H.tells_disks → IfErr result (FailedOn (spot ∷ []) (length out.old)
        (H.seen host.old).failed (H.seen host.new).failed) }
    ensures looks { Looks (H.seen host.old) (H.seen host.new) ⊥ }
{
    let sectors = host.sectors(spot.image);
    prove!(spot.sector <= sectors);
    match host.read_at(spot.image, 512 * spot.sector, out) {
        Ok(()) => Ok(()),
        Err(Failed) => Err(spot.image),
    }
}

// Makes of each byte its exclusive-or with the other byte at its place.
fn xor_into(out: &mut [u8], other: &[u8])
    requires { length other.now ≡ length out.old }
    ensures { (j : ℕ) → j < length out.old → slice_index out.new j
        ≡ bit_xor (slice_index out.old j) (slice_index other.now j) }
{
    for i in 0..out.len() {
        out[i] ^= other[i];
    }
}

// What is beside a sector in another column of a RAID-5.
fn other_spot<H: Host>(
    host: &H,
    found: &Found,
    plan: &Plan,
    sector: u64,
    column: usize,
) -> Option<Spot>
    requires raid5 { plan.now.shape ≡ Raid5 }
    requires within { sector < plan.now.size }
    requires there { column < length (columns_of plan.now) }
    requires lies { LiesOn found.now plan.now (H.seen host.now).sizes }
    ensures { result ≡ other_spot found.now plan.now sector column }
{
    if column == plan.own_column(sector) {
        None
    } else {
        spot_of(host, found, plan.column(sector, column))
    }
}

// Makes of each byte its exclusive-or with what is beside a sector in a column, if that is another
// than its own.
fn join_other<H: Host>(
    host: &mut H,
    found: &Found,
    plan: &Plan,
    sector: u64,
    column: usize,
    out: &mut [u8],
    scratch: &mut [u8],
) -> Result<(), usize>
    requires raid5 { plan.now.shape ≡ Raid5 }
    requires within { sector < plan.now.size }
    requires there { column < length (columns_of plan.now) }
    requires has { (s : Place) → other_spot found.now plan.now sector column ≡ Some s
        → HasBytes (H.seen host.old).sizes s (length out.old) }
    requires lies { LiesOn found.now plan.now (H.seen host.old).sizes }
    requires same { length scratch.old ≡ length out.old }
    ensures bytes { H.tells_disks → OnOk result ((j : ℕ) → j < length out.old
        → slice_index out.new j
        ≡ fold bit_xor (slice_index out.old j) (map (byte_at (H.seen host.old).content j)
        (option_to_list (other_spot found.now plan.now sector column)))) }
    ensures failed { H.tells_disks → IfErr result (FailedOn
        (option_to_list (other_spot found.now plan.now sector column)) (length out.old)
        (H.seen host.old).failed (H.seen host.new).failed) }
    ensures looks { Looks (H.seen host.old) (H.seen host.new) ⊥ }
{
    match other_spot(host, found, plan, sector, column) {
        Some(spot) => {
            read_spot(host, spot, scratch)?;
            xor_into(out, scratch);
            Ok(())
        }
        None => Ok(()),
    }
}

// Makes the bytes from a sector on of those of all other columns of a RAID-5.
fn rebuild<H: Host>(
    host: &mut H,
    found: &Found,
    plan: &Plan,
    sector: u64,
    out: &mut [u8],
    scratch: &mut [u8],
) -> Result<(), usize>
    requires raid5 { plan.now.shape ≡ Raid5 }
    requires within { sector < plan.now.size }
    requires has { (s : Place) → Contains (other_spots found.now plan.now sector) s
        → HasBytes (H.seen host.old).sizes s (length out.old) }
    requires lies { LiesOn found.now plan.now (H.seen host.old).sizes }
    requires same { length scratch.old ≡ length out.old }
    ensures bytes { H.tells_disks → OnOk result ((j : ℕ) → j < length out.old
        → slice_index out.new j ≡ joined_byte (H.seen host.old).content
        (other_spots found.now plan.now sector) j) }
    ensures failed { H.tells_disks → IfErr result (FailedOn
        (other_spots found.now plan.now sector) (length out.old)
        (H.seen host.old).failed (H.seen host.new).failed) }
    ensures looks { Looks (H.seen host.old) (H.seen host.new) ⊥ }
{
    clear(out);
    'columns: for column in 0..plan.columns() {
        join_other(host, found, plan, sector, column, out, scratch)?;
    }
    Ok(())
}

// Reads the bytes from a sector on from one of its sources, or answers the image of which a read
// failed.
fn read_source<H: Host>(
    host: &mut H,
    found: &Found,
    plan: &Plan,
    sector: u64,
    source: Source,
    out: &mut [u8],
    scratch: &mut [u8],
) -> Result<(), usize>
    requires within { sector < plan.now.size }
    requires raid5 { source ≡ Others → plan.now.shape ≡ Raid5 }
    requires has { (s : Place) → Contains (source_spots found.now plan.now sector source) s
        → HasBytes (H.seen host.old).sizes s (length out.old) }
    requires lies { LiesOn found.now plan.now (H.seen host.old).sizes }
    requires same { length scratch.old ≡ length out.old }
    ensures bytes { H.tells_disks → OnOk result ((j : ℕ) → j < length out.old
        → slice_index out.new j ≡ joined_byte (H.seen host.old).content
        (source_spots found.now plan.now sector source) j) }
    ensures failed { H.tells_disks → IfErr result (FailedOn
        (source_spots found.now plan.now sector source) (length out.old)
        (H.seen host.old).failed (H.seen host.new).failed) }
    ensures looks { Looks (H.seen host.old) (H.seen host.new) ⊥ }
{
    match source {
        Source::Copy(spot) => read_spot(host, spot, out),
        Source::Others => rebuild(host, found, plan, sector, out, scratch),
    }
}

// Reads one sector from what is tried of it in this turn. Else it answers the image of which a read
// failed, or none where nothing is there to be tried.
fn try_turn<H: Host>(
    host: &mut H,
    found: &Found,
    plan: &Plan,
    sector: u64,
    turn: u128,
    out: &mut [u8],
    scratch: &mut [u8],
) -> Result<(), Option<usize>>
    requires within { sector < plan.now.size }
    requires size { length out.old ≡ 512 }
    requires lies { LiesOn found.now plan.now (H.seen host.old).sizes }
    requires same { length scratch.old ≡ length out.old }
    ensures tried { H.tells_disks → IsOutcome (H.seen host.old).content
        (failed_since (H.seen host.old) (H.seen host.new))
        (option_to_list (source_in found.now plan.now sector turn)) out.new result }
    ensures looks { Looks (H.seen host.old) (H.seen host.new) ⊥ }
{
    match source_in(host, found, plan, sector, turn) {
        Some(source) => match read_source(host, found, plan, sector, source, out, scratch) {
            Ok(()) => Ok(()),
            Err(image) => Err(Some(image)),
        },
        None => Err(None),
    }
}

// Reads one sector from each of its sources in turn, until one can be read.
fn try_turns<H: Host>(
    host: &mut H,
    found: &Found,
    plan: &Plan,
    sector: u64,
    out: &mut [u8],
    scratch: &mut [u8],
) -> Result<(), Option<usize>>
    requires within { sector < plan.now.size }
    requires size { length out.old ≡ 512 }
    requires lies { LiesOn found.now plan.now (H.seen host.old).sizes }
    requires same { length scratch.old ≡ length out.old }
    ensures tried { H.tells_disks → IsOutcome (H.seen host.old).content
        (failed_since (H.seen host.old) (H.seen host.new))
        (sources_in_order found.now plan.now sector) out.new result }
    ensures looks { Looks (H.seen host.old) (H.seen host.new) ⊥ }
{
    let mut unread = None;
    'turns: for turn in 0..turns(plan) {
        match try_turn(host, found, plan, sector, turn, out, scratch) {
            Ok(()) => return Ok(()),
            Err(image) => unread = image.or(unread),
        }
    }
    Err(unread)
}

// The disk of the first copy of a sector.
fn first_disk(plan: &Plan, sector: u64) -> u64
    requires { sector < plan.now.size }
    ensures is { option_map (λ place. place.disk) (place_in plan.now sector 0) ≡ Some result }
    ensures some { 0 < copies_of plan.now }
{
    prove!(0 < plan.copies());
    plan.place(sector, 0).disk
}

// Reads one sector, or makes zeros of it where it is lost, and answers for which cause it is.
fn rescue_sector<H: Host>(
    host: &mut H,
    found: &Found,
    plan: &Plan,
    sector: u64,
    out: &mut [u8],
    scratch: &mut [u8],
) -> Option<Cause>
    requires within { sector < plan.now.size }
    requires size { length out.old ≡ 512 }
    requires lies { LiesOn found.now plan.now (H.seen host.old).sizes }
    requires same { length scratch.old ≡ length out.old }
    ensures bytes { H.tells_disks → IsRescued (H.seen host.old).content
        (failed_since (H.seen host.old) (H.seen host.new))
        (sources_in_order found.now plan.now sector) out.new (is_some result) }
    ensures cause { H.tells_disks → IfSome result (IsCause found.now plan.now
        (failed_since (H.seen host.old) (H.seen host.new)) sector) }
    ensures looks { Looks (H.seen host.old) (H.seen host.new) ⊥ }
{
    match try_turns(host, found, plan, sector, out, scratch) {
        Ok(()) => None,
        Err(Some(image)) => {
            clear(out);
            Some(Cause::Unread(image))
        }
        Err(None) => {
            clear(out);
            Some(Cause::Absent(first_disk(plan, sector)))
        }
    }
}

// Reads one sector to the place of this number in the buffer, or makes zeros there, and answers for
// which cause it is lost.
fn rescue_into<H: Host>(
    host: &mut H,
    found: &Found,
    plan: &Plan,
    sector: u64,
    number: u64,
    out: &mut [u8],
    scratch: &mut [u8],
) -> Option<Cause>
    requires within { sector < plan.now.size }
    requires room { 512 * number + 512 ≤ length out.old }
    requires lies { LiesOn found.now plan.now (H.seen host.old).sizes }
    requires small { length scratch.old ≡ 512 }
    ensures front { take (512 * number) out.new ≡ take (512 * number) out.old }
    ensures bytes { H.tells_disks → IsRescued (H.seen host.old).content
        (failed_since (H.seen host.old) (H.seen host.new))
        (sources_in_order found.now plan.now sector) (nth_sector out.new number)
        (is_some result) }
    ensures cause { H.tells_disks → IfSome result (IsCause found.now plan.now
        (failed_since (H.seen host.old) (H.seen host.new)) sector) }
    ensures looks { Looks (H.seen host.old) (H.seen host.new) ⊥ }
{
    let at = 512 * number as usize;
    rescue_sector(host, found, plan, sector, &mut out[at..at + 512], scratch)
}

// Reads sectors from this one on, each alone, as many as there is room for and as are lost for one
// cause, or not lost.
fn rescue_singly<H: Host>(
    host: &mut H,
    found: &Found,
    plan: &Plan,
    sector: u64,
    out: &mut [u8],
    scratch: &mut [u8],
) -> Rescued
    requires room { 512 ≤ length out.old }
    requires within { 512 * sector + length out.old ≤ 512 * plan.now.size }
    requires lies { LiesOn found.now plan.now (H.seen host.old).sizes }
    requires small { length scratch.old ≡ 512 }
    ensures some { 0 < result.count }
    ensures room { 512 * result.count ≤ length out.old }
    ensures bytes { H.tells_disks → AreRescued (H.seen host.old).content
        (failed_since (H.seen host.old) (H.seen host.new)) found.now plan.now sector result.count
        (λ x. is_some result.lost) (take (512 * result.count) out.new) }
    ensures cause { H.tells_disks → IfSome result.lost (HaveCause found.now plan.now
        (failed_since (H.seen host.old) (H.seen host.new)) sector result.count) }
    ensures looks { Looks (H.seen host.old) (H.seen host.new) ⊥ }
{
    prove!(sector < plan.size());
    let most = out.len() as u64 / 512;
    let lost = rescue_into(host, found, plan, sector, 0, out, scratch);
    let mut count = 1;
    'sectors: while count < most {
        let next = rescue_into(host, found, plan, sector + count, count, out, scratch);
        if next != lost {
            return Rescued { count, lost };
        }
        count += 1;
    }
    Rescued { count, lost }
}

// Reads sectors that lie side by side from their first source in one call, or else each alone.
fn rescue_run<H: Host>(
    host: &mut H,
    found: &Found,
    plan: &Plan,
    sector: u64,
    source: Source,
    out: &mut [u8],
    scratch: &mut [u8],
) -> Rescued
    requires room { 512 ≤ length out.old }
    requires together { (n : ℕ) × (length out.old ≡ 512 * n) × (AreTogether plan.now sector n) }
    requires first { slice_get (sources_in_order found.now plan.now sector) 0
        ≡ Some (source_spots found.now plan.now sector source) }
    requires raid5 { source ≡ Others → plan.now.shape ≡ Raid5 }
    requires lies { LiesOn found.now plan.now (H.seen host.old).sizes }
    requires same { length scratch.old ≡ length out.old }
    ensures some { 0 < result.count }
    ensures room { 512 * result.count ≤ length out.old }
    ensures bytes { H.tells_disks → AreRescued (H.seen host.old).content
        (failed_since (H.seen host.old) (H.seen host.new)) found.now plan.now sector result.count
        (λ x. is_some result.lost) (take (512 * result.count) out.new) }
    ensures cause { H.tells_disks → IfSome result.lost (HaveCause found.now plan.now
        (failed_since (H.seen host.old) (H.seen host.new)) sector result.count) }
    ensures looks { Looks (H.seen host.old) (H.seen host.new) ⊥ }
{
    match read_source(host, found, plan, sector, source, out, scratch) {
        Ok(()) => Rescued {
            count: out.len() as u64 / 512,
            lost: None,
        },
        Err(_) => rescue_singly(host, found, plan, sector, out, &mut scratch[..512]),
    }
}

/// Reads sectors of a volume from this one on, in front of the end, as many as the buffer has room
/// for and as are lost for one cause, or not lost. Each comes from the first of its sources that can
/// be read, and one that none gives is zeros. The scratch holds what is read of other columns. It
/// takes no memory, and reads that fail don't end it.
pub fn rescue_some<H: Host>(
    host: &mut H,
    found: &Found,
    plan: &Plan,
    sector: u64,
    end: u64,
    buffer: &mut [u8],
    scratch: &mut [u8],
) -> Rescued
    requires some { sector < end }
    requires within { end ≤ plan.now.size }
    requires room { 512 ≤ length buffer.old }
    requires same { length scratch.old ≡ length buffer.old }
    requires lies { LiesOn found.now plan.now (H.seen host.old).sizes }
    ensures some { 0 < result.count }
    ensures fits { sector + result.count ≤ end }
    ensures room { 512 * result.count ≤ length buffer.old }
    ensures bytes { H.tells_disks → AreRescued (H.seen host.old).content
        (failed_since (H.seen host.old) (H.seen host.new)) found.now plan.now sector result.count
        (λ x. is_some result.lost) (take (512 * result.count) buffer.new) }
    ensures cause { H.tells_disks → IfSome result.lost (HaveCause found.now plan.now
        (failed_since (H.seen host.old) (H.seen host.new)) sector result.count) }
    ensures looks { Looks (H.seen host.old) (H.seen host.new) ⊥ }
{
    let most = together(plan, sector)
        .min(end - sector)
        .min(buffer.len() as u64 / 512);
    let size = 512 * most as usize;
    match first_source(host, found, plan, sector) {
        Some(source) => rescue_run(
            host,
            found,
            plan,
            sector,
            source,
            &mut buffer[..size],
            &mut scratch[..size],
        ),
        None => {
            clear(&mut buffer[..size]);
            Rescued {
                count: most,
                lost: Some(Cause::Absent(first_disk(plan, sector))),
            }
        }
    }
}
