//! Bytes of a volume, read from the images.
ghost use Rattle.std.specs.Prelude.{◌≡◌, ◌*◌, ◌<◌, ◌≤◌, ℕ, List, length, map, fold, bit_xor};
ghost use Rattle.std.specs.Prelude.{slice_index, false, OnOk, IsErr, Some};
ghost use Rattle.std.specs.Option.{option_to_list};
ghost use Rattle.ldm_host.specs.Moves.{Looks};
ghost use Rattle.ldm_places.specs.Columns.{columns_of};
ghost use Rattle.ldm_places.specs.declared.shape.Shape.TheVariants.{Raid5};
ghost use Rattle.ldm_dump.specs.declared.spots.Spot.{Spot as Place};
ghost use Rattle.ldm_dump.specs.Sources.{other_spot, other_spots, sources_of, is_lost};
ghost use Rattle.ldm_dump.specs.Bytes.{byte_at, joined_byte, sector_of};
ghost use Rattle.ldm_dump.specs.Runs.{IsRun, HasBytes, LiesOn};

use crate::runs::{Run, run_at};
use crate::spots::{Spot, spot_of};
use ldm_found::Found;
use ldm_host::{Failed, Host};
use ldm_layout::Plan;

/// Reads the bytes from the start of a sector of an image on.
pub fn read_spot<H: Host>(host: &mut H, spot: Spot, out: &mut [u8]) -> Result<(), Failed>
    requires { HasBytes (H.seen host.old).sizes spot (length out.old) }
    ensures bytes { H.tells_disks → OnOk result ((j : ℕ) → j < length out.old
        → slice_index out.new j ≡ byte_at (H.seen host.old).content j spot) }
    ensures looks { Looks (H.seen host.old) (H.seen host.new) (IsErr result) }
{
    let sectors = host.sectors(spot.image);
    prove!(spot.sector <= sectors);
    host.read_at(spot.image, 512 * spot.sector, out)
}

/// Makes each byte zero.
pub fn clear(out: &mut [u8])
    ensures { (j : ℕ) → j < length out.old → slice_index out.new j ≡ 0 }
{
    for i in 0..out.len() {
        out[i] = 0;
    }
}

// Makes of each byte its exclusive-or with the other byte at its place.
fn xor_into(out: &mut [u8], other: &[u8])
    requires { length other.now ≡ length out.old }
    ensures { (j : ℕ) → j < length out.old → slice_index out.new j
        ≡ bit_xor (slice_index out.old j) (slice_index other.now j) }
{
    for i in 0..out.len() {
        out[i] ^= other[i];
    }
}

/// Makes of each byte its exclusive-or with the byte at its place from the start of a sector of an
/// image on.
pub fn join_spot<H: Host>(
    host: &mut H,
    spot: Spot,
    out: &mut [u8],
    scratch: &mut [u8],
) -> Result<(), Failed>
    requires has { HasBytes (H.seen host.old).sizes spot (length out.old) }
    requires same { length scratch.old ≡ length out.old }
    ensures bytes { H.tells_disks → OnOk result ((j : ℕ) → j < length out.old
        → slice_index out.new j ≡ bit_xor (slice_index out.old j)
        (byte_at (H.seen host.old).content j spot)) }
    ensures looks { Looks (H.seen host.old) (H.seen host.new) (IsErr result) }
{
    read_spot(host, spot, scratch)?;
    xor_into(out, scratch);
    Ok(())
}

// What is beside a sector in another column of a RAID-5.
fn other_spot<H: Host>(
    host: &H,
    found: &Found,
    plan: &Plan,
    sector: u64,
    column: usize,
) -> Option<Spot>
    requires raid5 { plan.now.shape ≡ Raid5 }
    requires within { sector < plan.now.size }
    requires there { column < length (columns_of plan.now) }
    requires lies { LiesOn found.now plan.now (H.seen host.now).sizes }
    ensures { result ≡ other_spot found.now plan.now sector column }
{
    if column == plan.own_column(sector) {
        None
    } else {
        spot_of(host, found, plan.column(sector, column))
    }
}

// Makes of each byte its exclusive-or with what is beside a sector in a column, if that is another
// than its own.
fn join_other<H: Host>(
    host: &mut H,
    found: &Found,
    plan: &Plan,
    sector: u64,
    column: usize,
    out: &mut [u8],
    scratch: &mut [u8],
) -> Result<(), Failed>
    requires raid5 { plan.now.shape ≡ Raid5 }
    requires within { sector < plan.now.size }
    requires there { column < length (columns_of plan.now) }
    requires has { (s : Place) → other_spot found.now plan.now sector column ≡ Some s
        → HasBytes (H.seen host.old).sizes s (length out.old) }
    requires lies { LiesOn found.now plan.now (H.seen host.old).sizes }
    requires same { length scratch.old ≡ length out.old }
    ensures bytes { H.tells_disks → OnOk result ((j : ℕ) → j < length out.old
        → slice_index out.new j
        ≡ fold bit_xor (slice_index out.old j) (map (byte_at (H.seen host.old).content j)
        (option_to_list (other_spot found.now plan.now sector column)))) }
    ensures looks { Looks (H.seen host.old) (H.seen host.new) (IsErr result) }
{
    match other_spot(host, found, plan, sector, column) {
        Some(spot) => join_spot(host, spot, out, scratch),
        None => Ok(()),
    }
}

// Makes the bytes from a sector on of those of all other columns of a RAID-5.
fn rebuild<H: Host>(
    host: &mut H,
    found: &Found,
    plan: &Plan,
    sector: u64,
    out: &mut [u8],
    scratch: &mut [u8],
) -> Result<(), Failed>
    requires raid5 { plan.now.shape ≡ Raid5 }
    requires within { sector < plan.now.size }
    requires has { (column : ℕ) (s : Place) → other_spot found.now plan.now sector column ≡ Some s
        → HasBytes (H.seen host.old).sizes s (length out.old) }
    requires lies { LiesOn found.now plan.now (H.seen host.old).sizes }
    requires same { length scratch.old ≡ length out.old }
    ensures bytes { H.tells_disks → OnOk result ((j : ℕ) → j < length out.old
        → slice_index out.new j ≡ joined_byte (H.seen host.old).content
        (other_spots found.now plan.now sector) j) }
    ensures looks { Looks (H.seen host.old) (H.seen host.new) (IsErr result) }
{
    clear(out);
    'columns: for column in 0..plan.columns() {
        join_other(host, found, plan, sector, column, out, scratch)?;
    }
    Ok(())
}

/// Reads whole sectors of a volume that lie in one run, from this one on. The scratch holds what is
/// read of other columns.
pub(crate) fn read_run<H: Host>(
    host: &mut H,
    found: &Found,
    plan: &Plan,
    sector: u64,
    run: &Run,
    out: &mut [u8],
    scratch: &mut [u8],
) -> Result<(), Failed>
    requires within { sector < plan.now.size }
    requires run { IsRun found.now plan.now sector run.now }
    requires room { length out.old ≤ 512 * run.now.sectors }
    requires same { length scratch.old ≡ length out.old }
    requires kept { is_lost found.now plan.now sector ≡ false }
    requires lies { LiesOn found.now plan.now (H.seen host.old).sizes }
    ensures bytes { H.tells_disks → OnOk result ((spots : List Place)
        → sources_of found.now plan.now sector ≡ Some spots
        → (j : ℕ) → j < length out.old → slice_index out.new j
        ≡ joined_byte (H.seen host.old).content spots j) }
    ensures looks { Looks (H.seen host.old) (H.seen host.new) (IsErr result) }
{
    match run.copy {
        Some(copy) => match spot_of(host, found, plan.place(sector, copy)) {
            Some(spot) => read_spot(host, spot, out),
            None => unreachable!(),
        },
        None => rebuild(host, found, plan, sector, out, scratch),
    }
}

/// Reads one sector of a volume that isn't lost. It takes no memory.
pub fn read_sector<H: Host>(
    host: &mut H,
    found: &Found,
    plan: &Plan,
    sector: u64,
    out: &mut [u8; 512],
) -> Result<(), Failed>
    requires within { sector < plan.now.size }
    requires kept { is_lost found.now plan.now sector ≡ false }
    requires lies { LiesOn found.now plan.now (H.seen host.old).sizes }
    ensures bytes { H.tells_disks → OnOk result (sector_of
        (H.seen host.old).content found.now plan.now sector ≡ Some out.new) }
    ensures looks { Looks (H.seen host.old) (H.seen host.new) (IsErr result) }
{
    let mut scratch = [0u8; 512];
    let run = run_at(found, plan, sector);
    read_run(host, found, plan, sector, &run, out, &mut scratch)
}
