//! Copies and rows of a volume, compared.
ghost use Rattle.std.specs.Prelude.{◌≡◌, ◌+◌, ◌-◌, ◌*◌, ◌/◌, ◌%◌, ◌<◌, ◌≤◌, ℕ, length, map, fold};
ghost use Rattle.std.specs.Prelude.{bit_xor, slice_index, false, OnOk, IfOk, IsErr, Some};
ghost use Rattle.std.specs.Option.{option_to_list};
ghost use Rattle.std.specs.Str.{bytes_eq};
ghost use Rattle.ldm_host.specs.Moves.{Looks};
ghost use Rattle.ldm_places.specs.Layouts.{copies_of};
ghost use Rattle.ldm_places.specs.Columns.{columns_of, column_in, IsColumned};
ghost use Rattle.ldm_places.specs.declared.shape.Shape.TheVariants.{Raid5};
ghost use Rattle.ldm_dump.specs.declared.spots.Spot.{Spot as Place};
ghost use Rattle.ldm_dump.specs.Sources.{is_raid5, spot_at, copy_spot};
ghost use Rattle.ldm_dump.specs.Bytes.{byte_at, joined_byte};
ghost use Rattle.ldm_dump.specs.Redundant.{row_spots};
ghost use Rattle.ldm_dump.specs.Runs.{HasBytes, LiesOn, RowsLieOn};
ghost use Rattle.ldm_scrub.specs.Compare.{is_bad, is_bad_at, place_sector, IsCommonRun, sector_in};
ghost use Rattle.ldm_scrub.specs.Compare.{mark, marked};

use crate::places::{common_run, row_place, row_sector};
use ldm_dump::{clear, join_spot, read_spot, spot_of};
use ldm_found::Found;
use ldm_host::{Failed, Host};
use ldm_layout::{Plan, Shape};

// Sector i of some sectors.
fn sector_in(bytes: &[u8], i: usize) -> &[u8]
    requires { 512 * i + 512 ≤ length bytes.now }
    ensures { result.now ≡ sector_in bytes.now i }
{
    &bytes[512 * i..512 * i + 512]
}

// Marks each sector of which the two differ.
fn mark_differing(bytes: &[u8], others: &[u8], marks: &mut [u8])
    requires size { length bytes.now ≡ 512 * length marks.old }
    requires same { length others.now ≡ length bytes.now }
    ensures { (i : ℕ) → i < length marks.old
        → slice_index marks.new i ≡ marked (bytes_eq (sector_in bytes.now i)
        (sector_in others.now i))
        (slice_index marks.old i) }
{
    for i in 0..marks.len() {
        if sector_in(bytes, i) != sector_in(others, i) {
            marks[i] = 1;
        }
    }
}

// Marks each sector that differs from this one.
fn mark_unlike(bytes: &[u8], sector: &[u8], marks: &mut [u8])
    requires size { length bytes.now ≡ 512 * length marks.old }
    ensures { (i : ℕ) → i < length marks.old
        → slice_index marks.new i ≡ marked (bytes_eq (sector_in bytes.now i) sector.now)
        (slice_index marks.old i) }
{
    for i in 0..marks.len() {
        if sector_in(bytes, i) != sector {
            marks[i] = 1;
        }
    }
}

// Reads the bytes from the start of a sector on, of a copy.
fn read_copy_run<H: Host>(
    host: &mut H,
    found: &Found,
    plan: &Plan,
    sector: u64,
    copy: usize,
    run: u64,
    out: &mut [u8],
) -> Result<(), Failed>
    requires within { sector < plan.now.size }
    requires copied { copy < copies_of plan.now }
    requires run { IsCommonRun plan.now sector run }
    requires room { length out.old ≤ 512 * run }
    requires lies { LiesOn found.now plan.now (H.seen host.old).sizes }
    ensures bytes { H.tells_disks → OnOk result ((j : ℕ) → j < length out.old
        → slice_index out.new j
        ≡ joined_byte (H.seen host.old).content (option_to_list
        (copy_spot found.now plan.now sector copy)) j) }
    ensures looks { Looks (H.seen host.old) (H.seen host.new) (IsErr result) }
{
    match spot_of(host, found, plan.place(sector, copy)) {
        Some(spot) => read_spot(host, spot, out),
        None => {
            clear(out);
            Ok(())
        }
    }
}

// Reads what a column has from the start of a sector's row and offset on.
fn read_column<H: Host>(
    host: &mut H,
    found: &Found,
    plan: &Plan,
    sector: u64,
    column: usize,
    out: &mut [u8],
) -> Result<(), Failed>
    requires raid5 { plan.now.shape ≡ Raid5 }
    requires within { sector < plan.now.size }
    requires there { column < length (columns_of plan.now) }
    requires has { (s : Place) → spot_at found.now (column_in plan.now sector column) ≡ Some s
        → HasBytes (H.seen host.old).sizes s (length out.old) }
    requires lies { RowsLieOn found.now plan.now (H.seen host.old).sizes }
    ensures bytes { H.tells_disks → OnOk result ((j : ℕ) → j < length out.old
        → slice_index out.new j
        ≡ joined_byte (H.seen host.old).content (option_to_list
        (spot_at found.now (column_in plan.now sector column))) j) }
    ensures looks { Looks (H.seen host.old) (H.seen host.new) (IsErr result) }
{
    match spot_of(host, found, plan.column(sector, column)) {
        Some(spot) => read_spot(host, spot, out),
        None => {
            clear(out);
            Ok(())
        }
    }
}

// Makes of each byte its exclusive-or with what a column has from the start of a sector's row and
// offset on.
fn join_column<H: Host>(
    host: &mut H,
    found: &Found,
    plan: &Plan,
    sector: u64,
    column: usize,
    out: &mut [u8],
    scratch: &mut [u8],
) -> Result<(), Failed>
    requires raid5 { plan.now.shape ≡ Raid5 }
    requires within { sector < plan.now.size }
    requires there { column < length (columns_of plan.now) }
    requires has { (s : Place) → spot_at found.now (column_in plan.now sector column) ≡ Some s
        → HasBytes (H.seen host.old).sizes s (length out.old) }
    requires lies { RowsLieOn found.now plan.now (H.seen host.old).sizes }
    requires same { length scratch.old ≡ length out.old }
    ensures bytes { H.tells_disks → OnOk result ((j : ℕ) → j < length out.old
        → slice_index out.new j
        ≡ fold bit_xor (slice_index out.old j) (map (byte_at (H.seen host.old).content j)
        (option_to_list (spot_at found.now (column_in plan.now sector column))))) }
    ensures looks { Looks (H.seen host.old) (H.seen host.new) (IsErr result) }
{
    match spot_of(host, found, plan.column(sector, column)) {
        Some(spot) => join_spot(host, spot, out, scratch),
        None => Ok(()),
    }
}

// Makes the bytes from a sector on the exclusive-or of all columns in its row.
fn join_row<H: Host>(
    host: &mut H,
    found: &Found,
    plan: &Plan,
    sector: u64,
    out: &mut [u8],
    scratch: &mut [u8],
) -> Result<(), Failed>
    requires raid5 { plan.now.shape ≡ Raid5 }
    requires columned { IsColumned plan.now }
    requires within { sector < plan.now.size }
    requires has { (column : ℕ) (s : Place) → spot_at found.now
        (column_in plan.now sector column) ≡ Some s
        → HasBytes (H.seen host.old).sizes s (length out.old) }
    requires lies { RowsLieOn found.now plan.now (H.seen host.old).sizes }
    requires same { length scratch.old ≡ length out.old }
    ensures bytes { H.tells_disks → OnOk result ((j : ℕ) → j < length out.old
        → slice_index out.new j ≡ joined_byte (H.seen host.old).content
        (row_spots found.now plan.now sector) j) }
    ensures looks { Looks (H.seen host.old) (H.seen host.new) (IsErr result) }
{
    read_column(host, found, plan, sector, 0, out)?;
    'columns: for column in 1..plan.columns() {
        join_column(host, found, plan, sector, column, out, scratch)?;
    }
    Ok(())
}

/// Marks the sectors of a run of a volume with copies, one mark for each, 1 where two copies
/// differ.
pub fn mark_copies<H: Host>(
    host: &mut H,
    found: &Found,
    plan: &Plan,
    sector: u64,
    run: u64,
    out: &mut [u8],
    scratch: &mut [u8],
    marks: &mut [u8],
) -> Result<(), Failed>
    requires other { is_raid5 plan.now.shape ≡ false }
    requires within { sector < plan.now.size }
    requires run { IsCommonRun plan.now sector run }
    requires few { length marks.old ≤ run }
    requires size { length out.old ≡ 512 * length marks.old }
    requires same { length scratch.old ≡ length out.old }
    requires lies { LiesOn found.now plan.now (H.seen host.old).sizes }
    ensures marks { H.tells_disks → OnOk result ((i : ℕ) → i < length marks.old
        → slice_index marks.new i
        ≡ mark (is_bad (H.seen host.old).content found.now plan.now (sector + i))) }
    ensures looks { Looks (H.seen host.old) (H.seen host.new) (IsErr result) }
{
    let count = plan.copies();
    clear(marks);
    read_copy_run(host, found, plan, sector, 0, run, out)?;
    'copies: for copy in 1..count {
        read_copy_run(host, found, plan, sector, copy, run, scratch)?;
        mark_differing(out, scratch, marks);
    }
    Ok(())
}

/// Marks the places of a RAID-5 from this one on, one mark for each, 1 where the parity fails. In
/// the columns they lie side by side, whatever the chunks.
pub fn mark_rows<H: Host>(
    host: &mut H,
    found: &Found,
    plan: &Plan,
    place: u64,
    out: &mut [u8],
    scratch: &mut [u8],
    marks: &mut [u8],
) -> Result<(), Failed>
    requires raid5 { plan.now.shape ≡ Raid5 }
    requires within { (i : ℕ) → i < length marks.old
        → place_sector plan.now (place + i) < plan.now.size }
    requires some { 0 < length marks.old }
    requires size { length out.old ≡ 512 * length marks.old }
    requires same { length scratch.old ≡ length out.old }
    requires lies { RowsLieOn found.now plan.now (H.seen host.old).sizes }
    ensures marks { H.tells_disks → OnOk result ((i : ℕ) → i < length marks.old
        → slice_index marks.new i
        ≡ mark (is_bad_at (H.seen host.old).content found.now plan.now (place + i))) }
    ensures looks { Looks (H.seen host.old) (H.seen host.new) (IsErr result) }
{
    let sector = row_sector(plan, place);
    join_row(host, found, plan, sector, out, scratch)?;
    clear(marks);
    mark_unlike(out, &[0u8; 512], marks);
    Ok(())
}

// Marks one place, that of this sector.
fn mark_one<H: Host>(
    host: &mut H,
    found: &Found,
    plan: &Plan,
    sector: u64,
    out: &mut [u8],
    scratch: &mut [u8],
    marks: &mut [u8],
) -> Result<(), Failed>
    requires within { sector < plan.now.size }
    requires first { plan.now.shape ≡ Raid5 → sector / plan.now.chunk %
        (length (columns_of plan.now) - 1) ≡ 0 }
    requires one { length marks.old ≡ 1 }
    requires size { length out.old ≡ 512 }
    requires same { length scratch.old ≡ length out.old }
    requires lies { LiesOn found.now plan.now (H.seen host.old).sizes }
    requires rows { RowsLieOn found.now plan.now (H.seen host.old).sizes }
    ensures marks { H.tells_disks → OnOk result (slice_index marks.new 0
        ≡ mark (is_bad (H.seen host.old).content found.now plan.now sector)) }
    ensures looks { Looks (H.seen host.old) (H.seen host.new) (IsErr result) }
{
    match plan.shape() {
        Shape::Raid5 => {
            let place = row_place(plan, sector);
            mark_rows(host, found, plan, place, out, scratch, marks)
        }
        _ => {
            let run = common_run(plan, sector);
            mark_copies(host, found, plan, sector, run, out, scratch, marks)
        }
    }
}

/// Whether copies of a mirror's sector differ, or the parity fails in the row of a RAID-5 whose
/// first chunk has the sector, at the sector's offset. It takes no memory.
pub fn place_bad<H: Host>(
    host: &mut H,
    found: &Found,
    plan: &Plan,
    sector: u64,
) -> Result<bool, Failed>
    requires within { sector < plan.now.size }
    requires first { plan.now.shape ≡ Raid5 → sector / plan.now.chunk %
        (length (columns_of plan.now) - 1) ≡ 0 }
    requires lies { LiesOn found.now plan.now (H.seen host.old).sizes }
    requires rows { RowsLieOn found.now plan.now (H.seen host.old).sizes }
    ensures is { H.tells_disks → IfOk result (λ bad. bad
        ≡ is_bad (H.seen host.old).content found.now plan.now sector) }
    ensures looks { Looks (H.seen host.old) (H.seen host.new) (IsErr result) }
{
    let mut out = [0u8; 512];
    let mut scratch = [0u8; 512];
    let mut marks = [0u8; 1];
    mark_one(
        host,
        found,
        plan,
        sector,
        &mut out,
        &mut scratch,
        &mut marks,
    )?;
    Ok(marks[0] == 1)
}
