//! The lines of a table, as text.
ghost use Rattle.std.specs.Prelude.{◌≡◌, ◌≢◌, ◌++◌, ◌+◌, ◌-◌, ◌*◌, ◌<◌, ◌≤◌, ℕ, None, Some, Option};
ghost use Rattle.std.specs.Prelude.{OnOk, IfOk, flat_map, length, map};
ghost use Rattle.ldm_places.specs.Columns.{columns_of, chunk_of};
ghost use Rattle.ldm_places.specs.declared.shape.Shape.TheVariants.{Stripe, Raid5};
ghost use Rattle.ldm_dump.specs.Sources.{first_copy};
ghost use Rattle.ldm_dump.specs.Runs.{LiesOn};
ghost use Rattle.ldm_table.specs.Targets.{linear, striped, raid5_ls};
ghost use Rattle.ldm_table.specs.Tables.{table_line, stretches_of, column_begin};
ghost use Rattle.ldm_table.specs.Tables.{column_spots, whole_rows, in_rows, row_lines};
ghost use Rattle.ldm_table.specs.Tables.{rest_lines, array_of};
ghost use Rattle.ldm_table.specs.Spelling.{text_of_spot, text_of_sector_range, text_of_target};
ghost use Rattle.ldm_table.specs.Spelling.{text_of_device, text_of_column, text_of_member};
ghost use Rattle.ldm_table.specs.Spelling.{text_of_line, text_of_part_device, text_of_part_if};

use crate::names::{push_argument, push_escaped};
use crate::parts::Member;
use crate::rows::{in_rows, whole_rows};
use crate::stretch::{Stretch, is_behind, stretch_at};
use ldm_bytes::NoMemory;
use ldm_dump::{Spot, spot_of};
use ldm_found::Found;
use ldm_host::Host;
use ldm_layout::{Plan, Shape};
use ldm_text::{Text, push_number};
use ldm_words::Names;
use std::alloc::Global;

// IMAGE SECTOR
#[tactic(auto, unfolding(crate::specs::Spelling::text_of_spot))]
fn push_spot(text: &mut Text, words: &Names, spot: Spot) -> Result<(), NoMemory>
    ensures { OnOk result (text.new ≡ text.old ++ text_of_spot words.now spot) }
{
    if let Some(word) = words.as_slice().get(spot.image) {
        push_argument(text, word.as_slice())?;
    }
    push_number(text, b" ", spot.sector)
}

// ,START SECTORS
#[tactic(auto, unfolding(crate::specs::Spelling::text_of_sector_range))]
fn push_range(text: &mut Text, start: u64, sectors: u64) -> Result<(), NoMemory>
    ensures { OnOk result (text.new ≡ text.old ++ text_of_sector_range start sectors) }
{
    push_number(text, b",", start)?;
    push_number(text, b" ", sectors)
}

#[tactic(auto, unfolding(crate::specs::Spelling::text_of_target))]
fn push_linear(text: &mut Text, words: &Names, spot: Spot) -> Result<(), NoMemory>
    ensures { OnOk result (text.new ≡ text.old ++ text_of_target words.now (linear spot)) }
{
    text.push(b" linear ")?;
    push_spot(text, words, spot)
}

// The device of a member of an array.
#[tactic(auto, unfolding(crate::specs::Spelling::text_of_part_device))]
fn push_part(text: &mut Text, words: &Names, member: &Member) -> Result<(), NoMemory>
    ensures { OnOk result (text.new ≡ text.old ++ text_of_part_device words.now member.now) }
{
    push_escaped(text, member.name.as_slice())?;
    text.push(b",,,ro")?;
    push_range(text, 0, member.sectors)?;
    push_linear(text, words, member.spot)?;
    text.push(b";")
}

/// The devices of an array.
pub(crate) fn push_parts(
    text: &mut Text,
    words: &Names,
    members: &[Option<Member>],
) -> Result<(), NoMemory>
    ensures { OnOk result (text.new ≡ text.old ++ flat_map
        (text_of_part_if words.now) members.now) }
{
    for member in members {
        if let Some(member) = member {
            push_part(text, words, member)?;
        }
    }
    Ok(())
}

// The line of a stretch.
fn push_stretch(text: &mut Text, words: &Names, stretch: &Stretch) -> Result<(), NoMemory>
    ensures { OnOk result (text.new ≡ text.old ++ text_of_line words.now (table_line stretch.now)) }
{
    push_range(text, stretch.start, stretch.sectors)?;
    push_linear(text, words, stretch.spot)
}

// The lines of the sectors from this one on, of which there is one at least.
fn push_stretches<H: Host>(
    text: &mut Text,
    words: &Names,
    host: &H,
    found: &Found,
    plan: &Plan,
    first: u64,
) -> Result<(), NoMemory>
    requires within { first < plan.now.size }
    requires copied { (x : ℕ) → first ≤ x → x < plan.now.size
        → first_copy found.now plan.now x ≢ None }
    requires lies { LiesOn found.now plan.now (H.seen host.now).sizes }
    ensures { OnOk result (text.new ≡ text.old
        ++ flat_map (text_of_line words.now) (map table_line
        (stretches_of found.now plan.now first (plan.now.size - first)))) }
{
    let size = plan.size();
    let mut last = stretch_at(host, found, plan, first);
    let mut sector = first + last.sectors;
    'stretches: while sector < size {
        let next = stretch_at(host, found, plan, sector);
        sector += next.sectors;
        if is_behind(&last, &next) {
            last.sectors += next.sectors;
        } else {
            push_stretch(text, words, &last)?;
            last = next;
        }
    }
    push_stretch(text, words, &last)
}

/// The lines of what whole rows leave.
pub(crate) fn push_rest<H: Host>(
    text: &mut Text,
    words: &Names,
    host: &H,
    found: &Found,
    plan: &Plan,
) -> Result<(), NoMemory>
    requires copied { (x : ℕ) → in_rows plan.now ≤ x → x < plan.now.size
        → first_copy found.now plan.now x ≢ None }
    requires lies { LiesOn found.now plan.now (H.seen host.now).sizes }
    ensures { OnOk result (text.new ≡ text.old ++ flat_map (text_of_line words.now)
        (rest_lines found.now plan.now)) }
{
    let first = in_rows(plan);
    if first < plan.size() {
        push_stretches(text, words, host, found, plan, first)
    } else {
        Ok(())
    }
}

// Where a column of a stripe begins.
fn column_spot<H: Host>(host: &H, found: &Found, plan: &Plan, column: usize) -> Option<Spot>
    requires stripe { plan.now.shape ≡ Stripe }
    requires rows { 0 < whole_rows plan.now }
    requires there { column < length (columns_of plan.now) }
    requires lies { LiesOn found.now plan.now (H.seen host.now).sizes }
    ensures { result ≡ column_begin found.now plan.now column }
{
    prove!(column < plan.columns());
    let at = u128::from(plan.chunk()) * column as u128;
    prove!(at < u128::from(plan.size()));
    spot_of(host, found, plan.place(at as u64, 0))
}

// Where each column of a stripe begins.
fn column_spots<H: Host>(
    alloc: Global,
    host: &H,
    found: &Found,
    plan: &Plan,
) -> Result<Vec<Option<Spot>>, NoMemory>
    requires stripe { plan.now.shape ≡ Stripe }
    requires rows { 0 < whole_rows plan.now }
    requires lies { LiesOn found.now plan.now (H.seen host.now).sizes }
    ensures { IfOk result (λ spots. spots.items ≡ column_spots found.now plan.now) }
{
    let mut spots = Vec::new(alloc);
    'columns: for column in 0..plan.columns() {
        spots.push(column_spot(host, found, plan, column))?;
    }
    Ok(spots)
}

fn push_column(text: &mut Text, words: &Names, spot: Option<Spot>) -> Result<(), NoMemory>
    ensures { OnOk result (text.new ≡ text.old ++ text_of_column words.now spot) }
{
    match spot {
        None => text.push(b" - 0"),
        Some(spot) => {
            text.push(b" ")?;
            push_spot(text, words, spot)
        }
    }
}

fn push_columns(text: &mut Text, words: &Names, columns: &[Option<Spot>]) -> Result<(), NoMemory>
    ensures { OnOk result (text.new ≡ text.old ++ flat_map (text_of_column words.now) columns.now) }
{
    for column in columns {
        push_column(text, words, *column)?;
    }
    Ok(())
}

#[tactic(auto, unfolding(crate::specs::Spelling::text_of_target))]
fn push_striped(
    text: &mut Text,
    words: &Names,
    chunk: u64,
    columns: &[Option<Spot>],
) -> Result<(), NoMemory>
    ensures { OnOk result (text.new ≡ text.old ++ text_of_target words.now
        (striped chunk columns.now)) }
{
    push_number(text, b" striped ", columns.len() as u64)?;
    push_number(text, b" ", chunk)?;
    push_columns(text, words, columns)
}

#[tactic(auto, unfolding(crate::specs::Spelling::text_of_device))]
fn push_device(text: &mut Text, member: &Member) -> Result<(), NoMemory>
    ensures { OnOk result (text.new ≡ text.old ++ text_of_device member.now) }
{
    text.push(b" - /dev/mapper/")?;
    push_argument(text, member.name.as_slice())
}

fn push_member(text: &mut Text, member: &Option<Member>) -> Result<(), NoMemory>
    ensures { OnOk result (text.new ≡ text.old ++ text_of_member member.now) }
{
    match member {
        None => text.push(b" - -"),
        Some(member) => push_device(text, member),
    }
}

fn push_members(text: &mut Text, members: &[Option<Member>]) -> Result<(), NoMemory>
    ensures { OnOk result (text.new ≡ text.old ++ flat_map text_of_member members.now) }
{
    for member in members {
        push_member(text, member)?;
    }
    Ok(())
}

#[tactic(auto, unfolding(crate::specs::Spelling::text_of_target))]
fn push_array(
    text: &mut Text,
    words: &Names,
    chunk: u64,
    members: &[Option<Member>],
) -> Result<(), NoMemory>
    ensures { OnOk result (text.new ≡ text.old ++ text_of_target words.now
        (raid5_ls chunk members.now)) }
{
    let _ = words;
    push_number(text, b" raid raid5_ls 2 ", chunk)?;
    push_number(text, b" nosync ", members.len() as u64)?;
    push_members(text, members)
}

// The line of the whole rows of a stripe.
fn push_stripe_rows<H: Host>(
    alloc: Global,
    text: &mut Text,
    words: &Names,
    host: &H,
    found: &Found,
    plan: &Plan,
) -> Result<(), NoMemory>
    requires stripe { plan.now.shape ≡ Stripe }
    requires rows { 0 < whole_rows plan.now }
    requires lies { LiesOn found.now plan.now (H.seen host.now).sizes }
    ensures { OnOk result (text.new ≡ text.old ++ text_of_line words.now
        (record {
          start = 0;
          sectors = in_rows plan.now;
          target = striped (chunk_of plan.now) (column_spots found.now plan.now);
        })) }
{
    let columns = column_spots(alloc, host, found, plan)?;
    push_range(text, 0, in_rows(plan))?;
    push_striped(text, words, plan.chunk(), &columns)
}

// The line of the whole rows of a RAID-5, over these devices.
fn push_array_rows(
    text: &mut Text,
    words: &Names,
    plan: &Plan,
    members: &[Option<Member>],
) -> Result<(), NoMemory>
    ensures { OnOk result (text.new ≡ text.old ++ text_of_line words.now
        (record {
          start = 0;
          sectors = in_rows plan.now;
          target = raid5_ls (chunk_of plan.now) members.now;
        })) }
{
    push_range(text, 0, in_rows(plan))?;
    push_array(text, words, plan.chunk(), members)
}

/// The line of the whole rows, over these devices where it is a RAID-5; nothing where no row is
/// whole.
pub(crate) fn push_rows<H: Host>(
    alloc: Global,
    text: &mut Text,
    words: &Names,
    host: &H,
    found: &Found,
    plan: &Plan,
    members: &[Option<Member>],
) -> Result<(), NoMemory>
    requires array { members.now ≡ array_of found.now plan.now }
    requires lies { LiesOn found.now plan.now (H.seen host.now).sizes }
    ensures { OnOk result (text.new ≡ text.old ++ flat_map (text_of_line words.now)
        (row_lines found.now plan.now)) }
{
    if whole_rows(plan) == 0 {
        return Ok(());
    }
    match plan.shape() {
        Shape::Stripe => push_stripe_rows(alloc, text, words, host, found, plan),
        Shape::Raid5 => push_array_rows(text, words, plan, members),
        _ => Ok(()),
    }
}
