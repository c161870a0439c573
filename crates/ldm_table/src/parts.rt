//! The devices of an array: what whole rows of a RAID-5 have of each column.
ghost use Rattle.std.specs.Prelude.{◌≡◌, ◌<◌, Some, IfOk, length, find};
ghost use Rattle.std.specs.Prelude.{false};
ghost use Rattle.ldm_places.specs.Columns.{columns_of};
ghost use Rattle.ldm_places.specs.declared.shape.Shape.TheVariants.{Raid5};
ghost use Rattle.ldm_dump.specs.Sources.{spot_of};
ghost use Rattle.ldm_dump.specs.Runs.{IsOn, RowsLieOn};
ghost use Rattle.ldm_dump.specs.declared.spots.Spot.{Spot as Sector};
ghost use Rattle.ldm_table.specs.Tables.{begins_at, name_in, partition_name, member_from};
ghost use Rattle.ldm_table.specs.Tables.{member_at, members_of, array_of, whole_rows};

use crate::names::part_name;
use crate::rows::{rows_in_column, whole_rows};
use ldm_bytes::{Bytes, NoMemory};
use ldm_dump::{Spot, spot_of};
use ldm_found::Found;
use ldm_host::Host;
use ldm_layout::{Place, Plan, Shape};
use ldm_records::Record;
use std::alloc::Global;

/// A device of an array: its name, where it begins on an image, and its sectors, all of which lie
/// side by side.
#[derive(Drop)]
pub struct Member {
    pub name: Bytes,
    pub spot: Spot,
    pub sectors: u64,
}

fn begins_at(place: Place, r: &Record) -> bool
    ensures { result ≡ begins_at place r.now }
{
    match r {
        Record::Partition(p) => p.disk == place.disk && p.start == place.sector,
        _ => false,
    }
}

fn name_in(r: &Record) -> &[u8]
    ensures { result.now ≡ name_in r.now }
{
    match r {
        Record::Partition(p) => p.head.name.as_slice(),
        _ => &[],
    }
}

// The name of the partition that begins there.
#[tactic(auto, unfolding(crate::specs::Tables::partition_name))]
fn partition_name(place: Place, records: &[Record]) -> &[u8]
    ensures { result.now ≡ partition_name place records.now }
{
    match records.iter().find(|r| begins_at(place, r)) {
        Some(r) => name_in(r),
        None => &[],
    }
}

// A device of this number of sectors, from this place on.
fn member_from<H: Host>(
    alloc: Global,
    host: &H,
    found: &Found,
    sectors: u64,
    place: Place,
) -> Result<Option<Member>, NoMemory>
    requires { (s : Sector) → spot_of found.now place ≡ Some s → IsOn (H.seen host.now).sizes s }
    ensures { IfOk result (λ member. member ≡ member_from found.now sectors place) }
{
    let Some(spot) = spot_of(host, found, place) else {
        return Ok(None);
    };
    let partition = partition_name(place, found.db.as_slice());
    let name = part_name(alloc, found.db.header().name.as_slice(), partition)?;
    Ok(Some(Member {
        name,
        spot,
        sectors,
    }))
}

// What whole rows have of a column.
fn member_at<H: Host>(
    alloc: Global,
    host: &H,
    found: &Found,
    plan: &Plan,
    column: usize,
) -> Result<Option<Member>, NoMemory>
    requires raid5 { plan.now.shape ≡ Raid5 }
    requires rows { 0 < whole_rows plan.now }
    requires there { column < length (columns_of plan.now) }
    requires lies { RowsLieOn found.now plan.now (H.seen host.now).sizes }
    ensures { IfOk result (λ member. member ≡ member_at found.now plan.now column) }
{
    let sectors = rows_in_column(plan);
    member_from(alloc, host, found, sectors, plan.column(0, column))
}

// The devices of the array of whole rows.
fn members_of<H: Host>(
    alloc: Global,
    host: &H,
    found: &Found,
    plan: &Plan,
) -> Result<Vec<Option<Member>>, NoMemory>
    requires raid5 { plan.now.shape ≡ Raid5 }
    requires rows { 0 < whole_rows plan.now }
    requires lies { RowsLieOn found.now plan.now (H.seen host.now).sizes }
    ensures { IfOk result (λ members. members.items ≡ members_of found.now plan.now) }
{
    let mut members = Vec::new(alloc);
    'columns: for column in 0..plan.columns() {
        members.push(member_at(alloc, host, found, plan, column)?)?;
    }
    Ok(members)
}

/// The devices of the array that the table of a RAID-5 has; other shapes have none.
pub(crate) fn array_of<H: Host>(
    alloc: Global,
    host: &H,
    found: &Found,
    plan: &Plan,
) -> Result<Vec<Option<Member>>, NoMemory>
    requires { RowsLieOn found.now plan.now (H.seen host.now).sizes }
    ensures { IfOk result (λ members. members.items ≡ array_of found.now plan.now) }
{
    match plan.shape() {
        Shape::Raid5 if whole_rows(plan) > 0 => members_of(alloc, host, found, plan),
        _ => Ok(Vec::new(alloc)),
    }
}
