//! The records of a new volume of each shape, and of a longer span.
ghost use Rattle.std.specs.Prelude.{◌≡◌, ◌+◌, ◌-◌, ◌*◌, ◌^◌, ◌<◌, ◌≤◌, ◌++◌, length, sum_by, IfOk};
ghost use Rattle.ldm_made.specs.Volumes.{there, span_parts, column_parts, mirror_parts};
ghost use Rattle.ldm_made.specs.Volumes.{span_made, stripe_made, raid5_made, mirror_made};

use crate::made::{new_component, new_partition, new_volume};
use crate::taken::Taken;
use ldm_bytes::NoMemory;
use ldm_records::{Record, Striping};
use std::alloc::Global;

/// The sectors that are taken, and so many more.
pub fn sectors_with(from: u64, spots: &[Taken]) -> u64
    requires { from + sum_by (λ t. t.size) spots.now < 2 ^ 64 }
    ensures { result ≡ from + sum_by (λ t. t.size) spots.now }
{
    let mut sectors = from;
    for spot in spots {
        sectors += spot.size;
    }
    sectors
}

/// The partitions of a span's component behind other records, from an offset on: their ids and
/// their offsets follow one another.
pub fn with_tiles(
    alloc: Global,
    records: Vec<Record>,
    id: u64,
    component: u64,
    from: u64,
    spots: &[Taken],
) -> Result<Vec<Record>, NoMemory>
    requires ids { id + length spots.now ≤ 2 ^ 64 }
    requires sizes { from + sum_by (λ t. t.size) spots.now < 2 ^ 64 }
    ensures { IfOk result (λ v. v.items ≡ records.items
        ++ there (span_parts id component from spots.now)) }
{
    let mut records = records;
    let mut offset = from;
    for at in 0..spots.len() {
        let spot = spots[at];
        let own = id + at as u64;
        let tile = new_partition(
            alloc, own, spot.start, offset, spot.size, component, spot.disk, None,
        )?;
        records.push(tile)?;
        offset += spot.size;
    }
    Ok(records)
}

// The partitions of a stripe or RAID-5 behind other records: their ids and their indexes follow one
// another.
fn with_columns(
    alloc: Global,
    records: Vec<Record>,
    id: u64,
    component: u64,
    spots: &[Taken],
) -> Result<Vec<Record>, NoMemory>
    requires { id + length spots.now ≤ 2 ^ 64 }
    ensures { IfOk result (λ v. v.items ≡ records.items
        ++ there (column_parts id component 0 spots.now)) }
{
    let mut records = records;
    for at in 0..spots.len() {
        let spot = spots[at];
        let own = id + at as u64;
        let index = Some(at as u64);
        let column = new_partition(
            alloc, own, spot.start, 0, spot.size, component, spot.disk, index,
        )?;
        records.push(column)?;
    }
    Ok(records)
}

// The components of a mirror behind other records, each followed by its partition.
fn with_copies(
    alloc: Global,
    records: Vec<Record>,
    id: u64,
    volume: u64,
    spots: &[Taken],
) -> Result<Vec<Record>, NoMemory>
    requires { id + 2 * length spots.now ≤ 2 ^ 64 }
    ensures { IfOk result (λ v. v.items ≡ records.items
        ++ there (mirror_parts id volume spots.now)) }
{
    let mut records = records;
    for at in 0..spots.len() {
        let spot = spots[at];
        let own = id + 2 * at as u64;
        records.push(new_component(alloc, own, volume, 2, 1, None)?)?;
        let part = new_partition(
            alloc,
            own + 1,
            spot.start,
            0,
            spot.size,
            own,
            spot.disk,
            None,
        )?;
        records.push(part)?;
    }
    Ok(records)
}

/// The records of a new span.
pub fn span(
    alloc: Global,
    id: u64,
    name: &[u8],
    guid: u128,
    spots: &[Taken],
) -> Result<Vec<Record>, NoMemory>
    requires short { length name.now ≤ 255 }
    requires some { 1 ≤ length spots.now }
    requires ids { id + 2 + length spots.now ≤ 2 ^ 64 }
    requires sizes { sum_by (λ t. t.size) spots.now < 2 ^ 64 }
    ensures { IfOk result (λ v. v.items ≡ span_made id name.now guid spots.now) }
{
    let size = sectors_with(0, spots);
    let count = spots.len() as u64;
    let mut records = Vec::new(alloc);
    records.push(new_volume(alloc, id, name, guid, false, 1, size)?)?;
    records.push(new_component(alloc, id + 1, id, 2, count, None)?)?;
    with_tiles(alloc, records, id + 2, id + 1, 0, spots)
}

/// The records of a new stripe.
pub fn stripe(
    alloc: Global,
    id: u64,
    name: &[u8],
    guid: u128,
    chunk: u64,
    len: u64,
    spots: &[Taken],
) -> Result<Vec<Record>, NoMemory>
    requires short { length name.now ≤ 255 }
    requires some { 1 ≤ length spots.now }
    requires ids { id + 2 + length spots.now ≤ 2 ^ 64 }
    requires size { length spots.now * len < 2 ^ 64 }
    ensures { IfOk result (λ v. v.items ≡ stripe_made id name.now guid chunk len spots.now) }
{
    let columns = spots.len() as u64;
    let striping = Some(Striping { chunk, columns });
    let mut records = Vec::new(alloc);
    records.push(new_volume(alloc, id, name, guid, false, 1, columns * len)?)?;
    records.push(new_component(alloc, id + 1, id, 1, columns, striping)?)?;
    with_columns(alloc, records, id + 2, id + 1, spots)
}

/// The records of a new RAID-5.
pub fn raid5(
    alloc: Global,
    id: u64,
    name: &[u8],
    guid: u128,
    chunk: u64,
    len: u64,
    spots: &[Taken],
) -> Result<Vec<Record>, NoMemory>
    requires short { length name.now ≤ 255 }
    requires some { 1 ≤ length spots.now }
    requires ids { id + 2 + length spots.now ≤ 2 ^ 64 }
    requires size { (length spots.now - 1) * len < 2 ^ 64 }
    ensures { IfOk result (λ v. v.items ≡ raid5_made id name.now guid chunk len spots.now) }
{
    let columns = spots.len() as u64;
    let striping = Some(Striping { chunk, columns });
    let mut records = Vec::new(alloc);
    records.push(new_volume(alloc, id, name, guid, true, 1, (columns - 1) * len)?)?;
    records.push(new_component(alloc, id + 1, id, 3, columns, striping)?)?;
    with_columns(alloc, records, id + 2, id + 1, spots)
}

/// The records of a new mirror.
pub fn mirror(
    alloc: Global,
    id: u64,
    name: &[u8],
    guid: u128,
    len: u64,
    spots: &[Taken],
) -> Result<Vec<Record>, NoMemory>
    requires short { length name.now ≤ 255 }
    requires some { 1 ≤ length spots.now }
    requires ids { id + 1 + 2 * length spots.now ≤ 2 ^ 64 }
    ensures { IfOk result (λ v. v.items ≡ mirror_made id name.now guid len spots.now) }
{
    let count = spots.len() as u64;
    let mut records = Vec::new(alloc);
    records.push(new_volume(alloc, id, name, guid, false, count, len)?)?;
    with_copies(alloc, records, id + 1, id, spots)
}
