//! Columns of a stripe or a RAID-5: their capacity, and places in them.
ghost use Rattle.std.specs.Prelude.{◌≡◌, ◌<◌, ◌≤◌, Some, map, fold, min, length};
ghost use Rattle.std.specs.Option.{option_map};
ghost use Rattle.ldm_places.specs.Places.{stripe_capacity, raid5_capacity, raid5_column};
ghost use Rattle.ldm_places.specs.Extents.{rises_from, least};
ghost use Rattle.ldm_places.specs.Layouts.{stripe_spot, raid5_spot, parity_spot, place_at};
ghost use Rattle.ldm_places.specs.Columns.{column_spot};
ghost use Rattle.ldm_places.specs.Plans.{AllEnd};

use crate::extent::Extent;
use crate::shape::Place;

/// Whether the indexes rise.
pub fn rises(extents: &[Extent]) -> bool
    ensures { result ≡ rises_from 0 extents.now }
{
    let mut next = 0;
    for e in extents {
        if u128::from(e.index) < next {
            return false;
        }
        next = u128::from(e.index) + 1;
    }
    true
}

// The least of a size and those of the partitions.
fn least_with(size: u64, extents: &[Extent]) -> u64
    ensures { result ≡ fold (λ m e. min m e.size) size extents.now }
{
    extents.iter().fold(size, |least, e| least.min(e.size))
}

// The size of the least partition, 0 where there is none.
fn least_size(extents: &[Extent]) -> u64
    ensures { result ≡ least (map (λ e. e.size) extents.now) }
{
    match extents {
        [] => 0,
        [first, rest @ ..] => least_with(first.size, rest),
    }
}

/// The sectors of a stripe, 0 without a chunk.
pub fn stripe_capacity(extents: &[Extent], chunk: u64) -> u128
    ensures { result ≡ stripe_capacity (length extents.now) chunk
        (least (map (λ e. e.size) extents.now)) }
{
    if chunk == 0 {
        return 0;
    }
    let rows = least_size(extents) / chunk;
    extents.len() as u128 * u128::from(chunk * rows)
}

/// The sectors of a RAID-5 without its parity, 0 without a chunk.
pub fn raid5_capacity(extents: &[Extent], chunk: u64) -> u128
    ensures { result ≡ raid5_capacity (length extents.now) chunk
        (least (map (λ e. e.size) extents.now)) }
{
    if chunk == 0 {
        return 0;
    }
    let rows = least_size(extents) / chunk;
    extents.len().saturating_sub(1) as u128 * u128::from(chunk * rows)
}

/// Where a sector of a stripe lies.
pub fn stripe_place(columns: &[Extent], chunk: u64, sector: u64) -> Place
    requires chunked { 0 < chunk }
    requires ends { AllEnd columns.now }
    requires within { sector < stripe_capacity (length columns.now) chunk
        (least (map (λ e. e.size) columns.now)) }
    ensures { option_map place_at (stripe_spot columns.now chunk sector) ≡ Some result }
{
    let count = columns.len() as u64;
    let number = sector / chunk;
    let e = columns[(number % count) as usize];
    Place {
        disk: e.disk,
        sector: e.start + (number / count * chunk + sector % chunk),
    }
}

/// Where a sector of a RAID-5 lies.
pub fn raid5_place(columns: &[Extent], chunk: u64, sector: u64) -> Place
    requires chunked { 0 < chunk }
    requires many { 2 ≤ length columns.now }
    requires ends { AllEnd columns.now }
    requires within { sector < raid5_capacity (length columns.now) chunk
        (least (map (λ e. e.size) columns.now)) }
    ensures { option_map place_at (raid5_spot columns.now chunk sector) ≡ Some result }
{
    let count = columns.len() as u64;
    let number = sector / chunk;
    let row = number / (count - 1);
    let parity = count - 1 - row % count;
    let e = columns[((parity + 1 + number % (count - 1)) % count) as usize];
    Place {
        disk: e.disk,
        sector: e.start + (row * chunk + sector % chunk),
    }
}

/// Where the parity of a sector of a RAID-5 lies.
pub fn parity_place(columns: &[Extent], chunk: u64, sector: u64) -> Place
    requires chunked { 0 < chunk }
    requires many { 2 ≤ length columns.now }
    requires ends { AllEnd columns.now }
    requires within { sector < raid5_capacity (length columns.now) chunk
        (least (map (λ e. e.size) columns.now)) }
    ensures { option_map place_at (parity_spot columns.now chunk sector) ≡ Some result }
{
    let count = columns.len() as u64;
    let row = sector / chunk / (count - 1);
    let e = columns[(count - 1 - row % count) as usize];
    Place {
        disk: e.disk,
        sector: e.start + (row * chunk + sector % chunk),
    }
}

/// The column of a RAID-5 in which a sector lies.
pub fn own_column(columns: &[Extent], chunk: u64, sector: u64) -> usize
    requires chunked { 0 < chunk }
    requires many { 2 ≤ length columns.now }
    ensures is { result ≡ raid5_column (length columns.now) chunk sector }
    ensures there { result < length columns.now }
{
    let count = columns.len() as u64;
    let number = sector / chunk;
    let row = number / (count - 1);
    let parity = count - 1 - row % count;
    ((parity + 1 + number % (count - 1)) % count) as usize
}

/// Where a column of a RAID-5 is in the row of a sector, at the sector's offset in its chunk.
pub fn column_place(columns: &[Extent], chunk: u64, sector: u64, column: usize) -> Place
    requires chunked { 0 < chunk }
    requires many { 2 ≤ length columns.now }
    requires ends { AllEnd columns.now }
    requires within { sector < raid5_capacity (length columns.now) chunk
        (least (map (λ e. e.size) columns.now)) }
    requires there { column < length columns.now }
    ensures { option_map place_at (column_spot columns.now chunk sector column) ≡ Some result }
{
    let count = columns.len() as u64;
    let row = sector / chunk / (count - 1);
    let e = columns[column];
    Place {
        disk: e.disk,
        sector: e.start + (row * chunk + sector % chunk),
    }
}
