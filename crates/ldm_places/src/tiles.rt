//! Extents that lie one after another.
ghost use Rattle.std.specs.Prelude.{◌≡◌, ◌<◌, ◌≤◌, ◌+◌, ◌^◌, Some, find, sum_by, IsTrue};
ghost use Rattle.std.specs.Option.{option_map};
ghost use Rattle.ldm_places.specs.Extents.{tiles};
ghost use Rattle.ldm_places.specs.Layouts.{covers, tile_spot, place_at};
ghost use Rattle.ldm_places.specs.Plans.{AllEnd};

use crate::extent::Extent;
use crate::shape::Place;

/// Whether there are partitions, and each begins where the one before ends, the first at 0.
pub fn tiles(extents: &[Extent]) -> bool
    ensures { result ≡ tiles extents.now }
{
    let mut end = 0;
    for e in extents {
        if u128::from(e.offset) != end {
            return false;
        }
        end = u128::from(e.offset) + u128::from(e.size);
    }
    !extents.is_empty()
}

/// The sectors that the partitions have together.
pub fn total_size(extents: &[Extent]) -> u128
    ensures { result ≡ sum_by (λ e. e.size) extents.now }
{
    let mut total = 0;
    for e in extents {
        total += u128::from(e.size);
    }
    total
}

/// The partition in which a sector lies, among partitions that tile.
pub fn tile_at(extents: &[Extent], sector: u64) -> Extent
    requires tiled { IsTrue (tiles extents.now) }
    requires ends { AllEnd extents.now }
    requires within { sector < sum_by (λ e. e.size) extents.now }
    ensures found { find (covers sector) extents.now ≡ Some result }
    ensures low { result.offset ≤ sector }
    ensures high { sector < result.offset + result.size }
    ensures ends { result.start + result.size < 2 ^ 64 }
{
    let next = extents.partition_point(|e| e.offset <= sector);
    extents[next - 1]
}

/// Where a sector lies among partitions that tile.
pub fn tile_place(extents: &[Extent], sector: u64) -> Place
    requires tiled { IsTrue (tiles extents.now) }
    requires ends { AllEnd extents.now }
    requires within { sector < sum_by (λ e. e.size) extents.now }
    ensures { option_map place_at (tile_spot extents.now sector) ≡ Some result }
{
    let e = tile_at(extents, sector);
    Place {
        disk: e.disk,
        sector: e.start + (sector - e.offset),
    }
}
