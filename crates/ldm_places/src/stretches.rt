//! How many sectors from one on lie side by side in a component.
ghost use Rattle.std.specs.Prelude.{◌≡◌, ◌+◌, ◌-◌, ◌%◌, ◌<◌, true, false, ℕ, IsTrue, sum_by};
ghost use Rattle.std.specs.Option.{option_map};
ghost use Rattle.ldm_places.specs.Extents.{tiles};
ghost use Rattle.ldm_places.specs.Layouts.{is_tiled, tile_spot, plex_spot};
ghost use Rattle.ldm_places.specs.Plans.{AllEnd};

use crate::draft::is_tiled;
use crate::extent::Extent;
use crate::shape::Shape;
use crate::tiles::tile_at;

// How many sectors from this one on lie in its tile.
fn tile_stretch(extents: &[Extent], sector: u64) -> u64
    requires tiled { IsTrue (tiles extents.now) }
    requires ends { AllEnd extents.now }
    requires within { sector < sum_by (λ e. e.size) extents.now }
    ensures some { 0 < result }
    ensures spots { (i : ℕ) → i < result → tile_spot extents.now (sector + i)
        ≡ option_map (λ s. (s.0, s.1 + i)) (tile_spot extents.now sector) }
{
    let e = tile_at(extents, sector);
    e.size - (sector - e.offset)
}

// How many sectors from this one on lie in its chunk.
fn chunk_stretch(chunk: u64, sector: u64) -> u64
    requires { 0 < chunk }
    ensures is { result ≡ chunk - sector % chunk }
    ensures some { 0 < result }
{
    chunk - sector % chunk
}

/// How many sectors from this one on lie side by side in a component: to the end of the tile or of
/// the chunk.
pub fn plex_stretch(shape: Shape, extents: &[Extent], chunk: u64, sector: u64) -> u64
    requires tiled { is_tiled shape ≡ true → IsTrue (tiles extents.now) }
    requires chunked { is_tiled shape ≡ false → 0 < chunk }
    requires ends { AllEnd extents.now }
    requires within { is_tiled shape ≡ true → sector < sum_by (λ e. e.size) extents.now }
    ensures some { 0 < result }
    ensures spots { (i : ℕ) → i < result → plex_spot shape chunk extents.now (sector + i)
        ≡ option_map (λ s. (s.0, s.1 + i)) (plex_spot shape chunk extents.now sector) }
    ensures chunk { is_tiled shape ≡ false → result ≡ chunk - sector % chunk }
{
    if is_tiled(shape) {
        tile_stretch(extents, sector)
    } else {
        chunk_stretch(chunk, sector)
    }
}
