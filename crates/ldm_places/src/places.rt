//! Where a sector of a volume lies, its parity, and how many sectors lie side by side.
ghost use Rattle.std.specs.Prelude.{◌≡◌, ◌<◌, ◌↔◌, false, IsSome, Some, length, slice_get};
ghost use Rattle.ldm_places.specs.Layouts.{is_tiled, capacity_of, copies_of, place_in, parity_in};
ghost use Rattle.ldm_places.specs.Columns.{columns_of, chunk_of, IsColumned, own_column, column_in};
ghost use Rattle.ldm_places.specs.Columns.{IsStretch};
ghost use Rattle.ldm_places.specs.Plans.{IsPlan, IsPlexOf};
ghost use Rattle.ldm_places.specs.declared.shape.Shape.TheVariants.{Raid5};

use crate::columns::{column_place, own_column, parity_place, raid5_place, stripe_place};
use crate::draft::{Draft, is_tiled};
use crate::extent::Extent;
use crate::shape::{Place, Shape};
use crate::stretches::plex_stretch;
use crate::tiles::tile_place;
use std::marker::Model;

/// The layout of a volume, without fault.
pub struct Plan {
    draft: Draft,
}

// By hand, so that a function that lets a plan go has one step for all that it has.
impl Drop for Plan {
    fn drop(self) {
        let Plan { draft: _ } = self;
    }
}

impl Model for Plan {
    ghost use Rattle.ldm_places.specs.Layouts.{Layout};
    ghost use Rattle.ldm_places.specs.Plans.{IsPlan};

    ghost Value = { Layout };

    ghost view = { λ p. p.draft };

    ghost invariant = { λ p. IsPlan p.draft };
}

impl Plan {
    /// The plan of a layout without faults.
    pub fn from_draft(draft: Draft) -> Plan
        requires { IsPlan draft }
        ensures { result ≡ draft }
    {
        Plan { draft }
    }

    pub fn shape(&self) -> Shape
        ensures { result ≡ self.now.shape }
    {
        self.draft.shape
    }

    /// The sectors of the volume.
    pub fn size(&self) -> u64
        ensures { result ≡ self.now.size }
    {
        self.draft.size
    }

    /// The sectors that the volume's components hold, at least its own.
    pub fn capacity(&self) -> u128
        ensures { result ≡ capacity_of self.now }
    {
        self.draft.capacity()
    }

    /// How many places each sector has: as many as a mirror has components, and one in other
    /// shapes.
    pub fn copies(&self) -> usize
        ensures is { result ≡ copies_of self.now }
        ensures some { 0 < self.now.size → 0 < result }
    {
        self.draft.plexes.len()
    }

    // The partitions of the copy.
    fn plex(&self, copy: usize) -> &[Extent]
        requires { copy < copies_of self.now }
        ensures there { slice_get self.now.plexes copy ≡ Some result.now }
        ensures holds { IsPlexOf self.now result.now }
    {
        let plexes = self.draft.plexes();
        plexes[copy].as_slice()
    }

    /// Where a sector lies in one of its copies.
    pub fn place(&self, sector: u64, copy: usize) -> Place
        requires within { sector < self.now.size }
        requires copied { copy < copies_of self.now }
        ensures { place_in self.now sector copy ≡ Some result }
    {
        let extents = self.plex(copy);
        match self.draft.shape {
            Shape::Span | Shape::Mirror => tile_place(extents, sector),
            Shape::Stripe => stripe_place(extents, self.draft.chunk, sector),
            Shape::Raid5 => raid5_place(extents, self.draft.chunk, sector),
        }
    }

    /// Where the parity of a sector lies. Only RAID-5 has parity.
    pub fn parity(&self, sector: u64) -> Option<Place>
        requires { sector < self.now.size }
        ensures is { result ≡ parity_in self.now sector }
        ensures there { IsSome result ↔ (self.now.shape ≡ Raid5) }
    {
        match self.draft.shape {
            Shape::Raid5 => Some(parity_place(self.plex(0), self.draft.chunk, sector)),
            _ => None,
        }
    }

    // The columns of a stripe or a RAID-5.
    fn column_slice(&self) -> &[Extent]
        ensures is { result.now ≡ columns_of self.now }
        ensures holds { is_tiled self.now.shape ≡ false → IsPlexOf self.now result.now }
        ensures there { is_tiled self.now.shape ≡ false
            → slice_get self.now.plexes 0 ≡ Some result.now }
    {
        if is_tiled(self.draft.shape) {
            &[]
        } else {
            self.plex(0)
        }
    }

    /// How many columns a stripe or a RAID-5 has; 0 for other shapes.
    pub fn columns(&self) -> usize
        ensures count { result ≡ length (columns_of self.now) }
        ensures columned { is_tiled self.now.shape ≡ false → IsColumned self.now }
    {
        self.column_slice().len()
    }

    /// The sectors of a chunk of a stripe or a RAID-5; 0 for other shapes.
    pub fn chunk(&self) -> u64
        ensures is { result ≡ chunk_of self.now }
        ensures some { is_tiled self.now.shape ≡ false → 0 < result }
    {
        if is_tiled(self.draft.shape) {
            0
        } else {
            self.draft.chunk
        }
    }

    /// The column of a RAID-5 in which a sector lies.
    pub fn own_column(&self, sector: u64) -> usize
        requires { self.now.shape ≡ Raid5 }
        ensures is { result ≡ own_column self.now sector }
        ensures there { result < length (columns_of self.now) }
    {
        own_column(self.column_slice(), self.draft.chunk, sector)
    }

    /// Where a column of a RAID-5 is in the row of a sector, at the sector's offset in its chunk.
    pub fn column(&self, sector: u64, column: usize) -> Place
        requires raid5 { self.now.shape ≡ Raid5 }
        requires within { sector < self.now.size }
        requires there { column < length (columns_of self.now) }
        ensures { column_in self.now sector column ≡ Some result }
    {
        column_place(self.column_slice(), self.draft.chunk, sector, column)
    }

    /// How many sectors from this one on lie side by side in a copy: to the end of the partition,
    /// of the chunk or of the volume.
    pub fn stretch(&self, sector: u64, copy: usize) -> u64
        requires within { sector < self.now.size }
        requires copied { copy < copies_of self.now }
        ensures { IsStretch self.now sector copy result }
    {
        let piece = plex_stretch(self.draft.shape, self.plex(copy), self.draft.chunk, sector);
        piece.min(self.draft.size - sector)
    }
}
