//! The extents of a volume's components, before they are laid out.
ghost use Rattle.std.specs.Prelude.{◌≡◌, fold, min};
ghost use Rattle.std.specs.List.{list_all};
ghost use Rattle.ldm_places.specs.Extents.{tiles};
ghost use Rattle.ldm_places.specs.Layouts.{is_tiled, fewest, has_columns, plex_capacity};
ghost use Rattle.ldm_places.specs.Layouts.{capacity_of, layout_fault};

use crate::columns::{raid5_capacity, rises, stripe_capacity};
use crate::extent::Extent;
use crate::shape::{LayoutFault, Shape};
use crate::tiles::{tiles, total_size};
use std::marker::Model;

/// The partitions of a component in the order of the volume's sectors. Contracts see that list.
#[derive(Drop)]
pub struct Extents {
    items: Vec<Extent>,
}

impl Model for Extents {
    ghost use Rattle.std.specs.Prelude.{List};
    ghost use Rattle.ldm_places.specs.declared.extent.Extent.{Extent};

    ghost Value = { List Extent };

    ghost view = { λ e. e.items.items };
}

impl Extents {
    /// The list of these partitions. It takes no memory.
    pub fn from_vec(items: Vec<Extent>) -> Extents
        ensures { result ≡ items.items }
    {
        Extents { items }
    }

    /// The partitions in their order.
    pub fn as_slice(&self) -> &[Extent]
        ensures { result.now ≡ self.now }
    {
        self.items.as_slice()
    }
}

/// A layout that may have faults.
#[derive(Drop)]
pub struct Draft {
    pub shape: Shape,
    pub size: u64,
    pub chunk: u64,
    pub columns: u64,
    pub plexes: Vec<Extents>,
}

impl Model for Draft {
    ghost use Rattle.ldm_places.specs.Layouts.{Layout};

    ghost Value = { Layout };

    ghost view = { λ d. record { shape = d.shape; size = d.size; chunk = d.chunk; columns = d.columns; plexes = d.plexes.items } };
}

/// Whether the partitions of a component lie one after another; else they are columns.
pub fn is_tiled(shape: Shape) -> bool
    ensures { result ≡ is_tiled shape }
{
    match shape {
        Shape::Span | Shape::Mirror => true,
        Shape::Stripe | Shape::Raid5 => false,
    }
}

fn fewest(shape: Shape) -> usize
    ensures { result ≡ fewest shape }
{
    match shape {
        Shape::Raid5 => 3,
        _ => 2,
    }
}

impl Draft {
    /// The components.
    pub fn plexes(&self) -> &[Extents]
        ensures { result.now ≡ self.now.plexes }
    {
        self.plexes.as_slice()
    }

    fn all_tile(&self) -> bool
        ensures { result ≡ list_all tiles self.now.plexes }
    {
        self.plexes.iter().all(|p| tiles(p.as_slice()))
    }

    fn has_columns(&self, plex: &Extents) -> bool
        ensures { result ≡ has_columns self.now plex.now }
    {
        let count = plex.as_slice().len();
        self.columns == count as u64 && fewest(self.shape) <= count && rises(plex.as_slice())
    }

    fn all_have_columns(&self) -> bool
        ensures { result ≡ list_all (has_columns self.now) self.now.plexes }
    {
        self.plexes.iter().all(|p| self.has_columns(p))
    }

    fn plex_capacity(&self, plex: &Extents) -> u128
        ensures { result ≡ plex_capacity self.now.shape self.now.chunk plex.now }
    {
        match self.shape {
            Shape::Stripe => stripe_capacity(plex.as_slice(), self.chunk),
            Shape::Raid5 => raid5_capacity(plex.as_slice(), self.chunk),
            _ => total_size(plex.as_slice()),
        }
    }

    // The least of a number of sectors and those of the components.
    fn capacity_with(&self, sectors: u128, plexes: &[Extents]) -> u128
        ensures { result ≡ fold (λ m es. min m (plex_capacity self.now.shape self.now.chunk es))
            sectors plexes.now }
    {
        plexes
            .iter()
            .fold(sectors, |least, p| least.min(self.plex_capacity(p)))
    }

    /// The sectors that all components hold.
    pub fn capacity(&self) -> u128
        ensures { result ≡ capacity_of self.now }
    {
        match self.plexes.as_slice() {
            [] => 0,
            [first, rest @ ..] => self.capacity_with(self.plex_capacity(first), rest),
        }
    }

    /// The first fault.
    pub fn first_fault(&self) -> Option<LayoutFault>
        ensures { result ≡ layout_fault self.now }
    {
        let tiled = is_tiled(self.shape);
        if tiled && !self.all_tile() {
            return Some(LayoutFault::Gap);
        }
        if !tiled && self.chunk == 0 {
            return Some(LayoutFault::Chunk);
        }
        if !tiled && !self.all_have_columns() {
            return Some(LayoutFault::Columns);
        }
        if self.capacity() < u128::from(self.size) {
            return Some(LayoutFault::Short);
        }
        None
    }
}
