//! Components and partitions as a layout sees them.
ghost use Rattle.std.specs.Prelude.{◌≡◌, ℕ, IfOk};
ghost use Rattle.std.specs.List.{filter_map};
ghost use Rattle.std.specs.List.Sorted.{IsNonDecreasingBy};
ghost use Rattle.ldm_layout.specs.Parts.{plex_in, extent_in, plexes_at, extents_at};
ghost use Rattle.ldm_layout.specs.Grouped.{Lists, IsListsOf};

use ldm_bytes::NoMemory;
use ldm_places::Extent;
use ldm_records::{Record, Striping};
use std::alloc::Global;
use std::marker::Model;

/// What a layout reads of a component.
#[derive(Clone, Copy)]
pub struct Plex {
    pub volume: u64,
    pub id: u64,
    pub layout: u8,
    pub striping: Option<Striping>,
}

/// The components of all volumes, and the partitions of all components, side by side.
#[derive(Drop)]
pub struct Parts {
    plexes: Vec<Plex>,
    extents: Vec<Extent>,
}

impl Model for Parts {
    ghost use Rattle.std.specs.List.Sorted.{IsNonDecreasingBy};
    ghost use Rattle.ldm_layout.specs.Grouped.{Lists};

    ghost Value = { Lists };

    ghost view = { λ p. record { plexes = p.plexes.items; extents = p.extents.items } };

    ghost invariant = { λ p. IsNonDecreasingBy (λ x. x.volume) p.plexes.items × IsNonDecreasingBy (λ x. x.component) p.extents.items };
}

fn plex_in(r: &Record) -> Option<Plex>
    ensures { result ≡ plex_in r.now }
{
    match r {
        Record::Component(c) => Some(Plex {
            volume: c.parent,
            id: c.head.id,
            layout: c.layout,
            striping: c.striping,
        }),
        _ => None,
    }
}

fn extent_in(r: &Record) -> Option<Extent>
    ensures { result ≡ extent_in r.now }
{
    match r {
        Record::Partition(p) => Some(Extent {
            component: p.parent,
            disk: p.disk,
            start: p.start,
            size: p.size,
            offset: p.offset,
            index: p.index.unwrap_or(0),
        }),
        _ => None,
    }
}

fn plexes_in(alloc: Global, records: &[Record]) -> Result<Vec<Plex>, NoMemory>
    ensures { IfOk result (λ v. v.items ≡ filter_map plex_in records.now) }
{
    let mut plexes = Vec::new(alloc);
    for r in records {
        if let Some(plex) = plex_in(r) {
            plexes.push(plex)?;
        }
    }
    Ok(plexes)
}

fn extents_in(alloc: Global, records: &[Record]) -> Result<Vec<Extent>, NoMemory>
    ensures { IfOk result (λ v. v.items ≡ filter_map extent_in records.now) }
{
    let mut extents = Vec::new(alloc);
    for r in records {
        if let Some(extent) = extent_in(r) {
            extents.push(extent)?;
        }
    }
    Ok(extents)
}

// The components, those of one volume side by side in their order.
fn plexes_by_volume(plexes: Vec<Plex>) -> Result<Vec<Plex>, NoMemory>
    ensures rising { IfOk result (λ v. IsNonDecreasingBy (λ p. p.volume) v.items) }
    ensures same { IfOk result (λ v. (q : ℕ) → plexes_at q v.items ≡ plexes_at q plexes.items) }
{
    let mut plexes = plexes;
    plexes.sort_by_key(|p| p.volume)?;
    Ok(plexes)
}

// The partitions, those of one component side by side in their order.
fn extents_by_component(extents: Vec<Extent>) -> Result<Vec<Extent>, NoMemory>
    ensures rising { IfOk result (λ v. IsNonDecreasingBy (λ e. e.component) v.items) }
    ensures same { IfOk result (λ v. (q : ℕ) → extents_at q v.items ≡ extents_at q extents.items) }
{
    let mut extents = extents;
    extents.sort_by_key(|e| e.component)?;
    Ok(extents)
}

fn plexes_at(plexes: &[Plex], volume: u64) -> &[Plex]
    requires { IsNonDecreasingBy (λ p. p.volume) plexes.now }
    ensures { result.now ≡ plexes_at volume plexes.now }
{
    let start = plexes.partition_point(|p| p.volume < volume);
    let end = plexes.partition_point(|p| p.volume <= volume);
    &plexes[start..end]
}

fn extents_at(extents: &[Extent], component: u64) -> &[Extent]
    requires { IsNonDecreasingBy (λ e. e.component) extents.now }
    ensures { result.now ≡ extents_at component extents.now }
{
    let start = extents.partition_point(|e| e.component < component);
    let end = extents.partition_point(|e| e.component <= component);
    &extents[start..end]
}

impl Parts {
    /// The parts of these records.
    pub fn of(alloc: Global, records: &[Record]) -> Result<Parts, NoMemory>
        ensures { IfOk result (λ p. IsListsOf p records.now) }
    {
        let plexes = plexes_by_volume(plexes_in(alloc, records)?)?;
        let extents = extents_by_component(extents_in(alloc, records)?)?;
        Ok(Parts { plexes, extents })
    }

    /// The components of a volume, in rising id.
    pub fn plexes(&self, volume: u64) -> &[Plex]
        ensures { result.now ≡ plexes_at volume self.now.plexes }
    {
        plexes_at(self.plexes.as_slice(), volume)
    }

    /// The partitions of a component, in rising id.
    pub fn extents(&self, component: u64) -> &[Extent]
        ensures { result.now ≡ extents_at component self.now.extents }
    {
        extents_at(self.extents.as_slice(), component)
    }
}
