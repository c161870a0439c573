//! From components and extents to a layout, or its first fault.
ghost use Rattle.std.specs.Prelude.{◌≡◌, IfOk, map};
ghost use Rattle.std.specs.List.{list_all};
ghost use Rattle.ldm_layout.specs.Parts.{plexes_at, extents_at, tile_key, in_rising};
ghost use Rattle.ldm_layout.specs.Volumes.{shape_of, striping_of, laid_out, draft_of, is_basic};

use crate::parts::{Parts, Plex};
use ldm_bytes::NoMemory;
use ldm_places::{Draft, Extent, Extents, Shape, is_tiled};
use ldm_records::{Striping, Volume};
use std::alloc::Global;

/// The shape of a volume of these components, where they make one.
pub fn shape_of(plexes: &[Plex]) -> Option<Shape>
    ensures { result ≡ shape_of plexes.now }
{
    match plexes {
        [] => None,
        [only] => match only.layout {
            2 => Some(Shape::Span),
            1 => Some(Shape::Stripe),
            3 => Some(Shape::Raid5),
            _ => None,
        },
        _ => {
            if all_basic(plexes) {
                Some(Shape::Mirror)
            } else {
                None
            }
        }
    }
}

fn all_basic(plexes: &[Plex]) -> bool
    ensures { result ≡ list_all is_basic plexes.now }
{
    plexes.iter().all(|p| p.layout == 2)
}

fn striping_of(plexes: &[Plex]) -> Striping
    ensures { result ≡ striping_of plexes.now }
{
    let none = Striping {
        chunk: 0,
        columns: 0,
    };
    match plexes {
        [] => none,
        [first, ..] => first.striping.unwrap_or(none),
    }
}

fn by_offset(extents: Vec<Extent>) -> Result<Vec<Extent>, NoMemory>
    ensures { IfOk result (λ v. v.items ≡ in_rising tile_key extents.items) }
{
    let mut extents = extents;
    extents.sort_by_key(|e| u128::from(e.offset) * 0x1_0000_0000_0000_0000 + u128::from(e.size))?;
    Ok(extents)
}

fn by_index(extents: Vec<Extent>) -> Result<Vec<Extent>, NoMemory>
    ensures { IfOk result (λ v. v.items ≡ in_rising (λ e. e.index) extents.items) }
{
    let mut extents = extents;
    extents.sort_by_key(|e| e.index)?;
    Ok(extents)
}

fn laid_out(alloc: Global, shape: Shape, extents: &[Extent]) -> Result<Extents, NoMemory>
    ensures { IfOk result (λ es. es ≡ laid_out shape extents.now) }
{
    let extents = extents.to_vec(alloc)?;
    let items = if is_tiled(shape) {
        by_offset(extents)?
    } else {
        by_index(extents)?
    };
    Ok(Extents::from_vec(items))
}

fn all_laid_out(
    alloc: Global,
    parts: &Parts,
    shape: Shape,
    plexes: &[Plex],
) -> Result<Vec<Extents>, NoMemory>
    ensures { IfOk result (λ v. v.items ≡ map (λ p. laid_out shape
        (extents_at p.id parts.now.extents)) plexes.now) }
{
    let mut all = Vec::new(alloc);
    for p in plexes {
        all.push(laid_out(alloc, shape, parts.extents(p.id))?)?;
    }
    Ok(all)
}

/// The layout of a volume, with its faults, where its components make a shape.
pub fn draft_of(alloc: Global, parts: &Parts, volume: &Volume) -> Result<Option<Draft>, NoMemory>
    ensures { IfOk result (λ d. d ≡ draft_of volume.now.size
        (plexes_at volume.now.head.id parts.now.plexes) (λ c. extents_at c parts.now.extents)) }
{
    let plexes = parts.plexes(volume.head.id);
    let Some(shape) = shape_of(plexes) else {
        return Ok(None);
    };
    let striping = striping_of(plexes);
    let plexes = all_laid_out(alloc, parts, shape, plexes)?;
    Ok(Some(Draft {
        shape,
        size: volume.size,
        chunk: striping.chunk,
        columns: striping.columns,
        plexes,
    }))
}
