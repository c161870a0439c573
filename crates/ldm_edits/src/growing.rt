//! The records of a mirror that is longer.
ghost use Rattle.std.specs.Prelude.{◌≡◌, ◌+◌, ◌++◌, ◌^◌, ◌<◌, ◌≤◌, ◌∷◌, All, IfOk, true};
ghost use Rattle.std.specs.Prelude.{filter, is_some, length, map};
ghost use Rattle.std.specs.List.{filter_map};
ghost use Rattle.std.specs.Option.{option_map};
ghost use Rattle.ldm_records.specs.declared.types.Record.TheVariants as kinds;
ghost use Rattle.ldm_made.specs.Made.{resized, with_children};
ghost use Rattle.ldm_group.specs.Looks.{is_child};
ghost use Rattle.ldm_made.specs.Volumes.{there};
ghost use Rattle.ldm_edits.specs.Mirroring.{component_in_record, component_holds, grown_components};
ghost use Rattle.ldm_edits.specs.Mirroring.{grown_parts};
ghost use Rattle.ldm_layout.specs.Parts.{extents_of, by_offset, held_in};

use ldm_bytes::NoMemory;
use ldm_group::Db;
use ldm_made::{Taken, new_partition, resized, with_children};
use ldm_records::{Component, Record, Volume};
use std::alloc::Global;

/// The components of a volume, in rising id.
pub fn components_of(alloc: Global, db: &Db, volume: u64) -> Result<Vec<&Component>, NoMemory>
    ensures { IfOk result (λ v. map (λ c. c.now) v.items
        ≡ filter_map component_in_record (filter (is_child 3 volume) db.now.records)) }
{
    let mut found = Vec::new(alloc);
    for r in db.as_slice() {
        if let Record::Component(c) = r {
            if c.parent == volume {
                found.push(c)?;
            }
        }
    }
    Ok(found)
}

/// The sectors that the partitions of a component hold.
#[tactic(auto, using(crate::proofs::GrowWalk::held_all))]
pub fn held_by(db: &Db, component: u64) -> u128
    ensures { result ≡ held_in (by_offset (extents_of component db.now.records)) }
{
    let mut sectors = 0;
    for r in db.as_slice() {
        if let Record::Partition(p) = r {
            if p.parent == component {
                sectors += u128::from(p.size);
            }
        }
    }
    sectors
}

// The components behind other records, with one partition more each.
fn with_components(
    alloc: Global,
    records: Vec<Record>,
    components: &[&Component],
) -> Result<Vec<Record>, NoMemory>
    requires few { All (λ c. c.now.children + 1 < 2 ^ 64) components.now }
    requires made { All (λ c. is_some (with_children c.now (c.now.children + 1))
        ≡ true) components.now }
    ensures { IfOk result (λ v. v.items ≡ records.items
        ++ there (grown_components (map (λ c. c.now) components.now))) }
{
    let mut records = records;
    for at in 0..components.len() {
        let component = components[at];
        let grown = with_children(component, alloc, component.children + 1)?;
        records.push(Record::Component(grown))?;
    }
    Ok(records)
}

// A partition for each component behind other records, at these sectors.
fn with_parts(
    alloc: Global,
    records: Vec<Record>,
    db: &Db,
    id: u64,
    components: &[&Component],
    spots: &[Taken],
) -> Result<Vec<Record>, NoMemory>
    requires one_each { length components.now ≡ length spots.now }
    requires ids { id + length spots.now ≤ 2 ^ 64 }
    requires low { All (λ c. component_holds db.now.records c.now < 2 ^ 64) components.now }
    ensures { IfOk result (λ v. v.items ≡ records.items
        ++ there (grown_parts db.now.records id (map (λ c. c.now) components.now) spots.now)) }
{
    let mut records = records;
    for at in 0..spots.len() {
        let component = components[at];
        let spot = spots[at];
        let own = id + at as u64;
        let offset = held_by(db, component.head.id) as u64;
        let part = new_partition(
            alloc,
            own,
            spot.start,
            offset,
            spot.size,
            component.head.id,
            spot.disk,
            None,
        )?;
        records.push(part)?;
    }
    Ok(records)
}

/// The longer volume, its components with one partition more each, and the new partitions.
pub fn grown(
    alloc: Global,
    db: &Db,
    volume: &Volume,
    size: u64,
    id: u64,
    components: &[&Component],
    spots: &[Taken],
) -> Result<Vec<Record>, NoMemory>
    requires volume_there { is_some (resized volume.now size) ≡ true }
    requires few { All (λ c. c.now.children + 1 < 2 ^ 64) components.now }
    requires made { All (λ c. is_some (with_children c.now (c.now.children + 1))
        ≡ true) components.now }
    requires one_each { length components.now ≡ length spots.now }
    requires ids { id + length spots.now ≤ 2 ^ 64 }
    requires low { All (λ c. component_holds db.now.records c.now < 2 ^ 64) components.now }
    ensures { IfOk result (λ v. v.items ≡ there (option_map kinds.Volume (resized volume.now size)
        ∷ (grown_components (map (λ c. c.now) components.now)
        ++ grown_parts db.now.records id (map (λ c. c.now) components.now) spots.now))) }
{
    let mut records = Vec::new(alloc);
    records.push(Record::Volume(resized(volume, alloc, size)?))?;
    let records = with_components(alloc, records, components)?;
    with_parts(alloc, records, db, id, components, spots)
}
