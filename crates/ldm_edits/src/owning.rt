//! The records of one volume alone, beside those of the group and its disks.
ghost use Rattle.std.specs.Prelude.{◌≡◌, ◌++◌, None, Some, All, IfOk, OnOk, MatchOption, Ok};
ghost use Rattle.std.specs.Prelude.{◌==◌, ◌∷◌, [], List, filter, find, option_copied};
ghost use Rattle.std.specs.List.{cons_option, list_any};
ghost use Rattle.std.specs.Option.{option_map};
ghost use Rattle.ldm_label.specs.declared.Label.{Label};
ghost use Rattle.ldm_rules.specs.Table.{IsSound};
ghost use Rattle.ldm_group.specs.Looks.{is_volume_named, volume_named};
ghost use Rattle.ldm_group.specs.Order.{in_order};
ghost use Rattle.ldm_group.specs.Partitions.{EndsInRange};
ghost use Rattle.ldm_places.specs.Layouts.{Layout};
ghost use Rattle.ldm_layout.specs.Volumes.{layout_of, volume_with};
ghost use Rattle.ldm_edits.specs.Additions.{AreAdditions};
ghost use Rattle.ldm_edits.specs.Replacing.{AreFront, ShowsNamed};
ghost use Rattle.ldm_edits.specs.Staying.{belongs, plex_ids};

use crate::additions::{Additions, is_named, push_copies};
use ldm_bytes::NoMemory;
use ldm_group::{Db, DbError};
use ldm_layout::{LayoutError, Plan, plan};
use ldm_records::{Record, Volume};
use std::alloc::Global;

// The first record that is a volume of this name.
fn first_named<'a>(records: &'a [Record], name: &[u8]) -> Option<&'a Record>
    ensures { option_copied result ≡ find (is_volume_named name.now) records.now }
{
    records.iter().find(|r| is_named(r, name))
}

// The id of that volume.
fn id_named(records: &[Record], name: &[u8]) -> Option<u64>
    ensures { result ≡ option_map (λ v. v.head.id) (volume_named name.now records.now) }
{
    match first_named(records, name) {
        Some(Record::Volume(v)) => Some(v.head.id),
        _ => None,
    }
}

// The id of a component of this volume.
fn component_id(r: &Record, volume: u64) -> Option<u64>
    ensures { cons_option result [] ≡ plex_ids volume (r.now ∷ []) }
{
    match r {
        Record::Component(c) if c.parent == volume => Some(c.head.id),
        _ => None,
    }
}

// The ids of the components of a volume.
fn component_ids(alloc: Global, records: &[Record], volume: u64) -> Result<Vec<u64>, NoMemory>
    ensures { IfOk result (λ ids. ids.items ≡ plex_ids volume records.now) }
{
    let mut ids = Vec::new(alloc);
    for r in records {
        if let Some(id) = component_id(r, volume) {
            ids.push(id)?;
        }
    }
    Ok(ids)
}

// Whether the id is one of these.
fn has_id(ids: &[u64], id: u64) -> bool
    ensures { result ≡ list_any (λ x. x == id) ids.now }
{
    ids.iter().any(|x| *x == id)
}

// Whether the record is the volume of this id, one of its components, which have these ids, or one
// of their partitions.
fn belongs(r: &Record, volume: u64, components: &[u64]) -> bool
    ensures { result ≡ belongs volume components.now r.now }
{
    match r {
        Record::Volume(v) => v.head.id == volume,
        Record::Component(c) => c.parent == volume,
        Record::Partition(p) => has_id(components, p.parent),
        _ => false,
    }
}

// Copies of those that belong to the volume, behind other records.
fn push_own(
    alloc: Global,
    own: &mut Vec<Record>,
    records: &[Record],
    volume: u64,
    components: &[u64],
) -> Result<(), NoMemory>
    ensures { OnOk result (own.new.items
        ≡ own.old.items ++ filter (belongs volume components.now) records.now) }
{
    for r in records {
        if belongs(r, volume, components) {
            own.push(r.clone_in(alloc)?)?;
        }
    }
    Ok(())
}

impl Additions {
    /// The records of the volume of this name, with those of the group and its disks.
    pub fn own(&self, alloc: Global, db: &Db, name: &[u8]) -> Result<Option<Db>, NoMemory>
        requires are { AreAdditions db.now.records self.now }
        requires front { AreFront db.now.records }
        requires sound { (labels : List Label) × IsSound
            (in_order (db.now.records ++ self.now.records.items)) labels }
        ensures { IfOk result (λ found. MatchOption found
            (volume_named name.now (in_order (db.now.records ++ self.now.records.items)) ≡ None)
            (λ own. ShowsNamed own.records
            (in_order (db.now.records ++ self.now.records.items)) name.now)) }
    {
        let Some(volume) = id_named(self.records.as_slice(), name) else {
            return Ok(None);
        };
        let components = component_ids(alloc, self.records.as_slice(), volume)?;
        let header = db.header().with_seq(alloc, db.header().seq)?;
        let mut own = Vec::new(alloc);
        push_copies(alloc, &mut own, db.as_slice())?;
        push_own(
            alloc,
            &mut own,
            self.records.as_slice(),
            volume,
            components.as_slice(),
        )?;
        match Db::new(alloc, header, own) {
            Ok(own) => Ok(Some(own)),
            Err(DbError::NoMemory) => Err(NoMemory),
            Err(DbError::SameId { .. }) => unreachable!(),
        }
    }
}

/// The layout of a volume, where there is one.
pub fn plan_in(alloc: Global, own: &Db, volume: &Volume) -> Result<Plan, NoMemory>
    requires ends { All EndsInRange own.now.records }
    requires again { volume_with volume.now.head.id own.now.records ≡ Some volume.now }
    requires laid_out { (layout : Layout) × (layout_of own.now.records volume.now ≡ Ok layout) }
    ensures { IfOk result (λ plan. layout_of own.now.records volume.now ≡ Ok plan) }
{
    match plan(alloc, own, volume.head.id) {
        Ok(plan) => Ok(plan),
        Err(LayoutError::NoMemory) => Err(NoMemory),
        Err(LayoutError::Fault(_)) => unreachable!(),
    }
}
