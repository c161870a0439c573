//! Which records leave the group, and those that stay.
ghost use Rattle.std.specs.Prelude.{◌≡◌, IfOk};
ghost use Rattle.ldm_group.specs.Looks.{is_at, is_child};
ghost use Rattle.ldm_group.specs.Order.{Rising};
ghost use Rattle.ldm_layout.specs.Parts.{is_of_volume};
ghost use Rattle.ldm_edits.specs.Staying.{is_component_of, leaves, staying};

use ldm_bytes::NoMemory;
use ldm_group::{Db, id_of, kind_of};
use ldm_records::Record;
use std::alloc::Global;

/// Which records of a group don't stay as they are. Objects are named by their ids.
#[derive(Clone, Copy)]
pub enum Leaving {
    /// A volume and a component, for changed ones in their places.
    Changed { volume: u64, component: u64 },
    /// A volume and its components, for changed ones in their places.
    Grown { volume: u64 },
    /// A volume with its components and their partitions.
    Deleted { volume: u64 },
}

// Whether the component of this id is there and of this volume.
fn is_component_of(db: &Db, component: u64, volume: u64) -> bool
    ensures { result ≡ is_component_of volume db.now.records component }
{
    match db.by_id(4, component) {
        Some(Record::Component(c)) => c.parent == volume,
        _ => false,
    }
}

// Whether the record is the volume of this id, one of its components, or one of their partitions.
#[tactic(auto, using(crate::proofs::CommandLaws::component_is))]
fn goes(db: &Db, volume: u64, r: &Record) -> bool
    ensures { result ≡ is_of_volume volume db.now.records r.now }
{
    let _rising = db.as_slice();
    match r {
        Record::Volume(v) => v.head.id == volume,
        Record::Component(c) => c.parent == volume,
        Record::Partition(p) => is_component_of(db, p.parent, volume),
        _ => false,
    }
}

fn is_at(r: &Record, kind: u8, id: u64) -> bool
    ensures { result ≡ is_at kind id r.now }
{
    kind_of(r) == kind && id_of(r) == id
}

// Whether the record is a component of this volume.
fn is_in(r: &Record, volume: u64) -> bool
    ensures { result ≡ is_child 3 volume r.now }
{
    match r {
        Record::Component(c) => c.parent == volume,
        _ => false,
    }
}

impl Leaving {
    /// Whether a record of the group leaves it.
    pub fn takes(self, db: &Db, r: &Record) -> bool
        ensures { result ≡ leaves self db.now.records r.now }
    {
        match self {
            Leaving::Changed { volume, component } => is_at(r, 3, volume) || is_at(r, 4, component),
            Leaving::Grown { volume } => is_at(r, 3, volume) || is_in(r, volume),
            Leaving::Deleted { volume } => goes(db, volume, r),
        }
    }
}

/// Copies of the records that stay.
#[tactic(auto, using(crate::proofs::LimitLaws::kept))]
pub fn stay(alloc: Global, db: &Db, leaving: Leaving) -> Result<Vec<Record>, NoMemory>
    ensures is { IfOk result (λ v. v.items ≡ staying leaving db.now.records) }
    ensures rising { Rising db.now.records }
{
    let mut records = Vec::new(alloc);
    for r in db.as_slice() {
        if !leaving.takes(db, r) {
            records.push(r.clone_in(alloc)?)?;
        }
    }
    Ok(records)
}
