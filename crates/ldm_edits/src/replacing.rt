//! What a command puts in the places of records that leave the group, and a change of a batch.
ghost use Rattle.std.specs.Prelude.{◌≡◌, ◌+◌, ◌++◌, ◌^◌, ◌-◌, ◌<◌, filter, All};
ghost use Rattle.std.specs.Prelude.{OnOk, OnErr, Ok};
ghost use Rattle.ldm_group.specs.Database.{Database};
ghost use Rattle.ldm_group.specs.Looks.{HasSameDisks, volume_named};
ghost use Rattle.ldm_group.specs.Order.{in_order};
ghost use Rattle.ldm_group.specs.Room.{IsFitting, need_of};
ghost use Rattle.ldm_rules.specs.Facts.{IsSoundOn};
ghost use Rattle.ldm_words.specs.Limits.{IsChange, IsCommand, IsExtend};
ghost use Rattle.ldm_edits.specs.Additions.{AddsNone, AddsTo, AreAdditions, with_added};
ghost use Rattle.ldm_edits.specs.Changes.{AreasFit, change_to};
ghost use Rattle.ldm_edits.specs.Deleting.{deleted};
ghost use Rattle.ldm_edits.specs.Extended.{extended};
ghost use Rattle.ldm_edits.specs.Replacing.{AreFront, Replaces, TakesPlaces};
ghost use Rattle.ldm_edits.specs.Staying.{change_of, leaves};
ghost use Rattle.ldm_edits.specs.Steps.{next_of};

use crate::additions::{Additions, max_id_with};
use crate::error::StepError;
use crate::extending::extension;
use crate::leaving::Leaving;
use crate::limits::{later_limit, need_made};
use crate::reply::Refusal;
use crate::stepping::types_hold;
use crate::subject::Subject;
use ldm_bytes::NoMemory;
use ldm_group::{Db, last_for, own_len};
use ldm_label::Labels;
use ldm_records::Record;
use ldm_space::FreeMaps;
use ldm_vmdb::parts_of;
use ldm_words::{Command, Piece};
use std::alloc::Global;

/// What a command puts in the places of records that leave the group.
#[derive(Drop)]
pub struct Replacing {
    pub leaving: Leaving,
    pub made: Vec<Record>,
    /// How many of these are new.
    pub fresh: u64,
    /// The free sectors of the disks on which partitions are placed, beside what these take.
    pub maps: FreeMaps,
}

// How many blocks those of the records take that leave, as the records of their volume tell.
fn need_leaving(records: &[Record], own: &Db, leaving: Leaving) -> u64
    requires { All IsFitting records.now }
    ensures is { result ≡ need_of (filter (λ r. leaves leaving own.now.records r) records.now) }
    ensures few { result < 2 ^ 63 }
{
    let mut need = 0;
    for r in records {
        if leaving.takes(own, r) {
            need += u64::from(parts_of(own_len(r)));
        }
    }
    need
}

#[tactic(auto, using(crate::proofs::AdditionLaws::kept_beside))]
impl Additions {
    // Puts records in the places of those that leave, and all take this many blocks then. All
    // memory is taken before the first change.
    fn put(
        &mut self,
        db: &Db,
        own: &Db,
        leaving: Leaving,
        made: Vec<Record>,
        need: u64,
        maps: FreeMaps,
    ) -> Result<(), NoMemory>
        requires { need + 7 < 2 ^ 32 }
        ensures ok { OnOk result (TakesPlaces db.now.records own.now.records leaving made.items
            need maps self.old self.new) }
        ensures none { OnErr result (AddsNone self.old self.new) }
    {
        let mut made = made;
        self.records.reserve(made.len())?;
        self.records.retain(|r| !leaving.takes(own, r));
        let Ok(()) = self.records.append(&mut made) else {
            unreachable!()
        };
        self.need = need;
        self.max_id = max_id_with(db.max_id(), self.records.as_slice());
        self.last = last_for(self.last, need);
        self.maps = maps;
        Ok(())
    }

    // Puts what a command makes in the places of those that leave the group. No record of the group
    // and its disks leaves it.
    fn replace(
        &mut self,
        db: &Db,
        own: &Db,
        labels: &Labels,
        step: Replacing,
    ) -> Result<(), StepError>
        requires are { AreAdditions db.now.records self.old }
        requires front { AreFront db.now.records }
        requires sound { IsSoundOn (with_added db.now self.old) labels.now }
        requires areas { AreasFit labels.now }
        requires step { Replaces own.now.records
            (with_added db.now self.old) step }
        requires disks { (next : Database) → change_to
            (with_added db.now self.old) labels.now step.fresh
            (change_of step.leaving (in_order (db.now.records ++ self.old.records.items))
            step.made.items) ≡ Ok next
            → HasSameDisks (in_order (db.now.records ++ self.old.records.items)) next.records }
        ensures are { AreAdditions db.now.records self.new }
        ensures is { AddsTo (with_added db.now self.old) (with_added db.now self.new) result
            (change_to (with_added db.now self.old) labels.now step.fresh
            (change_of step.leaving (in_order (db.now.records ++ self.old.records.items))
            step.made.items)) }
        ensures unspent { OnOk result (db.now.header.seq < 2 ^ 64 - 1) }
    {
        types_hold(db, labels);
        let Replacing {
            leaving,
            made,
            fresh: _,
            maps,
        } = step;
        let staying = self.need - need_leaving(self.records.as_slice(), own, leaving);
        let seq = db.header().seq;
        if let Some(refusal) = later_limit(labels, seq, staying, made.as_slice()) {
            return Err(StepError::Refused(refusal));
        }
        let need = staying + need_made(made.as_slice());
        self.put(db, own, leaving, made, need, maps)?;
        Ok(())
    }

    // Makes the volume of this name longer.
    fn extend(
        &mut self,
        alloc: Global,
        db: &Db,
        labels: &Labels,
        name: &[u8],
        pieces: &[Piece],
    ) -> Result<(), StepError>
        requires are { AreAdditions db.now.records self.old }
        requires front { AreFront db.now.records }
        requires sound { IsSoundOn (with_added db.now self.old) labels.now }
        requires areas { AreasFit labels.now }
        requires limits { IsExtend name.now pieces.now }
        ensures are { AreAdditions db.now.records self.new }
        ensures is { AddsTo (with_added db.now self.old) (with_added db.now self.new) result
            (extended (with_added db.now self.old) labels.now pieces.now
            (volume_named name.now (in_order (db.now.records ++ self.old.records.items)))) }
        ensures unspent { OnOk result (db.now.header.seq < 2 ^ 64 - 1) }
    {
        types_hold(db, labels);
        let Some(own) = self.own(alloc, db, name)? else {
            return Err(StepError::Refused(Refusal::NoVolume));
        };
        let Some(volume) = own.volume_named(name) else {
            return Err(StepError::Refused(Refusal::NoVolume));
        };
        let subject = Subject {
            db,
            labels,
            own: &own,
            volume,
        };
        let step = extension(self, alloc, &subject, pieces)?;
        self.replace(db, &own, labels, step)
    }

    // A law of the types: the greatest id is a number of the format.
    fn ids_fit(&self)
        ensures { self.now.max_id < 2 ^ 64 }
    {
        let _top = self.max_id;
    }

    // Takes the volume of this name away.
    fn delete(
        &mut self,
        alloc: Global,
        db: &Db,
        labels: &Labels,
        name: &[u8],
    ) -> Result<(), StepError>
        requires are { AreAdditions db.now.records self.old }
        requires front { AreFront db.now.records }
        requires sound { IsSoundOn (with_added db.now self.old) labels.now }
        requires areas { AreasFit labels.now }
        ensures are { AreAdditions db.now.records self.new }
        ensures is { AddsTo (with_added db.now self.old) (with_added db.now self.new) result
            (deleted (with_added db.now self.old) labels.now
            (volume_named name.now (in_order (db.now.records ++ self.old.records.items)))) }
        ensures unspent { OnOk result (db.now.header.seq < 2 ^ 64 - 1) }
    {
        types_hold(db, labels);
        let Some(own) = self.own(alloc, db, name)? else {
            return Err(StepError::Refused(Refusal::NoVolume));
        };
        let Some(volume) = own.volume_named(name) else {
            return Err(StepError::Refused(Refusal::NoVolume));
        };
        self.ids_fit();
        let step = Replacing {
            leaving: Leaving::Deleted {
                volume: volume.head.id,
            },
            made: Vec::new(alloc),
            fresh: 0,
            maps: FreeMaps::new(alloc),
        };
        self.replace(db, &own, labels, step)
    }

    /// Does a create, an extend or a delete.
    pub fn change(
        &mut self,
        alloc: Global,
        db: &Db,
        labels: &Labels,
        command: &Command,
    ) -> Result<(), StepError>
        requires are { AreAdditions db.now.records self.old }
        requires front { AreFront db.now.records }
        requires sound { IsSoundOn (with_added db.now self.old) labels.now }
        requires areas { AreasFit labels.now }
        requires limits { IsCommand command.now }
        requires change { IsChange command.now }
        ensures are { AreAdditions db.now.records self.new }
        ensures is { AddsTo (with_added db.now self.old) (with_added db.now self.new) result
            (next_of (with_added db.now self.old) labels.now command.now) }
        ensures unspent { OnOk result (db.now.header.seq < 2 ^ 64 - 1) }
    {
        match command {
            Command::Create { name, guid, layout } => self.create(
                alloc,
                db,
                labels,
                name.as_slice(),
                *guid,
                layout,
            ),
            Command::Extend { name, pieces } => self.extend(
                alloc,
                db,
                labels,
                name.as_slice(),
                pieces.as_slice(),
            ),
            Command::Delete { name } => self.delete(alloc, db, labels, name.as_slice()),
            Command::Begin | Command::Commit | Command::Cancel => unreachable!(),
        }
    }
}
