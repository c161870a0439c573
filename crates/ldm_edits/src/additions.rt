//! Records that are added to a group, with what the next command asks of both.
ghost use Rattle.std.specs.Prelude.{◌≡◌, ◌+◌, ◌++◌, ◌^◌, ◌-◌, ◌<◌, List, All, OnOk, OnErr, None};
ghost use Rattle.std.specs.Prelude.{IfOk, filter, fold, is_some, max};
ghost use Rattle.ldm_group.specs.Database.{at_seq};
ghost use Rattle.std.specs.List.{list_any};
ghost use Rattle.ldm_group.specs.Looks.{is_volume_named, volume_named};
ghost use Rattle.ldm_group.specs.Order.{id_of, in_order};
ghost use Rattle.ldm_group.specs.Partitions.{EndsInRange};
ghost use Rattle.ldm_group.specs.Room.{IsFitting, need_of};
ghost use Rattle.ldm_rules.specs.Facts.{IsSoundOn};
ghost use Rattle.ldm_space.specs.Free.{taken_in};
ghost use Rattle.ldm_space.specs.Placed.{AreMapsOf};
ghost use Rattle.ldm_space.specs.Wanted.{placed};
ghost use Rattle.ldm_space.specs.declared.placed.Wanted.{Wanted};
ghost use Rattle.ldm_words.specs.Limits.{IsCreate};
ghost use Rattle.ldm_edits.specs.declared.reply.Refusal.TheVariants as refusals;
ghost use Rattle.ldm_edits.specs.Changes.{AreasFit, change_to};
ghost use Rattle.ldm_edits.specs.Creating.{words_of, fresh_for, change_for, against_layout};
ghost use Rattle.ldm_edits.specs.Creating.{created};
ghost use Rattle.ldm_edits.specs.Additions.{with_added, AreAdditions, AddsVolume, AddsNone, AddsTo};
ghost use Rattle.ldm_edits.specs.Additions.{PlacesBeside};
ghost use Rattle.ldm_edits.specs.Replacing.{AreFront, stands_in};
ghost use Rattle.ldm_edits.specs.Spots.{by_place, CanBePlaced, ArePlaced};

use crate::creating::{fresh_for, made_for, open_wanted};
use crate::error::StepError;
use crate::limits::{later_limit, need_made};
use crate::reply::Refusal;
use crate::stepping::types_hold;
use ldm_bytes::NoMemory;
use ldm_group::{Db, DbError, id_of, last_for};
use ldm_label::Labels;
use ldm_made::Taken;
use ldm_records::Record;
use ldm_space::{FreeMaps, Wanted};
use ldm_words::NewLayout;
use std::alloc::Global;
use std::mem;

/// Records that are added to a group, and what is kept so that one more command copies none of all
/// records.
pub struct Additions {
    /// The records, in no order.
    pub records: Vec<Record>,
    /// The free sectors of the disks on which partitions were placed.
    pub maps: FreeMaps,
    /// How many blocks the group's records and these take.
    pub need: u64,
    /// The greatest id of the group's records and of these.
    pub max_id: u64,
    /// The last VBLK sequence of the group with these.
    pub last: u32,
}

// By hand, so that a function that lets them go has one step for all that they have.
impl Drop for Additions {
    fn drop(self) {
        let Additions {
            records: _,
            maps: _,
            need: _,
            max_id: _,
            last: _,
        } = self;
    }
}

/// Copies of records, behind others.
pub fn push_copies(
    alloc: Global,
    records: &mut Vec<Record>,
    more: &[Record],
) -> Result<(), NoMemory>
    ensures { OnOk result (records.new.items ≡ records.old.items ++ more.now) }
{
    for r in more {
        records.push(r.clone_in(alloc)?)?;
    }
    Ok(())
}

// Copies of records, and of others behind them.
fn copies_of(alloc: Global, records: &[Record], more: &[Record]) -> Result<Vec<Record>, NoMemory>
    ensures { IfOk result (λ copies. copies.items ≡ records.now ++ more.now) }
{
    let mut copies = Vec::new(alloc);
    push_copies(alloc, &mut copies, records)?;
    push_copies(alloc, &mut copies, more)?;
    Ok(copies)
}

// Whether the record is the group's or a disk's, or whether it isn't.
fn stands_in(front: bool, r: &Record) -> bool
    ensures { result ≡ stands_in front r.now }
{
    match r {
        Record::Group(_) | Record::Disk(_) => front,
        _ => !front,
    }
}

// Copies of the records that are the group's or a disk's, or of those that aren't.
fn copies_where(alloc: Global, records: &[Record], front: bool) -> Result<Vec<Record>, NoMemory>
    ensures { IfOk result (λ copies. copies.items
        ≡ filter (stands_in front) records.now) }
{
    let mut copies = Vec::new(alloc);
    for r in records {
        if stands_in(front, r) {
            copies.push(r.clone_in(alloc)?)?;
        }
    }
    Ok(copies)
}

/// Whether the record is a volume of this name.
pub fn is_named(r: &Record, name: &[u8]) -> bool
    ensures { result ≡ is_volume_named name.now r.now }
{
    match r {
        Record::Volume(v) => v.head.name.as_slice() == name,
        _ => false,
    }
}

// Whether one of the records is.
fn has_named(records: &[Record], name: &[u8]) -> bool
    ensures { result ≡ list_any (is_volume_named name.now) records.now }
{
    records.iter().any(|r| is_named(r, name))
}

// The last VBLK sequence of a group, which is a number of the format.
fn last_of(db: &Db) -> u32
    ensures is { result ≡ db.now.header.last }
    ensures low { result < 2 ^ 32 }
{
    db.header().last
}

/// The greatest of an id and those of these records.
pub fn max_id_with(id: u64, records: &[Record]) -> u64
    ensures { result ≡ fold (λ top r. max top (id_of r)) id records.now }
{
    records.iter().fold(id, |top, r| id_of(r).max(top))
}

#[tactic(auto, using(crate::proofs::AdditionLaws::kept_beside))]
impl Additions {
    /// None to this group. It takes no memory.
    pub fn none(alloc: Global, db: &Db) -> Additions
        requires { All IsFitting db.now.records }
        ensures are { AreAdditions db.now.records result }
        ensures whole { with_added db.now result ≡ db.now }
    {
        let _rising = db.as_slice();
        Additions {
            records: Vec::new(alloc),
            maps: FreeMaps::new(alloc),
            need: db.need(),
            max_id: db.max_id(),
            last: last_of(db),
        }
    }

    /// The group with its own record and those of its disks alone, and all other records, as if
    /// they were added.
    pub fn apart(alloc: Global, db: &Db) -> Result<(Db, Additions), NoMemory>
        requires { All IsFitting db.now.records }
        ensures are { IfOk result (λ parts. AreAdditions parts.0.records parts.1) }
        ensures front { IfOk result (λ parts. AreFront parts.0.records) }
        ensures is { IfOk result (λ parts. with_added parts.0 parts.1 ≡ db.now) }
    {
        let header = db.header().with_seq(alloc, db.header().seq)?;
        let front = copies_where(alloc, db.as_slice(), true)?;
        let records = copies_where(alloc, db.as_slice(), false)?;
        match Db::new(alloc, header, front) {
            Ok(front) => Ok((
                front,
                Additions {
                    records,
                    maps: FreeMaps::new(alloc),
                    need: db.need(),
                    max_id: db.max_id(),
                    last: last_of(db),
                },
            )),
            Err(DbError::NoMemory) => Err(NoMemory),
            Err(DbError::SameId { .. }) => unreachable!(),
        }
    }

    // Whether a volume of the group or one that is added has this name.
    fn has_volume(&self, db: &Db, name: &[u8]) -> bool
        requires { AreAdditions db.now.records self.now }
        ensures { result ≡ is_some (volume_named name.now
            (in_order (db.now.records ++ self.now.records.items))) }
    {
        db.volume_named(name).is_some() || has_named(self.records.as_slice(), name)
    }

    /// What the partitions that are asked for take beside those of both, and the maps with that.
    pub fn place(
        &mut self,
        alloc: Global,
        db: &Db,
        wanted: &[Wanted],
    ) -> Result<(FreeMaps, Vec<Taken>), StepError>
        requires are { AreAdditions db.now.records self.old }
        requires ends { All EndsInRange (in_order (db.now.records ++ self.old.records.items)) }
        requires can { CanBePlaced wanted.now }
        ensures stays { AddsNone self.old self.new }
        ensures is { PlacesBeside result (taken_in (db.now.records ++ self.old.records.items))
            (by_place refusals.NoSpace (placed (taken_in (in_order (db.now.records
            ++ self.old.records.items))) 0 wanted.now)) }
    {
        let maps = mem::replace(&mut self.maps, FreeMaps::new(alloc));
        match maps.place(alloc, db.as_slice(), self.records.as_slice(), wanted)? {
            Ok(placed) => Ok(placed),
            Err(piece) => Err(StepError::Refused(Refusal::NoSpace(piece))),
        }
    }

    // Adds what was made for a volume. All memory is taken before the first change.
    fn add(&mut self, made: Vec<Record>, maps: FreeMaps) -> Result<(), NoMemory>
        requires made { All IsFitting made.items }
        requires few { self.old.need + need_of made.items + 7 < 2 ^ 32 }
        ensures ok { OnOk result (AddsVolume self.old self.new made.items maps) }
        ensures none { OnErr result (AddsNone self.old self.new) }
    {
        let mut made = made;
        self.records.reserve(made.len())?;
        self.need += need_made(made.as_slice());
        self.max_id = max_id_with(self.max_id, made.as_slice());
        self.last = last_for(self.last, self.need);
        self.maps = maps;
        let Ok(()) = self.records.append(&mut made) else {
            unreachable!()
        };
        Ok(())
    }

    // Adds a new volume whose partitions take these sectors.
    fn create_at(
        &mut self,
        alloc: Global,
        db: &Db,
        labels: &Labels,
        name: &[u8],
        guid: u128,
        layout: &NewLayout,
        spots: &[Taken],
        maps: FreeMaps,
    ) -> Result<(), StepError>
        requires are { AreAdditions db.now.records self.old }
        requires sound { IsSoundOn (with_added db.now self.old) labels.now }
        requires areas { AreasFit labels.now }
        requires limits { IsCreate name.now layout.now }
        requires free { volume_named name.now
            (in_order (db.now.records ++ self.old.records.items)) ≡ None }
        requires placed { (wanted : List Wanted)
            × ArePlaced (with_added db.now self.old) labels.now
            (words_of layout.now) (against_layout layout.now) wanted spots.now }
        requires maps { AreMapsOf maps (spots.now
            ++ taken_in (db.now.records ++ self.old.records.items)) }
        ensures are { AreAdditions db.now.records self.new }
        ensures is { AddsTo (with_added db.now self.old) (with_added db.now self.new) result
            (change_to (with_added db.now self.old) labels.now
            (fresh_for layout.now) (change_for (with_added db.now self.old)
            name.now guid layout.now spots.now)) }
        ensures unspent { OnOk result (db.now.header.seq < 2 ^ 64 - 1) }
    {
        types_hold(db, labels);
        let fresh = fresh_for(layout);
        if fresh > u64::MAX - self.max_id {
            return Err(StepError::Refused(Refusal::IdsSpent));
        }
        let made = made_for(alloc, layout, self.max_id + 1, name, guid, spots)?;
        let seq = db.header().seq;
        if let Some(refusal) = later_limit(labels, seq, self.need, made.as_slice()) {
            return Err(StepError::Refused(refusal));
        }
        self.add(made, maps)?;
        Ok(())
    }

    /// Adds a new volume.
    pub fn create(
        &mut self,
        alloc: Global,
        db: &Db,
        labels: &Labels,
        name: &[u8],
        guid: u128,
        layout: &NewLayout,
    ) -> Result<(), StepError>
        requires are { AreAdditions db.now.records self.old }
        requires sound { IsSoundOn (with_added db.now self.old) labels.now }
        requires areas { AreasFit labels.now }
        requires limits { IsCreate name.now layout.now }
        ensures are { AreAdditions db.now.records self.new }
        ensures is { AddsTo (with_added db.now self.old) (with_added db.now self.new) result
            (created (with_added db.now self.old) labels.now
            name.now guid layout.now) }
        ensures unspent { OnOk result (db.now.header.seq < 2 ^ 64 - 1) }
    {
        if self.has_volume(db, name) {
            return Err(StepError::Refused(Refusal::NameTaken));
        }
        let wanted = open_wanted(alloc, db, labels, layout)?;
        let (maps, spots) = self.place(alloc, db, wanted.as_slice())?;
        self.create_at(
            alloc,
            db,
            labels,
            name,
            guid,
            layout,
            spots.as_slice(),
            maps,
        )
    }

    /// A copy of the group with them, with this committed sequence.
    pub fn joined(&self, alloc: Global, db: &Db, seq: u64) -> Result<Db, NoMemory>
        requires { AreAdditions db.now.records self.now }
        ensures { IfOk result (λ both. both ≡ at_seq seq (with_added db.now self.now)) }
    {
        let header = db.header().grown_to(alloc, self.last, seq)?;
        let records = copies_of(alloc, db.as_slice(), self.records.as_slice())?;
        match Db::new(alloc, header, records) {
            Ok(both) => Ok(both),
            Err(DbError::NoMemory) => Err(NoMemory),
            Err(DbError::SameId { .. }) => unreachable!(),
        }
    }
}
