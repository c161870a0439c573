//! `extend`: more pieces at the end of a span or a mirror, or the first refusal.
ghost use Rattle.std.specs.Prelude.{◌≡◌, ◌+◌, ◌^◌, ◌<◌, ◌≤◌, Some, Ok, find};
ghost use Rattle.std.specs.Prelude.{length, option_copied, sum_by, true, is_some, IfOk};
ghost use Rattle.ldm_made.specs.Made.{resized, with_children};
ghost use Rattle.ldm_group.specs.Looks.{is_child, volume_named};
ghost use Rattle.ldm_layout.specs.Parts.{plexes_of};
ghost use Rattle.ldm_layout.specs.Volumes.{layout_of, shape_of};
ghost use Rattle.ldm_rules.specs.Facts.{IsSoundOn};
ghost use Rattle.ldm_words.specs.Limits.{ArePieces};
ghost use Rattle.ldm_edits.specs.Additions.{AddsNone};
ghost use Rattle.ldm_edits.specs.Answers.{FindsAs, StepsTo};
ghost use Rattle.ldm_edits.specs.Replacing.{IsVolumeOf, ReplacesAs, added_group};
ghost use Rattle.ldm_edits.specs.Asked.{words_by};
ghost use Rattle.ldm_edits.specs.Changes.{AreasFit};
ghost use Rattle.ldm_edits.specs.Spots.{open_wanted, CanBePlaced};
ghost use Rattle.ldm_edits.specs.Extending.{against_longer, component_in, extended_span, held};
ghost use Rattle.ldm_edits.specs.Extending.{longer_parts};
ghost use Rattle.ldm_places.specs.declared.shape.Shape.TheVariants as shapes;
ghost use Rattle.ldm_edits.specs.Extended.{extended};

use crate::additions::Additions;
use crate::asked::{asked_pieces, is_bad_length};
use crate::changing::change;
use crate::error::StepError;
use crate::leaving::Leaving;
use crate::limits::first_new_id;
use crate::mirroring::lengthen_mirror;
use crate::owning::plan_in;
use crate::replacing::Replacing;
use crate::reply::Refusal;
use crate::stepping::types_hold;
use crate::subject::Subject;
use ldm_bytes::NoMemory;
use ldm_group::Db;
use ldm_label::Labels;
use ldm_layout::Shape;
use ldm_made::{Taken, resized, sectors_with, with_children, with_tiles};
use ldm_records::{Component, Record, Volume};
use ldm_space::Wanted;
use ldm_words::Piece;
use std::alloc::Global;

// The first component of the volume of this id.
fn component_of(db: &Db, volume: u64) -> Option<&Component>
    ensures { option_copied result ≡ component_in (find (is_child 3 volume) db.now.records) }
{
    for r in db.as_slice() {
        if let Record::Component(c) = r
            && c.parent == volume
        {
            return Some(c);
        }
    }
    None
}

// The longer volume and its component, and the new partitions behind its capacity.
fn lengthened(
    alloc: Global,
    volume: &Volume,
    component: &Component,
    capacity: u64,
    id: u64,
    spots: &[Taken],
) -> Result<Vec<Record>, NoMemory>
    requires size { capacity + sum_by (λ t. t.size) spots.now < 2 ^ 64 }
    requires children { component.now.children + length spots.now < 2 ^ 64 }
    requires volume_there { is_some (resized volume.now
        (capacity + sum_by (λ t. t.size) spots.now)) ≡ true }
    requires component_there { is_some (with_children component.now
        (component.now.children + length spots.now)) ≡ true }
    requires ids { id + length spots.now ≤ 2 ^ 64 }
    ensures { IfOk result (λ v. v.items ≡ longer_parts volume.now component.now
        capacity id spots.now) }
{
    let size = sectors_with(capacity, spots);
    let children = component.children + spots.len() as u64;
    let mut records = Vec::new(alloc);
    records.push(Record::Volume(resized(volume, alloc, size)?))?;
    records.push(Record::Component(with_children(component, alloc, children)?))?;
    with_tiles(alloc, records, id, component.head.id, capacity, spots)
}

/// The group with more pieces behind those of the volume of this name.
#[tactic(auto, using(crate::proofs::ShownLaws::shows_itself))]
pub fn extend(
    alloc: Global,
    db: &Db,
    labels: &Labels,
    name: &[u8],
    pieces: &[Piece],
) -> Result<Db, StepError>
    requires sound { IsSoundOn db.now labels.now }
    requires areas { AreasFit labels.now }
    requires limits { ArePieces pieces.now }
    ensures { StepsTo result (extended db.now labels.now pieces.now
        (volume_named name.now db.now.records)) }
{
    let Some(volume) = db.volume_named(name) else {
        return Err(StepError::Refused(Refusal::NoVolume));
    };
    types_hold(db, labels);
    let mut added = Additions::none(alloc, db);
    let subject = Subject {
        db,
        labels,
        own: db,
        volume,
    };
    let step = extension(&mut added, alloc, &subject, pieces)?;
    let Replacing {
        leaving,
        made,
        fresh,
        maps: _,
    } = step;
    change(alloc, db, labels, fresh, leaving, made)
}

/// What makes a volume of the group, to which records are added, longer. The volume is looked at
/// among its own records.
#[tactic(auto, using(crate::proofs::ShownLaws::ends_shown, crate::proofs::ShownLaws::held_shown))]
pub fn extension(
    added: &mut Additions,
    alloc: Global,
    subject: &Subject,
    pieces: &[Piece],
) -> Result<Replacing, StepError>
    requires volume { IsVolumeOf added.old subject.now }
    requires limits { ArePieces pieces.now }
    ensures stays { AddsNone added.old added.new }
    ensures is { ReplacesAs result subject.now.own.now.records (added_group added.old subject.now)
        subject.now.labels.now (extended (added_group added.old subject.now)
        subject.now.labels.now pieces.now (Some subject.now.volume.now)) }
{
    let plan = plan_in(alloc, subject.own, subject.volume)?;
    let capacity = plan.capacity();
    match plan.shape() {
        Shape::Mirror => lengthen_mirror(added, alloc, subject, capacity, pieces),
        Shape::Span => lengthen(added, alloc, subject, capacity, pieces),
        _ => Err(StepError::Refused(Refusal::NotSpan)),
    }
}

// What the pieces ask of their disks, where their lengths are good for a span of this capacity.
#[tactic(auto, using(crate::proofs::AskedLaws::piece_each))]
fn open_wanted(
    alloc: Global,
    subject: &Subject,
    capacity: u128,
    pieces: &[Piece],
) -> Result<Vec<Wanted>, StepError>
    requires limits { ArePieces pieces.now }
    requires held { capacity
        ≡ held (layout_of subject.now.own.now.records subject.now.volume.now) }
    ensures is { FindsAs result (open_wanted subject.now.own.now subject.now.labels.now
        (words_by pieces.now)
        (against_longer subject.now.own.now.records subject.now.volume.now)) }
    ensures can { IfOk result (λ v. CanBePlaced v.items) }
    ensures some { IfOk result (λ v. 1 ≤ length v.items) }
    ensures low { IfOk result (λ v. capacity < 2 ^ 64) }
{
    let wanted = asked_pieces(alloc, subject.own, subject.labels, pieces)?;
    if capacity > u128::from(u64::MAX) || is_bad_length(capacity as u64, wanted.as_slice()) {
        return Err(StepError::Refused(Refusal::BadSize));
    }
    Ok(wanted)
}

// What makes a span of this capacity longer.
#[tactic(auto, using(crate::proofs::ShownLaws::layout_shown))]
fn lengthen(
    added: &mut Additions,
    alloc: Global,
    subject: &Subject,
    capacity: u128,
    pieces: &[Piece],
) -> Result<Replacing, StepError>
    requires volume { IsVolumeOf added.old subject.now }
    requires limits { ArePieces pieces.now }
    requires span { shape_of (plexes_of subject.now.volume.now.head.id
        (added_group added.old subject.now).records) ≡ Some shapes.Span }
    requires held { capacity
        ≡ held (layout_of (added_group added.old subject.now).records subject.now.volume.now) }
    ensures stays { AddsNone added.old added.new }
    ensures is { ReplacesAs result subject.now.own.now.records (added_group added.old subject.now)
        subject.now.labels.now (extended_span (added_group added.old subject.now)
        subject.now.labels.now pieces.now (Some subject.now.volume.now)) }
{
    let volume = subject.volume;
    if volume.size2.is_some() {
        return Err(StepError::Refused(Refusal::ExtraSize));
    }
    let wanted = open_wanted(alloc, subject, capacity, pieces)?;
    let Some(component) = component_of(subject.own, volume.head.id) else {
        return Err(StepError::Refused(Refusal::NotSpan));
    };
    let (maps, spots) = added.place(alloc, subject.db, wanted.as_slice())?;
    let fresh = wanted.len() as u64;
    let Some(id) = first_new_id(added.max_id, fresh) else {
        return Err(StepError::Refused(Refusal::IdsSpent));
    };
    let capacity = capacity as u64;
    let made = lengthened(alloc, volume, component, capacity, id, spots.as_slice())?;
    let leaving = Leaving::Changed {
        volume: volume.head.id,
        component: component.head.id,
    };
    Ok(Replacing {
        leaving,
        made,
        fresh,
        maps,
    })
}
