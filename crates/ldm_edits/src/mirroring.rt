//! `extend` of a mirror: a piece more for each component, or the first refusal.
ghost use Rattle.std.specs.Prelude.{◌≡◌, IfOk, length, map, Some};
ghost use Rattle.ldm_places.specs.declared.shape.Shape.TheVariants.{Mirror};
ghost use Rattle.ldm_layout.specs.Parts.{plexes_of};
ghost use Rattle.ldm_layout.specs.Volumes.{layout_of, shape_of};
ghost use Rattle.ldm_words.specs.Limits.{ArePieces};
ghost use Rattle.ldm_edits.specs.Additions.{AddsNone};
ghost use Rattle.ldm_edits.specs.Answers.{FindsAs};
ghost use Rattle.ldm_edits.specs.Replacing.{IsVolumeOf, ReplacesAs, added_group};
ghost use Rattle.ldm_edits.specs.Asked.{words_by};
ghost use Rattle.ldm_edits.specs.Extending.{held};
ghost use Rattle.ldm_edits.specs.Mirroring.{components_of};
ghost use Rattle.ldm_edits.specs.Spots.{open_wanted, CanBePlaced};
ghost use Rattle.ldm_edits.specs.Extended.{against_growth, IsEven, extended_mirror};

use crate::additions::Additions;
use crate::asked::asked_pieces;
use crate::deciding::{is_bad_growth, is_same_disk, len_of};
use crate::error::StepError;
use crate::growing::{components_of, grown};
use crate::leaving::Leaving;
use crate::limits::first_new_id;
use crate::replacing::Replacing;
use crate::reply::Refusal;
use crate::subject::Subject;
use ldm_records::Component;
use ldm_space::Wanted;
use ldm_words::Piece;
use std::alloc::Global;

// What the pieces ask of their disks, where nothing stands against them.
#[tactic(auto, using(std::proofs::lemmas::Grind::common_steps, crate::proofs::AskedLaws::piece_each))]
fn open_wanted(
    alloc: Global,
    subject: &Subject,
    capacity: u128,
    components: &[&Component],
    pieces: &[Piece],
) -> Result<Vec<Wanted>, StepError>
    requires components { map (λ c. c.now) components.now
        ≡ components_of subject.now.volume.now subject.now.own.now.records }
    requires held { capacity
        ≡ held (layout_of subject.now.own.now.records subject.now.volume.now) }
    requires one_each { length pieces.now ≡ length components.now }
    ensures is { FindsAs result (open_wanted subject.now.own.now subject.now.labels.now
        (words_by pieces.now)
        (against_growth subject.now.own.now.records subject.now.volume.now)) }
    ensures can { IfOk result (λ v. CanBePlaced v.items) }
    ensures even { IfOk result (λ v. IsEven subject.now.own.now.records capacity
        (components_of subject.now.volume.now subject.now.own.now.records) v.items) }
    ensures one_each { IfOk result (λ v. length v.items ≡ length components.now) }
{
    let wanted = asked_pieces(alloc, subject.own, subject.labels, pieces)?;
    if is_same_disk(subject.own, components, wanted.as_slice()) {
        return Err(StepError::Refused(Refusal::SameDisk));
    }
    if is_bad_growth(subject.own, capacity, components, wanted.as_slice()) {
        return Err(StepError::Refused(Refusal::BadSize));
    }
    Ok(wanted)
}

/// What makes a mirror of this capacity longer.
#[tactic(auto, using(std::proofs::lemmas::Grind::common_steps, crate::proofs::ShownLaws::layout_shown))]
pub fn lengthen_mirror(
    added: &mut Additions,
    alloc: Global,
    subject: &Subject,
    capacity: u128,
    pieces: &[Piece],
) -> Result<Replacing, StepError>
    requires volume { IsVolumeOf added.old subject.now }
    requires limits { ArePieces pieces.now }
    requires shape { shape_of (plexes_of subject.now.volume.now.head.id
        (added_group added.old subject.now).records) ≡ Some Mirror }
    requires held { capacity
        ≡ held (layout_of (added_group added.old subject.now).records subject.now.volume.now) }
    ensures stays { AddsNone added.old added.new }
    ensures is { ReplacesAs result subject.now.own.now.records (added_group added.old subject.now)
        subject.now.labels.now (extended_mirror (added_group added.old subject.now)
        subject.now.labels.now pieces.now subject.now.volume.now) }
{
    let volume = subject.volume;
    if volume.size2.is_some() {
        return Err(StepError::Refused(Refusal::ExtraSize));
    }
    let found = components_of(alloc, subject.own, volume.head.id)?;
    let components = found.as_slice();
    if pieces.len() != components.len() {
        return Err(StepError::Refused(Refusal::PieceCount(components.len())));
    }
    let asked = open_wanted(alloc, subject, capacity, components, pieces)?;
    let wanted = asked.as_slice();
    let (maps, spots) = added.place(alloc, subject.db, wanted)?;
    let fresh = wanted.len() as u64;
    let Some(id) = first_new_id(added.max_id, fresh) else {
        return Err(StepError::Refused(Refusal::IdsSpent));
    };
    let size = capacity as u64 + len_of(wanted);
    let made = grown(
        alloc,
        subject.own,
        volume,
        size,
        id,
        components,
        spots.as_slice(),
    )?;
    let leaving = Leaving::Grown {
        volume: volume.head.id,
    };
    Ok(Replacing {
        leaving,
        made,
        fresh,
        maps,
    })
}
