//! `create`: a new volume, or the first refusal.
ghost use Rattle.std.specs.Prelude.{◌≡◌, ◌+◌, ◌^◌, ◌<◌, ◌≤◌, All, false, length, map, IfOk};
ghost use Rattle.ldm_rules.specs.Facts.{IsSoundOn};
ghost use Rattle.ldm_words.specs.Limits.{IsNewLayout, IsCreate};
ghost use Rattle.ldm_space.specs.declared.placed.Wanted.{Wanted};
ghost use Rattle.ldm_edits.specs.Answers.{FindsAs, StepsTo};
ghost use Rattle.ldm_edits.specs.Changes.{AreasFit};
ghost use Rattle.ldm_edits.specs.Spots.{wanted_by, open_wanted, CanBePlaced};
ghost use Rattle.ldm_edits.specs.Creating.{words_of, is_same_disk, is_bad_column, is_bad_size};
ghost use Rattle.ldm_edits.specs.Creating.{made_for, fresh_for, against_layout, created};

use crate::additions::Additions;
use crate::asked::{asked_disks, asked_pieces, has_twins, is_bad_length};
use crate::error::StepError;
use crate::reply::Refusal;
use crate::stepping::types_hold;
use ldm_bytes::NoMemory;
use ldm_group::Db;
use ldm_label::Labels;
use ldm_made::{Taken, mirror, raid5, span, stripe};
use ldm_records::Record;
use ldm_space::Wanted;
use ldm_words::NewLayout;
use std::alloc::Global;

// What the layout asks of its disks, or the refusal of the first word whose disk isn't there.
fn asked(
    alloc: Global,
    db: &Db,
    labels: &Labels,
    layout: &NewLayout,
) -> Result<Vec<Wanted>, StepError>
    ensures is { FindsAs result (wanted_by db.now labels.now (words_of layout.now)) }
    ensures low { IfOk result (λ v. All (λ w. w.limit < 2 ^ 64) v.items) }
{
    match layout {
        NewLayout::Span { pieces } => asked_pieces(alloc, db, labels, pieces.as_slice()),
        NewLayout::Stripe { len, disks, .. } => asked_disks(
            alloc,
            db,
            labels,
            disks.as_slice(),
            *len,
        ),
        NewLayout::Mirror { len, disks } => asked_disks(alloc, db, labels, disks.as_slice(), *len),
        NewLayout::Raid5 { len, disks, .. } => asked_disks(
            alloc,
            db,
            labels,
            disks.as_slice(),
            *len,
        ),
    }
}

fn is_same_disk(layout: &NewLayout, wanted: &[Wanted]) -> bool
    ensures { result ≡ is_same_disk layout.now wanted.now }
{
    match layout {
        NewLayout::Span { .. } => false,
        _ => has_twins(wanted),
    }
}

// Whether so many columns are empty, not filled by chunks, or too much together.
fn is_bad_column(chunk: u64, len: u64, columns: u64) -> bool
    ensures { result ≡ is_bad_column chunk len columns }
{
    len == 0
        || chunk == 0
        || len % chunk != 0
        || u128::from(columns) * u128::from(len) > u128::from(u64::MAX)
}

fn is_bad_size(layout: &NewLayout, wanted: &[Wanted]) -> bool
    requires limits { IsNewLayout layout.now }
    requires sizes { map (λ w. w.size) wanted.now ≡ map (λ word. word.1) (words_of layout.now) }
    ensures { result ≡ is_bad_size layout.now }
{
    match layout {
        NewLayout::Span { .. } => is_bad_length(0, wanted),
        NewLayout::Stripe { chunk, len, disks } => is_bad_column(
            *chunk,
            *len,
            disks.as_slice().len() as u64,
        ),
        NewLayout::Mirror { len, .. } => *len == 0,
        NewLayout::Raid5 { chunk, len, disks } => is_bad_column(
            *chunk,
            *len,
            disks.as_slice().len() as u64 - 1,
        ),
    }
}

/// How many records are new.
pub fn fresh_for(layout: &NewLayout) -> u64
    requires { IsNewLayout layout.now }
    ensures { result ≡ fresh_for layout.now }
{
    match layout {
        NewLayout::Span { pieces } => 2 + pieces.as_slice().len() as u64,
        NewLayout::Stripe { disks, .. } => 2 + disks.as_slice().len() as u64,
        NewLayout::Mirror { disks, .. } => 1 + 2 * disks.as_slice().len() as u64,
        NewLayout::Raid5 { disks, .. } => 2 + disks.as_slice().len() as u64,
    }
}

/// The new records, from an id on, where the partitions take these sectors.
pub fn made_for(
    alloc: Global,
    layout: &NewLayout,
    id: u64,
    name: &[u8],
    guid: u128,
    spots: &[Taken],
) -> Result<Vec<Record>, NoMemory>
    requires short { length name.now ≤ 255 }
    requires layout_is { IsNewLayout layout.now }
    requires size { is_bad_size layout.now ≡ false }
    requires ids { id + fresh_for layout.now ≤ 2 ^ 64 }
    requires sizes { map (λ t. t.size) spots.now ≡ map (λ word. word.1) (words_of layout.now) }
    ensures { IfOk result (λ v. v.items ≡ made_for layout.now id name.now guid spots.now) }
{
    match layout {
        NewLayout::Span { .. } => span(alloc, id, name, guid, spots),
        NewLayout::Stripe { chunk, len, .. } => stripe(alloc, id, name, guid, *chunk, *len, spots),
        NewLayout::Mirror { len, .. } => mirror(alloc, id, name, guid, *len, spots),
        NewLayout::Raid5 { chunk, len, .. } => raid5(alloc, id, name, guid, *chunk, *len, spots),
    }
}

/// What the layout asks of its disks, where nothing stands against it.
pub fn open_wanted(
    alloc: Global,
    db: &Db,
    labels: &Labels,
    layout: &NewLayout,
) -> Result<Vec<Wanted>, StepError>
    requires { IsNewLayout layout.now }
    ensures is { FindsAs result (open_wanted db.now labels.now (words_of layout.now)
        (against_layout layout.now)) }
    ensures can { IfOk result (λ v. CanBePlaced v.items) }
{
    let wanted = asked(alloc, db, labels, layout)?;
    if is_same_disk(layout, wanted.as_slice()) {
        return Err(StepError::Refused(Refusal::SameDisk));
    }
    if is_bad_size(layout, wanted.as_slice()) {
        return Err(StepError::Refused(Refusal::BadSize));
    }
    Ok(wanted)
}

/// The group with a new volume.
pub fn create(
    alloc: Global,
    db: &Db,
    labels: &Labels,
    name: &[u8],
    guid: u128,
    layout: &NewLayout,
) -> Result<Db, StepError>
    requires sound { IsSoundOn db.now labels.now }
    requires areas { AreasFit labels.now }
    requires limits { IsCreate name.now layout.now }
    ensures { StepsTo result (created db.now labels.now name.now guid layout.now) }
{
    types_hold(db, labels);
    let mut added = Additions::none(alloc, db);
    added.create(alloc, db, labels, name, guid, layout)?;
    Ok(added.joined(alloc, db, db.header().seq + 1)?)
}
