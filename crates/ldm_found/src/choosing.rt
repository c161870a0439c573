//! The group of the copies that were read: its faults in their order.
ghost use Rattle.std.specs.Prelude.{◌≡◌, None, length, position, is_none, All, IfOk, IfSome, OnOk};
ghost use Rattle.ldm_bytes.specs.Tables.{first_of};
ghost use Rattle.ldm_group.specs.Partitions.{EndsInRange};
ghost use Rattle.ldm_copy.specs.Answers.{FitsHeader};
ghost use Rattle.ldm_rules.specs.Disjoint.{AllLaidOut};
ghost use Rattle.ldm_found.specs.Labels.{AreApart, stranger};
ghost use Rattle.ldm_found.specs.Opening.{group_at, group_faults};
ghost use Rattle.ldm_found.specs.Facts.{IsSoundGroup};
ghost use Rattle.ldm_found.specs.Steps.{ChecksGroup, GivesGroup, newest_faults, group_from};

use crate::copies::Newest;
use crate::editing::blocked;
use crate::fault::OpenError;
use ldm_copy::{Found, Notes, OpenFault};
use ldm_group::Db;
use ldm_label::{Label, Labels};
use ldm_rules::{RuleError, check};
use std::alloc::Global;

// The first image of a disk that the database doesn't have.
fn stranger(db: &Db, labels: &[Label]) -> Option<usize>
    ensures { result ≡ stranger db.now.records labels.now }
{
    labels
        .iter()
        .position(|label| db.disk_with(label.disk_guid).is_none())
}

// That no image is of a strange disk, and no rule is broken.
#[tactic(auto, unfolding(crate::specs::Opening::group_faults))]
fn check_group(alloc: Global, db: &Db, labels: &Labels) -> Result<(), OpenError>
    ensures is { ChecksGroup result (first_of (group_faults db.now labels.now)) }
    ensures own { OnOk result (stranger db.now.records labels.now ≡ None) }
    ensures ends { OnOk result (All EndsInRange db.now.records) }
    ensures laid_out { OnOk result (AllLaidOut db.now.records) }
{
    if let Some(image) = stranger(db, labels.as_slice()) {
        return Err(OpenError::Fault(OpenFault::Stranger(image)));
    }
    match check(alloc, db, labels) {
        Ok(()) => Ok(()),
        Err(RuleError::Fault(broken)) => Err(OpenError::Fault(OpenFault::Rule(broken))),
        Err(RuleError::NoMemory) => Err(OpenError::NoMemory),
    }
}

// That no other image has another group at the sequence of the newest copy, no image is of a
// strange disk, and no rule is broken.
fn check_newest(alloc: Global, newest: &Newest, labels: &Labels) -> Result<(), OpenError>
    ensures is { ChecksGroup result (first_of (newest_faults newest.now labels.now)) }
    ensures own { OnOk result (stranger newest.now.db.records labels.now ≡ None) }
    ensures ends { OnOk result (All EndsInRange newest.now.db.records) }
    ensures laid_out { OnOk result (AllLaidOut newest.now.db.records) }
{
    if let Some(other) = newest.other {
        return Err(OpenError::Fault(OpenFault::Split(newest.image, other)));
    }
    check_group(alloc, &newest.db, labels)
}

// The group of this newest copy.
fn group_of(alloc: Global, newest: Newest, labels: Labels, notes: Notes) -> Result<Found, OpenError>
    requires room { FitsHeader newest.db }
    requires apart { AreApart labels }
    requires one_note { length notes ≡ length labels }
    ensures is { GivesGroup result (group_at newest.image newest.db newest.other labels notes) }
    ensures sound { IfOk result (λ found. IsSoundGroup found) }
    ensures same { IfOk result (λ found. found.labels ≡ labels) }
{
    check_newest(alloc, &newest, &labels)?;
    let blocked = blocked(&newest.db, labels.as_slice());
    Ok(Found {
        db: newest.db,
        labels,
        notes,
        blocked,
    })
}

/// The group of the newest copy, on disks with these labels.
pub fn choose(
    alloc: Global,
    newest: Option<Newest>,
    labels: Labels,
    notes: Notes,
) -> Result<Found, OpenError>
    requires room { IfSome newest (λ n. FitsHeader n.db) }
    requires apart { AreApart labels }
    requires one_note { length notes ≡ length labels }
    ensures is { GivesGroup result (group_from newest labels notes) }
    ensures sound { IfOk result (λ found. IsSoundGroup found) }
    ensures same { IfOk result (λ found. found.labels ≡ labels) }
{
    match newest {
        Some(newest) => group_of(alloc, newest, labels, notes),
        None => Err(OpenError::Fault(OpenFault::NoCopy)),
    }
}
