//! One command: the next group, or the first refusal.
ghost use Rattle.std.specs.Prelude.{◌≡◌, IfOk, All, ◌<◌, ◌≤◌, ◌^◌};
ghost use Rattle.ldm_group.specs.Order.{Rising};
ghost use Rattle.ldm_rules.specs.Facts.{IsSoundOn};
ghost use Rattle.ldm_words.specs.Limits.{IsCommand, IsChange};
ghost use Rattle.ldm_edits.specs.Answers.{StepsTo};
ghost use Rattle.ldm_edits.specs.Changes.{AreasFit};
ghost use Rattle.ldm_edits.specs.Steps.{next_of, StepsAs, Keeps};
ghost use Rattle.ldm_edits.specs.declared.stepping.Outcome.TheVariants.{Next};

use crate::creating::create;
use crate::deleting::delete;
use crate::error::StepError;
use crate::extending::extend;
use crate::reply::Refusal;
use ldm_bytes::NoMemory;
use ldm_group::Db;
use ldm_label::{Label, Labels};
use ldm_words::Command;
use std::alloc::Global;

/// What a command comes to.
#[derive(Drop)]
pub enum Outcome {
    /// The group with the command done.
    Next(Db),
    /// The first reason that it is refused.
    Refused(Refusal),
}

// The largest size that a label says.
fn largest(labels: &[Label]) -> u64
    ensures { All (λ l. l.data_size ≤ result) labels.now }
{
    labels.iter().map(|l| l.data_size).max().unwrap_or(0)
}

/// A law of the types: the records rise, and the sizes that the labels say, the last VBLK sequence
/// and the committed sequence are numbers of the format.
pub(crate) fn types_hold(db: &Db, labels: &Labels)
    ensures rising { Rising db.now.records }
    ensures low { All (λ l. l.data_size < 2 ^ 64) labels.now }
    ensures last { db.now.header.last < 2 ^ 32 }
    ensures seq { db.now.header.seq < 2 ^ 64 }
{
    let _last = db.header().last;
    let _seq = db.header().seq;
    let _records = db.as_slice();
    let _largest = largest(labels.as_slice());
}

// The group with the command done.
fn next_of(alloc: Global, db: &Db, labels: &Labels, command: &Command) -> Result<Db, StepError>
    requires sound { IsSoundOn db.now labels.now }
    requires areas { AreasFit labels.now }
    requires limits { IsCommand command.now }
    requires change { IsChange command.now }
    ensures { StepsTo result (next_of db.now labels.now command.now) }
{
    match command {
        Command::Create { name, guid, layout } => create(
            alloc,
            db,
            labels,
            name.as_slice(),
            *guid,
            layout,
        ),
        Command::Extend { name, pieces } => extend(
            alloc,
            db,
            labels,
            name.as_slice(),
            pieces.as_slice(),
        ),
        Command::Delete { name } => delete(alloc, db, labels, name.as_slice()),
        Command::Begin | Command::Commit | Command::Cancel => unreachable!(),
    }
}

/// What a create, an extend or a delete makes of the group, whose images have these labels. It
/// never answers BadLine.
pub fn step(alloc: Global, db: &Db, labels: &Labels, command: &Command) -> Result<Outcome, NoMemory>
    requires sound { IsSoundOn db.now labels.now }
    requires areas { AreasFit labels.now }
    requires limits { IsCommand command.now }
    requires change { IsChange command.now }
    ensures is { IfOk result (λ outcome. StepsAs outcome (next_of db.now labels.now command.now)) }
    ensures keeps { IfOk result (λ outcome. (next : _) → outcome ≡ Next next
        → Keeps labels.now db.now next) }
{
    types_hold(db, labels);
    match next_of(alloc, db, labels, command) {
        Ok(next) => Ok(Outcome::Next(next)),
        Err(StepError::Refused(refusal)) => Ok(Outcome::Refused(refusal)),
        Err(StepError::NoMemory) => Err(NoMemory),
    }
}
