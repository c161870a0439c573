//! What a line comes to, where a batch may be open.
ghost use Rattle.std.specs.Prelude.{◌≡◌, ◌+◌, ◌-◌, ◌^◌, ◌<◌, true, All, Result, Some};
ghost use Rattle.std.specs.Prelude.{IfOk, IfErr, option_copied};
ghost use Rattle.std.specs.Option.{ForSome};
ghost use Rattle.ldm_group.specs.Database.{Database};
ghost use Rattle.ldm_group.specs.Room.{IsFitting};
ghost use Rattle.ldm_rules.specs.Facts.{IsSoundOn};
ghost use Rattle.ldm_words.specs.Limits.{IsCommand, IsChange};
ghost use Rattle.ldm_edits.specs.declared.batch.Answer.TheVariants as answers;
ghost use Rattle.ldm_edits.specs.declared.batch.Turn.{Turn as Verdict};
ghost use Rattle.ldm_edits.specs.declared.reply.Refusal.{Refusal as Reason};
ghost use Rattle.ldm_edits.specs.declared.stepping.Outcome.TheVariants.{Next};
ghost use Rattle.ldm_edits.specs.Changes.{AreasFit};
ghost use Rattle.ldm_edits.specs.Steps.{next_of, StepsAs, Keeps, IsDraftOf};
ghost use Rattle.ldm_edits.specs.Steps.{held_at, change_in, begun, committed, cancelled};
ghost use Rattle.ldm_edits.specs.Steps.{verdict_of};
ghost use Rattle.ldm_edits.specs.Steps.{AnswersTo, VerdictKeeps, at_once};

use crate::batch::{Answer, Draft, Turn};
use crate::error::StepError;
use crate::reply::Refusal;
use crate::stepping::{Outcome, step, types_hold};
use ldm_bytes::NoMemory;
use ldm_group::Db;
use ldm_label::Labels;
use ldm_words::Command;
use std::alloc::Global;

// The sequence of a group, which is a number of the format.
fn seq_of(db: &Db) -> u64
    ensures is { result ≡ db.now.header.seq }
    ensures low { db.now.header.seq < 2 ^ 64 }
{
    db.header().seq
}

// begin
fn begin(alloc: Global, db: &Db, draft: Option<&Draft>) -> Result<Turn, NoMemory>
    requires { All IsFitting db.now.records }
    ensures { IfOk result (λ turn. turn ≡ begun db.now (option_copied draft.entry)) }
{
    match draft {
        Some(_) => Ok(Turn::Refused(Refusal::BatchOpen)),
        None => Ok(Turn::Hold(Draft::of(alloc, db, false)?)),
    }
}

// commit, where the group has this sequence
fn commit(alloc: Global, seq: u64, draft: Option<&Draft>) -> Result<Turn, NoMemory>
    requires { ForSome (option_copied draft) (λ d. d.filled ≡ true → seq < 2 ^ 64 - 1) }
    ensures { IfOk result (λ turn. turn ≡ committed seq (option_copied draft.entry)) }
{
    let Some(draft) = draft else {
        return Ok(Turn::Refused(Refusal::NoBatch));
    };
    if !draft.filled() {
        return Ok(Turn::Refused(Refusal::EmptyBatch));
    }
    Ok(Turn::Next(draft.db(alloc)?.with_seq(seq + 1)))
}

// cancel
fn cancel(draft: Option<&Draft>) -> Turn
    ensures { result ≡ cancelled (option_copied draft.entry) }
{
    match draft {
        Some(_) => Turn::GiveUp,
        None => Turn::Refused(Refusal::NoBatch),
    }
}

// What a change outside a batch comes to.
fn at_once(outcome: Outcome) -> Turn
    ensures { (step : Result Database Reason) → StepsAs outcome step → result ≡ at_once step }
{
    match outcome {
        Outcome::Next(next) => Turn::Next(next),
        Outcome::Refused(refusal) => Turn::Refused(refusal),
    }
}

// What a change in a batch comes to, where the group has this sequence.
fn hold(alloc: Global, seq: u64, outcome: Outcome) -> Result<Turn, NoMemory>
    requires { (next : Database) → outcome ≡ Next next → All IsFitting next.records }
    ensures is { (step : Result Database Reason) → StepsAs outcome step
        → IfOk result (λ turn. turn ≡ held_at seq step) }
    ensures low { (next : Database) → outcome ≡ Next next → next.header.seq < 2 ^ 64 }
{
    match outcome {
        Outcome::Next(next) => {
            let _seq = seq_of(&next);
            Ok(Turn::Hold(Draft::of(alloc, &next.with_seq(seq), true)?))
        }
        Outcome::Refused(refusal) => Ok(Turn::Refused(refusal)),
    }
}

// What a create, an extend or a delete makes of the group of a batch.
fn step_from(
    alloc: Global,
    draft: &Draft,
    labels: &Labels,
    command: &Command,
) -> Result<Outcome, NoMemory>
    requires sound { IsSoundOn draft.now.db labels.now }
    requires areas { AreasFit labels.now }
    requires limits { IsCommand command.now }
    requires change { IsChange command.now }
    ensures is { IfOk result (λ outcome. StepsAs outcome
        (next_of draft.now.db labels.now command.now)) }
    ensures keeps { IfOk result (λ outcome. (next : Database) → outcome ≡ Next next
        → Keeps labels.now draft.now.db next) }
{
    let db = draft.db(alloc)?;
    step(alloc, &db, labels, command)
}

// A create, an extend or a delete.
fn change(
    alloc: Global,
    db: &Db,
    draft: Option<&Draft>,
    labels: &Labels,
    command: &Command,
) -> Result<Turn, NoMemory>
    requires sound { IsSoundOn db.now labels.now }
    requires areas { AreasFit labels.now }
    requires draft { ForSome (option_copied draft) (IsDraftOf labels.now db.now) }
    requires limits { IsCommand command.now }
    requires change { IsChange command.now }
    ensures is { IfOk result (λ turn. turn ≡ change_in labels.now db.now command.now
        (option_copied draft.entry)) }
    ensures keeps { IfOk result (λ turn. VerdictKeeps labels.now db.now turn) }
{
    match draft {
        None => Ok(at_once(step(alloc, db, labels, command)?)),
        Some(draft) => {
            let outcome = step_from(alloc, draft, labels, command)?;
            hold(alloc, seq_of(db), outcome)
        }
    }
}

/// What a line comes to, where this batch is open on the group, whose images have these labels. It
/// never answers BadLine.
pub fn turn(
    alloc: Global,
    db: &Db,
    draft: Option<&Draft>,
    labels: &Labels,
    command: &Command,
) -> Result<Turn, NoMemory>
    requires sound { IsSoundOn db.now labels.now }
    requires areas { AreasFit labels.now }
    requires draft { ForSome (option_copied draft) (IsDraftOf labels.now db.now) }
    requires limits { IsCommand command.now }
    ensures is { IfOk result (λ turn. turn ≡ verdict_of labels.now db.now
        (option_copied draft.entry) command.now) }
    ensures keeps { IfOk result (λ turn. VerdictKeeps labels.now db.now turn) }
{
    match command {
        Command::Begin => begin(alloc, db, draft),
        Command::Commit => commit(alloc, seq_of(db), draft),
        Command::Cancel => Ok(cancel(draft)),
        _ => change(alloc, db, draft, labels, command),
    }
}

// What is answered where the batch was handed over, by what the line comes to.
fn answered(
    draft: Option<Draft>,
    turned: Result<Turn, NoMemory>,
) -> (Option<Draft>, Result<Answer, NoMemory>)
    ensures is { (verdict : Verdict) → IfOk turned (λ turn. turn ≡ verdict)
        → IfOk result.1 (λ answer. AnswersTo verdict draft answer result.0) }
    ensures unchanged { IfErr result.1 (λ _. result.0 ≡ draft) }
{
    match turned {
        Ok(Turn::Next(next)) => (draft, Ok(Answer::Next(next))),
        Ok(Turn::Hold(held)) => (Some(held), Ok(Answer::Held)),
        Ok(Turn::GiveUp) => (None, Ok(Answer::Dropped)),
        Ok(Turn::Refused(refusal)) => (draft, Ok(Answer::Refused(refusal))),
        Err(NoMemory) => (draft, Err(NoMemory)),
    }
}

// A create, an extend or a delete where a batch is open.
fn hold_change(
    alloc: Global,
    draft: Draft,
    labels: &Labels,
    command: &Command,
) -> (Option<Draft>, Result<Answer, NoMemory>)
    requires sound { IsSoundOn draft.db labels.now }
    requires areas { AreasFit labels.now }
    requires limits { IsCommand command.now }
    requires change { IsChange command.now }
    ensures is { IfOk result.1 (λ answer. AnswersTo (held_at draft.db.header.seq
        (next_of draft.db labels.now command.now)) (Some draft) answer result.0) }
    ensures unchanged { IfErr result.1 (λ _. result.0 ≡ Some draft) }
    ensures unspent { IfOk result.1 (λ answer. answer ≡ answers.Held
        → draft.db.header.seq < 2 ^ 64 - 1) }
{
    let (draft, held) = draft.change(alloc, labels, command);
    match held {
        Ok(()) => (Some(draft), Ok(Answer::Held)),
        Err(StepError::Refused(refusal)) => (Some(draft), Ok(Answer::Refused(refusal))),
        Err(StepError::NoMemory) => (Some(draft), Err(NoMemory)),
    }
}

/// What `turn` says of a line, where the batch is handed over and comes back. A create, an extend
/// or a delete in a batch copies no records but those of its volume.
pub fn take_turn(
    alloc: Global,
    db: &Db,
    draft: Option<Draft>,
    labels: &Labels,
    command: &Command,
) -> (Option<Draft>, Result<Answer, NoMemory>)
    requires sound { IsSoundOn db.now labels.now }
    requires areas { AreasFit labels.now }
    requires draft { ForSome draft (IsDraftOf labels.now db.now) }
    requires limits { IsCommand command.now }
    ensures is { IfOk result.1 (λ answer. AnswersTo (verdict_of labels.now db.now draft
        command.now) draft answer result.0) }
    ensures keeps { IfOk result.1 (λ answer. (next : Database) → answer ≡ answers.Next next
        → Keeps labels.now db.now next) }
    ensures drafted { ForSome result.0 (IsDraftOf labels.now db.now) }
    // Where memory ran out the batch comes back as it was.
    ensures unchanged { IfErr result.1 (λ _. result.0 ≡ draft) }
{
    let Some(draft) = draft else {
        return answered(None, turn(alloc, db, None, labels, command));
    };
    match command {
        Command::Begin | Command::Commit | Command::Cancel => {
            let turned = turn(alloc, db, Some(&draft), labels, command);
            answered(Some(draft), turned)
        }
        _ => {
            types_hold(db, labels);
            draft.types_hold();
            hold_change(alloc, draft, labels, command)
        }
    }
}
