//! The lines of a script, done once more to the group as it was before, and why they were refused.
ghost use Rattle.std.specs.Prelude.{IfOk, None};
ghost use Rattle.ldm_rules.specs.Facts.{IsSoundOn};
ghost use Rattle.ldm_words.specs.Limits.{IsCommand};
ghost use Rattle.ldm_edits.specs.Changes.{AreasFit};
ghost use Rattle.ldm_edits.specs.Steps.{IsGood};

use crate::command::say_refusal;
use crate::line::say_unread;
use ldm_bytes::NoMemory;
use ldm_edits::{Answer, Draft, Refusal, take_turn};
use ldm_group::Db;
use ldm_label::Labels;
use ldm_lines::{LineError, front_line, read_line};
use ldm_text::{Text, push_number};
use ldm_words::Command;
use std::alloc::Global;

// How many lines are explained.
const MOST: u64 = 10;

// The group and the batch after a command, and why it was refused, where it was.
fn done(
    alloc: Global,
    db: Db,
    draft: Option<Draft>,
    labels: &Labels,
    command: &Command,
) -> Result<(Db, Option<Draft>, Option<Refusal>), NoMemory>
    requires good { IsGood labels.now (record { db = db; draft = draft }) }
    requires limits { IsCommand command.now }
    ensures { IfOk result (λ turn. IsGood labels.now
        (record { db = turn.0; draft = turn.1 })) }
{
    let (held, answer) = take_turn(alloc, &db, draft, labels, command);
    match answer? {
        Answer::Next(next) => Ok((next, None, None)),
        Answer::Held => Ok((db, held, None)),
        Answer::Dropped => Ok((db, held, None)),
        Answer::Refused(refusal) => Ok((db, held, Some(refusal))),
    }
}

// Says why a command is refused, where this batch is open.
fn say_refused(
    alloc: Global,
    text: &mut Text,
    db: &Db,
    draft: &Option<Draft>,
    labels: &Labels,
    command: &Command,
    refusal: Refusal,
) -> Result<(), NoMemory>
    requires { IsGood labels.now (record { db = db.now; draft = draft.now }) }
{
    match draft {
        None => say_refusal(alloc, text, db, labels, command, refusal),
        Some(draft) => {
            let held = draft.db(alloc)?;
            say_refusal(alloc, text, &held, labels, command, refusal)
        }
    }
}

// What is said of the refused lines, and how many there are.
#[derive(Drop)]
struct Told {
    text: Text,
    refused: u64,
}

impl Told {
    fn new(alloc: Global) -> Told {
        Told {
            text: Text::new(alloc),
            refused: 0,
        }
    }

    // One more line is refused, that of this number. Whether it is explained, as the first are.
    fn begin(&mut self, number: u64) -> Result<bool, NoMemory> {
        let explains = self.refused < MOST;
        self.refused = self.refused.saturating_add(1);
        if explains {
            push_number(&mut self.text, b"ldm: line ", number)?;
            self.text.push(b": ")?;
        }
        Ok(explains)
    }

    // What was said, and how many lines more were refused.
    fn end(self) -> Result<Text, NoMemory> {
        let Told { mut text, refused } = self;
        if refused > MOST {
            let more = refused.saturating_sub(MOST);
            push_number(&mut text, b"ldm: refused lines beside these: ", more)?;
            text.push(b"\n")?;
        }
        Ok(text)
    }
}

// The group and the batch after the command of a line, and what is said where it is refused.
fn command_done(
    alloc: Global,
    told: &mut Told,
    db: Db,
    draft: Option<Draft>,
    labels: &Labels,
    number: u64,
    command: &Command,
) -> Result<(Db, Option<Draft>), NoMemory>
    requires good { IsGood labels.now (record { db = db; draft = draft }) }
    requires limits { IsCommand command.now }
    ensures { IfOk result (λ turn. IsGood labels.now
        (record { db = turn.0; draft = turn.1 })) }
{
    let (db, draft, refused) = done(alloc, db, draft, labels, command)?;
    if let Some(refusal) = refused {
        if told.begin(number)? {
            say_refused(alloc, &mut told.text, &db, &draft, labels, command, refusal)?;
            told.text.push(b"\n")?;
        }
    }
    Ok((db, draft))
}

// Says why a line has no reading.
fn tell_unread(alloc: Global, told: &mut Told, number: u64, line: &[u8]) -> Result<(), NoMemory> {
    if told.begin(number)? {
        say_unread(alloc, &mut told.text, line)?;
        told.text.push(b"\n")?;
    }
    Ok(())
}

// The group and the batch after a line, and what is said where it is refused.
fn line_done(
    alloc: Global,
    told: &mut Told,
    db: Db,
    draft: Option<Draft>,
    labels: &Labels,
    number: u64,
    line: &[u8],
) -> Result<(Db, Option<Draft>), NoMemory>
    requires good { IsGood labels.now (record { db = db; draft = draft }) }
    ensures { IfOk result (λ turn. IsGood labels.now
        (record { db = turn.0; draft = turn.1 })) }
{
    match read_line(alloc, line) {
        Ok(command) => command_done(alloc, told, db, draft, labels, number, &command),
        Err(LineError::BadLine) => {
            tell_unread(alloc, told, number, line)?;
            Ok((db, draft))
        }
        Err(LineError::NoMemory) => Err(NoMemory),
    }
}

/// Why lines of a script were refused, which began with this group, whose images have these labels.
pub fn script_lines(
    alloc: Global,
    group: Db,
    labels: &Labels,
    script: &[u8],
) -> Result<Text, NoMemory>
    requires sound { IsSoundOn group labels.now }
    requires areas { AreasFit labels.now }
{
    let mut told = Told::new(alloc);
    let mut db = group;
    let mut draft = None;
    let mut rest = script;
    let mut number: u64 = 1;
    'lines: while let Some((line, behind)) = front_line(rest) {
        let (next, held) = line_done(alloc, &mut told, db, draft, labels, number, line)?;
        db = next;
        draft = held;
        rest = behind;
        number = number.saturating_add(1);
    }
    told.end()
}

/// Why this group refused a command that is no line of a script.
pub fn command_line(
    alloc: Global,
    db: &Db,
    labels: &Labels,
    command: &Command,
) -> Result<Text, NoMemory>
    requires sound { IsSoundOn db.now labels.now }
    requires areas { AreasFit labels.now }
    requires limits { IsCommand command.now }
{
    let mut text = Text::new(alloc);
    let (_, answer) = take_turn(alloc, db, None, labels, command);
    if let Answer::Refused(refusal) = answer? {
        text.push(b"ldm: ")?;
        say_refusal(alloc, &mut text, db, labels, command, refusal)?;
        text.push(b"\n")?;
    }
    Ok(text)
}
