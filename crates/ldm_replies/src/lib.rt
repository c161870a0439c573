//! The texts of the replies to the lines of a script, and their JSON, each exact.
#![tactic(auto)]

ghost use Rattle.std.specs.Prelude.{◌≡◌, ◌++◌, OnOk, IfOk};
ghost use Rattle.ldm_replies.specs.Reply.{text_of_reason, text_of_reply};
ghost use Rattle.ldm_replies.specs.ReplyJson.{said_reply};

mod reply_json;

use crate::reply_json::reply_line;
use ldm_bytes::{Bytes, NoMemory};
use ldm_edits::{Refusal, Reply};
use ldm_text::{Text, push_number};
use ldm_words::Format;
use std::alloc::Global;

// record ID too long
fn push_too_long(text: &mut Text, id: u64) -> Result<(), NoMemory>
    ensures { OnOk result (text.new ≡ text.old ++ text_of_reason (Refusal.TooLong id)) }
{
    push_number(text, b"record ", id)?;
    text.push(b" too long")
}

// need COUNT pieces
fn push_piece_count(text: &mut Text, count: usize) -> Result<(), NoMemory>
    ensures { OnOk result (text.new ≡ text.old ++ text_of_reason (Refusal.PieceCount count)) }
{
    push_number(text, b"need ", count as u64)?;
    text.push(b" pieces")
}

// no room: need NEED have HAVE
fn push_no_room(text: &mut Text, need: u64, have: u64) -> Result<(), NoMemory>
    ensures { OnOk result (text.new ≡ text.old ++ text_of_reason (Refusal.NoRoom need have)) }
{
    push_number(text, b"no room: need ", need)?;
    push_number(text, b" have ", have)
}

// Why a command is refused.
fn push_reason(text: &mut Text, refusal: &Refusal) -> Result<(), NoMemory>
    ensures { OnOk result (text.new ≡ text.old ++ text_of_reason refusal.now) }
{
    match *refusal {
        Refusal::BadLine => text.push(b"bad line"),
        Refusal::BatchOpen => text.push(b"batch open"),
        Refusal::NoBatch => text.push(b"no batch"),
        Refusal::EmptyBatch => text.push(b"empty batch"),
        Refusal::NameTaken => text.push(b"name taken"),
        Refusal::NoVolume => text.push(b"no volume"),
        Refusal::NotSpan => text.push(b"not a span"),
        Refusal::ExtraSize => text.push(b"second size"),
        Refusal::PieceCount(count) => push_piece_count(text, count),
        Refusal::NoDisk(place) => push_number(text, b"no disk ", place as u64),
        Refusal::SameDisk => text.push(b"same disk twice"),
        Refusal::BadSize => text.push(b"bad size"),
        Refusal::NoSpace(place) => push_number(text, b"no space ", place as u64),
        Refusal::IdsSpent => text.push(b"ids spent"),
        Refusal::TooLong(id) => push_too_long(text, id),
        Refusal::NoRoom { need, have } => push_no_room(text, need, have),
        Refusal::SequenceSpent => text.push(b"sequence spent"),
    }
}

/// The text of why a command is refused.
pub(crate) fn reason_text(alloc: Global, refusal: &Refusal) -> Result<Bytes, NoMemory>
    ensures { IfOk result (λ text. text ≡ text_of_reason refusal.now) }
{
    let mut text = Text::new(alloc);
    push_reason(&mut text, refusal)?;
    Ok(text.into_bytes())
}

// The number of a line and the reply to it, to the end of the line.
fn push_reply(text: &mut Text, line: u64, reply: &Reply) -> Result<(), NoMemory>
    ensures { OnOk result (text.new ≡ text.old ++ text_of_reply (line, reply.now)) }
{
    text.push_number(line)?;
    match reply {
        Reply::Done(seq) => push_number(text, b" ok ", *seq)?,
        Reply::Held => text.push(b" held")?,
        Reply::Dropped => text.push(b" dropped")?,
        Reply::Refused(refusal) => {
            text.push(b" refused: ")?;
            push_reason(text, refusal)?;
        }
    }
    text.push(b"\n")
}

/// The text of the reply to the line of this number.
pub fn reply_text(alloc: Global, line: u64, reply: &Reply) -> Result<Bytes, NoMemory>
    ensures { IfOk result (λ text. text ≡ text_of_reply (line, reply.now)) }
{
    let mut text = Text::new(alloc);
    push_reply(&mut text, line, reply)?;
    Ok(text.into_bytes())
}

/// What is said of the reply to the line of this number.
pub fn said_reply(
    alloc: Global,
    format: &Format,
    line: u64,
    reply: &Reply,
) -> Result<Bytes, NoMemory>
    ensures { IfOk result (λ text. text ≡ said_reply format.now (line, reply.now)) }
{
    match format {
        Format::Lines => reply_text(alloc, line, reply),
        Format::Json(_) => reply_line(alloc, line, reply),
    }
}
