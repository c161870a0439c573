//! The text of `check`.
ghost use Rattle.std.specs.Prelude.{◌≡◌, ◌++◌, OnOk, IfOk, flat_map};
ghost use Rattle.std.specs.List.{enumerate_from};
ghost use Rattle.ldm_look.specs.Check.{text_of_note, text_of_blocked, text_of_check};

use crate::opening::fault_text;
use ldm_bytes::{Bytes, NoMemory};
use ldm_copy::{Found, Note, OpenFault};
use ldm_text::{Text, push_number};
use std::alloc::Global;

// image I sequence S, or image I closed
fn push_note(text: &mut Text, image: usize, note: &Note) -> Result<(), NoMemory>
    ensures { OnOk result (text.new ≡ text.old ++ text_of_note (image, note.now)) }
{
    push_number(text, b"image ", image as u64)?;
    match note {
        Note::Closed => text.push(b" closed\n"),
        Note::Sequence(seq) => {
            push_number(text, b" sequence ", *seq)?;
            text.push(b"\n")
        }
    }
}

// A line for each image.
fn push_notes(text: &mut Text, notes: &[Note]) -> Result<(), NoMemory>
    ensures { OnOk result (text.new ≡ text.old ++ flat_map text_of_note
        (enumerate_from 0 notes.now)) }
{
    for (image, note) in notes.iter().enumerate() {
        push_note(text, image, note)?;
    }
    Ok(())
}

// The last line.
fn push_blocked(alloc: Global, text: &mut Text, blocked: &Option<OpenFault>) -> Result<(), NoMemory>
    ensures { OnOk result (text.new ≡ text.old ++ text_of_blocked blocked.now) }
{
    match blocked {
        None => text.push(b"ok: editable\n"),
        Some(fault) => {
            let fault = fault_text(alloc, fault)?;
            text.push(b"ok: not editable: ")?;
            text.push(fault.as_slice())?;
            text.push(b"\n")
        }
    }
}

/// The text of what each image holds, and of whether the group may be edited.
pub fn check_text(alloc: Global, found: &Found) -> Result<Bytes, NoMemory>
    ensures { IfOk result (λ text. text ≡ text_of_check found.now) }
{
    let mut text = Text::new(alloc);
    push_notes(&mut text, found.notes.as_slice())?;
    push_blocked(alloc, &mut text, &found.blocked)?;
    Ok(text.into_bytes())
}
