//! Images that are behind the others of their group, with their paths.
use crate::saying::{path_of, say};
use ldm_bytes::NoMemory;
use ldm_found::{Found, Note};
use ldm_text::{Part, Text};
use std::alloc::Global;

// Says that an image is behind, where this is noted of it in a group of this sequence.
fn say_behind(
    alloc: Global,
    text: &mut Text,
    names: &[String],
    image: usize,
    note: Note,
    seq: u64,
) -> Result<(), NoMemory> {
    let held = match note {
        Note::Sequence(held) if held < seq => held,
        _ => return Ok(()),
    };
    let path = path_of(alloc, names, image)?;
    let parts = [
        Part::Number(image as u64),
        Part::Word(path.as_bytes()),
        Part::Number(held),
        Part::Number(seq),
    ];
    let said = "ldm: image % (%) is behind: sequence % of %; its data may be old\n";
    say(text, said, &parts)
}

/// A line for each image whose copy of the database is of a lower sequence than the group's: its
/// disk wasn't there when the group was edited, so its data may be old too.
pub fn behind_text(alloc: Global, names: &[String], found: &Found) -> Result<Text, NoMemory> {
    let mut text = Text::new(alloc);
    let seq = found.db.header().seq;
    for (image, note) in found.notes.as_slice().iter().enumerate() {
        say_behind(alloc, &mut text, names, image, *note, seq)?;
    }
    Ok(text)
}
