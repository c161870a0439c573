//! Names of volumes and disks of a group, where none is that which was named.
use crate::saying::say;
use ldm_bytes::NoMemory;
use ldm_group::Db;
use ldm_records::Record;
use ldm_text::{Part, Text};
use std::alloc::Global;
use strsim::generic_levenshtein;

// How many names are said of a list.
const MOST: usize = 8;

/// What is named.
#[derive(Clone, Copy)]
pub enum Kind {
    Disk,
    Volume,
}

// The names of the disks, or of the volumes, of a group.
fn names_of(alloc: Global, db: &Db, kind: Kind) -> Result<Vec<&[u8]>, NoMemory> {
    let mut names = Vec::new(alloc);
    for r in db.as_slice() {
        match (kind, r) {
            (Kind::Disk, Record::Disk(d)) => names.push(d.head.name.as_slice())?,
            (Kind::Volume, Record::Volume(v)) => names.push(v.head.name.as_slice())?,
            _ => (),
        }
    }
    Ok(names)
}

// The name that is the nearest to this one, where one is so near that it may have been meant: one
// change for three bytes, and no more than two.
fn nearest<'a>(
    alloc: Global,
    names: &[&'a [u8]],
    name: &[u8],
) -> Result<Option<&'a [u8]>, NoMemory> {
    let mut least = name.len().div_ceil(3).clamp(1, 2).saturating_add(1);
    let mut near = None;
    for other in names {
        let changes = generic_levenshtein(alloc, name, other)?;
        if changes < least {
            least = changes;
            near = Some(*other);
        }
    }
    Ok(near)
}

// Says the first names of a list.
fn say_list(text: &mut Text, names: &[&[u8]]) -> Result<(), NoMemory> {
    let mut before: &[u8] = b"";
    for name in names.iter().take(MOST) {
        say(text, "%%", &[Part::Word(before), Part::Name(*name)])?;
        before = b", ";
    }
    match names.len() {
        0 => text.push(b"none"),
        1..=MOST => Ok(()),
        _ => text.push(b" and more"),
    }
}

/// Says that no disk, or no volume, of a group has a name, and which name is the nearest, or which
/// there are.
pub fn say_unknown(
    alloc: Global,
    text: &mut Text,
    db: &Db,
    kind: Kind,
    name: &[u8],
) -> Result<(), NoMemory> {
    let names = names_of(alloc, db, kind)?;
    let what = match kind {
        Kind::Disk => Part::Word(b"disk"),
        Kind::Volume => Part::Word(b"volume"),
    };
    let parts = [what, Part::Name(name), what];
    match nearest(alloc, &names, name)? {
        Some(near) => {
            say(text, "no % is called %; the nearest is ", &parts)?;
            say(text, "%", &[Part::Name(near)])
        }
        None => {
            say(text, "no % is called %; the %s of the group: ", &parts)?;
            say_list(text, &names)
        }
    }
}
