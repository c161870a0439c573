//! Why a group refuses a command.
ghost use Rattle.ldm_rules.specs.Facts.{IsSoundOn};

use crate::names::{Kind, say_unknown};
use crate::saying::say;
use crate::words::{DiskWord, words_of};
use ldm_bytes::NoMemory;
use ldm_edits::Refusal;
use ldm_group::Db;
use ldm_label::Labels;
use ldm_rules::sectors_of;
use ldm_space::{FreeMap, Gap};
use ldm_text::{Part, Text};
use ldm_words::{Command, NewLayout};
use std::alloc::Global;

// The name of the volume that a command makes or changes.
fn volume_of(command: &Command) -> &[u8] {
    match command {
        Command::Create { name, .. } => name.as_slice(),
        Command::Extend { name, .. } => name.as_slice(),
        Command::Delete { name } => name.as_slice(),
        _ => b"",
    }
}

// The chunk of a new volume, where its layout has one.
fn chunk_of(command: &Command) -> Option<u64> {
    match command {
        Command::Create { layout, .. } => match layout {
            NewLayout::Stripe { chunk, .. } => Some(*chunk),
            NewLayout::Raid5 { chunk, .. } => Some(*chunk),
            _ => None,
        },
        _ => None,
    }
}

// The most sectors that lie side by side in one of these gaps.
fn largest(gaps: &[Gap]) -> u64 {
    let mut most = 0;
    for gap in gaps {
        most = gap.len.max(most);
    }
    most
}

// Takes what these words ask of the disk of this name, and says whether one does.
fn take_words(map: &mut FreeMap, words: &[DiskWord], name: &[u8]) -> bool {
    let mut took = false;
    for word in words {
        if word.disk == name && word.sectors > 0 {
            let _ = map.take(word.sectors);
            took = true;
        }
    }
    took
}

// Says that the disk word finds no free run.
fn say_no_space(
    alloc: Global,
    text: &mut Text,
    db: &Db,
    labels: &Labels,
    words: &[DiskWord],
    at: usize,
) -> Result<(), NoMemory>
    requires { IsSoundOn db.now labels.now }
{
    let Some(word) = words.get(at) else {
        return Ok(());
    };
    let Some(disk) = db.disk_named(word.disk) else {
        return Ok(());
    };
    let size = sectors_of(labels.as_slice(), disk.guid);
    let mut map = FreeMap::of(alloc, db, disk.head.id, size)?;
    let took = take_words(&mut map, &words[..at], word.disk);
    let parts = [
        Part::Name(word.disk),
        Part::Number(word.sectors),
        Part::Number(largest(map.gaps())),
    ];
    say(
        text,
        "% has no free run of % sectors, the largest is %",
        &parts,
    )?;
    if took {
        text.push(b", after the words before")?;
    }
    Ok(())
}

// Whether one of these words is of the disk of this name.
fn has_disk(words: &[DiskWord], name: &[u8]) -> bool {
    for word in words {
        if word.disk == name {
            return true;
        }
    }
    false
}

// The first disk that is named twice.
fn twice<'a>(words: &[DiskWord<'a>]) -> Option<&'a [u8]> {
    for at in 0..words.len() {
        if has_disk(&words[..at], words[at].disk) {
            return Some(words[at].disk);
        }
    }
    None
}

// The first word of so many sectors, or of any other number.
fn first_word<'a>(words: &[DiskWord<'a>], sectors: u64, is_equal: bool) -> Option<DiskWord<'a>> {
    for word in words {
        if (word.sectors == sectors) == is_equal {
            return Some(*word);
        }
    }
    None
}

// Says that two disk words are of one disk, or one is of the disk of another copy.
fn say_same_disk(text: &mut Text, words: &[DiskWord], name: &[u8]) -> Result<(), NoMemory> {
    match twice(words) {
        Some(disk) => say(
            text,
            "% is named twice, and each has to lie on a disk of its own",
            &[Part::Name(disk)],
        ),
        None => say(
            text,
            "a piece would lie on the disk of another copy of %: name them in the order of show",
            &[Part::Name(name)],
        ),
    }
}

// Says which number of a chunk's columns is bad.
fn say_bad_chunk(text: &mut Text, sectors: u64, chunk: u64) -> Result<(), NoMemory> {
    match sectors.checked_rem(chunk) {
        None => text.push(b"CHUNK is 0"),
        Some(0) => text.push(b"the volume would have 2^64 sectors or more"),
        Some(_) => {
            let parts = [Part::Number(sectors), Part::Number(chunk)];
            say(text, "% sectors are no whole number of chunks of %", &parts)
        }
    }
}

// Whether the volume of this name is a mirror.
fn is_mirror(db: &Db, name: &[u8]) -> bool {
    match db.volume_named(name) {
        Some(volume) => volume.children > 1,
        None => false,
    }
}

// Says which piece has another length than the first, of so many sectors, where there is one.
fn say_uneven(text: &mut Text, words: &[DiskWord], first: u64) -> Result<(), NoMemory> {
    let Some(word) = first_word(words, first, false) else {
        return text.push(b"the volume would have 2^64 sectors or more");
    };
    let parts = [
        Part::Name(word.disk),
        Part::Number(word.sectors),
        Part::Number(first),
    ];
    let said =
        "the pieces of a mirror have one length, and % is to have % sectors, the first piece %";
    say(text, said, &parts)
}

// Says which number of a command is bad.
fn say_bad_size(
    text: &mut Text,
    db: &Db,
    command: &Command,
    words: &[DiskWord],
) -> Result<(), NoMemory> {
    if let Some(word) = first_word(words, 0, true) {
        return say(text, "% is to have 0 sectors", &[Part::Name(word.disk)]);
    }
    let [first, ..] = words else {
        return Ok(());
    };
    match chunk_of(command) {
        Some(chunk) => say_bad_chunk(text, first.sectors, chunk),
        None if is_mirror(db, volume_of(command)) => say_uneven(text, words, first.sectors),
        None => text.push(b"the volume would have 2^64 sectors or more"),
    }
}

// What is said of a refusal of a command with so many pieces, where the name of the volume and two
// numbers stand.
fn refusal_said(refusal: Refusal, pieces: u64) -> (&'static str, [u64; 2]) {
    match refusal {
        Refusal::BatchOpen => ("a batch is open: commit or cancel ends it", [0, 0]),
        Refusal::NoBatch => ("no batch is open: begin opens one", [0, 0]),
        Refusal::EmptyBatch => (
            "the batch holds no command, and stays open: cancel ends it",
            [0, 0],
        ),
        Refusal::NameTaken => ("a volume is called % already", [0, 0]),
        Refusal::NotSpan => (
            "% is neither a span nor a mirror, and no other volume is extended",
            [0, 0],
        ),
        Refusal::ExtraSize => (
            "the record of % has a second size, and such a volume isn't extended",
            [0, 0],
        ),
        Refusal::PieceCount(copies) => (
            "% has % copies, and % pieces are named: name one for each, in the order of show",
            [copies as u64, pieces],
        ),
        Refusal::IdsSpent => ("no ids are left for new records", [0, 0]),
        Refusal::TooLong(id) => (
            "a record of % would take more than four blocks of the database, that of id %",
            [id, 0],
        ),
        Refusal::NoRoom { need, have } => (
            "with % the records would take % blocks of the database, and the smallest config area has %: delete a volume first",
            [need, have],
        ),
        Refusal::SequenceSpent => (
            "the sequence of the group is the last that there is",
            [0, 0],
        ),
        _ => ("the command isn't done", [0, 0]),
    }
}

/// Says why a group, whose images have these labels, refuses the command.
pub fn say_refusal(
    alloc: Global,
    text: &mut Text,
    db: &Db,
    labels: &Labels,
    command: &Command,
    refusal: Refusal,
) -> Result<(), NoMemory>
    requires { IsSoundOn db.now labels.now }
{
    let name = volume_of(command);
    let words = words_of(alloc, command)?;
    match refusal {
        Refusal::NoVolume => say_unknown(alloc, text, db, Kind::Volume, name),
        Refusal::NoDisk(at) => match words.get(at) {
            Some(word) => say_unknown(alloc, text, db, Kind::Disk, word.disk),
            None => Ok(()),
        },
        Refusal::SameDisk => say_same_disk(text, &words, name),
        Refusal::BadSize => say_bad_size(text, db, command, &words),
        Refusal::NoSpace(at) => say_no_space(alloc, text, db, labels, &words, at),
        refusal => {
            let (said, [first, second]) = refusal_said(refusal, words.len() as u64);
            let parts = [Part::Name(name), Part::Number(first), Part::Number(second)];
            say(text, said, &parts)
        }
    }
}
