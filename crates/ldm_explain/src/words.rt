//! The disk words of a command.
use ldm_bytes::{Bytes, NoMemory};
use ldm_words::{Command, NewLayout, Piece};
use std::alloc::Global;

/// A disk word of a command: the name of a disk, and how many sectors of it.
#[derive(Clone, Copy)]
pub struct DiskWord<'a> {
    pub disk: &'a [u8],
    pub sectors: u64,
}

// The words that say how many sectors of each disk.
fn piece_words(alloc: Global, pieces: &[Piece]) -> Result<Vec<DiskWord<'_>>, NoMemory> {
    let mut words = Vec::new(alloc);
    for piece in pieces {
        words.push(DiskWord {
            disk: piece.disk.as_slice(),
            sectors: piece.len,
        })?;
    }
    Ok(words)
}

// The words that say disks, of each so many sectors.
fn disk_words(alloc: Global, disks: &[Bytes], sectors: u64) -> Result<Vec<DiskWord<'_>>, NoMemory> {
    let mut words = Vec::new(alloc);
    for disk in disks {
        words.push(DiskWord {
            disk: disk.as_slice(),
            sectors,
        })?;
    }
    Ok(words)
}

// The disk words of a new volume.
fn layout_words(alloc: Global, layout: &NewLayout) -> Result<Vec<DiskWord<'_>>, NoMemory> {
    match layout {
        NewLayout::Span { pieces } => piece_words(alloc, pieces.as_slice()),
        NewLayout::Stripe { len, disks, .. } => disk_words(alloc, disks.as_slice(), *len),
        NewLayout::Mirror { len, disks } => disk_words(alloc, disks.as_slice(), *len),
        NewLayout::Raid5 { len, disks, .. } => disk_words(alloc, disks.as_slice(), *len),
    }
}

/// The disk words of a command, in their order.
pub fn words_of(alloc: Global, command: &Command) -> Result<Vec<DiskWord<'_>>, NoMemory> {
    match command {
        Command::Create { layout, .. } => layout_words(alloc, layout),
        Command::Extend { pieces, .. } => piece_words(alloc, pieces.as_slice()),
        _ => Ok(Vec::new(alloc)),
    }
}
