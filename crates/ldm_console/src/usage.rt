//! Why words have no reading, as a text.
use ldm_bytes::NoMemory;
use ldm_edge::{FormError, Shown};
use std::fmt;
use thiserror::Error;

/// Why the words of a command line, or of a line of a script, have no reading.
#[derive(Clone, Copy, Error)]
pub enum UsageError<'a> {
    #[error("there is no job")]
    NoJob,
    #[error("\"{word}\" is no job; the nearest is \"{nearest}\"")]
    UnknownJob {
        word: Shown<'a>,
        nearest: &'a str,
    },
    #[error("\"{word}\" is no job; ldm --help lists them")]
    NoSuchJob {
        word: Shown<'a>,
    },
    #[error("\"{word}\" is no job: it is a line of a script, for edit or try")]
    OfBatch {
        word: Shown<'a>,
    },
    #[error("there is no command")]
    NoCommand,
    #[error("\"{word}\" is no command; the nearest is \"{nearest}\"")]
    UnknownCommand {
        word: Shown<'a>,
        nearest: &'a str,
    },
    #[error("\"{word}\" is no command: those of a script are create, extend, delete, begin, commit and cancel")]
    NoSuchCommand {
        word: Shown<'a>,
    },
    #[error("{why}\nldm: {form}: {told}\nldm: ldm help {job} says more")]
    Alone {
        why: FormError<'a>,
        job: &'a str,
        form: &'a str,
        told: &'a str,
    },
    #[error(transparent)]
    Form(#[from] FormError<'a>),
    #[error("{kind} takes {least} to 64 {what}, and {count} are named")]
    Count {
        kind: &'a str,
        least: usize,
        what: &'a str,
        count: usize,
    },
    #[error("the name of a new volume has 1 to 63 bytes, and \"{word}\" has {len}")]
    NewName {
        word: Shown<'a>,
        len: usize,
    },
    #[error("the name of a new group has 1 to 30 bytes, and \"{word}\" has {len}")]
    GroupName {
        word: Shown<'a>,
        len: usize,
    },
    #[error("the name of a new group has no zero byte, and \"{word}\" has one")]
    Zero {
        word: Shown<'a>,
    },
    #[error("\"{word}\" is no GUID, which is 8-4-4-4-12 hexadecimal digits as uuidgen makes them")]
    Guid {
        word: Shown<'a>,
    },
    #[error("\"{word}\" is no GUID; if it is of the name \"{name} {word}\", write the space as \\x20")]
    SpacedName {
        name: Shown<'a>,
        word: Shown<'a>,
    },
    #[error("\"{word}\" is no kind of volume: span, stripe, mirror or raid5")]
    Kind {
        word: Shown<'a>,
    },
    #[error("\"{word}\" is no piece, which is DISK=SECTORS")]
    Piece {
        word: Shown<'a>,
    },
    #[error("init takes a DISKGUID for each image: {disks} are named, and {images} images")]
    Unlike {
        disks: usize,
        images: usize,
    },
}

impl fmt::Debug for UsageError<'_> {
    fn fmt<W: fmt::Write>(&self, f: &mut fmt::Formatter<W>) -> fmt::Result {
        fmt::Display::fmt(self, f)
    }
}

impl From<NoMemory> for UsageError<'_> {
    fn from(error: NoMemory) -> Self {
        UsageError::Form(FormError::from(error))
    }
}
