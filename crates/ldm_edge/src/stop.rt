//! How the program ends where it isn't with an answer, and what is said of it on standard error.
ghost use Rattle.std.specs.Prelude.{◌≡◌};
ghost use Rattle.ldm_edge.specs.Ends.{stop_status};

use crate::shown::Shown;
use ldm_files::{Failure, ImageError};
use ldm_words::Status;
use std::fmt;

/// What a run has written that didn't come to its end.
#[derive(Clone, Copy, Debug, PartialEq, Eq)]
pub enum Written {
    /// The job is none that writes, or isn't known yet: nothing is said of it.
    Never,
    /// No byte was handed to any disk.
    Nothing,
    /// An edit handed bytes to the disks, and has answered so many lines.
    Lines(u64),
    /// Bytes of a new group were handed to the disks.
    NewGroup,
    /// A repair handed bytes to the disks.
    Copies,
}

/// A fault of a run: the call that failed last, the names of the images, and what the run has
/// written.
#[derive(Clone, Copy)]
pub struct Fault<'a> {
    pub failure: Option<Failure>,
    pub names: &'a [String],
    pub written: Written,
}

/// Why there is no answer.
#[derive(Drop)]
pub enum Stop<'a, U> {
    /// The words have no reading, and where it is known why.
    Usage(Option<U>),
    /// A word isn't UTF-8.
    NotUtf8,
    CannotOpen {
        image: usize,
        name: Shown<'a>,
        error: ImageError,
    },
    Disk(Fault<'a>),
    NoMemory(Written),
    Talk(Fault<'a>),
}

impl<U> Stop<'_, U> {
    ghost use Rattle.std.specs.Prelude.{◌≡◌};
    ghost use Rattle.ldm_edge.specs.Ends.{stop_status};

    /// The exit status.
    pub fn status(&self) -> Status
        ensures { result ≡ stop_status self.now }
    {
        match self {
            Stop::Usage(_) | Stop::NotUtf8 => Status::Usage,
            Stop::CannotOpen { .. } | Stop::Disk(_) => Status::DiskFault,
            Stop::NoMemory(_) => Status::NoMemory,
            Stop::Talk(_) => Status::TalkFault,
        }
    }
}

// It is a line of its own, or none. The README's section on new groups says how disks are zeroed.
impl fmt::Display for Written {
    fn fmt<W: fmt::Write>(&self, f: &mut fmt::Formatter<W>) -> fmt::Result {
        match self {
            Written::Never => Ok(()),
            Written::Nothing => write!(f, "ldm: nothing was written\n"),
            Written::Lines(1) => write!(
                f,
                "ldm: 1 line was answered; the next may be done: run check, then edit again\n"
            ),
            Written::Lines(count) => write!(
                f,
                "ldm: {count} lines were answered; the next may be done: run check, \
                 then edit again\n"
            ),
            Written::NewGroup => write!(
                f,
                "ldm: the new group may be there in part: run check; if it refuses the disks, \
                 zero them as README says under \"A new group\", then run init again\n"
            ),
            Written::Copies => write!(
                f,
                "ldm: copies of the database may be closed or made in part: \
                 run check --past-damage, then repair again\n"
            ),
        }
    }
}

impl fmt::Display for Fault<'_> {
    fn fmt<W: fmt::Write>(&self, f: &mut fmt::Formatter<W>) -> fmt::Result {
        match self.failure {
            None => write!(f, "\n")?,
            Some(Failure::Disk { image, call, error }) => {
                let name = self.names.get(image).map_or("", |name| name.as_str());
                write!(f, ": image {image} ({}): {call}: {error}\n", Shown(name))?;
            }
            Some(Failure::Input(error)) => write!(f, ": standard input: {error}\n")?,
            Some(Failure::Output(error)) => write!(f, ": standard output: {error}\n")?,
        }
        write!(f, "{}", self.written)
    }
}

// What is said of words that have no reading.
fn write_usage<W: fmt::Write, U: fmt::Display>(why: &U, f: &mut fmt::Formatter<W>) -> fmt::Result {
    write!(
        f,
        "ldm: usage: ldm JOB on IMAGE...\nldm: {why}\nldm: ldm --help says more\n"
    )
}

impl<U: fmt::Display> fmt::Display for Stop<'_, U> {
    fn fmt<W: fmt::Write>(&self, f: &mut fmt::Formatter<W>) -> fmt::Result {
        match self {
            Stop::Usage(Some(error)) => write_usage(error, f),
            Stop::Usage(None) => write_usage(&"the words have no reading", f),
            Stop::NotUtf8 => write_usage(
                &"a word is not UTF-8; an image whose path isn't can be named by a link to it",
                f,
            ),
            Stop::CannotOpen { image, name, error } => {
                write!(f, "ldm: cannot open: image {image} ({name}): {error}\n")
            }
            Stop::Disk(fault) => write!(f, "ldm: disk fault{fault}"),
            Stop::NoMemory(written) => write!(f, "ldm: no memory\n{written}"),
            Stop::Talk(fault) => write!(f, "ldm: talk fault{fault}"),
        }
    }
}
