//! Words as they are said, and why they don't fill a form, as a text.
use ldm_bytes::NoMemory;
use std::fmt;
use thiserror::Error;

/// A word or a path as it is said: each control character as `\x` and two digits, so that it stays
/// on its line.
#[derive(Clone, Copy)]
pub struct Shown<'a>(pub &'a str);

impl fmt::Display for Shown<'_> {
    fn fmt<W: fmt::Write>(&self, f: &mut fmt::Formatter<W>) -> fmt::Result {
        for c in self.0.chars() {
            if c.is_control() {
                write!(f, "\\x{:02x}", c as u32)?;
            } else {
                write!(f, "{c}")?;
            }
        }
        Ok(())
    }
}

impl fmt::Debug for Shown<'_> {
    fn fmt<W: fmt::Write>(&self, f: &mut fmt::Formatter<W>) -> fmt::Result {
        fmt::Display::fmt(self, f)
    }
}

/// How the words of a job don't fill its form.
#[derive(Clone, Copy, Error)]
pub enum FormError<'a> {
    #[error("\"{word}\" is a word too many: the form is {form}")]
    Extra {
        form: &'a str,
        word: Shown<'a>,
    },
    #[error("{what} is missing: the form is {form}")]
    Missing {
        form: &'a str,
        what: &'a str,
    },
    #[error("{what} \"{word}\" is no number, of 1 to 20 decimal digits and below 2^64")]
    Number {
        what: &'a str,
        word: Shown<'a>,
    },
    #[error("{what} \"{word}\" is no name, of 255 bytes at most: a backslash, or a byte that isn't visible ASCII, is written \\xHH, and no byte \\e")]
    Name {
        what: &'a str,
        word: Shown<'a>,
    },
    #[error("{what} \"{word}\" is no name, as it has a space: write the space as \\x20")]
    Space {
        what: &'a str,
        word: Shown<'a>,
    },
    #[error("\"{word}\" is no option of {job}, which takes {options}")]
    UnknownOption {
        job: &'a str,
        options: &'a str,
        word: Shown<'a>,
    },
    #[error("{job} takes {options}, and not both")]
    OneOption {
        job: &'a str,
        options: &'a str,
    },
    #[error("\"on\" is missing between {job} and its images")]
    NoOn {
        job: &'a str,
    },
    #[error("no image is named behind \"on\"")]
    NoImages,
    #[error("{job} takes one image, and {count} are named behind \"on\"")]
    OneImage {
        job: &'a str,
        count: usize,
    },
    #[error("a group has 64 images at most, and {count} are named behind \"on\"")]
    ManyImages {
        count: usize,
    },
    #[error("{job} takes no images")]
    TakesNone {
        job: &'a str,
    },
    #[error("no memory")]
    NoMemory,
}

impl fmt::Debug for FormError<'_> {
    fn fmt<W: fmt::Write>(&self, f: &mut fmt::Formatter<W>) -> fmt::Result {
        fmt::Display::fmt(self, f)
    }
}

impl From<NoMemory> for FormError<'_> {
    fn from(_error: NoMemory) -> Self {
        FormError::NoMemory
    }
}
