//! Looks at the disks of a Windows dynamic disk group, and has no job that writes to them:
//! `ldm disk|records|scan|show|check|map ... on IMAGE...`.
//!
//! The jobs are those of `look`, whose contract is the theorem of the program; `main` and the
//! `FileHost` that it makes are the trusted edge. `ldm_tool` has all jobs, and this one is proved
//! sooner.
#![tactic(auto)]

use ldm_bytes::NoMemory;
use ldm_edge::{
    FormError, Shown, Stop, Written, by_form, ending, exit_code, form_of, open_images, split_on,
    words_of,
};
use ldm_files::{Access, FileHost, Unwatched, take_closed_streams};
use ldm_look::{is_look, look};
use ldm_words::{Status, WordsError, read_words};
use std::alloc::Global;
use std::fmt;
use std::process::ExitCode;
use thiserror::Error;

// Why words have no reading as a job of this program.
#[derive(Clone, Copy, Error)]
enum UsageError<'a> {
    #[error("there is no job")]
    NoJob,
    #[error("this program doesn't read past damage: the whole program has --past-damage")]
    PastDamage,
    #[error("\"{word}\" is no job of this program, which has disk, records, scan, show, check and map")]
    OtherJob { word: Shown<'a> },
    #[error(transparent)]
    Form(FormError<'a>),
}

impl fmt::Debug for UsageError<'_> {
    fn fmt<W: fmt::Write>(&self, f: &mut fmt::Formatter<W>) -> fmt::Result {
        fmt::Display::fmt(self, f)
    }
}

// Why words have no reading: by the form of the job, where it is one of these.
fn usage_error(alloc: Global, words: &[String]) -> Option<UsageError<'_>> {
    let (words, on) = split_on(words);
    let [word, rest @ ..] = words else {
        return Some(UsageError::NoJob);
    };
    if rest.iter().any(|word| word.as_str() == "--past-damage") {
        return Some(UsageError::PastDamage);
    }
    let form = match word.as_str() {
        word @ ("disk" | "records" | "scan" | "show" | "check" | "map") => {
            form_of(word, rest.len())
        }
        _ => None,
    };
    match form {
        Some(form) => by_form(alloc, form, rest, on).err().map(UsageError::Form),
        None => Some(UsageError::OtherJob {
            word: Shown(word.as_str()),
        }),
    }
}

// Opens the images, and runs the words over them.
fn run_words<'a>(
    rt: &HostRuntime,
    words: &'a [String],
) -> Result<Status, Stop<'a, UsageError<'a>>> {
    let alloc = rt.alloc();
    let count = match read_words(alloc, words) {
        Ok((job, count)) if is_look(&job) => count,
        Err(WordsError::NoMemory) => return Err(Stop::NoMemory(Written::Never)),
        _ => return Err(Stop::Usage(usage_error(alloc, words))),
    };
    let names = &words[words.len() - count..];
    let images = open_images::<UsageError<'a>>(alloc, rt, names, Access::Read)?;
    let mut host = match FileHost::new(alloc, images, rt.stdin(), rt.stdout(), Unwatched) {
        Ok(host) => host,
        Err(NoMemory) => return Err(Stop::NoMemory(Written::Never)),
    };
    let status = look(alloc, words, &mut host);
    ending(status, names, host.failure(), Written::Never)
}

fn main(rt: HostRuntime) -> ExitCode {
    // Where it fails, an image that gets the descriptor of a closed stream is refused.
    let _ = take_closed_streams(&rt);
    match words_of::<UsageError<'_>>(rt.alloc(), &rt) {
        Ok(words) => exit_code(&rt, run_words(&rt, &words)),
        Err(stop) => exit_code(&rt, Err(stop)),
    }
}
