//! The job `scan` over files, which goes on past images that don't open or can't be read.
ghost use Rattle.std.specs.Prelude.{◌≡◌, IfOk, length};
ghost use Rattle.ldm_scan.specs.Findings.{opened_count};

use ldm_bytes::{Bytes, NoMemory};
use ldm_console::{Tally, UsageError};
use ldm_edge::{Shown, Stop, Written, ending};
use ldm_files::{Access, Failure, FileHost, ImageError, ImageFile};
use ldm_scan::run_scan;
use ldm_words::{Format, Status};
use std::alloc::Global;
use std::io::{Read, Write};

// The images that opened, and for each that was named the cause why it didn't, if it didn't.
#[derive(Drop)]
struct Tried {
    images: Vec<ImageFile>,
    causes: Vec<Option<Bytes>>,
    ghost counted: { opened_count causes.items ≡ length images.items },
}

// The cause why an image didn't open, as it is said.
fn cause_of(alloc: Global, error: ImageError) -> Result<Bytes, NoMemory> {
    match error {
        ImageError::NoMemory => Err(NoMemory),
        error => match format!(in alloc; "{error}") {
            Ok(text) => Bytes::from_slice(alloc, text.as_bytes()),
            Err(_) => Err(NoMemory),
        },
    }
}

impl Tried {
    // No image yet.
    fn new(alloc: Global) -> Tried {
        Tried {
            images: Vec::new(alloc),
            causes: Vec::new(alloc),
        }
    }

    // One image more, which opened or didn't.
    #[tactic(auto, using(crate::proofs::ImageLaws::opened_more))]
    fn add(self, alloc: Global, opened: Result<ImageFile, ImageError>) -> Result<Tried, NoMemory> {
        let Tried {
            mut images,
            mut causes,
        } = self;
        match opened {
            Ok(image) => {
                images.push(image)?;
                causes.push(None)?;
                Ok(Tried { images, causes })
            }
            Err(error) => {
                causes.push(Some(cause_of(alloc, error)?))?;
                Ok(Tried { images, causes })
            }
        }
    }
}

// Opens each image of these names, for reading alone.
fn try_each(rt: &HostRuntime, names: &[String]) -> Result<Tried, NoMemory> {
    let alloc = rt.alloc();
    let mut tried = Tried::new(alloc);
    for name in names {
        tried = tried.add(alloc, ImageFile::open(rt, name.as_str(), Access::Read))?;
    }
    Ok(tried)
}

// The number of the image that is this disk.
fn number_of(causes: &[Option<Bytes>], disk: usize) -> Option<usize> {
    let opened = causes
        .iter()
        .enumerate()
        .filter(|(_, cause)| cause.is_none());
    opened.map(|(number, _)| number).nth(disk)
}

// Tells the read that failed last, and what the system said of it.
fn tell_unread(
    rt: &HostRuntime,
    names: &[String],
    causes: &[Option<Bytes>],
    failure: Option<Failure>,
) {
    if let Some(Failure::Disk { image, call, error }) = failure
        && let Some(number) = number_of(causes, image)
        && let Some(name) = names.get(number)
    {
        let name = Shown(name.as_str());
        let _ = eprint!(rt; "ldm: disk fault: image {number} ({name}): {call}: {error}\n");
    }
}

/// Scans the images of these names, and says of each what it is, or why it isn't known.
pub fn scan_files<'a, I, O>(
    rt: &HostRuntime,
    names: &'a [String],
    format: &Format,
    input: I,
    output: O,
) -> Result<Status, Stop<'a, UsageError<'a>>>
where
    I: Read + Drop,
    O: Write + Drop,
{
    let alloc = rt.alloc();
    let Tried { images, causes } = match try_each(rt, names) {
        Ok(tried) => tried,
        Err(NoMemory) => return Err(Stop::NoMemory(Written::Never)),
    };
    let host = match FileHost::new(alloc, images, input, output, Tally::Nothing) {
        Ok(host) => host,
        Err(NoMemory) => return Err(Stop::NoMemory(Written::Never)),
    };
    let (host, status) = run_scan(alloc, format, &causes, host);
    let failure = host.failure();
    if status == Status::Done {
        tell_unread(rt, names, &causes, failure);
    }
    ending(status, names, failure, Written::Never)
}
