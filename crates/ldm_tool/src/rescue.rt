//! The words of `dump --rescue` over files: a volume off disks that fail, and which of its sectors
//! are lost.
ghost use Rattle.std.specs.Prelude.{◌≤◌, ◌<◌, length, IfSome};
ghost use Rattle.ldm_explain.specs.Sights.{IsSight};

use crate::{RESCUE, Terminals, explain_end, tally_of, tell_behind};
use ldm_bytes::NoMemory;
use ldm_console::UsageError;
use ldm_edge::{Shown, Stop, Written, ending, open_images};
use ldm_explain::Sight;
use ldm_files::{Failure, FileHost, Watch};
use ldm_host::Host;
use ldm_rescue::{Cause, Loss, Losses, Rescue, RescueWords, Totals, run_rescue};
use ldm_words::{Job, Status};
use std::alloc::Global;
use std::fmt;
use std::io::{self, Read, Write};

// How many ranges of lost sectors have a line of their own.
const MOST_LINES: u64 = 100;

/// The line of a range of lost sectors, with what the system said of the read that failed.
#[derive(Clone, Copy)]
pub struct LossLine<'a> {
    pub loss: Loss,
    pub names: &'a [String],
    pub error: Option<io::Error>,
}

impl fmt::Display for LossLine<'_> {
    fn fmt<W: fmt::Write>(&self, f: &mut fmt::Formatter<W>) -> fmt::Result {
        let Loss {
            first,
            count,
            cause,
        } = self.loss;
        write!(f, "ldm: lost {first}+{count}: ")?;
        let image = match cause {
            Cause::Absent(disk) => return write!(f, "disk {disk} is absent\n"),
            Cause::Unread(image) => image,
        };
        let name = self.names.get(image).map_or("", |name| name.as_str());
        write!(f, "image {image} ({})", Shown(name))?;
        match self.error {
            Some(error) => write!(f, ": {error}\n"),
            None => write!(f, " can't be read\n"),
        }
    }
}

/// The lines that end a rescue: how many ranges had no line, and the totals, if it came to its end.
#[derive(Clone, Copy)]
pub struct LastLines {
    pub more: u64,
    pub totals: Option<Totals>,
}

impl fmt::Display for LastLines {
    fn fmt<W: fmt::Write>(&self, f: &mut fmt::Formatter<W>) -> fmt::Result {
        match self.more {
            0 => (),
            1 => write!(f, "ldm: 1 more range is lost\n")?,
            more => write!(f, "ldm: {more} more ranges are lost\n")?,
        }
        match self.totals {
            Some(Totals { sectors, lost }) => {
                let said = sectors.saturating_sub(lost);
                write!(f, "ldm: {sectors} sectors: {said} said, {lost} lost\n")
            }
            None => Ok(()),
        }
    }
}

// Tells on standard error which sectors are lost.
#[derive(Drop)]
struct Teller<'a> {
    rt: &'a HostRuntime,
    names: &'a [String],
    // Where it is a terminal, each line takes the place of the one that says the progress.
    terminal: bool,
    // What the system said of the read by which the last range is lost.
    error: Option<io::Error>,
    ranges: u64,
}

// What the system said where a call of this image was the last that failed.
fn error_of(image: usize, failure: Option<Failure>) -> Option<io::Error> {
    match failure {
        Some(
            Failure::Disk {
                image: failed,
                error,
                ..
            },
        ) if failed == image => Some(error),
        _ => None,
    }
}

impl<'a> Teller<'a> {
    fn new(rt: &'a HostRuntime, names: &'a [String], terminal: bool) -> Self {
        Teller {
            rt,
            names,
            terminal,
            error: None,
            ranges: 0,
        }
    }

    // Takes the line of the progress away.
    fn clear(&self) {
        if self.terminal {
            let _ = eprint!(self.rt; "\r\x1b[K");
        }
    }

    // Tells what is left at the end.
    fn end(&self, totals: Option<Totals>) {
        let more = self.ranges.saturating_sub(MOST_LINES);
        let _ = eprint!(self.rt; "{}", LastLines { more, totals });
    }
}

impl<I: Read, O: Write, W: Watch> Losses<FileHost<I, O, W>> for Teller<'_> {
    ghost use Rattle.std.specs.Prelude.{[]};

    ghost tells = { ⊥ };

    ghost lost = { λ teller. [] };

    fn begin(&mut self, host: &FileHost<I, O, W>, cause: Cause) {
        self.error = match cause {
            Cause::Absent(_) => None,
            Cause::Unread(image) => error_of(image, host.failure()),
        };
    }

    fn lose(&mut self, loss: Loss) {
        self.ranges = self.ranges.saturating_add(1);
        if self.ranges > MOST_LINES {
            return;
        }
        let line = LossLine {
            loss,
            names: self.names,
            error: self.error,
        };
        self.clear();
        let _ = eprint!(self.rt; "{line}");
    }
}

// What the images hold, where one sits at a terminal and the job was refused: not where all sectors
// were said.
fn sight_of<H: Host>(
    alloc: Global,
    host: &mut H,
    names: &[String],
    job: &Job,
    terminals: Terminals,
    rescue: Rescue,
) -> Option<Sight>
    ensures { IfSome result IsSight }
{
    if terminals.error && rescue.status == Status::Refused && rescue.totals.is_none() {
        Sight::of(alloc, host, names, job)
    } else {
        None
    }
}

/// Says a volume off the images that the last words name, or a section of it, and tells which
/// sectors are lost. All images are open before the first of its calls.
pub fn rescue_files<'a, I, O>(
    rt: &HostRuntime,
    words: &'a [String],
    asked: RescueWords,
    input: I,
    output: O,
    terminals: Terminals,
) -> Result<Status, Stop<'a, UsageError<'a>>>
where
    I: Read + Drop,
    O: Write + Drop,
    requires some { 0 < asked.images }
    requires within { asked.images ≤ length words.now }
{
    let alloc = rt.alloc();
    let RescueWords {
        name,
        section,
        images,
    } = asked;
    let names = &words[words.len() - images..];
    let images = open_images::<UsageError<'a>>(alloc, rt, names, RESCUE.access)?;
    let tally = tally_of(rt, RESCUE, terminals);
    let mut host = match FileHost::new(alloc, images, input, output, tally) {
        Ok(host) => host,
        Err(NoMemory) => return Err(Stop::NoMemory(Written::Never)),
    };
    let mut teller = Teller::new(rt, names, terminals.error);
    let rescue = run_rescue(alloc, &mut host, &mut teller, name.as_slice(), section);
    let ended = ending(rescue.status, names, host.failure(), Written::Never);
    match rescue.totals {
        Some(_) => teller.clear(),
        None => host.watch().end(),
    }
    teller.end(rescue.totals);
    let job = Job::Dump { name, section };
    let sight = sight_of(alloc, &mut host, names, &job, terminals, rescue);
    let told = terminals.error && ended.is_ok();
    let host = tell_behind(rt, names, false, told, host);
    drop(host);
    explain_end(rt, &job, b"", rescue.status, sight);
    ended
}
