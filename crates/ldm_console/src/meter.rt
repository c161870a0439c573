//! What is counted of a run: the lines that it says, or its bytes, which tell how far it has come.
ghost use Rattle.std.specs.Prelude.{◌≡◌, ◌<◌, ◌==◌, count_by};
ghost use Rattle.ldm_console.specs.Watched.{lines_in, more_lines};

use ldm_files::Watch;
use std::fmt;
use std::io::{self, Write};
use std::time::{Duration, Instant};

/// What is counted of a job: the bytes that it says, or those that it reads of the images.
#[derive(Clone, Copy, Debug, PartialEq, Eq)]
pub enum Counted {
    Said,
    Read,
}

// The time between two lines, in milliseconds.
const PAUSE: u128 = 500;

// The names of a thousand bytes, a million and so on, and of 1024 bytes and so on.
const THOUSANDS: [&str; 6] = ["kB", "MB", "GB", "TB", "PB", "EB"];

const BINARIES: [&str; 6] = ["KiB", "MiB", "GiB", "TiB", "PiB", "EiB"];

// A number of bytes, and the names of the units of which each is `step` of the one before.
#[derive(Clone, Copy)]
struct Amount {
    bytes: u64,
    step: u64,
    names: [&'static str; 6],
    ghost grows: { 0 < step },
}

impl Amount {
    fn in_thousands(bytes: u64) -> Amount {
        Amount {
            bytes,
            step: 1000,
            names: THOUSANDS,
        }
    }

    fn in_binaries(bytes: u64) -> Amount {
        Amount {
            bytes,
            step: 1024,
            names: BINARIES,
        }
    }
}

// It is written in the largest unit that it has one of, with a tenth below ten.
impl fmt::Display for Amount {
    fn fmt<W: fmt::Write>(&self, f: &mut fmt::Formatter<W>) -> fmt::Result {
        let mut whole = self.bytes;
        let mut rest = 0;
        let mut unit = "B";
        for name in self.names {
            if whole < self.step {
                break;
            }
            unit = name;
            rest = whole % self.step;
            whole /= self.step;
        }
        if whole < 10 && whole < self.bytes {
            write!(f, "{whole}.{} {unit}", rest.saturating_mul(10) / self.step)
        } else {
            write!(f, "{whole} {unit}")
        }
    }
}

/// How many bytes there were, after how many milliseconds. The text is in the manner of
/// `dd status=progress`.
#[derive(Clone, Copy, Debug)]
pub struct Progress {
    pub bytes: u64,
    pub millis: u64,
    pub counted: Counted,
}

impl fmt::Display for Progress {
    fn fmt<W: fmt::Write>(&self, f: &mut fmt::Formatter<W>) -> fmt::Result {
        let verb = match self.counted {
            Counted::Said => "said",
            Counted::Read => "read",
        };
        let rate = self.bytes.saturating_mul(1000) / self.millis.max(1);
        write!(
            f,
            "{} bytes ({}, {}) {verb}, {} s, {}/s",
            self.bytes,
            Amount::in_thousands(self.bytes),
            Amount::in_binaries(self.bytes),
            self.millis / 1000,
            Amount::in_thousands(rate),
        )
    }
}

/// Counts the bytes of a job, and tells on standard error how many they are and how fast they come,
/// at most twice a second.
#[derive(Drop)]
pub struct Meter<'a> {
    rt: &'a HostRuntime,
    counted: Counted,
    bytes: u64,
    began: Instant,
    told: Duration,
}

impl<'a> Meter<'a> {
    /// A meter that begins now.
    pub fn start(rt: &'a HostRuntime, counted: Counted) -> io::Result<Self> {
        Ok(Meter {
            rt,
            counted,
            bytes: 0,
            began: Instant::now(rt)?,
            told: Duration::ZERO,
        })
    }

    // Counts bytes, if they are of the kind that is counted. Where the clock fails nothing is told.
    fn count(&mut self, counted: Counted, bytes: usize) {
        if counted != self.counted {
            return;
        }
        self.bytes = self.bytes.saturating_add(bytes as u64);
        if let Ok(now) = self.began.elapsed(self.rt) {
            if now.saturating_sub(self.told).as_millis() >= PAUSE {
                self.told = now;
                self.tell(now);
            }
        }
    }

    // Tells how far it is, in the place of the line before.
    fn tell(&self, now: Duration) {
        let progress = Progress {
            bytes: self.bytes,
            millis: now.as_millis().min(u64::MAX as u128) as u64,
            counted: self.counted,
        };
        let _ = eprint!(self.rt; "\r{progress}   ");
    }

    // Ends the line, if one was told.
    fn end(&self) {
        if self.told > Duration::ZERO {
            let _ = eprint!(self.rt; "\n");
        }
    }
}

/// What is counted of a run.
#[derive(Drop)]
pub enum Tally<'a> {
    Nothing,
    /// The lines that were said whole.
    Lines(u64),
    /// Bytes, of which is told how many they are.
    Bytes(Meter<'a>),
}

// How many lines end in these bytes.
fn line_count(bytes: &[u8]) -> u64
    ensures { result ≡ count_by (λ c. c == 0x0A) bytes.now }
{
    bytes.iter().filter(|c| **c == b'\n').count() as u64
}

impl Watch for Tally<'_> {
    fn said(&mut self, bytes: &[u8])
        ensures { lines_in self.new ≡ more_lines bytes.now (lines_in self.old) }
    {
        match self {
            Tally::Nothing => (),
            Tally::Lines(lines) => *lines = lines.saturating_add(line_count(bytes)),
            Tally::Bytes(meter) => meter.count(Counted::Said, bytes.len()),
        }
    }

    fn read(&mut self, bytes: usize)
        ensures { lines_in self.new ≡ lines_in self.old }
    {
        if let Tally::Bytes(meter) = self {
            meter.count(Counted::Read, bytes);
        }
    }
}

impl Tally<'_> {
    /// How many lines were said, where they are counted.
    pub fn lines(&self) -> Option<u64>
        ensures { result ≡ lines_in self.now }
    {
        match self {
            Tally::Lines(lines) => Some(*lines),
            _ => None,
        }
    }

    /// Ends what is told.
    pub fn end(&self) {
        if let Tally::Bytes(meter) = self {
            meter.end();
        }
    }
}
