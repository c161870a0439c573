//! A host over files, standard input and standard output.
ghost use Rattle.std.specs.Prelude.{◌≡◌, ◌≤◌, ◌<◌, ◌↔◌, ◌+◌, ◌-◌, ◌^◌, ◌/◌, ◌%◌, length, map, min};
ghost use Rattle.std.specs.Prelude.{set, All, IsFalse};
ghost use Rattle.std.specs.Prelude.{slice_index, IfOk, IsErr, is_ok};
ghost use Rattle.ldm_host.specs.Moves.{Rose};

use crate::image::ImageFile;
use crate::watch::Watch;
use ldm_bytes::NoMemory;
use ldm_host::{Failed, Host};
use std::alloc::Global;
use std::fmt;
use std::io::{self, ErrorKind, Read, Write};
use std::os::unix::fs::FileExt;

/// Sectors of 512 bytes of an image, from the first of them on.
#[derive(Clone, Copy, Debug, PartialEq, Eq)]
pub struct Sectors {
    pub first: u64,
    pub count: u64,
}

impl Sectors {
    /// Those that hold so many bytes from a place on, in bytes.
    pub fn touched(at: u64, length: usize) -> Sectors
        ensures first { result.first ≡ at / 512 }
        ensures count { result.count ≡ (min (at % 512 + length) (2 ^ 64 - 1) + 511) / 512 }
    {
        Sectors {
            first: at / 512,
            count: (at % 512).saturating_add(length as u64).div_ceil(512),
        }
    }
}

impl fmt::Display for Sectors {
    fn fmt<W: fmt::Write>(&self, f: &mut fmt::Formatter<W>) -> fmt::Result {
        write!(f, "sectors {}+{}", self.first, self.count)
    }
}

/// A call of a disk, with the sectors that it touches.
#[derive(Clone, Copy, Debug, PartialEq, Eq)]
pub enum DiskCall {
    Read(Sectors),
    Write(Sectors),
    Sync,
}

impl fmt::Display for DiskCall {
    fn fmt<W: fmt::Write>(&self, f: &mut fmt::Formatter<W>) -> fmt::Result {
        match self {
            DiskCall::Read(sectors) => write!(f, "read of {sectors}"),
            DiskCall::Write(sectors) => write!(f, "write of {sectors}"),
            DiskCall::Sync => f.write_str("sync"),
        }
    }
}

/// A call of the host that failed, and what the system said.
#[derive(Clone, Copy, Debug)]
pub enum Failure {
    /// A call of a disk, by the number of its image.
    Disk {
        image: usize,
        call: DiskCall,
        error: io::Error,
    },
    Input(io::Error),
    Output(io::Error),
}

/// The images are files. It tells nothing of what is in them, of what is said and of what is heard:
/// what the clauses say of it is how long the files are, which counts rose, and what it was handed.
/// Of calls that fail it keeps the last, and what it reads and says it tells what watches it.
#[derive(Drop)]
pub struct FileHost<I, O, W> {
    images: Vec<ImageFile>,
    wrote: Vec<u64>,
    input: I,
    output: O,
    disk_faults: u64,
    talk_faults: u64,
    failure: Option<Failure>,
    watch: W,
    ghost counted: { length wrote.items ≡ length images.items },
}

impl<I, O, W> FileHost<I, O, W> {
    /// A host over the images in their order, and what watches it.
    pub fn new(
        alloc: Global,
        images: Vec<ImageFile>,
        input: I,
        output: O,
        watch: W,
    ) -> Result<Self, NoMemory>
    where
        I: Drop,
        O: Drop,
        W: Drop,
        ensures { IfOk result (λ host. (host.images.items ≡ images.items) × (host.watch ≡ watch)) }
    {
        let wrote = vec![in alloc; 0u64; images.len()]?;
        Ok(FileHost {
            images,
            wrote,
            input,
            output,
            disk_faults: 0,
            talk_faults: 0,
            failure: None,
            watch,
        })
    }

    /// The last call that failed, if one did.
    pub fn failure(&self) -> Option<Failure>
        ensures { result ≡ self.now.failure }
    {
        self.failure
    }

    /// Whether any byte was handed to a disk, to be written.
    pub fn has_written(&self) -> bool
        ensures { IsFalse result ↔ All (λ count. count ≡ 0) self.now.wrote.items }
    {
        self.wrote.iter().any(|count| *count != 0)
    }

    /// What watches it.
    pub fn watch(&self) -> &W
        ensures { result.now ≡ self.now.watch }
    {
        &self.watch
    }
}

// Counts bytes that were handed, up to the counter's last value.
fn hand(wrote: &mut Vec<u64>, disk: usize, n: usize)
    requires { disk < length wrote.old.items }
    ensures { wrote.new.items ≡ set wrote.old.items disk
        (min (slice_index wrote.old.items disk + n) (2 ^ 64 - 1)) }
{
    wrote[disk] = wrote[disk].saturating_add(n as u64);
}

// Ends a call, and counts that it failed.
fn ended(ok: bool, faults: &mut u64) -> Result<(), Failed>
    ensures ok { is_ok result ≡ ok }
    ensures rises { faults.old ≤ faults.new }
    ensures cause { IsErr result → Rose faults.old faults.new }
{
    if ok {
        return Ok(());
    }
    *faults = faults.saturating_add(1);
    Err(Failed)
}

// Reads what comes next of the input.
fn read_some<I: Read>(input: &mut I, buf: &mut [u8]) -> io::Result<usize>
    ensures { IfOk result (λ n. n ≤ length buf.old) }
{
    for _ in 0..u64::MAX {
        match input.read(buf) {
            Ok(n) => return Ok(n),
            Err(error) => {
                if error.kind() != ErrorKind::Interrupted {
                    return Err(error);
                }
            }
        }
    }
    Err(io::Error::from(ErrorKind::Interrupted))
}

// Writes all bytes to the output.
fn write_out<O: Write>(output: &mut O, bytes: &[u8]) -> io::Result<()> {
    output.write_all(bytes)?;
    output.flush()
}

// Ends a call of a disk. One that failed is kept as the last, and counted.
fn end_disk_call(
    failure: &mut Option<Failure>,
    faults: &mut u64,
    image: usize,
    call: DiskCall,
    done: io::Result<()>,
) -> Result<(), Failed>
    ensures ok { is_ok result ≡ is_ok done }
    ensures rises { faults.old ≤ faults.new }
    ensures cause { IsErr result → Rose faults.old faults.new }
{
    if let Err(error) = done {
        *failure = Some(Failure::Disk { image, call, error });
    }
    ended(done.is_ok(), faults)
}

impl<I: Read, O: Write, W: Watch> Host for FileHost<I, O, W> {
    ghost use Rattle.ldm_files.specs.FileSeen.{file_seen, file_counts_each, file_counts_now};
    ghost use Rattle.ldm_files.specs.FileSeen.{file_only_now};

    ghost seen = { λ host. file_seen (map (λ image. image.sectors) host.images.items) host.disk_faults host.talk_faults host.wrote.items };

    ghost tells_disks = { ⊥ };

    ghost tells_talk = { ⊥ };

    ghost tells_both = { λ tells. tells };

    ghost one_each = { λ tells. absurd tells };

    ghost counts_each = { λ host. file_counts_each (λ image. image.sectors) host.images.items host.wrote.items host.counted };

    ghost lengths = { λ tells. absurd tells };

    ghost may_stay = { λ tells. absurd tells };

    ghost same_length = { λ host disk c left. absurd left };

    ghost left_bytes = { λ host disk c left. absurd left };

    ghost bytes_since = { λ host t images said left disk lt. absurd (left.1 disk lt) };

    ghost counts_now = { λ host t images le left. file_counts_now (map (λ image. image.sectors) host.images.items) host.disk_faults host.talk_faults host.wrote.items t images left };

    ghost only_now = { λ host images said left. file_only_now (map (λ image. image.sectors) host.images.items) host.disk_faults host.talk_faults host.wrote.items 0 images said left };

    fn disks(&self) -> usize {
        self.images.len()
    }

    fn sectors(&self, disk: usize) -> u64 {
        self.images[disk].sectors
    }

    fn read_at(&mut self, disk: usize, at: u64, buf: &mut [u8]) -> Result<(), Failed> {
        let done = self.images[disk].file.read_exact_at(buf, at);
        self.watch.read(buf.len());
        end_disk_call(
            &mut self.failure,
            &mut self.disk_faults,
            disk,
            DiskCall::Read(Sectors::touched(at, buf.len())),
            done,
        )
    }

    fn write_at(&mut self, disk: usize, at: u64, bytes: &[u8]) -> Result<(), Failed> {
        hand(&mut self.wrote, disk, bytes.len());
        let done = self.images[disk].file.write_all_at(bytes, at);
        end_disk_call(
            &mut self.failure,
            &mut self.disk_faults,
            disk,
            DiskCall::Write(Sectors::touched(at, bytes.len())),
            done,
        )
    }

    fn sync(&mut self, disk: usize) -> Result<(), Failed> {
        let done = self.images[disk].file.sync_all();
        end_disk_call(
            &mut self.failure,
            &mut self.disk_faults,
            disk,
            DiskCall::Sync,
            done,
        )
    }

    fn hear(&mut self, buf: &mut [u8]) -> Result<usize, Failed> {
        match read_some(&mut self.input, buf) {
            Ok(n) => Ok(n),
            Err(error) => {
                self.failure = Some(Failure::Input(error));
                ended(false, &mut self.talk_faults).and(Err(Failed))
            }
        }
    }

    fn say(&mut self, bytes: &[u8]) -> Result<(), Failed> {
        let done = write_out(&mut self.output, bytes);
        match done {
            Ok(()) => self.watch.said(bytes),
            Err(error) => self.failure = Some(Failure::Output(error)),
        }
        ended(done.is_ok(), &mut self.talk_faults)
    }
}
