//! What the images hold, as far as a refusal is explained by it.
ghost use Rattle.std.specs.Prelude.{◌≡◌, ◌<◌, length, IfSome};
ghost use Rattle.ldm_host.specs.Moves.{Looks};
ghost use Rattle.ldm_found.specs.Facts.{IsSoundGroup, LieOn};
ghost use Rattle.ldm_explain.specs.Sights.{IsSight};

use crate::group::{block_line, fault_line, stranger_line};
use crate::image::{Glimpse, copy_line, label_line};
use crate::saying::{line_of, path_line};
use crate::tables::{say_no_table, say_no_tables};
use crate::volume::{say_range, say_undumped, say_unscrubbed};
use ldm_bytes::{Bytes, NoMemory};
use ldm_copy::{CopyError, CopyState, read_copy};
use ldm_found::{Found, OpenError, OpenFault, find_group};
use ldm_group::Db;
use ldm_host::Host;
use ldm_init::{InitError, InitFault, check_disks};
use ldm_label::{LabelError, LabelFault, read_label, read_sector};
use ldm_text::{Part, Text};
use ldm_words::Job;
use std::alloc::Global;

/// What the images hold, as far as a refusal is explained by it.
#[derive(Drop)]
pub enum Sight {
    /// What is wrong with them, or with what the job asks of them, in lines.
    Said(Text),
    /// This group, which refuses what the job asks of it line by line.
    Group(Found),
}

// A sector of a disk; zeros where it can't be read.
fn sector_at<H: Host>(host: &mut H, disk: usize, at: u64) -> [u8; 512]
    requires disk { disk < length (H.seen host.old).sizes }
    requires few { at < 7 }
    ensures { Looks (H.seen host.old) (H.seen host.new) ⊥ }
{
    if at >= host.sectors(disk) {
        return [0; 512];
    }
    match read_sector(host, disk, at) {
        Ok(bytes) => bytes,
        Err(_) => [0; 512],
    }
}

// What is read of a disk to say what is wrong with its label.
fn glimpse_at<H: Host>(host: &mut H, disk: usize) -> Glimpse
    requires { disk < length (H.seen host.old).sizes }
    ensures { Looks (H.seen host.old) (H.seen host.new) ⊥ }
{
    let sectors = host.sectors(disk);
    let mbr = sector_at(host, disk, 0);
    let head = sector_at(host, disk, 6);
    Glimpse { sectors, mbr, head }
}

// The name of a group and its sequence.
#[derive(Drop)]
struct Named {
    name: Bytes,
    seq: u64,
}

// The database of the copy on a disk, where it is open and has no fault.
fn database_on<H: Host>(alloc: Global, host: &mut H, disk: usize) -> Option<Db>
    requires { disk < length (H.seen host.old).sizes }
    ensures { Looks (H.seen host.old) (H.seen host.new) ⊥ }
{
    let Ok(label) = read_label(host, disk) else {
        return None;
    };
    match read_copy(alloc, host, disk, &label) {
        Ok(CopyState::Valid(db)) => Some(db),
        _ => None,
    }
}

// What a database says of its group.
fn named_in(alloc: Global, db: Option<Db>) -> Option<Named> {
    let db = db?;
    let header = db.header();
    let name = header.name.clone_in(alloc).ok()?;
    Some(Named {
        name,
        seq: header.seq,
    })
}

// What the copy of the database on a disk says, where it is open and has no fault.
fn named_on<H: Host>(alloc: Global, host: &mut H, disk: usize) -> Option<Named>
    requires { disk < length (H.seen host.old).sizes }
    ensures { Looks (H.seen host.old) (H.seen host.new) ⊥ }
{
    let db = database_on(alloc, host, disk);
    named_in(alloc, db)
}

// The one of the greater sequence, the first where they are the same.
fn newer(old: Option<Named>, new: Option<Named>) -> Option<Named> {
    match (old, new) {
        (Some(old), Some(new)) if new.seq <= old.seq => Some(old),
        (old, None) => old,
        (_, new) => new,
    }
}

// What the newest copy of all disks says.
fn newest<H: Host>(alloc: Global, host: &mut H) -> Option<Named>
    ensures { Looks (H.seen host.old) (H.seen host.new) ⊥ }
{
    let mut best = None;
    for disk in 0..host.disks() {
        let named = named_on(alloc, host, disk);
        best = newer(best, named);
    }
    best
}

// An image without a label.
fn no_label<H: Host>(
    alloc: Global,
    host: &mut H,
    names: &[String],
    image: usize,
    fault: LabelFault,
) -> Option<Text>
    ensures { Looks (H.seen host.old) (H.seen host.new) ⊥ }
{
    if image >= host.disks() {
        return None;
    }
    let glimpse = glimpse_at(host, image);
    label_line(alloc, names, image, &glimpse, fault).ok()
}

// An image of a disk that the newest group doesn't have.
fn stranger<H: Host>(alloc: Global, host: &mut H, names: &[String], image: usize) -> Option<Text>
    ensures { Looks (H.seen host.old) (H.seen host.new) ⊥ }
{
    if image >= host.disks() {
        return None;
    }
    let own = named_on(alloc, host, image);
    let newest = newest(alloc, host)?;
    let newest = newest.name.as_slice();
    match own {
        Some(own) => stranger_line(alloc, names, image, own.name.as_slice(), newest).ok(),
        None => stranger_line(alloc, names, image, newest, newest).ok(),
    }
}

// What is said of a fault of images, so many of them: one that can't be read may be left out.
fn advised(text: Text, fault: OpenFault, images: usize) -> Result<Text, NoMemory> {
    let mut text = text;
    if images > 1 && matches!(fault, OpenFault::Label(_, _) | OpenFault::Copy(_, _)) {
        text.push(b"ldm: leave it out, where the others are enough to read\n")?;
    }
    Ok(text)
}

// What is wrong with images that hold no group, for this fault.
fn fault_text<H: Host>(
    alloc: Global,
    host: &mut H,
    names: &[String],
    fault: OpenFault,
) -> Option<Text>
    ensures { Looks (H.seen host.old) (H.seen host.new) ⊥ }
{
    match fault {
        OpenFault::Label(image, fault) => no_label(alloc, host, names, image, fault),
        OpenFault::Stranger(image) => stranger(alloc, host, names, image),
        fault => fault_line(alloc, names, fault).ok()?,
    }
}

// Images that hold no group, for this fault.
fn faulty<H: Host>(alloc: Global, host: &mut H, names: &[String], fault: OpenFault) -> Option<Text>
    ensures { Looks (H.seen host.old) (H.seen host.new) ⊥ }
{
    let text = fault_text(alloc, host, names, fault)?;
    advised(text, fault, names.len()).ok()
}

// Says why a job on volumes of a group refused.
fn say_job<H: Host>(
    alloc: Global,
    text: &mut Text,
    host: &H,
    names: &[String],
    found: &Found,
    job: &Job,
) -> Result<(), NoMemory>
    requires sound { IsSoundGroup found.now }
    requires lies { LieOn found.now.labels (H.seen host.now).sizes }
{
    match job {
        Job::Map {
            name,
            first,
            count,
            ..
        } => { say_range(alloc, text, &found.db, name.as_slice(), *first, *count) }
        Job::Dump { name, section } => {
            say_undumped(alloc, text, found, name.as_slice(), *section)
        }
        Job::Scrub { name, .. } => say_unscrubbed(alloc, text, found, name.as_slice()),
        Job::Table { name, images, .. } => {
            say_no_table(alloc, text, host, names, found, name.as_slice(), images)
        }
        Job::Tables { images } => say_no_tables(alloc, text, host, names, found, images),
        _ => Ok(()),
    }
}

// Why a job on volumes of a group refused. It is empty where that isn't known.
fn job_line<H: Host>(
    alloc: Global,
    host: &H,
    names: &[String],
    found: &Found,
    job: &Job,
) -> Result<Text, NoMemory>
    requires sound { IsSoundGroup found.now }
    requires lies { LieOn found.now.labels (H.seen host.now).sizes }
{
    let mut why = Text::new(alloc);
    say_job(alloc, &mut why, host, names, found, job)?;
    if why.as_slice().is_empty() {
        return Ok(why);
    }
    line_of(alloc, "%", &[Part::Word(why.as_slice())])
}

// A group that was found, as a job on it sees it.
#[tactic(auto, using(crate::proofs::AreaLaws::areas_fit))]
fn found_sight<H: Host>(
    alloc: Global,
    host: &H,
    names: &[String],
    found: Found,
    job: &Job,
) -> Option<Sight>
    requires sound { IsSoundGroup found }
    requires lies { LieOn found.labels (H.seen host.now).sizes }
    ensures sound { IfSome result IsSight }
{
    match job {
        Job::Try(_) | Job::Edit(_) | Job::One { .. } => match found.blocked {
            Some(fault) => Some(Sight::Said(block_line(alloc, names, &found, fault).ok()??)),
            None => Some(Sight::Group(found)),
        },
        _ => Some(Sight::Said(job_line(alloc, host, names, &found, job).ok()?)),
    }
}

// The group that the images hold.
fn group_sight<H: Host>(alloc: Global, host: &mut H, names: &[String], job: &Job) -> Option<Sight>
    requires { 0 < length (H.seen host.old).sizes }
    ensures looks { Looks (H.seen host.old) (H.seen host.new) ⊥ }
    ensures sound { IfSome result IsSight }
{
    match find_group(alloc, host) {
        Ok(found) => found_sight(alloc, host, names, found, job),
        Err(OpenError::Fault(fault)) => Some(Sight::Said(faulty(alloc, host, names, fault)?)),
        Err(_) => None,
    }
}

// Why image 0 is no disk, or its copy doesn't read.
fn disk_line<H: Host>(alloc: Global, host: &mut H, names: &[String]) -> Option<Text>
    requires { 0 < length (H.seen host.old).sizes }
    ensures { Looks (H.seen host.old) (H.seen host.new) ⊥ }
{
    let label = match read_label(host, 0) {
        Ok(label) => label,
        Err(LabelError::Fault(fault)) => return no_label(alloc, host, names, 0, fault),
        Err(LabelError::Disk) => return None,
    };
    match read_copy(alloc, host, 0, &label) {
        Err(CopyError::Fault(fault)) => copy_line(alloc, names, 0, fault).ok(),
        _ => None,
    }
}

// The place of the first GUID that stands in a list before.
fn second_of(guids: &[u128]) -> Option<usize> {
    for at in 0..guids.len() {
        if guids[..at].contains(&guids[at]) {
            return Some(at);
        }
    }
    None
}

// Disks that are made no group, for this reason.
fn fault_of_disks<H: Host>(
    alloc: Global,
    host: &mut H,
    names: &[String],
    fault: InitFault,
) -> Option<Text>
    ensures { Looks (H.seen host.old) (H.seen host.new) ⊥ }
{
    match fault {
        InitFault::TooSmall(image) if image < host.disks() => {
            let said = "% has % sectors, and a disk of a new group has 2112 at least";
            path_line(alloc, names, image, said, [host.sectors(image), 0, 0]).ok()
        }
        InitFault::TooLarge(image) if image < host.disks() => {
            let said = "% has % sectors, and a disk with an MBR has fewer than 4294967296";
            path_line(alloc, names, image, said, [host.sectors(image), 0, 0]).ok()
        }
        InitFault::NotEmpty(image) => {
            let said = "% isn't empty: its first 63 sectors and its last 2048 have to be zero";
            path_line(alloc, names, image, said, [0, 0, 0]).ok()
        }
        _ => None,
    }
}

// Which disk can't be one of a new group, and why.
fn init_fault<H: Host>(alloc: Global, host: &mut H) -> Option<InitFault>
    ensures { Looks (H.seen host.old) (H.seen host.new) ⊥ }
{
    let mut buffer = vec![in alloc; 0u8; 512 * 2048].ok()?;
    match check_disks(host, &[], &mut buffer) {
        Err(InitError::Fault(fault)) => Some(fault),
        _ => None,
    }
}

// Why the disks are made no group with these GUIDs.
fn init_line<H: Host>(alloc: Global, host: &mut H, names: &[String], guids: &[u128]) -> Option<Text>
    ensures { Looks (H.seen host.old) (H.seen host.new) ⊥ }
{
    if let Some(image) = second_of(guids) {
        let said = "the DISKGUID for % is that of an image before it: uuidgen makes another";
        return path_line(alloc, names, image, said, [0, 0, 0]).ok();
    }
    let fault = init_fault(alloc, host)?;
    fault_of_disks(alloc, host, names, fault)
}

impl Sight {
    /// What the images of a host hold, as far as a refusal of the job on the images of these names
    /// is explained by it. None where a read or memory fails, or there is nothing to explain.
    pub fn of<H: Host>(alloc: Global, host: &mut H, names: &[String], job: &Job) -> Option<Sight>
        ensures looks { Looks (H.seen host.old) (H.seen host.new) ⊥ }
        ensures sizes { (H.seen host.new).sizes ≡ (H.seen host.old).sizes }
        ensures sound { IfSome result IsSight }
    {
        if host.disks() == 0 {
            return None;
        }
        match job {
            Job::Disk(_) | Job::Records { .. } => Some(Sight::Said(disk_line(alloc, host, names)?)),
            Job::Init { disks, .. } => {
                let text = init_line(alloc, host, names, disks.as_slice())?;
                Some(Sight::Said(text))
            }
            _ => group_sight(alloc, host, names, job),
        }
    }
}
