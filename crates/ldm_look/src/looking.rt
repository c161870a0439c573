//! The jobs that look, and `look`, which does the one that words ask for.
ghost use Rattle.std.specs.Prelude.{◌≡◌, ◌≢◌, ◌↔◌, ◌<◌, length, slice_index, IfOk};
ghost use Rattle.std.specs.Prelude.{IfErr, OnOk, None, Ok, is_some};
ghost use Rattle.ldm_host.specs.Seen.{image};
ghost use Rattle.ldm_label.specs.LabelOf.{label_of, Fits};
ghost use Rattle.ldm_host.specs.Moves.{Looks};
ghost use Rattle.ldm_words.specs.Jobs.{texts, job_of, HasCount};
ghost use Rattle.ldm_words.specs.declared.job.Job.TheVariants as jobs;
ghost use Rattle.ldm_copy.specs.declared.found.Found.{Found};
ghost use Rattle.ldm_found.specs.Opening.{IsGroupIn};
ghost use Rattle.ldm_found.specs.Facts.{IsSoundGroup, LieOn};
ghost use Rattle.ldm_look.specs.Said.{Answer, IsUnread};
ghost use Rattle.ldm_look.specs.Looks.{IsCopyAnswer, IsGroupAnswer, IsLookAnswer, IsLookAt};
ghost use Rattle.ldm_look.specs.Looks.{IsFormattedAnswer, look_in, look_of};
ghost use Rattle.ldm_look.specs.Runs.{Completes, HasImages, NoFault, OfLook, OnlyReads};

use crate::counting::open_counted;
use crate::formats::{said_check, said_copy, said_group, said_label, said_scan};
use crate::mapping::mapped;
use crate::saying::{refuse, refuse_opening, say_made};
use crate::scanning::{ScanError, scan_images};
use ldm_bytes::{Bytes, NoMemory};
use ldm_copy::{CopyError, read_copy};
use ldm_found::{Found, OpenError, OpenFault, find_group};
use ldm_host::Host;
use ldm_label::{Label, LabelError, read_label};
use ldm_words::{Format, Job, Status, WordsError, read_words};
use std::alloc::Global;

/// disk on IMAGE
pub fn disk<H: Host>(alloc: Global, host: &mut H, format: &Format) -> Status
    requires { length (H.seen host.old).sizes ≡ 1 }
    ensures { OnlyReads H.tells_disks (H.seen host.old) (H.seen host.new)
        (IsLookAnswer (jobs.Disk format.now) (H.seen host.old).content) result }
{
    match read_label(host, 0) {
        Err(LabelError::Disk) => Status::DiskFault,
        Err(LabelError::Fault(fault)) => {
            refuse(alloc, host, format, &OpenFault::Label(0, fault))
        }
        Ok(label) => say_made(host, said_label(alloc, format, &label), Status::Done),
    }
}

// The copy in the config area of image 0, whose label this is.
fn copy_of_label<H: Host>(alloc: Global, host: &mut H, format: &Format, label: &Label) -> Status
    requires one { length (H.seen host.old).sizes ≡ 1 }
    requires fits { Fits label.now (slice_index (H.seen host.old).sizes 0) }
    requires label { H.tells_disks → label_of (image (H.seen host.old).content 0) ≡ Ok label.now }
    ensures { OnlyReads H.tells_disks (H.seen host.old) (H.seen host.new)
        (IsCopyAnswer format.now label.now (image (H.seen host.old).content 0)) result }
{
    match read_copy(alloc, host, 0, label) {
        Err(CopyError::Disk) => Status::DiskFault,
        Err(CopyError::NoMemory) => Status::NoMemory,
        Err(CopyError::Fault(fault)) => refuse(alloc, host, format, &OpenFault::Copy(0, fault)),
        Ok(state) => say_made(host, said_copy(alloc, format, &state), Status::Done),
    }
}

/// records on IMAGE
pub fn records<H: Host>(alloc: Global, host: &mut H, format: &Format) -> Status
    requires { length (H.seen host.old).sizes ≡ 1 }
    ensures { OnlyReads H.tells_disks (H.seen host.old) (H.seen host.new)
        (IsLookAnswer (jobs.Records format.now) (H.seen host.old).content) result }
{
    match read_label(host, 0) {
        Err(LabelError::Disk) => Status::DiskFault,
        Err(LabelError::Fault(fault)) => {
            refuse(alloc, host, format, &OpenFault::Label(0, fault))
        }
        Ok(label) => copy_of_label(alloc, host, format, &label),
    }
}

/// The group that the images hold, and nothing was said; or how the run ends where there is none.
pub fn open_group<H: Host>(alloc: Global, host: &mut H) -> Result<Found, Status>
    requires { 0 < length (H.seen host.old).sizes }
    ensures found { H.tells_disks → IfOk result (λ found. IsGroupIn
        (H.seen host.old).content (Ok found)) }
    ensures sound { IfOk result (λ found. IsSoundGroup found) }
    ensures lies { IfOk result (λ found. LieOn found.labels (H.seen host.new).sizes) }
    ensures looks { OnOk result (Looks (H.seen host.old) (H.seen host.new) ⊥) }
    ensures fault { IfErr result (λ status. (answer_of : Found → Answer)
        → OnlyReads H.tells_disks (H.seen host.old) (H.seen host.new)
        (IsGroupAnswer answer_of (H.seen host.old).content) status) }
{
    match find_group(alloc, host) {
        Ok(found) => Ok(found),
        Err(OpenError::Disk) => Err(Status::DiskFault),
        Err(OpenError::NoMemory) => Err(Status::NoMemory),
        Err(OpenError::Fault(fault)) => Err(refuse_opening(alloc, host, &fault)),
    }
}

/// The group that the images hold, and nothing was said; or how the run ends where there is none,
/// when the refusal is said in this format.
pub fn open_for<H: Host>(alloc: Global, host: &mut H, format: &Format) -> Result<Found, Status>
    requires { 0 < length (H.seen host.old).sizes }
    ensures found { H.tells_disks → IfOk result (λ found. IsGroupIn
        (H.seen host.old).content (Ok found)) }
    ensures sound { IfOk result (λ found. IsSoundGroup found) }
    ensures lies { IfOk result (λ found. LieOn found.labels (H.seen host.new).sizes) }
    ensures looks { OnOk result (Looks (H.seen host.old) (H.seen host.new) ⊥) }
    ensures fault { IfErr result (λ status. (answer_of : Found → Answer)
        → OnlyReads H.tells_disks (H.seen host.old) (H.seen host.new)
        (IsFormattedAnswer format.now answer_of (H.seen host.old).content) status) }
{
    match find_group(alloc, host) {
        Ok(found) => Ok(found),
        Err(OpenError::Disk) => Err(Status::DiskFault),
        Err(OpenError::NoMemory) => Err(Status::NoMemory),
        Err(OpenError::Fault(fault)) => Err(refuse(alloc, host, format, &fault)),
    }
}

/// scan on IMAGE...
pub fn scan<H: Host>(alloc: Global, host: &mut H, format: &Format) -> Status
    ensures { OnlyReads H.tells_disks (H.seen host.old) (H.seen host.new)
        (IsLookAnswer (jobs.Scan format.now) (H.seen host.old).content) result }
{
    match scan_images(alloc, host) {
        Err(ScanError::Disk) => Status::DiskFault,
        Err(ScanError::NoMemory) => Status::NoMemory,
        Ok(scanned) => {
            let text = said_scan(alloc, format, scanned.as_slice());
            say_made(host, text, Status::Done)
        }
    }
}

/// show on IMAGE...
pub fn show<H: Host>(alloc: Global, host: &mut H, format: &Format) -> Status
    requires { 0 < length (H.seen host.old).sizes }
    ensures { OnlyReads H.tells_disks (H.seen host.old) (H.seen host.new)
        (IsLookAnswer (jobs.Show format.now) (H.seen host.old).content) result }
{
    match open_for(alloc, host, format) {
        Err(status) => status,
        Ok(found) => say_made(host, said_group(alloc, format, &found), Status::Done),
    }
}

/// check on IMAGE...
pub fn check<H: Host>(alloc: Global, host: &mut H, format: &Format) -> Status
    requires { 0 < length (H.seen host.old).sizes }
    ensures { OnlyReads H.tells_disks (H.seen host.old) (H.seen host.new)
        (IsLookAnswer (jobs.Check format.now) (H.seen host.old).content) result }
{
    match open_counted(alloc, host, format) {
        Err(status) => status,
        Ok((found, goods)) => {
            let text = said_check(alloc, format, goods.as_slice(), &found);
            say_made(host, text, Status::Done)
        }
    }
}

/// map NAME FIRST COUNT on IMAGE...
pub fn map<H: Host>(
    alloc: Global,
    host: &mut H,
    name: &Bytes,
    first: u64,
    count: u64,
    format: &Format,
) -> Status
    requires { 0 < length (H.seen host.old).sizes }
    ensures { OnlyReads H.tells_disks (H.seen host.old) (H.seen host.new)
        (IsLookAnswer (jobs.Map name.now first count format.now) (H.seen host.old).content)
        result }
{
    let found = match open_for(alloc, host, format) {
        Err(status) => return status,
        Ok(found) => found,
    };
    match mapped(alloc, format, &found, name.as_slice(), first, count) {
        Err(NoMemory) => Status::NoMemory,
        Ok((text, status)) => say_made(host, Ok(text), status),
    }
}

/// Whether a job is one that looks.
pub fn is_look(job: &Job) -> bool
    ensures { result ≡ is_some (look_in job.now) }
{
    matches!(
        job,
        Job::Disk(_)
            | Job::Records(_)
            | Job::Scan(_)
            | Job::Show(_)
            | Job::Check(_)
            | Job::Map { .. }
    )
}

// Does a job that looks, and makes no call of the host for another.
fn look_job<H: Host>(alloc: Global, job: Job, host: &mut H) -> Status
    requires { HasCount job (length (H.seen host.old).sizes) }
    ensures { OfLook (look_in job) (IsUnread result × (host.new ≡ host.old))
        (λ look. OnlyReads H.tells_disks (H.seen host.old) (H.seen host.new)
        (IsLookAnswer look (H.seen host.old).content) result) }
{
    match job {
        Job::Disk(format) => disk(alloc, host, &format),
        Job::Records(format) => records(alloc, host, &format),
        Job::Scan(format) => scan(alloc, host, &format),
        Job::Show(format) => show(alloc, host, &format),
        Job::Check(format) => check(alloc, host, &format),
        Job::Map {
            name,
            first,
            count,
            format,
        } => map(alloc, host, &name, first, count, &format),
        _ => Status::Usage,
    }
}

/// Runs a command line whose job looks at the images that it names: the disks of the host, in their
/// order. Words of another job are as words without a reading.
#[tactic(auto, using(crate::proofs::AnswerLaws::one_look))]
pub fn look<H: Host>(alloc: Global, words: &[String], host: &mut H) -> Status
    requires { HasImages (job_of (texts words.now)) (H.seen host.old) }
    // Usage comes exactly where the words have no reading as a job that looks.
    ensures usage { result ≢ Status.NoMemory → (result ≡ Status.Usage)
        ↔ (look_of (job_of (texts words.now)) ≡ None) }
    // No call of the host is made there. Else the disks are only read, and then the answer is said,
    // or there is a fault that has its cause.
    ensures reads { OfLook (look_of (job_of (texts words.now))) (host.new ≡ host.old)
        (λ job. OnlyReads H.tells_disks (H.seen host.old) (H.seen host.new)
        (IsLookAnswer job (H.seen host.old).content) result) }
    // There is one answer.
    ensures one { (a b : Answer) → IsLookAt (texts words.now) (H.seen host.old).content a
        → IsLookAt (texts words.now) (H.seen host.old).content b → a ≡ b }
    // Where no count rose, it comes, or NoMemory.
    ensures complete { H.tells_disks → NoFault (H.seen host.old) (H.seen host.new)
        → result ≢ Status.NoMemory
        → Completes (H.seen host.old) (H.seen host.new)
        (IsLookAt (texts words.now) (H.seen host.old).content) result }
{
    match read_words(alloc, words) {
        Err(WordsError::Usage) => Status::Usage,
        Err(WordsError::NoMemory) => Status::NoMemory,
        Ok((job, _)) => look_job(alloc, job, host),
    }
}
