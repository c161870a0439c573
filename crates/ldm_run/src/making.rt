//! `init`: a new group on empty disks.
ghost use Rattle.std.specs.Prelude.{◌≡◌, ◌≢◌, ◌++◌, length, codes, decimal, IfOk};
ghost use Rattle.ldm_words.specs.NewGroup as words;
ghost use Rattle.ldm_words.specs.declared.job.Job.TheVariants as jobs;
ghost use Rattle.ldm_look.specs.Said.{refused};
ghost use Rattle.ldm_run.specs.Making.{text_of_init_fault, made_text};
ghost use Rattle.ldm_run.specs.Runs.{DoesJob};
ghost use Rattle.ldm_look.specs.Runs.{OnlyReads};

use ldm_bytes::{Bytes, NoMemory};
use ldm_host::Host;
use ldm_init::{InitError, InitFault};
use ldm_look::say_made;
use ldm_text::{Text, image_fault_text, push_number, refusal_text};
use ldm_words::{Guids, Status};
use std::alloc::Global;

// Two places of one GUID.
fn same_text(alloc: Global, first: usize, second: usize) -> Result<Bytes, NoMemory>
    ensures { IfOk result (λ text. text ≡ ((codes "GUIDs " ++ decimal first)
        ++ (codes " and " ++ decimal second))
        ++ codes " are one") }
{
    let mut text = Text::new(alloc);
    push_number(&mut text, b"GUIDs ", first as u64)?;
    push_number(&mut text, b" and ", second as u64)?;
    text.push(b" are one")?;
    Ok(text.into_bytes())
}

fn fault_text(alloc: Global, fault: InitFault) -> Result<Bytes, NoMemory>
    ensures { IfOk result (λ text. text ≡ text_of_init_fault fault) }
{
    match fault {
        InitFault::SameGuid(first, second) => same_text(alloc, first, second),
        InitFault::TooSmall(image) => image_fault_text(alloc, image, b"too small"),
        InitFault::TooLarge(image) => image_fault_text(alloc, image, b"too large for MBR"),
        InitFault::NotEmpty(image) => image_fault_text(alloc, image, b"not empty"),
    }
}

// The line that refuses disks for a fault.
fn init_refusal(alloc: Global, fault: InitFault) -> Result<Bytes, NoMemory>
    ensures { IfOk result (λ line. line ≡ (refused (text_of_init_fault fault)).0) }
{
    let text = fault_text(alloc, fault)?;
    refusal_text(alloc, text.as_slice())
}

// Refuses disks for a fault.
fn refuse_disks<H: Host>(alloc: Global, host: &mut H, fault: InitFault) -> Status
    ensures { OnlyReads H.tells_talk (H.seen host.old) (H.seen host.new) (λ answer. answer
        ≡ refused (text_of_init_fault fault)) result }
{
    let line = init_refusal(alloc, fault);
    say_made(host, line, Status::Refused)
}

// Says that the group was made. It takes no memory.
fn say_done<H: Host>(host: &mut H) -> Status
    ensures says { OnlyReads H.tells_talk (H.seen host.old) (H.seen host.new) (λ answer. answer
        ≡ (made_text, Status.Done)) result }
    ensures not_refused { result ≢ Status.Refused }
    ensures no_memory { result ≢ Status.NoMemory }
{
    match host.say(b"ok 1\n") {
        Ok(()) => Status::Done,
        Err(_) => Status::TalkFault,
    }
}

/// init NAME GUID GUID.. on IMAGE...
pub(crate) fn make_group<H: Host>(
    alloc: Global,
    host: &mut H,
    name: &Bytes,
    guid: u128,
    disks: &Guids,
) -> Status
    requires words { words.AreInitWords name.now disks.now }
    requires count { length disks.now ≡ length (H.seen host.old).sizes }
    ensures { DoesJob H.tells_disks H.tells_talk (jobs.Init name.now guid disks.now)
        (H.seen host.old) (H.seen host.new) result }
{
    match ldm_init::init(alloc, host, name, guid, disks) {
        Err(InitError::Disk) => Status::DiskFault,
        Err(InitError::NoMemory) => Status::NoMemory,
        Err(InitError::Fault(fault)) => refuse_disks(alloc, host, fault),
        Ok(()) => say_done(host),
    }
}
