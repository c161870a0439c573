//! The job of a rescue: a volume, or a section of it, off the disks of a host that fail.
ghost use Rattle.std.specs.Prelude.{◌≡◌, ◌+◌, ◌<◌, ◌≤◌, [], length, IfSome, Ok, None};
ghost use Rattle.ldm_dump.specs.Runs.{LiesOn};
ghost use Rattle.ldm_found.specs.Facts.{IsSoundGroup, LieOn};
ghost use Rattle.ldm_host.specs.Failed.{failed_since};
ghost use Rattle.ldm_rescue.specs.Rescue.{end_of, asked_section, IsSaid, IsBegun, OfAsked};
ghost use Rattle.ldm_rescue.specs.Rescue.{OfGroup, IsRescueAnswer, IsRescueFront, Rescues};
ghost use Rattle.ldm_rescue.specs.Rescue.{Outcome};

use crate::losses::Losses;
use crate::saying::rescue_sectors;
use ldm_dump::volumes_lie_on_images;
use ldm_found::{Found, OpenError, find_group};
use ldm_host::Host;
use ldm_layout::Plan;
use ldm_look::{refuse, say_made};
use ldm_rules::sound_plan;
use ldm_text::refusal_text;
use ldm_words::{Format, Section, Status};
use std::alloc::Global;

// How many bytes are read and said at a time.
const PIECE: usize = 0x10_0000;

/// How many sectors were said, and how many of them are lost.
#[derive(Clone, Copy, PartialEq, Eq)]
pub struct Totals {
    pub sectors: u64,
    pub lost: u64,
}

/// How a rescue ends. There are totals where all sectors were said.
#[derive(Clone, Copy, PartialEq, Eq)]
pub struct Rescue {
    pub status: Status,
    pub totals: Option<Totals>,
}

// The end of a rescue that said so many sectors: Done, where none of them is lost.
fn end_of(sectors: u64, lost: u64) -> Rescue
    ensures { result ≡ end_of sectors lost }
{
    let status = if lost == 0 {
        Status::Done
    } else {
        Status::Refused
    };
    Rescue {
        status,
        totals: Some(Totals { sectors, lost }),
    }
}

// The end of a rescue that didn't say all sectors.
fn ended(status: Status) -> Rescue
    ensures { result ≡ record { status = status; totals = None } }
{
    Rescue {
        status,
        totals: None,
    }
}

// The sectors that are asked for, where the volume has them: all, or those of a section.
fn asked_section(size: u64, section: Option<Section>) -> Option<Section>
    ensures is { result ≡ asked_section size section }
    ensures within { IfSome result (λ asked. asked.first + asked.count ≤ size) }
{
    let Some(section) = section else {
        return Some(Section {
            first: 0,
            count: size,
        });
    };
    let Section { first, count } = section;
    if count == 0 || size < first || size - first < count {
        None
    } else {
        Some(section)
    }
}

// Says the sectors of a section. All memory is taken before.
fn rescue_section<H: Host, L: Losses<H>>(
    alloc: Global,
    host: &mut H,
    losses: &mut L,
    found: &Found,
    plan: &Plan,
    section: Section,
) -> Rescue
    requires within { section.first + section.count ≤ plan.now.size }
    requires lies { LiesOn found.now plan.now (H.seen host.old).sizes }
    ensures { Rescues H.tells_disks L.tells (H.seen host.old) (H.seen host.new)
        (L.lost losses.old) (L.lost losses.new)
        (IsSaid (H.seen host.old).content (failed_since (H.seen host.old) (H.seen host.new))
        found.now plan.now section)
        (IsBegun (H.seen host.old).content (failed_since (H.seen host.old) (H.seen host.new))
        found.now plan.now section) result }
{
    let Ok(mut buffer) = vec![in alloc; 0u8; PIECE] else {
        return ended(Status::NoMemory);
    };
    let Ok(mut scratch) = vec![in alloc; 0u8; PIECE] else {
        return ended(Status::NoMemory);
    };
    let Section { first, count } = section;
    match rescue_sectors(
        host,
        losses,
        found,
        plan,
        first,
        count,
        &mut buffer,
        &mut scratch,
    ) {
        Ok(lost) => end_of(count, lost),
        Err(_) => ended(Status::TalkFault),
    }
}

// Says a section of a volume, or the line that refuses for one that the volume doesn't have.
fn rescue_plan<H: Host, L: Losses<H>>(
    alloc: Global,
    host: &mut H,
    losses: &mut L,
    found: &Found,
    plan: &Plan,
    section: Option<Section>,
) -> Rescue
    requires { LiesOn found.now plan.now (H.seen host.old).sizes }
    ensures { Rescues H.tells_disks L.tells (H.seen host.old) (H.seen host.new)
        (L.lost losses.old) (L.lost losses.new)
        (OfAsked (IsSaid (H.seen host.old).content (failed_since (H.seen host.old)
        (H.seen host.new)) found.now plan.now) (asked_section plan.now.size section))
        (OfAsked (IsBegun (H.seen host.old).content (failed_since (H.seen host.old)
        (H.seen host.new)) found.now plan.now) (asked_section plan.now.size section)) result }
{
    match asked_section(plan.size(), section) {
        Some(asked) => rescue_section(alloc, host, losses, found, plan, asked),
        None => {
            let line = refusal_text(alloc, b"bad range");
            ended(say_made(host, line, Status::Refused))
        }
    }
}

// Says a section of the volume of this name of a group, or the line of the refusal.
fn rescue_found<H: Host, L: Losses<H>>(
    alloc: Global,
    host: &mut H,
    losses: &mut L,
    found: &Found,
    name: &[u8],
    section: Option<Section>,
) -> Rescue
    requires sound { IsSoundGroup found.now }
    requires lies { LieOn found.now.labels (H.seen host.old).sizes }
    ensures { Rescues H.tells_disks L.tells (H.seen host.old) (H.seen host.new)
        (L.lost losses.old) (L.lost losses.new)
        (OfGroup (IsSaid (H.seen host.old).content (failed_since (H.seen host.old)
        (H.seen host.new))) name.now section (Ok found.now))
        (OfGroup (IsBegun (H.seen host.old).content (failed_since (H.seen host.old)
        (H.seen host.new))) name.now section (Ok found.now)) result }
{
    let Some(volume) = found.db.volume_named(name) else {
        let line = refusal_text(alloc, b"no volume");
        return ended(say_made(host, line, Status::Refused));
    };
    let Ok(plan) = sound_plan(alloc, &found.db, &found.labels, volume) else {
        return ended(Status::NoMemory);
    };
    volumes_lie_on_images();
    rescue_plan(alloc, host, losses, found, &plan, section)
}

/// Says the volume of this name of the group that the images hold, or a section of it, and tells
/// which of its sectors are lost. Done says that none is. Refused says that some are, which are
/// counted, or else that the refusal was said.
pub fn run_rescue<H: Host, L: Losses<H>>(
    alloc: Global,
    host: &mut H,
    losses: &mut L,
    name: &[u8],
    section: Option<Section>,
) -> Rescue
    requires { 0 < length (H.seen host.old).sizes }
    // The answer, by the reads that failed in this run, and what holds where it did not come whole.
    ensures rescues { Rescues H.tells_disks L.tells (H.seen host.old) (H.seen host.new)
        (L.lost losses.old) (L.lost losses.new)
        (IsRescueAnswer name.now section (H.seen host.old).content
        (failed_since (H.seen host.old) (H.seen host.new)))
        (IsRescueFront name.now section (H.seen host.old).content
        (failed_since (H.seen host.old) (H.seen host.new))) result }
    // Where none failed, there is one answer.
    ensures one { (a b : Outcome)
        → IsRescueAnswer name.now section (H.seen host.old).content [] a
        → IsRescueAnswer name.now section (H.seen host.old).content [] b → a ≡ b }
{
    match find_group(alloc, host) {
        Err(OpenError::Disk) => ended(Status::DiskFault),
        Err(OpenError::NoMemory) => ended(Status::NoMemory),
        Err(OpenError::Fault(fault)) => ended(refuse(alloc, host, &Format::Lines, &fault)),
        Ok(found) => rescue_found(alloc, host, losses, &found, name, section),
    }
}
