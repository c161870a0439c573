//! Closes what is damaged, heals it, and says so.
ghost use Rattle.std.specs.Prelude.{◌≡◌, ℕ, List, Ok, Some, None, Result, IfErr, OnOk};
ghost use Rattle.ldm_copy.specs.declared.found.Found.{Found as FoundModel};
ghost use Rattle.ldm_found.specs.Facts.{LieOn, IsSoundGroup};
ghost use Rattle.ldm_found.specs.Opening.{IsGroupIn};
ghost use Rattle.ldm_init.specs.Images.{NothingPending};
ghost use Rattle.ldm_damage.specs.Views.{AreDamaged};
ghost use Rattle.ldm_repair.specs.Repairing.{damaged_label};
ghost use Rattle.ldm_repair.specs.Stages.{DoesRepair, IsPlanned, HealsClosed};

use crate::closing::close_all;
use crate::planning::Plan;
use crate::ran::Ran;
use ldm_damage::Damage;
use ldm_found::{Found, OpenError};
use ldm_host::Host;
use ldm_look::{refuse, say_made};
use ldm_store::settle;
use ldm_words::{Format, Status};
use std::alloc::Global;

// Closes each copy of a group that is damaged, and then heals all that are behind.
fn heal_closed<H: Host>(
    alloc: Global,
    host: &mut H,
    found: &Found,
    damages: &[Damage],
) -> Result<(), OpenError>
    requires sound { IsSoundGroup found.now }
    requires editable { found.now.blocked ≡ None }
    requires lies { LieOn found.now.labels (H.seen host.old).sizes }
    requires settled { NothingPending (H.seen host.old) }
    requires labels { damaged_label damages.now ≡ None }
    requires is { H.tells_disks → (views : List (List ℕ))
        × AreDamaged (H.seen host.old).content damages.now views
        × IsGroupIn views (Result.Ok found.now) }
    ensures { HealsClosed H.tells_disks result found.now (H.seen host.old) (H.seen host.new) }
{
    close_all(host, found.labels.as_slice(), damages)?;
    settle(alloc, host)?;
    Ok(())
}

// Closes damaged copies and heals those that are behind, or ends the repair where that failed.
fn heal_or_end<H: Host>(
    alloc: Global,
    host: &mut H,
    found: &Found,
    damages: &[Damage],
) -> Result<(), Status>
    requires sound { IsSoundGroup found.now }
    requires editable { found.now.blocked ≡ None }
    requires lies { LieOn found.now.labels (H.seen host.old).sizes }
    requires settled { NothingPending (H.seen host.old) }
    requires labels { damaged_label damages.now ≡ None }
    requires is { H.tells_disks → (views : List (List ℕ))
        × AreDamaged (H.seen host.old).content damages.now views
        × IsGroupIn views (Result.Ok found.now) }
    ensures healed { OnOk result (HealsClosed H.tells_disks (Result.Ok tt) found.now
        (H.seen host.old) (H.seen host.new)) }
    ensures ended { IfErr result (λ status. DoesRepair H.tells_disks (H.seen host.old)
        (H.seen host.new) status) }
{
    match heal_closed(alloc, host, found, damages) {
        Ok(()) => Ok(()),
        Err(OpenError::Disk) => Err(Status::DiskFault),
        Err(OpenError::NoMemory) => Err(Status::NoMemory),
        Err(OpenError::Fault(fault)) => Err(refuse(alloc, host, &Format::Lines, &fault)),
    }
}

/// Repairs the copies of a group as it is planned, on disks on which nothing is pending, and says
/// so.
pub(crate) fn heal_and_say<H: Host>(
    alloc: Global,
    mut host: H,
    plan: Plan,
    damages: Vec<Damage>,
) -> Ran<H>
    requires settled { NothingPending (H.seen host) }
    requires labels { damaged_label damages.items ≡ None }
    requires planned { (views : List (List ℕ))
        × (H.tells_disks → AreDamaged (H.seen host).content damages.items views)
        × IsPlanned H.tells_disks views (H.seen host).sizes damages.items plan }
    ensures repairs { DoesRepair H.tells_disks (H.seen host) (H.seen result.host) result.status }
    ensures told { result.damages ≡ Some damages }
{
    let Plan { found, text } = plan;
    let status = match heal_or_end(alloc, &mut host, &found, &damages) {
        Ok(()) => say_made(&mut host, Ok(text), Status::Done),
        Err(status) => status,
    };
    Ran {
        host,
        status,
        damages: Some(damages),
    }
}
