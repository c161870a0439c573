//! `repair`: copies that are damaged or behind the others are made anew.
ghost use Rattle.std.specs.Prelude.{◌≡◌, ◌≢◌, ◌<◌, ℕ, List, Some, None, length, true, is_some, IfSome};
ghost use Rattle.ldm_host.specs.Moves.{SameInput};
ghost use Rattle.ldm_words.specs.declared.status.Status.TheVariants.{DiskFault, NoMemory, Usage};
ghost use Rattle.ldm_copy.specs.declared.fault.OpenFault.{OpenFault as FaultModel};
ghost use Rattle.ldm_view.specs.Patches.{shown};
ghost use Rattle.ldm_init.specs.Images.{NothingPending};
ghost use Rattle.ldm_damage.specs.Views.{AreDamaged};
ghost use Rattle.ldm_look.specs.Said.{Answer, HasAnswer, SaysNothing, refused};
ghost use Rattle.ldm_look.specs.Opening.{text_of_open_fault};
ghost use Rattle.ldm_look.specs.Runs.{Answers, Causes, Completes, NoFault};
ghost use Rattle.ldm_repair.specs.Repairing.{IsRepairAnswer, damaged_label, MayRepair};
ghost use Rattle.ldm_repair.specs.Repairing.{RepairsDisks, EveryStopRepairs, EveryStopSinceRepair};
ghost use Rattle.ldm_repair.specs.Stages.{DoesRepair};

use crate::healing::heal_and_say;
use crate::planning::plan_repair;
use crate::ran::{Ran, damage_status, host_of};
use crate::texts::damaged_label;
use ldm_damage::{Damage, find_damage};
use ldm_found::{OpenError, OpenFault};
use ldm_host::Host;
use ldm_look::refuse;
use ldm_store::sync_all;
use ldm_view::Patched;
use ldm_words::{Format, Status};
use std::alloc::Global;

// Refuses to repair images, of which this is damaged, for a fault.
fn refuse_repair<H: Host>(
    alloc: Global,
    mut host: H,
    damages: Vec<Damage>,
    fault: &OpenFault,
) -> Ran<H>
    requires refused { H.tells_disks → IsRepairAnswer (H.seen host).content
        (refused (text_of_open_fault fault.now)) }
    requires none { H.tells_disks → (found : _) → MayRepair (H.seen host).content found → ⊥ }
    ensures repairs { DoesRepair H.tells_disks (H.seen host) (H.seen result.host) result.status }
    ensures told { result.damages ≡ Some damages }
{
    let status = refuse(alloc, &mut host, &Format::Lines, fault);
    Ran {
        host,
        status,
        damages: Some(damages),
    }
}

// Repairs images whose labels are good, as they are shown past this damage.
fn repair_found<H: Host>(alloc: Global, under: Patched<H>, damages: Vec<Damage>) -> Ran<H>
    requires images { 0 < length (H.seen under.host).sizes }
    requires settled { NothingPending (H.seen under.host) }
    requires labels { damaged_label damages.items ≡ None }
    requires damaged { H.tells_disks → AreDamaged (H.seen under.host).content damages.items
        (shown under.patches.items (H.seen under.host).content) }
    ensures repairs { DoesRepair H.tells_disks (H.seen under.host) (H.seen result.host)
        result.status }
    ensures told { result.damages ≡ Some damages }
{
    let (under, planned) = plan_repair(alloc, under, &damages);
    let host = host_of(under);
    match planned {
        Ok(plan) => heal_and_say(alloc, host, plan, damages),
        Err(OpenError::Fault(fault)) => refuse_repair(alloc, host, damages, &fault),
        Err(OpenError::Disk) => Ran {
            host,
            status: Status::DiskFault,
            damages: Some(damages),
        },
        Err(OpenError::NoMemory) => Ran {
            host,
            status: Status::NoMemory,
            damages: Some(damages),
        },
    }
}

// Repairs images as they are shown past this damage.
fn repair_past<H: Host>(alloc: Global, under: Patched<H>, damages: Vec<Damage>) -> Ran<H>
    requires images { 0 < length (H.seen under.host).sizes }
    requires settled { NothingPending (H.seen under.host) }
    requires damaged { H.tells_disks → AreDamaged (H.seen under.host).content damages.items
        (shown under.patches.items (H.seen under.host).content) }
    ensures repairs { DoesRepair H.tells_disks (H.seen under.host) (H.seen result.host)
        result.status }
    ensures told { result.damages ≡ Some damages }
{
    match damaged_label(&damages) {
        Some((image, fault)) => {
            let fault = OpenFault::Label(image, fault);
            refuse_repair(alloc, host_of(under), damages, &fault)
        }
        None => repair_found(alloc, under, damages),
    }
}

// Repairs images on which nothing is pending.
fn repair_synced<H: Host>(alloc: Global, host: H) -> Ran<H>
    requires images { 0 < length (H.seen host).sizes }
    requires settled { NothingPending (H.seen host) }
    ensures repairs { DoesRepair H.tells_disks (H.seen host) (H.seen result.host) result.status }
    ensures told { HasAnswer result.status → is_some result.damages ≡ true }
    ensures damaged { H.tells_disks → IfSome result.damages (λ damages. (views : List (List ℕ))
        × AreDamaged (H.seen host).content damages.items views) }
{
    let (under, found) = find_damage(alloc, host);
    match found {
        Ok(damages) => repair_past(alloc, under, damages),
        Err(error) => Ran {
            host: host_of(under),
            status: damage_status(error),
            damages: None,
        },
    }
}

/// Makes copies of the database anew that are damaged, closed or behind the others: syncs every
/// disk, finds the group past what is damaged, closes the damaged copies one after another, and
/// then heals all copies that are closed or of a lower sequence, as an edit does first. A label that
/// is damaged is refused, and so is a group that may not be edited; then nothing was written.
pub fn repair<H: Host>(alloc: Global, mut host: H) -> Ran<H>
    requires { 0 < length (H.seen host).sizes }
    // Done and Refused are the answer, and nothing is said but the beginning of its text. There is
    // one answer.
    ensures answers { H.tells_disks → Answers (H.seen host) (H.seen result.host)
        (IsRepairAnswer (H.seen host).content) result.status }
    ensures one { (a b : Answer) → IsRepairAnswer (H.seen host).content a
        → IsRepairAnswer (H.seen host).content b → a ≡ b }
    ensures no_usage { result.status ≢ Usage }
    // What is damaged is told with each answer.
    ensures told { HasAnswer result.status → is_some result.damages ≡ true }
    ensures damaged { H.tells_disks → IfSome result.damages (λ damages. (views : List (List ℕ))
        × AreDamaged (H.seen host).content damages.items views) }
    // A fault comes only where its count rose.
    ensures causes { Causes (H.seen host) (H.seen result.host) result.status }
    // Where no count rose, the answer comes, or NoMemory.
    ensures complete { H.tells_disks → NoFault (H.seen host) (H.seen result.host)
        → result.status ≢ NoMemory
        → Completes (H.seen host) (H.seen result.host) (IsRepairAnswer (H.seen host).content)
        result.status }
    ensures silent { SaysNothing result.status → (H.seen result.host).said ≡ (H.seen host).said }
    ensures input { SameInput (H.seen host) (H.seen result.host) }
    // What is written: each copy is open with the group that was found, where it is done; and
    // nothing where there is none that may be edited.
    ensures disks { ∥ RepairsDisks H.tells_disks (H.seen host) (H.seen result.host)
        result.status ∥₁ }
    // At every moment the images hold past damage the group that was found; where something was
    // said they open as it.
    ensures stops { H.tells_disks → NothingPending (H.seen host)
        → ∥ EveryStopRepairs (H.seen host) (H.seen result.host) ∥₁ }
    // Where anything may be pending at the start, that is so from the end of the syncs on.
    ensures since_syncs { H.tells_disks
        → ∥ EveryStopSinceRepair (result.status ≡ DiskFault) (H.seen host) (H.seen result.host) ∥₁ }
{
    match sync_all(&mut host) {
        Ok(()) => repair_synced(alloc, host),
        Err(_) => Ran {
            host,
            status: Status::DiskFault,
            damages: None,
        },
    }
}
