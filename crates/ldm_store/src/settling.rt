//! Makes the group of the disks ready to be edited.
ghost use Rattle.std.specs.Prelude.{if◌then◌else◌, ◌≡◌, ◌≢◌, ◌⊎◌, ◌+◌, ◌<◌, ℕ, length, slice_index};
ghost use Rattle.std.specs.Prelude.{Result, IfOk, IfErr, OnOk, IsErr, IsErrOf, Some, None};
ghost use Rattle.ldm_host.specs.Moves.{Settled, Settles, DiskFailed, Looks, Works};
ghost use Rattle.ldm_host.specs.Seen.{image};
ghost use Rattle.ldm_label.specs.LabelOf.{Fits};
ghost use Rattle.ldm_group.specs.Database.{Database};
ghost use Rattle.ldm_body.specs.Body.{IsBodyOn};
ghost use Rattle.ldm_body.specs.Rewriting.{Rewrites};
ghost use Rattle.ldm_copy.specs.declared.fault.OpenFault.{OpenFault};
ghost use Rattle.ldm_copy.specs.declared.found.Found.{Found};
ghost use Rattle.ldm_found.specs.Facts.{LieOn};
ghost use Rattle.ldm_found.specs.Opening.{IsGroupIn};
ghost use Rattle.ldm_store.specs.Kept.{AlwaysKept, HoldsNone, HoldsNoneFor, HoldsEditable};
ghost use Rattle.ldm_store.specs.Turning.{IsBodyOnEach, AllSettled};
ghost use Rattle.ldm_store.specs.Healing.{HasNote};
ghost use Rattle.ldm_store.specs.Settling.{KeepsOneGroup, IsHandedFew, IsSettled, IsReady};
ghost use Rattle.ldm_store.specs.Settling.{HealsAll};

use crate::session::Session;
use crate::sharing::{healing_body, is_behind};
use ldm_body::{Body, refill, rewrite};
use ldm_found::{Found, Note, OpenError, find_group};
use ldm_host::{Failed, Host};
use ldm_label::Label;
use std::alloc::Global;

/// Syncs every disk, in their order. `Failed` comes only from a call of a disk. Whatever the
/// outcome, no disk is handed a byte, and a stop leaves at each moment what it could leave at the
/// start.
pub fn sync_all<H: Host>(host: &mut H) -> Result<(), Failed>
    ensures settled { OnOk result ((disk : ℕ) → disk < length (H.seen host.old).sizes
        → Settled (H.seen host.new) disk) }
    ensures settles { Settles (H.seen host.old) (H.seen host.new) }
    ensures cause { IsErr result → DiskFailed (H.seen host.old) (H.seen host.new) }
{
    for disk in 0..host.disks() {
        host.sync(disk)?;
    }
    Ok(())
}

// Rewrites a copy, of which it was noted whether it is closed.
fn heal<H: Host>(
    host: &mut H,
    disk: usize,
    label: &Label,
    note: Note,
    body: &Body,
) -> Result<(), Failed>
    requires disk { disk < length (H.seen host.old).sizes }
    requires fits { Fits label.now (slice_index (H.seen host.old).sizes disk) }
    requires body { (db : Database) × IsBodyOn db label.now body.now }
    requires settled { Settled (H.seen host.old) disk }
    requires noted { H.tells_disks → HasNote label.now (image (H.seen host.old).content disk) note }
    ensures { Rewrites H.tells_disks result disk label.now body.now (length body.now + 1)
        (H.seen host.old) (H.seen host.new) }
{
    match note {
        Note::Closed => refill(host, disk, label, body),
        Note::Sequence(_) => rewrite(host, disk, label, body),
    }
}

// Rewrites each copy of a group that is closed or of a lower sequence.
fn heal_all<H: Host>(host: &mut H, found: &Found, body: &Body) -> Result<(), Failed>
    requires lies { LieOn found.now.labels (H.seen host.old).sizes }
    requires one_note { length found.now.notes ≡ length found.now.labels }
    requires body { (db : Database) × IsBodyOnEach db found.now.labels body.now }
    requires exact { H.tells_disks → IsBodyOnEach found.now.db found.now.labels body.now }
    requires settled { AllSettled found.now.labels (H.seen host.old) }
    requires is { H.tells_disks → IsGroupIn (H.seen host.old).content (Result.Ok found.now) }
    ensures { HealsAll H.tells_disks result found.now body.now (H.seen host.old) (H.seen host.new) }
{
    let labels = found.labels.as_slice();
    let notes = found.notes.as_slice();
    let seq = found.db.header().seq;
    for disk in 0..labels.len() {
        let note = notes[disk];
        if is_behind(seq, note) {
            heal(host, disk, &labels[disk], note, body)?;
        }
    }
    Ok(())
}

// The body, where it is kept.
fn kept(body: Body, is_kept: bool) -> Option<Body>
    ensures { result ≡ if is_kept then Some body else None }
{
    if is_kept { Some(body) } else { None }
}

// The group of the disks, which may be edited, with the body to heal its copies with; and whether
// all others share it.
fn ready<H: Host>(alloc: Global, host: &mut H) -> Result<(Found, Body, bool), OpenError>
    requires { 0 < length (H.seen host.old).sizes }
    ensures ready { IfOk result (λ it. IsReady H.tells_disks (H.seen host.old) it.0 it.1 it.2) }
    ensures fault { H.tells_disks → (fault : OpenFault) → IsErrOf result (OpenError.Fault fault)
        → HoldsNoneFor fault (H.seen host.old).content }
    ensures looks { Looks (H.seen host.old) (H.seen host.new) (IsErrOf result OpenError.Disk) }
{
    let found = find_group(alloc, host)?;
    if let Some(fault) = found.blocked {
        return Err(OpenError::Fault(fault));
    }
    let (body, shared) = healing_body(alloc, host, &found)?;
    Ok((found, body, shared))
}

// Finds the group of disks on which nothing is pending, and rewrites each copy that is closed or of
// a lower sequence.
fn settle_synced<H: Host>(alloc: Global, host: &mut H) -> Result<Session, OpenError>
    requires images { 0 < length (H.seen host.old).sizes }
    requires synced { (disk : ℕ) → disk < length (H.seen host.old).sizes
        → Settled (H.seen host.old) disk }
    // From here on a stop leaves images that hold that one group, whatever is answered.
    ensures kept { H.tells_disks → (found : Found)
        → IsGroupIn (H.seen host.old).content (Result.Ok found) → found.blocked ≡ None
        → AlwaysKept found.labels found.db found.db (H.seen host.old) (H.seen host.new) }
    ensures written { H.tells_disks → Settles (H.seen host.old) (H.seen host.new)
        ⊎ HoldsEditable (H.seen host.old).content }
    ensures session { IfOk result (λ session. IsSettled H.tells_disks
        (H.seen host.old).content session (H.seen host.new)) }
    ensures fault { H.tells_disks → (fault : OpenFault) → IsErrOf result (OpenError.Fault fault)
        → HoldsNoneFor fault (H.seen host.old).content }
    ensures unwritten { IfErr result (λ error. error ≢ OpenError.Disk
        → Settles (H.seen host.old) (H.seen host.new)) }
    ensures handed { H.tells_disks → (found : Found)
        → IsGroupIn (H.seen host.old).content (Result.Ok found)
        → IsHandedFew found (H.seen host.old).wrote (H.seen host.new).wrote }
    ensures works { Works (H.seen host.old) (H.seen host.new) (IsErrOf result OpenError.Disk) }
{
    let (found, body, shared) = ready(alloc, host)?;
    let Ok(()) = heal_all(host, &found, &body) else {
        return Err(OpenError::Disk);
    };
    Ok(Session::of(found, kept(body, shared)))
}

/// Makes the group of the disks ready to be edited: syncs every disk, finds the group, and rewrites
/// each copy that is closed or of a lower sequence, in the order of the disks, with the group's
/// database: with the body that all other copies share, or with a new one. A copy that needs none
/// of this is handed no byte. Anything may be pending before. All memory is taken before the first
/// write.
///
/// A fault is one of those of `find_group`, or the reason that blocks editing; `Disk` comes only
/// where a call of a disk failed. After a `Fault` and after `NoMemory` nothing was written, nor
/// after `Disk` where there is no group that may be edited.
pub fn settle<H: Host>(alloc: Global, host: &mut H) -> Result<Session, OpenError>
    requires { 0 < length (H.seen host.old).sizes }
    // Until the syncs are over a stop leaves what it could leave before; from then on, images that
    // hold one group.
    ensures any_moment { H.tells_disks → KeepsOneGroup (H.seen host.old) (H.seen host.new)
        (IsErrOf result OpenError.Disk) }
    // The session is that of the group which the disks held, and they hold it now.
    ensures session { IfOk result (λ session. IsSettled H.tells_disks
        (H.seen host.old).content session (H.seen host.new)) }
    ensures fault { H.tells_disks → (fault : OpenFault) → IsErrOf result (OpenError.Fault fault)
        → HoldsNoneFor fault (H.seen host.old).content }
    // Where the disks hold no group that may be edited, they are synced and handed no byte,
    // whatever the answer.
    ensures untouched { H.tells_disks → HoldsNone (H.seen host.old).content
        → Settles (H.seen host.old) (H.seen host.new) }
    ensures unwritten { IfErr result (λ error. error ≢ OpenError.Disk
        → Settles (H.seen host.old) (H.seen host.new)) }
    // A disk is handed bytes only where its copy is behind, and then those of a body, and one more.
    ensures handed { H.tells_disks → (found : Found)
        → IsGroupIn (H.seen host.old).content (Result.Ok found)
        → IsHandedFew found (H.seen host.old).wrote (H.seen host.new).wrote }
    ensures works { Works (H.seen host.old) (H.seen host.new) (IsErrOf result OpenError.Disk) }
{
    let Ok(()) = sync_all(host) else {
        return Err(OpenError::Disk);
    };
    settle_synced(alloc, host)
}
