//! The body that the copies share which aren't behind.
ghost use Rattle.std.specs.Prelude.{◌≡◌, ◌*◌, ◌<◌, ◌≤◌, ℕ, IsTrue, true, false, Result, Option};
ghost use Rattle.std.specs.Prelude.{Some, None, length, slice_index, slice_get, IfOk, IfSome};
ghost use Rattle.std.specs.Prelude.{IsErrOf};
ghost use Rattle.ldm_host.specs.Moves.{Looks};
ghost use Rattle.ldm_host.specs.Seen.{image};
ghost use Rattle.ldm_label.specs.declared.Label.{Label};
ghost use Rattle.ldm_label.specs.LabelOf.{Fits};
ghost use Rattle.ldm_body.specs.Body.{IsBodyOf};
ghost use Rattle.ldm_body.specs.Table.{body_bytes, IsCoreBody};
ghost use Rattle.ldm_copy.specs.declared.fault.OpenFault.{OpenFault};
ghost use Rattle.ldm_copy.specs.declared.notes.Note.{Note};
ghost use Rattle.ldm_found.specs.Facts.{LieOn, IsSoundGroup};
ghost use Rattle.ldm_found.specs.Opening.{IsGroupIn};
ghost use Rattle.ldm_store.specs.Healing.{is_behind};
ghost use Rattle.ldm_store.specs.Bodies.{IsBegunBut, IsTidyBut, LacksBody, KeepsBody, LosesBody};
ghost use Rattle.ldm_store.specs.Bodies.{ShareNone};

use ldm_body::{Body, BodyError, body_of, read_body};
use ldm_found::{Found, Note, OpenError};
use ldm_group::Db;
use ldm_host::Host;
use ldm_label::Label;
use std::alloc::Global;

// The copy is closed, or of a lower sequence than this.
pub(crate) fn is_behind(seq: u64, note: Note) -> bool
    ensures { result ≡ is_behind seq note }
{
    match note {
        Note::Closed => true,
        Note::Sequence(held) => held < seq,
    }
}

// Whether the copy on a disk has this body.
fn has_body<H: Host>(
    alloc: Global,
    host: &mut H,
    disk: usize,
    label: &Label,
    db: &Db,
    body: &Body,
) -> Result<bool, BodyError>
    requires disk { disk < length (H.seen host.old).sizes }
    requires fits { Fits label.now (slice_index (H.seen host.old).sizes disk) }
    requires low { 4 ≤ db.now.header.last }
    requires room { db.now.header.last ≤ 4 * label.now.area_sectors }
    ensures yes { H.tells_disks → IfOk result (λ has. IsTrue has
        → body.now ≡ body_bytes db.now label.now (image (H.seen host.old).content disk)) }
    ensures no { H.tells_disks → IfOk result (λ has. has ≡ false
        → LacksBody db.now label.now body.now (image (H.seen host.old).content disk)) }
    ensures looks { Looks (H.seen host.old) (H.seen host.new) (IsErrOf result BodyError.Disk) }
{
    let found = read_body(alloc, host, disk, label, db)?;
    match &found {
        Some(other) => Ok(body.same(other)),
        None => Ok(false),
    }
}

// Whether the copy on a disk is behind, or has this body.
fn keeps_body<H: Host>(
    alloc: Global,
    host: &mut H,
    disk: usize,
    label: &Label,
    note: Note,
    seq: u64,
    db: &Db,
    body: &Body,
) -> Result<bool, BodyError>
    requires disk { disk < length (H.seen host.old).sizes }
    requires fits { Fits label.now (slice_index (H.seen host.old).sizes disk) }
    requires low { 4 ≤ db.now.header.last }
    requires room { db.now.header.last ≤ 4 * label.now.area_sectors }
    ensures yes { H.tells_disks → IfOk result (λ keeps. IsTrue keeps → is_behind seq note ≡ false
        → body.now ≡ body_bytes db.now label.now (image (H.seen host.old).content disk)) }
    ensures no { H.tells_disks → IfOk result (λ keeps. keeps ≡ false → (is_behind seq note ≡ false)
        × LacksBody db.now label.now body.now (image (H.seen host.old).content disk)) }
    ensures looks { Looks (H.seen host.old) (H.seen host.new) (IsErrOf result BodyError.Disk) }
{
    if is_behind(seq, note) {
        return Ok(true);
    }
    has_body(alloc, host, disk, label, db, body)
}

// Whether the copies that aren't behind all have this body.
fn all_have<H: Host>(
    alloc: Global,
    host: &mut H,
    labels: &[Label],
    notes: &[Note],
    seq: u64,
    db: &Db,
    body: &Body,
) -> Result<bool, BodyError>
    requires lie { LieOn labels.now (H.seen host.old).sizes }
    requires one_note { length notes.now ≡ length labels.now }
    requires low { 4 ≤ db.now.header.last }
    requires room { (disk : ℕ) (label : Label) → slice_get labels.now disk ≡ Some label
        → db.now.header.last ≤ 4 * label.area_sectors }
    ensures yes { H.tells_disks → IfOk result (λ all. IsTrue all → (disk : ℕ)
        → disk < length labels.now
        → KeepsBody seq labels.now notes.now db.now body.now (H.seen host.old).content disk) }
    ensures no { H.tells_disks → IfOk result (λ all. all ≡ false
        → LosesBody seq labels.now notes.now db.now body.now (H.seen host.old).content) }
    ensures looks { Looks (H.seen host.old) (H.seen host.new) (IsErrOf result BodyError.Disk) }
{
    for disk in 0..labels.len() {
        if !keeps_body(alloc, host, disk, &labels[disk], notes[disk], seq, db, body)? {
            return Ok(false);
        }
    }
    Ok(true)
}

// The first copy that is neither closed nor of a lower sequence than this.
fn first_ahead(seq: u64, notes: &[Note]) -> Option<usize>
    ensures found { (disk : ℕ) → result ≡ Some disk
        → (note : Note) × (slice_get notes.now disk ≡ Some note)
        × (is_behind seq note ≡ false) }
    ensures none { result ≡ None → (disk : ℕ) (note : Note) → slice_get notes.now disk ≡ Some note
        → is_behind seq note ≡ true }
{
    for disk in 0..notes.len() {
        if !is_behind(seq, notes[disk]) {
            return Some(disk);
        }
    }
    None
}

// The body that the copies share which aren't behind, where they share one.
fn shared_body<H: Host>(
    alloc: Global,
    host: &mut H,
    labels: &[Label],
    notes: &[Note],
    seq: u64,
    db: &Db,
) -> Result<Option<Body>, BodyError>
    requires lie { LieOn labels.now (H.seen host.old).sizes }
    requires one_note { length notes.now ≡ length labels.now }
    requires low { 4 ≤ db.now.header.last }
    requires room { (disk : ℕ) (label : Label) → slice_get labels.now disk ≡ Some label
        → db.now.header.last ≤ 4 * label.area_sectors }
    ensures core { IfOk result (λ body. IfSome body (IsCoreBody db.now)) }
    ensures keep { H.tells_disks → IfOk result (λ body. IfSome body
        (λ bytes. (disk : ℕ) → disk < length labels.now
        → KeepsBody seq labels.now notes.now db.now bytes (H.seen host.old).content disk)) }
    ensures none { H.tells_disks → IfOk result (λ body. body ≡ None
        → ShareNone seq labels.now notes.now db.now (H.seen host.old).content) }
    ensures looks { Looks (H.seen host.old) (H.seen host.new) (IsErrOf result BodyError.Disk) }
{
    let Some(first) = first_ahead(seq, notes) else {
        return Ok(None);
    };
    let Some(body) = read_body(alloc, host, first, &labels[first], db)? else {
        return Ok(None);
    };
    if !all_have(alloc, host, labels, notes, seq, db, &body)? {
        return Ok(None);
    }
    Ok(Some(body))
}

/// The body to heal copies with: that which all others share, or the one that is made of the group;
/// and whether it is shared.
pub fn healing_body<H: Host>(
    alloc: Global,
    host: &mut H,
    found: &Found,
) -> Result<(Body, bool), OpenError>
    requires sound { IsSoundGroup found.now }
    requires unblocked { found.now.blocked ≡ None }
    requires lies { LieOn found.now.labels (H.seen host.old).sizes }
    requires is { H.tells_disks → IsGroupIn (H.seen host.old).content (Result.Ok found.now) }
    ensures core { IfOk result (λ one. IsCoreBody found.now.db one.0) }
    ensures exact { H.tells_disks → IfOk result (λ one. IsBodyOf found.now.db one.0) }
    ensures shared { H.tells_disks → IfOk result (λ one. one.1 ≡ true
        → IsBegunBut found.now (H.seen host.old).content one.0) }
    ensures alone { H.tells_disks → IfOk result (λ one. one.1 ≡ false
        → IsTidyBut found.now (H.seen host.old).content → ⊥) }
    ensures faultless { (fault : OpenFault) → IsErrOf result (OpenError.Fault fault) → ⊥ }
    ensures looks { Looks (H.seen host.old) (H.seen host.new) (IsErrOf result OpenError.Disk) }
{
    let seq = found.db.header().seq;
    let labels = found.labels.as_slice();
    match shared_body(alloc, host, labels, found.notes.as_slice(), seq, &found.db) {
        Ok(Some(body)) => Ok((body, true)),
        Ok(None) => Ok((body_of(alloc, &found.db)?, false)),
        Err(BodyError::Disk) => Err(OpenError::Disk),
        Err(BodyError::NoMemory) => Err(OpenError::NoMemory),
    }
}
