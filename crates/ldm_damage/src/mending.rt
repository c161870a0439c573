//! Labels that are mended.
ghost use Rattle.std.specs.Prelude.{◌≡◌, ◌≢◌, ◌+◌, ◌*◌, ◌<◌, ◌≤◌, ◌∷◌, [], ℕ, List, Err, false};
ghost use Rattle.std.specs.Prelude.{length, slice_index, IfOk, OnOk, IsErrOf, IfSome, if◌then◌else◌};
ghost use Rattle.ldm_host.specs.Moves.{Looks};
ghost use Rattle.ldm_host.specs.Seen.{image};
ghost use Rattle.ldm_label.specs.Fields.{sector, is_protective};
ghost use Rattle.ldm_label.specs.LabelOf.{label_of, Fits};
ghost use Rattle.ldm_view.specs.Patches.{laid, patched};
ghost use Rattle.ldm_damage.specs.Looked.{Looked};
ghost use Rattle.ldm_damage.specs.Mending.{is_left, lacks_header, tries, with_mbr};
ghost use Rattle.ldm_damage.specs.Trying.{AddsPatches, IsTried, IsMended, headed};

use crate::error::DamageError;
use crate::labels::label_shown;
use ldm_host::Host;
use ldm_label::{Label, LabelFault, is_protective};
use ldm_view::{Patch, Patched};
use std::alloc::Global;

/// The label of an image as it is mended, or its first fault, and the fault that was mended.
#[derive(Clone, Copy)]
pub(crate) struct Mended {
    pub label: Result<Label, LabelFault>,
    pub fault: Option<LabelFault>,
}

// Copy 1 of the private header has one of its own five faults.
fn lacks_header(fault: LabelFault) -> bool
    ensures { result ≡ lacks_header (Err fault) }
{
    match fault {
        LabelFault::NoPrivhead
        | LabelFault::Version
        | LabelFault::DatabaseSize
        | LabelFault::Range
        | LabelFault::Guid => true,
        _ => false,
    }
}

// Shows these bytes of a disk.
fn show_bytes<H: Host>(
    under: &mut Patched<H>,
    disk: usize,
    at: u64,
    bytes: Vec<u8>,
) -> Result<(), DamageError>
    requires disk { disk < length (H.seen under.old.host).sizes }
    requires range { at + length bytes.items
        ≤ 512 * slice_index (H.seen under.old.host).sizes disk }
    ensures here { OnOk result ((i : List ℕ) → patched under.new.patches.items disk i
        ≡ laid (patched under.old.patches.items disk i) at bytes.items) }
    ensures adds { AddsPatches disk under.old.patches.items under.new.patches.items }
    ensures host { under.new.host ≡ under.old.host }
    ensures memory { IsErrOf result DamageError.Disk → ⊥ }
{
    under.show(Patch { disk, at, bytes })?;
    Ok(())
}

// Shows the MBR of a disk as that of an LDM disk.
fn show_mbr<H: Host>(alloc: Global, under: &mut Patched<H>, disk: usize) -> Result<(), DamageError>
    requires disk { disk < length (H.seen under.old.host).sizes }
    requires room { 7 ≤ slice_index (H.seen under.old.host).sizes disk }
    ensures here { OnOk result ((i : List ℕ) → patched under.new.patches.items disk i
        ≡ with_mbr (patched under.old.patches.items disk i)) }
    ensures adds { AddsPatches disk under.old.patches.items under.new.patches.items }
    ensures host { under.new.host ≡ under.old.host }
    ensures memory { IsErrOf result DamageError.Disk → ⊥ }
{
    let kind = Vec::from_array(alloc, [0x42u8])?;
    let signature = Vec::from_array(alloc, [0x55u8, 0xAA])?;
    show_bytes(under, disk, 0x1C2, kind)?;
    show_bytes(under, disk, 0x1FE, signature)
}

// Shows the bytes of a sector of the host in place of copy 1 of the private header.
fn show_header<H: Host>(
    alloc: Global,
    under: &mut Patched<H>,
    disk: usize,
    from: u64,
) -> Result<(), DamageError>
    requires disk { disk < length (H.seen under.old.host).sizes }
    requires room { 7 ≤ slice_index (H.seen under.old.host).sizes disk }
    requires from { from < slice_index (H.seen under.old.host).sizes disk }
    ensures here { H.tells_disks → OnOk result ((i : List ℕ)
        → patched under.new.patches.items disk i
        ≡ laid (patched under.old.patches.items disk i) (512 * 6)
        (sector (image (H.seen under.old.host).content disk) from)) }
    ensures adds { AddsPatches disk under.old.patches.items under.new.patches.items }
    ensures looks { Looks (H.seen under.old.host) (H.seen under.new.host)
        (IsErrOf result DamageError.Disk) }
{
    let sectors = under.host.sectors(disk);
    // The sector lies on the disk, so its place fits its type.
    prove!(from < sectors);
    let mut header = [0u8; 512];
    under.read_under(disk, 512 * from, &mut header)?;
    let bytes = Vec::from_array(alloc, header)?;
    show_bytes(under, disk, 512 * 6, bytes)
}

// Tries a sector of the host in place of copy 1 of the private header: its label, where it has one.
fn try_header<H: Host>(
    alloc: Global,
    mut under: Patched<H>,
    disk: usize,
    from: u64,
) -> (Patched<H>, Result<Option<Label>, DamageError>)
    requires disk { disk < length (H.seen under.host).sizes }
    requires room { 7 ≤ slice_index (H.seen under.host).sizes disk }
    requires from { from < slice_index (H.seen under.host).sizes disk }
    ensures is { H.tells_disks → IfOk result.1 (λ found.
        let whole = image (H.seen under.host).content disk in
        let before = patched under.patches.items disk whole in
        IsTried (laid before (512 * 6) (sector whole from) ∷ []) before found
        (patched result.0.patches.items disk whole)) }
    ensures fits { IfOk result.1 (λ found. IfSome found (λ label.
        Fits label (slice_index (H.seen under.host).sizes disk))) }
    ensures adds { AddsPatches disk under.patches.items result.0.patches.items }
    ensures looked { Looked (H.seen under.host) (H.seen result.0.host)
        (IsErrOf result.1 DamageError.Disk) }
{
    let patches = under.patches.len();
    if let Err(error) = show_header(alloc, &mut under, disk, from) {
        return (under, Err(error));
    }
    let (mut under, found) = label_shown(alloc, under, disk);
    let label = match found {
        Ok(label) => label,
        Err(error) => return (under, Err(error)),
    };
    match label {
        Ok(label) => (under, Ok(Some(label))),
        Err(_) => {
            under.keep(patches);
            (under, Ok(None))
        }
    }
}

// Tries copies 3 and 2 of the private header, where they are of a database that ends with the disk.
fn try_headers<H: Host>(
    alloc: Global,
    under: Patched<H>,
    disk: usize,
) -> (Patched<H>, Result<Option<Label>, DamageError>)
    requires disk { disk < length (H.seen under.host).sizes }
    requires room { 2055 ≤ slice_index (H.seen under.host).sizes disk }
    ensures is { H.tells_disks → IfOk result.1 (λ found.
        let whole = image (H.seen under.host).content disk in
        let before = patched under.patches.items disk whole in
        IsTried (headed before whole) before found
        (patched result.0.patches.items disk whole)) }
    ensures fits { IfOk result.1 (λ found. IfSome found (λ label.
        Fits label (slice_index (H.seen under.host).sizes disk))) }
    ensures adds { AddsPatches disk under.patches.items result.0.patches.items }
    ensures looked { Looked (H.seen under.host) (H.seen result.0.host)
        (IsErrOf result.1 DamageError.Disk) }
{
    let sectors = under.host.sectors(disk);
    let (under, found) = try_header(alloc, under, disk, sectors - 1);
    let label = match found {
        Ok(label) => label,
        Err(error) => return (under, Err(error)),
    };
    match label {
        Some(label) => (under, Ok(Some(label))),
        None => try_header(alloc, under, disk, sectors - 192),
    }
}

// Tries the copies of the private header, where that is what a label lacks that has this fault.
fn try_lacking<H: Host>(
    alloc: Global,
    under: Patched<H>,
    disk: usize,
    fault: LabelFault,
) -> (Patched<H>, Result<Option<Label>, DamageError>)
    requires disk { disk < length (H.seen under.host).sizes }
    requires room { 2055 ≤ slice_index (H.seen under.host).sizes disk }
    ensures is { H.tells_disks → IfOk result.1 (λ found.
        let whole = image (H.seen under.host).content disk in
        let before = patched under.patches.items disk whole in
        IsTried (if lacks_header (Err fault) then headed before whole else []) before found
        (patched result.0.patches.items disk whole)) }
    ensures fits { IfOk result.1 (λ found. IfSome found (λ label.
        Fits label (slice_index (H.seen under.host).sizes disk))) }
    ensures adds { AddsPatches disk under.patches.items result.0.patches.items }
    ensures looked { Looked (H.seen under.host) (H.seen result.0.host)
        (IsErrOf result.1 DamageError.Disk) }
{
    if lacks_header(fault) {
        return try_headers(alloc, under, disk);
    }
    (under, Ok(None))
}

// Tries what the label of a disk without patches may be mended by: the label that it has then, if
// any. Without one, the MBR is still shown as it was tried.
fn try_label<H: Host>(
    alloc: Global,
    mut under: Patched<H>,
    disk: usize,
) -> (Patched<H>, Result<Option<Label>, DamageError>)
    requires disk { disk < length (H.seen under.host).sizes }
    requires room { 2055 ≤ slice_index (H.seen under.host).sizes disk }
    requires plain { (i : List ℕ) → patched under.patches.items disk i ≡ i }
    ensures is { H.tells_disks → IfOk result.1 (λ found.
        let whole = image (H.seen under.host).content disk in
        IsTried (tries whole) (with_mbr whole) found (patched result.0.patches.items disk whole)) }
    ensures fits { IfOk result.1 (λ found. IfSome found (λ label.
        Fits label (slice_index (H.seen under.host).sizes disk))) }
    ensures adds { AddsPatches disk under.patches.items result.0.patches.items }
    ensures looked { Looked (H.seen under.host) (H.seen result.0.host)
        (IsErrOf result.1 DamageError.Disk) }
{
    if let Err(error) = show_mbr(alloc, &mut under, disk) {
        return (under, Err(error));
    }
    let (under, found) = label_shown(alloc, under, disk);
    let label = match found {
        Ok(label) => label,
        Err(error) => return (under, Err(error)),
    };
    match label {
        Ok(label) => (under, Ok(Some(label))),
        Err(fault) => try_lacking(alloc, under, disk, fault),
    }
}

// That a disk has a protective MBR.
fn has_protective_mbr<H: Host>(under: &mut Patched<H>, disk: usize) -> Result<bool, DamageError>
    requires disk { disk < length (H.seen under.old.host).sizes }
    requires room { 7 ≤ slice_index (H.seen under.old.host).sizes disk }
    ensures is { H.tells_disks → IfOk result (λ protective. protective
        ≡ is_protective (sector (image (H.seen under.old.host).content disk) 0)) }
    ensures patches { under.new.patches.items ≡ under.old.patches.items }
    ensures looks { Looks (H.seen under.old.host) (H.seen under.new.host)
        (IsErrOf result DamageError.Disk) }
{
    let mut mbr = [0u8; 512];
    under.read_under(disk, 0, &mut mbr)?;
    Ok(is_protective(&mbr))
}

// Mends the label of an MBR disk without patches, which has this fault.
fn mend_mbr_disk<H: Host>(
    alloc: Global,
    under: Patched<H>,
    disk: usize,
    fault: LabelFault,
) -> (Patched<H>, Result<Mended, DamageError>)
    requires disk { disk < length (H.seen under.host).sizes }
    requires room { 2055 ≤ slice_index (H.seen under.host).sizes disk }
    requires plain { (i : List ℕ) → patched under.patches.items disk i ≡ i }
    ensures is { H.tells_disks → IfOk result.1 (λ m.
        label_of (image (H.seen under.host).content disk) ≡ Err fault
        → is_left (image (H.seen under.host).content disk) ≡ false
        → IsMended (image (H.seen under.host).content disk) m
        (patched result.0.patches.items disk (image (H.seen under.host).content disk))) }
    ensures fits { IfOk result.1 (λ m. IfOk m.label (λ label.
        Fits label (slice_index (H.seen under.host).sizes disk))) }
    ensures others { IfOk result.1 (λ m. (d : ℕ) (i : List ℕ) → d ≢ disk
        → patched result.0.patches.items d i ≡ patched under.patches.items d i) }
    ensures looked { Looked (H.seen under.host) (H.seen result.0.host)
        (IsErrOf result.1 DamageError.Disk) }
{
    let patches = under.patches.len();
    let (mut under, found) = try_label(alloc, under, disk);
    let label = match found {
        Ok(label) => label,
        Err(error) => return (under, Err(error)),
    };
    match label {
        Some(label) => {
            let mended = Mended {
                label: Ok(label),
                fault: Some(fault),
            };
            (under, Ok(mended))
        }
        None => {
            under.keep(patches);
            let left = Mended {
                label: Err(fault),
                fault: None,
            };
            (under, Ok(left))
        }
    }
}

// Mends the label of a disk without patches, which has this fault.
fn mend_fault<H: Host>(
    alloc: Global,
    mut under: Patched<H>,
    disk: usize,
    fault: LabelFault,
) -> (Patched<H>, Result<Mended, DamageError>)
    requires disk { disk < length (H.seen under.host).sizes }
    requires plain { (i : List ℕ) → patched under.patches.items disk i ≡ i }
    ensures is { H.tells_disks → IfOk result.1 (λ m.
        label_of (image (H.seen under.host).content disk) ≡ Err fault
        → IsMended (image (H.seen under.host).content disk) m
        (patched result.0.patches.items disk (image (H.seen under.host).content disk))) }
    ensures fits { IfOk result.1 (λ m. IfOk m.label (λ label.
        Fits label (slice_index (H.seen under.host).sizes disk))) }
    ensures others { IfOk result.1 (λ m. (d : ℕ) (i : List ℕ) → d ≢ disk
        → patched result.0.patches.items d i ≡ patched under.patches.items d i) }
    ensures looked { Looked (H.seen under.host) (H.seen result.0.host)
        (IsErrOf result.1 DamageError.Disk) }
{
    let left = Mended {
        label: Err(fault),
        fault: None,
    };
    let sectors = under.host.sectors(disk);
    if sectors < 2055 {
        return (under, Ok(left));
    }
    match has_protective_mbr(&mut under, disk) {
        Ok(true) => (under, Ok(left)),
        Ok(false) => mend_mbr_disk(alloc, under, disk, fault),
        Err(error) => (under, Err(error)),
    }
}

/// Mends the label of a disk without patches, where it has a fault: from then on the disk is shown
/// with the label that it has then. A label that can't be mended is left as it is.
pub(crate) fn mend<H: Host>(
    alloc: Global,
    under: Patched<H>,
    disk: usize,
) -> (Patched<H>, Result<Mended, DamageError>)
    requires disk { disk < length (H.seen under.host).sizes }
    requires plain { (i : List ℕ) → patched under.patches.items disk i ≡ i }
    ensures is { H.tells_disks → IfOk result.1 (λ m.
        IsMended (image (H.seen under.host).content disk) m
        (patched result.0.patches.items disk (image (H.seen under.host).content disk))) }
    ensures fits { IfOk result.1 (λ m. IfOk m.label (λ label.
        Fits label (slice_index (H.seen under.host).sizes disk))) }
    ensures others { IfOk result.1 (λ m. (d : ℕ) (i : List ℕ) → d ≢ disk
        → patched result.0.patches.items d i ≡ patched under.patches.items d i) }
    ensures looked { Looked (H.seen under.host) (H.seen result.0.host)
        (IsErrOf result.1 DamageError.Disk) }
{
    let (under, found) = label_shown(alloc, under, disk);
    let label = match found {
        Ok(label) => label,
        Err(error) => return (under, Err(error)),
    };
    match label {
        Ok(label) => {
            let left = Mended {
                label: Ok(label),
                fault: None,
            };
            (under, Ok(left))
        }
        Err(fault) => mend_fault(alloc, under, disk, fault),
    }
}
