//! What is found of images, each by a read of its disk alone.
ghost use Rattle.std.specs.Prelude.{◌≡◌, ◌≢◌, ◌+◌, ◌<◌, ◌≤◌, ◌++◌, ◌∷◌, [], ℕ, List, Ok, length};
ghost use Rattle.std.specs.Prelude.{false, true, IfOk, OnOk, IsErrOf};
ghost use Rattle.ldm_host.specs.Seen.{image};
ghost use Rattle.ldm_host.specs.Moves.{Quiet, Still};
ghost use Rattle.ldm_look.specs.Scan.{IsScanned};
ghost use Rattle.ldm_look.specs.declared.scanning.ScanError.TheVariants as ScanError;
ghost use Rattle.ldm_scan.specs.declared.finding.Finding.{Finding};
ghost use Rattle.ldm_scan.specs.declared.finding.Finding.TheVariants as finds;
ghost use Rattle.ldm_host.specs.Failed.{failed_since, fails_on};
ghost use Rattle.ldm_scan.specs.Findings.{disks_of, opened_count, IsDiskFinding, IsFinding, AreFindings};

use crate::finding::Finding;
use crate::lone::{Lone, Start};
use ldm_bytes::{Bytes, NoMemory};
use ldm_host::Host;
use ldm_look::{ScanError, Scanned, scan_image};
use std::alloc::Global;
use std::marker::Brand;

// What is found of a disk, by whether a read of it failed, and else by its scan.
fn finding_of(is_unread: bool, scanned: Result<Scanned, ScanError>) -> Result<Finding, NoMemory>
    requires { IsErrOf scanned ScanError.Disk → is_unread ≡ true }
    ensures { (bytes : List ℕ) → IfOk scanned (IsScanned bytes)
        → IfOk result (IsDiskFinding is_unread bytes) }
{
    if is_unread {
        return Ok(Finding::Unread);
    }
    match scanned {
        Ok(scanned) => Ok(Finding::Known(scanned)),
        Err(_) => Err(NoMemory),
    }
}

// What is found of a disk.
fn scan_in<H: Host, S: Start>(alloc: Global, host: H, disk: usize) -> (H, Result<Finding, NoMemory>)
    requires start { Still S.start (H.seen host) }
    requires account { (H.seen host).failed ≡ S.start.failed }
    requires chosen { disk ≡ S.chosen }
    requires there { disk < length (H.seen host).sizes }
    ensures is { H.tells_disks → IfOk result.1
        (IsDiskFinding (fails_on disk (failed_since S.start (H.seen result.0)))
        (image (H.seen host).content disk)) }
    ensures others { H.tells_disks → (other : ℕ) → other ≢ disk
        → fails_on other (failed_since S.start (H.seen result.0)) ≡ false }
    ensures still { ∥ Still S.start (H.seen result.0) ∥₁ }
    ensures quiet { Quiet (H.seen host) (H.seen result.0) }
{
    let mut lone = Lone::<H, S>::new(host, disk);
    let scanned = scan_image(alloc, &mut lone, 0);
    let finding = finding_of(lone.is_unread(), scanned);
    (lone.into_host(), finding)
}

// Of an image that didn't open its cause is known.
fn unopened(alloc: Global, cause: &Bytes) -> Result<Finding, NoMemory>
    ensures { IfOk result (λ finding. finding ≡ finds.Unopened cause.now) }
{
    Ok(Finding::Unopened(cause.clone_in(alloc)?))
}

// What is found of the image of this cause, which would be this disk.
fn scan_next<H: Host>(
    alloc: Global,
    cause: &Option<Bytes>,
    host: H,
    disk: usize,
) -> (H, Result<Finding, NoMemory>)
    requires { disk + disks_of cause.now ≤ length (H.seen host).sizes }
    ensures is { H.tells_disks → IfOk result.1
        (IsFinding (failed_since (H.seen host) (H.seen result.0))
        (H.seen host).content disk cause.now) }
    ensures earlier { H.tells_disks → (other : ℕ) → other < disk
        → fails_on other (failed_since (H.seen host) (H.seen result.0)) ≡ false }
    ensures later { H.tells_disks → (other : ℕ) → disk + disks_of cause.now ≤ other
        → fails_on other (failed_since (H.seen host) (H.seen result.0)) ≡ false }
    ensures still { ∥ Still (H.seen host) (H.seen result.0) ∥₁ }
    ensures quiet { Quiet (H.seen host) (H.seen result.0) }
{
    match cause {
        None => scan_in::<H, Brand>(alloc, host, disk),
        Some(cause) => (host, unopened(alloc, cause)),
    }
}

// How many disks an image of this cause is.
fn disks_of(cause: &Option<Bytes>) -> usize
    ensures { result ≡ disks_of cause.now }
{
    match cause {
        None => 1,
        Some(_) => 0,
    }
}

// Notes what is found of the next image.
fn note(findings: &mut Vec<Finding>, found: Result<Finding, NoMemory>) -> Result<(), NoMemory>
    ensures noted { OnOk result (IfOk found (λ finding. findings.new.items
        ≡ findings.old.items ++ finding ∷ [])) }
    ensures found { OnOk result ((finding : Finding) × (found ≡ Ok finding)) }
{
    findings.push(found?)?;
    Ok(())
}

/// What is found of the images of these causes, of which those that opened are the disks of the
/// host, in their order. The host comes back.
pub(crate) fn scan_each<H: Host>(
    alloc: Global,
    causes: &[Option<Bytes>],
    host: H,
) -> (H, Result<Vec<Finding>, NoMemory>)
    requires { opened_count causes.now ≡ length (H.seen host).sizes }
    ensures is { H.tells_disks → IfOk result.1 (λ findings.
        AreFindings (failed_since (H.seen host) (H.seen result.0)) (H.seen host).content 0
        causes.now findings.items) }
    ensures still { ∥ Still (H.seen host) (H.seen result.0) ∥₁ }
    ensures quiet { Quiet (H.seen host) (H.seen result.0) }
{
    let disks = host.disks();
    let mut left = disks;
    let mut host = host;
    let mut findings = Vec::new(alloc);
    for cause in causes {
        let (next, found) = scan_next(alloc, cause, host, disks - left);
        host = next;
        if let Err(error) = note(&mut findings, found) {
            return (host, Err(error));
        }
        left -= disks_of(cause);
    }
    (host, Ok(findings))
}
