//! Counts the good copies on each image of a group.
ghost use Rattle.std.specs.Prelude.{◌≡◌, ◌<◌, length, IfOk, IfErr, IsErrOf, OnOk, Ok};
ghost use Rattle.ldm_host.specs.Moves.{Looks};
ghost use Rattle.ldm_copy.specs.declared.found.Found.{Found};
ghost use Rattle.ldm_found.specs.Opening.{IsGroupIn};
ghost use Rattle.ldm_found.specs.Facts.{LieOn};
ghost use Rattle.ldm_look.specs.CheckJson.{goods_of};
ghost use Rattle.ldm_look.specs.Looks.{AreCounted, IsFormattedAnswer};
ghost use Rattle.ldm_look.specs.Said.{Answer};
ghost use Rattle.ldm_look.specs.Runs.{OnlyReads};
ghost use Rattle.ldm_look.specs.declared.scanning.ScanError.TheVariants as ScanError;

use crate::looking::open_for;
use crate::scanning::ScanError;
use ldm_copy::Found;
use ldm_host::Host;
use ldm_label::{GoodCopies, Label, count_good};
use ldm_words::{Format, Status};
use std::alloc::Global;

// The good copies of each image.
fn count_goods<H: Host>(
    alloc: Global,
    host: &mut H,
    labels: &[Label],
) -> Result<Vec<GoodCopies>, ScanError>
    requires { LieOn labels.now (H.seen host.old).sizes }
    ensures is { H.tells_disks → IfOk result (λ goods. goods.items
        ≡ goods_of (H.seen host.old).content labels.now) }
    ensures looks { Looks (H.seen host.old) (H.seen host.new) (IsErrOf result ScanError.Disk) }
{
    let mut goods = Vec::new(alloc);
    for (disk, label) in labels.iter().enumerate() {
        goods.push(count_good(host, disk, label)?)?;
    }
    Ok(goods)
}

// The good copies of each image, where this format says them.
fn goods_for<H: Host>(
    alloc: Global,
    host: &mut H,
    format: &Format,
    labels: &[Label],
) -> Result<Vec<GoodCopies>, ScanError>
    requires { LieOn labels.now (H.seen host.old).sizes }
    ensures is { H.tells_disks → IfOk result (λ goods.
        AreCounted format.now (H.seen host.old).content labels.now goods.items) }
    ensures looks { Looks (H.seen host.old) (H.seen host.new) (IsErrOf result ScanError.Disk) }
{
    match format {
        Format::Lines => Ok(Vec::new(alloc)),
        Format::Json(_) => count_goods(alloc, host, labels),
    }
}

/// The group that the images hold, and the good copies of each image where this format says them,
/// and nothing was said; or how the run ends where they can't be had, when the refusal is said in
/// this format.
pub fn open_counted<H: Host>(
    alloc: Global,
    host: &mut H,
    format: &Format,
) -> Result<(Found, Vec<GoodCopies>), Status>
    requires { 0 < length (H.seen host.old).sizes }
    ensures found { H.tells_disks → IfOk result (λ opened. IsGroupIn
        (H.seen host.old).content (Ok opened.0)) }
    ensures counted { H.tells_disks → IfOk result (λ opened.
        AreCounted format.now (H.seen host.old).content opened.0.labels opened.1.items) }
    ensures looks { OnOk result (Looks (H.seen host.old) (H.seen host.new) ⊥) }
    ensures fault { IfErr result (λ status. (answer_of : Found → Answer)
        → OnlyReads H.tells_disks (H.seen host.old) (H.seen host.new)
        (IsFormattedAnswer format.now answer_of (H.seen host.old).content) status) }
{
    let found = match open_for(alloc, host, format) {
        Err(status) => return Err(status),
        Ok(found) => found,
    };
    match goods_for(alloc, host, format, found.labels.as_slice()) {
        Err(ScanError::Disk) => Err(Status::DiskFault),
        Err(ScanError::NoMemory) => Err(Status::NoMemory),
        Ok(goods) => Ok((found, goods)),
    }
}
