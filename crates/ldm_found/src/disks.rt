//! The labels of several images, no two of which may be of one disk.
ghost use Rattle.std.specs.Prelude.{◌<◌, length, slice_index, IfOk, IsErrOf, Some};
ghost use Rattle.ldm_host.specs.Seen.{image};
ghost use Rattle.ldm_host.specs.Moves.{Looks};
ghost use Rattle.ldm_label.specs.LabelOf.{Fits};
ghost use Rattle.ldm_found.specs.Labels.{AreApart, AreTwins};
ghost use Rattle.ldm_found.specs.Facts.{LieOn};
ghost use Rattle.ldm_found.specs.Steps.{ReadsLabel, ReadsLabels, ReadsDisks};

use crate::fault::OpenError;
use ldm_copy::OpenFault;
use ldm_host::Host;
use ldm_label::{Label, LabelError, Labels, image_with, read_label};
use std::alloc::Global;

// The label of one image.
fn label_at<H: Host>(host: &mut H, disk: usize) -> Result<Label, OpenError>
    requires { disk < length (H.seen host.old).sizes }
    ensures is { H.tells_disks → ReadsLabel disk (image (H.seen host.old).content disk) result }
    ensures fits { IfOk result (λ label. Fits label (slice_index (H.seen host.old).sizes disk)) }
    ensures looks { Looks (H.seen host.old) (H.seen host.new) (IsErrOf result OpenError.Disk) }
{
    match read_label(host, disk) {
        Ok(label) => Ok(label),
        Err(LabelError::Fault(fault)) => Err(OpenError::Fault(OpenFault::Label(disk, fault))),
        Err(LabelError::Disk) => Err(OpenError::Disk),
    }
}

// The labels of all images, or the first fault.
fn read_labels<H: Host>(alloc: Global, host: &mut H) -> Result<Labels, OpenError>
    ensures is { H.tells_disks → ReadsLabels (H.seen host.old).content result }
    ensures lie { IfOk result (λ labels. LieOn labels (H.seen host.old).sizes) }
    ensures looks { Looks (H.seen host.old) (H.seen host.new) (IsErrOf result OpenError.Disk) }
{
    let count = host.disks();
    let mut labels = Vec::new(alloc);
    for disk in 0..count {
        labels.push(label_at(host, disk)?)?;
    }
    Ok(Labels::from_vec(labels))
}

/// The first image whose disk a later image is of too, and the first such image.
pub fn twins(labels: &[Label]) -> Option<(usize, usize)>
    ensures { AreTwins labels.now result }
{
    for (i, label) in labels.iter().enumerate() {
        if let Some(j) = image_with(&labels[i + 1..], label.disk_guid) {
            return Some((i, i + 1 + j));
        }
    }
    None
}

/// The labels of all images, where no two are of one disk, or the first fault.
pub fn read_disks<H: Host>(alloc: Global, host: &mut H) -> Result<Labels, OpenError>
    ensures is { H.tells_disks → ReadsDisks (H.seen host.old).content result }
    ensures apart { IfOk result (λ labels. AreApart labels) }
    ensures lie { IfOk result (λ labels. LieOn labels (H.seen host.old).sizes) }
    ensures looks { Looks (H.seen host.old) (H.seen host.new) (IsErrOf result OpenError.Disk) }
{
    let labels = read_labels(alloc, host)?;
    match twins(labels.as_slice()) {
        Some((image, other)) => Err(OpenError::Fault(OpenFault::SameDisk(image, other))),
        None => Ok(labels),
    }
}
