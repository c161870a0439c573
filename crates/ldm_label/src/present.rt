//! Which image is that of a disk.
ghost use Rattle.std.specs.Prelude.{◌≡◌, option_copied, option_and_then, slice_get};
ghost use Rattle.ldm_label.specs.Present.{image_with, label_with};

use crate::Label;

/// The first image of the disk with this GUID, `None` where the disk is absent.
pub fn image_with(labels: &[Label], guid: u128) -> Option<usize>
    ensures { result ≡ image_with guid labels.now }
{
    labels.iter().position(|label| label.disk_guid == guid)
}

/// The label of the first image of the disk with this GUID.
pub fn label_with(labels: &[Label], guid: u128) -> Option<&Label>
    ensures is { option_copied result ≡ label_with guid labels.now }
    ensures at { label_with guid labels.now
        ≡ option_and_then (λ image. slice_get labels.now image) (image_with guid labels.now) }
{
    labels.iter().find(|label| label.disk_guid == guid)
}
