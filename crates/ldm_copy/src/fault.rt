//! What is wrong with the images of a group.
use crate::answer::CopyFault;
use ldm_group::RuleFault;
use ldm_label::LabelFault;

/// What is wrong with the images of a group. Images are counted from 0; of several the least is
/// named.
///
/// The faults up to `Rule` say why there is no group, in the order in which they are looked for.
/// From `Absent` on they say why a group that was found may not be edited, again in their order.
#[derive(Clone, Copy, PartialEq, Eq)]
pub enum OpenFault {
    /// The image has no label.
    Label(usize, LabelFault),
    /// Two images are of one disk.
    SameDisk(usize, usize),
    /// The image's open copy has a fault.
    Copy(usize, CopyFault),
    /// No image has an open copy.
    NoCopy,
    /// The first image with the greatest sequence, and the first that has another group at it.
    Split(usize, usize),
    /// The image is of a disk that the group doesn't have.
    Stranger(usize),
    /// The group breaks this rule.
    Rule(RuleFault),
    /// No image is of the disk with this id.
    Absent(u64),
    /// There are fewer than two images.
    FewDisks,
    /// The image's config area is too small for the database.
    AreaSmall(usize),
    /// The image's config area may have a table of contents or a private header in it, or meets the
    /// log area.
    AreaClash(usize),
}
