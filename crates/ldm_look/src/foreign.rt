//! What an image without LDM is: a container of a virtual disk or of evidence, by the bytes that it
//! begins with, or a GPT disk.
ghost use Rattle.std.specs.Prelude.{◌≡◌};
ghost use Rattle.ldm_look.specs.Foreign.{is_gpt, foreign_of, lacks_ldm, format_word};
ghost use Rattle.ldm_look.specs.Foreign.{text_of_foreign};

use ldm_label::LabelFault;

/// A format of images, or of disks, that isn't LDM's.
#[derive(Clone, Copy)]
pub enum Foreign {
    Qcow2,
    Vmdk,
    Vhd,
    Vhdx,
    /// The Expert Witness Format of evidence.
    Ewf,
    Gpt,
}

// The first entry of the partition table is the one that stands for a GPT.
#[tactic(auto, unfolding(crate::specs::Foreign::is_gpt))]
fn is_gpt(first: &[u8; 512]) -> bool
    ensures { result ≡ is_gpt first.now }
{
    first[0x1FE] == 0x55 && first[0x1FF] == 0xAA && first[0x1C2] == 0xEE
}

/// What the first sector shows an image to be.
#[tactic(auto, unfolding(crate::specs::Foreign::foreign_of))]
pub(crate) fn foreign_of(first: &[u8; 512]) -> Option<Foreign>
    ensures { result ≡ foreign_of first.now }
{
    if &first[0..4] == b"QFI\xfb".as_slice() {
        Some(Foreign::Qcow2)
    } else if &first[0..4] == b"KDMV".as_slice() {
        Some(Foreign::Vmdk)
    } else if &first[0..8] == b"conectix".as_slice() {
        Some(Foreign::Vhd)
    } else if &first[0..8] == b"vhdxfile".as_slice() {
        Some(Foreign::Vhdx)
    } else if &first[0..3] == b"EVF".as_slice() {
        Some(Foreign::Ewf)
    } else if is_gpt(first) {
        Some(Foreign::Gpt)
    } else {
        None
    }
}

/// The fault is that the image isn't a disk of LDM's at all.
pub(crate) fn lacks_ldm(fault: LabelFault) -> bool
    ensures { result ≡ lacks_ldm fault }
{
    matches!(
        fault,
        LabelFault::NoSignature | LabelFault::NoLdmEntry | LabelFault::NoMetadata
    )
}

/// The format's name for a script.
pub(crate) fn format_word(foreign: Foreign) -> &'static str
    ensures { result.now ≡ format_word foreign }
{
    match foreign {
        Foreign::Qcow2 => "qcow2",
        Foreign::Vmdk => "vmdk",
        Foreign::Vhd => "vhd",
        Foreign::Vhdx => "vhdx",
        Foreign::Ewf => "ewf",
        Foreign::Gpt => "gpt",
    }
}

/// What is said of such an image behind its fault.
pub(crate) fn foreign_text(foreign: Option<Foreign>) -> &'static [u8]
    ensures { result.now ≡ text_of_foreign foreign }
{
    match foreign {
        None => b"",
        Some(Foreign::Qcow2) => b": a QCOW2 container",
        Some(Foreign::Vmdk) => b": a VMDK container",
        Some(Foreign::Vhd) => b": a VHD container",
        Some(Foreign::Vhdx) => b": a VHDX container",
        Some(Foreign::Ewf) => b": an EWF container",
        Some(Foreign::Gpt) => b": a GPT disk",
    }
}
