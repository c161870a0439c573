//! The text of each fault of opening a group.
ghost use Rattle.std.specs.Prelude.{◌≡◌, ◌++◌, IfOk, codes, decimal};
ghost use Rattle.ldm_text.specs.Texts.{text_of_label_fault, text_of_image_fault};
ghost use Rattle.ldm_text.specs.Records.{text_of_copy_fault};
ghost use Rattle.ldm_look.specs.Opening.{text_of_images, text_of_open_fault};

use ldm_bytes::{Bytes, NoMemory};
use ldm_copy::{CopyFault, OpenFault};
use ldm_group::RuleFault;
use ldm_label::LabelFault;
use ldm_text::{Text, copy_fault_text, image_fault_text, label_fault_text, push_number, said_text};
use std::alloc::Global;

// image I: the fault of its label
fn no_label_text(alloc: Global, image: usize, fault: LabelFault) -> Result<Bytes, NoMemory>
    ensures { IfOk result (λ text. text ≡ text_of_image_fault image (text_of_label_fault fault)) }
{
    let fault = label_fault_text(alloc, fault)?;
    image_fault_text(alloc, image, fault.as_slice())
}

// image I: the fault of its copy
fn bad_copy_text(alloc: Global, image: usize, fault: CopyFault) -> Result<Bytes, NoMemory>
    ensures { IfOk result (λ text. text ≡ text_of_image_fault image (text_of_copy_fault fault)) }
{
    let fault = copy_fault_text(alloc, fault)?;
    image_fault_text(alloc, image, fault.as_slice())
}

// images I and J, and what is said of them
fn images_text(alloc: Global, i: usize, j: usize, said: &[u8]) -> Result<Bytes, NoMemory>
    ensures { IfOk result (λ text. text ≡ text_of_images i j said.now) }
{
    let mut text = Text::new(alloc);
    push_number(&mut text, b"images ", i as u64)?;
    push_number(&mut text, b" and ", j as u64)?;
    text.push(said)?;
    Ok(text.into_bytes())
}

// rule R at ID
fn rule_text(alloc: Global, fault: RuleFault) -> Result<Bytes, NoMemory>
    ensures { IfOk result (λ text. text ≡ codes "rule " ++ decimal fault.rule ++ codes " at "
        ++ decimal fault.id) }
{
    let mut text = Text::new(alloc);
    push_number(&mut text, b"rule ", u64::from(fault.rule))?;
    push_number(&mut text, b" at ", fault.id)?;
    Ok(text.into_bytes())
}

/// The text of a fault of a group.
pub fn fault_text(alloc: Global, fault: &OpenFault) -> Result<Bytes, NoMemory>
    ensures { IfOk result (λ text. text ≡ text_of_open_fault fault.now) }
{
    match *fault {
        OpenFault::Label(image, fault) => no_label_text(alloc, image, fault),
        OpenFault::SameDisk(i, j) => images_text(alloc, i, j, b" are one disk"),
        OpenFault::Copy(image, fault) => bad_copy_text(alloc, image, fault),
        OpenFault::NoCopy => Bytes::from_slice(alloc, b"no open copy"),
        OpenFault::Split(i, j) => images_text(alloc, i, j, b" differ at one sequence"),
        OpenFault::Stranger(i) => said_text(alloc, b"image ", i as u64, b" is not of the group"),
        OpenFault::Rule(fault) => rule_text(alloc, fault),
        OpenFault::Absent(id) => said_text(alloc, b"disk ", id, b" is absent"),
        OpenFault::FewDisks => Bytes::from_slice(alloc, b"fewer than two disks"),
        OpenFault::AreaSmall(image) => image_fault_text(alloc, image, b"area too small"),
        OpenFault::AreaClash(image) => image_fault_text(alloc, image, b"area clash"),
    }
}
