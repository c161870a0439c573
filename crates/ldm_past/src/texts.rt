//! The lines that say what is damaged.
ghost use Rattle.std.specs.Prelude.{◌≡◌, ◌++◌, OnOk, IfOk, flat_map};
ghost use Rattle.std.specs.List.{enumerate_from};
ghost use Rattle.ldm_past.specs.PastAnswer.{text_of_mended, text_of_passed, text_of_damage};
ghost use Rattle.ldm_past.specs.PastAnswer.{text_of_damages};
ghost use Rattle.ldm_look.specs.Check.{text_of_check};

use ldm_bytes::{Bytes, NoMemory};
use ldm_copy::{CopyFault, Found};
use ldm_damage::Damage;
use ldm_label::LabelFault;
use ldm_look::said_check;
use ldm_text::{Text, copy_fault_text, label_fault_text, push_number};
use ldm_words::Format;
use std::alloc::Global;

// image I mended: FAULT
fn push_mended(
    alloc: Global,
    text: &mut Text,
    image: usize,
    fault: Option<LabelFault>,
) -> Result<(), NoMemory>
    ensures { OnOk result (text.new ≡ text.old ++ text_of_mended image fault) }
{
    let Some(fault) = fault else {
        return Ok(());
    };
    let fault = label_fault_text(alloc, fault)?;
    push_number(text, b"image ", image as u64)?;
    text.push(b" mended: ")?;
    text.push(fault.as_slice())?;
    text.push(b"\n")
}

// image I passed over: FAULT
fn push_passed(
    alloc: Global,
    text: &mut Text,
    image: usize,
    fault: Option<CopyFault>,
) -> Result<(), NoMemory>
    ensures { OnOk result (text.new ≡ text.old ++ text_of_passed image fault) }
{
    let Some(fault) = fault else {
        return Ok(());
    };
    let fault = copy_fault_text(alloc, fault)?;
    push_number(text, b"image ", image as u64)?;
    text.push(b" passed over: ")?;
    text.push(fault.as_slice())?;
    text.push(b"\n")
}

// What is damaged on an image.
fn push_damage(alloc: Global, text: &mut Text, image: usize, damage: Damage) -> Result<(), NoMemory>
    ensures { OnOk result (text.new ≡ text.old ++ text_of_damage (image, damage)) }
{
    push_mended(alloc, text, image, damage.label)?;
    push_passed(alloc, text, image, damage.copy)
}

// What is damaged, image by image.
fn push_damages(alloc: Global, text: &mut Text, damages: &[Damage]) -> Result<(), NoMemory>
    ensures { OnOk result (text.new ≡ text.old ++ text_of_damages damages.now) }
{
    for (image, damage) in damages.iter().enumerate() {
        push_damage(alloc, text, image, *damage)?;
    }
    Ok(())
}

/// The text of what is damaged, and of what each image holds past that.
pub(crate) fn past_check_text(
    alloc: Global,
    damages: &[Damage],
    found: &Found,
) -> Result<Bytes, NoMemory>
    ensures { IfOk result (λ text. text ≡ text_of_damages damages.now ++ text_of_check found.now) }
{
    let mut text = Text::new(alloc);
    push_damages(alloc, &mut text, damages)?;
    let checked = said_check(alloc, &Format::Lines, &[], found)?;
    text.push(checked.as_slice())?;
    Ok(text.into_bytes())
}
