//! What was damaged on images that were read past damage or repaired, with their paths.
use crate::saying::{path_of, say};
use ldm_bytes::NoMemory;
use ldm_copy::CopyFault;
use ldm_damage::Damage;
use ldm_label::LabelFault;
use ldm_text::{Part, Text, copy_fault_text, label_fault_text};
use std::alloc::Global;

// What is told of a damaged label, and of a damaged copy of the database.
struct Ways {
    label: &'static str,
    copy: &'static str,
}

const READ: Ways = Ways {
    label: "mended",
    copy: "passed over",
};

const REPAIRED: Ways = Ways {
    label: "has a label that repair doesn't mend",
    copy: "had a damaged copy",
};

const LEFT: Ways = Ways {
    label: "has a label that repair doesn't mend",
    copy: "has a damaged copy",
};

// Says this of an image, and a fault.
fn say_fault(
    alloc: Global,
    text: &mut Text,
    names: &[String],
    image: usize,
    way: &str,
    fault: &[u8],
) -> Result<(), NoMemory> {
    let path = path_of(alloc, names, image)?;
    let parts = [
        Part::Number(image as u64),
        Part::Word(path.as_bytes()),
        Part::Word(way.as_bytes()),
        Part::Word(fault),
    ];
    say(text, "ldm: image % (%) %: %\n", &parts)
}

// Says this of a label, where it has a fault.
fn say_label(
    alloc: Global,
    text: &mut Text,
    names: &[String],
    image: usize,
    way: &str,
    fault: Option<LabelFault>,
) -> Result<(), NoMemory> {
    let Some(fault) = fault else {
        return Ok(());
    };
    let fault = label_fault_text(alloc, fault)?;
    say_fault(alloc, text, names, image, way, fault.as_slice())
}

// Says this of a copy of the database, where it has a fault.
fn say_copy(
    alloc: Global,
    text: &mut Text,
    names: &[String],
    image: usize,
    way: &str,
    fault: Option<CopyFault>,
) -> Result<(), NoMemory> {
    let Some(fault) = fault else {
        return Ok(());
    };
    let fault = copy_fault_text(alloc, fault)?;
    say_fault(alloc, text, names, image, way, fault.as_slice())
}

// A line for each label and each copy of the database that is damaged.
fn text_of(
    alloc: Global,
    names: &[String],
    damages: &[Damage],
    ways: &Ways,
) -> Result<Text, NoMemory> {
    let mut text = Text::new(alloc);
    for (image, damage) in damages.iter().enumerate() {
        say_label(alloc, &mut text, names, image, ways.label, damage.label)?;
        say_copy(alloc, &mut text, names, image, ways.copy, damage.copy)?;
    }
    Ok(text)
}

/// A line for each label that was mended, and for each copy of the database that was passed over.
pub fn damage_text(alloc: Global, names: &[String], damages: &[Damage]) -> Result<Text, NoMemory> {
    text_of(alloc, names, damages, &READ)
}

/// A line for each label that is damaged, and for each copy of the database that was damaged before
/// a repair, which was done or left them as they were.
pub fn repair_text(
    alloc: Global,
    names: &[String],
    damages: &[Damage],
    done: bool,
) -> Result<Text, NoMemory> {
    text_of(alloc, names, damages, if done { &REPAIRED } else { &LEFT })
}
