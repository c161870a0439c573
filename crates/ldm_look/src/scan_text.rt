//! What is said of images that were scanned.
ghost use Rattle.std.specs.Prelude.{◌≡◌, ◌++◌, OnOk, IfOk, flat_map, map, codes};
ghost use Rattle.std.specs.List.{enumerate_from};
ghost use Rattle.std.specs.Option.{option_map};
ghost use Rattle.json.specs.Tree.{json_tokens};
ghost use Rattle.ldm_look.specs.declared.scanned.Scanned.TheVariants as Scanned;
ghost use Rattle.ldm_json.specs.Values.{line_of_json};
ghost use Rattle.ldm_look.specs.Scan.{text_of_its_disk, text_of_membership, text_of_scanned};
ghost use Rattle.ldm_look.specs.Scan.{line_of_scanned, text_of_scan, refused_json, scanned_json};
ghost use Rattle.ldm_look.specs.Scan.{scan_jsons, scan_json};
ghost use Rattle.ldm_look.specs.Foreign.{format_word, text_of_foreign};
ghost use Rattle.ldm_look.specs.LabelJson.{style_word};

use crate::foreign::{Foreign, foreign_text, format_word};
use crate::label_json::style_word;
use crate::optional::name_in;
use crate::scanned::{Membership, Scanned};
use ldm_bytes::{Bytes, NoMemory};
use ldm_json::{Json, Scalar};
use ldm_label::Style;
use ldm_text::{
    Part, Text, copy_fault_text, label_fault_text, push_named, push_number, push_parts,
};
use ldm_words::Paths;
use std::alloc::Global;

// The disk of a group.
fn push_its_disk(text: &mut Text, disk: &Option<Bytes>) -> Result<(), NoMemory>
    ensures { OnOk result (text.new ≡ text.old ++ text_of_its_disk disk.now) }
{
    match disk {
        None => text.push(b" no disk "),
        Some(name) => {
            let parts = [
                Part::Word(b" disk "),
                Part::Name(name.as_slice()),
                Part::Word(b" "),
            ];
            push_parts(text, &parts)
        }
    }
}

// The group of an image, and its disk.
#[tactic(auto, unfolding(crate::specs::Scan::text_of_membership))]
fn push_membership(text: &mut Text, m: &Membership) -> Result<(), NoMemory>
    ensures { OnOk result (text.new ≡ text.old ++ text_of_membership m.now) }
{
    push_named(text, b" group ", m.group.as_slice(), m.group_guid)?;
    push_its_disk(text, &m.disk)?;
    text.push_guid(m.disk_guid)?;
    push_number(text, b" sequence ", m.seq)?;
    text.push(b"\n")
}

// refused: REASON, what the image is, and the end of the line
fn push_refused(text: &mut Text, fault: &[u8], foreign: Option<Foreign>) -> Result<(), NoMemory>
    ensures { OnOk result (text.new ≡ text.old
        ++ (codes " refused: " ++ (fault.now ++ (text_of_foreign foreign ++ codes "\n")))) }
{
    let parts = [
        Part::Word(b" refused: "),
        Part::Word(fault),
        Part::Word(foreign_text(foreign)),
        Part::Word(b"\n"),
    ];
    push_parts(text, &parts)
}

// What follows image I.
fn push_scanned(alloc: Global, text: &mut Text, scanned: &Scanned) -> Result<(), NoMemory>
    ensures { OnOk result (text.new ≡ text.old ++ text_of_scanned scanned.now) }
{
    match scanned {
        Scanned::BadLabel(fault, foreign) => {
            let fault = label_fault_text(alloc, *fault)?;
            push_refused(text, fault.as_slice(), *foreign)
        }
        Scanned::BadCopy(_, fault) => {
            let fault = copy_fault_text(alloc, *fault)?;
            push_refused(text, fault.as_slice(), None)
        }
        Scanned::Closed(_, disk) => {
            let parts = [
                Part::Word(b" closed disk "),
                Part::Guid(*disk),
                Part::Word(b"\n"),
            ];
            push_parts(text, &parts)
        }
        Scanned::Open(m) => push_membership(text, m),
    }
}

/// Appends the line of an image that was scanned, which has this number.
pub fn push_scanned_line(
    alloc: Global,
    text: &mut Text,
    image: usize,
    scanned: &Scanned,
) -> Result<(), NoMemory>
    ensures { OnOk result (text.new ≡ text.old ++ line_of_scanned (image, scanned.now)) }
{
    push_number(text, b"image ", image as u64)?;
    push_scanned(alloc, text, scanned)
}

/// A line for each image.
pub(crate) fn scan_text(alloc: Global, scanned: &[Scanned]) -> Result<Bytes, NoMemory>
    ensures { IfOk result (λ text. text ≡ text_of_scan scanned.now) }
{
    let mut text = Text::new(alloc);
    for (image, one) in scanned.iter().enumerate() {
        push_scanned_line(alloc, &mut text, image, one)?;
    }
    Ok(text.into_bytes())
}

// The name of a format.
fn maybe_word(foreign: Option<Foreign>) -> Option<&'static str>
    ensures { option_map (λ word. word.now) result ≡ option_map format_word foreign }
{
    match foreign {
        Some(foreign) => Some(format_word(foreign)),
        None => None,
    }
}

fn maybe_style(style: Option<Style>) -> Option<&'static str>
    ensures { option_map (λ word. word.now) result ≡ option_map style_word style }
{
    match style {
        Some(style) => Some(style_word(style)),
        None => None,
    }
}

// The object of an image that is refused.
fn push_refused_json<'a>(
    json: &mut Json,
    paths: &'a Paths,
    image: usize,
    fault: &'a [u8],
    foreign: Option<Foreign>,
    style: Option<Style>,
) -> Result<(), NoMemory>
    ensures { OnOk result (json.new
        ≡ json.old ++ json_tokens (refused_json paths.now image fault.now foreign style)) }
{
    let fields = [
        ("image", Scalar::Number(image as u64)),
        ("path", Scalar::MaybeWord(paths.get(image))),
        ("state", Scalar::Word("refused")),
        ("group", Scalar::Null),
        ("group_guid", Scalar::Null),
        ("disk", Scalar::Null),
        ("disk_guid", Scalar::Null),
        ("sequence", Scalar::Null),
        ("reason", Scalar::Said(fault)),
        ("format", Scalar::MaybeWord(maybe_word(foreign))),
        ("partition_style", Scalar::MaybeWord(maybe_style(style))),
    ];
    json.object(&fields)
}

// The object of an image whose copy is closed.
fn push_closed_json(
    json: &mut Json,
    paths: &Paths,
    image: usize,
    style: Style,
    disk: u128,
) -> Result<(), NoMemory>
    ensures { OnOk result (json.new
        ≡ json.old ++ json_tokens (scanned_json paths.now (image, Scanned.Closed style disk))) }
{
    let fields = [
        ("image", Scalar::Number(image as u64)),
        ("path", Scalar::MaybeWord(paths.get(image))),
        ("state", Scalar::Word("closed")),
        ("group", Scalar::Null),
        ("group_guid", Scalar::Null),
        ("disk", Scalar::Null),
        ("disk_guid", Scalar::Guid(disk)),
        ("sequence", Scalar::Null),
        ("reason", Scalar::Null),
        ("format", Scalar::Null),
        ("partition_style", Scalar::Word(style_word(style))),
    ];
    json.object(&fields)
}

// The object of an image of a group.
fn push_open_json<'a>(
    json: &mut Json,
    paths: &'a Paths,
    image: usize,
    m: &'a Membership,
) -> Result<(), NoMemory>
    ensures { OnOk result (json.new
        ≡ json.old ++ json_tokens (scanned_json paths.now (image, Scanned.Open m.now))) }
{
    let fields = [
        ("image", Scalar::Number(image as u64)),
        ("path", Scalar::MaybeWord(paths.get(image))),
        ("state", Scalar::Word("open")),
        ("group", Scalar::Name(m.group.as_slice())),
        ("group_guid", Scalar::Guid(m.group_guid)),
        ("disk", Scalar::MaybeName(name_in(&m.disk))),
        ("disk_guid", Scalar::Guid(m.disk_guid)),
        ("sequence", Scalar::Number(m.seq)),
        ("reason", Scalar::Null),
        ("format", Scalar::Null),
        ("partition_style", Scalar::Word(style_word(m.style))),
    ];
    json.object(&fields)
}

/// Appends the object of an image that was scanned, which has this number and of the paths the one
/// at that place.
pub fn push_scanned_json(
    alloc: Global,
    json: &mut Json,
    paths: &Paths,
    image: usize,
    scanned: &Scanned,
) -> Result<(), NoMemory>
    ensures { OnOk result (json.new
        ≡ json.old ++ json_tokens (scanned_json paths.now (image, scanned.now))) }
{
    match scanned {
        Scanned::BadLabel(fault, foreign) => {
            let fault = label_fault_text(alloc, *fault)?;
            push_refused_json(json, paths, image, fault.as_slice(), *foreign, None)
        }
        Scanned::BadCopy(style, fault) => {
            let fault = copy_fault_text(alloc, *fault)?;
            push_refused_json(json, paths, image, fault.as_slice(), None, Some(*style))
        }
        Scanned::Closed(style, disk) => push_closed_json(json, paths, image, *style, *disk),
        Scanned::Open(m) => push_open_json(json, paths, image, m),
    }
}

// The objects of all images.
fn push_all_json(
    alloc: Global,
    json: &mut Json,
    paths: &Paths,
    scanned: &[Scanned],
) -> Result<(), NoMemory>
    ensures { OnOk result (json.new
        ≡ json.old ++ flat_map json_tokens (scan_jsons paths.now scanned.now)) }
{
    for (image, one) in scanned.iter().enumerate() {
        push_scanned_json(alloc, json, paths, image, one)?;
    }
    Ok(())
}

/// An array with an object for each image, on a line.
pub(crate) fn scan_line(
    alloc: Global,
    paths: &Paths,
    scanned: &[Scanned],
) -> Result<Bytes, NoMemory>
    ensures { IfOk result (λ text. text ≡ line_of_json (scan_json paths.now scanned.now)) }
{
    let mut json = Json::new(alloc);
    json.begin_array()?;
    push_all_json(alloc, &mut json, paths, scanned)?;
    json.end_array()?;
    json.into_line()
}
