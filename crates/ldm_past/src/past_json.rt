//! The JSON of `check --past-damage`.
ghost use Rattle.std.specs.Prelude.{◌≡◌, ◌++◌, ◌&&◌, OnOk, IfOk, flat_map, is_none};
ghost use Rattle.std.specs.List.{enumerate_from};
ghost use Rattle.std.specs.Option.{option_map};
ghost use Rattle.json.specs.Tree.{json_tokens};
ghost use Rattle.ldm_json.specs.Values.{json_of, line_of_json};
ghost use Rattle.ldm_text.specs.Texts.{text_of_label_fault};
ghost use Rattle.ldm_text.specs.Records.{text_of_copy_fault};
ghost use Rattle.ldm_past.specs.PastAnswer.{maybe_said_json, damage_json, damage_jsons_at};
ghost use Rattle.ldm_past.specs.PastAnswer.{damage_jsons, past_check_json};

use ldm_bytes::{Bytes, NoMemory};
use ldm_copy::{CopyFault, Found};
use ldm_damage::Damage;
use ldm_json::{Json, Scalar};
use ldm_label::{GoodCopies, LabelFault};
use ldm_look::begin_check;
use ldm_text::{copy_fault_text, label_fault_text};
use ldm_words::Paths;
use std::alloc::Global;

// The text of a label's fault, if there is one.
fn mended_text(alloc: Global, fault: Option<LabelFault>) -> Result<Option<Bytes>, NoMemory>
    ensures { IfOk result (λ text. text ≡ option_map text_of_label_fault fault) }
{
    match fault {
        Some(fault) => Ok(Some(label_fault_text(alloc, fault)?)),
        None => Ok(None),
    }
}

// The text of a copy's fault, if there is one.
fn passed_text(alloc: Global, fault: Option<CopyFault>) -> Result<Option<Bytes>, NoMemory>
    ensures { IfOk result (λ text. text ≡ option_map text_of_copy_fault fault) }
{
    match fault {
        Some(fault) => Ok(Some(copy_fault_text(alloc, fault)?)),
        None => Ok(None),
    }
}

// A text as a value.
fn scalar_of(text: &Option<Bytes>) -> Scalar<'_>
    ensures { json_of result ≡ maybe_said_json text.now }
{
    match text {
        Some(text) => Scalar::Said(text.as_slice()),
        None => Scalar::Null,
    }
}

// An image, and what is damaged on it.
fn push_fields<'a>(
    json: &mut Json,
    paths: &'a Paths,
    image: usize,
    mended: &'a Option<Bytes>,
    passed_over: &'a Option<Bytes>,
) -> Result<(), NoMemory>
    ensures { OnOk result (json.new ≡ json.old
        ++ json_tokens (damage_json paths.now image mended.now passed_over.now)) }
{
    let fields = [
        ("image", Scalar::Number(image as u64)),
        ("path", Scalar::MaybeWord(paths.get(image))),
        ("mended", scalar_of(mended)),
        ("passed_over", scalar_of(passed_over)),
    ];
    json.object(&fields)
}

// What is damaged on an image, where something is.
fn push_damage(
    alloc: Global,
    json: &mut Json,
    paths: &Paths,
    image: usize,
    damage: Damage,
) -> Result<(), NoMemory>
    ensures { OnOk result (json.new ≡ json.old
        ++ flat_map json_tokens (damage_jsons_at paths.now (image, damage))) }
{
    if damage.label.is_none() && damage.copy.is_none() {
        return Ok(());
    }
    let mended = mended_text(alloc, damage.label)?;
    let passed_over = passed_text(alloc, damage.copy)?;
    push_fields(json, paths, image, &mended, &passed_over)
}

// What is damaged, image by image.
fn push_damages(
    alloc: Global,
    json: &mut Json,
    paths: &Paths,
    damages: &[Damage],
) -> Result<(), NoMemory>
    ensures { OnOk result (json.new ≡ json.old
        ++ flat_map json_tokens (damage_jsons paths.now damages.now)) }
{
    for (image, damage) in damages.iter().enumerate() {
        push_damage(alloc, json, paths, image, *damage)?;
    }
    Ok(())
}

/// The JSON of what each image holds past what is damaged, and of that, on a line.
pub(crate) fn past_check_line(
    alloc: Global,
    paths: &Paths,
    damages: &[Damage],
    goods: &[GoodCopies],
    found: &Found,
) -> Result<Bytes, NoMemory>
    ensures { IfOk result (λ text. text
        ≡ line_of_json (past_check_json paths.now damages.now goods.now found.now)) }
{
    let mut json = begin_check(alloc, paths, goods, found)?;
    json.next("damaged")?;
    push_damages(alloc, &mut json, paths, damages)?;
    json.close()?;
    json.into_line()
}
