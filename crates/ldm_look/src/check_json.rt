//! The JSON of `check`.
ghost use Rattle.std.specs.Prelude.{◌≡◌, ◌++◌, OnOk, IfOk, flat_map, is_none, map, slice_get};
ghost use Rattle.std.specs.Option.{option_map};
ghost use Rattle.std.specs.List.{enumerate_from};
ghost use Rattle.json.specs.Tree.{json_tokens};
ghost use Rattle.ldm_json.specs.Values.{json_of, line_of_json};
ghost use Rattle.ldm_look.specs.CheckJson.{note_sequence, note_json, note_jsons, kind_json};
ghost use Rattle.ldm_look.specs.CheckJson.{reason_json, absent_jsons_at, absent_jsons, BeginsCheck};
ghost use Rattle.ldm_look.specs.CheckJson.{check_json};
ghost use Rattle.ldm_records.specs.declared.types.Record.TheVariants as kinds;

use crate::fault_json::kind_word;
use crate::opening::fault_text;
use ldm_bytes::{Bytes, NoMemory};
use ldm_copy::{Found, Note};
use ldm_json::{Json, Scalar};
use ldm_label::GoodCopies;
use ldm_records::{Disk, Record};
use ldm_words::Paths;
use std::alloc::Global;

fn note_sequence(note: &Note) -> Option<u64>
    ensures { result ≡ note_sequence note.now }
{
    match note {
        Note::Closed => None,
        Note::Sequence(seq) => Some(*seq),
    }
}

// How many private headers of an image are good.
fn headers_of(goods: &[GoodCopies], image: usize) -> Option<u64>
    ensures { result ≡ option_map (λ good. good.headers) (slice_get goods.now image) }
{
    match goods.get(image) {
        Some(good) => Some(good.headers),
        None => None,
    }
}

// How many tables of contents of an image are good.
fn tables_of(goods: &[GoodCopies], image: usize) -> Option<u64>
    ensures { result ≡ option_map (λ good. good.tables) (slice_get goods.now image) }
{
    match goods.get(image) {
        Some(good) => Some(good.tables),
        None => None,
    }
}

// What an image holds.
fn push_note(
    json: &mut Json,
    paths: &Paths,
    goods: &[GoodCopies],
    image: usize,
    note: &Note,
) -> Result<(), NoMemory>
    ensures { OnOk result (json.new
        ≡ json.old ++ json_tokens (note_json paths.now goods.now (image, note.now))) }
{
    let fields = [
        ("image", Scalar::Number(image as u64)),
        ("path", Scalar::MaybeWord(paths.get(image))),
        ("sequence", Scalar::Maybe(note_sequence(note))),
        ("headers", Scalar::Maybe(headers_of(goods, image))),
        ("tables", Scalar::Maybe(tables_of(goods, image))),
    ];
    json.object(&fields)
}

// What each image holds.
fn push_notes(
    json: &mut Json,
    paths: &Paths,
    goods: &[GoodCopies],
    notes: &[Note],
) -> Result<(), NoMemory>
    ensures { OnOk result (json.new
        ≡ json.old ++ flat_map json_tokens (note_jsons paths.now goods.now notes.now)) }
{
    for (image, note) in notes.iter().enumerate() {
        push_note(json, paths, goods, image, note)?;
    }
    Ok(())
}

// The disk, where it has no image.
fn push_absent(json: &mut Json, found: &Found, d: &Disk) -> Result<(), NoMemory>
    ensures { OnOk result (json.new ≡ json.old ++ flat_map json_tokens
        (absent_jsons_at found.now.labels (kinds.Disk d.now))) }
{
    if found.image_with(d.guid).is_some() {
        return Ok(());
    }
    let fields = [
        ("id", Scalar::Number(d.head.id)),
        ("name", Scalar::Name(d.head.name.as_slice())),
        ("guid", Scalar::Guid(d.guid)),
    ];
    json.object(&fields)
}

// All disks that have no image.
fn push_all_absent(json: &mut Json, found: &Found) -> Result<(), NoMemory>
    ensures { OnOk result (json.new ≡ json.old ++ flat_map json_tokens
        (absent_jsons found.now.labels found.now.db.records)) }
{
    for r in found.db.as_slice() {
        if let Record::Disk(d) = r {
            push_absent(json, found, d)?;
        }
    }
    Ok(())
}

fn is_editable(found: &Found) -> bool
    ensures { result ≡ is_none found.now.blocked }
{
    match &found.blocked {
        None => true,
        Some(_) => false,
    }
}

// The beginning, where these say why the group may not be edited.
fn begin_with<'a>(
    alloc: Global,
    paths: &Paths,
    goods: &[GoodCopies],
    found: &Found,
    kind: Scalar<'a>,
    reason: Scalar<'a>,
) -> Result<Json, NoMemory>
    requires kind { json_of kind ≡ kind_json found.now.blocked }
    requires reason { json_of reason ≡ reason_json found.now.blocked }
    ensures { IfOk result (λ json. BeginsCheck paths.now goods.now found.now json) }
{
    let fields = [
        ("editable", Scalar::Flag(is_editable(found))),
        ("kind", kind),
        ("reason", reason),
    ];
    let mut json = Json::new(alloc);
    json.open(&fields, "images")?;
    push_notes(&mut json, paths, goods, found.notes.as_slice())?;
    json.next("absent")?;
    push_all_absent(&mut json, found)?;
    Ok(json)
}

/// The beginning of the JSON of what each image holds, and of whether the group may be edited: an
/// object whose last member, an array, is open. Each image has as many good copies as these say.
pub fn begin_check(
    alloc: Global,
    paths: &Paths,
    goods: &[GoodCopies],
    found: &Found,
) -> Result<Json, NoMemory>
    ensures { IfOk result (λ json. BeginsCheck paths.now goods.now found.now json) }
{
    match &found.blocked {
        None => begin_with(alloc, paths, goods, found, Scalar::Null, Scalar::Null),
        Some(fault) => {
            let text = fault_text(alloc, fault)?;
            let kind = Scalar::Word(kind_word(fault));
            begin_with(
                alloc,
                paths,
                goods,
                found,
                kind,
                Scalar::Said(text.as_slice()),
            )
        }
    }
}

/// The JSON of what each image holds, and of whether the group may be edited, on a line.
pub(crate) fn check_line(
    alloc: Global,
    paths: &Paths,
    goods: &[GoodCopies],
    found: &Found,
) -> Result<Bytes, NoMemory>
    ensures { IfOk result (λ text. text
        ≡ line_of_json (check_json paths.now goods.now found.now)) }
{
    let mut json = begin_check(alloc, paths, goods, found)?;
    json.close()?;
    json.into_line()
}
