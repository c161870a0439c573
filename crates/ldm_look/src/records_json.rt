//! The JSON of one copy of the database.
ghost use Rattle.std.specs.Prelude.{◌≡◌, ◌++◌, ◌∷◌, [], OnOk, IfOk, flat_map, map, codes};
ghost use Rattle.std.specs.Option.{option_map};
ghost use Rattle.json.specs.Tree.{json_tokens};
ghost use Rattle.ldm_copy.specs.declared.answer.CopyState.TheVariants as states;
ghost use Rattle.ldm_json.specs.Values.{json_array, json_member, json_object, line_of_json};
ghost use Rattle.ldm_text.specs.Records.{type_of};
ghost use Rattle.ldm_look.specs.RecordsJson.{kind_text, record_head, carried_guid, group_members};
ghost use Rattle.ldm_look.specs.RecordsJson.{alternative_name, disk_members, volume_members};
ghost use Rattle.ldm_look.specs.RecordsJson.{component_members, partition_members, own_members};
ghost use Rattle.ldm_look.specs.RecordsJson.{record_json, records_json};

use crate::optional::{chunk_of, columns_of, name_in};
use ldm_bytes::{Bytes, NoMemory};
use ldm_copy::CopyState;
use ldm_group::{Db, own_len};
use ldm_json::{Json, Scalar};
use ldm_records::{
    Component, Disk, DiskForm, GroupForm, GroupRec, Head, Partition, Record, TwoIds, Volume,
};
use ldm_text::guid_of;
use std::alloc::Global;

fn kind_text(r: &Record) -> &'static str
    ensures { result.now ≡ kind_text r.now }
{
    match r {
        Record::Group(_) => "group",
        Record::Disk(_) => "disk",
        Record::Volume(_) => "volume",
        Record::Component(_) => "component",
        Record::Partition(_) => "partition",
    }
}

fn type_of(r: &Record) -> &'static str
    ensures { result.now ≡ type_of r.now }
{
    match r {
        Record::Volume(_) => "vol5",
        Record::Component(_) => "cmp3",
        Record::Partition(_) => "prt3",
        Record::Disk(d) => match d.form {
            DiskForm::V3 { .. } => "dsk3",
            DiskForm::V4 { .. } => "dsk4",
        },
        Record::Group(g) => match g.form {
            GroupForm::V3 { .. } => "dgr3",
            GroupForm::V4 { .. } => "dgr4",
        },
    }
}

fn head_of(r: &Record) -> &Head
    ensures { result.now ≡ record_head r.now }
{
    match r {
        Record::Group(g) => &g.head,
        Record::Disk(d) => &d.head,
        Record::Volume(v) => &v.head,
        Record::Component(c) => &c.head,
        Record::Partition(p) => &p.head,
    }
}

// The text that the group of version 3 has for its GUID.
fn carried_guid(form: &GroupForm) -> Option<&[u8]>
    ensures { option_map (λ text. text.now) result ≡ carried_guid form.now }
{
    match form {
        GroupForm::V3 { guid, .. } => Some(guid.as_slice()),
        GroupForm::V4 { .. } => None,
    }
}

fn first_id(ids: &Option<TwoIds>) -> Option<&[u8]>
    ensures { option_map (λ text. text.now) result ≡ option_map (λ two. two.first) ids.now }
{
    match ids {
        Some(ids) => Some(ids.first.as_slice()),
        None => None,
    }
}

fn second_id(ids: &Option<TwoIds>) -> Option<&[u8]>
    ensures { option_map (λ text. text.now) result ≡ option_map (λ two. two.second) ids.now }
{
    match ids {
        Some(ids) => Some(ids.second.as_slice()),
        None => None,
    }
}

// The object of a group record, which begins with what all records have.
fn push_group(json: &mut Json, common: &[(&str, Scalar)], g: &GroupRec) -> Result<(), NoMemory>
    ensures { OnOk result (json.new ≡ json.old ++ json_tokens (json_object
        (map json_member common.now ++ group_members g.now))) }
{
    let own = [
        ("guid", Scalar::MaybeName(carried_guid(&g.form))),
        ("id1", Scalar::MaybeName(first_id(&g.ids))),
        ("id2", Scalar::MaybeName(second_id(&g.ids))),
    ];
    json.object_of_both(common, &own)
}

// The other name of a disk, which version 3 of its record has.
fn alternative_name(form: &DiskForm) -> Option<&[u8]>
    ensures { option_map (λ text. text.now) result ≡ alternative_name form.now }
{
    match form {
        DiskForm::V3 { alt, .. } => Some(alt.as_slice()),
        DiskForm::V4 { .. } => None,
    }
}

// The object of a disk record.
fn push_disk(json: &mut Json, common: &[(&str, Scalar)], d: &Disk) -> Result<(), NoMemory>
    ensures { OnOk result (json.new ≡ json.old ++ json_tokens (json_object
        (map json_member common.now ++ disk_members d.now))) }
{
    let own = [
        ("guid", Scalar::Guid(d.guid)),
        (
            "alternative_name",
            Scalar::MaybeName(alternative_name(&d.form)),
        ),
    ];
    json.object_of_both(common, &own)
}

// The object of a volume record.
fn push_volume(json: &mut Json, common: &[(&str, Scalar)], v: &Volume) -> Result<(), NoMemory>
    ensures { OnOk result (json.new ≡ json.old ++ json_tokens (json_object
        (map json_member common.now ++ volume_members v.now))) }
{
    let own = [
        ("volume_kind", Scalar::Name(v.kind.as_slice())),
        ("second", Scalar::Name(v.second.as_slice())),
        ("children", Scalar::Number(v.children)),
        ("size", Scalar::Number(v.size)),
        ("partition_type", Scalar::Number(u64::from(v.part_type))),
        ("guid", Scalar::Guid(guid_of(v))),
        ("id1", Scalar::MaybeName(name_in(&v.id1))),
        ("id2", Scalar::MaybeName(name_in(&v.id2))),
        ("size2", Scalar::Maybe(v.size2)),
        ("drive_hint", Scalar::MaybeName(name_in(&v.hint))),
    ];
    json.object_of_both(common, &own)
}

// The object of a component record.
fn push_component(json: &mut Json, common: &[(&str, Scalar)], c: &Component) -> Result<(), NoMemory>
    ensures { OnOk result (json.new ≡ json.old ++ json_tokens (json_object
        (map json_member common.now ++ component_members c.now))) }
{
    let own = [
        ("state", Scalar::Name(c.state.as_slice())),
        ("layout_type", Scalar::Number(u64::from(c.layout))),
        ("children", Scalar::Number(c.children)),
        ("parent", Scalar::Number(c.parent)),
        ("stripe_size", Scalar::Maybe(chunk_of(c.striping))),
        ("columns", Scalar::Maybe(columns_of(c.striping))),
    ];
    json.object_of_both(common, &own)
}

// The object of a partition record.
fn push_partition(json: &mut Json, common: &[(&str, Scalar)], p: &Partition) -> Result<(), NoMemory>
    ensures { OnOk result (json.new ≡ json.old ++ json_tokens (json_object
        (map json_member common.now ++ partition_members p.now))) }
{
    let own = [
        ("start", Scalar::Number(p.start)),
        ("volume_offset", Scalar::Number(p.offset)),
        ("size", Scalar::Number(p.size)),
        ("parent", Scalar::Number(p.parent)),
        ("disk", Scalar::Number(p.disk)),
        ("index", Scalar::Maybe(p.index)),
    ];
    json.object_of_both(common, &own)
}

// The object of a record that begins with these members.
fn push_own(json: &mut Json, common: &[(&str, Scalar)], r: &Record) -> Result<(), NoMemory>
    ensures { OnOk result (json.new ≡ json.old ++ json_tokens (json_object
        (map json_member common.now ++ own_members r.now))) }
{
    match r {
        Record::Group(g) => push_group(json, common, g),
        Record::Disk(d) => push_disk(json, common, d),
        Record::Volume(v) => push_volume(json, common, v),
        Record::Component(c) => push_component(json, common, c),
        Record::Partition(p) => push_partition(json, common, p),
    }
}

// The object of a record.
fn push_record(json: &mut Json, r: &Record) -> Result<(), NoMemory>
    ensures { OnOk result (json.new ≡ json.old ++ json_tokens (record_json r.now)) }
{
    let head = head_of(r);
    let common = [
        ("kind", Scalar::Word(kind_text(r))),
        ("type", Scalar::Word(type_of(r))),
        ("id", Scalar::Number(head.id)),
        ("name", Scalar::Name(head.name.as_slice())),
        ("length", Scalar::Number(own_len(r) as u64)),
        ("mark", Scalar::Number(u64::from(head.mark))),
        ("flags", Scalar::Number(u64::from(head.flags))),
    ];
    push_own(json, &common, r)
}

// The objects of records.
fn push_records(json: &mut Json, records: &[Record]) -> Result<(), NoMemory>
    ensures { OnOk result (json.new
        ≡ json.old ++ flat_map json_tokens (map record_json records.now)) }
{
    for r in records {
        push_record(json, r)?;
    }
    Ok(())
}

// The line of a copy that begins with these members and has these records.
fn copy_with(
    alloc: Global,
    fields: &[(&str, Scalar)],
    records: &[Record],
) -> Result<Bytes, NoMemory>
    ensures { IfOk result (λ text. text ≡ line_of_json (json_object (map json_member fields.now
        ++ (codes "records", json_array (map record_json records.now)) ∷ []))) }
{
    let mut json = Json::new(alloc);
    json.open(fields, "records")?;
    push_records(&mut json, records)?;
    json.close()?;
    json.into_line()
}

// The line of a closed copy.
fn closed_line(alloc: Global) -> Result<Bytes, NoMemory>
    ensures { IfOk result (λ text. text ≡ line_of_json (records_json states.Closed)) }
{
    let fields = [
        ("state", Scalar::Word("closed")),
        ("name", Scalar::Null),
        ("guid", Scalar::Null),
        ("sequence", Scalar::Null),
        ("last", Scalar::Null),
    ];
    copy_with(alloc, &fields, &[])
}

// The line of an open copy.
fn open_line(alloc: Global, db: &Db) -> Result<Bytes, NoMemory>
    ensures { IfOk result (λ text. text ≡ line_of_json (records_json (states.Valid db.now))) }
{
    let header = db.header();
    let fields = [
        ("state", Scalar::Word("open")),
        ("name", Scalar::Name(header.name.as_slice())),
        ("guid", Scalar::Guid(header.guid)),
        ("sequence", Scalar::Number(header.seq)),
        ("last", Scalar::Number(u64::from(header.last))),
    ];
    copy_with(alloc, &fields, db.as_slice())
}

/// The JSON of one copy of the database, on a line: its header and its records, each with the length
/// of its own spelling in bytes.
pub(crate) fn records_line(alloc: Global, state: &CopyState) -> Result<Bytes, NoMemory>
    ensures { IfOk result (λ text. text ≡ line_of_json (records_json state.now)) }
{
    match state {
        CopyState::Closed => closed_line(alloc),
        CopyState::Valid(db) => open_line(alloc, db),
    }
}
