//! The fields of each type of record, in their order.
ghost use Rattle.std.specs.Prelude.{◌≡◌, ◌∷◌, [], ◌<◌, ◌^◌, length, IfSome};
ghost use Rattle.ldm_records.specs.Values.{Number, Text, GuidText, Wide, Fixed};
ghost use Rattle.ldm_records.specs.FieldViews.{value_of, values_of};
ghost use Rattle.ldm_records.specs.Fields.{number_option, text_option};
ghost use Rattle.ldm_records.specs.Forms.{chunk_value, columns_value, first_value, second_value};
ghost use Rattle.ldm_records.specs.Outlines.{padded};
ghost use Rattle.ldm_records.specs.Plain.{IsRecord};
ghost use Rattle.ldm_records.specs.Views.{plain_volume, plain_component, plain_partition};
ghost use Rattle.ldm_records.specs.Views.{plain_disk, plain_group, plain_of};

use crate::field::Field;
use crate::pieces::{DiskForm, GroupForm, Striping, TwoIds};
use crate::types::{Component, Disk, GroupRec, Partition, Record, Volume};
use ldm_bytes::Bytes;
use std::slice;

fn number_field<'a>(v: Option<u64>) -> Field<'a>
    ensures value { value_of result ≡ number_option v }
    ensures fits { IfSome v (λ v. v < 2 ^ 64) }
{
    match v {
        Some(v) => Field::Number(v),
        None => Field::Absent,
    }
}

fn text_field(text: &Option<Bytes>) -> Field<'_>
    ensures { value_of result ≡ text_option text.now }
{
    match text {
        Some(text) => Field::Text(text.as_slice()),
        None => Field::Absent,
    }
}

fn chunk_field<'a>(striping: Option<Striping>) -> Field<'a>
    ensures value { value_of result ≡ chunk_value striping }
    ensures fits { IfSome striping (λ s. (s.chunk < 2 ^ 64) × (s.columns < 2 ^ 64)) }
{
    match striping {
        Some(s) => Field::Number(s.chunk),
        None => Field::Absent,
    }
}

fn columns_field<'a>(striping: Option<Striping>) -> Field<'a>
    ensures { value_of result ≡ columns_value striping }
{
    match striping {
        Some(s) => Field::Number(s.columns),
        None => Field::Absent,
    }
}

fn first_field(ids: &Option<TwoIds>) -> Field<'_>
    ensures { value_of result ≡ first_value ids.now }
{
    match ids {
        Some(ids) => Field::Text(ids.first.as_slice()),
        None => Field::Absent,
    }
}

fn second_field(ids: &Option<TwoIds>) -> Field<'_>
    ensures { value_of result ≡ second_value ids.now }
{
    match ids {
        Some(ids) => Field::Text(ids.second.as_slice()),
        None => Field::Absent,
    }
}

// The fields of each type in the order of the table, and then absent ones.

pub fn volume_fields(v: &Volume) -> [Field<'_>; 15]
    ensures { values_of result ≡ (plain_volume v.now).fields }
{
    [
        Field::Number(v.head.id),
        Field::Text(v.head.name.as_slice()),
        Field::Text(v.kind.as_slice()),
        Field::Text(v.second.as_slice()),
        Field::Fixed(&v.fixed21),
        Field::Number(v.children),
        Field::Fixed(&v.fixed16),
        Field::Number(v.size),
        Field::Fixed(&v.fixed4),
        Field::Fixed(slice::from_ref(&v.part_type)),
        Field::Fixed(&v.guid),
        text_field(&v.id1),
        text_field(&v.id2),
        number_field(v.size2),
        text_field(&v.hint),
    ]
}

pub fn component_fields(c: &Component) -> [Field<'_>; 15]
    ensures { values_of result ≡ padded (plain_component c.now).fields }
{
    [
        Field::Number(c.head.id),
        Field::Text(c.head.name.as_slice()),
        Field::Text(c.state.as_slice()),
        Field::Fixed(slice::from_ref(&c.layout)),
        Field::Fixed(&c.fixed4),
        Field::Number(c.children),
        Field::Fixed(&c.fixed16),
        Field::Number(c.parent),
        Field::Fixed(slice::from_ref(&c.fixed1)),
        chunk_field(c.striping),
        columns_field(c.striping),
        Field::Absent,
        Field::Absent,
        Field::Absent,
        Field::Absent,
    ]
}

pub fn partition_fields(p: &Partition) -> [Field<'_>; 15]
    ensures { values_of result ≡ padded (plain_partition p.now).fields }
{
    [
        Field::Number(p.head.id),
        Field::Text(p.head.name.as_slice()),
        Field::Fixed(&p.fixed12),
        Field::Wide(p.start),
        Field::Wide(p.offset),
        Field::Number(p.size),
        Field::Number(p.parent),
        Field::Number(p.disk),
        number_field(p.index),
        Field::Absent,
        Field::Absent,
        Field::Absent,
        Field::Absent,
        Field::Absent,
        Field::Absent,
    ]
}

pub fn disk3_fields<'a>(d: &'a Disk, alt: &'a Bytes, fixed12: &'a [u8; 12]) -> [Field<'a>; 15]
    ensures { values_of result
        ≡ padded (Number d.now.head.id ∷ Text d.now.head.name ∷ GuidText d.now.guid ∷ Text alt.now
        ∷ Fixed fixed12.now ∷ []) }
{
    [
        Field::Number(d.head.id),
        Field::Text(d.head.name.as_slice()),
        Field::Guid(d.guid),
        Field::Text(alt.as_slice()),
        Field::Fixed(fixed12),
        Field::Absent,
        Field::Absent,
        Field::Absent,
        Field::Absent,
        Field::Absent,
        Field::Absent,
        Field::Absent,
        Field::Absent,
        Field::Absent,
        Field::Absent,
    ]
}

pub fn disk4_fields<'a>(d: &'a Disk, fixed29: &'a [u8; 29]) -> [Field<'a>; 15]
    ensures { values_of result
        ≡ padded (Number d.now.head.id ∷ Text d.now.head.name ∷ Wide 16 d.now.guid
        ∷ Fixed fixed29.now ∷ []) }
{
    [
        Field::Number(d.head.id),
        Field::Text(d.head.name.as_slice()),
        Field::Wide16(d.guid),
        Field::Fixed(fixed29),
        Field::Absent,
        Field::Absent,
        Field::Absent,
        Field::Absent,
        Field::Absent,
        Field::Absent,
        Field::Absent,
        Field::Absent,
        Field::Absent,
        Field::Absent,
        Field::Absent,
    ]
}

pub fn group3_fields<'a>(g: &'a GroupRec, guid: &'a Bytes, fixed12: &'a [u8; 12]) -> [Field<'a>; 15]
    ensures { values_of result
        ≡ padded (Number g.now.head.id ∷ Text g.now.head.name ∷ Text guid.now ∷ Fixed fixed12.now
        ∷ first_value g.now.ids ∷ second_value g.now.ids ∷ []) }
{
    [
        Field::Number(g.head.id),
        Field::Text(g.head.name.as_slice()),
        Field::Text(guid.as_slice()),
        Field::Fixed(fixed12),
        first_field(&g.ids),
        second_field(&g.ids),
        Field::Absent,
        Field::Absent,
        Field::Absent,
        Field::Absent,
        Field::Absent,
        Field::Absent,
        Field::Absent,
        Field::Absent,
        Field::Absent,
    ]
}

pub fn group4_fields<'a>(g: &'a GroupRec, fixed44: &'a [u8; 44]) -> [Field<'a>; 15]
    ensures { values_of result
        ≡ padded (Number g.now.head.id ∷ Text g.now.head.name ∷ Fixed fixed44.now
        ∷ first_value g.now.ids ∷ second_value g.now.ids ∷ []) }
{
    [
        Field::Number(g.head.id),
        Field::Text(g.head.name.as_slice()),
        Field::Fixed(fixed44),
        first_field(&g.ids),
        second_field(&g.ids),
        Field::Absent,
        Field::Absent,
        Field::Absent,
        Field::Absent,
        Field::Absent,
        Field::Absent,
        Field::Absent,
        Field::Absent,
        Field::Absent,
        Field::Absent,
    ]
}

// Every value of these types is a record. The bodies read the fields whose types bound their
// values.

pub fn volume_sound(v: &Volume)
    ensures { IsRecord (plain_volume v.now) }
{
    let _mark = v.head.mark;
    let _id = v.head.id;
    let _children = v.children;
    let _size = v.size;
    let _size2 = number_field(v.size2);
}

pub fn component_sound(c: &Component)
    ensures { IsRecord (plain_component c.now) }
{
    let _mark = c.head.mark;
    let _id = c.head.id;
    let _children = c.children;
    let _parent = c.parent;
    let _chunk = chunk_field(c.striping);
}

pub fn partition_sound(p: &Partition)
    ensures { IsRecord (plain_partition p.now) }
{
    let _mark = p.head.mark;
    let _id = p.head.id;
    let _start = p.start;
    let _offset = p.offset;
    let _size = p.size;
    let _parent = p.parent;
    let _disk = p.disk;
    let _index = number_field(p.index);
}

pub fn disk_sound(d: &Disk)
    ensures { IsRecord (plain_disk d.now) }
{
    let _mark = d.head.mark;
    let _id = d.head.id;
    let _guid = d.guid;
    match &d.form {
        DiskForm::V3 { alt: _, fixed12 } => has_len(fixed12),
        DiskForm::V4 { fixed29 } => has_len(fixed29),
    }
}

pub fn group_sound(g: &GroupRec)
    ensures { IsRecord (plain_group g.now) }
{
    let _mark = g.head.mark;
    let _id = g.head.id;
    match &g.form {
        GroupForm::V3 { guid: _, fixed12 } => has_len(fixed12),
        GroupForm::V4 { fixed44 } => has_len(fixed44),
    }
}

/// The record keeps what every record of its type does.
pub fn record_sound(r: &Record)
    ensures { IsRecord (plain_of r.now) }
{
    match r {
        Record::Volume(v) => volume_sound(v),
        Record::Component(c) => component_sound(c),
        Record::Partition(p) => partition_sound(p),
        Record::Disk(d) => disk_sound(d),
        Record::Group(g) => group_sound(g),
    }
}

// An array has as many bytes as its type says.
fn has_len<const N: usize>(bytes: &[u8; N])
    ensures { length bytes.now ≡ N }
{}
