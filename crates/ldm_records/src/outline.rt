//! A record as its head, type, fields and tail.
ghost use Rattle.std.specs.Prelude.{◌≡◌};
ghost use Rattle.ldm_records.specs.Outlines.{filled_plain, listed};
ghost use Rattle.ldm_records.specs.Views.{plain_disk, plain_group, plain_of};

use crate::field::Field;
use crate::listing::{
    component_fields, disk3_fields, disk4_fields, group3_fields, group4_fields, partition_fields,
    volume_fields,
};
use crate::pieces::{DiskForm, GroupForm, Head};
use crate::types::{Disk, GroupRec, Record};
use ldm_bytes::Bytes;

/// A record as it is written: its head, its type byte, its fields in the order of the table and
/// then absent ones, and its tail.
#[derive(Clone, Copy)]
pub struct Outline<'a> {
    pub head: &'a Head,
    pub kind: u8,
    pub fields: [Field<'a>; 15],
    pub tail: &'a Bytes,
}

fn disk_outline(d: &Disk) -> Outline<'_>
    ensures { listed result ≡ filled_plain (plain_disk d.now) }
{
    match &d.form {
        DiskForm::V3 { alt, fixed12 } => Outline {
            head: &d.head,
            kind: 0x34,
            fields: disk3_fields(d, alt, fixed12),
            tail: &d.tail,
        },
        DiskForm::V4 { fixed29 } => Outline {
            head: &d.head,
            kind: 0x44,
            fields: disk4_fields(d, fixed29),
            tail: &d.tail,
        },
    }
}

fn group_outline(g: &GroupRec) -> Outline<'_>
    ensures { listed result ≡ filled_plain (plain_group g.now) }
{
    match &g.form {
        GroupForm::V3 { guid, fixed12 } => Outline {
            head: &g.head,
            kind: 0x35,
            fields: group3_fields(g, guid, fixed12),
            tail: &g.tail,
        },
        GroupForm::V4 { fixed44 } => Outline {
            head: &g.head,
            kind: 0x45,
            fields: group4_fields(g, fixed44),
            tail: &g.tail,
        },
    }
}

/// The record as it is written.
pub fn outline_of(r: &Record) -> Outline<'_>
    ensures { listed result ≡ filled_plain (plain_of r.now) }
{
    match r {
        Record::Volume(v) => Outline {
            head: &v.head,
            kind: 0x51,
            fields: volume_fields(v),
            tail: &v.tail,
        },
        Record::Component(c) => Outline {
            head: &c.head,
            kind: 0x32,
            fields: component_fields(c),
            tail: &c.tail,
        },
        Record::Partition(p) => Outline {
            head: &p.head,
            kind: 0x33,
            fields: partition_fields(p),
            tail: &p.tail,
        },
        Record::Disk(d) => disk_outline(d),
        Record::Group(g) => group_outline(g),
    }
}
