//! Disk records (DSK3, DSK4) from payloads.
ghost use Rattle.std.specs.Prelude.{◌≡◌, ◌≤◌, drop, length, IfSome};
ghost use Rattle.ldm_bytes.specs.Numbers.{Reads};
ghost use Rattle.ldm_records.specs.Table.{disk3_kinds, disk4_kinds};
ghost use Rattle.ldm_records.specs.Views.{plain_of};
ghost use Rattle.ldm_payloads.specs.Steps.{read_values};
ghost use Rattle.ldm_payloads.specs.Gives.{Gives};
ghost use Rattle.ldm_payloads.specs.Opened.{rest_at};
ghost use Rattle.ldm_payloads.specs.FieldViews.{disk3_seen, disk4_seen};

use crate::ends::ends_of;
use crate::fault::{RecordError, RecordFault};
use crate::fields::{read_fixed, read_guid_text, read_text, read_u128};
use crate::opening::Opening;
use ldm_bytes::Bytes;
use ldm_records::{Disk, DiskForm, Record};
use std::alloc::Global;

/// The fields of a disk of version 3 after its name, and the tail, where they stand.
#[derive(Clone, Copy)]
pub struct Disk3Fields<'a> {
    pub guid: u128,
    pub alt: &'a [u8],
    pub fixed12: [u8; 12],
    pub tail: &'a [u8],
}

/// The fields of a disk of version 4 after its name, and the tail, where they stand.
#[derive(Clone, Copy)]
pub struct Disk4Fields<'a> {
    pub guid: u128,
    pub fixed29: [u8; 29],
    pub tail: &'a [u8],
}

#[tactic(auto, unfolding(crate::specs::Steps::read_values))]
fn read_disk3(rest: &[u8]) -> Option<Disk3Fields<'_>>
    ensures gives { Reads (λ f. (disk3_seen f, f.tail.now)) result
        (read_values (drop 2 disk3_kinds) rest.now) }
    ensures short { IfSome result (λ f. length f.alt.now ≤ 255) }
    ensures long { IfSome result (λ f. length f.fixed12 ≡ 12) }
{
    if let Some((guid, rest)) = read_guid_text(rest)
        && let Some((alt, rest)) = read_text(rest)
        && let Some((fixed12, tail)) = read_fixed::<12>(rest)
    {
        Some(Disk3Fields {
            guid,
            alt,
            fixed12: *fixed12,
            tail,
        })
    } else {
        None
    }
}

#[tactic(auto, unfolding(crate::specs::Steps::read_values))]
fn read_disk4(rest: &[u8]) -> Option<Disk4Fields<'_>>
    ensures gives { Reads (λ f. (disk4_seen f, f.tail.now)) result
        (read_values (drop 2 disk4_kinds) rest.now) }
    ensures long { IfSome result (λ f. length f.fixed29 ≡ 29) }
{
    if let Some((guid, rest)) = read_u128(rest)
        && let Some((fixed29, tail)) = read_fixed::<29>(rest)
    {
        Some(Disk4Fields {
            guid,
            fixed29: *fixed29,
            tail,
        })
    } else {
        None
    }
}

/// The disk of version 3 whose fields after the name stand in the rest. Its own spelling has the
/// room.
pub fn disk3_of(alloc: Global, opening: &Opening<'_>, rest: &[u8]) -> Result<Record, RecordError>
    ensures { Gives plain_of result (rest_at opening.now 0x34 disk3_kinds rest.now) }
{
    let Some(fields) = read_disk3(rest) else {
        return Err(RecordError::Fault(RecordFault::Malformed));
    };
    let len = 37 + (fields.alt.len() + 1) + 12;
    let (head, tail) = ends_of(alloc, opening, len, fields.tail)?;
    let Ok(alt) = Bytes::from_slice(alloc, fields.alt) else {
        return Err(RecordError::NoMemory);
    };
    Ok(Record::Disk(Disk {
        head,
        guid: fields.guid,
        form: DiskForm::V3 {
            alt,
            fixed12: fields.fixed12,
        },
        tail,
    }))
}

/// The disk of version 4 whose fields after the name stand in the rest. Its own spelling has the
/// room.
pub fn disk4_of(alloc: Global, opening: &Opening<'_>, rest: &[u8]) -> Result<Record, RecordError>
    ensures { Gives plain_of result (rest_at opening.now 0x44 disk4_kinds rest.now) }
{
    let Some(fields) = read_disk4(rest) else {
        return Err(RecordError::Fault(RecordFault::Malformed));
    };
    let (head, tail) = ends_of(alloc, opening, 45, fields.tail)?;
    Ok(Record::Disk(Disk {
        head,
        guid: fields.guid,
        form: DiskForm::V4 {
            fixed29: fields.fixed29,
        },
        tail,
    }))
}
