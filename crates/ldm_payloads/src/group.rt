//! Group records (DGR3, DGR4) from payloads.
ghost use Rattle.std.specs.Prelude.{◌≡◌, ◌≤◌, drop, is_some, length, IfSome};
ghost use Rattle.ldm_bytes.specs.Numbers.{Reads};
ghost use Rattle.ldm_records.specs.Table.{group3_kinds, group4_kinds, has_flag};
ghost use Rattle.ldm_records.specs.Views.{plain_of};
ghost use Rattle.ldm_payloads.specs.Steps.{read_values};
ghost use Rattle.ldm_payloads.specs.Gives.{Gives};
ghost use Rattle.ldm_payloads.specs.Opened.{rest_at};
ghost use Rattle.ldm_payloads.specs.FieldViews.{group3_seen, group4_seen};

use crate::ends::ends_of;
use crate::fault::{RecordError, RecordFault};
use crate::fields::{ids_len, ids_of, read_fixed, read_ids, read_text};
use crate::ids_text::IdsText;
use crate::opening::Opening;
use ldm_bytes::Bytes;
use ldm_records::{GroupForm, GroupRec, Record};
use std::alloc::Global;

/// The fields of a group of version 3 after its name, and the tail, where they stand.
#[derive(Clone, Copy)]
pub struct Group3Fields<'a> {
    pub guid: &'a [u8],
    pub fixed12: [u8; 12],
    pub ids: Option<IdsText<'a>>,
    pub tail: &'a [u8],
}

/// The fields of a group of version 4 after its name, and the tail, where they stand.
#[derive(Clone, Copy)]
pub struct Group4Fields<'a> {
    pub fixed44: [u8; 44],
    pub ids: Option<IdsText<'a>>,
    pub tail: &'a [u8],
}

#[tactic(auto, unfolding(crate::specs::Steps::read_values))]
fn read_group3(flags: u8, rest: &[u8]) -> Option<Group3Fields<'_>>
    ensures gives { Reads (λ f. (group3_seen f, f.tail.now)) result
        (read_values (drop 2 (group3_kinds flags)) rest.now) }
    ensures flagged { IfSome result (λ f. is_some f.ids ≡ has_flag flags 0x08) }
    ensures short { IfSome result (λ f. length f.guid.now ≤ 255) }
    ensures long { IfSome result (λ f. length f.fixed12 ≡ 12) }
{
    if let Some((guid, rest)) = read_text(rest)
        && let Some((fixed12, rest)) = read_fixed::<12>(rest)
        && let Some((ids, tail)) = read_ids(flags & 0x08 != 0, rest)
    {
        Some(Group3Fields {
            guid,
            fixed12: *fixed12,
            ids,
            tail,
        })
    } else {
        None
    }
}

#[tactic(auto, unfolding(crate::specs::Steps::read_values))]
fn read_group4(flags: u8, rest: &[u8]) -> Option<Group4Fields<'_>>
    ensures gives { Reads (λ f. (group4_seen f, f.tail.now)) result
        (read_values (drop 2 (group4_kinds flags)) rest.now) }
    ensures flagged { IfSome result (λ f. is_some f.ids ≡ has_flag flags 0x08) }
    ensures long { IfSome result (λ f. length f.fixed44 ≡ 44) }
{
    if let Some((fixed44, rest)) = read_fixed::<44>(rest)
        && let Some((ids, tail)) = read_ids(flags & 0x08 != 0, rest)
    {
        Some(Group4Fields {
            fixed44: *fixed44,
            ids,
            tail,
        })
    } else {
        None
    }
}

/// The group of version 3 whose fields after the name stand in the rest. Its own spelling has the
/// room.
pub fn group3_of(alloc: Global, opening: &Opening<'_>, rest: &[u8]) -> Result<Record, RecordError>
    ensures { Gives plain_of result (rest_at opening.now 0x35
        (group3_kinds opening.now.flags) rest.now) }
{
    let Some(fields) = read_group3(opening.flags, rest) else {
        return Err(RecordError::Fault(RecordFault::Malformed));
    };
    let len = (fields.guid.len() + 1) + 12 + ids_len(fields.ids);
    let (head, tail) = ends_of(alloc, opening, len, fields.tail)?;
    if let Ok(guid) = Bytes::from_slice(alloc, fields.guid)
        && let Ok(ids) = ids_of(alloc, fields.ids)
    {
        Ok(Record::Group(GroupRec {
            head,
            form: GroupForm::V3 {
                guid,
                fixed12: fields.fixed12,
            },
            ids,
            tail,
        }))
    } else {
        Err(RecordError::NoMemory)
    }
}

/// The group of version 4 whose fields after the name stand in the rest. Its own spelling has the
/// room.
pub fn group4_of(alloc: Global, opening: &Opening<'_>, rest: &[u8]) -> Result<Record, RecordError>
    ensures { Gives plain_of result (rest_at opening.now 0x45
        (group4_kinds opening.now.flags) rest.now) }
{
    let Some(fields) = read_group4(opening.flags, rest) else {
        return Err(RecordError::Fault(RecordFault::Malformed));
    };
    let len = 44 + ids_len(fields.ids);
    let (head, tail) = ends_of(alloc, opening, len, fields.tail)?;
    let Ok(ids) = ids_of(alloc, fields.ids) else {
        return Err(RecordError::NoMemory);
    };
    Ok(Record::Group(GroupRec {
        head,
        form: GroupForm::V4 {
            fixed44: fields.fixed44,
        },
        ids,
        tail,
    }))
}
