//! Partition records (PRT3) from payloads.
ghost use Rattle.std.specs.Prelude.{◌≡◌, ◌<◌, ◌^◌, drop, is_some, IfSome};
ghost use Rattle.ldm_bytes.specs.Numbers.{Reads};
ghost use Rattle.ldm_records.specs.Values.{values_len};
ghost use Rattle.ldm_records.specs.Table.{partition_kinds, has_flag};
ghost use Rattle.ldm_records.specs.Views.{plain_of};
ghost use Rattle.ldm_payloads.specs.Steps.{read_values};
ghost use Rattle.ldm_payloads.specs.Gives.{Gives};
ghost use Rattle.ldm_payloads.specs.Opened.{rest_at};
ghost use Rattle.ldm_payloads.specs.FieldViews.{partition_seen};

use crate::ends::ends_of;
use crate::fault::{RecordError, RecordFault};
use crate::fields::{number_len_when, read_fixed, read_number, read_number_when, read_u64};
use crate::opening::Opening;
use ldm_bytes::number_len;
use ldm_records::{Partition, Record};
use std::alloc::Global;

/// The fields of a partition after its name, and the tail, where they stand.
#[derive(Clone, Copy)]
pub struct PartitionFields<'a> {
    pub fixed12: [u8; 12],
    pub start: u64,
    pub offset: u64,
    pub size: u64,
    pub parent: u64,
    pub disk: u64,
    pub index: Option<u64>,
    pub tail: &'a [u8],
}

#[tactic(auto, unfolding(crate::specs::Steps::read_values))]
fn read_partition(flags: u8, rest: &[u8]) -> Option<PartitionFields<'_>>
    ensures gives { Reads (λ f. (partition_seen f, f.tail.now)) result
        (read_values (drop 2 (partition_kinds flags)) rest.now) }
    ensures flagged { IfSome result (λ f. is_some f.index ≡ has_flag flags 0x08) }
{
    if let Some((fixed12, rest)) = read_fixed::<12>(rest)
        && let Some((start, rest)) = read_u64(rest)
        && let Some((offset, rest)) = read_u64(rest)
        && let Some((size, rest)) = read_number(rest)
        && let Some((parent, rest)) = read_number(rest)
        && let Some((disk, rest)) = read_number(rest)
        && let Some((index, tail)) = read_number_when(flags & 0x08 != 0, rest)
    {
        Some(PartitionFields {
            fixed12: *fixed12,
            start,
            offset,
            size,
            parent,
            disk,
            index,
            tail,
        })
    } else {
        None
    }
}

// The bytes of these fields in the record's own spelling.
fn own_len(fields: &PartitionFields<'_>) -> usize
    ensures len { result ≡ values_len (partition_seen fields.now) }
    ensures few { result < 2 ^ 32 }
{
    28 + number_len(fields.size)
        + number_len(fields.parent)
        + number_len(fields.disk)
        + number_len_when(fields.index)
}

/// The partition whose fields after the name stand in the rest. Its own spelling has the room.
pub fn partition_of(
    alloc: Global,
    opening: &Opening<'_>,
    rest: &[u8],
) -> Result<Record, RecordError>
    ensures { Gives plain_of result (rest_at opening.now 0x33
        (partition_kinds opening.now.flags) rest.now) }
{
    let Some(fields) = read_partition(opening.flags, rest) else {
        return Err(RecordError::Fault(RecordFault::Malformed));
    };
    let (head, tail) = ends_of(alloc, opening, own_len(&fields), fields.tail)?;
    Ok(Record::Partition(Partition {
        head,
        fixed12: fields.fixed12,
        start: fields.start,
        offset: fields.offset,
        size: fields.size,
        parent: fields.parent,
        disk: fields.disk,
        index: fields.index,
        tail,
    }))
}
