//! Records from payloads, by their type.
ghost use Rattle.std.specs.Prelude.{◌≡◌, slice_index, IfOk};
ghost use Rattle.ldm_records.specs.Table.{is_known};
ghost use Rattle.ldm_records.specs.Plain.{Spells};
ghost use Rattle.ldm_payloads.specs.Steps.{plain_at};
ghost use Rattle.ldm_payloads.specs.Opened.{typed_rest};
ghost use Rattle.ldm_payloads.specs.Whole.{GivesTyped, GivesWhole};
ghost use Rattle.ldm_payloads.specs.Answers.{IsUnknown, AnswersRecord, AnswersFault};
ghost use Rattle.ldm_records.specs.Views.{plain_of};
ghost use Rattle.ldm_payloads.specs.declared.fault.RecordFault.TheVariants as faults;
ghost use Rattle.ldm_records.specs.declared.types.Record.{Record};

use crate::component::component_of;
use crate::disk::{disk3_of, disk4_of};
use crate::ends::opening_of;
use crate::fault::{RecordError, RecordFault};
use crate::group::{group3_of, group4_of};
use crate::opening::Opening;
use crate::partition::partition_of;
use crate::volume::volume_of;
use ldm_bytes::{get_u16, get_u32};
use ldm_records::Record;
use std::alloc::Global;

// The record of this type whose fields after the name stand in the rest. Its own spelling has the
// room.
#[tactic(auto, unfolding(crate::specs::Opened::typed_rest))]
fn typed_record(
    alloc: Global,
    kind: u8,
    opening: &Opening<'_>,
    rest: &[u8],
) -> Result<Record, RecordError>
    ensures { GivesTyped kind result (typed_rest opening.now kind rest.now) }
{
    match kind {
        0x51 => volume_of(alloc, opening, rest),
        0x32 => component_of(alloc, opening, rest),
        0x33 => partition_of(alloc, opening, rest),
        0x34 => disk3_of(alloc, opening, rest),
        0x44 => disk4_of(alloc, opening, rest),
        0x35 => group3_of(alloc, opening, rest),
        0x45 => group4_of(alloc, opening, rest),
        _ => Err(RecordError::Fault(RecordFault::UnknownType(kind))),
    }
}

fn is_known_type(kind: u8) -> bool
    ensures { result ≡ is_known kind }
{
    matches!(kind, 0x51 | 0x32 | 0x33 | 0x34 | 0x44 | 0x35 | 0x45)
}

// The record of a whole payload.
#[tactic(auto, unfolding(crate::specs::Steps::plain_at))]
fn payload_record(alloc: Global, payload: &[u8]) -> Result<Record, RecordError>
    ensures { GivesWhole payload.now result (plain_at payload.now) }
{
    if payload.len() < 8 {
        return Err(RecordError::Fault(RecordFault::Malformed));
    }
    let mark = get_u16(payload, 0);
    let flags = payload[2];
    let kind = payload[3];
    let len = get_u32(payload, 4) as usize;
    if !is_known_type(kind) {
        return Err(RecordError::Fault(RecordFault::UnknownType(kind)));
    }
    if payload.len() < 8 + len {
        return Err(RecordError::Fault(RecordFault::Malformed));
    }
    let body = &payload[8..8 + len];
    let Some((opening, rest)) = opening_of(mark, flags, payload.len(), body) else {
        return Err(RecordError::Fault(RecordFault::Malformed));
    };
    typed_record(alloc, kind, &opening, rest)
}

/// The record that the payload spells.
///
/// An own spelling that is longer than the payload, which can only be where a zero is spelled
/// without a byte, counts as spelling no record. So a record never needs more room than it had.
pub fn read_record(alloc: Global, payload: &[u8]) -> Result<Record, RecordError>
    // What is read is spelled so.
    ensures found { IfOk result (λ r. Spells (plain_of r) payload.now) }
    // What is spelled so is read, unless memory runs out.
    ensures only { (r : Record) → Spells (plain_of r) payload.now → AnswersRecord result r }
    // One record is spelled at most.
    ensures one { (r s : Record) → Spells (plain_of r) payload.now
        → Spells (plain_of s) payload.now → r ≡ s }
    // A type byte that is none of the seven.
    ensures unknown { IsUnknown payload.now
        → AnswersFault result (faults.UnknownType (slice_index payload.now 3)) }
    // Anything else that spells no record.
    ensures malformed { (IsUnknown payload.now → ⊥)
        → ((r : Record) → Spells (plain_of r) payload.now → ⊥)
        → AnswersFault result faults.Malformed }
{
    payload_record(alloc, payload)
}
