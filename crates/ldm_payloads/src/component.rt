//! Component records (CMP3) from payloads.
ghost use Rattle.std.specs.Prelude.{◌≡◌, ◌≤◌, ◌<◌, ◌^◌, drop, is_some, length, IfSome};
ghost use Rattle.ldm_bytes.specs.Numbers.{Reads};
ghost use Rattle.ldm_records.specs.Values.{values_len};
ghost use Rattle.ldm_records.specs.Table.{component_kinds, has_flag};
ghost use Rattle.ldm_records.specs.Views.{plain_of};
ghost use Rattle.ldm_payloads.specs.Steps.{read_values};
ghost use Rattle.ldm_payloads.specs.Gives.{Gives};
ghost use Rattle.ldm_payloads.specs.Opened.{rest_at};
ghost use Rattle.ldm_payloads.specs.FieldViews.{component_seen};

use crate::ends::ends_of;
use crate::fault::{RecordError, RecordFault};
use crate::fields::{read_byte, read_fixed, read_number, read_striping, read_text, striping_len};
use crate::opening::Opening;
use ldm_bytes::{Bytes, number_len};
use ldm_records::{Component, Record, Striping};
use std::alloc::Global;

/// The fields of a component after its name, and the tail, where they stand.
#[derive(Clone, Copy)]
pub struct ComponentFields<'a> {
    pub state: &'a [u8],
    pub layout: u8,
    pub fixed4: [u8; 4],
    pub children: u64,
    pub fixed16: [u8; 16],
    pub parent: u64,
    pub fixed1: u8,
    pub striping: Option<Striping>,
    pub tail: &'a [u8],
}

#[tactic(auto, unfolding(crate::specs::Steps::read_values))]
fn read_component(flags: u8, rest: &[u8]) -> Option<ComponentFields<'_>>
    ensures gives { Reads (λ f. (component_seen f, f.tail.now)) result
        (read_values (drop 2 (component_kinds flags)) rest.now) }
    ensures flagged { IfSome result (λ f. is_some f.striping ≡ has_flag flags 0x10) }
    ensures short { IfSome result (λ f. length f.state.now ≤ 255) }
{
    if let Some((state, rest)) = read_text(rest)
        && let Some((layout, rest)) = read_byte(rest)
        && let Some((fixed4, rest)) = read_fixed::<4>(rest)
        && let Some((children, rest)) = read_number(rest)
        && let Some((fixed16, rest)) = read_fixed::<16>(rest)
        && let Some((parent, rest)) = read_number(rest)
        && let Some((fixed1, rest)) = read_byte(rest)
        && let Some((striping, tail)) = read_striping(flags & 0x10 != 0, rest)
    {
        Some(ComponentFields {
            state,
            layout,
            fixed4: *fixed4,
            children,
            fixed16: *fixed16,
            parent,
            fixed1,
            striping,
            tail,
        })
    } else {
        None
    }
}

// The bytes of these fields in the record's own spelling.
fn own_len(fields: &ComponentFields<'_>) -> usize
    requires { length fields.now.state.now ≤ 255 }
    ensures len { result ≡ values_len (component_seen fields.now) }
    ensures few { result < 2 ^ 32 }
{
    (fields.state.len() + 1)
        + 22
        + number_len(fields.children)
        + number_len(fields.parent)
        + striping_len(fields.striping)
}

/// The component whose fields after the name stand in the rest. Its own spelling has the room.
pub fn component_of(
    alloc: Global,
    opening: &Opening<'_>,
    rest: &[u8],
) -> Result<Record, RecordError>
    ensures { Gives plain_of result (rest_at opening.now 0x32
        (component_kinds opening.now.flags) rest.now) }
{
    let Some(fields) = read_component(opening.flags, rest) else {
        return Err(RecordError::Fault(RecordFault::Malformed));
    };
    let (head, tail) = ends_of(alloc, opening, own_len(&fields), fields.tail)?;
    let Ok(state) = Bytes::from_slice(alloc, fields.state) else {
        return Err(RecordError::NoMemory);
    };
    Ok(Record::Component(Component {
        head,
        state,
        layout: fields.layout,
        fixed4: fields.fixed4,
        children: fields.children,
        fixed16: fields.fixed16,
        parent: fields.parent,
        fixed1: fields.fixed1,
        striping: fields.striping,
        tail,
    }))
}
