//! The fields of a record, one after another.
ghost use Rattle.std.specs.Prelude.{◌≡◌, ◌≤◌, ◌+◌, ◌∷◌, [], length, IfOk, IfSome, is_some};
ghost use Rattle.std.specs.Prelude.{unwrap_or};
ghost use Rattle.ldm_records.specs.Values.{Fixed, Wide, GuidText, Number, Text, WideKind, GuidKind};
ghost use Rattle.ldm_records.specs.Values.{FixedKind, NumberKind, TextKind, When, value_len};
ghost use Rattle.ldm_bytes.specs.Numbers.{Reads};
ghost use Rattle.ldm_records.specs.Fields.{number_option, text_option};
ghost use Rattle.ldm_records.specs.Forms.{chunk_value, columns_value, first_value, second_value};
ghost use Rattle.ldm_payloads.specs.Seen.{seen};
ghost use Rattle.ldm_payloads.specs.IdsViews.{first_seen, second_seen};
ghost use Rattle.ldm_payloads.specs.Steps.{read_value, read_values};

use crate::ids_text::IdsText;
use byteorder::{BigEndian, ByteOrder};
use ldm_bytes::{Bytes, NoMemory, front_number, front_text, get_u64, number_len, read_guid};
use ldm_records::{Striping, TwoIds};
use std::alloc::Global;

// Each of these reads the field at the front of the bytes, and answers it with the bytes after it,
// or None where the bytes spell no such field.

#[tactic(auto, unfolding(crate::specs::Steps::read_value))]
pub fn read_number(bytes: &[u8]) -> Option<(u64, &[u8])>
    ensures { Reads (λ x. (Number x.0, x.1.now)) result (read_value NumberKind bytes.now) }
{
    front_number(bytes)
}

#[tactic(auto, unfolding(crate::specs::Steps::read_value))]
pub fn read_text(bytes: &[u8]) -> Option<(&[u8], &[u8])>
    ensures gives { Reads (λ x. (Text x.0.now, x.1.now)) result (read_value TextKind bytes.now) }
    ensures short { IfSome result (λ x. length x.0.now ≤ 255) }
{
    front_text(bytes)
}

#[tactic(auto, unfolding(crate::specs::Steps::read_value))]
pub fn read_guid_text(bytes: &[u8]) -> Option<(u128, &[u8])>
    ensures { Reads (λ x. (GuidText x.0, x.1.now)) result (read_value GuidKind bytes.now) }
{
    let Some((text, rest)) = front_text(bytes) else {
        return None;
    };
    match read_guid(text) {
        Some(guid) => Some((guid, rest)),
        None => None,
    }
}

#[tactic(auto, unfolding(crate::specs::Steps::read_value))]
pub fn read_u64(bytes: &[u8]) -> Option<(u64, &[u8])>
    ensures { Reads (λ x. (Wide 8 x.0, x.1.now)) result (read_value (WideKind 8) bytes.now) }
{
    if bytes.len() < 8 {
        return None;
    }
    let value = get_u64(bytes, 0);
    Some((value, &bytes[8..]))
}

#[tactic(auto, unfolding(crate::specs::Steps::read_value))]
pub fn read_u128(bytes: &[u8]) -> Option<(u128, &[u8])>
    ensures { Reads (λ x. (Wide 16 x.0, x.1.now)) result (read_value (WideKind 16) bytes.now) }
{
    if bytes.len() < 16 {
        return None;
    }
    let value = BigEndian::read_u128(bytes);
    Some((value, &bytes[16..]))
}

#[tactic(auto, unfolding(crate::specs::Steps::read_value))]
pub fn read_byte(bytes: &[u8]) -> Option<(u8, &[u8])>
    ensures { Reads (λ x. (Fixed (x.0 ∷ []), x.1.now)) result (read_value (FixedKind 1) bytes.now) }
{
    match bytes {
        [first, rest @ ..] => Some((*first, rest)),
        [] => None,
    }
}

#[tactic(auto, unfolding(crate::specs::Steps::read_value))]
pub fn read_fixed<const N: usize>(bytes: &[u8]) -> Option<(&[u8; N], &[u8])>
    ensures gives { Reads (λ x. (Fixed x.0.now, x.1.now)) result
        (read_value (FixedKind N) bytes.now) }
    ensures long { IfSome result (λ x. length x.0.now ≡ N) }
{
    bytes.split_first_chunk::<N>()
}

#[tactic(auto, unfolding(crate::specs::Steps::read_value))]
pub fn read_number_when(present: bool, bytes: &[u8]) -> Option<(Option<u64>, &[u8])>
    ensures gives { Reads (λ x. (number_option x.0, x.1.now)) result
        (read_value (When present NumberKind) bytes.now) }
    ensures there { IfSome result (λ x. is_some x.0 ≡ present) }
{
    if !present {
        return Some((None, bytes));
    }
    match read_number(bytes) {
        Some((value, rest)) => Some((Some(value), rest)),
        None => None,
    }
}

#[tactic(auto, unfolding(crate::specs::Steps::read_value))]
pub fn read_text_when(present: bool, bytes: &[u8]) -> Option<(Option<&[u8]>, &[u8])>
    ensures gives { Reads (λ x. (text_option (seen x.0), x.1.now)) result
        (read_value (When present TextKind) bytes.now) }
    ensures there { IfSome result (λ x. is_some x.0 ≡ present) }
    ensures short { IfSome result (λ x. length (unwrap_or (seen x.0) []) ≤ 255) }
{
    if !present {
        return Some((None, bytes));
    }
    match read_text(bytes) {
        Some((value, rest)) => Some((Some(value), rest)),
        None => None,
    }
}

#[tactic(auto, unfolding(crate::specs::Steps::read_value, crate::specs::Steps::read_values))]
pub fn read_striping(present: bool, bytes: &[u8]) -> Option<(Option<Striping>, &[u8])>
    ensures gives { Reads (λ x. (chunk_value x.0 ∷ columns_value x.0 ∷ [], x.1.now)) result
        (read_values (When present NumberKind ∷ When present NumberKind ∷ []) bytes.now) }
    ensures there { IfSome result (λ x. is_some x.0 ≡ present) }
{
    if !present {
        return Some((None, bytes));
    }
    if let Some((chunk, rest)) = read_number(bytes)
        && let Some((columns, rest)) = read_number(rest)
    {
        Some((Some(Striping { chunk, columns }), rest))
    } else {
        None
    }
}

#[tactic(auto, unfolding(crate::specs::Steps::read_value, crate::specs::Steps::read_values))]
pub fn read_ids(present: bool, bytes: &[u8]) -> Option<(Option<IdsText<'_>>, &[u8])>
    ensures gives { Reads (λ x. (first_seen x.0 ∷ second_seen x.0 ∷ [], x.1.now)) result
        (read_values (When present TextKind ∷ When present TextKind ∷ []) bytes.now) }
    ensures there { IfSome result (λ x. is_some x.0 ≡ present) }
{
    if !present {
        return Some((None, bytes));
    }
    if let Some((first, rest)) = read_text(bytes)
        && let Some((second, rest)) = read_text(rest)
    {
        Some((Some(IdsText { first, second }), rest))
    } else {
        None
    }
}

// The bytes of an optional field's own spelling.

pub fn number_len_when(v: Option<u64>) -> usize
    ensures len { result ≡ value_len (number_option v) }
    ensures few { result ≤ 9 }
{
    match v {
        Some(v) => number_len(v),
        None => 0,
    }
}

pub fn text_len_when(text: Option<&[u8]>) -> usize
    requires { length (unwrap_or (seen text) []) ≤ 255 }
    ensures len { result ≡ value_len (text_option (seen text.entry)) }
    ensures few { result ≤ 256 }
{
    match text {
        Some(text) => text.len() + 1,
        None => 0,
    }
}

pub fn striping_len(striping: Option<Striping>) -> usize
    ensures len { result ≡ value_len (chunk_value striping) + value_len (columns_value striping) }
    ensures few { result ≤ 18 }
{
    match striping {
        Some(s) => number_len(s.chunk) + number_len(s.columns),
        None => 0,
    }
}

pub fn ids_len(ids: Option<IdsText<'_>>) -> usize
    ensures len { result ≡ value_len (first_seen ids.entry) + value_len (second_seen ids.entry) }
    ensures few { result ≤ 512 }
{
    match ids {
        Some(ids) => (ids.first.len() + 1) + (ids.second.len() + 1),
        None => 0,
    }
}

// Owned values.

pub fn both_bytes(alloc: Global, first: &[u8], second: &[u8]) -> Result<(Bytes, Bytes), NoMemory>
    ensures { IfOk result (λ x. (x.0 ≡ first.now) × (x.1 ≡ second.now)) }
{
    if let Ok(first) = Bytes::from_slice(alloc, first)
        && let Ok(second) = Bytes::from_slice(alloc, second)
    {
        Ok((first, second))
    } else {
        Err(NoMemory)
    }
}

pub fn bytes_when(alloc: Global, text: Option<&[u8]>) -> Result<Option<Bytes>, NoMemory>
    ensures { IfOk result (λ o. o ≡ seen text.entry) }
{
    match text {
        Some(text) => Bytes::from_slice(alloc, text).map(Some),
        None => Ok(None),
    }
}

pub fn ids_of(alloc: Global, ids: Option<IdsText<'_>>) -> Result<Option<TwoIds>, NoMemory>
    ensures first { IfOk result (λ o. first_value o ≡ first_seen ids.entry) }
    ensures second { IfOk result (λ o. second_value o ≡ second_seen ids.entry) }
    ensures there { IfOk result (λ o. is_some o ≡ is_some ids.entry) }
{
    match ids {
        Some(ids) => {
            let (first, second) = both_bytes(alloc, ids.first, ids.second)?;
            Ok(Some(TwoIds { first, second }))
        }
        None => Ok(None),
    }
}
