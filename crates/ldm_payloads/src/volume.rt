//! Volume records (VOL5) from payloads.
ghost use Rattle.std.specs.Prelude.{◌≡◌, ◌+◌, ◌<◌, ◌^◌, is_some, IfOk, IfSome};
ghost use Rattle.ldm_bytes.specs.Numbers.{Reads};
ghost use Rattle.ldm_records.specs.Values.{values_len};
ghost use Rattle.ldm_records.specs.Table.{volume_kinds, has_flag};
ghost use Rattle.ldm_records.specs.Views.{plain_of};
ghost use Rattle.ldm_payloads.specs.Steps.{read_values};
ghost use Rattle.ldm_payloads.specs.Gives.{Gives};
ghost use Rattle.ldm_payloads.specs.Opened.{rest_at};
ghost use Rattle.ldm_payloads.specs.FieldViews.{main_kinds, main_seen, more_kinds, more_seen};
ghost use Rattle.ldm_payloads.specs.Seen.{seen};

use crate::ends::ends_of;
use crate::fault::{RecordError, RecordFault};
use crate::fields::{
    both_bytes, bytes_when, number_len_when, read_byte, read_fixed, read_number, read_number_when,
    read_text, read_text_when, text_len_when,
};
use crate::opening::Opening;
use crate::volume_text::{VolumeMain, VolumeMore};
use ldm_bytes::{Bytes, NoMemory, number_len};
use ldm_records::{Record, Volume};
use std::alloc::Global;

#[tactic(auto, unfolding(crate::specs::Steps::read_values))]
fn read_main(rest: &[u8]) -> Option<(VolumeMain<'_>, &[u8])>
    ensures { Reads (λ x. (main_seen x.0, x.1.now)) result (read_values main_kinds rest.now) }
{
    if let Some((kind, rest)) = read_text(rest)
        && let Some((second, rest)) = read_text(rest)
        && let Some((fixed21, rest)) = read_fixed::<21>(rest)
        && let Some((children, rest)) = read_number(rest)
        && let Some((fixed16, rest)) = read_fixed::<16>(rest)
        && let Some((size, rest)) = read_number(rest)
        && let Some((fixed4, rest)) = read_fixed::<4>(rest)
        && let Some((part_type, rest)) = read_byte(rest)
        && let Some((guid, rest)) = read_fixed::<16>(rest)
    {
        let main = VolumeMain {
            kind,
            second,
            fixed21: *fixed21,
            children,
            fixed16: *fixed16,
            size,
            fixed4: *fixed4,
            part_type,
            guid: *guid,
        };
        Some((main, rest))
    } else {
        None
    }
}

#[tactic(auto, unfolding(crate::specs::Steps::read_values))]
fn read_more(flags: u8, rest: &[u8]) -> Option<VolumeMore<'_>>
    ensures gives { Reads (λ f. (more_seen f, f.tail.now)) result
        (read_values (more_kinds flags) rest.now) }
    ensures id1 { IfSome result (λ f. is_some f.id1 ≡ has_flag flags 0x08) }
    ensures id2 { IfSome result (λ f. is_some f.id2 ≡ has_flag flags 0x20) }
    ensures size2 { IfSome result (λ f. is_some f.size2 ≡ has_flag flags 0x80) }
    ensures hint { IfSome result (λ f. is_some f.hint ≡ has_flag flags 0x02) }
{
    if let Some((id1, rest)) = read_text_when(flags & 0x08 != 0, rest)
        && let Some((id2, rest)) = read_text_when(flags & 0x20 != 0, rest)
        && let Some((size2, rest)) = read_number_when(flags & 0x80 != 0, rest)
        && let Some((hint, tail)) = read_text_when(flags & 0x02 != 0, rest)
    {
        Some(VolumeMore {
            id1,
            id2,
            size2,
            hint,
            tail,
        })
    } else {
        None
    }
}

// The bytes of these fields in the record's own spelling.
fn own_len(main: &VolumeMain<'_>, more: &VolumeMore<'_>) -> usize
    ensures len { result ≡ values_len (main_seen main.now) + values_len (more_seen more.now) }
    ensures few { result < 2 ^ 32 }
{
    (main.kind.len() + 1)
        + (main.second.len() + 1)
        + 58
        + number_len(main.children)
        + number_len(main.size)
        + text_len_when(more.id1)
        + text_len_when(more.id2)
        + number_len_when(more.size2)
        + text_len_when(more.hint)
}

// The optional texts of a volume.
#[derive(Drop)]
struct MoreTexts {
    id1: Option<Bytes>,
    id2: Option<Bytes>,
    hint: Option<Bytes>,
}

fn more_texts(alloc: Global, more: &VolumeMore<'_>) -> Result<MoreTexts, NoMemory>
    ensures id1 { IfOk result (λ t. t.id1 ≡ seen more.now.id1) }
    ensures id2 { IfOk result (λ t. t.id2 ≡ seen more.now.id2) }
    ensures hint { IfOk result (λ t. t.hint ≡ seen more.now.hint) }
{
    if let Ok(id1) = bytes_when(alloc, more.id1)
        && let Ok(id2) = bytes_when(alloc, more.id2)
        && let Ok(hint) = bytes_when(alloc, more.hint)
    {
        Ok(MoreTexts { id1, id2, hint })
    } else {
        Err(NoMemory)
    }
}

/// The volume whose fields after the name stand in the rest. Its own spelling has the room.
pub fn volume_of(alloc: Global, opening: &Opening<'_>, rest: &[u8]) -> Result<Record, RecordError>
    ensures { Gives plain_of result (rest_at opening.now 0x51
        (volume_kinds opening.now.flags) rest.now) }
{
    let Some((main, rest)) = read_main(rest) else {
        return Err(RecordError::Fault(RecordFault::Malformed));
    };
    let Some(more) = read_more(opening.flags, rest) else {
        return Err(RecordError::Fault(RecordFault::Malformed));
    };
    let (head, tail) = ends_of(alloc, opening, own_len(&main, &more), more.tail)?;
    if let Ok((kind, second)) = both_bytes(alloc, main.kind, main.second)
        && let Ok(texts) = more_texts(alloc, &more)
    {
        Ok(Record::Volume(Volume {
            head,
            kind,
            second,
            fixed21: main.fixed21,
            children: main.children,
            fixed16: main.fixed16,
            size: main.size,
            fixed4: main.fixed4,
            part_type: main.part_type,
            guid: main.guid,
            id1: texts.id1,
            id2: texts.id2,
            size2: more.size2,
            hint: texts.hint,
            tail,
        }))
    } else {
        Err(RecordError::NoMemory)
    }
}
