//! What the end of a record's fields leaves: its tail.
ghost use Rattle.std.specs.Prelude.{◌≡◌, ◌<◌, ◌+◌, ◌^◌, ℕ, List, length, IfOk};
ghost use Rattle.ldm_bytes.specs.Numbers.{own_number};
ghost use Rattle.ldm_records.specs.Values.{Value, values_len};
ghost use Rattle.ldm_payloads.specs.Steps.{typed_at, with_room};
ghost use Rattle.ldm_payloads.specs.Gives.{Gives};
ghost use Rattle.ldm_payloads.specs.Opened.{opened, ended, typed_after};

use crate::fault::{RecordError, RecordFault};
use crate::fields::{both_bytes, read_number, read_text};
use crate::opening::Opening;
use ldm_bytes::{Bytes, number_len};
use ldm_records::Head;
use std::alloc::Global;

/// The opening of a record with this body, and the bytes after its name.
pub fn opening_of(mark: u16, flags: u8, room: usize, body: &[u8]) -> Option<(Opening<'_>, &[u8])>
    ensures { (type : ℕ) → typed_at mark flags type room body.now ≡ typed_after result type }
{
    if let Some((id, rest)) = read_number(body)
        && let Some((name, rest)) = read_text(rest)
    {
        let opening = Opening {
            mark,
            flags,
            id,
            name,
            room,
        };
        Some((opening, rest))
    } else {
        None
    }
}

/// The head and the tail of a record, of whose own spelling the fields after the name have `len`
/// bytes, if that spelling has the room.
pub fn ends_of(
    alloc: Global,
    opening: &Opening<'_>,
    len: usize,
    tail: &[u8],
) -> Result<(Head, Bytes), RecordError>
    requires { len < 2 ^ 32 }
    ensures gives { (type : ℕ) (values : List Value) → values_len values ≡ len
        → Gives (ended type values) result (with_room opening.now.room
        (opened opening.now type (values, tail.now))) }
    ensures flags { IfOk result (λ x. x.0.flags ≡ opening.now.flags) }
    ensures short { IfOk result (λ x. length (own_number x.0.id) + (length x.0.name + 1) + len
        + length x.1 < 2 ^ 32) }
{
    let own = number_len(opening.id) + (opening.name.len() + 1) + len + tail.len();
    if opening.room < 8 + own || own >= 1 << 32 {
        return Err(RecordError::Fault(RecordFault::Malformed));
    }
    let (name, tail) = both_bytes(alloc, opening.name, tail)?;
    let head = Head {
        mark: opening.mark,
        flags: opening.flags,
        id: opening.id,
        name,
    };
    Ok((head, tail))
}
