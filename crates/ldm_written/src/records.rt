//! The own spelling of a record.
ghost use Rattle.std.specs.Prelude.{◌≡◌, ◌+◌, ◌<◌, ◌≤◌, ◌^◌, ◌++◌, ◌∷◌, List, ℕ, length, OnOk};
ghost use Rattle.std.specs.Prelude.{IfOk};
ghost use Rattle.byteorder.specs.Endian.{big_bytes};
ghost use Rattle.ldm_records.specs.Values.{Number, Text, GuidText, own_value, own_values};
ghost use Rattle.ldm_records.specs.Values.{values_len};
ghost use Rattle.ldm_records.specs.FieldViews.{value_of, values_of};
ghost use Rattle.ldm_records.specs.Plain.{Spells, made, own_spelling};
ghost use Rattle.ldm_records.specs.Views.{plain_of};
ghost use Rattle.ldm_written.specs.Spelled.{IsShort, AreShort};

use ldm_bytes::{Bytes, NoMemory, put_number, write_guid};
use ldm_records::{Field, Head, Record, fields_len, outline_of, record_sound};
use std::alloc::Global;

// ---- fields, whatever their record

fn push_bytes(out: &mut Vec<u8>, bytes: &[u8]) -> Result<(), NoMemory>
    ensures { OnOk result (out.new.items ≡ out.old.items ++ bytes.now) }
{
    Ok(out.extend_from_slice(bytes)?)
}

fn push_text(out: &mut Vec<u8>, text: &[u8]) -> Result<(), NoMemory>
    requires { length text.now ≤ 255 }
    ensures { OnOk result (out.new.items ≡ out.old.items ++ own_value (Text text.now)) }
{
    out.push(text.len() as u8)?;
    push_bytes(out, text)
}

fn push_number(out: &mut Vec<u8>, v: u64) -> Result<(), NoMemory>
    ensures { OnOk result (out.new.items ≡ out.old.items ++ own_value (Number v)) }
{
    let mut buf = [0; 9];
    let end = put_number(&mut buf, 0, v);
    push_bytes(out, &buf[..end])
}

fn push_guid(out: &mut Vec<u8>, guid: u128) -> Result<(), NoMemory>
    ensures { OnOk result (out.new.items ≡ out.old.items ++ own_value (GuidText guid)) }
{
    let mut buf = [0; 36];
    write_guid(guid, &mut buf);
    push_text(out, &buf)
}

fn push_field(out: &mut Vec<u8>, field: Field) -> Result<(), NoMemory>
    requires { IsShort (value_of field) }
    ensures { OnOk result (out.new.items ≡ out.old.items ++ own_value (value_of field.entry)) }
{
    match field {
        Field::Fixed(bytes) => push_bytes(out, bytes),
        Field::Wide(v) => push_bytes(out, &v.to_be_bytes()),
        Field::Wide16(v) => push_bytes(out, &v.to_be_bytes()),
        Field::Guid(v) => push_guid(out, v),
        Field::Number(v) => push_number(out, v),
        Field::Text(text) => push_text(out, text),
        Field::Absent => Ok(()),
    }
}

fn push_fields(out: &mut Vec<u8>, fields: &[Field]) -> Result<(), NoMemory>
    requires { AreShort (values_of fields.now) }
    ensures { OnOk result (out.new.items ≡ out.old.items ++ own_values (values_of fields.now)) }
{
    for field in fields {
        push_field(out, *field)?;
    }
    Ok(())
}

fn push_head(out: &mut Vec<u8>, mark: u16, flags: u8, kind: u8, len: u32) -> Result<(), NoMemory>
    ensures { OnOk result (out.new.items ≡ out.old.items
        ++ (big_bytes 2 mark ++ flags ∷ kind ∷ big_bytes 4 len)) }
{
    let mark = mark.to_be_bytes();
    let len = len.to_be_bytes();
    push_fields(
        out,
        &[
            Field::Fixed(&mark),
            Field::Fixed(&[flags, kind]),
            Field::Fixed(&len),
        ],
    )
}

fn push_record(
    out: &mut Vec<u8>,
    head: &Head,
    kind: u8,
    fields: &[Field],
    tail: &Bytes,
) -> Result<(), NoMemory>
    requires short { AreShort (values_of fields.now) }
    requires fits { values_len (values_of fields.now) + length tail.now < 2 ^ 32 }
    ensures { let plain = made head.now.mark head.now.flags kind (values_of fields.now, tail.now) in
        OnOk result (out.new.items ≡ out.old.items ++ own_spelling plain) }
{
    let tail = tail.as_slice();
    let len = fields_len(fields) + tail.len();
    push_head(out, head.mark, head.flags, kind, len as u32)?;
    push_fields(out, fields)?;
    push_bytes(out, tail)
}

// ---- records

/// The record's own spelling: numbers with the fewest bytes, GUID texts in lower case, the tail,
/// and no filling.
pub fn spelling(alloc: Global, r: &Record) -> Result<Bytes, NoMemory>
    ensures own { IfOk result (λ b. b ≡ own_spelling (plain_of r.now)) }
    // With any filling behind it, it spells the record.
    ensures again { IfOk result (λ b. (filling : List ℕ) → Spells (plain_of r.now) (b ++ filling)) }
{
    record_sound(r);
    let outline = outline_of(r);
    let mut out = Vec::new(alloc);
    push_record(
        &mut out,
        outline.head,
        outline.kind,
        &outline.fields,
        outline.tail,
    )?;
    Ok(Bytes::from_vec(out))
}
