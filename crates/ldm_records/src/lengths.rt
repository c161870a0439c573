//! The length of a record's own spelling.
ghost use Rattle.std.specs.Prelude.{◌≡◌, ◌<◌, ◌^◌, length};
ghost use Rattle.ldm_records.specs.Values.{value_len, values_len};
ghost use Rattle.ldm_records.specs.FieldViews.{value_of, values_of};
ghost use Rattle.ldm_records.specs.Plain.{IsRecord, own_spelling};
ghost use Rattle.ldm_records.specs.Views.{plain_of};

use crate::field::Field;
use crate::listing::record_sound;
use crate::outline::outline_of;
use crate::types::Record;
use ldm_bytes::number_len;

fn field_len(field: Field) -> usize
    requires { value_len (value_of field) < 2 ^ 32 }
    ensures { result ≡ value_len (value_of field.entry) }
{
    match field {
        Field::Fixed(bytes) => bytes.len(),
        Field::Wide(_) => 8,
        Field::Wide16(_) => 16,
        Field::Guid(_) => 37,
        Field::Number(v) => number_len(v),
        Field::Text(text) => text.len() + 1,
        Field::Absent => 0,
    }
}

/// The length of the fields as they are written.
pub fn fields_len(fields: &[Field]) -> usize
    requires { values_len (values_of fields.now) < 2 ^ 32 }
    ensures { result ≡ values_len (values_of fields.now) }
{
    let mut total = 0;
    for field in fields {
        total += field_len(*field);
    }
    total
}

/// The length of the record's own spelling. It takes no memory.
pub fn spelled_len(r: &Record) -> usize
    ensures len { result ≡ length (own_spelling (plain_of r.now)) }
    // The record keeps what every record of its type does, so that its own spelling spells it.
    ensures sound { IsRecord (plain_of r.now) }
{
    record_sound(r);
    let outline = outline_of(r);
    8 + (fields_len(&outline.fields) + outline.tail.as_slice().len())
}
