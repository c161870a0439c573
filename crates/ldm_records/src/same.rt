//! Whether two records are equal.
ghost use Rattle.std.specs.Prelude.{◌≡◌, ◌↔◌, IsTrue};
ghost use Rattle.ldm_records.specs.FieldViews.{value_of, values_of};
ghost use Rattle.ldm_records.specs.Outlines.{listed};

use crate::field::Field;
use crate::listing::record_sound;
use crate::outline::{Outline, outline_of};
use crate::pieces::Head;
use crate::types::Record;

fn is_same_field(a: Field, b: Field) -> bool
    ensures { IsTrue result ↔ (value_of a.entry ≡ value_of b.entry) }
{
    match (a, b) {
        (Field::Fixed(a), Field::Fixed(b)) => a == b,
        (Field::Wide(a), Field::Wide(b)) => a == b,
        (Field::Wide16(a), Field::Wide16(b)) => a == b,
        (Field::Guid(a), Field::Guid(b)) => a == b,
        (Field::Number(a), Field::Number(b)) => a == b,
        (Field::Text(a), Field::Text(b)) => a == b,
        (Field::Absent, Field::Absent) => true,
        _ => false,
    }
}

fn are_same_fields(fields: &[Field], others: &[Field]) -> bool
    ensures { IsTrue result ↔ (values_of fields.now ≡ values_of others.now) }
{
    if fields.len() != others.len() {
        return false;
    }
    for (i, field) in fields.iter().enumerate() {
        if !is_same_field(*field, others[i]) {
            return false;
        }
    }
    true
}

fn is_same_head(a: &Head, b: &Head) -> bool
    ensures { IsTrue result ↔ ((a.now.mark ≡ b.now.mark) × (a.now.flags ≡ b.now.flags)) }
{
    a.mark == b.mark && a.flags == b.flags
}

fn is_same_outline(a: &Outline, b: &Outline) -> bool
    ensures { IsTrue result ↔ (listed a.now ≡ listed b.now) }
{
    a.kind == b.kind
        && is_same_head(a.head, b.head)
        && are_same_fields(&a.fields, &b.fields)
        && a.tail.as_slice() == b.tail.as_slice()
}

impl Record {
    /// Whether both are equal records. It takes no memory.
    pub fn same(&self, other: &Record) -> bool
        ensures { IsTrue result ↔ (self.now ≡ other.now) }
    {
        record_sound(self);
        record_sound(other);
        is_same_outline(&outline_of(self), &outline_of(other))
    }
}
