//! Texts as lists of parts.
ghost use Rattle.std.specs.Prelude.{◌≡◌, ◌++◌, OnOk, IfOk};
ghost use Rattle.ldm_text.specs.Parts.{text_of_part, text_of_parts};

use crate::growing::Text;
use crate::naming::push_esc;
use ldm_bytes::{Bytes, NoMemory};
use std::alloc::Global;

/// A part of a text.
#[derive(Clone, Copy)]
pub enum Part<'a> {
    /// These bytes.
    Word(&'a [u8]),
    /// A number in decimal.
    Number(u64),
    /// A name, as it is written.
    Name(&'a [u8]),
    /// A GUID text in lower case.
    Guid(u128),
}

fn push_part(text: &mut Text, part: Part) -> Result<(), NoMemory>
    ensures { OnOk result (text.new ≡ text.old ++ text_of_part part.entry) }
{
    match part {
        Part::Word(word) => text.push(word),
        Part::Number(number) => text.push_number(number),
        Part::Name(name) => push_esc(text, name),
        Part::Guid(guid) => text.push_guid(guid),
    }
}

/// Adds the parts, one after the other.
pub fn push_parts(text: &mut Text, parts: &[Part]) -> Result<(), NoMemory>
    ensures { OnOk result (text.new ≡ text.old ++ text_of_parts parts.now) }
{
    for part in parts {
        push_part(text, *part)?;
    }
    Ok(())
}

/// The text of the parts, one after the other.
pub(crate) fn text_of(alloc: Global, parts: &[Part]) -> Result<Bytes, NoMemory>
    ensures { IfOk result (λ text. text ≡ text_of_parts parts.now) }
{
    let mut text = Text::new(alloc);
    push_parts(&mut text, parts)?;
    Ok(text.into_bytes())
}
