//! Names as they are said.
ghost use Rattle.std.specs.Prelude.{◌≡◌, ◌<◌, ◌++◌, IfOk, OnOk, codes, decimal};
ghost use Rattle.ldm_bytes.specs.Guid.{own_guid};
ghost use Rattle.ldm_words.specs.Names.{hex_digit, hex_byte, esc_byte, esc};
ghost use Rattle.ldm_text.specs.Texts.{guid_of_volume};

use crate::growing::Text;
use crate::parts::{Part, push_parts};
use byteorder::{BigEndian, ByteOrder};
use ldm_bytes::{Bytes, NoMemory};
use ldm_records::Volume;
use ldm_words::is_plain;
use std::alloc::Global;

fn hex_digit(d: u8) -> u8
    requires { d < 16 }
    ensures { result ≡ hex_digit d }
{
    if d < 10 { 48 + d } else { 87 + d }
}

/// Two lower-case hexadecimal digits.
pub(crate) fn hex_byte(c: u8) -> [u8; 2]
    ensures { result ≡ hex_byte c }
{
    [hex_digit(c / 16), hex_digit(c % 16)]
}

// A byte of a name, as it is written.
fn push_esc_byte(text: &mut Text, c: u8) -> Result<(), NoMemory>
    ensures { OnOk result (text.new ≡ text.old ++ esc_byte c) }
{
    if is_plain(c) {
        text.push(&[c])
    } else {
        text.push(&[b'\\', b'x', hex_digit(c / 16), hex_digit(c % 16)])
    }
}

/// A name, as it is written.
pub(crate) fn push_esc(text: &mut Text, name: &[u8]) -> Result<(), NoMemory>
    ensures { OnOk result (text.new ≡ text.old ++ esc name.now) }
{
    if name.is_empty() {
        return text.push(b"\\e");
    }
    for c in name {
        push_esc_byte(text, *c)?;
    }
    Ok(())
}

/// A number behind a word.
pub fn push_number(text: &mut Text, word: &[u8], number: u64) -> Result<(), NoMemory>
    ensures { OnOk result (text.new ≡ text.old ++ (word.now ++ decimal number)) }
{
    push_parts(text, &[Part::Word(word), Part::Number(number)])
}

/// The text of a number behind a word, and of what is said of it.
pub fn said_text(alloc: Global, word: &[u8], number: u64, said: &[u8]) -> Result<Bytes, NoMemory>
    ensures { IfOk result (λ text. text ≡ word.now ++ decimal number ++ said.now) }
{
    let mut text = Text::new(alloc);
    push_number(&mut text, word, number)?;
    text.push(said)?;
    Ok(text.into_bytes())
}

/// A name behind a word.
pub fn push_name(text: &mut Text, word: &[u8], name: &[u8]) -> Result<(), NoMemory>
    ensures { OnOk result (text.new ≡ text.old ++ (word.now ++ esc name.now)) }
{
    push_parts(text, &[Part::Word(word), Part::Name(name)])
}

/// A name behind a word, and then a GUID.
pub fn push_named(text: &mut Text, word: &[u8], name: &[u8], guid: u128) -> Result<(), NoMemory>
    ensures { OnOk result (text.new ≡ text.old ++ ((word.now ++ esc name.now)
        ++ (codes " " ++ own_guid guid))) }
{
    push_name(text, word, name)?;
    push_parts(text, &[Part::Word(b" "), Part::Guid(guid)])
}

/// The GUID of a volume.
#[tactic(auto, unfolding(crate::specs::Texts::guid_of_volume))]
pub fn guid_of(v: &Volume) -> u128
    ensures { result ≡ guid_of_volume v.now }
{
    BigEndian::read_u128(&v.guid)
}
