//! Names of devices, and escapes.
ghost use Rattle.std.specs.Prelude.{◌≡◌, ◌<◌, ◌++◌, OnOk, IfOk};
ghost use Rattle.ldm_words.specs.Names.{hex_digit};
ghost use Rattle.ldm_table.specs.Names.{is_letter, is_listed, mangled_byte, mangled, device_name};
ghost use Rattle.ldm_table.specs.Names.{part_device, volume_name, escaped_byte, escaped};
ghost use Rattle.ldm_table.specs.Names.{argument_byte, argument};

use ldm_bytes::{Bytes, NoMemory};
use ldm_records::Volume;
use ldm_text::Text;
use std::alloc::Global;

fn is_letter(c: u8) -> bool
    ensures { result ≡ is_letter c }
{
    c.is_ascii_digit() || c.is_ascii_uppercase() || c.is_ascii_lowercase()
}

// Whether a name of a device may have this byte as it is.
fn is_listed(c: u8) -> bool
    ensures { result ≡ is_listed c }
{
    is_letter(c) || matches!(c, b'#' | b'+' | b'-' | b'.' | b':' | b'=' | b'@' | b'_')
}

fn hex_digit(d: u8) -> u8
    requires { d < 16 }
    ensures { result ≡ hex_digit d }
{
    if d < 10 { 48 + d } else { 87 + d }
}

fn push_mangled_byte(text: &mut Text, c: u8) -> Result<(), NoMemory>
    ensures { OnOk result (text.new ≡ text.old ++ mangled_byte c) }
{
    if is_listed(c) {
        text.push(&[c])
    } else {
        text.push(&[b'\\', b'x', hex_digit(c / 16), hex_digit(c % 16)])
    }
}

fn push_mangled(text: &mut Text, name: &[u8]) -> Result<(), NoMemory>
    ensures { OnOk result (text.new ≡ text.old ++ mangled name.now) }
{
    for c in name {
        push_mangled_byte(text, *c)?;
    }
    Ok(())
}

// A word, the group and a name.
#[tactic(auto, unfolding(crate::specs::Names::device_name))]
fn device_name(alloc: Global, word: &[u8], group: &[u8], name: &[u8]) -> Result<Bytes, NoMemory>
    ensures { IfOk result (λ text. text ≡ device_name word.now group.now name.now) }
{
    let mut text = Text::new(alloc);
    text.push(word)?;
    push_mangled(&mut text, group)?;
    text.push(b"_")?;
    push_mangled(&mut text, name)?;
    Ok(text.into_bytes())
}

/// The name of the device of a partition.
pub(crate) fn part_name(alloc: Global, group: &[u8], name: &[u8]) -> Result<Bytes, NoMemory>
    ensures { IfOk result (λ text. text ≡ part_device group.now name.now) }
{
    device_name(alloc, b"ldm_part_", group, name)
}

/// The name of the device of a volume.
pub(crate) fn volume_name(alloc: Global, group: &[u8], volume: &Volume) -> Result<Bytes, NoMemory>
    ensures { IfOk result (λ text. text ≡ volume_name group.now volume.now) }
{
    device_name(alloc, b"ldm_vol_", group, volume.head.name.as_slice())
}

fn push_escaped_byte(text: &mut Text, c: u8) -> Result<(), NoMemory>
    ensures { OnOk result (text.new ≡ text.old ++ escaped_byte c) }
{
    if matches!(c, b',' | b';' | b'\\') {
        text.push(&[b'\\', c])
    } else {
        text.push(&[c])
    }
}

/// A text in which commas, semicolons and backslashes are escaped.
pub(crate) fn push_escaped(text: &mut Text, name: &[u8]) -> Result<(), NoMemory>
    ensures { OnOk result (text.new ≡ text.old ++ escaped name.now) }
{
    for c in name {
        push_escaped_byte(text, *c)?;
    }
    Ok(())
}

fn push_argument_byte(text: &mut Text, c: u8) -> Result<(), NoMemory>
    ensures { OnOk result (text.new ≡ text.old ++ argument_byte c) }
{
    if c == b'\\' {
        text.push(b"\\\\\\\\")
    } else {
        push_escaped_byte(text, c)
    }
}

/// An argument of a target.
pub(crate) fn push_argument(text: &mut Text, word: &[u8]) -> Result<(), NoMemory>
    ensures { OnOk result (text.new ≡ text.old ++ argument word.now) }
{
    for c in word {
        push_argument_byte(text, *c)?;
    }
    Ok(())
}
