//! Names as they are written.
ghost use Rattle.std.specs.Prelude.{◌≡◌, ◌<◌, ◌≤◌, IfOk, IfSome, IsTrue, length};
ghost use Rattle.ldm_words.specs.Names.{name_of, spelled, is_plain, is_hex, hex_value};
ghost use Rattle.ldm_words.specs.Names.{escaped_value, NamesReadBack};
ghost use Rattle.ldm_words.specs.Units.{unit_of};

use ldm_bytes::{Bytes, NoMemory};
use std::alloc::Global;

fn is_hex(c: u8) -> bool
    ensures { result ≡ is_hex c }
{
    c.is_ascii_digit() || (b'a'..=b'f').contains(&c)
}

fn hex_value(c: u8) -> u8
    requires { IsTrue (is_hex c) }
    ensures is { result ≡ hex_value c }
    ensures small { result < 16 }
{
    if c >= b'a' { c - b'a' + 10 } else { c - b'0' }
}

/// Whether a byte stands for itself in a name: 0x21 to 0x7E, but the backslash.
pub fn is_plain(c: u8) -> bool
    ensures { result ≡ is_plain c }
{
    c >= 0x21 && c <= 0x7E && c != b'\\'
}

// The byte that an escape stands for.
fn escaped_byte(x: u8, a: u8, b: u8) -> Option<u8>
    ensures { result ≡ escaped_value x a b }
{
    if x == b'x' && is_hex(a) && is_hex(b) {
        Some(16 * hex_value(a) + hex_value(b))
    } else {
        None
    }
}

// The byte that is spelled at the front, and how many bytes spell it.
fn unit_at(rest: &[u8]) -> Option<(u8, usize)>
    requires { 0 < length rest.now }
    ensures unit { result ≡ unit_of rest.now }
    ensures within { IfSome result (λ unit. (0 < unit.1) × (unit.1 ≤ length rest.now)) }
{
    let c = rest[0];
    if c == b'\\' && rest.len() >= 4 {
        let byte = escaped_byte(rest[1], rest[2], rest[3])?;
        return Some((byte, 4));
    }
    if is_plain(c) { Some((c, 1)) } else { None }
}

// The bytes that the word spells.
fn spell(alloc: Global, word: &[u8]) -> Result<Option<Bytes>, NoMemory>
    ensures { IfOk result (λ bytes. bytes ≡ spelled word.now) }
{
    let mut name = Vec::new(alloc);
    let mut at = 0;
    while at < word.len() {
        let Some((byte, len)) = unit_at(&word[at..]) else {
            return Ok(None);
        };
        name.push(byte)?;
        at += len;
    }
    Ok(Some(Bytes::from_vec(name)))
}

/// The name that the word is. `None` exactly where it is none.
#[tactic(auto, using(crate::proofs::NameLaws::names_back), unfolding(crate::specs::Names::name_of))]
pub fn read_name(alloc: Global, word: &[u8]) -> Result<Option<Bytes>, NoMemory>
    ensures is { IfOk result (λ name. name ≡ name_of word.now) }
    ensures back { NamesReadBack }
{
    if word.is_empty() {
        return Ok(None);
    }
    if word == b"\\e".as_slice() {
        return Ok(Some(Bytes::from_vec(Vec::new(alloc))));
    }
    let Some(name) = spell(alloc, word)? else {
        return Ok(None);
    };
    if name.as_slice().len() <= 255 {
        Ok(Some(name))
    } else {
        Ok(None)
    }
}
