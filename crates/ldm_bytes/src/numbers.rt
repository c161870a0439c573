//! Variable numbers and texts, which a length byte begins.
ghost use Rattle.std.specs.Prelude.{◌≡◌, ℕ, ◌+◌, ◌≤◌, ◌++◌, ◌<◌, ◌^◌, List, length, drop, Some};
ghost use Rattle.std.specs.Prelude.{IfSome};
ghost use Rattle.byteorder.specs.Endian.{big_bytes};
ghost use Rattle.ldm_bytes.specs.Numbers.{IsBytes, IsNumber, IsText, width, own_number, number_at};
ghost use Rattle.ldm_bytes.specs.Numbers.{text_at, Reads};
ghost use Rattle.ldm_bytes.specs.Places.{put};

use byteorder::{BigEndian, ByteOrder};

/// The variable number at the front, and the bytes after it. None where none begins there.
#[tactic(auto, unfolding(crate::specs::Numbers::number_at))]
pub fn front_number(bytes: &[u8]) -> Option<(u64, &[u8])>
    ensures { Reads (λ x. (x.0, x.1.now)) result (number_at bytes.now) }
{
    let [count, rest @ ..] = bytes else {
        return None;
    };
    let count = *count as usize;
    if count > 8 {
        return None;
    }
    if rest.len() < count {
        return None;
    }
    if count == 0 {
        return Some((0, rest));
    }
    let value = BigEndian::read_uint(rest, count);
    Some((value, &rest[count..]))
}

/// The variable text at the front, and the bytes after it. None where none begins there.
#[tactic(auto, unfolding(crate::specs::Numbers::text_at))]
pub fn front_text(bytes: &[u8]) -> Option<(&[u8], &[u8])>
    ensures exact { Reads (λ x. (x.0.now, x.1.now)) result (text_at bytes.now) }
    ensures small { IfSome result (λ x. length x.0.now ≤ 255) }
{
    let [count, rest @ ..] = bytes else {
        return None;
    };
    let count = *count as usize;
    if rest.len() < count {
        return None;
    }
    Some(rest.split_at(count))
}

/// The variable number at a place, and the next place. None exactly where none begins there.
pub fn take_number(bytes: &[u8], at: usize) -> Option<(u64, usize)>
    ensures found { IfSome result (λ x. (w : List ℕ) × IsNumber x.0 w × (x.1 ≡ at + length w)
        × (drop at bytes.now ≡ w ++ drop x.1 bytes.now)) }
    ensures only { (v : ℕ) (w z : List ℕ) → IsNumber v w → drop at bytes.now ≡ w ++ z
        → result ≡ Some (v, at + length w) }
{
    if at >= bytes.len() {
        return None;
    }
    let (value, rest) = front_number(&bytes[at..])?;
    Some((value, bytes.len() - rest.len()))
}

/// The first place of the variable text at a place, and the next place. None exactly where none
/// begins there.
pub fn take_text(bytes: &[u8], at: usize) -> Option<(usize, usize)>
    ensures found { IfSome result (λ x. (t : List ℕ) × (w : List ℕ) × IsText t w × (x.0 ≡ at + 1)
        × (x.1 ≡ at + length w) × (drop at bytes.now ≡ w ++ drop x.1 bytes.now)) }
    ensures only { (t w z : List ℕ) → IsText t w → drop at bytes.now ≡ w ++ z
        → result ≡ Some (at + 1, at + length w) }
{
    if at >= bytes.len() {
        return None;
    }
    let (_, rest) = front_text(&bytes[at..])?;
    Some((at + 1, bytes.len() - rest.len()))
}

fn width_of(v: u64) -> usize
    ensures value { result ≡ width v }
    ensures fits { v < 256 ^ result }
    ensures few { result ≤ 8 }
    ensures some { 1 ≤ result }
{
    if v < 1 << 8 {
        1
    } else if v < 1 << 16 {
        2
    } else if v < 1 << 24 {
        3
    } else if v < 1 << 32 {
        4
    } else if v < 1 << 40 {
        5
    } else if v < 1 << 48 {
        6
    } else if v < 1 << 56 {
        7
    } else {
        8
    }
}

/// The bytes that the written number takes, its length byte included.
#[tactic(auto, using(crate::proofs::NumberLaws::own_len))]
pub fn number_len(v: u64) -> usize
    ensures len { result ≡ length (own_number v) }
    ensures spells { IsNumber v (own_number v) }
    ensures few { result ≤ 9 }
    // No other spelling with a byte behind its length byte is shorter.
    ensures fewest { (w : List ℕ) → IsNumber v w → IsBytes w → 2 ≤ length w → result ≤ length w }
{
    1 + width_of(v)
}

// Writes the lowest bytes of a number at a place.
fn put_uint(buf: &mut [u8], at: usize, v: u64, count: usize)
    requires some { 1 ≤ count }
    requires few { count ≤ 8 }
    requires fits { v < 256 ^ count }
    requires room { at + count ≤ length buf.old }
    ensures { buf.new ≡ put buf.old at (big_bytes count v) }
{
    BigEndian::write_uint(&mut buf[at..], v, count);
}

/// Writes the number with the fewest bytes, and answers the next place. All other bytes stay.
#[tactic(auto, using(crate::proofs::NumberLaws::own_len))]
pub fn put_number(buf: &mut [u8], at: usize, v: u64) -> usize
    requires { at + length (own_number v) ≤ length buf.old }
    ensures written { buf.new ≡ put buf.old at (own_number v) }
    ensures next { result ≡ at + length (own_number v) }
{
    let count = width_of(v);
    buf[at] = count as u8;
    put_uint(buf, at + 1, v, count);
    at + 1 + count
}
