//! Rows of the tests: bytes from short texts.
use ldm_words::read_number;
use std::alloc::Global;
use std::fmt::Debug;
use std::process::Abort;

// Fails the test at this row where the row does not hold.
pub(crate) fn check(rt: &impl Abort, holds: bool, row: impl Debug + Drop) {
    assert!(rt; holds, "at {row:?}");
}

fn hex_byte(pair: &[u8]) -> Option<u8> {
    let text = std::str::from_utf8(pair).ok()?;
    u8::from_str_radix(text, 16).ok()
}

fn push_hex(rt: &impl Abort, bytes: &mut Vec<u8>, digits: &[u8]) {
    for pair in digits.chunks(2) {
        let byte = hex_byte(pair).expect(rt, "a byte");
        bytes.push(byte).expect(rt, "memory");
    }
}

fn number(digits: &[u8]) -> Option<u32> {
    match read_number(digits) {
        Some(number) if number <= 0xFFFF_FFFF => Some(number as u32),
        _ => None,
    }
}

fn push_zeros(rt: &impl Abort, bytes: &mut Vec<u8>, digits: &[u8]) {
    let count = number(digits).expect(rt, "a number").min(65536) as usize;
    let len = bytes.len().saturating_add(count);
    bytes.resize(len, 0).expect(rt, "memory");
}

fn push_len(rt: &impl Abort, bytes: &mut Vec<u8>, digits: &[u8]) {
    let len = number(digits).expect(rt, "a number").to_be_bytes();
    push_text(rt, bytes, &len);
}

fn push_text(rt: &impl Abort, bytes: &mut Vec<u8>, text: &[u8]) {
    bytes.extend_from_slice(text).expect(rt, "memory");
}

fn push_word(rt: &impl Abort, bytes: &mut Vec<u8>, word: &[u8]) {
    match word {
        [b'z', count @ ..] => push_zeros(rt, bytes, count),
        [b'l', len @ ..] => push_len(rt, bytes, len),
        [b'\'', text @ ..] => push_text(rt, bytes, text),
        _ => push_hex(rt, bytes, word),
    }
}

// The bytes of a text of words: `zN` is N zeros, `lN` the length N in four bytes, `'text` the
// text's bytes, and any other word is in hexadecimal digits.
pub(crate) fn bytes_of(rt: &impl Abort, alloc: Global, text: &str) -> Vec<u8> {
    let mut bytes = Vec::new(alloc);
    for word in text.split_whitespace() {
        push_word(rt, &mut bytes, word.as_bytes());
    }
    bytes
}
