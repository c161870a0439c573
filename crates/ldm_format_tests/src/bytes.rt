//! Numbers at plain offsets, variable numbers, texts, copies of bytes, and GUID texts.
use ldm_bytes::{
    Bytes, get_u16, get_u32, get_u64, number_len, put_number, put_u16, put_u32, put_u64, read_guid,
    take_number, take_text, write_guid,
};
use std::test::Fail;

#[test]
fn high_byte_first(rt: HostRuntime) {
    let bytes = [0xFF, 0x01, 0x02, 0x03, 0x04, 0x05, 0x06, 0x07, 0x08];
    assert_eq!(rt; get_u16(&bytes, 1), 0x0102);
    assert_eq!(rt; get_u32(&bytes, 1), 0x0102_0304);
    assert_eq!(rt; get_u64(&bytes, 1), 0x0102_0304_0506_0708);
    let mut written = [0xFFu8; 16];
    put_u16(&mut written, 0, 0x0102);
    put_u32(&mut written, 3, 0x0304_0506);
    put_u64(&mut written, 8, 0x0708_090A_0B0C_0D0E);
    let want = [
        1, 2, 0xFF, 3, 4, 5, 6, 0xFF, 7, 8, 9, 0x0A, 0x0B, 0x0C, 0x0D, 0x0E,
    ];
    assert_eq!(rt; written.as_slice(), want.as_slice());
}

#[test]
fn takes_numbers(rt: HostRuntime) {
    assert_eq!(rt; take_number(&[2, 1, 0], 0), Some((256, 3)));
    assert_eq!(rt; take_number(&[0], 0), Some((0, 1)));
    assert_eq!(rt; take_number(&[3, 0, 0, 5], 0), Some((5, 4)));
    assert_eq!(rt; take_number(&[2, 1], 0), None);
    assert_eq!(rt; take_number(&[9, 1, 2, 3, 4, 5, 6, 7, 8, 9], 0), None);
    assert_eq!(rt; take_number(&[7, 7, 1, 5], 2), Some((5, 4)));
    assert_eq!(rt; take_number(&[7], 1), None);
}

#[test]
fn takes_texts(rt: HostRuntime) {
    assert_eq!(rt; take_text(b"\x03gen", 0), Some((1, 4)));
    assert_eq!(rt; take_text(b"\x00", 0), Some((1, 1)));
    assert_eq!(rt; take_text(b"\x04gen", 0), None);
    assert_eq!(rt; take_text(b"", 0), None);
}

#[test]
fn puts_numbers(rt: HostRuntime) {
    let five: &[u8] = &[1, 5];
    let zero: &[u8] = &[1, 0];
    let more: &[u8] = &[2, 1, 0];
    let most: &[u8] = &[8, 255, 255, 255, 255, 255, 255, 255, 255];
    for (v, want) in [(5, five), (0, zero), (256, more), (u64::MAX, most)] {
        let len = number_len(v);
        assert_eq!(rt; len, want.len(), "of {v}");
        let mut buf = [0xEEu8; 11];
        assert_eq!(rt; put_number(&mut buf, 1, v), 1 + want.len(), "of {v}");
        assert_eq!(rt; &buf[1..1 + len], want, "of {v}");
        assert_eq!(rt; buf[0], 0xEE);
    }
}

#[test]
fn copies(rt: HostRuntime) -> Result<(), Fail> {
    let bytes = Bytes::from_slice(rt.alloc(), b"LDM")?;
    let copy = bytes.clone_in(rt.alloc())?;
    assert_eq!(rt; copy.as_slice(), b"LDM".as_slice());
    Ok(())
}

#[test]
fn reads_either_case_and_writes_lower(rt: HostRuntime) {
    let guid = 0xAAAA_AAAA_BBBB_CCCC_DDDD_0123_4567_89AB;
    let upper = b"AAAAAAAA-bbbb-CCCC-dddd-0123456789aB";
    assert_eq!(rt; read_guid(upper), Some(guid));
    let mut text = [0u8; 38];
    write_guid(guid, &mut text);
    assert_eq!(rt;
        text.as_slice(),
        b"aaaaaaaa-bbbb-cccc-dddd-0123456789ab\0\0".as_slice()
    );
    assert_eq!(rt; read_guid(&upper[..35]), None);
    assert_eq!(rt; read_guid(b"AAAAAAAA-bbbb-CCCC-dddd+0123456789aB"), None);
    assert_eq!(rt; read_guid(b"{AAAAAAAA-bbbb-CCCC-dddd-0123456789aB}"), None);
    assert_eq!(rt; read_guid(b"AAAAAAAAbbbbCCCCdddd0123456789aB"), None);
}
