//! The header of a new group.
ghost use Rattle.std.specs.Prelude.{◌≡◌, ◌≢◌, ◌≤◌, All, IfOk, length};
ghost use Rattle.ldm_written.specs.Made.{new_raw, IsNewHeader};

use ldm_bytes::{Bytes, NoMemory, put_bytes, put_u16, put_u32, write_guid};
use ldm_vmdb::Header;
use std::alloc::Global;

// The carried bytes of a new header.
fn new_raw(name: &[u8], guid: u128) -> [u8; 512]
    requires { length name.now ≤ 30 }
    ensures { result ≡ new_raw name.now guid }
{
    let mut text = [0; 36];
    write_guid(guid, &mut text);
    let mut raw = [0; 512];
    put_bytes(&mut raw, 0x00, b"VMDB");
    put_u32(&mut raw, 0x08, 128);
    put_u32(&mut raw, 0x0C, 512);
    put_u16(&mut raw, 0x10, 1);
    put_u16(&mut raw, 0x12, 4);
    put_u16(&mut raw, 0x14, 10);
    put_bytes(&mut raw, 0x16, name);
    put_bytes(&mut raw, 0x35, &text);
    raw
}

/// The header of a new database. Its name has 30 bytes at most, since a zero byte ends it, and its
/// GUID is carried as a text in lower case.
pub fn new_header(
    alloc: Global,
    name: &[u8],
    guid: u128,
    last: u32,
    seq: u64,
) -> Result<Header, NoMemory>
    requires short { length name.now ≤ 30 }
    requires without_zero { All (λ byte. byte ≢ 0) name.now }
    ensures { IfOk result (λ header. IsNewHeader header name.now guid last seq) }
{
    let raw = new_raw(name, guid);
    let name = Bytes::from_slice(alloc, name)?;
    Ok(Header {
        last,
        seq,
        name,
        guid,
        raw,
    })
}
