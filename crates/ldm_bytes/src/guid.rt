//! GUID texts: 32 hexadecimal digits with hyphens between them.
ghost use Rattle.std.specs.Prelude.{◌≡◌, ◌≤◌, ◌<◌, ◌++◌, length, drop, Some};
ghost use Rattle.ldm_bytes.specs.Guid.{own_guid, guid_of};

use uuid::Uuid;

/// The GUID that the text stands for. None exactly where it is no GUID text.
pub fn read_guid(text: &[u8]) -> Option<u128>
    ensures { result ≡ guid_of text.now }
{
    if text.len() != 36 {
        return None;
    }
    match Uuid::try_parse_ascii(text) {
        Ok(id) => Some(id.as_u128()),
        Err(_) => None,
    }
}

/// Writes the GUID's text, 36 characters in lower case, to the front of the buffer.
pub fn write_guid(guid: u128, out: &mut [u8])
    requires { 36 ≤ length out.old }
    ensures written { out.new ≡ own_guid guid ++ drop 36 out.old }
    ensures reads_back { guid_of (own_guid guid) ≡ Some guid }
{
    let mut buffer = Uuid::encode_buffer();
    let id = Uuid::from_u128(guid).hyphenated();
    let text = id.encode_lower(&mut buffer);
    put_text(out, text.as_bytes());
}

// Copies a text of 36 characters to the front.
fn put_text(out: &mut [u8], text: &[u8])
    requires room { 36 ≤ length out.old }
    requires whole { length text.now ≡ 36 }
    ensures { out.new ≡ text.now ++ drop 36 out.old }
{
    out[..36].copy_from_slice(text);
}
