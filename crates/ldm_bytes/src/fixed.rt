//! Big-endian numbers of 16, 32 and 64 bits at plain offsets.
ghost use Rattle.std.specs.Prelude.{◌≡◌, ◌+◌, ◌≤◌, length};
ghost use Rattle.byteorder.specs.Endian.{big_bytes};
ghost use Rattle.ldm_bytes.specs.Places.{u16_at, u32_at, u64_at, put};

use byteorder::{BigEndian, ByteOrder};

/// The big-endian number of 16 bits at a place.
pub fn get_u16(bytes: &[u8], at: usize) -> u16
    requires { at + 2 ≤ length bytes.now }
    ensures { result ≡ u16_at bytes.now at }
{
    BigEndian::read_u16(&bytes[at..])
}

/// The big-endian number of 32 bits at a place.
pub fn get_u32(bytes: &[u8], at: usize) -> u32
    requires { at + 4 ≤ length bytes.now }
    ensures { result ≡ u32_at bytes.now at }
{
    BigEndian::read_u32(&bytes[at..])
}

/// The big-endian number of 64 bits at a place.
pub fn get_u64(bytes: &[u8], at: usize) -> u64
    requires { at + 8 ≤ length bytes.now }
    ensures { result ≡ u64_at bytes.now at }
{
    BigEndian::read_u64(&bytes[at..])
}

/// Writes a big-endian number of 16 bits at a place. All other bytes stay.
pub fn put_u16(buf: &mut [u8], at: usize, v: u16)
    requires { at + 2 ≤ length buf.old }
    ensures { buf.new ≡ put buf.old at (big_bytes 2 v) }
{
    BigEndian::write_u16(&mut buf[at..], v);
}

/// Writes a big-endian number of 32 bits at a place. All other bytes stay.
pub fn put_u32(buf: &mut [u8], at: usize, v: u32)
    requires { at + 4 ≤ length buf.old }
    ensures { buf.new ≡ put buf.old at (big_bytes 4 v) }
{
    BigEndian::write_u32(&mut buf[at..], v);
}

/// Writes a big-endian number of 64 bits at a place. All other bytes stay.
pub fn put_u64(buf: &mut [u8], at: usize, v: u64)
    requires { at + 8 ≤ length buf.old }
    ensures { buf.new ≡ put buf.old at (big_bytes 8 v) }
{
    BigEndian::write_u64(&mut buf[at..], v);
}

/// Writes bytes at a place. All other bytes stay.
pub fn put_bytes(buf: &mut [u8], at: usize, bytes: &[u8])
    requires { at + length bytes.now ≤ length buf.old }
    ensures { buf.new ≡ put buf.old at bytes.now }
{
    buf[at..at + bytes.len()].copy_from_slice(bytes);
}
