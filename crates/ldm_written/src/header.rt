//! Writes a header with a sequence and counts.
ghost use Rattle.std.specs.Prelude.{◌≡◌, ◌+◌, ◌*◌, ◌≤◌, ℕ, None, length};
ghost use Rattle.ldm_bytes.specs.Places.{put};
ghost use Rattle.ldm_vmdb.specs.Headers.{vmdb_fault};
ghost use Rattle.ldm_written.specs.Headers.{written, counts_bytes, ReadsBack};

use ldm_bytes::{put_u32, put_u64};
use ldm_vmdb::Header;

/// How many records of each kind a database has, as its header counts them.
#[derive(Clone, Copy)]
pub struct Counts {
    pub volumes: u32,
    pub components: u32,
    pub partitions: u32,
    pub disks: u32,
}

// The carried header bytes, which the sector begins as.
fn copy_carried(raw: &[u8], out: &mut [u8; 512])
    requires { length raw.now ≡ 512 }
    ensures { out.new ≡ raw.now }
{
    out.copy_from_slice(raw);
}

// The four counts at a place.
fn put_counts(out: &mut [u8], at: usize, counts: Counts)
    requires { at + 16 ≤ length out.old }
    ensures { out.new ≡ put out.old at (counts_bytes counts) }
{
    put_u32(out, at, counts.volumes);
    put_u32(out, at + 4, counts.components);
    put_u32(out, at + 8, counts.partitions);
    put_u32(out, at + 12, counts.disks);
}

/// Writes the sector of a header with this sequence, as committed and as pending, and with these
/// counts in both places. Where the last VBLK fits the area, it reads back as the header with that
/// sequence.
pub fn write_header(header: &Header, seq: u64, counts: Counts, out: &mut [u8; 512])
    ensures bytes { out.new ≡ written header.now seq counts }
    ensures reads_back { ReadsBack header.now seq out.new }
    ensures no_fault { (area_sectors : ℕ) → header.now.last ≤ 4 * area_sectors
        → vmdb_fault out.new area_sectors ≡ None }
{
    let last = header.last;
    copy_carried(&header.raw, out);
    put_u32(out, 0x04, last);
    put_u64(out, 0x75, seq);
    put_u64(out, 0x7D, seq);
    put_counts(out, 0x85, counts);
    put_counts(out, 0xA1, counts);
}
