//! Sectors of a disk, as they are read.
ghost use Rattle.std.specs.Prelude.{◌≡◌, ◌+◌, ◌*◌, ◌^◌, ◌<◌, ◌≤◌, length, slice_index, slice_range};
ghost use Rattle.std.specs.Prelude.{IfOk, IsErr};
ghost use Rattle.std.specs.Str.{bytes_eq};
ghost use Rattle.ldm_host.specs.Moves.{Looks};
ghost use Rattle.ldm_host.specs.Seen.{image};
ghost use Rattle.ldm_label.specs.Fields.{sector};

use ldm_host::{Failed, Host};

/// The text stands at that place of a sector.
pub fn has_text(sector: &[u8; 512], at: usize, text: &[u8]) -> bool
    requires { at + length text.now ≤ 512 }
    ensures { result ≡ bytes_eq (slice_range sector.now at (at + length text.now)) text.now }
{
    &sector[at..at + text.len()] == text
}

/// The bytes of a sector of a disk, in one call of the disk. It takes no memory.
pub fn read_sector<H: Host>(host: &mut H, disk: usize, at: u64) -> Result<[u8; 512], Failed>
    requires disk { disk < length (H.seen host.old).sizes }
    requires inside { at < slice_index (H.seen host.old).sizes disk }
    requires few { at < 2 ^ 55 }
    ensures bytes { H.tells_disks → IfOk result (λ bytes. bytes
        ≡ sector (image (H.seen host.old).content disk) at) }
    ensures looks { Looks (H.seen host.old) (H.seen host.new) (IsErr result) }
{
    let mut bytes = [0u8; 512];
    host.read_at(disk, 512 * at, &mut bytes)?;
    Ok(bytes)
}
