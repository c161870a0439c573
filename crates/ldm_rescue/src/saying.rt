//! Sectors of a volume off disks that fail: what is said of them, and which are told to be lost.
ghost use Rattle.std.specs.Prelude.{◌≡◌, ◌+◌, ◌*◌, ◌<◌, ◌≤◌, ◌++◌, ℕ, List, length, IfOk, IsErr};
ghost use Rattle.ldm_host.specs.declared.host.DiskRange.{DiskRange as Read};
ghost use Rattle.ldm_host.specs.Moves.{Looks, Still, SameInput, Begins, TalkFailed};
ghost use Rattle.ldm_dump.specs.Runs.{LiesOn};
ghost use Rattle.ldm_rescue.specs.declared.losses.Loss.{Loss as Range};
ghost use Rattle.ldm_rescue.specs.Losses.{lost_in, AreRanges};
ghost use Rattle.ldm_host.specs.Failed.{failed_since};
ghost use Rattle.ldm_rescue.specs.Told.{AreTold, SoFar};

use crate::losses::{Losing, Losses, add_read, end_last};
use crate::reading::rescue_some;
use ldm_found::Found;
use ldm_host::{Failed, Host};
use ldm_layout::Plan;

// Fills the buffer with so many sectors from this one on.
fn rescue_piece<H: Host, L: Losses<H>>(
    host: &mut H,
    losses: &mut L,
    losing: &mut Losing,
    found: &Found,
    plan: &Plan,
    sector: u64,
    count: u64,
    buffer: &mut [u8],
    scratch: &mut [u8],
)
    requires within { sector + count ≤ plan.now.size }
    requires whole { length buffer.old ≡ 512 * count }
    requires same { length scratch.old ≡ length buffer.old }
    requires few { losing.old.lost ≤ sector }
    requires lies { LiesOn found.now plan.now (H.seen host.old).sizes }
    ensures few { losing.new.lost ≤ sector + count }
    ensures so_far { (failed : List Read) (before : List Range) (first n : ℕ) (bytes : List ℕ)
        → sector ≡ first + n
        → SoFar H.tells_disks L.tells (H.seen host.old).content failed before (L.lost losses.old)
        losing.old found.now plan.now first n bytes
        → SoFar H.tells_disks L.tells (H.seen host.old).content
        (failed ++ failed_since (H.seen host.old) (H.seen host.new)) before (L.lost losses.new)
        losing.new found.now plan.now first (n + count) (bytes ++ buffer.new) }
    ensures looks { Looks (H.seen host.old) (H.seen host.new) ⊥ }
{
    prove!(sector <= plan.size());
    let end = sector + count;
    let mut done = 0;
    'steps: while done < count {
        let at = 512 * done as usize;
        let read = rescue_some(
            host,
            found,
            plan,
            sector + done,
            end,
            &mut buffer[at..],
            &mut scratch[at..],
        );
        add_read(host, losses, losing, sector + done, read);
        done += read.count;
    }
}

/// Says so many sectors of a volume, from the first on, in pieces as large as the buffer, and tells
/// which are lost, range by range. It answers how many those are. It takes no memory. Where standard
/// output fails it ends, and the last range may be untold.
pub fn rescue_sectors<H: Host, L: Losses<H>>(
    host: &mut H,
    losses: &mut L,
    found: &Found,
    plan: &Plan,
    first: u64,
    count: u64,
    buffer: &mut [u8],
    scratch: &mut [u8],
) -> Result<u64, Failed>
    requires within { first + count ≤ plan.now.size }
    requires room { 512 ≤ length buffer.old }
    requires same { length scratch.old ≡ length buffer.old }
    requires lies { LiesOn found.now plan.now (H.seen host.old).sizes }
    ensures said { H.tells_disks → IfOk result (λ lost. (bytes : List ℕ) × (losses_told : List Range)
        × ((H.seen host.new).said ≡ (H.seen host.old).said ++ bytes)
        × (L.tells → L.lost losses.new ≡ L.lost losses.old ++ losses_told)
        × AreTold (H.seen host.old).content (failed_since (H.seen host.old) (H.seen host.new))
        found.now plan.now first count bytes losses_told
        × AreRanges first (first + count) losses_told
        × (lost ≡ lost_in losses_told)) }
    ensures front { H.tells_disks → IsErr result → (n : ℕ) × (bytes : List ℕ)
        × (losses_told : List Range) × (n ≤ count)
        × Begins (H.seen host.new).said ((H.seen host.old).said ++ bytes)
        × AreTold (H.seen host.old).content (failed_since (H.seen host.old) (H.seen host.new))
        found.now plan.now first n bytes losses_told }
    ensures talk { IsErr result → TalkFailed (H.seen host.old) (H.seen host.new) }
    ensures still { Still (H.seen host.old) (H.seen host.new) }
    ensures input { SameInput (H.seen host.old) (H.seen host.new) }
{
    prove!(first <= plan.size());
    let mut losing = Losing {
        last: None,
        lost: 0,
    };
    let mut done = 0;
    'pieces: while done < count {
        let next = (count - done).min(buffer.len() as u64 / 512);
        let size = 512 * next as usize;
        rescue_piece(
            host,
            losses,
            &mut losing,
            found,
            plan,
            first + done,
            next,
            &mut buffer[..size],
            &mut scratch[..size],
        );
        host.say(&buffer[..size])?;
        done += next;
    }
    end_last(losses, losing.last);
    Ok(losing.lost)
}
