//! Writes the changed blocks of a body behind a closed gate.
ghost use Rattle.std.specs.Prelude.{◌≡◌, ◌≢◌, ℕ, ◌+◌, ◌-◌, ◌*◌, ◌^◌, ◌<◌, ◌≤◌, List, length};
ghost use Rattle.std.specs.Prelude.{slice_index, OnOk, IsErr};
ghost use Rattle.ldm_host.specs.Moves.{Settled, Writes, Changes, DiskFailed};
ghost use Rattle.ldm_host.specs.Seen.{image};
ghost use Rattle.ldm_label.specs.LabelOf.{Fits};
ghost use Rattle.ldm_copy.specs.Copy.{gate_at};
ghost use Rattle.ldm_body.specs.Body.{HasBody};
ghost use Rattle.ldm_changed.specs.Change.{ChangesFrom};

use crate::change::Change;
use ldm_body::gate_at;
use ldm_host::{Failed, Host};
use ldm_label::Label;

// Writes some of the bytes of a body, each where it stands behind the place of the first.
fn write_part<H: Host>(
    host: &mut H,
    disk: usize,
    at: u64,
    body: &[u8],
    from: usize,
    to: usize,
) -> Result<(), Failed>
    requires disk { disk < length (H.seen host.old).sizes }
    requires order { from ≤ to }
    requires within { to ≤ length body.now }
    requires room { at + length body.now ≤ 512 * slice_index (H.seen host.old).sizes disk }
    requires small { at + length body.now < 2 ^ 64 }
    ensures written { H.tells_disks → OnOk result ((k : ℕ) → from ≤ k → k < to
        → slice_index (image (H.seen host.new).content disk) (at + k) ≡ slice_index body.now k) }
    ensures writes { Writes disk (at + from) (to - from) (H.seen host.old) (H.seen host.new) }
    ensures cause { IsErr result → DiskFailed (H.seen host.old) (H.seen host.new) }
{
    host.write_at(disk, at + from as u64, &body[from..to])
}

// How many numbers follow one another from this place of the list on.
fn run_from(numbers: &[u32], k: usize) -> usize
    requires { k < length numbers.now }
    ensures some { 1 ≤ result }
    ensures within { k + result ≤ length numbers.now }
    ensures run { (i : ℕ) → i < result → slice_index numbers.now (k + i)
        ≡ slice_index numbers.now k + i }
{
    for n in 1..numbers.len() - k {
        if u64::from(numbers[k + n]) != u64::from(numbers[k]) + n as u64 {
            return n;
        }
    }
    numbers.len() - k
}

/// Writes the header of a change's body but the gate, and the blocks of its list, behind the gate
/// of a closed copy, where the old body stands, then syncs. Blocks that follow one another go in
/// one write.
pub fn fill_changed<H: Host>(
    host: &mut H,
    disk: usize,
    label: &Label,
    change: &Change,
) -> Result<(), Failed>
    requires disk { disk < length (H.seen host.old).sizes }
    requires fits { Fits label.now (slice_index (H.seen host.old).sizes disk) }
    requires room { length change.now.body ≤ 512 * label.now.area_sectors }
    requires settled { Settled (H.seen host.old) disk }
    requires closed { H.tells_disks → (c : List ℕ) → (H.seen host.old).may_leave disk c
        → slice_index c (gate_at label.now) ≢ 0x56 }
    requires before { H.tells_disks → (old : List ℕ) × ChangesFrom old change.now
        × HasBody label.now old (image (H.seen host.old).content disk) }
    ensures filled { H.tells_disks → OnOk result ((c : List ℕ) → (H.seen host.new).may_leave disk c
        → HasBody label.now change.now.body c) }
    ensures settled { OnOk result (Settled (H.seen host.new) disk) }
    ensures changes { Changes disk (gate_at label.now + 1) (length change.now.body - 1)
        (H.seen host.old) (H.seen host.new) }
    ensures wrote { slice_index (H.seen host.new).wrote disk
        ≤ slice_index (H.seen host.old).wrote disk + (511 + 128 * length change.now.numbers) }
    ensures cause { IsErr result → DiskFailed (H.seen host.old) (H.seen host.new) }
{
    let at = gate_at(host, disk, label);
    let body = change.body.as_slice();
    let numbers = change.numbers.as_slice();
    write_part(host, disk, at, body, 1, 512)?;
    let mut k = 0;
    while k < numbers.len() {
        let run = run_from(numbers, k);
        let from = 128 * numbers[k] as usize;
        write_part(host, disk, at, body, from, from + 128 * run)?;
        k += run;
    }
    host.sync(disk)
}
