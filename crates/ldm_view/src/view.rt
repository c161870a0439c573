//! The view of a host.
ghost use Rattle.std.specs.Prelude.{◌≡◌, ◌+◌, ◌*◌, ◌-◌, ◌^◌, ◌≤◌, ◌<◌, ℕ, List, [], length, min, set, slice_index};
ghost use Rattle.std.specs.Prelude.{slice_get, Some, IfOk, IfErr};
ghost use Rattle.ldm_host.specs.Seen.{Seen};
ghost use Rattle.ldm_view.specs.declared.patch.Patch.{Patch};
ghost use Rattle.ldm_view.specs.Patches.{IsOnDisk};
ghost use Rattle.ldm_host.specs.Moves.{Still};

use crate::patch::{Patch, covers, lay_all};
use crate::patched::Patched;
use ldm_host::{DiskRange, Failed, Host};
use std::alloc::Global;
use std::marker::{Brand, PhantomData};

/// What was seen of a host when a view of it was made, and what the view shows. Each call of a program picks it.
pub trait Start {
    ghost start: { Seen };

    /// The patches that are shown.
    ghost patches: { List Patch };
}

/// A host over another, which shows patches in place of bytes of its disks. It refuses each call
/// that writes.
pub struct View<H: Host, S: Start> {
    host: H,
    patches: Vec<Patch>,
    wrote: Vec<u64>,
    refused: u64,
    missed: Option<DiskRange>,
    of: PhantomData<S>,
    ghost counted: { length wrote.items ≡ length (H.seen host).sizes },
    ghost lie: { (k : ℕ) (p : Patch) → slice_get patches.items k ≡ Some p → IsOnDisk (H.seen host).sizes p },
    ghost fixed: { ∥ patches.items ≡ S.patches ∥₁ },
    ghost unrefused: { ((k : ℕ) → slice_index wrote.items k ≡ 0) → refused ≡ 0 },
    ghost still: { ∥ Still S.start (H.seen host) ∥₁ },
}

// Counts bytes that were handed, up to the counter's last value.
fn hand(wrote: &mut Vec<u64>, disk: usize, n: usize)
    requires { disk < length wrote.old.items }
    ensures { wrote.new.items ≡ set wrote.old.items disk
        (min (slice_index wrote.old.items disk + n) (2 ^ 64 - 1)) }
{
    wrote[disk] = wrote[disk].saturating_add(n as u64);
}

impl Start for Brand {
    ghost use Rattle.ldm_view.specs.Start.{nothing_seen};

    ghost start = { nothing_seen };

    ghost patches = { [] };
}

impl<H: Host, S: Start> View<H, S> {
    /// The view of a host with its patches. Where memory runs out both come back.
    pub fn new(alloc: Global, under: Patched<H>) -> Result<View<H, S>, Patched<H>>
        requires start { Still S.start (H.seen under.host) }
        requires fixed { ∥ under.patches.items ≡ S.patches ∥₁ }
        ensures host { IfOk result (λ view. view.host ≡ under.host) }
        ensures patches { IfOk result (λ view. view.patches.items ≡ under.patches.items) }
        ensures fresh { IfOk result (λ view. (view.refused ≡ 0)
            × ((k : ℕ) → slice_index view.wrote.items k ≡ 0)) }
        ensures back_host { IfErr result (λ u. u.host ≡ under.host) }
        ensures back_patches { IfErr result (λ u. u.patches.items ≡ under.patches.items) }
    {
        match vec![in alloc; 0u64; under.host.disks()] {
            Ok(wrote) => {
                let Patched { host, patches } = under;
                Ok(View {
                    host,
                    patches,
                    wrote,
                    refused: 0,
                    missed: None,
                    of: PhantomData,
                })
            }
            Err(_) => Err(under),
        }
    }

    /// The host with its patches. It is as it was, but for what was heard and said.
    pub fn into_under(self) -> Patched<H>
        ensures host { result.host ≡ self.host }
        ensures patches { result.patches.items ≡ self.patches.items }
        ensures still { ∥ Still S.start (H.seen result.host) ∥₁ }
        ensures fixed { ∥ result.patches.items ≡ S.patches ∥₁ }
        ensures unrefused { ((k : ℕ) → slice_index self.wrote.items k ≡ 0) → self.refused ≡ 0 }
    {
        let View {
            host,
            patches,
            wrote: _,
            refused: _,
            missed: _,
            of: _,
        } = self;
        Patched { host, patches }
    }

    /// What was to be read by the last read of this view that failed.
    pub fn missed(&self) -> Option<DiskRange> {
        self.missed
    }
}

impl<H: Host, S: Start> Host for View<H, S> {
    ghost use Rattle.ldm_view.specs.ViewSeen.{view_seen};
    ghost use Rattle.ldm_view.specs.Laws.{view_one_each, view_lengths, view_bytes, view_all_bytes};
    ghost use Rattle.ldm_view.specs.Laws.{view_counts, view_only};
    ghost use Rattle.std.specs.Prelude.{refl};
    ghost use Rattle.std.proofs.Common.{ap};

    ghost seen = { λ v. view_seen H.tells_disks v.patches.items v.wrote.items v.refused (H.seen v.host) };

    ghost tells_disks = { H.tells_disks };

    ghost tells_talk = { H.tells_talk };

    ghost tells_both = { H.tells_both };

    ghost one_each = { λ tells v. view_one_each v.patches.items (H.seen v.host) (H.one_each tells v.host) };

    ghost counts_each = { λ v. v.counted };

    ghost lengths = { λ tells v disk lt. view_lengths v.patches.items (H.seen v.host) disk (H.one_each tells v.host) lt (H.lengths tells v.host disk lt) };

    ghost may_stay = { λ tells v disk lt. (tells, lt, refl) };

    ghost same_length = { λ v disk c left. ap length left.2 };

    ghost left_bytes = { λ v disk c left. view_bytes H.tells_disks v.patches.items (H.seen v.host) v.lie (λ tells. H.one_each tells v.host) (λ tells. H.may_stay tells v.host) (H.left_bytes v.host) disk c left };

    ghost bytes_since = { λ v t images said since disk lt. view_all_bytes H.tells_disks v.patches.items (H.seen v.host) v.lie (λ tells. H.one_each tells v.host) (λ tells. H.may_stay tells v.host) (H.left_bytes v.host) t images said since disk lt };

    ghost counts_now = { λ v t images le left. view_counts H.tells_disks v.patches.items v.wrote.items v.refused (H.seen v.host) (H.counts_now v.host) (H.only_now v.host) (λ tells. H.may_stay tells v.host) (λ tells. H.one_each tells v.host) t images le left };

    ghost only_now = { λ v images said since. view_only H.tells_disks v.patches.items v.wrote.items v.refused (H.seen v.host) (H.counts_now v.host) (H.only_now v.host) images said since };

    fn disks(&self) -> usize {
        self.host.disks()
    }

    fn sectors(&self, disk: usize) -> u64 {
        self.host.sectors(disk)
    }

    fn read_at(&mut self, disk: usize, at: u64, buf: &mut [u8]) -> Result<(), Failed> {
        let sectors = self.host.sectors(disk);
        // What is read lies on the disk, so its places fit their type.
        prove!(at <= 512 * sectors);
        let length = buf.len();
        if covers(&self.patches, disk, at, length as u64) {
            lay_all(&self.patches, disk, at, buf);
            return Ok(());
        }
        if let Err(failed) = self.host.read_at(disk, at, buf) {
            self.missed = Some(DiskRange { disk, at, length });
            return Err(failed);
        }
        lay_all(&self.patches, disk, at, buf);
        Ok(())
    }

    fn write_at(&mut self, disk: usize, _at: u64, bytes: &[u8]) -> Result<(), Failed> {
        hand(&mut self.wrote, disk, bytes.len());
        if bytes.is_empty() {
            return Ok(());
        }
        self.refused = self.refused.saturating_add(1);
        Err(Failed)
    }

    fn sync(&mut self, _disk: usize) -> Result<(), Failed> {
        Ok(())
    }

    fn hear(&mut self, buf: &mut [u8]) -> Result<usize, Failed> {
        self.host.hear(buf)
    }

    fn say(&mut self, bytes: &[u8]) -> Result<(), Failed> {
        self.host.say(bytes)
    }
}
