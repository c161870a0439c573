//! A host, and patches for its disks.
ghost use Rattle.std.specs.Prelude.{◌≡◌, ◌+◌, ◌*◌, ◌<◌, ◌≤◌, ◌++◌, ◌∷◌, [], ℕ, slice_get, slice_index};
ghost use Rattle.std.specs.Prelude.{slice_range, length, take, Some, OnOk, OnErr, IsErr};
ghost use Rattle.ldm_host.specs.Moves.{Looks};
ghost use Rattle.ldm_host.specs.Seen.{image};
ghost use Rattle.ldm_view.specs.declared.patch.Patch.{Patch};
ghost use Rattle.ldm_view.specs.Patches.{IsOnDisk};

use crate::patch::Patch;
use ldm_bytes::NoMemory;
use ldm_host::{Failed, Host};
use std::alloc::Global;

/// A host, and patches that a view of it shows, each over those before it.
pub struct Patched<H: Host> {
    pub host: H,
    pub patches: Vec<Patch>,
    ghost lie: { (k : ℕ) (p : Patch) → slice_get patches.items k ≡ Some p → IsOnDisk (H.seen host).sizes p },
}

impl<H: Host> Patched<H> {
    /// A host without patches. It takes no memory.
    pub fn new(alloc: Global, host: H) -> Patched<H>
        ensures host { result.host ≡ host }
        ensures none { result.patches.items ≡ [] }
    {
        Patched {
            host,
            patches: Vec::new(alloc),
        }
    }

    /// Fills the buffer with the bytes of a disk of the host from a place on, as they are without
    /// patches.
    pub fn read_under(&mut self, disk: usize, at: u64, buf: &mut [u8]) -> Result<(), Failed>
        requires disk { disk < length (H.seen self.old.host).sizes }
        requires range { at + length buf.old ≤ 512 * slice_index (H.seen self.old.host).sizes disk }
        ensures filled { H.tells_disks → OnOk result (buf.new
            ≡ slice_range (image (H.seen self.old.host).content disk) at (at + length buf.old)) }
        ensures patches { self.new.patches.items ≡ self.old.patches.items }
        ensures looks { Looks (H.seen self.old.host) (H.seen self.new.host) (IsErr result) }
        ensures failed { H.tells_disks → OnErr result ((H.seen self.new.host).failed
            ≡ (H.seen self.old.host).failed
            ++ record { disk = disk; at = at; length = length buf.old } ∷ []) }
    {
        self.host.read_at(disk, at, buf)
    }

    /// One patch more.
    pub fn show(&mut self, patch: Patch) -> Result<(), NoMemory>
        requires { IsOnDisk (H.seen self.old.host).sizes patch }
        ensures shown { OnOk result (self.new.patches.items ≡ self.old.patches.items ++ patch ∷ []) }
        ensures unchanged { OnErr result (self.new.patches.items ≡ self.old.patches.items) }
        ensures host { self.new.host ≡ self.old.host }
    {
        self.patches.push(patch)?;
        Ok(())
    }

    /// Leaves off the patches behind the first ones.
    pub fn keep(&mut self, patches: usize)
        ensures kept { self.new.patches.items ≡ take patches self.old.patches.items }
        ensures host { self.new.host ≡ self.old.host }
    {
        self.patches.truncate(patches);
    }
}
