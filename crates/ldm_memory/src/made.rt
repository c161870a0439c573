//! Images of zeros, and copies of images.
// How a host in memory is made and looked at.
ghost use Rattle.std.specs.Prelude.{◌≡◌, ◌<◌, ◌++◌, ◌∷◌, [], ℕ, length, replicate, slice_index};
ghost use Rattle.std.specs.Prelude.{IfOk, OnOk, Ok, Vec, false};
ghost use Rattle.std.specs.declared.alloc.Global.{Global};
ghost use Rattle.ldm_bytes.specs.Numbers.{IsBytes};
ghost use Rattle.ldm_host.specs.Images.{items_of};
ghost use Rattle.ldm_memory.specs.Memory.{memory_seen, story_of, host_counts, plan_of, bad_ranges};
ghost use Rattle.ldm_host.specs.Moves.{Settled};
ghost use Rattle.ldm_memory.specs.Plan.{no_failures};
ghost use Rattle.ldm_host.specs.Seen.{image};

use crate::MemoryHost;
use ldm_bytes::NoMemory;
use ldm_host::DiskRange;
use std::alloc::{AllocError, Global};

// A copy of an image.
pub(crate) fn copy_of(alloc: Global, image: &[u8]) -> Result<Vec<u8>, AllocError>
    ensures is { IfOk result (λ copy. copy.items ≡ image.now) }
    ensures bytes { IsBytes image.now }
{
    image.to_vec(alloc)
}

// Puts an image that was made behind the others.
pub(crate) fn push_made(
    images: &mut Vec<Vec<u8>>,
    made: Result<Vec<u8>, AllocError>,
) -> Result<(), AllocError>
    ensures { OnOk result ((image : Vec ℕ Global) × (made ≡ Ok image)
        × (images.new.items ≡ images.old.items ++ image ∷ [])) }
{
    images.push(made?).ok().ok_or(AllocError)
}

// A copy of each image.
fn copies(alloc: Global, images: &[Vec<u8>]) -> Result<Vec<Vec<u8>>, AllocError>
    ensures is { IfOk result (λ all. items_of all.items ≡ items_of images.now) }
    ensures bytes { IfOk result (λ all. (disk : ℕ) → IsBytes (image (items_of all.items) disk)) }
{
    let mut all = Vec::new(alloc);
    for image in images {
        push_made(&mut all, copy_of(alloc, image))?;
    }
    Ok(all)
}

// This number of counts of 0.
fn zeros(alloc: Global, count: usize) -> Result<Vec<u64>, AllocError>
    ensures { IfOk result (λ all. all.items ≡ replicate count 0) }
{
    vec![in alloc; 0; count]
}

impl MemoryHost {
    /// A host of these images, which hears this script. Nothing is pending, nothing was said, no
    /// call is chosen to fail and no stop is set.
    pub fn new(alloc: Global, images: Vec<Vec<u8>>, script: Vec<u8>) -> Result<MemoryHost, NoMemory>
        ensures content { IfOk result (λ host. (memory_seen host).content ≡ items_of images.items) }
        ensures settled { IfOk result (λ host. (disk : ℕ) → Settled (memory_seen host) disk) }
        ensures said { IfOk result (λ host. (memory_seen host).said ≡ []) }
        ensures heard { IfOk result (λ host. (memory_seen host).heard.bytes ≡ []) }
        ensures unended { IfOk result (λ host. (memory_seen host).heard.ended ≡ false) }
        ensures input { IfOk result (λ host. (memory_seen host).input ≡ script.items) }
        ensures clock { IfOk result (λ host. (memory_seen host).clock ≡ 0) }
        ensures disk_faults { IfOk result (λ host. (host_counts host).disk_faults ≡ 0) }
        ensures talk_faults { IfOk result (λ host. (host_counts host).talk_faults ≡ 0) }
        ensures dry { IfOk result (λ host. (host_counts host).dry ≡ 0) }
        ensures wrote { IfOk result (λ host. (host_counts host).wrote
            ≡ replicate (length images.items) 0) }
        ensures failed { IfOk result (λ host. (host_counts host).failed ≡ []) }
        ensures plan { IfOk result (λ host. plan_of host ≡ no_failures) }
        ensures bad { IfOk result (λ host. bad_ranges host ≡ []) }
    {
        if let Ok(first) = copies(alloc, &images)
            && let Ok(handed) = zeros(alloc, images.len())
        {
            Ok(MemoryHost {
                alloc,
                first,
                script,
                calls: Vec::new(alloc),
                held: images,
                said: Vec::new(alloc),
                heard: 0,
                handed,
                chosen: Vec::new(alloc),
                stop: u64::MAX,
                number: 0,
                disk_faults: 0,
                talk_faults: 0,
                dry: 0,
                bad: Vec::new(alloc),
                failed: Vec::new(alloc),
            })
        } else {
            Err(NoMemory)
        }
    }

    /// The calls with these numbers fail. All calls of `read_at`, `write_at`, `sync`, `hear` and
    /// `say` are numbered together from 1, up to 2^64 - 1, which is the number of all later calls
    /// too.
    ///
    /// A `write_at` or `say` that fails so takes the first half of its bytes, rounded down.
    pub fn with_failures(self, calls: Vec<u64>) -> MemoryHost
        ensures story { story_of result ≡ story_of self }
        ensures counts { host_counts result ≡ host_counts self }
        ensures plan { plan_of result ≡ record (plan_of self) { chosen = calls.items } }
        ensures bad { bad_ranges result ≡ bad_ranges self }
    {
        let mut host = self;
        host.chosen = calls;
        host
    }

    /// Each call with a greater number fails and takes nothing.
    pub fn stop_after(self, calls: u64) -> MemoryHost
        ensures story { story_of result ≡ story_of self }
        ensures counts { host_counts result ≡ host_counts self }
        ensures plan { plan_of result ≡ record (plan_of self) { stop = calls } }
        ensures bad { bad_ranges result ≡ bad_ranges self }
    {
        let mut host = self;
        host.stop = calls;
        host
    }

    /// Each read that touches a byte of one of these ranges fails, whenever it is tried.
    pub fn with_bad(self, ranges: Vec<DiskRange>) -> MemoryHost
        ensures story { story_of result ≡ story_of self }
        ensures counts { host_counts result ≡ host_counts self }
        ensures plan { plan_of result ≡ plan_of self }
        ensures bad { bad_ranges result ≡ ranges.items }
    {
        let mut host = self;
        host.bad = ranges;
        host
    }

    /// The content of a disk.
    pub fn image(&self, disk: usize) -> &[u8]
        requires { disk < length (memory_seen self.now).sizes }
        ensures { result.now ≡ image (memory_seen self.now).content disk }
    {
        &self.held[disk]
    }

    /// All bytes said so far.
    pub fn said(&self) -> &[u8]
        ensures { result.now ≡ (memory_seen self.now).said }
    {
        &self.said
    }

    /// How many calls found no memory, up to the counter's last value.
    pub fn dry(&self) -> u64
        ensures { result ≡ (host_counts self.now).dry }
    {
        self.dry
    }

    /// How many bytes were handed to `write_at` for a disk, up to the counter's last value.
    pub fn handed(&self, disk: usize) -> u64
        requires { disk < length (memory_seen self.now).sizes }
        ensures { result ≡ slice_index (memory_seen self.now).wrote disk }
    {
        self.handed[disk]
    }
}
