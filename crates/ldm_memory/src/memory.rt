//! A host in memory, which keeps a list of its calls.
ghost use Rattle.ldm_host.specs.Images.{items_of};
ghost use Rattle.ldm_memory.specs.Kept.{IsKeptHost};

use crate::call::Call;
use ldm_host::DiskRange;
use std::alloc::Global;

/// A host in memory, which tells everything.
///
/// It keeps a list of its calls of `write_at`, `sync`, `hear` and `say`, so that what a stop could
/// have left at any time is known. Such a call may find no memory for the list: it then answers
/// `Failed`, takes nothing and is counted by `dry`. A read that is to fail and finds no memory for
/// the account of it is counted so too, but it reads.
pub struct MemoryHost {
    pub(crate) alloc: Global,
    /// The images and the input at the start, and the calls since.
    pub(crate) first: Vec<Vec<u8>>,
    pub(crate) script: Vec<u8>,
    pub(crate) calls: Vec<Call>,
    /// What they made of the images and the talk.
    pub(crate) held: Vec<Vec<u8>>,
    pub(crate) said: Vec<u8>,
    pub(crate) heard: usize,
    /// The bytes handed to each disk.
    pub(crate) handed: Vec<u64>,
    /// The numbers of the calls that fail, the last call that isn't past the stop, and the number
    /// of the last call.
    pub(crate) chosen: Vec<u64>,
    pub(crate) stop: u64,
    pub(crate) number: u64,
    pub(crate) disk_faults: u64,
    pub(crate) talk_faults: u64,
    pub(crate) dry: u64,
    /// The ranges of which no byte reads, and the reads that failed.
    pub(crate) bad: Vec<DiskRange>,
    pub(crate) failed: Vec<DiskRange>,
    ghost kept: { IsKeptHost (items_of first.items) calls.items script.items held.items said.items heard handed.items },
}

// By hand, so that a function that lets a host go has one step for all that it has.
impl Drop for MemoryHost {
    fn drop(self) {
        let MemoryHost {
            alloc: _,
            first: _,
            script: _,
            calls: _,
            held: _,
            said: _,
            heard: _,
            handed: _,
            chosen: _,
            stop: _,
            number: _,
            disk_faults: _,
            talk_faults: _,
            dry: _,
            bad: _,
            failed: _,
        } = self;
    }
}
