//! One list of images that a stop may leave of a host in memory.
// What a stop may leave of the disks of a host in memory.
ghost use Rattle.std.specs.Prelude.{◌≡◌, ◌+◌, ◌<◌, ◌≤◌, ℕ, length, IfOk, Vec};
ghost use Rattle.std.specs.declared.alloc.Global.{Global};
ghost use Rattle.ldm_memory.specs.declared.call.Call.TheVariants.{Write};
ghost use Rattle.ldm_memory.specs.declared.left.Filling.TheVariants.{Fill};
ghost use Rattle.ldm_host.specs.Images.{items_of};
ghost use Rattle.ldm_memory.specs.Left.{IsLastSync, overlaid, filled_on, left_of, left_on};
ghost use Rattle.ldm_memory.specs.Left.{written_on};
ghost use Rattle.ldm_memory.specs.Memory.{memory_seen, story_of};
ghost use Rattle.ldm_host.specs.Seen.{Leaves, image};
ghost use Rattle.ldm_memory.specs.Story.{fresh_state, run, disk_at};

use crate::MemoryHost;
use crate::call::Call;
use crate::made::{copy_of, push_made};
use crate::outcome::put_at;
use ldm_bytes::NoMemory;
use std::alloc::{AllocError, Global};

/// What a stop leaves in the ranges that are pending.
#[derive(Clone, Copy)]
pub enum Filling {
    /// The bytes that stood there after the last sync of the disk, or at the start.
    Old,
    /// The content.
    New,
    /// This byte throughout.
    Fill(u8),
}

// How many calls there were up to the last sync of a disk.
fn last_sync(calls: &[Call], disk: usize) -> usize
    ensures { IsLastSync calls.now disk result }
{
    let mut count = 0;
    for (place, call) in calls.iter().enumerate() {
        if let Call::Sync { disk: synced } = call
            && *synced == disk
        {
            count = place + 1;
        }
    }
    count
}

// Takes into the bytes of a disk what a call wrote there.
fn take_again(image: &mut Vec<u8>, call: &Call, disk: usize)
    requires { (at asked : ℕ) (bytes : Vec ℕ Global) → call.now ≡ Write disk at bytes asked
        → at + length bytes.items ≤ length image.old.items }
    ensures { image.new.items ≡ written_on disk call.now image.old.items }
{
    if let Call::Write {
        disk: written,
        at,
        bytes,
        ..
    } = call
        && *written == disk
    {
        put_at(image, *at, bytes);
    }
}

// Fills the range of a write to a disk with one byte.
fn fill_range(image: &mut Vec<u8>, call: &Call, disk: usize, byte: u8)
    requires { (at asked : ℕ) (bytes : Vec ℕ Global) → call.now ≡ Write disk at bytes asked
        → at + asked ≤ length image.old.items }
    ensures { image.new.items ≡ filled_on disk byte call.now image.old.items }
{
    if let Call::Write {
        disk: written,
        at,
        asked,
        ..
    } = call
        && *written == disk
    {
        image[*at..*at + *asked].fill(byte);
    }
}

impl MemoryHost {
    /// One list of images that a stop now may leave: outside the ranges that are pending they are
    /// the content.
    pub fn left(&self, alloc: Global, filling: Filling) -> Result<Vec<Vec<u8>>, NoMemory>
        ensures leaves { IfOk result (λ images. Leaves (memory_seen self.now)
            (items_of images.items)) }
        ensures is { IfOk result (λ images. items_of images.items
            ≡ left_of filling (story_of self.now)) }
    {
        let mut images = Vec::new(alloc);
        for disk in 0..self.held.len() {
            push_made(&mut images, self.left_on(alloc, disk, filling))?;
        }
        Ok(images)
    }

    // What a stop leaves of a disk.
    fn left_on(&self, alloc: Global, disk: usize, filling: Filling) -> Result<Vec<u8>, AllocError>
        requires { disk < length self.now.held.items }
        ensures small { (byte : ℕ) → filling ≡ Fill byte → byte < 256 }
        ensures is { IfOk result (λ bytes. bytes.items
            ≡ left_on filling (disk_at (run (fresh_state (items_of self.now.first.items))
            self.now.calls.items).disks disk)) }
    {
        match filling {
            Filling::Old => self.last_synced(alloc, disk),
            Filling::New => copy_of(alloc, &self.held[disk]),
            Filling::Fill(byte) => self.filled(alloc, disk, byte),
        }
    }

    // The bytes of a disk after its last sync.
    fn last_synced(&self, alloc: Global, disk: usize) -> Result<Vec<u8>, AllocError>
        requires { disk < length self.now.held.items }
        ensures { IfOk result (λ bytes. bytes.items
            ≡ (disk_at (run (fresh_state (items_of self.now.first.items))
            self.now.calls.items).disks disk).synced) }
    {
        let mut image = copy_of(alloc, &self.first[disk])?;
        for call in &self.calls[..last_sync(&self.calls, disk)] {
            take_again(&mut image, call, disk);
        }
        Ok(image)
    }

    // The content of a disk with one byte throughout the ranges that are pending.
    fn filled(&self, alloc: Global, disk: usize, byte: u8) -> Result<Vec<u8>, AllocError>
        requires { disk < length self.now.held.items }
        ensures { IfOk result (λ bytes. bytes.items
            ≡ overlaid byte (disk_at (run (fresh_state (items_of self.now.first.items))
            self.now.calls.items).disks disk).pending (image (items_of self.now.held.items) disk)) }
    {
        let mut image = copy_of(alloc, &self.held[disk])?;
        for place in last_sync(&self.calls, disk)..self.calls.len() {
            fill_range(&mut image, &self.calls[place], disk, byte);
        }
        Ok(image)
    }
}
