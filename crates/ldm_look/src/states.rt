//! What can be read of a volume: all of it, with or without all its disks, or not all of it.
ghost use Rattle.std.specs.Prelude.{◌≡◌, All, IfOk};
ghost use Rattle.std.specs.List.{list_all};
ghost use Rattle.ldm_group.specs.Partitions.{EndsInRange};
ghost use Rattle.ldm_layout.specs.Grouped.{IsListsOf};
ghost use Rattle.ldm_layout.specs.Parts.{extents_at};
ghost use Rattle.ldm_look.specs.States.{has_image, have_images, lost_of, state_of};
ghost use Rattle.ldm_look.specs.States.{state_word, lost_count};

use ldm_bytes::NoMemory;
use ldm_copy::Found;
use ldm_dump::lost_sectors;
use ldm_layout::{Extent, LayoutError, Parts, Plex, plan_of};
use ldm_records::Volume;
use std::alloc::Global;

/// What can be read of a volume.
#[derive(Clone, Copy)]
pub(crate) enum VolumeState {
    /// Each disk of each of its partitions has an image.
    Whole,
    /// A disk has none, and no sector is lost.
    Degraded,
    /// The number of sectors that are lost.
    Lost(u64),
}

// Whether each disk of these partitions has an image.
fn are_imaged(found: &Found, extents: &[Extent]) -> bool
    ensures { result ≡ list_all (λ e. has_image found.now e.disk) extents.now }
{
    extents.iter().all(|e| found.image_of(e.disk).is_some())
}

// Whether each disk of the partitions of these components has an image.
fn have_images(found: &Found, parts: &Parts, plexes: &[Plex]) -> bool
    ensures { result ≡ have_images found.now (λ c. extents_at c parts.now.extents) plexes.now }
{
    plexes
        .iter()
        .all(|p| are_imaged(found, parts.extents(p.id)))
}

// How many sectors of the volume are lost.
fn lost_of(alloc: Global, found: &Found, parts: &Parts, volume: &Volume) -> Result<u64, NoMemory>
    requires ends { All EndsInRange found.now.db.records }
    requires lists { IsListsOf parts.now found.now.db.records }
    ensures { IfOk result (λ lost. lost ≡ lost_of found.now volume.now) }
{
    match plan_of(alloc, parts, volume) {
        Ok(plan) => Ok(lost_sectors(found, &plan)),
        Err(LayoutError::NoMemory) => Err(NoMemory),
        Err(LayoutError::Fault(_)) => Ok(0),
    }
}

/// What can be read of the volume. Where each disk is there, no sector is counted.
pub(crate) fn state_of(
    alloc: Global,
    found: &Found,
    parts: &Parts,
    volume: &Volume,
) -> Result<VolumeState, NoMemory>
    requires ends { All EndsInRange found.now.db.records }
    requires lists { IsListsOf parts.now found.now.db.records }
    ensures { IfOk result (λ state. state ≡ state_of found.now volume.now) }
{
    if have_images(found, parts, parts.plexes(volume.head.id)) {
        return Ok(VolumeState::Whole);
    }
    let lost = lost_of(alloc, found, parts, volume)?;
    if lost == 0 {
        Ok(VolumeState::Degraded)
    } else {
        Ok(VolumeState::Lost(lost))
    }
}

/// The word of a state.
pub(crate) fn state_word(state: VolumeState) -> &'static str
    ensures { result.now ≡ state_word state }
{
    match state {
        VolumeState::Whole => "whole",
        VolumeState::Degraded => "degraded",
        VolumeState::Lost(_) => "lost",
    }
}

/// How many sectors are lost, where some are.
pub(crate) fn lost_count(state: VolumeState) -> Option<u64>
    ensures { result ≡ lost_count state }
{
    match state {
        VolumeState::Lost(lost) => Some(lost),
        _ => None,
    }
}
