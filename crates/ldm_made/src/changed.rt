//! Records with another size or another number of children.
ghost use Rattle.std.specs.Prelude.{◌≡◌, is_some, true, Some, IfOk};
ghost use Rattle.ldm_made.specs.Made.{with_children, resized};

use ldm_bytes::NoMemory;
use ldm_records::{Component, Volume};
use std::alloc::Global;

/// An equal volume but for its size, in sectors.
pub fn resized(volume: &Volume, alloc: Global, size: u64) -> Result<Volume, NoMemory>
    requires { is_some (resized volume.now size) ≡ true }
    ensures { IfOk result (λ v. resized volume.now size ≡ Some v) }
{
    let mut resized = volume.clone_in(alloc)?;
    resized.size = size;
    Ok(resized)
}

/// An equal component but for the number of its partitions.
pub fn with_children(
    component: &Component,
    alloc: Global,
    children: u64,
) -> Result<Component, NoMemory>
    requires { is_some (with_children component.now children) ≡ true }
    ensures { IfOk result (λ c. with_children component.now children ≡ Some c) }
{
    let mut changed = component.clone_in(alloc)?;
    changed.children = children;
    Ok(changed)
}
