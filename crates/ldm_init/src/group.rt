//! A new group, made on disks that are empty.
ghost use Rattle.std.specs.Prelude.{◌≡◌, ◌*◌, ◌<◌, ◌≤◌, ◌≢◌, ◌⊎◌, ℕ, length, slice_index, All};
ghost use Rattle.std.specs.Prelude.{Some, None, Err, OnOk, IfOk, IfErr, IsErrOf};
ghost use Rattle.ldm_host.specs.Moves.{Still, Looks, Works, AtEachMoment};
ghost use Rattle.ldm_label.specs.Written.{IsWritable};
ghost use Rattle.ldm_words.specs.NewGroup as words;
ghost use Rattle.ldm_init.specs.declared.faults.InitFault.{InitFault};
ghost use Rattle.ldm_init.specs.Faults.{InitAnswers, IsInitFault};
ghost use Rattle.ldm_init.specs.Images.{AreNewImages, HoldNewGroup, IsInitMoment, IsNewBody};
ghost use Rattle.ldm_init.specs.Images.{NothingPending};
ghost use Rattle.ldm_init.specs.Moments.{AllTake, MayHaveWritten, WritesGroup};
ghost use Rattle.ldm_init.specs.NewGroup.{new_labels};

use crate::database::new_database;
use crate::faults::{InitError, check_disks};
use crate::labels::new_labels;
use crate::laws::new_groups_open;
use crate::making::write_group;
use ldm_body::{Body, body_of};
use ldm_bytes::{Bytes, NoMemory};
use ldm_host::{Failed, Host};
use ldm_label::Label;
use ldm_words::Guids;
use std::alloc::Global;

// This number of zeros.
fn zeros(alloc: Global, count: usize) -> Result<Vec<u8>, NoMemory>
    ensures { IfOk result (λ bytes. length bytes.items ≡ count) }
{
    Ok(vec![in alloc; 0u8; count]?)
}

// The body of the copies of a new group.
fn new_body(alloc: Global, name: &[u8], guid: u128, guids: &[u128]) -> Result<Body, NoMemory>
    requires short { length name.now ≤ 30 }
    requires without_zero { All (λ byte. byte ≢ 0) name.now }
    requires few { length guids.now ≤ 64 }
    ensures { IfOk result (IsNewBody name.now guid guids.now) }
{
    let db = new_database(alloc, name, guid, guids, 5924, 1)?;
    body_of(alloc, &db)
}

// All that is needed to write a new group.
#[derive(Drop)]
struct Plan {
    labels: Vec<Label>,
    body: Body,
    // of the last 2048 sectors of a disk
    buffer: Vec<u8>,
}

// Takes all memory for a new group, and looks whether the disks may be made one.
fn prepare<H: Host>(
    alloc: Global,
    host: &mut H,
    name: &[u8],
    guid: u128,
    guids: &[u128],
) -> Result<Plan, InitError>
    requires words { words.AreInitWords name.now guids.now }
    requires count { length guids.now ≡ length (H.seen host.old).sizes }
    ensures labels { IfOk result (λ plan. plan.labels.items
        ≡ new_labels (H.seen host.old).sizes guids.now) }
    ensures writable { IfOk result (λ plan. All (λ label. IsWritable label) plan.labels.items) }
    ensures body { IfOk result (λ plan. IsNewBody name.now guid guids.now plan.body) }
    ensures buffer { IfOk result (λ plan. length plan.buffer.items ≡ 512 * 2048) }
    ensures large { OnOk result ((disk : ℕ) → disk < length (H.seen host.old).sizes
        → 2112 ≤ slice_index (H.seen host.old).sizes disk) }
    ensures empty { H.tells_disks → OnOk result (IsInitFault guids.now
        (H.seen host.old).content None) }
    ensures fault { H.tells_disks → IfErr result (λ error. InitAnswers guids.now
        (H.seen host.old).content (Err error)) }
    ensures looks { Looks (H.seen host.old) (H.seen host.new) (IsErrOf result InitError.Disk) }
{
    let labels = new_labels(alloc, host, guids)?;
    let body = new_body(alloc, name, guid, guids)?;
    let mut buffer = zeros(alloc, 512 * 2048)?;
    match check_disks(host, &labels, &mut buffer) {
        Ok(()) => Ok(Plan {
            labels,
            body,
            buffer,
        }),
        Err(error) => Err(error),
    }
}

// Writes what was prepared.
fn write_plan<H: Host>(host: &mut H, plan: Plan) -> Result<(), InitError>
    requires count { length plan.labels.items ≡ length (H.seen host.old).sizes }
    requires takes { AllTake plan.labels.items plan.body (H.seen host.old).sizes }
    requires buffer { length plan.buffer.items ≡ 512 * 2048 }
    ensures writes { WritesGroup H.tells_disks result plan.labels.items plan.body (H.seen host.old)
        (H.seen host.new) }
    ensures not_refused { MayHaveWritten result }
{
    let Plan {
        labels,
        body,
        mut buffer,
    } = plan;
    match write_group(host, &labels, body.as_slice(), &mut buffer) {
        Ok(()) => Ok(()),
        Err(Failed) => Err(InitError::Disk),
    }
}

/// Makes the disks a new group of this name and GUID, with these GUIDs of its disks. What was said
/// and the input stay as they are. All memory is taken before the first write.
pub fn init<H: Host>(
    alloc: Global,
    host: &mut H,
    name: &Bytes,
    guid: u128,
    disks: &Guids,
) -> Result<(), InitError>
    requires words { words.AreInitWords name.now disks.now }
    requires count { length disks.now ≡ length (H.seen host.old).sizes }
    // Exactly the first fault of the disks is answered.
    ensures answers { H.tells_disks → InitAnswers disks.now (H.seen host.old).content result }
    // No byte is written after a fault or want of memory, nor where there is a fault, whatever is
    // answered.
    ensures unwritten { MayHaveWritten result ⊎ Still (H.seen host.old) (H.seen host.new) }
    ensures faulty { H.tells_disks → (fault : InitFault)
        → IsInitFault disks.now (H.seen host.old).content (Some fault)
        → Still (H.seen host.old) (H.seen host.new) }
    // Whatever a stop leaves is refused as without signature, or is the new group.
    ensures any_moment { H.tells_disks → NothingPending (H.seen host.old)
        → IsInitFault disks.now (H.seen host.old).content None
        → AtEachMoment (H.seen host.old) (H.seen host.new)
        (IsInitMoment name.now guid disks.now (H.seen host.old)) }
    // After Ok the disks hold its images, which are found as the new group, and nothing is pending.
    ensures images { H.tells_disks → OnOk result (AreNewImages name.now guid disks.now
        (H.seen host.old).sizes (H.seen host.old).content (H.seen host.new).content) }
    ensures holds { H.tells_disks → NothingPending (H.seen host.old)
        → OnOk result (HoldNewGroup name.now guid disks.now (H.seen host.old).sizes
        (H.seen host.new).content) }
    ensures settled { OnOk result (NothingPending (H.seen host.new)) }
    ensures works { Works (H.seen host.old) (H.seen host.new) (IsErrOf result InitError.Disk) }
{
    new_groups_open();
    let plan = prepare(alloc, host, name.as_slice(), guid, disks.as_slice())?;
    write_plan(host, plan)
}
