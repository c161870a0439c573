//! What is said of the sectors of a volume.
ghost use Rattle.std.specs.Prelude.{◌≡◌, ◌+◌, ◌≤◌, IfOk};
ghost use Rattle.ldm_found.specs.Facts.{IsSoundGroup};
ghost use Rattle.ldm_look.specs.Said.{HasAnswer};
ghost use Rattle.ldm_look.specs.Mapping.{is_bad_range, said_sectors, said_refusal, map_answer};

use crate::fault_json::reason_line;
use crate::map_json::map_line;
use crate::map_text::map_text;
use ldm_bytes::{Bytes, NoMemory};
use ldm_found::Found;
use ldm_layout::Plan;
use ldm_rules::sound_plan;
use ldm_text::refusal_text;
use ldm_words::{Format, Status};
use std::alloc::Global;

fn is_bad_range(size: u64, first: u64, count: u64) -> bool
    ensures { result ≡ is_bad_range size first count }
{
    count == 0 || count > 4096 || size < first || size - first < count
}

// What is said of the sectors, by the volume's layout.
fn said_sectors(
    alloc: Global,
    format: &Format,
    found: &Found,
    plan: &Plan,
    first: u64,
    count: u64,
) -> Result<Bytes, NoMemory>
    requires { first + count ≤ plan.now.size }
    ensures { IfOk result (λ text. text
        ≡ said_sectors format.now found.now plan.now first count) }
{
    match format {
        Format::Lines => map_text(alloc, found, plan, first, count),
        Format::Json(paths) => map_line(alloc, paths, found, plan, first, count),
    }
}

// What refuses for a reason that is no fault of the images.
fn said_refusal(alloc: Global, format: &Format, reason: &str) -> Result<Bytes, NoMemory>
    ensures { IfOk result (λ text. text ≡ said_refusal format.now reason.now) }
{
    match format {
        Format::Lines => refusal_text(alloc, reason.as_bytes()),
        Format::Json(paths) => reason_line(alloc, paths, reason),
    }
}

/// What `map` answers on a group: where so many sectors of the volume of this name lie, or the
/// refusal.
pub(crate) fn mapped(
    alloc: Global,
    format: &Format,
    found: &Found,
    name: &[u8],
    first: u64,
    count: u64,
) -> Result<(Bytes, Status), NoMemory>
    requires { IsSoundGroup found.now }
    ensures is { IfOk result (λ answer. (answer.0, answer.1)
        ≡ map_answer format.now name.now first count found.now) }
    ensures status { IfOk result (λ answer. HasAnswer answer.1) }
{
    let Some(volume) = found.db.volume_named(name) else {
        return Ok((said_refusal(alloc, format, "no volume")?, Status::Refused));
    };
    if is_bad_range(volume.size, first, count) {
        return Ok((said_refusal(alloc, format, "bad range")?, Status::Refused));
    }
    let plan = sound_plan(alloc, &found.db, &found.labels, volume)?;
    let text = said_sectors(alloc, format, found, &plan, first, count)?;
    Ok((text, Status::Done))
}
