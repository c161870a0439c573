//! Refusals for a reason that is no fault of the images.
ghost use Rattle.std.specs.Prelude.{◌≡◌, ◌≢◌, IfOk};
ghost use Rattle.ldm_look.specs.Refusals.{said_reason, refusal_for};
ghost use Rattle.ldm_look.specs.Runs.{OnlyReads};

use crate::fault_json::named_line;
use crate::saying::say_made;
use ldm_bytes::{Bytes, NoMemory};
use ldm_host::Host;
use ldm_text::refusal_text;
use ldm_words::{Format, Status};
use std::alloc::Global;

// What refuses for it.
fn text_for(
    alloc: Global,
    format: &Format,
    kind: &str,
    id: Option<u64>,
    reason: &[u8],
) -> Result<Bytes, NoMemory>
    ensures { IfOk result (λ text. text ≡ said_reason format.now kind.now id reason.now) }
{
    match format {
        Format::Lines => refusal_text(alloc, reason),
        Format::Json(paths) => named_line(alloc, paths, kind, id, reason),
    }
}

/// Refuses for a reason of this kind, which names an object at most, by its id.
pub fn refuse_for<H: Host>(
    alloc: Global,
    host: &mut H,
    format: &Format,
    kind: &str,
    id: Option<u64>,
    reason: &[u8],
) -> Status
    ensures says { OnlyReads H.tells_talk (H.seen host.old) (H.seen host.new)
        (λ answer. answer ≡ refusal_for format.now kind.now id reason.now) result }
    ensures no_disk { result ≢ Status.DiskFault }
{
    let text = text_for(alloc, format, kind, id, reason);
    say_made(host, text, Status::Refused)
}
