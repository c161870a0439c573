//! Texts that are said whole, those of refusals among them.
ghost use Rattle.std.specs.Prelude.{◌≡◌, ◌≢◌, List, ℕ, IfOk};
ghost use Rattle.ldm_text.specs.Texts.{text_of_refusal};
ghost use Rattle.ldm_look.specs.Opening.{text_of_open_fault};
ghost use Rattle.ldm_look.specs.Said.{HasAnswer};
ghost use Rattle.ldm_look.specs.Looks.{said_fault, open_refusal};
ghost use Rattle.ldm_look.specs.Runs.{OnlyReads};

use crate::fault_json::refusal_line;
use crate::opening::fault_text;
use ldm_bytes::{Bytes, NoMemory};
use ldm_found::OpenFault;
use ldm_host::Host;
use ldm_text::refusal_text;
use ldm_words::{Format, Status};
use std::alloc::Global;

/// Says a text that was made, whole.
pub fn say_made<H: Host>(host: &mut H, made: Result<Bytes, NoMemory>, status: Status) -> Status
    requires { HasAnswer status }
    ensures says { (text : List ℕ) → IfOk made (λ m. m ≡ text)
        → OnlyReads H.tells_talk (H.seen host.old) (H.seen host.new)
        (λ answer. answer ≡ (text, status)) result }
    ensures no_disk { result ≢ Status.DiskFault }
{
    match made {
        Err(NoMemory) => Status::NoMemory,
        Ok(text) => match host.say(text.as_slice()) {
            Ok(()) => status,
            Err(_) => Status::TalkFault,
        },
    }
}

// The line that refuses images for a fault of opening.
fn opening_refusal(alloc: Global, fault: &OpenFault) -> Result<Bytes, NoMemory>
    ensures { IfOk result (λ line. line ≡ text_of_refusal (text_of_open_fault fault.now)) }
{
    let text = fault_text(alloc, fault)?;
    refusal_text(alloc, text.as_slice())
}

/// Refuses the images for a fault of opening.
pub(crate) fn refuse_opening<H: Host>(alloc: Global, host: &mut H, fault: &OpenFault) -> Status
    ensures { OnlyReads H.tells_talk (H.seen host.old) (H.seen host.new)
        (λ answer. answer ≡ (text_of_refusal (text_of_open_fault fault.now), Status.Refused))
        result }
{
    let line = opening_refusal(alloc, fault);
    say_made(host, line, Status::Refused)
}

// What refuses for a fault of the images, in this format.
fn said_fault(alloc: Global, format: &Format, fault: &OpenFault) -> Result<Bytes, NoMemory>
    ensures { IfOk result (λ text. text ≡ said_fault format.now fault.now) }
{
    match format {
        Format::Lines => opening_refusal(alloc, fault),
        Format::Json(paths) => refusal_line(alloc, paths, fault),
    }
}

/// Refuses the images for a fault, in this format.
pub fn refuse<H: Host>(alloc: Global, host: &mut H, format: &Format, fault: &OpenFault) -> Status
    ensures { OnlyReads H.tells_talk (H.seen host.old) (H.seen host.new)
        (λ answer. answer ≡ open_refusal format.now fault.now) result }
{
    let text = said_fault(alloc, format, fault);
    say_made(host, text, Status::Refused)
}
