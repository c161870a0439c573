//! `run_scan`: the scan of images of which some may not open or be read.
ghost use Rattle.std.specs.Prelude.{◌≡◌, ◌≢◌, List, ℕ, length, IfOk};
ghost use Rattle.ldm_host.specs.declared.host.DiskRange.{DiskRange};
ghost use Rattle.ldm_host.specs.Moves.{Rose, SameInput, Still};
ghost use Rattle.ldm_look.specs.Said.{Answer, SaysNothing};
ghost use Rattle.ldm_look.specs.Runs.{Answers, Causes, Completes, OnlyReads};
ghost use Rattle.ldm_host.specs.Failed.{failed_since};
ghost use Rattle.ldm_scan.specs.Findings.{opened_count, said_findings};
ghost use Rattle.ldm_scan.specs.Findings.{IsFindingsAnswer};

use crate::finding::Finding;
use crate::finding_json::findings_line;
use crate::finding_text::findings_text;
use crate::scanning::scan_each;
use ldm_bytes::{Bytes, NoMemory};
use ldm_host::Host;
use ldm_words::{Format, Status};
use std::alloc::Global;

// What is said of what was found.
fn said_findings(alloc: Global, format: &Format, findings: &[Finding]) -> Result<Bytes, NoMemory>
    ensures { IfOk result (λ text. text ≡ said_findings format.now findings.now) }
{
    match format {
        Format::Lines => findings_text(alloc, findings),
        Format::Json(paths) => findings_line(alloc, paths, findings),
    }
}

// Says a text that was made, whole. No read fails in that.
fn say_findings<H: Host>(host: &mut H, made: Result<Bytes, NoMemory>) -> Status
    ensures says { (text : List ℕ) → IfOk made (λ m. m ≡ text)
        → OnlyReads H.tells_talk (H.seen host.old) (H.seen host.new)
        (λ answer. answer ≡ (text, Status.Done)) result }
    ensures account { (H.seen host.new).failed ≡ (H.seen host.old).failed }
    ensures no_disk { result ≢ Status.DiskFault }
{
    match made {
        Err(NoMemory) => Status::NoMemory,
        Ok(text) => match host.say(text.as_slice()) {
            Ok(()) => Status::Done,
            Err(_) => Status::TalkFault,
        },
    }
}

/// Scans the images of which it is known whether they opened: for each image of the words the cause
/// why it didn't, if it didn't. Those that opened are the disks of the host, in their order, which
/// are only read. The host comes back.
pub fn run_scan<H: Host>(
    alloc: Global,
    format: &Format,
    causes: &[Option<Bytes>],
    host: H,
) -> (H, Status)
    requires { opened_count causes.now ≡ length (H.seen host).sizes }
    // Done is the answer, by the reads that failed in this run, and nothing is said but the
    // beginning of its text. For given reads that failed there is one answer.
    ensures answers { H.tells_disks → Answers (H.seen host) (H.seen result.0)
        (IsFindingsAnswer format.now causes.now (failed_since (H.seen host) (H.seen result.0))
        (H.seen host).content) result.1 }
    ensures one { (failed : List DiskRange) (a b : Answer)
        → IsFindingsAnswer format.now causes.now failed (H.seen host).content a
        → IsFindingsAnswer format.now causes.now failed (H.seen host).content b → a ≡ b }
    // A read that failed is no end, and neither are words. A fault of the talk has its cause.
    ensures no_disk { result.1 ≢ Status.DiskFault }
    ensures no_usage { result.1 ≢ Status.Usage }
    ensures causes { Causes (H.seen host) (H.seen result.0) result.1 }
    // Where the talk didn't fail, the answer comes, whatever failed of the disks, or NoMemory.
    ensures complete { H.tells_disks
        → (Rose (H.seen host).talk_faults (H.seen result.0).talk_faults → ⊥)
        → result.1 ≢ Status.NoMemory → Completes (H.seen host) (H.seen result.0)
        (IsFindingsAnswer format.now causes.now (failed_since (H.seen host) (H.seen result.0))
        (H.seen host).content) result.1 }
    // With want of memory nothing was said. The disks and the input are as they were.
    ensures silent { SaysNothing result.1 → (H.seen result.0).said ≡ (H.seen host).said }
    ensures still { ∥ Still (H.seen host) (H.seen result.0) ∥₁ }
    ensures handed { (H.seen result.0).wrote ≡ (H.seen host).wrote }
    ensures input { SameInput (H.seen host) (H.seen result.0) }
{
    let (host, found) = scan_each(alloc, causes, host);
    match found {
        Err(NoMemory) => (host, Status::NoMemory),
        Ok(findings) => {
            let mut host = host;
            let text = said_findings(alloc, format, &findings);
            let status = say_findings(&mut host, text);
            (host, status)
        }
    }
}
