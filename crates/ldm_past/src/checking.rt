//! The jobs over views whose damage is known.
ghost use Rattle.std.specs.Prelude.{◌≡◌, ◌≢◌, ◌<◌, ℕ, length, true, IfOk, Some};
ghost use Rattle.ldm_words.specs.declared.job.Job.{Job};
ghost use Rattle.ldm_words.specs.Jobs.{texts, job_of};
ghost use Rattle.ldm_look.specs.Looks.{IsFormattedAnswer};
ghost use Rattle.ldm_look.specs.Runs.{Answers, Causes, Completes, HasImages, NoFault, OnlyReads};
ghost use Rattle.ldm_past.specs.PastWords.{reads_past, is_read_as};
ghost use Rattle.ldm_past.specs.PastAnswer.{said_past_check, past_check_answer};
ghost use Rattle.ldm_past.specs.PastAnswer.{format_of_check, IsPastReading};
ghost use Rattle.ldm_past.specs.PastTalk.{TalksPast, SaysWholePast};

use crate::past_json::past_check_line;
use crate::texts::past_check_text;
use ldm_bytes::{Bytes, NoMemory};
use ldm_copy::Found;
use ldm_damage::Damage;
use ldm_host::Host;
use ldm_label::GoodCopies;
use ldm_look::{open_counted, say_made};
use ldm_run::run;
use ldm_words::{Format, Job, Status, WordsError, read_words};
use std::alloc::Global;

// What is said of a group that was found past damage.
fn said_past_check(
    alloc: Global,
    format: &Format,
    damages: &[Damage],
    goods: &[GoodCopies],
    found: &Found,
) -> Result<Bytes, NoMemory>
    ensures { IfOk result (λ text. text
        ≡ said_past_check format.now damages.now goods.now found.now) }
{
    match format {
        Format::Lines => past_check_text(alloc, damages, found),
        Format::Json(paths) => past_check_line(alloc, paths, damages, goods, found),
    }
}

// check --past-damage on IMAGE..., over the views.
fn check_past<H: Host>(alloc: Global, format: &Format, damages: &[Damage], host: &mut H) -> Status
    requires { 0 < length (H.seen host.old).sizes }
    ensures { OnlyReads H.tells_disks (H.seen host.old) (H.seen host.new)
        (IsFormattedAnswer format.now (past_check_answer format.now damages.now
        (H.seen host.old).content) (H.seen host.old).content) result }
{
    match open_counted(alloc, host, format) {
        Err(status) => status,
        Ok((found, goods)) => {
            let text = said_past_check(alloc, format, damages, goods.as_slice(), &found);
            say_made(host, text, Status::Done)
        }
    }
}

// The format of `check`, where the job is that.
fn format_of_check(job: Job) -> Option<Format>
    ensures { result ≡ format_of_check job }
{
    match job {
        Job::Check(format) => Some(format),
        _ => None,
    }
}

// How `check` is to be said, where the words ask for that.
fn check_format(alloc: Global, words: &[String]) -> Result<Option<Format>, NoMemory>
    requires { is_read_as reads_past (job_of (texts words.now)) ≡ true }
    ensures { IfOk result (λ format. (reading : Job × ℕ) × (job_of (texts words.now) ≡ Some reading)
        × (format_of_check reading.0 ≡ format)) }
{
    match read_words(alloc, words) {
        Ok((job, _)) => Ok(format_of_check(job)),
        Err(WordsError::Usage) => Ok(None),
        Err(WordsError::NoMemory) => Err(NoMemory),
    }
}

/// Does the job of words that can read past damage, over views that get over this damage.
pub(crate) fn do_past<H: Host>(
    alloc: Global,
    words: &[String],
    damages: &[Damage],
    host: &mut H,
) -> Status
    requires images { HasImages (job_of (texts words.now)) (H.seen host.old) }
    requires reads { is_read_as reads_past (job_of (texts words.now)) ≡ true }
    ensures answers { H.tells_disks → Answers (H.seen host.old) (H.seen host.new)
        (IsPastReading (job_of (texts words.now)) damages.now (H.seen host.old).content
        (H.seen host.old).input) result }
    ensures causes { Causes (H.seen host.old) (H.seen host.new) result }
    ensures complete { H.tells_disks → NoFault (H.seen host.old) (H.seen host.new)
        → result ≢ Status.NoMemory → Completes (H.seen host.old) (H.seen host.new)
        (IsPastReading (job_of (texts words.now)) damages.now (H.seen host.old).content
        (H.seen host.old).input) result }
    ensures talk { TalksPast H.tells_talk (job_of (texts words.now)) (H.seen host.old)
        (H.seen host.new) result }
    ensures whole { H.tells_disks → SaysWholePast (job_of (texts words.now)) (H.seen host.old)
        (H.seen host.new) result }
    ensures handed { (H.seen host.new).wrote ≡ (H.seen host.old).wrote }
{
    match check_format(alloc, words) {
        Err(NoMemory) => Status::NoMemory,
        Ok(Some(format)) => check_past(alloc, &format, damages, host),
        Ok(None) => run(alloc, words, host),
    }
}
