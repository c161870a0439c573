//! The jobs over the views of images.
ghost use Rattle.std.specs.Prelude.{◌≡◌, ◌≢◌, true};
ghost use Rattle.ldm_host.specs.Moves.{Still};
ghost use Rattle.ldm_words.specs.Jobs.{texts, job_of};
ghost use Rattle.ldm_look.specs.Runs.{Answers, Causes, Completes, HasImages, NoFault};
ghost use Rattle.ldm_view.specs.Patches.{shown};
ghost use Rattle.ldm_past.specs.PastWords.{reads_past, is_read_as};
ghost use Rattle.ldm_past.specs.PastAnswer.{IsPastReading};
ghost use Rattle.ldm_past.specs.PastTalk.{TalksPast, SaysWholePast};

use crate::checking::do_past;
use ldm_damage::Damage;
use ldm_host::Host;
use ldm_view::{Patched, Start, View};
use ldm_words::Status;
use std::alloc::Global;
use std::marker::Brand;

// Does the job of the words over the view of the images.
fn run_in<H: Host, S: Start>(
    alloc: Global,
    words: &[String],
    damages: &[Damage],
    under: Patched<H>,
) -> (Patched<H>, Status)
    requires start { Still S.start (H.seen under.host) }
    requires fixed { ∥ under.patches.items ≡ S.patches ∥₁ }
    requires images { HasImages (job_of (texts words.now)) (H.seen under.host) }
    requires reads { is_read_as reads_past (job_of (texts words.now)) ≡ true }
    ensures answers { H.tells_disks → Answers (H.seen under.host) (H.seen result.0.host)
        (IsPastReading (job_of (texts words.now)) damages.now
        (shown under.patches.items (H.seen under.host).content) (H.seen under.host).input) result.1 }
    ensures causes { Causes (H.seen under.host) (H.seen result.0.host) result.1 }
    ensures complete { H.tells_disks → NoFault (H.seen under.host) (H.seen result.0.host)
        → result.1 ≢ Status.NoMemory → Completes (H.seen under.host) (H.seen result.0.host)
        (IsPastReading (job_of (texts words.now)) damages.now
        (shown under.patches.items (H.seen under.host).content) (H.seen under.host).input) result.1 }
    ensures talk { TalksPast H.tells_talk (job_of (texts words.now)) (H.seen under.host)
        (H.seen result.0.host) result.1 }
    ensures whole { H.tells_disks → SaysWholePast (job_of (texts words.now)) (H.seen under.host)
        (H.seen result.0.host) result.1 }
    ensures still { ∥ Still S.start (H.seen result.0.host) ∥₁ }
{
    match View::<H, S>::new(alloc, under) {
        Ok(mut view) => {
            let status = do_past(alloc, words, damages, &mut view);
            (view.into_under(), status)
        }
        Err(under) => (under, Status::NoMemory),
    }
}

/// Does the job of words that can read past damage over the images as they are shown with their
/// patches, which get over this damage. Nothing is written.
pub(crate) fn run_shown<H: Host>(
    alloc: Global,
    words: &[String],
    damages: &[Damage],
    under: Patched<H>,
) -> (Patched<H>, Status)
    requires images { HasImages (job_of (texts words.now)) (H.seen under.host) }
    requires reads { is_read_as reads_past (job_of (texts words.now)) ≡ true }
    ensures answers { H.tells_disks → Answers (H.seen under.host) (H.seen result.0.host)
        (IsPastReading (job_of (texts words.now)) damages.now
        (shown under.patches.items (H.seen under.host).content) (H.seen under.host).input) result.1 }
    ensures causes { Causes (H.seen under.host) (H.seen result.0.host) result.1 }
    ensures complete { H.tells_disks → NoFault (H.seen under.host) (H.seen result.0.host)
        → result.1 ≢ Status.NoMemory → Completes (H.seen under.host) (H.seen result.0.host)
        (IsPastReading (job_of (texts words.now)) damages.now
        (shown under.patches.items (H.seen under.host).content) (H.seen under.host).input) result.1 }
    ensures talk { TalksPast H.tells_talk (job_of (texts words.now)) (H.seen under.host)
        (H.seen result.0.host) result.1 }
    ensures whole { H.tells_disks → SaysWholePast (job_of (texts words.now)) (H.seen under.host)
        (H.seen result.0.host) result.1 }
    ensures still { ∥ Still (H.seen under.host) (H.seen result.0.host) ∥₁ }
{
    run_in::<H, Brand>(alloc, words, damages, under)
}
