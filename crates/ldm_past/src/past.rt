//! `run_past`: the jobs that read, past damage.
ghost use Rattle.std.specs.Prelude.{◌≡◌, ◌≢◌, List, ℕ, true, is_some, IfSome};
ghost use Rattle.ldm_host.specs.Moves.{Still};
ghost use Rattle.ldm_words.specs.Jobs.{texts, job_of};
ghost use Rattle.ldm_words.specs.declared.status.Status.TheVariants.{NoMemory};
ghost use Rattle.ldm_look.specs.Said.{Answer, HasAnswer};
ghost use Rattle.ldm_look.specs.Runs.{Answers, Causes, Completes, HasImages, NoFault};
ghost use Rattle.ldm_damage.specs.Views.{AreDamaged};
ghost use Rattle.ldm_past.specs.PastWords.{reads_past, is_read_as};
ghost use Rattle.ldm_past.specs.PastAnswer.{IsPastAnswer};
ghost use Rattle.ldm_past.specs.PastTalk.{TalksPast, SaysWholePast};

use crate::running::run_shown;
use ldm_damage::find_damage;
use ldm_host::Host;
use ldm_repair::{Ran, damage_status, host_of};
use std::alloc::Global;

/// Does the job of words that can read past damage, over the views of the images: labels that are
/// damaged are mended, and damaged copies of the database are passed over. Nothing is written.
pub fn run_past<H: Host>(alloc: Global, words: &[String], host: H) -> Ran<H>
    requires images { HasImages (job_of (texts words.now)) (H.seen host) }
    requires reads { is_read_as reads_past (job_of (texts words.now)) ≡ true }
    // Done and Refused are the answer, and nothing is said but the beginning of its text. There is
    // one answer.
    ensures answers { H.tells_disks → Answers (H.seen host) (H.seen result.host)
        (IsPastAnswer (texts words.now) (H.seen host).content (H.seen host).input) result.status }
    ensures one { (a b : Answer) → IsPastAnswer (texts words.now) (H.seen host).content
        (H.seen host).input a
        → IsPastAnswer (texts words.now) (H.seen host).content (H.seen host).input b → a ≡ b }
    // What is damaged is told with each answer: it is what these views get over.
    ensures told { HasAnswer result.status → is_some result.damages ≡ true }
    ensures damaged { H.tells_disks → IfSome result.damages (λ damages. (views : List (List ℕ))
        × AreDamaged (H.seen host).content damages.items views) }
    // A fault comes only where its count rose.
    ensures causes { Causes (H.seen host) (H.seen result.host) result.status }
    // Where no count rose, the answer comes, or NoMemory.
    ensures complete { H.tells_disks → NoFault (H.seen host) (H.seen result.host)
        → result.status ≢ NoMemory
        → Completes (H.seen host) (H.seen result.host)
        (IsPastAnswer (texts words.now) (H.seen host).content (H.seen host).input) result.status }
    // After a fault nothing more is said, but where the answer is said while the disks are read on.
    ensures talk { TalksPast H.tells_talk (job_of (texts words.now)) (H.seen host)
        (H.seen result.host) result.status }
    // Where a disk or memory failed, what was said is whole sectors of a volume, and whole lines of
    // all else.
    ensures whole { H.tells_disks → SaysWholePast (job_of (texts words.now)) (H.seen host)
        (H.seen result.host) result.status }
    // The disks are as they were.
    ensures still { ∥ Still (H.seen host) (H.seen result.host) ∥₁ }
{
    let (under, found) = find_damage(alloc, host);
    let damages = match found {
        Ok(damages) => damages,
        Err(error) => {
            return Ran {
                host: host_of(under),
                status: damage_status(error),
                damages: None,
            };
        }
    };
    let (under, status) = run_shown(alloc, words, &damages, under);
    Ran {
        host: host_of(under),
        status,
        damages: Some(damages),
    }
}
