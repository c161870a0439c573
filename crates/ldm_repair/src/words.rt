//! The words of a repair.
ghost use Rattle.std.specs.Prelude.{◌≡◌, ◌<◌, ◌≤◌, ◌+◌, length, IfOk, IfSome, is_some};
ghost use Rattle.ldm_words.specs.Jobs.{texts, job_of};
ghost use Rattle.ldm_repair.specs.RepairWords.{images_within, repair_in, repair_of};

use ldm_bytes::NoMemory;
use ldm_words::{WordsError, read_words};
use std::alloc::Global;

// Whether the words have a reading as a job.
fn is_job(alloc: Global, words: &[String]) -> Result<bool, NoMemory>
    ensures { IfOk result (λ is. is ≡ is_some (job_of (texts words.now))) }
{
    match read_words(alloc, words) {
        Ok(_) => Ok(true),
        Err(WordsError::Usage) => Ok(false),
        Err(WordsError::NoMemory) => Err(NoMemory),
    }
}

// How many images the words name, where they are those of a repair.
fn repair_in(words: &[String]) -> Option<usize>
    ensures is { result ≡ repair_in (texts words.now) }
    ensures within { IfSome result (λ images. (0 < images) × (images ≤ 64)
        × (length words.now ≡ images + 2)) }
{
    match words {
        [repair, on, images @ ..] if repair.as_str() == "repair" && on.as_str() == "on" => {
            if (1..=64).contains(&images.len()) {
                Some(images.len())
            } else {
                None
            }
        }
        _ => None,
    }
}

/// How many images the words name, where they ask for a repair: `repair on IMAGE...`.
#[tactic(auto, unfolding(crate::specs::RepairWords::repair_of))]
pub fn repair_images(alloc: Global, words: &[String]) -> Result<Option<usize>, NoMemory>
    ensures is { IfOk result (λ images. images ≡ repair_of (texts words.now)) }
    ensures within { IfOk result (λ images. IfSome images (λ n. (0 < n) × (n ≤ 64)
        × (length words.now ≡ n + 2))) }
{
    if is_job(alloc, words)? {
        return Ok(None);
    }
    Ok(repair_in(words))
}
