//! The words of a rescue: those of a `dump` with `--rescue` right behind the job's name.
ghost use Rattle.std.specs.Prelude.{◌≡◌, ◌≤◌, ◌<◌, ◌+◌, ◌∷◌, IfOk, IfSome, is_some, length};
ghost use Rattle.std.specs.Prelude.{string_bytes};
ghost use Rattle.ldm_words.specs.Jobs.{texts, job_of};
ghost use Rattle.ldm_rescue.specs.RescueWords.{is_rescue_option, dump_words, read_dump};
ghost use Rattle.ldm_rescue.specs.RescueWords.{rescue_words};

use ldm_bytes::{Bytes, NoMemory};
use ldm_words::{Job, Section, WordsError, read_words};
use std::alloc::Global;

/// What the words of a rescue ask for: a volume or a section of it, off so many images, which are
/// the last words.
#[derive(Drop)]
pub struct RescueWords {
    pub name: Bytes,
    pub section: Option<Section>,
    pub images: usize,
}

// Whether the words have a reading as they stand.
fn have_reading(alloc: Global, words: &[String]) -> Result<bool, NoMemory>
    ensures { IfOk result (λ read. read ≡ is_some (job_of (texts words.now))) }
{
    match read_words(alloc, words) {
        Ok(_) => Ok(true),
        Err(WordsError::Usage) => Ok(false),
        Err(WordsError::NoMemory) => Err(NoMemory),
    }
}

fn is_rescue_option(word: &String) -> bool
    ensures { result ≡ is_rescue_option (string_bytes word.now) }
{
    word.as_str() == "--rescue"
}

// Copies of the word of a job and of those behind it.
fn words_of(alloc: Global, job: &String, behind: &[String]) -> Result<Vec<String>, NoMemory>
    ensures is { IfOk result (λ words. texts words.items
        ≡ string_bytes job.now ∷ texts behind.now) }
    ensures count { IfOk result (λ words. length words.items ≡ length behind.now + 1) }
{
    let mut words = Vec::new(alloc);
    words.push(job.as_str().to_string(alloc)?)?;
    for word in behind {
        words.push(word.as_str().to_string(alloc)?)?;
    }
    Ok(words)
}

// What a dump asks for, off so many images.
fn dump_words(job: Job, images: usize) -> Option<RescueWords>
    ensures is { result ≡ dump_words job images }
    ensures images { IfSome result (λ words. words.images ≡ images) }
{
    match job {
        Job::Dump { name, section } => Some(RescueWords {
            name,
            section,
            images,
        }),
        _ => None,
    }
}

// What the words ask for, where they are those of a dump.
fn read_dump(alloc: Global, words: &[String]) -> Result<Option<RescueWords>, NoMemory>
    ensures is { IfOk result (λ found. found ≡ read_dump (job_of (texts words.now))) }
    ensures within { IfOk result (λ found. IfSome found (λ asked. asked.images
        ≤ length words.now)) }
    ensures some { IfOk result (λ found. IfSome found (λ asked. 0 < asked.images)) }
{
    match read_words(alloc, words) {
        Ok((job, images)) => Ok(dump_words(job, images)),
        Err(WordsError::Usage) => Ok(None),
        Err(WordsError::NoMemory) => Err(NoMemory),
    }
}

/// What is asked for, where the words are those of a rescue.
#[tactic(auto, unfolding(crate::specs::RescueWords::rescue_words))]
pub fn rescue_words(alloc: Global, words: &[String]) -> Result<Option<RescueWords>, NoMemory>
    ensures is { IfOk result (λ found. found ≡ rescue_words (texts words.now)) }
    ensures within { IfOk result (λ found. IfSome found (λ asked. asked.images
        ≤ length words.now)) }
    ensures some { IfOk result (λ found. IfSome found (λ asked. 0 < asked.images)) }
{
    if have_reading(alloc, words)? {
        return Ok(None);
    }
    match words {
        [job, option, behind @ ..] if is_rescue_option(option) => {
            read_dump(alloc, &words_of(alloc, job, behind)?)
        }
        _ => Ok(None),
    }
}
