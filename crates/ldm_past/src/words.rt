//! The option `--past-damage` of a command line.
ghost use Rattle.std.specs.Prelude.{◌≡◌, ◌++◌, ◌∷◌, ◌+◌, ◌≤◌, IfOk, IfSome, OnOk, length, string_bytes, true, false, is_some, unwrap_or, ◌&&◌};
ghost use Rattle.std.specs.Option.{option_map};
ghost use Rattle.ldm_words.specs.Jobs.{texts, job_of};
ghost use Rattle.ldm_past.specs.PastWords.{is_past_option, is_json_option, reads_past};
ghost use Rattle.ldm_past.specs.PastWords.{says_json, is_read_as, words_read_as};
ghost use Rattle.ldm_past.specs.PastWords.{reads_past_json, behind_json, without_option, past_words};

use ldm_bytes::NoMemory;
use ldm_words::{Format, Job, WordsError, read_words};
use std::alloc::Global;

fn is_past_option(word: &String) -> bool
    ensures { result ≡ is_past_option (string_bytes word.now) }
{
    word.as_str() == "--past-damage"
}

fn is_json_option(word: &String) -> bool
    ensures { result ≡ is_json_option (string_bytes word.now) }
{
    word.as_str() == "--json"
}

// Whether the job can read past damage.
fn reads_past(job: &Job) -> bool
    ensures { result ≡ reads_past job.now }
{
    matches!(
        job,
        Job::Show(_)
            | Job::Check(_)
            | Job::Map { .. }
            | Job::Dump { .. }
            | Job::Scrub { .. }
            | Job::Table { .. }
            | Job::Tables { .. }
    )
}

// Whether the answer of the job is JSON.
fn says_json(job: &Job) -> bool
    ensures { result ≡ says_json job.now }
{
    match job {
        Job::Show(format) | Job::Check(format) => matches!(format, Format::Json(_)),
        Job::Map { format, .. } | Job::Scrub { format, .. } => matches!(format, Format::Json(_)),
        _ => false,
    }
}

// What is known of a job: whether it can read past damage, and whether its answer is JSON.
#[derive(Clone, Copy)]
struct Traits {
    reads_past: bool,
    says_json: bool,
}

fn traits_of(job: Job) -> Traits
    ensures reads_past { result.reads_past ≡ reads_past job }
    ensures says_json { result.says_json ≡ says_json job }
{
    Traits {
        reads_past: reads_past(&job),
        says_json: says_json(&job),
    }
}

// What is known of the job of the words, if they have a reading.
fn traits_in(alloc: Global, words: &[String]) -> Result<Option<Traits>, NoMemory>
    ensures read { IfOk result (λ found. is_some found ≡ is_some (job_of (texts words.now))) }
    ensures reads_past { IfOk result (λ found. is_read_as reads_past (job_of (texts words.now))
        ≡ unwrap_or (option_map (λ t. t.reads_past) found) false) }
    ensures says_json { IfOk result (λ found. is_read_as reads_past_json (job_of (texts words.now))
        ≡ unwrap_or (option_map (λ t. t.reads_past && t.says_json) found) false) }
{
    match read_words(alloc, words) {
        Ok((job, _)) => Ok(Some(traits_of(job))),
        Err(WordsError::Usage) => Ok(None),
        Err(WordsError::NoMemory) => Err(NoMemory),
    }
}

// Appends copies of words.
fn append(alloc: Global, words: &mut Vec<String>, more: &[String]) -> Result<(), NoMemory>
    ensures is { OnOk result (texts words.new.items ≡ texts words.old.items ++ texts more.now) }
    ensures count { OnOk result (length words.new.items
        ≡ length words.old.items + length more.now) }
{
    for word in more {
        words.push(word.as_str().to_string(alloc)?)?;
    }
    Ok(())
}

// Copies of the words in front of an option and of those behind it.
fn joined(alloc: Global, front: &[String], behind: &[String]) -> Result<Vec<String>, NoMemory>
    ensures is { IfOk result (λ words. texts words.items ≡ texts front.now ++ texts behind.now) }
    ensures count { IfOk result (λ words. length words.items
        ≡ length front.now + length behind.now) }
{
    let mut words = Vec::new(alloc);
    append(alloc, &mut words, front)?;
    append(alloc, &mut words, behind)?;
    Ok(words)
}

// The words, where they are those of a job that can read past damage.
fn words_read_as(alloc: Global, words: Vec<String>) -> Result<Option<Vec<String>>, NoMemory>
    ensures is { IfOk result (λ found. option_map (λ rest. texts rest.items) found
        ≡ words_read_as reads_past (texts words.items)) }
    ensures reads { IfOk result (λ found. IfSome found (λ rest. is_read_as reads_past
        (job_of (texts rest.items)) ≡ true)) }
    ensures within { IfOk result (λ found. IfSome found (λ rest. length rest.items
        ≤ length words.items)) }
{
    match traits_in(alloc, &words)? {
        Some(traits) if traits.reads_past => Ok(Some(words)),
        _ => Ok(None),
    }
}

// The words, where they are those of such a job whose answer is JSON.
fn json_words_read_as(alloc: Global, words: Vec<String>) -> Result<Option<Vec<String>>, NoMemory>
    ensures is { IfOk result (λ found. option_map (λ rest. texts rest.items) found
        ≡ words_read_as reads_past_json (texts words.items)) }
    ensures reads { IfOk result (λ found. IfSome found (λ rest. is_read_as reads_past
        (job_of (texts rest.items)) ≡ true)) }
    ensures within { IfOk result (λ found. IfSome found (λ rest. length rest.items
        ≤ length words.items)) }
{
    match traits_in(alloc, &words)? {
        Some(traits) if traits.reads_past && traits.says_json => Ok(Some(words)),
        _ => Ok(None),
    }
}

// The words without the option.
fn without_option(alloc: Global, words: &[String]) -> Result<Option<Vec<String>>, NoMemory>
    ensures is { IfOk result (λ found. option_map (λ rest. texts rest.items) found
        ≡ without_option (texts words.now)) }
    ensures reads { IfOk result (λ found. IfSome found (λ rest. is_read_as reads_past
        (job_of (texts rest.items)) ≡ true)) }
    ensures within { IfOk result (λ found. IfSome found (λ rest. length rest.items
        ≤ length words.now)) }
{
    match words {
        [_, option, rest @ ..] if is_past_option(option) => {
            words_read_as(alloc, joined(alloc, &words[..1], rest)?)
        }
        [_, json, option, rest @ ..] if is_json_option(json) && is_past_option(option) => {
            json_words_read_as(alloc, joined(alloc, &words[..2], rest)?)
        }
        _ => Ok(None),
    }
}

/// The words without the option `--past-damage`, where they are those of a job with it: the words
/// of the job that is to read past damage.
#[tactic(auto, unfolding(crate::specs::PastWords::past_words))]
pub fn past_words(alloc: Global, words: &[String]) -> Result<Option<Vec<String>>, NoMemory>
    ensures is { IfOk result (λ found. option_map (λ rest. texts rest.items) found
        ≡ past_words (texts words.now)) }
    ensures reads { IfOk result (λ found. IfSome found (λ rest. is_read_as reads_past
        (job_of (texts rest.items)) ≡ true)) }
    ensures within { IfOk result (λ found. IfSome found (λ rest. length rest.items
        ≤ length words.now)) }
{
    match traits_in(alloc, words)? {
        Some(_) => Ok(None),
        None => without_option(alloc, words),
    }
}
