//! Command lines: the words of a job, and its images.
ghost use Rattle.std.specs.Prelude.{◌≡◌, ◌≤◌, ◌∷◌, IfOk, IfSome, length, string_bytes};
ghost use Rattle.std.specs.Option.{option_map};
ghost use Rattle.std.specs.List.{position_or_len};
ghost use Rattle.ldm_words.specs.declared.job.Job.TheVariants as jobs;
ghost use Rattle.ldm_words.specs.declared.job.Format.TheVariants.{Lines};
ghost use Rattle.ldm_words.specs.Jobs.{texts, is_on, image_words, images_of, images_behind};
ghost use Rattle.ldm_words.specs.Jobs.{plain_job, named_in, named, map_form, dump_form, table_form};
ghost use Rattle.ldm_words.specs.Jobs.{init_form, sample_form, forms, form_in, as_json, options};
ghost use Rattle.ldm_words.specs.Jobs.{section_of, optioned_in, with_options, job_form};
ghost use Rattle.ldm_words.specs.Jobs.{is_group, takes, fits};
ghost use Rattle.ldm_words.specs.Names.{name_of};
ghost use Rattle.ldm_words.specs.Jobs.{job_of};
ghost use Rattle.ldm_words.specs.Jobs.{HasCount, KeepsLimits, job_kind, writes};
ghost use Rattle.ldm_words.specs.Commands.{token_bytes, command_of};
ghost use Rattle.ldm_words.specs.Readings.{ReadsWords};

use crate::command::{Command, Names};
use crate::name::read_name;
use crate::new_group::{Guids, read_group_name, read_guids};
use crate::number::read_number;
use crate::paths::Paths;
use crate::reading::read_command;
use ldm_bytes::{Bytes, NoMemory, read_guid};
use std::alloc::Global;
use thiserror::Error;

/// How an answer is said: in lines of words, or as JSON, which names each image by its word too.
#[derive(Drop)]
pub enum Format {
    Lines,
    Json(Paths),
}

/// Sectors of a volume: `count` of them from the sector `first` on.
#[derive(Clone, Copy, Drop)]
pub struct Section {
    pub first: u64,
    pub count: u64,
}

/// What a command line asks for.
#[derive(Drop)]
pub enum Job {
    /// The private header of one disk.
    Disk(Format),
    /// The copy of the database on one disk.
    Records(Format),
    /// The group and the disk that each image is of, or why it is of none.
    Scan(Format),
    /// The group that the disks hold.
    Show(Format),
    /// What each disk of a group holds, and whether the group may be edited.
    Check(Format),
    /// Where `count` sectors of a volume lie, from the sector `first` on.
    Map {
        name: Bytes,
        first: u64,
        count: u64,
        format: Format,
    },
    /// The bytes of a volume, or of a section of it.
    Dump {
        name: Bytes,
        section: Option<Section>,
    },
    /// Where the copies of a mirror, or the parity of a RAID-5, disagree.
    Scrub {
        name: Bytes,
        format: Format,
    },
    /// The device-mapper tables that make a device of a volume, and the words that name the images.
    Table {
        name: Bytes,
        images: Names,
    },
    /// The device-mapper tables that make the devices of all volumes, and the words that name the
    /// images.
    Tables {
        images: Names,
    },
    /// What the lines of a script would make of a group.
    Try(Format),
    /// The lines of a script, done to a group.
    Edit(Format),
    /// One command, done to a group.
    One {
        command: Command,
        format: Format,
    },
    /// A new group on empty disks: its name, its GUID and those of its disks.
    Init {
        name: Bytes,
        guid: u128,
        disks: Guids,
    },
    /// The sample script of this seed, done to a group in memory.
    Sample(u64),
}

impl Job {
    /// Whether the job writes to its images.
    pub fn edits(&self) -> bool
        ensures { result ≡ writes (job_kind self.now) }
    {
        matches!(self, Job::Edit(_) | Job::One { .. } | Job::Init { .. })
    }

    // Whether the job takes so many images behind `on`.
    fn takes(&self, images: usize) -> bool
        ensures { result ≡ takes self.now images }
    {
        match self {
            Job::Disk(_) | Job::Records(_) => images == 1,
            Job::Table { images: words, .. } | Job::Tables { images: words } => {
                is_group(images) && images == words.as_slice().len()
            }
            Job::Init { disks, .. } => is_group(images) && images == disks.as_slice().len(),
            Job::Sample(_) => false,
            _ => is_group(images),
        }
    }

    // Whether the job takes the images behind `on`, or none where there is no `on`.
    fn fits(&self, behind: Option<usize>) -> bool
        ensures { result ≡ fits self.now behind }
    {
        match behind {
            Some(images) => self.takes(images),
            None => matches!(self, Job::Sample(_)),
        }
    }
}

/// Why words give no job.
#[derive(Clone, Copy, Debug, Drop, Error)]
pub enum WordsError {
    #[error("the words have no reading")]
    Usage,
    #[error("no memory")]
    NoMemory,
}

impl From<NoMemory> for WordsError {
    ghost use Rattle.std.specs.Prelude.{◌≡◌};
    ghost use Rattle.ldm_words.specs.declared.job.WordsError.TheVariants.{NoMemory};

    ghost from_gives = { λ _ error. error ≡ NoMemory };

    fn from(_error: NoMemory) -> Self {
        WordsError::NoMemory
    }
}

// The place of the first `on`, or the number of words.
fn on_place(words: &[String]) -> usize
    ensures is { result ≡ position_or_len is_on (texts words.now) }
    ensures within { result ≤ length words.now }
{
    for (place, word) in words.iter().enumerate() {
        if word.as_bytes() == b"on".as_slice() {
            return place;
        }
    }
    words.len()
}

/// How many words follow the first word `on`; 0 where there is no such word.
pub fn image_count(words: &[String]) -> usize
    ensures is { result ≡ images_of (texts words.now) }
    ensures within { result ≤ length words.now }
{
    let place = on_place(words);
    if place < words.len() {
        words.len() - place - 1
    } else {
        0
    }
}

// The words behind the first word `on`.
fn image_words(words: &[String]) -> &[String]
    ensures { texts result.now ≡ image_words (texts words.now) }
{
    let place = on_place(words);
    if place < words.len() {
        &words[place + 1..]
    } else {
        &[]
    }
}

// How many words follow the first `on`, if there is one.
fn images_behind(words: &[String]) -> Option<usize>
    ensures { result ≡ images_behind (texts words.now) }
{
    if on_place(words) < words.len() {
        Some(image_count(words))
    } else {
        None
    }
}

// As many images as a group may have.
fn is_group(images: usize) -> bool
    ensures { result ≡ is_group images }
{
    matches!(images, 1..=64)
}

// A job that takes no words of its own.
fn plain(job: Job, rest: &[String]) -> Option<Job>
    requires { KeepsLimits job }
    ensures is { result ≡ plain_job job (texts rest.now) }
    ensures limits { IfSome result KeepsLimits }
{
    if rest.is_empty() { Some(job) } else { None }
}

// NAME
fn read_named(alloc: Global, rest: &[String]) -> Result<Option<Bytes>, NoMemory>
    ensures { IfOk result (λ name. name ≡ named_in (texts rest.now)) }
{
    match rest {
        [name] => read_name(alloc, name.as_bytes()),
        _ => Ok(None),
    }
}

// map NAME FIRST COUNT
fn read_map(alloc: Global, rest: &[String]) -> Result<Option<Job>, NoMemory>
    ensures is { IfOk result (λ found. found ≡ map_form (texts rest.now)) }
    ensures limits { IfOk result (λ found. IfSome found KeepsLimits) }
{
    if let [name, first, count] = rest
        && let Some(first) = read_number(first.as_bytes())
        && let Some(count) = read_number(count.as_bytes())
        && let Some(name) = read_name(alloc, name.as_bytes())?
    {
        Ok(Some(Job::Map {
            name,
            first,
            count,
            format: Format::Lines,
        }))
    } else {
        Ok(None)
    }
}

// FIRST COUNT
fn read_section(first: &String, count: &String) -> Option<Section>
    ensures { result ≡ section_of (string_bytes first.now) (string_bytes count.now) }
{
    let first = read_number(first.as_bytes())?;
    let count = read_number(count.as_bytes())?;
    Some(Section { first, count })
}

// The bytes of the volume of this name, all or those of the section.
fn dumped(alloc: Global, name: &String, section: Option<Section>) -> Result<Option<Job>, NoMemory>
    ensures is { IfOk result (λ found. found
        ≡ option_map (λ name. jobs.Dump name section) (name_of (string_bytes name.now))) }
    ensures limits { IfOk result (λ found. IfSome found KeepsLimits) }
{
    match read_name(alloc, name.as_bytes())? {
        Some(name) => Ok(Some(Job::Dump { name, section })),
        None => Ok(None),
    }
}

// dump NAME, or dump NAME FIRST COUNT
fn read_dump(alloc: Global, rest: &[String]) -> Result<Option<Job>, NoMemory>
    ensures is { IfOk result (λ found. found ≡ dump_form (texts rest.now)) }
    ensures limits { IfOk result (λ found. IfSome found KeepsLimits) }
{
    match rest {
        [name] => dumped(alloc, name, None),
        [name, first, count] => match read_section(first, count) {
            Some(section) => dumped(alloc, name, Some(section)),
            None => Ok(None),
        },
        _ => Ok(None),
    }
}

// scrub NAME
fn read_scrub(alloc: Global, rest: &[String]) -> Result<Option<Job>, NoMemory>
    ensures is { IfOk result (λ found. found ≡ named (λ name. jobs.Scrub name Lines)
        (texts rest.now)) }
    ensures limits { IfOk result (λ found. IfSome found KeepsLimits) }
{
    match read_named(alloc, rest)? {
        Some(name) => Ok(Some(Job::Scrub {
            name,
            format: Format::Lines,
        })),
        None => Ok(None),
    }
}

// The words, each as bytes of its own.
fn copy_words(alloc: Global, words: &[String]) -> Result<Names, NoMemory>
    ensures { IfOk result (λ names. names ≡ texts words.now) }
{
    let mut names = Vec::new(alloc);
    for word in words {
        names.push(Bytes::from_slice(alloc, word.as_bytes())?)?;
    }
    Ok(Names::from_vec(names))
}

// table NAME, or table alone, with the words of the images
fn read_table(alloc: Global, rest: &[String], behind: &[String]) -> Result<Option<Job>, NoMemory>
    ensures is { IfOk result (λ found. found ≡ table_form (texts behind.now) (texts rest.now)) }
    ensures limits { IfOk result (λ found. IfSome found KeepsLimits) }
{
    if rest.is_empty() {
        let images = copy_words(alloc, behind)?;
        return Ok(Some(Job::Tables { images }));
    }
    match read_named(alloc, rest)? {
        Some(name) => Ok(Some(Job::Table {
            name,
            images: copy_words(alloc, behind)?,
        })),
        None => Ok(None),
    }
}

// init NAME GUID GUID..
fn read_init(alloc: Global, rest: &[String]) -> Result<Option<Job>, NoMemory>
    ensures is { IfOk result (λ found. found ≡ init_form (texts rest.now)) }
    ensures limits { IfOk result (λ found. IfSome found KeepsLimits) }
{
    if let [name, guid, disks @ ..] = rest
        && let Some(guid) = read_guid(guid.as_bytes())
        && let Some(name) = read_group_name(alloc, name.as_bytes())?
        && let Some(disks) = read_guids(alloc, &tokens_of(alloc, disks)?)?
    {
        Ok(Some(Job::Init { name, guid, disks }))
    } else {
        Ok(None)
    }
}

// sample SEED
fn read_sample(rest: &[String]) -> Option<Job>
    ensures is { result ≡ sample_form (texts rest.now) }
    ensures limits { IfSome result KeepsLimits }
{
    match rest {
        [seed] => Some(Job::Sample(read_number(seed.as_bytes())?)),
        _ => None,
    }
}

// The words as tokens, each of them one.
fn tokens_of(alloc: Global, words: &[String]) -> Result<Vec<&[u8]>, NoMemory>
    ensures { IfOk result (λ tokens. token_bytes tokens.items ≡ texts words.now) }
{
    let mut tokens = Vec::new(alloc);
    for word in words {
        tokens.push(word.as_bytes())?;
    }
    Ok(tokens)
}

// A command, whose tokens are the word and the rest.
fn read_one(alloc: Global, word: &String, rest: &[String]) -> Result<Option<Job>, NoMemory>
    ensures is { IfOk result (λ found. found
        ≡ option_map (λ command. jobs.One command Lines)
        (command_of (string_bytes word.now ∷ texts rest.now))) }
    ensures limits { IfOk result (λ found. IfSome found KeepsLimits) }
{
    let mut tokens = tokens_of(alloc, rest)?;
    tokens.insert(0, word.as_bytes())?;
    match read_command(alloc, &tokens)? {
        Some(command) => Ok(Some(Job::One {
            command,
            format: Format::Lines,
        })),
        None => Ok(None),
    }
}

// The job of the first word and the rest as they stand, with the words behind `on`.
fn read_form(
    alloc: Global,
    word: &String,
    rest: &[String],
    behind: &[String],
) -> Result<Option<Job>, NoMemory>
    ensures is { IfOk result (λ found. found
        ≡ form_in (forms (texts behind.now)) (string_bytes word.now) (texts rest.now)) }
    ensures limits { IfOk result (λ found. IfSome found KeepsLimits) }
{
    match word.as_str() {
        "disk" => Ok(plain(Job::Disk(Format::Lines), rest)),
        "records" => Ok(plain(Job::Records(Format::Lines), rest)),
        "scan" => Ok(plain(Job::Scan(Format::Lines), rest)),
        "show" => Ok(plain(Job::Show(Format::Lines), rest)),
        "check" => Ok(plain(Job::Check(Format::Lines), rest)),
        "map" => read_map(alloc, rest),
        "dump" => read_dump(alloc, rest),
        "scrub" => read_scrub(alloc, rest),
        "table" => read_table(alloc, rest, behind),
        "try" => Ok(plain(Job::Try(Format::Lines), rest)),
        "edit" => Ok(plain(Job::Edit(Format::Lines), rest)),
        "init" => read_init(alloc, rest),
        "sample" => Ok(read_sample(rest)),
        _ => read_one(alloc, word, rest),
    }
}

// The job whose answer is JSON, over the images of these words.
fn as_json(job: Job, paths: Paths) -> Option<Job>
    requires { KeepsLimits job }
    ensures is { result ≡ as_json paths job }
    ensures limits { IfSome result KeepsLimits }
{
    match job {
        Job::Disk(Format::Lines) => Some(Job::Disk(Format::Json(paths))),
        Job::Records(Format::Lines) => Some(Job::Records(Format::Json(paths))),
        Job::Scan(Format::Lines) => Some(Job::Scan(Format::Json(paths))),
        Job::Show(Format::Lines) => Some(Job::Show(Format::Json(paths))),
        Job::Check(Format::Lines) => Some(Job::Check(Format::Json(paths))),
        Job::Map {
            name,
            first,
            count,
            format: Format::Lines,
        } => Some(Job::Map {
            name,
            first,
            count,
            format: Format::Json(paths),
        }),
        Job::Scrub {
            name,
            format: Format::Lines,
        } => Some(Job::Scrub {
            name,
            format: Format::Json(paths),
        }),
        Job::Try(Format::Lines) => Some(Job::Try(Format::Json(paths))),
        Job::Edit(Format::Lines) => Some(Job::Edit(Format::Json(paths))),
        Job::One {
            command,
            format: Format::Lines,
        } => Some(Job::One {
            command,
            format: Format::Json(paths),
        }),
        _ => None,
    }
}

// What an option makes of a job with the words behind `on`.
fn optioned(
    alloc: Global,
    word: &String,
    job: Job,
    behind: &[String],
) -> Result<Option<Job>, NoMemory>
    requires { KeepsLimits job }
    ensures is { IfOk result (λ found. found
        ≡ optioned_in (options (texts behind.now)) (string_bytes word.now) job) }
    ensures limits { IfOk result (λ found. IfSome found KeepsLimits) }
{
    match word.as_str() {
        "--json" => Ok(as_json(job, Paths::of(alloc, behind)?)),
        _ => Ok(None),
    }
}

// How many options there are.
const OPTIONS: u8 = 1;

// The job of the first word and the rest, which up to so many options stand before.
fn read_with_options(
    alloc: Global,
    most: u8,
    word: &String,
    rest: &[String],
    behind: &[String],
) -> Result<Option<Job>, NoMemory>
    ensures is { IfOk result (λ found. found ≡ with_options (texts behind.now) most
        (form_in (forms (texts behind.now)) (string_bytes word.now)) (texts rest.now)) }
    ensures limits { IfOk result (λ found. IfSome found KeepsLimits) }
{
    if let Some(job) = read_form(alloc, word, rest, behind)? {
        return Ok(Some(job));
    }
    match rest {
        [option, rest @ ..] if most > 0 => {
            match read_with_options(alloc, most - 1, word, rest, behind)? {
                Some(job) => optioned(alloc, option, job, behind),
                None => Ok(None),
            }
        }
        _ => Ok(None),
    }
}

// The job that stands before `on`, with the words behind it.
fn read_job(alloc: Global, words: &[String], behind: &[String]) -> Result<Option<Job>, NoMemory>
    ensures is { IfOk result (λ found. found ≡ job_form (texts words.now) (texts behind.now)) }
    ensures limits { IfOk result (λ found. IfSome found KeepsLimits) }
{
    match words {
        [word, rest @ ..] => read_with_options(alloc, OPTIONS, word, rest, behind),
        [] => Ok(None),
    }
}

/// The job of the words, and the number of its images. Usage comes exactly where they have no
/// reading.
#[tactic(auto, unfolding(crate::specs::Jobs::job_of))]
pub fn read_words(alloc: Global, words: &[String]) -> Result<(Job, usize), WordsError>
    ensures reads { ReadsWords result (job_of (texts words.now)) }
    ensures count { IfOk result (λ reading. HasCount reading.0 reading.1) }
    ensures limits { IfOk result (λ reading. KeepsLimits reading.0) }
    ensures images { IfOk result (λ reading. reading.1 ≡ images_of (texts words.now)) }
    ensures within { IfOk result (λ reading. reading.1 ≤ length words.now) }
{
    let place = on_place(words);
    let images = image_count(words);
    let behind = image_words(words);
    let Some(job) = read_job(alloc, &words[..place], behind)? else {
        return Err(WordsError::Usage);
    };
    if job.fits(images_behind(words)) {
        Ok((job, images))
    } else {
        Err(WordsError::Usage)
    }
}
