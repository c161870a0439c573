//! The grammar of command lines and of lines of a script once more, read in its order up to the
//! first word that is wrong.
use crate::job_help::alone;
use crate::near::{unknown_command, unknown_job};
use crate::usage::UsageError;
use ldm_bytes::{NoMemory, read_guid};
use ldm_edge::{FormError, Shown, by_form, form_of, images, part, parts, split_on};
use ldm_words::{read_name, read_number};
use std::alloc::Global;

// Words that are right, or why not. Of parts that are joined by `and` the first wrong one is said.
type Read<'a> = Result<(), UsageError<'a>>;

fn check(right: bool, wrong: UsageError<'_>) -> Read<'_> {
    if right { Ok(()) } else { Err(wrong) }
}

// What is missing where the words end before the third part of a form, which begins with the name
// and the GUID of something new.
fn missing<'a>(form: &'static str, words: &[String], third: &'static str) -> UsageError<'a> {
    let what = match words {
        [] => "NAME",
        [_] => "GUID",
        _ => third,
    };
    UsageError::Form(FormError::Missing { form, what })
}

fn new_volume<'a>(alloc: Global, word: &'a str) -> Read<'a> {
    part(alloc, "NAME", word)?;
    let name = read_name(alloc, word.as_bytes())?;
    let len = name.map_or(0, |name| name.as_slice().len());
    let word = Shown(word);
    check((1..=63).contains(&len), UsageError::NewName { word, len })
}

fn new_group<'a>(alloc: Global, word: &'a str) -> Read<'a> {
    part(alloc, "NAME", word)?;
    let Some(name) = read_name(alloc, word.as_bytes())? else {
        return Ok(());
    };
    let len = name.as_slice().len();
    let word = Shown(word);
    check((1..=30).contains(&len), UsageError::GroupName { word, len })?;
    check(!name.as_slice().contains(&0), UsageError::Zero { word })
}

fn is_guid(word: &str) -> bool {
    read_guid(word.as_bytes()).is_some()
}

fn guid(word: &str) -> Read<'_> {
    check(is_guid(word), UsageError::Guid { word: Shown(word) })
}

// The GUID behind the name of a new volume. Where a GUID stands one word further the name was
// written with a space.
fn guid_behind<'a>(name: &'a str, word: &'a str, next: &'a str) -> Read<'a> {
    if is_guid(next) && !is_guid(word) {
        return Err(UsageError::SpacedName {
            name: Shown(name),
            word: Shown(word),
        });
    }
    guid(word)
}

// Whether a word is DISK=SECTORS, split at the last `=`.
fn is_piece(alloc: Global, word: &str) -> Result<bool, NoMemory> {
    match word.rsplit_once('=') {
        Some((disk, sectors)) if read_number(sectors.as_bytes()).is_some() => {
            Ok(read_name(alloc, disk.as_bytes())?.is_some())
        }
        _ => Ok(false),
    }
}

// The count of the words that a form ends in.
fn count<'a>(kind: &'static str, least: usize, what: &'static str, words: &[String]) -> Read<'a> {
    let count = words.len();
    check(
        (least..=64).contains(&count),
        UsageError::Count {
            kind,
            least,
            what,
            count,
        },
    )
}

fn disks<'a>(alloc: Global, kind: &'static str, least: usize, words: &'a [String]) -> Read<'a> {
    count(kind, least, "disks", words)?;
    for word in words {
        part(alloc, "DISK", word.as_str())?;
    }
    Ok(())
}

fn pieces<'a>(alloc: Global, kind: &'static str, words: &'a [String]) -> Read<'a> {
    count(kind, 1, "pieces", words)?;
    for word in words {
        let word = word.as_str();
        check(
            is_piece(alloc, word)?,
            UsageError::Piece { word: Shown(word) },
        )?;
    }
    Ok(())
}

fn guids(words: &[String]) -> Read<'_> {
    count("init", 2, "DISKGUIDs", words)?;
    for word in words {
        guid(word.as_str())?;
    }
    Ok(())
}

fn layout<'a>(alloc: Global, kind: &'a str, words: &'a [String]) -> Read<'a> {
    match kind {
        "span" => pieces(alloc, "a span", words),
        "stripe" => {
            let form = "create NAME GUID stripe CHUNK SECTORS DISK DISK... on IMAGE...";
            let rest = parts(alloc, form, "stripe CHUNK SECTORS", words)?;
            disks(alloc, "a stripe", 2, rest)
        }
        "mirror" => {
            let form = "create NAME GUID mirror SECTORS DISK DISK... on IMAGE...";
            let rest = parts(alloc, form, "mirror SECTORS", words)?;
            disks(alloc, "a mirror", 2, rest)
        }
        "raid5" => {
            let form = "create NAME GUID raid5 CHUNK SECTORS DISK DISK DISK... on IMAGE...";
            let rest = parts(alloc, form, "raid5 CHUNK SECTORS", words)?;
            disks(alloc, "a raid5", 3, rest)
        }
        _ => Err(UsageError::Kind { word: Shown(kind) }),
    }
}

fn create<'a>(alloc: Global, words: &'a [String], on: Option<usize>) -> Read<'a> {
    let form = "create NAME GUID span|stripe|mirror|raid5 .. on IMAGE...";
    let [name, id, kind, rest @ ..] = words else {
        return Err(missing(form, words, "the kind of volume"));
    };
    new_volume(alloc, name.as_str())?;
    guid_behind(name.as_str(), id.as_str(), kind.as_str())?;
    layout(alloc, kind.as_str(), rest)?;
    Ok(images(form, on)?)
}

fn extend<'a>(alloc: Global, words: &'a [String], on: Option<usize>) -> Read<'a> {
    let form = "extend NAME DISK=SECTORS... on IMAGE...";
    let rest = parts(alloc, form, "extend NAME", words)?;
    pieces(alloc, "extend", rest)?;
    Ok(images(form, on)?)
}

fn delete<'a>(alloc: Global, words: &'a [String], on: Option<usize>) -> Read<'a> {
    Ok(by_form(alloc, "delete NAME on IMAGE...", words, on)?)
}

fn init<'a>(alloc: Global, words: &'a [String], on: Option<usize>) -> Read<'a> {
    let form = "init NAME GUID DISKGUID DISKGUID... on IMAGE...";
    let [name, id, _, ..] = words else {
        return Err(missing(form, words, "DISKGUID"));
    };
    let ids = &words[2..];
    new_group(alloc, name.as_str())?;
    guid(id.as_str())?;
    guids(ids)?;
    images(form, on)?;
    let (disks, images) = (ids.len(), on.unwrap_or(0));
    check(disks == images, UsageError::Unlike { disks, images })
}

// How many words stand behind the options in front.
fn count_behind_options(words: &[String]) -> usize {
    for (place, word) in words.iter().enumerate() {
        if !word.as_str().starts_with("--") {
            return words.len().saturating_sub(place);
        }
    }
    0
}

// A job that the help says, or why the word is none.
fn by_help<'a>(alloc: Global, word: &'a str, rest: &'a [String], on: Option<usize>) -> Read<'a> {
    match form_of(word, count_behind_options(rest)) {
        Some(form) => Ok(by_form(alloc, form, rest, on)?),
        None => Err(unknown_job(alloc, word)),
    }
}

// Help of a job that there isn't, or of more than one.
fn help<'a>(alloc: Global, words: &'a [String]) -> Read<'a> {
    match words {
        [] => Ok(()),
        [word] => Err(unknown_job(alloc, word.as_str())),
        [_, word, ..] => {
            let (form, word) = ("help JOB", Shown(word.as_str()));
            Err(UsageError::Form(FormError::Extra { form, word }))
        }
    }
}

// The words of a command behind its option, where it has one.
fn behind_json(words: &[String]) -> &[String] {
    match words {
        [word, rest @ ..] if word.as_str() == "--json" => rest,
        _ => words,
    }
}

// The words before `on`, and how many images stand behind it.
fn job<'a>(alloc: Global, words: &'a [String], on: Option<usize>) -> Read<'a> {
    let [word, rest @ ..] = words else {
        return Err(UsageError::NoJob);
    };
    match word.as_str() {
        "init" => init(alloc, rest, on),
        "create" => create(alloc, behind_json(rest), on),
        "extend" => extend(alloc, behind_json(rest), on),
        "delete" => delete(alloc, behind_json(rest), on),
        "help" => help(alloc, rest),
        word @ ("begin" | "commit" | "cancel") => Err(UsageError::OfBatch { word: Shown(word) }),
        word => by_help(alloc, word, rest, on),
    }
}

/// Why words that have no reading have none: the first that is wrong in the order of the grammar.
/// Of words that have one it says nothing of use.
pub fn usage_error(alloc: Global, words: &[String]) -> Option<UsageError<'_>> {
    let (before, on) = split_on(words);
    match job(alloc, before, on) {
        Ok(()) => None,
        Err(UsageError::Form(why)) if words.len() == 1 => Some(alone(why, words[0].as_str())),
        Err(error) => Some(error),
    }
}

// The words of a line of a script, which is a command without its images, or a word of a batch.
fn line<'a>(alloc: Global, words: &'a [String]) -> Read<'a> {
    let [word, rest @ ..] = words else {
        return Err(UsageError::NoCommand);
    };
    match word.as_str() {
        "create" => create(alloc, rest, Some(1)),
        "extend" => extend(alloc, rest, Some(1)),
        "delete" => delete(alloc, rest, Some(1)),
        "begin" => Ok(by_form(alloc, "begin", rest, None)?),
        "commit" => Ok(by_form(alloc, "commit", rest, None)?),
        "cancel" => Ok(by_form(alloc, "cancel", rest, None)?),
        word => Err(unknown_command(alloc, word)),
    }
}

// A form without the images that a line of a script doesn't name.
fn without_images(form: &str) -> &str {
    form.strip_suffix(" on IMAGE...").unwrap_or(form)
}

/// Why the words of a line of a script have no reading, as `usage_error` says it of a command line.
pub fn line_error(alloc: Global, words: &[String]) -> Option<UsageError<'_>> {
    let error = match line(alloc, words) {
        Ok(()) => return None,
        Err(error) => error,
    };
    Some(match error {
        UsageError::Form(FormError::Extra { form, word }) => UsageError::Form(FormError::Extra {
            form: without_images(form),
            word,
        }),
        UsageError::Form(FormError::Missing { form, what }) => {
            UsageError::Form(FormError::Missing {
                form: without_images(form),
                what,
            })
        }
        error => error,
    })
}
