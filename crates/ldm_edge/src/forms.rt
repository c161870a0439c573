//! The words of a job by the form that the help says, up to the first that is wrong.
use crate::shown::{FormError, Shown};
use crate::text::HELP;
use ldm_words::{image_count, read_name, read_number};
use std::alloc::Global;

/// The help up to this text.
pub fn help_to(end: &str) -> &'static str {
    match HELP.split_once(end) {
        Some((front, _)) => front,
        None => HELP,
    }
}

/// The form of a job or a command that a line of the help says, if it says one: behind two spaces.
pub fn form_in(line: &'static str) -> Option<&'static str> {
    let text = line.strip_prefix("  ")?;
    text.split("  ").next()
}

/// What a line of the help says behind a form, if it says something.
pub fn told_in(line: &'static str) -> Option<&'static str> {
    let (_, told) = line.strip_prefix("  ")?.split_once("  ")?;
    Some(told.trim_start())
}

/// The first word of a form.
pub fn word_of(form: &str) -> &str {
    match form.split_once(' ') {
        Some((word, _)) => word,
        None => form,
    }
}

// How many words a form has behind the job's, without its images.
fn part_count(form: &str) -> usize {
    match form.split_once(" on ") {
        Some((names, _)) => names.matches(' ').count(),
        None => form.matches(' ').count(),
    }
}

// Whether so many words fit one form better than another: it has a part for each, and fewer to
// spare; or both lack parts, and it has more.
fn fits_better(words: usize, form: &str, other: &str) -> bool {
    let (own, others) = (part_count(form), part_count(other));
    if own < words {
        others < own
    } else {
        others < words || own < others
    }
}

/// The form of the job of this name that so many words behind it fit best, of those jobs that the
/// help says before the commands. Their words are read by the form alone.
pub fn form_of(name: &str, words: usize) -> Option<&'static str> {
    let mut best = None;
    for line in help_to("  COMMAND ").lines() {
        if let Some(form) = form_in(line) {
            let is_better = match best {
                Some(other) => fits_better(words, form, other),
                None => true,
            };
            if word_of(form) == name && is_better {
                best = Some(form);
            }
        }
    }
    best
}

/// The words before `on`, and how many images stand behind it, where there is an `on`.
pub fn split_on(words: &[String]) -> (&[String], Option<usize>) {
    match words.iter().position(|word| word.as_str() == "on") {
        Some(place) => (&words[..place], Some(image_count(words))),
        None => (words, None),
    }
}

// Why a word is no name. A space is what most words have that a shell took as one.
fn no_name<'a>(what: &'static str, word: &'a str) -> FormError<'a> {
    let is_spaced = word.contains(' ');
    let word = Shown(word);
    if is_spaced {
        FormError::Space { what, word }
    } else {
        FormError::Name { what, word }
    }
}

/// A word that stands for a part of a form: a name, a number, or what is read by more than the
/// part's name.
pub fn part<'a>(alloc: Global, what: &'static str, word: &'a str) -> Result<(), FormError<'a>> {
    match what {
        "VOLUME" | "NAME" | "DISK" if read_name(alloc, word.as_bytes())?.is_none() => {
            Err(no_name(what, word))
        }
        "FIRST" | "COUNT" | "SEED" | "CHUNK" | "SECTORS"
            if read_number(word.as_bytes()).is_none() => {
            Err(FormError::Number {
                what,
                word: Shown(word),
            })
        }
        _ => Ok(()),
    }
}

/// The parts that a form begins with, by their names behind the job's, with a word for each. The
/// words behind these are left.
pub fn parts<'a>(
    alloc: Global,
    form: &'static str,
    names: &'static str,
    words: &'a [String],
) -> Result<&'a [String], FormError<'a>> {
    if let Some(what) = names.split(' ').skip(1).nth(words.len()) {
        return Err(FormError::Missing { form, what });
    }
    for (what, word) in names.split(' ').skip(1).zip(words) {
        part(alloc, what, word.as_str())?;
    }
    Ok(words.get(names.matches(' ').count()..).unwrap_or(&[]))
}

/// The images behind `on` that the end of a form says: one, those of a group, or none.
pub fn images<'a>(form: &'static str, on: Option<usize>) -> Result<(), FormError<'a>> {
    let job = word_of(form);
    let end = match form.split_once(" on ") {
        Some((_, end)) => end,
        None => "",
    };
    Err(match on {
        None if end.is_empty() => return Ok(()),
        Some(_) if end.is_empty() => FormError::TakesNone { job },
        None => FormError::NoOn { job },
        Some(0) => FormError::NoImages,
        Some(1) => return Ok(()),
        Some(count) if end == "IMAGE" => FormError::OneImage { job, count },
        Some(2..=64) => return Ok(()),
        Some(count) => FormError::ManyImages { count },
    })
}

// Refuses what stands behind the parts of a form, where there is an `on` or the form has none: else
// the images stand there.
fn no_more<'a>(
    form: &'static str,
    rest: &'a [String],
    on: Option<usize>,
) -> Result<(), FormError<'a>> {
    match rest {
        [word, ..] if on.is_some() || !form.contains(" on ") => Err(FormError::Extra {
            form,
            word: Shown(word.as_str()),
        }),
        _ => Ok(()),
    }
}

// The options of a job, which stand behind its name; none where it has none. Of two with `or`
// between them one alone is taken.
fn options_of(job: &str) -> &'static str {
    match job {
        "disk" | "records" | "scan" | "try" | "edit" => "--json",
        "show" | "check" | "map" | "scrub" => "--json and --past-damage",
        "table" => "--past-damage",
        "dump" => "--past-damage or --rescue",
        _ => "",
    }
}

// The words of a job behind an option, where one stands in front.
fn behind_option<'a>(
    job: &'static str,
    words: &'a [String],
) -> Result<&'a [String], FormError<'a>> {
    let options = options_of(job);
    match words {
        [word, rest @ ..] if !options.is_empty() && word.as_str().starts_with("--") => {
            if options.split(' ').any(|option| option == word.as_str()) {
                Ok(rest)
            } else {
                let word = Shown(word.as_str());
                Err(FormError::UnknownOption { job, options, word })
            }
        }
        _ => Ok(words),
    }
}

// The words of a job behind its options.
fn behind_options<'a>(
    job: &'static str,
    words: &'a [String],
) -> Result<&'a [String], FormError<'a>> {
    let behind_first = behind_option(job, words)?;
    let rest = behind_option(job, behind_first)?;
    let options = options_of(job);
    if options.contains(" or ") && rest.len().saturating_add(2) == words.len() {
        return Err(FormError::OneOption { job, options });
    }
    Ok(rest)
}

/// The words behind that of a job, and its images, by the form that the help says.
pub fn by_form<'a>(
    alloc: Global,
    form: &'static str,
    words: &'a [String],
    on: Option<usize>,
) -> Result<(), FormError<'a>> {
    let names = match form.split_once(" on ") {
        Some((names, _)) => names,
        None => form,
    };
    let job = word_of(form);
    let words = behind_options(job, words)?;
    let rest = parts(alloc, form, names, words)?;
    no_more(form, rest, on).and(images(form, on))
}
