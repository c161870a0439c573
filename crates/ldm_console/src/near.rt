//! Words that are nearly those of the help.
use crate::usage::UsageError;
use ldm_edge::{FormError, Shown, form_in, help_to, word_of};
use std::alloc::{AllocError, Global};
use strsim::levenshtein;

// What stands in the help for a command.
const COMMAND: &str = "COMMAND";

// The first words of the lines of a script.
const COMMANDS: [&str; 6] = ["create", "extend", "delete", "begin", "commit", "cancel"];

// How many changes make a word another that may have been meant: one for three characters, and no
// more than two.
fn most_changes(word: &str) -> usize {
    word.chars().count().div_ceil(3).clamp(1, 2)
}

/// The nearer of two names, the first where they are as near: none, or a name with the number of
/// changes that make it of a word.
#[derive(Clone, Copy)]
pub struct Nearest<'a> {
    changes: usize,
    name: Option<&'a str>,
}

impl<'a> Nearest<'a> {
    /// None of the names so far is as near to the word as that it may have been meant.
    pub fn to(word: &str) -> Nearest<'a> {
        Nearest {
            changes: most_changes(word).saturating_add(1),
            name: None,
        }
    }

    /// The nearest of those so far and this name.
    pub fn or(self, alloc: Global, word: &str, name: &'a str) -> Result<Nearest<'a>, AllocError> {
        let changes = levenshtein(alloc, word, name)?;
        if changes < self.changes {
            Ok(Nearest {
                changes,
                name: Some(name),
            })
        } else {
            Ok(self)
        }
    }

    /// The name, if one is near.
    pub fn name(self) -> Option<&'a str> {
        self.name
    }
}

// The nearest of the jobs and commands that the help says, up to the words of a batch.
fn near_job(alloc: Global, word: &str) -> Result<Option<&'static str>, AllocError> {
    let mut best = Nearest::to(word).or(alloc, word, "help")?;
    for line in help_to("  begin ").lines() {
        if let Some(form) = form_in(line) {
            if word_of(form) != COMMAND {
                best = best.or(alloc, word, word_of(form))?;
            }
        }
    }
    Ok(best.name())
}

// The nearest of the first words of a line.
fn near_command(alloc: Global, word: &str) -> Result<Option<&'static str>, AllocError> {
    let mut best = Nearest::to(word);
    for name in COMMANDS {
        best = best.or(alloc, word, name)?;
    }
    Ok(best.name())
}

/// Why a word that no job has is none.
pub fn unknown_job(alloc: Global, word: &str) -> UsageError<'_> {
    let shown = Shown(word);
    match near_job(alloc, word) {
        Ok(Some(nearest)) => UsageError::UnknownJob {
            word: shown,
            nearest,
        },
        Ok(None) => UsageError::NoSuchJob { word: shown },
        Err(_) => UsageError::Form(FormError::NoMemory),
    }
}

/// Why a word that no line of a script begins with is none.
pub fn unknown_command(alloc: Global, word: &str) -> UsageError<'_> {
    let shown = Shown(word);
    match near_command(alloc, word) {
        Ok(Some(nearest)) => UsageError::UnknownCommand {
            word: shown,
            nearest,
        },
        Ok(None) => UsageError::NoSuchCommand { word: shown },
        Err(_) => UsageError::Form(FormError::NoMemory),
    }
}
