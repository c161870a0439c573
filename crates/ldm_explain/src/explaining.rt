//! Why a job refused, by what its images hold.
ghost use Rattle.ldm_words.specs.Jobs.{KeepsLimits};
ghost use Rattle.ldm_explain.specs.Sights.{IsSight};

use crate::saying::line_of;
use crate::script::{command_line, script_lines};
use crate::sight::Sight;
use ldm_bytes::NoMemory;
use ldm_found::Found;
use ldm_text::Text;
use ldm_words::Job;
use std::alloc::Global;

// The longest script, in bytes.
const SCRIPT_LIMIT: usize = 1_048_576;

/// Why a job refused, in lines that begin with `ldm: `: by what is seen of its images, of an edit
/// before it began, and by what was heard of a script. It is empty where that isn't known.
pub fn explain(alloc: Global, sight: Sight, job: &Job, script: &[u8]) -> Result<Text, NoMemory>
    requires sound { IsSight sight }
    requires limits { KeepsLimits job.now }
{
    if script.len() > SCRIPT_LIMIT {
        return line_of(
            alloc,
            "the script has more than 1048576 bytes: make two of it",
            &[],
        );
    }
    match sight {
        Sight::Said(text) => Ok(text),
        Sight::Group(found) => {
            let Found { db, labels, .. } = found;
            match job {
                Job::One { command, .. } => command_line(alloc, &db, &labels, command),
                _ => script_lines(alloc, db, &labels, script),
            }
        }
    }
}
