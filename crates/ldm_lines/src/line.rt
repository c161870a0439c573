//! Lines of a script.
ghost use Rattle.std.specs.Prelude.{◌≡◌, [], IfOk, MatchOption};
ghost use Rattle.ldm_words.specs.Commands.{token_bytes};
ghost use Rattle.ldm_words.specs.Limits.{IsCommand};
ghost use Rattle.ldm_lines.specs.Lines.{tokens_of, lines_of, IsFrontLine, ReadsLine};
ghost use Rattle.ldm_lines.specs.Readings.{line_of};

use crate::reading::read_script_line;
use ldm_bytes::NoMemory;
use ldm_words::Command;
use std::alloc::Global;
use thiserror::Error;

/// Why a line gives no command.
#[derive(Clone, Copy, Debug, Drop, Error)]
pub enum LineError {
    #[error("the line has no reading")]
    BadLine,
    #[error("no memory")]
    NoMemory,
}

impl From<NoMemory> for LineError {
    ghost use Rattle.std.specs.Prelude.{◌≡◌};
    ghost use Rattle.ldm_lines.specs.declared.line.LineError.TheVariants.{NoMemory};

    ghost from_gives = { λ _ error. error ≡ NoMemory };

    fn from(_error: NoMemory) -> Self {
        LineError::NoMemory
    }
}

// The tokens of a line, which lie in it.
fn split_tokens(alloc: Global, line: &[u8]) -> Result<Vec<&[u8]>, NoMemory>
    ensures { IfOk result (λ tokens. token_bytes tokens.items ≡ tokens_of line.now) }
{
    let mut tokens = Vec::new(alloc);
    for part in line.split(|c| *c == b' ') {
        if !part.is_empty() {
            tokens.push(part)?;
        }
    }
    Ok(tokens)
}

/// The command, or the word of a batch, that a line of a script says. BadLine comes exactly where
/// it has no reading.
pub fn read_line(alloc: Global, line: &[u8]) -> Result<Command, LineError>
    ensures reads { ReadsLine result (line_of (tokens_of line.now)) }
    ensures limits { IfOk result IsCommand }
{
    let tokens = split_tokens(alloc, line)?;
    match read_script_line(alloc, &tokens)? {
        Some(command) => Ok(command),
        None => Err(LineError::BadLine),
    }
}

/// The first line of a script, and the bytes after it. `None` exactly where there is no line.
pub fn front_line(script: &[u8]) -> Option<(&[u8], &[u8])>
    ensures { MatchOption result (lines_of script.now ≡ [])
        (λ front. IsFrontLine script.now front.0.now front.1.now) }
{
    if script.is_empty() {
        return None;
    }
    match script.iter().position(|c| *c == b'\n') {
        Some(place) => Some((&script[..place], &script[place + 1..])),
        None => Some((script, &[])),
    }
}
