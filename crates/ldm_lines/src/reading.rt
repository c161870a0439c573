//! What the tokens of a line say.
ghost use Rattle.std.specs.Prelude.{◌≡◌, IfOk, IfSome};
ghost use Rattle.ldm_words.specs.Commands.{token_bytes};
ghost use Rattle.ldm_words.specs.Limits.{IsCommand};
ghost use Rattle.ldm_lines.specs.Readings.{alone, line_of, LinesKeepLimits};

use ldm_bytes::NoMemory;
use ldm_words::{Command, read_command};
use std::alloc::Global;

// A word that stands alone.
fn read_alone(command: Command, tokens: &[&[u8]]) -> Option<Command>
    ensures { result ≡ alone command (token_bytes tokens.now) }
{
    if tokens.is_empty() {
        Some(command)
    } else {
        None
    }
}

// What the tokens of a line say.
#[tactic(auto, unfolding(crate::specs::Readings::line_of))]
fn read_line_form(alloc: Global, tokens: &[&[u8]]) -> Result<Option<Command>, NoMemory>
    ensures { IfOk result (λ found. found ≡ line_of (token_bytes tokens.now)) }
{
    let [word, rest @ ..] = tokens else {
        return Ok(None);
    };
    if *word == b"begin".as_slice() {
        Ok(read_alone(Command::Begin, rest))
    } else if *word == b"commit".as_slice() {
        Ok(read_alone(Command::Commit, rest))
    } else if *word == b"cancel".as_slice() {
        Ok(read_alone(Command::Cancel, rest))
    } else {
        read_command(alloc, tokens)
    }
}

/// The command, or the word of a batch, that the tokens of a line of a script say. `None` exactly
/// where they have no reading.
#[tactic(auto, using(crate::proofs::LimitLaws::lines_keep, crate::proofs::LimitLaws::line_keeps))]
pub fn read_script_line(alloc: Global, tokens: &[&[u8]]) -> Result<Option<Command>, NoMemory>
    ensures is { IfOk result (λ found. found ≡ line_of (token_bytes tokens.now)) }
    ensures limits { IfOk result (λ found. IfSome found IsCommand) }
    ensures all_keep { LinesKeepLimits }
{
    read_line_form(alloc, tokens)
}
