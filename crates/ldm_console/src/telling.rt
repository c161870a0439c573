//! The help and the version, as they are said.
ghost use Rattle.std.specs.Prelude.{◌≡◌, ◌⊎◌, Ok};
ghost use Rattle.ldm_words.specs.declared.status.Status.TheVariants.{Done, TalkFault};
ghost use Rattle.ldm_edge.specs.Ends.{end_status};

use ldm_edge::{Stop, Written, ending};
use ldm_files::Failure;
use ldm_words::Status;
use std::io::Write;

/// Says a text that was asked for by a word alone.
pub fn tell<'a, U, O: Write>(mut output: O, text: &str) -> Result<Status, Stop<'a, U>>
where
    O: Drop,
    ensures { (result ≡ Ok Done) ⊎ (end_status result ≡ TalkFault) }
{
    match output.write_all(text.as_bytes()) {
        Ok(()) => Ok(Status::Done),
        Err(error) => {
            let failure = Some(Failure::Output(error));
            ending(Status::TalkFault, &[], failure, Written::Never)
        }
    }
}
