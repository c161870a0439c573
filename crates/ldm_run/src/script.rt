//! Hearing a script.
ghost use Rattle.std.specs.Prelude.{◌≤◌, List, ℕ, length, IfOk, IfSome, IfErr};
ghost use Rattle.ldm_run.specs.Heard.{Hears, IsScript, TalkFails};

use ldm_bytes::{Bytes, NoMemory};
use ldm_host::Host;
use ldm_words::Status;
use std::alloc::Global;

// The longest script, in bytes.
const SCRIPT_LIMIT: usize = 1_048_576;

/// Hears the whole script, and at most one byte more than a script may have. `None` where it is too
/// long; or how the run ends where memory or the talk fails.
pub(crate) fn hear_script<H: Host>(alloc: Global, host: &mut H) -> Result<Option<Bytes>, Status>
    ensures script { H.tells_talk → IfOk result (λ script. IsScript script (H.seen host.old)
        (H.seen host.new)) }
    ensures short { IfOk result (λ script. IfSome script (λ bytes. length bytes ≤ 1048576)) }
    ensures fault { IfErr result (TalkFails (H.seen host.old) (H.seen host.new)) }
    ensures hears { (taken : List ℕ) × Hears H.tells_talk (H.seen host.old)
        (H.seen host.new) taken }
{
    let mut script = Vec::new(alloc);
    let mut buf = [0u8; 512];
    'hearing: while script.len() <= SCRIPT_LIMIT {
        let room = buf.len().min(SCRIPT_LIMIT + 1 - script.len());
        let Ok(count) = host.hear(&mut buf[..room]) else {
            return Err(Status::TalkFault);
        };
        if count == 0 {
            return Ok(Some(Bytes::from_vec(script)));
        }
        if script.extend_from_slice(&buf[..count]).is_err() {
            return Err(Status::NoMemory);
        }
    }
    Ok(None)
}
