//! How a run ends.
ghost use Rattle.std.specs.Prelude.{◌≡◌, ◌⊎◌, IfOk};
ghost use Rattle.ldm_words.specs.declared.status.Status.TheVariants.{Done, Refused};
ghost use Rattle.ldm_edge.specs.Ends.{end_status};

use crate::stop::{Fault, Stop, Written};
use ldm_files::Failure;
use ldm_words::Status;
use std::fmt;
use std::process::ExitCode;

/// How a run ended with this status, after which the host tells the call that failed last, and what
/// was written.
pub fn ending<'a, U>(
    status: Status,
    names: &'a [String],
    failure: Option<Failure>,
    written: Written,
) -> Result<Status, Stop<'a, U>>
    ensures same { end_status result ≡ status }
    ensures answer { IfOk result (λ status. (status ≡ Done) ⊎ (status ≡ Refused)) }
{
    let fault = Fault {
        failure,
        names,
        written,
    };
    match status {
        Status::Done | Status::Refused => Ok(status),
        Status::Usage => Err(Stop::Usage(None)),
        Status::DiskFault => Err(Stop::Disk(fault)),
        Status::NoMemory => Err(Stop::NoMemory(written)),
        Status::TalkFault => Err(Stop::Talk(fault)),
    }
}

/// Says how the program ends where it isn't with an answer.
pub fn exit_code<U: fmt::Display + Drop>(
    rt: &HostRuntime,
    done: Result<Status, Stop<'_, U>>,
) -> ExitCode {
    let status = match done {
        Ok(status) => status,
        Err(stop) => {
            let _ = eprint!(rt; "{stop}");
            stop.status()
        }
    };
    ExitCode::from(status as u8)
}
