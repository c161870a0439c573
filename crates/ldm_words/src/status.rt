//! How a run of the program ends.

/// How a run ends. The numbers are the exit statuses of the program.
#[derive(Clone, Copy, Debug, PartialEq, Eq)]
pub enum Status {
    /// The answer was said.
    Done = 0,
    /// The refusal was said.
    Refused = 1,
    /// The words have no reading.
    Usage = 2,
    /// A call of a disk failed.
    DiskFault = 3,
    NoMemory = 4,
    /// Standard input or standard output failed.
    TalkFault = 5,
}

const _: () = prove!(Status::Done as i32 == 0);

const _: () = prove!(Status::Refused as i32 == 1);

const _: () = prove!(Status::Usage as i32 == 2);

const _: () = prove!(Status::DiskFault as i32 == 3);

const _: () = prove!(Status::NoMemory as i32 == 4);

const _: () = prove!(Status::TalkFault as i32 == 5);
