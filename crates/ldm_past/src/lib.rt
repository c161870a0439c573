//! Jobs that read past damage: `JOB --past-damage`. Each image is read as its view, which mends its
//! label and passes over its copy of the database where these are damaged; the answer is the job's
//! over these views, and nothing is written.
//!
//! The words are in `specs/PastWords.antt`, the answers in `specs/PastAnswer.antt`, and what is left
//! of the talk in `specs/PastTalk.antt`.
#![tactic(auto)]

mod checking;
mod past;
mod past_json;
mod running;
mod texts;
mod words;

pub use past::run_past;
pub use words::past_words;
