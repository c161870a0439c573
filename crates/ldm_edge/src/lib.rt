//! What the programs have in common over the system: the words and images that they take, how they
//! end, the help and the version, and why words don't fill a form of the help.
#![tactic(auto)]

mod ends;
mod forms;
mod shown;
mod stop;
mod taking;
mod text;

pub use ends::{ending, exit_code};
pub use forms::{
    by_form, form_in, form_of, help_to, images, part, parts, split_on, told_in, word_of,
};
pub use shown::{FormError, Shown};
pub use stop::{Fault, Stop, Written};
pub use taking::{open_images, stop_unopened, words_of};
pub use text::{HELP, VERSION};
