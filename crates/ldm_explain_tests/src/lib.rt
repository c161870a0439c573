//! Tests of what is explained at a terminal: each text, and that its cause is found.
#![tactic(auto)]

#[cfg(test)]
mod arrays;
#[cfg(test)]
mod images;
#[cfg(test)]
mod jobs;
#[cfg(test)]
mod lines;
#[cfg(test)]
mod texts;
