//! Tests of the crates of groups and of their texts, of what no clause of theirs says.
#![tactic(auto)]

#[cfg(test)]
mod absent;
#[cfg(test)]
mod batches;
#[cfg(test)]
mod copy;
#[cfg(test)]
mod damage;
#[cfg(test)]
mod found;
#[cfg(test)]
mod gate;
#[cfg(test)]
mod group;
#[cfg(test)]
mod layout;
#[cfg(test)]
mod layout_columns;
#[cfg(test)]
mod made;
#[cfg(test)]
mod rescue;
#[cfg(test)]
mod rescue_job;
#[cfg(test)]
mod rules;
#[cfg(test)]
mod sectors;
#[cfg(test)]
mod space;
#[cfg(test)]
mod steps;
#[cfg(test)]
mod text;
#[cfg(test)]
mod vectors;
