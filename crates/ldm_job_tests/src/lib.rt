//! Tests of the jobs over disks in memory, of what no clause of theirs says.
#![tactic(auto)]

#[cfg(test)]
mod changed;
#[cfg(test)]
mod copies;
#[cfg(test)]
mod damaged;
#[cfg(test)]
mod edit;
#[cfg(test)]
mod gpt;
#[cfg(test)]
mod group;
#[cfg(test)]
mod handed;
#[cfg(test)]
mod hostile;
#[cfg(test)]
mod jobs;
#[cfg(test)]
mod labels;
#[cfg(test)]
mod looking;
#[cfg(test)]
mod making;
#[cfg(test)]
mod past;
#[cfg(test)]
mod repair;
#[cfg(test)]
mod sample;
#[cfg(test)]
mod scanning;
#[cfg(test)]
mod scripts;
#[cfg(test)]
mod stop;
#[cfg(test)]
mod store;
#[cfg(test)]
mod table;
#[cfg(test)]
mod values;
#[cfg(test)]
mod volumes;
