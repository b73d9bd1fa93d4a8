//! Tests of the forms and adapters of sources, sinks and shelves.
#![tactic(auto)]

#[cfg(test)]
mod forms;
#[cfg(test)]
mod readers;
#[cfg(test)]
mod wanted;
#[cfg(test)]
mod writers;
