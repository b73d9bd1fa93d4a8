//! Tests of the crates that find paths in dumps.
#![tactic(auto)]

#[cfg(test)]
mod made;
#[cfg(test)]
mod tests;
