//! Tests of the crates that keep memory, over what they offer to the crates above.
#![tactic(auto)]

#[cfg(test)]
mod bitmaps;
#[cfg(test)]
mod cards;
#[cfg(test)]
mod classes;
#[cfg(test)]
mod images;
#[cfg(test)]
mod live;
#[cfg(test)]
mod objects;
#[cfg(test)]
mod pages;
#[cfg(test)]
mod references;
#[cfg(test)]
mod sets;
