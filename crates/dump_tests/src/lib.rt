//! Tests of dumps: the front of a dump at each length, bytes that are no dump, a dump's records, listings, paths, conversions, the shelf of a
//! run that dumps, and where that stops when its source, its sink or its shelf fails.
#![tactic(auto)]

#[cfg(test)]
mod bytes;
#[cfg(test)]
mod call;
#[cfg(test)]
mod faults;
#[cfg(test)]
mod listings;
#[cfg(test)]
mod paths;
#[cfg(test)]
mod runs;
#[cfg(test)]
mod tests;
#[cfg(test)]
mod wanted;
#[cfg(test)]
mod wide;
#[cfg(test)]
mod wide_bytes;
