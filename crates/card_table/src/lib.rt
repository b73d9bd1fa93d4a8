//! The card table: which cards of a span of addresses are dirty. A card has 1,024 bytes.
#![tactic(auto)]

mod cards;

pub use cards::Cards;
