//! The mark bitmap: which addresses of a span are marked, a bit for each 8 bytes.
#![tactic(auto)]

mod bitmap;

pub use bitmap::Bitmap;
