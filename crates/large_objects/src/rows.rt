//! The rows of large objects.
ghost use Rattle.std.specs.Prelude.{◌≡◌};
ghost use Rattle.large_objects.specs.Rows.{cost_of, stays};

use model_numbers::REGION_BYTES;

/// A large object: its allocation number, its slot, from 0 to 511, how many bytes it has unrounded, whether a fork has
/// promoted it, and whether a collection has marked it.
#[derive(Clone, Copy, Debug, PartialEq, Eq)]
pub struct LargeRow {
    pub number: u32,
    pub slot: u32,
    pub bytes: u32,
    pub promoted: bool,
    pub marked: bool,
}

impl LargeRow {
    /// How many regions the object costs.
    pub fn cost(&self) -> u32
        ensures { result ≡ cost_of self.now }
    {
        self.bytes.div_ceil(REGION_BYTES)
    }

    /// Whether a sweep keeps the row: it is promoted or marked.
    pub fn stays(&self) -> bool
        ensures { result ≡ stays self.now }
    {
        self.promoted || self.marked
    }
}
