use cow_pages::Addr;

/// What an object's lock word tells.
#[derive(Clone, Copy, Debug, PartialEq, Eq)]
pub enum Header {
    /// The allocation number.
    Number(u32),
    /// Where a collection copied the object.
    Forward(Addr),
}

/// A reference in memory.
#[derive(Clone, Copy, Debug, PartialEq, Eq)]
pub struct Slot {
    /// Where the reference stands.
    pub at: Addr,
    /// The object that it holds: its address, or 0 for null.
    pub target: Addr,
    /// Whether a collection ignores the slot when it looks for what is reached.
    pub weak: bool,
}

/// The heap in which a dump shows an object.
#[derive(Clone, Copy, Debug, PartialEq, Eq)]
pub enum Heap {
    Image,
    Zygote,
    App,
}
