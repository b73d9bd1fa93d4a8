/// What is asked of an input.
#[derive(Clone, Copy, Debug, PartialEq, Eq)]
pub enum Question {
    /// The listing of a dump.
    Listing,
    /// A shortest path in a dump, from a root to the object or class with this identifier.
    Path { id: u32 },
    /// The dump of 1.0.3 with identifiers of 4 bytes that a wide dump is converted to.
    Converted,
}
