use class_layout::Name;
use page_tables::Addr;

/// A root: its name, and the address of the object that it holds, or 0 for null.
#[derive(Clone, Copy, Debug)]
pub struct RootAt {
    pub name: Name,
    pub holds: Addr,
}
