//! The nodes of a dump's graph, as they are kept.
use std::marker::Model;

/// A node: its identifier, whether it is a root, and where the numbers of the nodes to which it has an edge stand among
/// those of all nodes.
#[derive(Clone, Copy, Debug, PartialEq, Eq)]
pub(crate) struct KeptNode {
    pub(crate) id: u32,
    pub(crate) is_root: bool,
    pub(crate) from: u32,
    pub(crate) to: u32,
}
