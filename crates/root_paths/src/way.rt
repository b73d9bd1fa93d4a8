//! The path to a node.
ghost use Rattle.std.specs.Prelude.{◌≡◌, ℕ, ◌<◌, List, None, length, get_or, unwrap_or, IfOk, All};
ghost use Rattle.dump_graph.specs.Graph.{Node};
ghost use Rattle.root_paths.specs.Paths.{way};
ghost use Rattle.root_paths.specs.Levels.{IsReachedAt, before_of};

use crate::levels::Reach;
use std::alloc::{AllocError, Global};

/// The node from which a node is reached.
fn before(reached: &[Option<Reach>], number: usize) -> usize
    requires { number < length reached.now }
    ensures { result ≡ unwrap_or (before_of (get_or reached.now number None)) number }
{
    match reached[number] {
        None => number,
        Some(reach) => reach.before,
    }
}

/// The nodes of the path to a node at this level, from the root on.
pub(crate) fn way_to(
    alloc: Global,
    reached: &[Option<Reach>],
    level: usize,
    number: usize,
) -> Result<Vec<usize>, AllocError>
    requires { (g : List Node) × IsReachedAt g reached.now level number }
    ensures way { (g : List Node) → IsReachedAt g reached.now level number → IfOk result (λ nodes. nodes.items ≡ way g level number) }
    ensures within { IfOk result (λ nodes. All (λ n. n < length reached.now) nodes.items) }
{
    let mut way = Vec::new(alloc);
    let mut at = number;
    way.push(at)?;
    for _ in 0..level {
        at = before(reached, at);
        way.push(at)?;
    }
    way.reverse();
    Ok(way)
}
