//! How far each node is from the roots, level by level.
ghost use Rattle.std.specs.Prelude.{◌≡◌, ℕ, suc, ◌<◌, None, length, map, IfOk, OnOk, All, is_none};
ghost use Rattle.dump_graph.specs.Graph.{LeadsWithin};
ghost use Rattle.root_paths.specs.Paths.{numbers, ends};
ghost use Rattle.root_paths.specs.Levels.{root_reach, led, Led, MadeLevel, IsBelow, AreReached};

use dump_graph::DumpGraph;
use std::alloc::{AllocError, Global};

/// How a node is reached: by so many edges, and, but for a root, from which node.
#[derive(Clone, Copy, Debug, PartialEq, Eq)]
pub(crate) struct Reach {
    pub(crate) level: usize,
    pub(crate) before: usize,
}

/// The reach of the roots, and their numbers.
fn reach_roots(
    alloc: Global,
    graph: &DumpGraph,
) -> Result<(Vec<Option<Reach>>, Vec<usize>), AllocError>
    ensures reached { IfOk result (λ r. r.0.items ≡ map (root_reach graph.now) (numbers graph.now)) }
    ensures roots { IfOk result (λ r. r.1.items ≡ ends graph.now 0) }
{
    let mut reached = Vec::with_capacity(alloc, graph.len())?;
    let mut roots = Vec::new(alloc);
    for i in 0..graph.len() {
        if graph.is_root(i) {
            reached.push(Some(Reach {
                level: 0,
                before: i,
            }))?;
            roots.push(i)?;
        } else {
            reached.push(None)?;
        }
    }
    Ok((reached, roots))
}

/// The reach of a node to which another one has an edge, which is at the level before this one: the first such node counts.
/// Tells whether it was not reached before.
fn reach_one(reach: &mut Option<Reach>, level: usize, before: usize) -> bool
    ensures reached { reach.new ≡ led level before reach.old }
    ensures new { result ≡ is_none reach.old }
{
    match *reach {
        None => {
            *reach = Some(Reach { level, before });
            true
        }
        Some(known) => {
            if known.level == level && before < known.before {
                *reach = Some(Reach { level, before });
            }
            false
        }
    }
}

/// Reaches the targets of a node. Puts those that were not reached before behind the others of the level.
fn reach_targets(
    targets: &[u32],
    level: usize,
    before: usize,
    reached: &mut [Option<Reach>],
    next: &mut Vec<usize>,
) -> Result<(), AllocError>
    requires { All (λ t. t < length reached.old) targets.now }
    ensures length { length reached.new ≡ length reached.old }
    ensures led { OnOk result (Led level before targets.now reached.old next.old.items reached.new next.new.items) }
{
    for target in targets {
        let number = *target as usize;
        if reach_one(&mut reached[number], level, before) {
            next.push(number)?;
        }
    }
    Ok(())
}

/// Reaches the nodes of a level from those of the level before it, and gives them.
fn reach_level(
    alloc: Global,
    graph: &DumpGraph,
    level: usize,
    from: &[usize],
    reached: &mut [Option<Reach>],
) -> Result<Vec<usize>, AllocError>
    requires within { LeadsWithin graph.now }
    requires nodes { All (λ n. n < length graph.now) from.now }
    requires as_many { length reached.old ≡ length graph.now }
    requires below { IsBelow level reached.old }
    ensures length { length reached.new ≡ length reached.old }
    ensures made { IfOk result (λ next. MadeLevel graph.now level from.now reached.old reached.new next.items) }
{
    let mut next = Vec::new(alloc);
    for number in from {
        reach_targets(graph.targets(*number), level, *number, reached, &mut next)?;
    }
    Ok(next)
}

/// How each node is reached, where it is.
pub(crate) fn reach_all(alloc: Global, graph: &DumpGraph) -> Result<Vec<Option<Reach>>, AllocError>
    requires { LeadsWithin graph.now }
    ensures { IfOk result (λ reached. AreReached graph.now reached.items) }
{
    let (mut reached, mut from) = reach_roots(alloc, graph)?;
    let mut level = 0;
    while !from.is_empty() {
        level += 1;
        from = reach_level(alloc, graph, level, &from, &mut reached)?;
    }
    Ok(reached)
}
