//! The answer: a path, or that there is none.
ghost use Rattle.std.specs.Prelude.{◌<◌, ◌≤◌, length, MatchResult};
ghost use Rattle.ah_outside.specs.Outside.{Gained};
ghost use Rattle.dump_graph.specs.Graph.{LeadsWithin, graph, parts};
ghost use Rattle.root_paths.specs.Answer.{answer, node_answer};
ghost use Rattle.root_paths.specs.Paths.{dist};
ghost use Rattle.root_paths.specs.Putting.{Stopped};

use crate::PathError;
use crate::levels::reach_all;
use crate::put::{put_no_node, put_no_path, put_path};
use crate::way::way_to;
use ah_outside::Sink;
use dump_graph::DumpGraph;
use hprof_read::Dump;
use std::alloc::Global;

/// Tells of a node.
fn tell_node<W: Sink>(
    alloc: Global,
    graph: &DumpGraph,
    number: usize,
    sink: &mut W,
) -> Result<(), PathError>
    requires within { LeadsWithin graph.now }
    requires node { number < length graph.now }
    ensures told { let text = node_answer graph.now number (dist graph.now number) in MatchResult result
        (λ _. Gained (W.gained sink.old) text (W.gained sink.new))
        (λ e. Stopped e (W.gained sink.old) (W.fault_count sink.old) text (W.gained sink.new) (W.fault_count sink.new)) }
    ensures never_falls { W.fault_count sink.old ≤ W.fault_count sink.new }
{
    let reached = reach_all(alloc, graph)?;
    match reached[number] {
        None => {
            put_no_path(sink, graph, &reached)?;
        }
        Some(reach) => {
            let way = way_to(alloc, &reached, reach.level, number)?;
            put_path(sink, graph, &reached, reach.level, &way)?;
        }
    }
    Ok(())
}

/// Puts what is told of an identifier: a shortest path from a root of the dump to the node that has it, and the distances
/// of the nodes that are as near or nearer; or that no path leads there, and all distances; or that no node has it. All
/// memory is taken before the first put. `SinkFault` comes only where the sink's count of faults rose.
pub fn find_path<W: Sink>(
    alloc: Global,
    dump: &Dump,
    id: u32,
    sink: &mut W,
) -> Result<(), PathError>
    ensures told { let text = answer (graph (parts dump.now.top)) id in MatchResult result
        (λ _. Gained (W.gained sink.old) text (W.gained sink.new))
        (λ e. Stopped e (W.gained sink.old) (W.fault_count sink.old) text (W.gained sink.new) (W.fault_count sink.new)) }
    ensures never_falls { W.fault_count sink.old ≤ W.fault_count sink.new }
{
    let graph = DumpGraph::of(alloc, dump)?;
    match graph.number_of(id) {
        None => {
            put_no_node(sink, id)?;
            Ok(())
        }
        Some(number) => tell_node(alloc, &graph, number, sink),
    }
}
