//! The lines of an answer.
ghost use Rattle.std.specs.Prelude.{[], ◌∷◌, ◌++◌, Some, None, codes, decimal};
ghost use Rattle.std.specs.List.{concat, flat_map};
ghost use Rattle.hprof_list.specs.Listing.{id_text};
ghost use Rattle.hprof_list.specs.Putting.{Puts};
ghost use Rattle.root_paths.specs.Answer.{level_line, level_lines, no_node_line, node_line};
ghost use Rattle.root_paths.specs.Levels.{AreNodes, AreReached, level_of};

use crate::levels::Reach;
use ah_outside::{Failed, Sink};
use dump_graph::DumpGraph;
use hprof_list::{id_of, put_pieces};
use itoa::Buffer;

/// The line for an identifier that no node has.
pub(crate) fn put_no_node<W: Sink>(sink: &mut W, id: u32) -> Result<(), Failed>
    ensures { Puts W.gained W.fault_count sink.old (no_node_line id) sink.new result }
{
    put_pieces(sink, &[b"no node ", &id_of(id), b"\n"])
}

/// The line of a path's length.
fn put_length<W: Sink>(sink: &mut W, length: usize) -> Result<(), Failed>
    ensures { Puts W.gained W.fault_count sink.old (concat (codes "path " ∷ decimal length ∷ codes "\n" ∷ [])) sink.new result }
{
    let mut text = Buffer::new();
    put_pieces(sink, &[b"path ", text.format(length).as_bytes(), b"\n"])
}

/// The lines of a path's nodes.
fn put_way<W: Sink>(sink: &mut W, graph: &DumpGraph, way: &[usize]) -> Result<(), Failed>
    requires { AreNodes graph.now way.now }
    ensures { Puts W.gained W.fault_count sink.old (flat_map (node_line graph.now) way.now) sink.new result }
{
    for number in way {
        put_pieces(sink, &[&id_of(graph.id(*number)), b"\n"])?;
    }
    Ok(())
}

/// The line of a node and its level.
fn put_level<W: Sink>(sink: &mut W, level: usize, id: u32) -> Result<(), Failed>
    ensures { Puts W.gained W.fault_count sink.old (concat (codes "level " ∷ decimal level ∷ codes " " ∷ id_text id ∷ codes "\n" ∷ [])) sink.new result }
{
    let mut text = Buffer::new();
    put_pieces(
        sink,
        &[
            b"level ",
            text.format(level).as_bytes(),
            b" ",
            &id_of(id),
            b"\n",
        ],
    )
}

/// The line of a node, where it is reached within the limit.
fn put_reach<W: Sink>(
    sink: &mut W,
    limit: Option<usize>,
    id: u32,
    reach: Option<Reach>,
) -> Result<(), Failed>
    ensures { Puts W.gained W.fault_count sink.old (level_line limit id (level_of reach)) sink.new result }
{
    match (reach, limit) {
        (None, _) => Ok(()),
        (Some(reach), Some(limit)) if reach.level > limit => Ok(()),
        (Some(reach), _) => put_level(sink, reach.level, id),
    }
}

/// The lines of the nodes that are reached within the limit.
fn put_levels<W: Sink>(
    sink: &mut W,
    graph: &DumpGraph,
    reached: &[Option<Reach>],
    limit: Option<usize>,
) -> Result<(), Failed>
    requires { AreReached graph.now reached.now }
    ensures { Puts W.gained W.fault_count sink.old (level_lines graph.now limit) sink.new result }
{
    for i in 0..graph.len() {
        put_reach(sink, limit, graph.id(i), reached[i])?;
    }
    Ok(())
}

/// The answer for a node with a path.
pub(crate) fn put_path<W: Sink>(
    sink: &mut W,
    graph: &DumpGraph,
    reached: &[Option<Reach>],
    length: usize,
    way: &[usize],
) -> Result<(), Failed>
    requires reached { AreReached graph.now reached.now }
    requires nodes { AreNodes graph.now way.now }
    ensures { Puts W.gained W.fault_count sink.old (concat (codes "path " ∷ decimal length ∷ codes "\n" ∷ []) ++ (flat_map (node_line graph.now) way.now ++ level_lines graph.now (Some length))) sink.new result }
{
    put_length(sink, length)?;
    put_way(sink, graph, way)?;
    put_levels(sink, graph, reached, Some(length))
}

/// The answer for a node without a path.
pub(crate) fn put_no_path<W: Sink>(
    sink: &mut W,
    graph: &DumpGraph,
    reached: &[Option<Reach>],
) -> Result<(), Failed>
    requires { AreReached graph.now reached.now }
    ensures { Puts W.gained W.fault_count sink.old (codes "no path\n" ++ level_lines graph.now None) sink.new result }
{
    put_pieces(sink, &[b"no path\n"])?;
    put_levels(sink, graph, reached, None)
}
