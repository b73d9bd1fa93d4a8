//! The graph: nodes, roots and edges.
ghost use Rattle.std.specs.Prelude.{◌≡◌, ℕ, ◌<◌, ◌||◌, [], ◌∷◌, ◌++◌, false, map, length, get_or, nat_eq, position, option_to_list, IfOk, OnOk, zip};
ghost use Rattle.std.specs.List.{list_any};
ghost use Rattle.dump_graph.specs.Firsts.{IsApart};
ghost use Rattle.dump_graph.specs.Graph.{id_of, stands_for_node, nodes, node_ids, roots_it};
ghost use Rattle.dump_graph.specs.Kept.{AreKept, kept_graph};
ghost use Rattle.dump_graph.specs.Tables.{made_node, numbers_of, root_id};

use crate::classes::Classes;
use crate::node::KeptNode;
use crate::numbers::{Numbers, narrow};
use crate::parts::parts_of;
use crate::references::find_references;
use hprof_read::Dump;
use hprof_records::SubRecord;
use std::alloc::{AllocError, Global};
use std::marker::Model;

/// The tag of an object that was found to be unreachable: it is no root.
const UNREACHABLE: u8 = 0x90;

/// The identifier of a part that stands for a node, a class or an object, or that of a root.
fn id_of(part: &SubRecord) -> u32
    ensures { result ≡ id_of part.now }
{
    match part {
        SubRecord::Root { id, .. }
        | SubRecord::ClassDump { id, .. }
        | SubRecord::Instance { id, .. }
        | SubRecord::ObjectArray { id, .. }
        | SubRecord::PrimitiveArray { id, .. }
        | SubRecord::NoData { id, .. } => *id,
        SubRecord::HeapInfo { .. } => 0,
    }
}

/// Whether a part stands for a node.
fn stands_for_node(part: &SubRecord) -> bool
    ensures { result ≡ stands_for_node part.now }
{
    match part {
        SubRecord::Root { .. } | SubRecord::HeapInfo { .. } => false,
        _ => true,
    }
}

/// The identifier that a part tells to be a root.
fn root_id(part: &SubRecord) -> Option<u32>
    ensures { result ≡ root_id part.now }
{
    match part {
        SubRecord::Root { tag, id, .. } if *tag != UNREACHABLE => Some(*id),
        _ => None,
    }
}

/// Numbers the nodes, in the order of the parts. Gives the numbers of their identifiers, and the first part of each.
fn number_nodes<'a>(
    alloc: Global,
    parts: &[&'a SubRecord],
) -> Result<(Numbers, Vec<&'a SubRecord>), AllocError>
    ensures firsts { IfOk result (λ r. map (λ p. p.now) r.1.items ≡ nodes (map (λ p. p.now) parts.now)) }
    ensures numbers { IfOk result (λ r. r.0 ≡ node_ids (map (λ p. p.now) parts.now)) }
    ensures apart { IfOk result (λ r. IsApart r.0) }
{
    let mut numbers = Numbers::new(alloc);
    let mut firsts = Vec::new(alloc);
    for part in parts {
        if stands_for_node(part) {
            if numbers.add(id_of(part))? {
                firsts.push(*part)?;
            }
        }
    }
    numbers.settle(alloc)?;
    Ok((numbers, firsts))
}

/// Marks the root that a part tells.
fn mark_root(part: &SubRecord, numbers: &Numbers, roots: &mut [bool])
    requires { length roots.old ≡ length numbers.now }
    ensures length { length roots.new ≡ length roots.old }
    ensures marked { (k : ℕ) → IsApart numbers.now → k < length numbers.now → get_or roots.new k false ≡ (get_or roots.old k false || roots_it (get_or numbers.now k 0) part.now) }
{
    if let Some(id) = root_id(part) {
        if let Some(number) = numbers.number_of(id) {
            roots[number] = true;
        }
    }
}

/// Which nodes are roots, by their numbers.
fn mark_roots(
    alloc: Global,
    parts: &[&SubRecord],
    numbers: &Numbers,
    count: usize,
) -> Result<Vec<bool>, AllocError>
    requires { count ≡ length numbers.now }
    ensures length { IfOk result (λ r. length r.items ≡ count) }
    ensures roots { IfOk result (λ r. (k : ℕ) → IsApart numbers.now → k < count → get_or r.items k false ≡ list_any (roots_it (get_or numbers.now k 0)) (map (λ p. p.now) parts.now)) }
{
    let mut roots = vec![in alloc; false; count]?;
    for part in parts {
        mark_root(part, numbers, &mut roots);
    }
    Ok(roots)
}

/// Puts the number of an identifier behind others, if a node has it.
fn add_number(numbers: &Numbers, id: u32, found: &mut Vec<u32>) -> Result<(), AllocError>
    ensures { OnOk result (found.new.items ≡ found.old.items ++ option_to_list (position (nat_eq id) numbers.now)) }
{
    if let Some(number) = numbers.number_of(id) {
        found.push(narrow(number)?)?;
    }
    Ok(())
}

/// Puts the numbers of the nodes among identifiers behind others.
fn add_numbers(numbers: &Numbers, ids: &[u32], found: &mut Vec<u32>) -> Result<(), AllocError>
    ensures { OnOk result (found.new.items ≡ found.old.items ++ numbers_of numbers.now ids.now) }
{
    for id in ids {
        add_number(numbers, *id, found)?;
    }
    Ok(())
}

/// Puts a node behind others, with the numbers of the nodes among the identifiers to which it refers.
fn add_node(
    numbers: &Numbers,
    id: u32,
    is_root: bool,
    refers: &[u32],
    nodes: &mut Vec<KeptNode>,
    targets: &mut Vec<u32>,
) -> Result<(), AllocError>
    requires { AreKept nodes.old.items targets.old.items }
    ensures kept { OnOk result (AreKept nodes.new.items targets.new.items) }
    ensures graph { OnOk result (kept_graph targets.new.items nodes.new.items ≡ kept_graph targets.old.items nodes.old.items ++ record { id = id; is_root = is_root; targets = numbers_of numbers.now refers.now } ∷ []) }
{
    let from = narrow(targets.len())?;
    add_numbers(numbers, refers, targets)?;
    let to = narrow(targets.len())?;
    nodes.push(KeptNode {
        id,
        is_root,
        from,
        to,
    })?;
    Ok(())
}

/// The graph of the nodes with these first parts.
fn graph_of(
    alloc: Global,
    classes: &Classes,
    numbers: &Numbers,
    roots: &[bool],
    firsts: &[&SubRecord],
) -> Result<DumpGraph, AllocError>
    requires { length roots.now ≡ length firsts.now }
    ensures { IfOk result (λ g. g ≡ map (λ x. made_node classes.now numbers.now x.0 x.1) (zip roots.now (map (λ p. p.now) firsts.now))) }
{
    let mut nodes = Vec::with_capacity(alloc, firsts.len())?;
    let mut targets = Vec::new(alloc);
    let mut refers = Vec::new(alloc);
    for i in 0..firsts.len() {
        let first = firsts[i];
        find_references(classes, first, &mut refers)?;
        add_node(
            numbers,
            id_of(first),
            roots[i],
            &refers,
            &mut nodes,
            &mut targets,
        )?;
    }
    Ok(DumpGraph { nodes, targets })
}

/// The first place of a node with an identifier.
fn place_of(nodes: &[KeptNode], id: u32) -> Option<usize>
    ensures { result ≡ position (λ x. nat_eq x.id id) nodes.now }
{
    nodes.iter().position(|node| node.id == id)
}

/// The graph of a dump: its nodes in order, and the targets of their edges.
#[derive(Drop)]
pub struct DumpGraph {
    nodes: Vec<KeptNode>,
    targets: Vec<u32>,
}

impl Model for DumpGraph {
    ghost use Rattle.std.specs.Prelude.{List};
    ghost use Rattle.dump_graph.specs.Graph.{Node};
    ghost use Rattle.dump_graph.specs.Kept.{kept_graph, AreKept};

    ghost Value = { List Node };

    ghost view = { λ g. kept_graph g.targets.items g.nodes.items };

    ghost invariant = { λ g. AreKept g.nodes.items g.targets.items };
}

impl DumpGraph {
    ghost use Rattle.std.specs.Prelude.{◌≡◌, ◌<◌, [], false, map, get_or, length, IfOk};
    ghost use Rattle.dump_graph.specs.Graph.{graph, parts, number_of, LeadsWithin};

    /// The graph of a dump. It takes time for each part of the dump once, and for each round of doubled steps up from the
    /// classes.
    pub fn of(alloc: Global, dump: &Dump) -> Result<DumpGraph, AllocError>
        ensures graph { IfOk result (λ g. g ≡ graph (parts dump.now.top)) }
        ensures within { IfOk result LeadsWithin }
    {
        let parts = parts_of(alloc, dump.top.as_slice())?;
        let classes = Classes::of(alloc, &parts)?;
        let (numbers, firsts) = number_nodes(alloc, &parts)?;
        let roots = mark_roots(alloc, &parts, &numbers, firsts.len())?;
        drop(parts);
        let graph = graph_of(alloc, &classes, &numbers, &roots, &firsts)?;
        Ok(graph)
    }

    /// How many nodes there are. A node's number is its place in their order.
    pub fn len(&self) -> usize
        ensures { result ≡ length self.now }
    {
        self.nodes.len()
    }

    /// A node's identifier.
    pub fn id(&self, number: usize) -> u32
        requires { number < length self.now }
        ensures { result ≡ get_or (map (λ x. x.id) self.now) number 0 }
    {
        self.nodes[number].id
    }

    /// Whether a node is a root.
    pub fn is_root(&self, number: usize) -> bool
        requires { number < length self.now }
        ensures { result ≡ get_or (map (λ x. x.is_root) self.now) number false }
    {
        self.nodes[number].is_root
    }

    /// The numbers of the nodes to which a node has an edge, in the order of its references. One may stand there more
    /// than once.
    pub fn targets(&self, number: usize) -> &[u32]
        requires { number < length self.now }
        ensures { result.now ≡ get_or (map (λ x. x.targets) self.now) number [] }
    {
        let node = self.nodes[number];
        &self.targets[node.from as usize..node.to as usize]
    }

    /// The number of the node with an identifier. `None` exactly where no node has it.
    pub fn number_of(&self, id: u32) -> Option<usize>
        ensures { result ≡ number_of self.now id }
    {
        place_of(&self.nodes, id)
    }
}
