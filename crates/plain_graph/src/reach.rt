//! Which objects are reached, round by round.
ghost use Rattle.std.specs.Prelude.{◌≡◌, ◌||◌, ◌++◌, [], IfOk, OnOk, IsTrue, ◌↔◌, filter, map};
ghost use Rattle.heap_graph.specs.Reach as reach;
ghost use Rattle.heap_graph.specs.Values.{slot_of, strong_slots, targets, with_target};
ghost use Rattle.plain_graph.specs.Reaching.{roots_held};

use crate::{Graph, Object};
use heap_graph::{Content, Held, Root, Stored};
use std::alloc::{AllocError, Global};
use std::marker::Model;

// An object as reaching sees it: its number, whether it is immune, and the objects that its strong slots hold.
#[derive(Drop)]
struct Node {
    number: u32,
    immune: bool,
    targets: Vec<u32>,
}

impl Model for Node {
    ghost use Rattle.heap_graph.specs.Reach as reach;

    ghost Value = { reach.Node };

    ghost view = { λ v. record { number = v.number; immune = v.immune; targets = v.targets.items } };
}

impl Object {
    // The object as reaching sees it.
    fn node(&self, alloc: Global, sealed: bool) -> Result<Node, AllocError>
        ensures { IfOk result (λ v. v ≡ reach.node_of sealed self.now) }
    {
        Ok(Node {
            number: self.number,
            immune: self.is_immune(sealed),
            targets: strong_targets(alloc, &self.slots)?,
        })
    }
}

impl Graph {
    /// The numbers of the objects that a path of strong slots reaches from a root or from an immune object.
    pub fn reached(&self) -> Result<Vec<u32>, AllocError>
        ensures { IfOk result (λ ns. ns.items ≡ reach.reached self.now) }
    {
        let nodes = self.nodes()?;
        let starts = self.starts(&nodes)?;
        reached_from(self.alloc, &nodes, &starts)
    }

    // The objects as reaching sees them.
    fn nodes(&self) -> Result<Vec<Node>, AllocError>
        ensures { IfOk result (λ vs. vs.items ≡ reach.nodes self.now) }
    {
        let mut nodes = Vec::with_capacity(self.alloc, self.objects.len())?;
        for o in &self.objects {
            nodes.push(o.node(self.alloc, self.sealed)?)?;
        }
        Ok(nodes)
    }

    // What the roots and the immune objects hold, given the graph's nodes.
    fn starts(&self, nodes: &[Node]) -> Result<Vec<u32>, AllocError>
        requires { nodes.now ≡ reach.nodes self.now }
        ensures { IfOk result (λ ns. ns.items ≡ reach.starts self.now) }
    {
        let mut held = root_targets(self.alloc, &self.roots)?;
        for v in nodes {
            if v.immune {
                held.extend_from_slice(&v.targets)?;
            }
        }
        Ok(held)
    }
}

// The object that a slot holds, behind others.
fn push_target(numbers: &mut Vec<u32>, slot: Content) -> Result<(), AllocError>
    ensures { OnOk result (numbers.new.items ≡ numbers.old.items ++ with_target slot []) }
{
    match slot {
        Content::Object(n) => numbers.push(n)?,
        Content::Number(_) | Content::Null => {}
    }
    Ok(())
}

// A root's reference as a slot.
fn slot_of(held: Held) -> Content
    ensures { result ≡ slot_of held }
{
    match held {
        Held::Null => Content::Null,
        Held::Object(n) => Content::Object(n),
    }
}

// The objects that the strong slots hold, in order.
fn strong_targets(alloc: Global, slots: &[Stored]) -> Result<Vec<u32>, AllocError>
    ensures { IfOk result (λ ns. ns.items ≡ targets (strong_slots slots.now)) }
{
    let mut held = Vec::new(alloc);
    for s in slots {
        let is_strong = !s.at.weak;
        if is_strong {
            push_target(&mut held, s.value)?;
        }
    }
    Ok(held)
}

// The objects that roots hold, in order.
fn root_targets(alloc: Global, roots: &[Root]) -> Result<Vec<u32>, AllocError>
    ensures { IfOk result (λ ns. ns.items ≡ roots_held roots.now) }
{
    let mut held = Vec::new(alloc);
    for r in roots {
        push_target(&mut held, slot_of(r.holds))?;
    }
    Ok(held)
}

// Whether a number stands in a list.
pub(crate) fn is_among(numbers: &[u32], n: u32) -> bool
    ensures { result ≡ reach.is_among numbers.now n }
{
    numbers.iter().any(|m| n == *m)
}

// What the members of a set hold.
fn held_by(alloc: Global, nodes: &[Node], seen: &[u32]) -> Result<Vec<u32>, AllocError>
    ensures { IfOk result (λ ns. ns.items ≡ reach.held_by nodes.now seen.now) }
{
    let mut held = Vec::new(alloc);
    for v in nodes {
        if is_among(seen, v.number) {
            held.extend_from_slice(&v.targets)?;
        }
    }
    Ok(held)
}

// The objects that a start or a held number names.
fn joined(alloc: Global, nodes: &[Node], from: &[u32], held: &[u32]) -> Result<Vec<u32>, AllocError>
    ensures { IfOk result (λ ns. ns.items ≡ reach.joined from.now held.now (map (λ v. v.number) nodes.now)) }
{
    nodes
        .iter()
        .map(|v| v.number)
        .filter(|n| is_among(from, *n) || is_among(held, *n))
        .collect(alloc)
}

// The objects that a start or a member holds.
fn next_round(
    alloc: Global,
    nodes: &[Node],
    from: &[u32],
    seen: &[u32],
) -> Result<Vec<u32>, AllocError>
    ensures { IfOk result (λ ns. ns.items ≡ reach.next_round nodes.now from.now seen.now) }
{
    let held = held_by(alloc, nodes, seen)?;
    joined(alloc, nodes, from, &held)
}

// Whether two lists have the same numbers in the same order.
fn are_same(ns: &[u32], ms: &[u32]) -> bool
    ensures { IsTrue result ↔ (ns.now ≡ ms.now) }
{
    ns == ms
}

// The objects that are reached, in as many rounds as there are nodes, or up to the round that changes nothing.
fn reached_from(alloc: Global, nodes: &[Node], from: &[u32]) -> Result<Vec<u32>, AllocError>
    ensures { IfOk result (λ ns. ns.items ≡ reach.reached_from nodes.now from.now) }
{
    let mut seen = Vec::new(alloc);
    for _ in nodes {
        let next = next_round(alloc, nodes, from, &seen)?;
        if are_same(&next, &seen) {
            return Ok(seen);
        }
        seen = next;
    }
    Ok(seen)
}
