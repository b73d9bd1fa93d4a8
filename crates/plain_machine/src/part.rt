ghost use Rattle.std.specs.Prelude.{◌≡◌, [], IfOk};
ghost use Rattle.heap_graph.specs.Fork.{child_of};
ghost use Rattle.heap_world.specs.Part.{first_part};
ghost use Rattle.heap_world.specs.Sound.{IsSound};

use heap_world::{Card, PageName, parts_are_sound};
use plain_graph::Graph;
use std::alloc::{AllocError, Global};
use std::marker::Model;

/// What a process is, but for its name and its labels.
#[derive(Drop)]
pub(crate) struct Part {
    pub(crate) alloc: Global,
    pub(crate) graph: Graph,
    pub(crate) exited: bool,
    /// The shared pages that its own stores touched since its last fork, or the seal.
    pub(crate) touched: Vec<PageName>,
    /// The cards that a reference was stored in since its last collection, fork or seal.
    pub(crate) stored: Vec<Card>,
    /// The cards that held an object that isn't immune when its last collection since its last fork began.
    pub(crate) held: Vec<Card>,
}

impl Model for Part {
    ghost use Rattle.heap_world.specs.Part as parts;

    ghost Value = { parts.Part };

    ghost view = { λ p. record { graph = p.graph; exited = p.exited; touched = p.touched.items; stored = p.stored.items; held = p.held.items } };
}

impl Part {
    pub(crate) fn first(alloc: Global, regions: u32, number: u32) -> Result<Part, AllocError>
        ensures { IfOk result (λ p. p ≡ first_part regions number) }
    {
        Ok(Part {
            alloc,
            graph: Graph::first(alloc, regions, number)?,
            exited: false,
            touched: Vec::new(alloc),
            stored: Vec::new(alloc),
            held: Vec::new(alloc),
        })
    }

    /// The same part with another graph.
    pub(crate) fn with_graph(&self, graph: Graph) -> Result<Part, AllocError>
        ensures { IfOk result (λ p. p ≡ record self.now { graph = graph }) }
    {
        Ok(Part {
            alloc: self.alloc,
            graph,
            exited: self.exited,
            touched: self.touched.clone()?,
            stored: self.stored.clone()?,
            held: self.held.clone()?,
        })
    }

    /// The part of a fork's child: it was never dumped.
    pub(crate) fn child(&self) -> Result<Part, AllocError>
        requires sound { IsSound self.now }
        ensures child { IfOk result (λ p. p ≡ record self.now { graph = child_of self.now.graph }) }
        ensures sound { IfOk result (λ p. IsSound p) }
    {
        parts_are_sound();
        let graph = self.graph.never_dumped()?;
        let child = self.with_graph(graph)?;
        Ok(child)
    }
}
