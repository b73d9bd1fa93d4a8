ghost use Rattle.std.specs.Prelude.{◌≡◌, IfOk};
ghost use Rattle.std.specs.List.{position};
ghost use Rattle.std.specs.Option.{option_copied};
ghost use Rattle.class_layout.specs.Names.{same_name};
ghost use Rattle.heap_graph.specs.Graph.{drop_root, root_at, write_root};
ghost use Rattle.heap_world.specs.Slots.{held_by_root};

use crate::Graph;
use crate::graph::copied_objects;
use class_layout::Name;
use heap_graph::{Held, Root};
use heap_world::Refusal;
use std::alloc::{AllocError, Global};

impl Graph {
    /// What a root holds. `NoRoot` where no root has the name.
    pub fn held_by_root(&self, name: &Name) -> Result<Held, Refusal>
        ensures { result ≡ held_by_root self.now name.now }
    {
        match root_at(&self.roots, name) {
            Some(root) => Ok(root.holds),
            None => Err(Refusal::NoRoot),
        }
    }

    /// The graph with a root that holds something else, in its old place, or last where it is new.
    pub fn with_root(&self, name: Name, holds: Held) -> Result<Graph, AllocError>
        ensures { IfOk result (λ g. g ≡ record self.now { roots = write_root self.now.roots name holds }) }
    {
        self.with_roots(written(self.alloc, &self.roots, name, holds)?)
    }

    /// The graph without the root of a name.
    pub fn without_root(&self, name: &Name) -> Result<Graph, AllocError>
        ensures { IfOk result (λ g. g ≡ record self.now { roots = drop_root self.now.roots name.now }) }
    {
        let roots = self.roots.iter().copied().filter(|r| r.name != *name);
        self.with_roots(roots.collect(self.alloc)?)
    }

    // The graph with other roots.
    fn with_roots(&self, roots: Vec<Root>) -> Result<Graph, AllocError>
        ensures { IfOk result (λ g. g ≡ record self.now { roots = roots.items }) }
    {
        Ok(Graph {
            alloc: self.alloc,
            classes: self.classes.copied()?,
            next: self.next,
            budget: self.budget,
            sealed: self.sealed,
            dumps: self.dumps,
            roots,
            objects: copied_objects(self.alloc, &self.objects)?,
        })
    }
}

// The root of a name.
fn root_at<'a>(roots: &'a [Root], name: &Name) -> Option<&'a Root>
    ensures { option_copied result ≡ root_at roots.now name.now }
{
    roots.iter().find(|r| r.name == *name)
}

// The roots, where one holds something else.
#[tactic(auto, using(crate::proofs::RootLists::writes))]
fn written(alloc: Global, roots: &[Root], name: Name, holds: Held) -> Result<Vec<Root>, AllocError>
    ensures { IfOk result (λ v. v.items ≡ write_root roots.now name holds) }
{
    let mut copies = Vec::from_slice(alloc, roots)?;
    match index_of(roots, &name) {
        Some(i) => copies[i].holds = holds,
        None => copies.push(Root { name, holds })?,
    }
    Ok(copies)
}

// Which of the roots has the name.
fn index_of(roots: &[Root], name: &Name) -> Option<usize>
    ensures { result ≡ position (λ r. same_name r.name name.now) roots.now }
{
    roots.iter().position(|r| r.name == *name)
}
