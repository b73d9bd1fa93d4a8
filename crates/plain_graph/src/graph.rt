ghost use Rattle.std.specs.Prelude.{◌≡◌, ◌≤◌, ◌⊎◌, true, List, length, Ok, Err, IfOk, IfErr};
ghost use Rattle.std.specs.Option.{option_copied};
ghost use Rattle.model_numbers.specs.Numbers.{field_limit};
ghost use Rattle.class_layout.specs.ClassList.{Class, define_class};
ghost use Rattle.heap_graph.specs.Fork.{child_of};
ghost use Rattle.heap_graph.specs.Graph.{first_graph, object_at};
ghost use Rattle.heap_world.specs.Acts.{dump_counted, stored_in, with_slot};

use crate::Object;
use class_layout::{Classes, DefineError, FieldDecl, Name};
use heap_graph::{Root, Stored};
use std::alloc::{AllocError, Global};
use std::marker::Model;

/// The graph of a process.
#[derive(Drop)]
pub struct Graph {
    pub(crate) alloc: Global,
    pub(crate) classes: Classes,
    pub(crate) next: u32,
    pub(crate) budget: u32,
    pub(crate) sealed: bool,
    pub(crate) dumps: u32,
    pub(crate) roots: Vec<Root>,
    pub(crate) objects: Vec<Object>,
}

impl Model for Graph {
    ghost use Rattle.heap_graph.specs.Graph as graphs;

    ghost Value = { graphs.Graph };

    ghost view = { λ g. record { classes = g.classes; next = g.next; budget = g.budget; sealed = g.sealed; dumps = g.dumps; roots = g.roots.items; objects = g.objects.items } };
}

impl Graph {
    /// A graph without objects and roots, with the two classes that are built in, a budget of regions, and the number
    /// of its first object.
    pub fn first(alloc: Global, regions: u32, number: u32) -> Result<Graph, AllocError>
        ensures { IfOk result (λ g. g ≡ first_graph regions number) }
    {
        Ok(Graph {
            alloc,
            classes: Classes::new(alloc)?,
            next: number,
            budget: regions,
            sealed: false,
            dumps: 0,
            roots: Vec::new(alloc),
            objects: Vec::new(alloc),
        })
    }

    /// The classes.
    pub fn classes(&self) -> &Classes
        ensures { result.now ≡ self.now.classes }
    {
        &self.classes
    }

    /// The allocation number of the next object.
    pub fn next(&self) -> u32
        ensures { result ≡ self.now.next }
    {
        self.next
    }

    /// How many regions the process may use.
    pub fn budget(&self) -> u32
        ensures { result ≡ self.now.budget }
    {
        self.budget
    }

    /// Whether the image is sealed.
    pub fn is_sealed(&self) -> bool
        ensures { result ≡ self.now.sealed }
    {
        self.sealed
    }

    /// The roots, in the order in which they were first written.
    pub fn roots(&self) -> &[Root]
        ensures { result.now ≡ self.now.roots }
    {
        &self.roots
    }

    /// The objects, by rising number.
    pub fn objects(&self) -> &[Object]
        ensures { result.now ≡ self.now.objects }
    {
        &self.objects
    }

    /// The object of a number, or `None` where no object has it.
    pub fn object_at(&self, number: u32) -> Option<&Object>
        ensures { option_copied result ≡ object_at self.now number }
    {
        self.objects.iter().find(|o| o.number == number)
    }

    /// The same graph again.
    pub fn copied(&self) -> Result<Graph, AllocError>
        ensures { IfOk result (λ g. g ≡ self.now) }
    {
        self.with_objects(copied_objects(self.alloc, &self.objects)?)
    }

    /// The graph with a slot of the object of a number stored to.
    pub fn with_slot(&self, number: u32, new: &Stored) -> Result<Graph, AllocError>
        ensures { IfOk result (λ g. g ≡ with_slot self.now number new.now) }
    {
        let mut objects = Vec::with_capacity(self.alloc, self.objects.len())?;
        for o in &self.objects {
            objects.push(o.stored_in(number, new)?)?;
        }
        self.with_objects(objects)
    }

    /// The graph with its image sealed.
    pub fn with_seal(&self) -> Result<Graph, AllocError>
        ensures { IfOk result (λ g. g ≡ record self.now { sealed = true }) }
    {
        let mut graph = self.copied()?;
        graph.sealed = true;
        Ok(graph)
    }

    /// The graph with one more class, at the end of the list, below the class of the name `parent`.
    ///
    /// It gives `OutOfMemory`, or the first refusal that fits, in the order `Taken`, `NoSuper`, `Limit`, `FieldTaken`.
    pub fn with_class(
        &self,
        name: Name,
        parent: &Name,
        fields: &[FieldDecl],
    ) -> Result<Graph, DefineError>
        requires { length fields.now ≤ field_limit }
        ensures made { IfOk result (λ g. (cs : List Class) × (define_class self.now.classes name parent.now fields.now ≡ Ok cs) × (g ≡ record self.now { classes = cs })) }
        ensures refused { IfErr result (λ e. (e ≡ DefineError.OutOfMemory) ⊎ (define_class self.now.classes name parent.now fields.now ≡ Err e)) }
        ensures err { IfErr (define_class self.now.classes name parent.now fields.now) (λ e. (result ≡ Err DefineError.OutOfMemory) ⊎ (result ≡ Err e)) }
    {
        let mut graph = self.copied()?;
        graph.classes.define(name, parent, fields)?;
        Ok(graph)
    }

    /// How often the process was dumped.
    pub fn dumps(&self) -> u32
        ensures { result ≡ self.now.dumps }
    {
        self.dumps
    }

    /// The graph with one more dump counted. The count stands still at the last value of 32 bits.
    pub fn dumped(&self) -> Result<Graph, AllocError>
        ensures { IfOk result (λ g. g ≡ dump_counted self.now) }
    {
        let mut graph = self.copied()?;
        graph.dumps = graph.dumps.saturating_add(1);
        Ok(graph)
    }

    /// The graph of a child that the process forks: it was never dumped.
    pub fn never_dumped(&self) -> Result<Graph, AllocError>
        ensures { IfOk result (λ g. g ≡ child_of self.now) }
    {
        let mut graph = self.copied()?;
        graph.dumps = 0;
        Ok(graph)
    }

    /// The graph with other objects.
    pub(crate) fn with_objects(&self, objects: Vec<Object>) -> Result<Graph, AllocError>
        ensures { IfOk result (λ g. g ≡ record self.now { objects = objects.items }) }
    {
        Ok(Graph {
            alloc: self.alloc,
            classes: self.classes.copied()?,
            next: self.next,
            budget: self.budget,
            sealed: self.sealed,
            dumps: self.dumps,
            roots: self.roots.clone()?,
            objects,
        })
    }
}

/// The same objects again.
pub(crate) fn copied_objects(alloc: Global, objects: &[Object]) -> Result<Vec<Object>, AllocError>
    ensures { IfOk result (λ os. os.items ≡ objects.now) }
{
    let mut copies = Vec::with_capacity(alloc, objects.len())?;
    for o in objects {
        copies.push(o.copied()?)?;
    }
    Ok(copies)
}
