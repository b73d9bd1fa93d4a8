//! Names with the addresses of what they hold.
ghost use Rattle.std.specs.Prelude.{◌≡◌, ◌<◌, [], true, Some, length, slice_get, IfOk, IsOk, OnOk, OnErr};
ghost use Rattle.root_list.specs.Roots.{held_at, is_root, with_root, without_root, held_by_all, holding};

use crate::root::RootAt;
use crate::table::{Table, nth};
use class_layout::Name;
use page_tables::Addr;
use std::alloc::{AllocError, Global};
use std::marker::Model;

/// The roots of a process, each name once, in the order in which they were first written. A root is found, written and
/// removed in the same time however many there are; removals are paid for by the roots that were written before.
#[derive(Drop)]
pub struct Roots {
    table: Table,
}

impl Model for Roots {
    ghost use Rattle.root_list.specs.Roots.{RootList};
    ghost use Rattle.root_list.specs.Places.{seen, IsTable};

    ghost Value = { RootList };

    ghost view = { λ m. seen m.table };

    ghost invariant = { λ m. IsTable m.table };
}

impl Roots {
    ghost use Rattle.std.specs.Borrow.{sem};
    ghost use Rattle.root_list.specs.Lending.{LendsHeld};

    /// No root. It takes no memory.
    pub fn new(alloc: Global) -> Roots
        ensures { result.roots ≡ [] }
    {
        Roots {
            table: Table::new(alloc),
        }
    }

    /// How many roots there are.
    pub fn count(&self) -> usize
        ensures { result ≡ length self.now.roots }
    {
        self.table.index.len()
    }

    /// What the root of a name holds, or `None` where no root has the name. It takes no memory.
    pub fn find(&self, name: &Name) -> Option<Addr>
        ensures { result ≡ held_at self.now.roots name.now }
    {
        self.table.find(name)
    }

    /// The root of an index, counted from 0, in their order. After roots were removed it takes as long as the index is
    /// great, until the addresses are next asked for. It takes no memory.
    pub fn root_at(&self, k: usize) -> RootAt
        requires { k < length self.now.roots }
        ensures { slice_get self.now.roots k ≡ Some result }
    {
        if self.table.is_packed() {
            return nth(&self.table.names, &self.table.addresses, k, 0);
        }
        nth(&self.table.names, &self.table.addresses, 0, k)
    }

    /// Makes room for a root more. After `AllocError` nothing has changed.
    pub fn reserve(&mut self) -> Result<(), AllocError>
        ensures same { self.new.roots ≡ self.old.roots }
        ensures ready { OnOk result (self.new.ready ≡ true) }
        ensures err { OnErr result (self.new ≡ self.old) }
    {
        self.table.reserve()
    }

    /// Writes a root: in its old place, or last. It takes no memory where the root is there, or where room was made for it.
    /// After `AllocError` nothing has changed.
    pub fn write(&mut self, name: Name, holds: Addr) -> Result<(), AllocError>
        ensures written { OnOk result (self.new.roots ≡ with_root self.old.roots name holds) }
        ensures there { is_root self.old.roots name ≡ true → IsOk result × (self.new.ready ≡ self.old.ready) }
        ensures ready { self.old.ready ≡ true → IsOk result }
        ensures err { OnErr result (self.new ≡ self.old) }
    {
        if let Some(place) = self.table.place(&name) {
            self.table.put(&name, place, holds);
            return Ok(());
        }
        if !self.table.ready {
            self.table.reserve()?;
        }
        self.table.push(name, holds);
        Ok(())
    }

    /// Removes the root of a name, and tells whether it was there. It takes no memory.
    pub fn remove(&mut self, name: &Name) -> bool
        ensures told { result ≡ is_root self.old.roots name.now }
        ensures removed { self.new.roots ≡ without_root self.old.roots name.now }
        ensures ready { self.new.ready ≡ self.old.ready }
    {
        let found = self.table.empty(name);
        if self.table.index.len() < self.table.names.len() / 2 {
            self.table.settle();
        }
        found
    }

    /// The addresses that the roots hold, in their order. What is written to them the roots hold. It takes no memory.
    pub fn addresses(&mut self) -> &mut [Addr]
        ensures* written { sem 𝓛 (LendsHeld self.entry result) }
        ensures held { result.now ≡ held_by_all self.old.roots }
    {
        self.table.settle();
        self.table.addresses.as_mut_slice()
    }

    /// Equal roots, or `AllocError` where there is no memory for them.
    pub fn copied(&self) -> Result<Roots, AllocError>
        ensures { IfOk result (λ copy. copy.roots ≡ self.now.roots) }
    {
        let table = self.table.copied()?;
        Ok(Roots { table })
    }
}
