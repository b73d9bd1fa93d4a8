//! The places of the roots, with holes where roots were removed, and an index from names to places.
ghost use Rattle.std.specs.Prelude.{◌≡◌, ◌+◌, ◌∷◌, ◌++◌, ◌<◌, ◌≤◌, [], ℕ, List, true, false, None, Some, length, take, drop, nat_eq, IfOk, IsOk, OnOk, OnErr, is_some, cond, slice_get, slice_set, vec_len, vec_capacity};
ghost use Rattle.std.specs.List.{filter};
ghost use Rattle.indexmap.specs.IndexMap.{get, spare, index_map_len};
ghost use Rattle.class_layout.specs.Names.{same_name};
ghost use Rattle.root_list.specs.Roots.{held_at, is_root, with_root, without_root};
ghost use Rattle.root_list.specs.Places.{roots_of, kept_of, place_of, roots_in, seen, AreApart, HasRoom, IsTable};

use crate::root::RootAt;
use class_layout::Name;
use indexmap::IndexMap;
use page_tables::Addr;
use std::alloc::{AllocError, Global};

#[derive(Drop)]
pub struct Table {
    /// The place of each name.
    pub index: IndexMap<Name, usize>,
    /// By place its name, or `None` for a hole.
    pub names: Vec<Option<Name>>,
    /// By place what its root holds.
    pub addresses: Vec<Addr>,
    /// Whether room was made for a root more.
    pub ready: bool,
}

impl Table {
    pub fn new(alloc: Global) -> Table
        ensures roots { roots_in result ≡ [] }
        ensures table { IsTable result }
    {
        Table {
            index: IndexMap::new(alloc),
            names: Vec::new(alloc),
            addresses: Vec::new(alloc),
            ready: false,
        }
    }

    /// The place of a name.
    pub fn place(&self, name: &Name) -> Option<usize>
        requires { IsTable self.now }
        ensures place { result ≡ place_of self.now.names.items name.now }
        ensures root { is_root (roots_in self.now) name.now ≡ is_some result }
    {
        self.index.get(name).copied()
    }

    /// What the root of a name holds.
    pub fn find(&self, name: &Name) -> Option<Addr>
        requires { IsTable self.now }
        ensures { result ≡ held_at (roots_in self.now) name.now }
    {
        match self.place(name) {
            Some(place) => Some(self.addresses[place]),
            None => None,
        }
    }

    /// An equal table.
    pub fn copied(&self) -> Result<Table, AllocError>
        requires { IsTable self.now }
        ensures roots { IfOk result (λ copy. roots_in copy ≡ roots_in self.now) }
        ensures table { IfOk result (λ copy. IsTable copy) }
    {
        let alloc = *self.names.allocator();
        let mut names = Vec::new(alloc);
        names.extend_from_slice(&self.names)?;
        let mut addresses = Vec::new(alloc);
        addresses.extend_from_slice(&self.addresses)?;
        let index = self.index.clone()?;
        Ok(Table {
            index,
            names,
            addresses,
            ready: false,
        })
    }

    /// Makes room for a root more.
    pub fn reserve(&mut self) -> Result<(), AllocError>
        requires { IsTable self.old }
        ensures same { roots_in self.new ≡ roots_in self.old }
        ensures table { IsTable self.new }
        ensures ready { OnOk result (self.new.ready ≡ true) }
        ensures names { self.new.names.items ≡ self.old.names.items }
        ensures err { OnErr result (self.new.ready ≡ self.old.ready) }
    {
        self.index.reserve(1)?;
        self.names.reserve(1)?;
        self.addresses.reserve(1)?;
        self.ready = true;
        Ok(())
    }

    /// Writes a root of a new name, for which room was made, behind the others.
    pub fn push(&mut self, name: Name, holds: Addr)
        requires table { IsTable self.old }
        requires ready { self.old.ready ≡ true }
        requires fresh { place_of self.old.names.items name ≡ None }
        ensures roots { roots_in self.new ≡ with_root (roots_in self.old) name holds }
        ensures table { IsTable self.new }
    {
        insert_new(&mut self.index, name, self.names.len());
        self.names.push_reserved(Some(name));
        self.addresses.push_reserved(holds);
        self.ready = false;
    }

    /// Writes a root in its place.
    pub fn put(&mut self, name: &Name, place: usize, holds: Addr)
        requires table { IsTable self.old }
        requires there { place_of self.old.names.items name.now ≡ Some place }
        ensures roots { roots_in self.new ≡ with_root (roots_in self.old) name.now holds }
        ensures ready { self.new.ready ≡ self.old.ready }
        ensures table { IsTable self.new }
    {
        self.addresses[place] = holds;
    }

    /// Leaves a hole where a root was.
    pub fn empty(&mut self, name: &Name) -> bool
        requires { IsTable self.old }
        ensures told { result ≡ is_root (roots_in self.old) name.now }
        ensures roots { roots_in self.new ≡ without_root (roots_in self.old) name.now }
        ensures ready { self.new.ready ≡ self.old.ready }
        ensures table { IsTable self.new }
    {
        let Some(place) = self.index.swap_remove(name) else {
            return false;
        };
        self.names[place] = None;
        true
    }

    /// Whether no place is a hole.
    pub fn is_packed(&self) -> bool
        requires { IsTable self.now }
        ensures { result ≡ nat_eq (length (roots_in self.now)) (length self.now.names.items) }
    {
        self.index.len() == self.names.len()
    }

    /// Moves the roots together where there are holes.
    pub fn settle(&mut self)
        requires { IsTable self.old }
        ensures roots { roots_in self.new ≡ roots_in self.old }
        ensures full { length self.new.names.items ≡ length (roots_in self.old) }
        ensures ready { self.new.ready ≡ self.old.ready }
        ensures table { IsTable self.new }
    {
        if self.is_packed() {
            return;
        }
        pack(&self.names, &mut self.addresses);
        keep_names(&mut self.names);
        renumber(&mut self.index, &self.names);
    }
}

// Gives a new name its place. There is room for it.
fn insert_new(index: &mut IndexMap<Name, usize>, name: Name, place: usize)
    requires room { 1 ≤ spare index.old }
    requires fresh { get same_name index.old name ≡ None }
    ensures found { (q : List ℕ) → get same_name index.new q ≡ cond (same_name name q) (Some place) (get same_name index.old q) }
    ensures count { index_map_len index.new ≡ index_map_len index.old + 1 }
    ensures room { spare index.old ≤ spare index.new + 1 }
{
    index.insert(name, place).unwrap();
}

// Keeps the addresses of the roots.
fn pack(names: &[Option<Name>], addresses: &mut Vec<Addr>)
    requires { length names.now ≡ length addresses.old.items }
    ensures kept { addresses.new.items ≡ kept_of names.now addresses.old.items }
    ensures capacity { vec_capacity addresses.new ≡ vec_capacity addresses.old }
{
    let mut kept = 0;
    for k in 0..names.len() {
        if names[k].is_some() {
            addresses[kept] = addresses[k];
            kept += 1;
        }
    }
    addresses.truncate(kept);
}

// Removes the holes.
fn keep_names(names: &mut Vec<Option<Name>>)
    ensures items { names.new.items ≡ filter is_some names.old.items }
    ensures capacity { vec_capacity names.new ≡ vec_capacity names.old }
{
    names.retain(|name| name.is_some());
}

// Gives each name its place. There was an entry for each.
fn renumber(index: &mut IndexMap<Name, usize>, names: &[Option<Name>])
    requires apart { AreApart names.now }
    requires full { filter is_some names.now ≡ names.now }
    requires room { length names.now ≤ index_map_len index.old + spare index.old }
    ensures found { (name : List ℕ) → get same_name index.new name ≡ place_of names.now name }
    ensures count { index_map_len index.new ≡ length names.now }
    ensures room { index_map_len index.old + spare index.old ≤ index_map_len index.new + spare index.new }
{
    index.clear();
    for k in 0..names.len() {
        if let Some(name) = &names[k] {
            insert_new(index, *name, k);
        }
    }
}

// The root of an index among those from a place on, counted without the holes.
pub(crate) fn nth(names: &[Option<Name>], addresses: &[Addr], from: usize, k: usize) -> RootAt
    requires long { length names.now ≡ length addresses.now }
    requires within { k < length (roots_of (drop from names.now) (drop from addresses.now)) }
    ensures { slice_get (roots_of (drop from names.now) (drop from addresses.now)) k ≡ Some result }
{
    let mut left = k;
    let mut place = from;
    loop {
        if let Some(name) = &names[place] {
            if left == 0 {
                return RootAt {
                    name: *name,
                    holds: addresses[place],
                };
            }
            left -= 1;
        }
        place += 1;
    }
}
