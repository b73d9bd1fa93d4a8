//! The numbers of identifiers.
ghost use Rattle.std.specs.Prelude.{◌≡◌, IfOk};

use crate::guesses::Guesses;
use std::alloc::{AllocError, Global};
use std::collections::BTreeMap;
use std::marker::Model;

/// Different identifiers, each with its number: its place in the order in which they were added. No choice of them makes
/// a look-up slow. Those that were greater than all before them stand in order, with their numbers; a map has the others.
#[derive(Drop)]
pub(crate) struct Numbers {
    ids: Vec<u32>,
    limit: u64,
    rising: Vec<u32>,
    places: Vec<u32>,
    others: BTreeMap<u32, usize>,
    guesses: Guesses,
}

impl Model for Numbers {
    ghost use Rattle.std.specs.Prelude.{List, ℕ};
    ghost use Rattle.dump_graph.specs.Numbering.{IsNumbering};

    ghost Value = { List ℕ };

    ghost view = { λ n. n.ids.items };

    ghost invariant = { λ n. IsNumbering n.ids.items n.limit n.rising.items n.places.items n.others };
}

/// A count as 4 bytes have it. More nodes or edges than they tell count as want of memory.
pub(crate) fn narrow(count: usize) -> Result<u32, AllocError>
    ensures { IfOk result (λ number. number ≡ count) }
{
    match u32::try_from(count) {
        Ok(number) => Ok(number),
        Err(_) => Err(AllocError),
    }
}

impl Numbers {
    ghost use Rattle.std.specs.Prelude.{◌≡◌, ◌<◌, ◌↔◌, [], ◌∷◌, ◌++◌, nat_eq, position, true, false, All, IsNone, IfOk, OnOk, OnErr};

    /// No identifiers. It takes no memory.
    pub(crate) fn new(alloc: Global) -> Numbers
        ensures { result ≡ [] }
    {
        Numbers {
            ids: Vec::new(alloc),
            limit: 0,
            rising: Vec::new(alloc),
            places: Vec::new(alloc),
            others: BTreeMap::new(alloc),
            guesses: Guesses::new(alloc),
        }
    }

    /// The number of an identifier, by a search.
    #[inline(never)]
    fn search(&self, id: u32) -> Option<usize>
        ensures { result ≡ position (nat_eq id) self.now }
    {
        match self.rising.binary_search(&id) {
            Ok(at) => Some(self.places[at] as usize),
            Err(_) => self.others.get(&id).copied(),
        }
    }

    /// The number of an identifier. `None` exactly where it was not added.
    #[inline(always)]
    pub(crate) fn number_of(&self, id: u32) -> Option<usize>
        ensures { result ≡ position (nat_eq id) self.now }
    {
        match self.guesses.guess(id) {
            Some(number) if number < self.ids.len() && self.ids[number] == id => Some(number),
            _ => self.search(id),
        }
    }

    /// Adds an identifier, and tells whether it is new. It gets the next number then, and else nothing changes. After an
    /// error nothing has changed.
    pub(crate) fn add(&mut self, id: u32) -> Result<bool, AllocError>
        ensures new { IfOk result (λ is_new. (is_new ≡ true) ↔ IsNone (position (nat_eq id) self.old)) }
        ensures added { IfOk result (λ is_new. is_new ≡ true → self.new ≡ self.old ++ id ∷ []) }
        ensures known { IfOk result (λ is_new. is_new ≡ false → self.new ≡ self.old) }
        ensures unchanged { OnErr result (self.new ≡ self.old) }
    {
        if id as u64 >= self.limit {
            self.add_rising(id)?;
            return Ok(true);
        }
        if self.number_of(id).is_some() {
            return Ok(false);
        }
        let number = self.ids.len();
        self.ids.push(id)?;
        match self.others.insert(id, number) {
            Ok(_) => Ok(true),
            Err(failed) => {
                let _ = self.ids.pop();
                Err(AllocError::from(failed))
            }
        }
    }

    /// Makes the look-ups fast that follow.
    pub(crate) fn settle(&mut self, alloc: Global) -> Result<(), AllocError>
        ensures { self.new ≡ self.old }
    {
        self.guesses = Guesses::of(alloc, &self.ids)?;
        Ok(())
    }

    /// Adds an identifier that is greater than all others.
    fn add_rising(&mut self, id: u32) -> Result<(), AllocError>
        requires { All (λ other. other < id) self.old }
        ensures added { OnOk result (self.new ≡ self.old ++ id ∷ []) }
        ensures unchanged { OnErr result (self.new ≡ self.old) }
    {
        let number = narrow(self.ids.len())?;
        self.places.truncate(self.rising.len());
        self.places.push(number)?;
        self.ids.push(id)?;
        match self.rising.push(id) {
            Ok(()) => {
                self.limit = id as u64 + 1;
                Ok(())
            }
            Err(failed) => {
                let _ = self.ids.pop();
                Err(AllocError::from(failed))
            }
        }
    }
}
