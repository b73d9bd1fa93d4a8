//! Identifiers in a list, and the first place of each.
use std::alloc::{AllocError, Global};
use std::collections::BTreeMap;
use std::marker::Model;

/// Identifiers in order, fewer than 4,294,967,296. A map has the first place of each, so no choice of them makes a look-up
/// slow.
#[derive(Drop)]
pub(crate) struct Places {
    ids: Vec<u64>,
    firsts: BTreeMap<u64, u32>,
}

impl Model for Places {
    ghost use Rattle.std.specs.Prelude.{List, ℕ};
    ghost use Rattle.hprof_convert.specs.Placed.{ArePlaced};

    ghost Value = { List ℕ };

    ghost view = { λ p. p.ids.items };

    ghost invariant = { λ p. ArePlaced p.ids.items p.firsts };
}

impl Places {
    ghost use Rattle.std.specs.Prelude.{◌≡◌, ◌<◌, ◌^◌, [], ◌∷◌, ◌++◌, nat_eq, position, length, OnOk, OnErr};
    ghost use Rattle.hprof_convert.specs.Names.{rename, with_name};

    /// No identifiers. It takes no memory.
    pub(crate) fn new(alloc: Global) -> Places
        ensures { result ≡ [] }
    {
        Places {
            ids: Vec::new(alloc),
            firsts: BTreeMap::new(alloc),
        }
    }

    /// The first place of an identifier. `None` exactly where it isn't there.
    pub(crate) fn place_of(&self, id: u64) -> Option<u32>
        ensures { result ≡ position (nat_eq id) self.now }
    {
        self.firsts.get(&id).copied()
    }

    /// Puts an identifier behind the others. More of them than 4 bytes count are want of memory.
    pub(crate) fn push(&mut self, id: u64) -> Result<(), AllocError>
        ensures { OnOk result (self.new ≡ self.old ++ id ∷ []) }
    {
        let place = self.ids.len();
        if place >= u32::MAX as usize {
            return Err(AllocError);
        }
        let known = self.place_of(id).is_some();
        self.ids.push(id)?;
        if known {
            return Ok(());
        }
        match self.firsts.insert(id, place as u32) {
            Ok(_) => Ok(()),
            Err(failed) => {
                let _ = self.ids.pop();
                Err(AllocError::from(failed))
            }
        }
    }

    /// Puts an identifier behind the others, unless it is 0 or one of them.
    pub(crate) fn add_name(&mut self, id: u64) -> Result<(), AllocError>
        ensures { OnOk result (self.new ≡ with_name self.old id) }
    {
        if id == 0 {
            return Ok(());
        }
        if self.place_of(id).is_some() {
            return Ok(());
        }
        self.push(id)
    }

    /// The new identifier: its number among these, from 1 on. 0 stays 0.
    pub(crate) fn rename(&self, id: u64) -> u32
        ensures { result ≡ rename self.now id }
    {
        let _ids = &self.ids;
        match self.place_of(id) {
            None => 0,
            Some(place) => place + 1,
        }
    }
}
