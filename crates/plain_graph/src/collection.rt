//! What a collection keeps, and what it clears.
ghost use Rattle.std.specs.Prelude.{◌≡◌, IfOk, filter, map};
ghost use Rattle.heap_graph.specs.Collection as collection;

use crate::reach::is_among;
use crate::{Graph, Object};
use heap_graph::{Content, Stored};
use std::alloc::{AllocError, Global};

impl Graph {
    /// The graph after a collection: the objects that are neither immune nor reached are gone, and weak slots that
    /// held one of those hold null.
    pub fn collect(&self) -> Result<Graph, AllocError>
        ensures { IfOk result (λ g. g ≡ collection.collect self.now) }
    {
        let seen = self.reached()?;
        let kept = self.kept_numbers(&seen)?;
        self.with_objects(self.cleared_all(&seen, &kept)?)
    }

    /// How many objects aren't immune.
    pub fn loose_count(&self) -> usize
        ensures { result ≡ collection.loose_count self.now }
    {
        self.objects
            .iter()
            .filter(|o| !o.is_immune(self.sealed))
            .count()
    }

    // The numbers of the objects that are kept, given those that are reached.
    fn kept_numbers(&self, seen: &[u32]) -> Result<Vec<u32>, AllocError>
        ensures { IfOk result (λ ns. ns.items ≡ map (λ o. o.number) (filter (collection.is_kept self.now.sealed seen.now) self.now.objects)) }
    {
        self.objects
            .iter()
            .filter(|o| o.is_kept(self.sealed, seen))
            .map(|o| o.number)
            .collect(self.alloc)
    }

    // The objects that are kept, cleared, given the numbers that are reached and those that are kept.
    fn cleared_all(&self, seen: &[u32], kept: &[u32]) -> Result<Vec<Object>, AllocError>
        ensures { IfOk result (λ os. os.items ≡ map (collection.cleared kept.now) (filter (collection.is_kept self.now.sealed seen.now) self.now.objects)) }
    {
        let mut objects = Vec::with_capacity(self.alloc, kept.len())?;
        for o in &self.objects {
            if o.is_kept(self.sealed, seen) {
                objects.push(o.cleared(self.alloc, kept)?)?;
            }
        }
        Ok(objects)
    }
}

impl Object {
    // Whether the object is immune or among those that are reached.
    fn is_kept(&self, sealed: bool, seen: &[u32]) -> bool
        ensures { result ≡ collection.is_kept sealed seen.now self.now }
    {
        self.is_immune(sealed) || is_among(seen, self.number)
    }

    // The object with its weak slots cleared, given the numbers that are kept.
    fn cleared(&self, alloc: Global, kept: &[u32]) -> Result<Object, AllocError>
        ensures { IfOk result (λ o. o ≡ collection.cleared kept.now self.now) }
    {
        Ok(Object {
            number: self.number,
            shape: self.shape,
            slots: cleared_slots(alloc, kept, &self.slots)?,
            place: self.place,
        })
    }
}

// The slots of an object that is kept.
fn cleared_slots(alloc: Global, kept: &[u32], slots: &[Stored]) -> Result<Vec<Stored>, AllocError>
    ensures { IfOk result (λ ss. ss.items ≡ collection.cleared_slots kept.now slots.now) }
{
    slots
        .iter()
        .map(|s| cleared_stored(kept, *s))
        .collect(alloc)
}

// A weak slot is null where its target isn't kept.
fn cleared_stored(kept: &[u32], stored: Stored) -> Stored
    ensures { result ≡ collection.cleared_stored kept.now stored }
{
    let value = match stored.value {
        Content::Object(n) if stored.at.weak && !is_among(kept, n) => Content::Null,
        value => value,
    };
    Stored {
        at: stored.at,
        value,
    }
}
