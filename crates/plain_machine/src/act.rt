//! A command of a process.
ghost use Rattle.std.specs.Prelude.{IfOk};
ghost use Rattle.heap_world.specs.Acts.{act};
ghost use Rattle.heap_world.specs.Commands.{HasFewFields};
ghost use Rattle.heap_world.specs.Sound.{IsSound};
ghost use Rattle.plain_machine.specs.Outcomes.{IsOutcome};

use crate::outcome::Outcome;
use crate::part::Part;
use heap_graph::Shape;
use heap_world::{Reply, Verb};
use std::alloc::AllocError;

impl Part {
    /// What a command does. Forks and the count of frames stand with the machine, and do nothing here.
    pub(crate) fn act(&self, verb: &Verb) -> Result<Outcome, AllocError>
        requires sound { IsSound self.now }
        requires few { HasFewFields verb.now }
        ensures { IfOk result (λ out. IsOutcome self.now out (act self.now verb.now)) }
    {
        match verb {
            Verb::Class {
                name,
                parent,
                fields,
            } => self.define(*name, parent, fields.as_slice()),
            Verb::New { root, class } => self.new_object(*root, class),
            Verb::Array { root, kind, count } => self.make_shape(
                *root,
                Shape::Array {
                    kind: *kind,
                    count: *count,
                },
            ),
            Verb::Weak { root, referent } => self.new_weak(*root, referent),
            Verb::Set { root, field, value } => self.set(root, field, value),
            Verb::Put { root, index, value } => self.put(root, *index, value),
            Verb::Get { root, field } => Ok(self.get(root, field)),
            Verb::At { root, index } => Ok(self.at(root, *index)),
            Verb::Copy { to, from } => self.copy(*to, from),
            Verb::Load { to, from, field } => self.load(*to, from, field),
            Verb::LoadAt { to, from, index } => self.load_at(*to, from, *index),
            Verb::Drop { root } => self.drop_root(root),
            Verb::Show { root } => Ok(self.show(root)),
            Verb::Seal => self.seal(),
            Verb::Gc => self.collect(),
            Verb::Fork { .. } => Ok(self.tells(Reply::Done)),
            Verb::Exit => self.exit(),
            Verb::Free => Ok(self.free()),
            Verb::Pages => self.pages(),
            Verb::Frames => Ok(self.tells(Reply::Done)),
            Verb::Dump => self.dump(),
        }
    }
}
