ghost use Rattle.std.specs.Prelude.{◌≡◌, IfOk};
ghost use Rattle.heap_world.specs.Effect.{becomes, refuses, tells};
ghost use Rattle.plain_machine.specs.Outcomes.{IsOutcome};

use crate::part::Part;
use heap_world::{PageName, Refusal, Reply};
use plain_graph::Graph;
use std::alloc::AllocError;

/// What a command does to a process.
#[derive(Drop)]
pub(crate) struct Outcome {
    /// The part after it, where it changes.
    pub(crate) next: Option<Part>,
    pub(crate) reply: Reply,
    /// The shared pages that it makes.
    pub(crate) made: Vec<PageName>,
    /// The shared pages that it touches first.
    pub(crate) first: Vec<PageName>,
}

impl Part {
    /// Nothing but a reply.
    pub(crate) fn tells(&self, reply: Reply) -> Outcome
        ensures { IsOutcome self.now result (tells self.now reply) }
    {
        Outcome {
            next: None,
            reply,
            made: Vec::new(self.alloc),
            first: Vec::new(self.alloc),
        }
    }

    pub(crate) fn refuses(&self, why: Refusal) -> Outcome
        ensures { IsOutcome self.now result (refuses self.now why) }
    {
        self.tells(Reply::Refused(why))
    }

    /// A new graph, and a reply.
    pub(crate) fn becomes(&self, graph: Graph, reply: Reply) -> Result<Outcome, AllocError>
        ensures { IfOk result (λ o. IsOutcome self.now o (becomes self.now graph reply)) }
    {
        Ok(Outcome {
            next: Some(self.with_graph(graph)?),
            reply,
            made: Vec::new(self.alloc),
            first: Vec::new(self.alloc),
        })
    }
}
