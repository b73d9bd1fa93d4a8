ghost use Rattle.std.specs.Prelude.{IfOk};
ghost use Rattle.heap_world.specs.Acts.{dump_if};
ghost use Rattle.heap_world.specs.Sound.{IsSound};
ghost use Rattle.plain_machine.specs.Outcomes.{IsOutcome};

use crate::outcome::Outcome;
use crate::part::Part;
use heap_world::{Refusal, Reply, sizes_are_bounded};
use std::alloc::AllocError;

impl Part {
    /// Counts a dump. What is written of it stands elsewhere.
    pub(crate) fn dump(&self) -> Result<Outcome, AllocError>
        requires sound { IsSound self.now }
        ensures { IfOk result (λ out. IsOutcome self.now out (dump_if self.now.graph.sealed self.now)) }
    {
        sizes_are_bounded();
        if !self.graph.is_sealed() {
            return Ok(self.refuses(Refusal::NotSealed));
        }
        let graph = self.graph.dumped()?;
        let reply = Reply::Dumped {
            count: graph.dumps(),
            objects: graph.objects().len() as u32,
        };
        self.becomes(graph, reply)
    }
}
