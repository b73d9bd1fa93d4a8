//! Commands on a process as a whole: the seal, collections, forks, its end, and what it counts.
ghost use Rattle.std.specs.Prelude.{◌≡◌, ◌<◌, ◌≤◌, ◌++◌, true, length, IfOk, OnOk};
ghost use Rattle.std.specs.List.{flat_map};
ghost use Rattle.model_numbers.specs.Numbers.{number_limit};
ghost use Rattle.heap_graph.specs.Collection.{collect, loose_count};
ghost use Rattle.heap_graph.specs.Packing.{free};
ghost use Rattle.heap_world.specs.Acts.{fork_part, fork_to, fork_pages, gc_if, gc_to, page_counts, seal_if};
ghost use Rattle.heap_world.specs.Effect.{tells};
ghost use Rattle.heap_graph.specs.Formed.{IsFormed};
ghost use Rattle.heap_world.specs.Pages.{image_pages, pages_if_promoted, promoted_pages, zygote_pages};
ghost use Rattle.heap_world.specs.Sound.{IsSound};
ghost use Rattle.heap_world.specs.declared.reply.Reply.TheVariants as reply;
ghost use Rattle.plain_graph.specs.Shapes.{HasClass};
ghost use Rattle.plain_machine.specs.Outcomes.{IsOutcome};

use crate::makes::pages_for;
use crate::outcome::Outcome;
use crate::pages::{count_image, count_large, count_zygote, large_pages, zygote_pages};
use crate::part::Part;
use heap_graph::Place;
use heap_world::{PageName, Refusal, Reply, sizes_are_bounded};
use plain_graph::{Graph, Object, unrounded};
use std::alloc::{AllocError, Global};

/// Adds the pages of an object, where it is promoted and large.
fn push_promoted(
    alloc: Global,
    graph: &Graph,
    o: &Object,
    pages: &mut Vec<PageName>,
) -> Result<(), AllocError>
    requires shape { HasClass graph.now.classes o.now.shape }
    ensures { OnOk result (pages.new.items ≡ pages.old.items ++ pages_if_promoted graph.now.classes o.now o.now.place) }
{
    if o.place() == Place::Promoted {
        let count = pages_for(unrounded(graph.classes(), o.shape()));
        pages.extend_from_slice(&large_pages(alloc, o.number(), count)?)?;
    }
    Ok(())
}

/// The pages of promoted large objects.
#[tactic(auto, using(plain_graph::proofs::FormedObjects::small_objects))]
pub(crate) fn promoted_pages(alloc: Global, graph: &Graph) -> Result<Vec<PageName>, AllocError>
    requires formed { IsFormed graph.now }
    ensures { IfOk result (λ pages. pages.items ≡ promoted_pages graph.now) }
{
    let mut pages = Vec::new(alloc);
    for o in graph.objects() {
        push_promoted(alloc, graph, o, &mut pages)?;
    }
    Ok(pages)
}

impl Part {
    /// Seals the image.
    pub(crate) fn seal(&self) -> Result<Outcome, AllocError>
        ensures { IfOk result (λ out. IsOutcome self.now out (seal_if self.now.graph.sealed self.now)) }
    {
        if self.graph.is_sealed() {
            return Ok(self.refuses(Refusal::Sealed));
        }
        let next = Part {
            alloc: self.alloc,
            graph: self.graph.with_seal()?,
            exited: self.exited,
            touched: Vec::new(self.alloc),
            stored: Vec::new(self.alloc),
            held: self.held.clone()?,
        };
        Ok(self.leads_to(next, Reply::Done))
    }

    /// Collects.
    pub(crate) fn collect(&self) -> Result<Outcome, AllocError>
        requires sound { IsSound self.now }
        ensures { IfOk result (λ out. IsOutcome self.now out (gc_if self.now.graph.sealed self.now)) }
    {
        if !self.graph.is_sealed() {
            return Ok(self.refuses(Refusal::NotSealed));
        }
        self.collect_to(self.collected()?)
    }

    // A collection to a graph.
    fn collect_to(&self, graph: Graph) -> Result<Outcome, AllocError>
        requires few { length self.now.graph.objects < number_limit }
        requires fewer { length graph.objects ≤ length self.now.graph.objects }
        requires loose { loose_count graph ≤ length self.now.graph.objects }
        ensures { IfOk result (λ out. IsOutcome self.now out (gc_to self.now graph)) }
    {
        let kept = graph.loose_count() as u32;
        let freed = (self.graph.objects().len() - graph.objects().len()) as u32;
        let next = self.with_collected(graph)?;
        Ok(self.leads_to(next, Reply::Kept { kept, freed }))
    }

    // Another part, and a reply.
    fn leads_to(&self, next: Part, reply: Reply) -> Outcome
        ensures { IsOutcome self.now result (tells next reply) }
    {
        Outcome {
            next: Some(next),
            ..self.tells(reply)
        }
    }

    // The graph after a collection.
    #[tactic(auto, using(crate::proofs::Collected::collecting))]
    fn collected(&self) -> Result<Graph, AllocError>
        requires sound { IsSound self.now }
        requires sealed { self.now.graph.sealed ≡ true }
        ensures graph { IfOk result (λ g. g ≡ collect self.now.graph) }
        ensures formed { IfOk result (λ g. IsFormed g) }
        ensures few { length self.now.graph.objects < number_limit }
        ensures fewer { IfOk result (λ g. length g.objects ≤ length self.now.graph.objects) }
        ensures loose { IfOk result (λ g. loose_count g ≤ length self.now.graph.objects) }
    {
        sizes_are_bounded();
        let graph = self.graph.collect()?;
        Ok(graph)
    }

    /// What a fork does to the process that forks, which is sealed.
    pub(crate) fn fork(&self) -> Result<Outcome, AllocError>
        requires sound { IsSound self.now }
        requires sealed { self.now.graph.sealed ≡ true }
        ensures { IfOk result (λ out. IsOutcome self.now out (fork_part self.now)) }
    {
        self.fork_to(self.collected()?)
    }

    // A fork, after its collection to a graph.
    fn fork_to(&self, graph: Graph) -> Result<Outcome, AllocError>
        requires formed { IsFormed graph }
        ensures { IfOk result (λ out. IsOutcome self.now out (fork_to self.now graph)) }
    {
        sizes_are_bounded();
        if !graph.has_zygote_room() {
            let reply = Reply::Refused(Refusal::ZygoteFull {
                fill: graph.promotion_start() as u32,
                total: graph.promotion_bytes() as u32,
            });
            return Ok(Outcome {
                next: Some(self.with_collected(graph)?),
                ..self.tells(reply)
            });
        }
        let start = pages_for(graph.zygote_fill());
        let made = zygote_pages(self.alloc, start, pages_for(graph.promotion_bytes()))?;
        let next = Part {
            alloc: self.alloc,
            graph: graph.promoted()?,
            exited: self.exited,
            touched: Vec::new(self.alloc),
            stored: Vec::new(self.alloc),
            held: Vec::new(self.alloc),
        };
        Ok(Outcome {
            next: Some(next),
            made,
            ..self.tells(Reply::Done)
        })
    }

    /// Ends the process.
    pub(crate) fn exit(&self) -> Result<Outcome, AllocError>
        ensures { IfOk result (λ out. IsOutcome self.now out (tells (record self.now { exited = true }) reply.Done)) }
    {
        let mut next = self.with_graph(self.graph.copied()?)?;
        next.exited = true;
        Ok(self.leads_to(next, Reply::Done))
    }

    /// Counts the free regions.
    pub(crate) fn free(&self) -> Outcome
        requires sound { IsSound self.now }
        ensures { IsOutcome self.now result (tells self.now (reply.Regions (free self.now.graph))) }
    {
        self.tells(Reply::Regions(self.graph.free() as u32))
    }

    /// Counts the process's shared pages, and those that it touched.
    pub(crate) fn pages(&self) -> Result<Outcome, AllocError>
        requires sound { IsSound self.now }
        ensures { IfOk result (λ out. IsOutcome self.now out (tells self.now (page_counts self.now))) }
    {
        sizes_are_bounded();
        let large = promoted_pages(self.alloc, &self.graph)?.len() as u32;
        Ok(self.tells(self.page_counts(large)))
    }

    // The counts of pages, given those of promoted large objects.
    #[tactic(auto, using(crate::proofs::PageLists::counting))]
    fn page_counts(&self, large: u32) -> Reply
        requires sound { IsSound self.now }
        requires large { large ≡ length (promoted_pages self.now.graph) }
        ensures { result ≡ page_counts self.now }
    {
        sizes_are_bounded();
        Reply::Pages {
            image: pages_for(self.graph.image_fill()),
            image_written: count_image(&self.touched) as u32,
            zygote: pages_for(self.graph.zygote_fill()),
            zygote_written: count_zygote(&self.touched) as u32,
            large,
            large_written: count_large(&self.touched) as u32,
        }
    }
}
