ghost use Rattle.std.specs.Prelude.{◌≡◌, ◌++◌, [], true, IfOk, IfSome, OnOk, unwrap_or};
ghost use Rattle.heap_world.specs.World.{child_process, labelled};
ghost use Rattle.heap_world.specs.Acts.{act, fork_part};
ghost use Rattle.heap_world.specs.Commands.{HasFewFields};
ghost use Rattle.heap_world.specs.Sound.{IsSound};
ghost use Rattle.plain_machine.specs.Outcomes.{IsOutcome};
ghost use Rattle.plain_machine.specs.Worlds.{first_process};

use crate::outcome::Outcome;
use crate::part::Part;
use class_layout::Name;
use heap_world::{Label, PageName, Verb, parts_are_sound};
use std::alloc::{AllocError, Global};
use std::marker::Model;

/// A process: its name, its part, and the labels of its pages, the newest first.
#[derive(Drop)]
pub(crate) struct Process {
    pub(crate) name: Name,
    pub(crate) part: Part,
    pub(crate) labels: Vec<Label>,
}

impl Model for Process {
    ghost use Rattle.heap_world.specs.World as worlds;

    ghost Value = { worlds.Process };

    ghost view = { λ q. record { name = q.name; part = q.part; labels = q.labels.items } };
}

/// Adds labels of pages, all with one line.
fn push_labels(labels: &mut Vec<Label>, line: u64, pages: &[PageName]) -> Result<(), AllocError>
    ensures { OnOk result (labels.new.items ≡ labels.old.items ++ labelled line pages.now []) }
{
    let mut rest = pages;
    while let Some((page, more)) = rest.split_first() {
        labels.push(Label { page: *page, line })?;
        rest = more;
    }
    Ok(())
}

impl Process {
    /// The process `zygote`, unsealed and without objects.
    pub(crate) fn first(alloc: Global, regions: u32, number: u32) -> Result<Process, AllocError>
        ensures { IfOk result (λ q. q ≡ first_process regions number) }
    {
        Ok(Process {
            name: Name::of(b"zygote").unwrap(),
            part: Part::first(alloc, regions, number)?,
            labels: Vec::new(alloc),
        })
    }

    /// What a command does. The part after it is sound.
    pub(crate) fn act(&self, verb: &Verb) -> Result<Outcome, AllocError>
        requires sound { IsSound self.now.part }
        requires few { HasFewFields verb.now }
        ensures done { IfOk result (λ out. IsOutcome self.now.part out (act self.now.part verb.now)) }
        ensures sound { IfOk result (λ out. IfSome out.next (λ p. IsSound p)) }
    {
        parts_are_sound();
        let outcome = self.part.act(verb)?;
        Ok(outcome)
    }

    /// What a fork does to the process, which is sealed. The part after it is sound.
    pub(crate) fn fork(&self) -> Result<Outcome, AllocError>
        requires sound { IsSound self.now.part }
        requires sealed { self.now.part.graph.sealed ≡ true }
        ensures done { IfOk result (λ out. IsOutcome self.now.part out (fork_part self.now.part)) }
        ensures sound { IfOk result (λ out. IfSome out.next (λ p. IsSound p)) }
    {
        parts_are_sound();
        let outcome = self.part.fork()?;
        Ok(outcome)
    }

    /// The labels after an outcome of a line.
    #[tactic(auto, using(crate::proofs::Labels::labelling))]
    pub(crate) fn labels_after(
        &self,
        line: u64,
        outcome: &Outcome,
    ) -> Result<Vec<Label>, AllocError>
        ensures { IfOk result (λ ls. ls.items ≡ labelled line (outcome.now.made.items ++ outcome.now.first.items) self.now.labels) }
    {
        let mut labels = Vec::new(self.part.alloc);
        push_labels(&mut labels, line, &outcome.made)?;
        push_labels(&mut labels, line, &outcome.first)?;
        labels.extend_from_slice(&self.labels)?;
        Ok(labels)
    }

    /// Takes the next part, if there is one, and labels.
    pub(crate) fn settle(&mut self, next: Option<Part>, labels: Vec<Label>)
        ensures { self.new ≡ record self.old { part = unwrap_or next self.old.part; labels = labels.items } }
    {
        self.labels = labels;
        if let Some(part) = next {
            self.part = part;
        }
    }

    // The next part, or the part as it is.
    fn last_part<'a>(&'a self, next: &'a Option<Part>) -> &'a Part
        requires sound { IsSound self.now.part }
        requires next_sound { IfSome next.now (λ p. IsSound p) }
        ensures part { result.now ≡ unwrap_or next.now self.now.part }
        ensures sound { IsSound result.now }
    {
        match next {
            Some(next) => next,
            None => &self.part,
        }
    }

    /// A fork's child: it has the parent's next part, but was never dumped, and the parent's labels.
    pub(crate) fn child_after(
        &self,
        name: Name,
        next: &Option<Part>,
        labels: &Vec<Label>,
    ) -> Result<Process, AllocError>
        requires sound { IsSound self.now.part }
        requires next_sound { IfSome next.now (λ p. IsSound p) }
        ensures child { IfOk result (λ q. q ≡ child_process (record self.now { part = unwrap_or next.now self.now.part; labels = labels.now.items }) name) }
        ensures sound { IfOk result (λ q. IsSound q.part) }
    {
        Ok(Process {
            name,
            part: self.last_part(next).child()?,
            labels: labels.clone()?,
        })
    }
}
