ghost use Rattle.std.specs.Prelude.{◌≡◌, ◌<◌, ◌≤◌, ℕ, List, [], ◌∷◌, ◌++◌, false, Some, length, slice_get, unwrap_or, IfOk, IfSome, OnOk, OnErr, MatchResult};
ghost use Rattle.std.specs.List.{list_any, position};
ghost use Rattle.std.specs.Option.{option_copied};
ghost use Rattle.model_numbers.specs.Numbers.{most_regions, number_limit};
ghost use Rattle.class_layout.specs.Names.{same_name};
ghost use Rattle.heap_graph.specs.Formed.{IsFormed};
ghost use Rattle.heap_world.specs.Commands.{HasFewFields};
ghost use Rattle.heap_world.specs.Sound.{IsSound};
ghost use Rattle.heap_world.specs.World.{World, child_process, empty_world, first_world, fork_if, frame_count, put_process, step, step_live, step_process, stepped};
ghost use Rattle.heap_world.specs.Isolation.{is_frames};
ghost use Rattle.heap_world.specs.World as worlds;
ghost use Rattle.heap_world.specs.declared.reply.Reply.{Reply};
ghost use Rattle.heap_world.specs.Acts.{act};
ghost use Rattle.heap_world.specs.Counts as counts;
ghost use Rattle.plain_machine.specs.Worlds.{Does, StandsAmong, StandsFor, forked_child};
ghost use Rattle.world_laws.specs.Labels.{AreEarlier};
ghost use Rattle.world_laws.specs.Wanting.{left_worlds};

use crate::counts::{graph_in, is_live, live_count, live_named, live_objects, objects_in};
use crate::frames::frame_count;
use crate::part::Part;
use crate::process::Process;
use class_layout::Name;
use heap_world::{Command, Label, Refusal, Reply, Verb, parts_are_sound};
use plain_graph::Graph;
use std::alloc::{AllocError, Global};
use std::marker::Model;

/// All processes of a script. A contract says which world it stands for.
#[derive(Drop)]
pub struct Machine {
    alloc: Global,
    processes: Vec<Process>,
}

impl Model for Machine {
    ghost use Rattle.heap_world.specs.Isolation.{is_frames};
    ghost use Rattle.heap_world.specs.World as worlds;
    ghost use Rattle.heap_world.specs.declared.reply.Reply.{Reply};
    ghost use Rattle.plain_machine.specs.Worlds.{ArePossible, Meaning};

    ghost Value = { Meaning };

    ghost view = { λ m. record { processes = m.processes.items } };

    ghost invariant = { λ m. ArePossible m.processes.items };
}

/// The place of the process of a name.
fn place_of(processes: &[Process], name: &Name) -> Option<usize>
    ensures { result ≡ position (λ q. same_name q.name name.now) processes.now }
{
    processes.iter().position(|q| q.name == *name)
}

/// Whether a process of a name was made.
fn is_taken(processes: &[Process], name: &Name) -> bool
    ensures { result ≡ list_any (λ q. same_name q.name name.now) processes.now }
{
    processes.iter().any(|q| q.name == *name)
}

/// The child that a command asks for, if it is a fork.
fn child_of(verb: &Verb) -> Option<&Name>
    ensures { option_copied result ≡ forked_child verb.now }
{
    match verb {
        Verb::Fork { child } => Some(child),
        _ => None,
    }
}

/// Whether a command counts the frames of all processes.
fn is_frames(verb: &Verb) -> bool
    ensures { result ≡ is_frames verb.now }
{
    matches!(verb, Verb::Frames)
}

/// A process without others.
fn alone(alloc: Global, process: Process) -> Result<Vec<Process>, AllocError>
    ensures { IfOk result (λ qs. qs.items ≡ process ∷ []) }
{
    let mut processes = Vec::new(alloc);
    processes.push(process)?;
    Ok(processes)
}

impl Machine {
    /// A new machine, without processes. It takes no memory.
    #[tactic(auto, unfolding(crate::specs::Worlds::StandsFor))]
    pub fn new(alloc: Global) -> Machine
        ensures { StandsFor result empty_world }
    {
        Machine {
            alloc,
            processes: Vec::new(alloc),
        }
    }

    /// Makes the process `zygote` in a new machine, with a budget of regions and the number of its first object.
    /// After `AllocError` the machine is new.
    #[tactic(auto, unfolding(crate::specs::Worlds::StandsFor))]
    pub fn prepare(&mut self, regions: u32, number: u32) -> Result<(), AllocError>
        requires is_new { StandsFor self.old empty_world }
        requires few_regions { (1 ≤ regions) × (regions ≤ most_regions) }
        requires numbered { (1 ≤ number) × (number ≤ number_limit) }
        ensures ok { OnOk result (StandsFor self.new (first_world regions number)) }
        ensures err { OnErr result (StandsFor self.new empty_world) }
    {
        parts_are_sound();
        let zygote = Process::first(self.alloc, regions, number)?;
        self.processes = alone(self.alloc, zygote)?;
        Ok(())
    }

    // The process at a place.
    fn process(&self, i: usize) -> &Process
        requires within { i < length self.now.processes }
        ensures is { slice_get self.now.processes i ≡ Some result.now }
        ensures sound { IsSound result.now.part }
    {
        &self.processes[i]
    }

    // Puts a next part, if there is one, and labels in the place of those of a process.
    fn settle(&mut self, i: usize, next: Option<Part>, labels: Vec<Label>)
        requires within { i < length self.old.processes }
        requires sound { IfSome next (λ p. IsSound p) }
        ensures { (q : worlds.Process) → slice_get self.old.processes i ≡ Some q →
            self.new ≡ put_process self.old (record q { part = unwrap_or next q.part; labels = labels.items }) }
    {
        self.processes[i].settle(next, labels);
    }

    // A command that looks at its process alone.
    fn act(&mut self, i: usize, line: u64, verb: &Verb) -> Result<Reply, AllocError>
        requires within { i < length self.old.processes }
        requires few { HasFewFields verb.now }
        ensures { (q : worlds.Process) → slice_get self.old.processes i ≡ Some q → MatchResult result
            (λ reply. Does (stepped self.old line q (act q.part verb.now)) self.new reply)
            (λ _. self.new ≡ self.old) }
    {
        let q = self.process(i);
        let outcome = q.act(verb)?;
        let labels = q.labels_after(line, &outcome)?;
        self.settle(i, outcome.next, labels);
        Ok(outcome.reply)
    }

    // Adds a process.
    fn add(&mut self, child: Process) -> Result<(), AllocError>
        requires fresh { list_any (λ q. same_name q.name child.name) self.old.processes ≡ false }
        requires sound { IsSound child.part }
        ensures ok { OnOk result (self.new ≡ record { processes = self.old.processes ++ child ∷ [] }) }
        ensures err { OnErr result (self.new ≡ self.old) }
    {
        self.processes.push(child)?;
        Ok(())
    }

    // A fork. The parent's part and labels after it are the child's too, but that the child was never dumped.
    fn fork(&mut self, i: usize, line: u64, child: &Name) -> Result<Reply, AllocError>
        requires within { i < length self.old.processes }
        ensures { (q : worlds.Process) → slice_get self.old.processes i ≡ Some q → MatchResult result
            (λ reply. Does (fork_if q.part.graph.sealed self.old line q child.now) self.new reply)
            (λ _. self.new ≡ self.old) }
    {
        let q = self.process(i);
        if !q.part.graph.is_sealed() {
            return Ok(Reply::Refused(Refusal::NotSealed));
        }
        if is_taken(&self.processes, child) {
            return Ok(Reply::Refused(Refusal::ProcessTaken));
        }
        let outcome = q.fork()?;
        let labels = q.labels_after(line, &outcome)?;
        match outcome.reply {
            Reply::Done => self.end_fork(i, *child, outcome.next, labels)?,
            _ => self.settle(i, outcome.next, labels),
        }
        Ok(outcome.reply)
    }

    // The end of a fork that isn't refused: the child is added, and the parent settled.
    fn end_fork(
        &mut self,
        i: usize,
        child: Name,
        next: Option<Part>,
        labels: Vec<Label>,
    ) -> Result<(), AllocError>
        requires within { i < length self.old.processes }
        requires sound { IfSome next (λ p. IsSound p) }
        requires fresh { list_any (λ q. same_name q.name child) self.old.processes ≡ false }
        ensures ok { (q : worlds.Process) → slice_get self.old.processes i ≡ Some q → OnOk result
            (let parent = record q { part = unwrap_or next q.part; labels = labels.items } in
            self.new ≡ record { processes = (put_process self.old parent).processes ++ child_process parent child ∷ [] }) }
        ensures err { OnErr result (self.new ≡ self.old) }
    {
        let q = self.process(i);
        let new = q.child_after(child, &next, &labels)?;
        self.add(new)?;
        self.settle(i, next, labels);
        Ok(())
    }

    // The count of frames, of all live processes.
    fn frames(&self) -> Result<Reply, AllocError>
        ensures { IfOk result (λ reply. reply ≡ Reply.Frames (frame_count self.now)) }
    {
        let frames = frame_count(self.alloc, &self.processes)?;
        Ok(Reply::Frames(frames))
    }

    // A command of the process at a place.
    #[tactic(auto, using(crate::proofs::Verbs::looking))]
    fn step_process(&mut self, i: usize, line: u64, verb: &Verb) -> Result<Reply, AllocError>
        requires within { i < length self.old.processes }
        requires few { HasFewFields verb.now }
        ensures { (q : worlds.Process) → slice_get self.old.processes i ≡ Some q → MatchResult result
            (λ reply. Does (step_process self.old line q verb.now) self.new reply)
            (λ _. self.new ≡ self.old) }
    {
        match child_of(verb) {
            Some(child) => self.fork(i, line, child),
            None if is_frames(verb) => self.frames(),
            None => self.act(i, line, verb),
        }
    }

    // The same, unless the process has exited.
    fn step_at(&mut self, i: usize, line: u64, verb: &Verb) -> Result<Reply, AllocError>
        requires within { i < length self.old.processes }
        requires few { HasFewFields verb.now }
        ensures { (q : worlds.Process) → slice_get self.old.processes i ≡ Some q → MatchResult result
            (λ reply. Does (step_live q.part.exited self.old line q verb.now) self.new reply)
            (λ _. self.new ≡ self.old) }
    {
        if self.process(i).part.exited {
            return Ok(Reply::Refused(Refusal::Exited));
        }
        self.step_process(i, line, verb)
    }

    // The command of a line.
    fn step_line(&mut self, line: u64, command: &Command) -> Result<Reply, AllocError>
        requires few { HasFewFields command.now.verb }
        ensures { MatchResult result
            (λ reply. Does (step self.old line command.now) self.new reply)
            (λ _. self.new ≡ self.old) }
    {
        match place_of(&self.processes, &command.process) {
            Some(i) => self.step_at(i, line, &command.verb),
            None => Ok(Reply::Refused(Refusal::NoProcess)),
        }
    }

    /// Runs the command of a line, and gives the reply. The line's number is greater than that of each label of the world
    /// that the machine stands for. After `AllocError` nothing has changed. What a caller may rely on is less: that the
    /// machine stands for one of the worlds that want of memory may leave.
    #[tactic(auto, unfolding(crate::specs::Worlds::StandsFor))]
    pub fn step(&mut self, line: u64, command: &Command) -> Result<Reply, AllocError>
        requires few { HasFewFields command.now.verb }
        ensures reply { (w : World) → StandsFor self.old w → AreEarlier line w → IfOk result (λ reply. reply ≡ (step w line command.now).reply) }
        ensures world { (w : World) → StandsFor self.old w → AreEarlier line w → OnOk result (StandsFor self.new (step w line command.now).world) }
        ensures left { (w : World) → StandsFor self.old w → AreEarlier line w → OnErr result (StandsAmong self.new (left_worlds w line command.now)) }
    {
        self.step_line(line, command)
    }

    /// Whether a live process has the name.
    #[tactic(auto, unfolding(crate::specs::Worlds::StandsFor))]
    pub fn is_live(&self, process: &Name) -> bool
        ensures { (w : World) → StandsFor self.now w → result ≡ counts.is_live w process.now }
    {
        is_live(&self.processes, process)
    }

    /// How many processes live.
    #[tactic(auto, unfolding(crate::specs::Worlds::StandsFor))]
    pub fn live_count(&self) -> usize
        ensures { (w : World) → StandsFor self.now w → result ≡ counts.live_count w }
    {
        live_count(&self.processes)
    }

    /// How many objects a live process has. `None` comes exactly where no live process has the name.
    #[tactic(auto, unfolding(crate::specs::Worlds::StandsFor))]
    pub fn object_count(&self, process: &Name) -> Option<usize>
        ensures { (w : World) → StandsFor self.now w → result ≡ counts.objects_of w process.now }
    {
        let q = live_named(&self.processes, process)?;
        Some(objects_in(q))
    }

    /// The graph of a live process. `None` comes exactly where no live process has the name.
    #[tactic(auto, unfolding(crate::specs::Worlds::StandsFor))]
    pub fn graph(&self, process: &Name) -> Option<&Graph>
        ensures graph { (w : World) → StandsFor self.now w → option_copied result ≡ counts.graph_of w process.now }
        ensures own { option_copied result ≡ counts.graph_of self.now process.now }
        ensures formed { IfSome result (λ g. IsFormed g.now) }
    {
        let q = live_named(&self.processes, process)?;
        Some(graph_in(q))
    }

    /// How many objects all live processes have together.
    #[tactic(auto, unfolding(crate::specs::Worlds::StandsFor))]
    pub fn objects(&self) -> u128
        ensures { (w : World) → StandsFor self.now w → result ≡ counts.live_objects w }
    {
        live_objects(&self.processes)
    }

    /// How many frames are in use. To count them takes memory. A count beyond the range of u64 is answered as want of
    /// memory.
    #[tactic(auto, unfolding(crate::specs::Worlds::StandsFor))]
    pub fn frames_used(&self) -> Result<u64, AllocError>
        ensures { (w : World) → StandsFor self.now w → IfOk result (λ n. n ≡ frame_count w) }
    {
        let frames = frame_count(self.alloc, &self.processes)?;
        Ok(frames)
    }
}
