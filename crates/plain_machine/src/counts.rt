//! Who lives, and how many objects the live processes have.
ghost use Rattle.std.specs.Prelude.{◌≡◌, ℕ, List, [], ◌∷◌, is_some, length, map, not, sum};
ghost use Rattle.std.specs.List.{list_any};
ghost use Rattle.std.specs.Option.{option_copied};
ghost use Rattle.class_layout.specs.Names.{same_name};
ghost use Rattle.heap_world.specs.World.{World, live, process_named};
ghost use Rattle.heap_world.specs.Counts.{objects_in, objects_of};
ghost use Rattle.heap_world.specs.Counts as counts;

use crate::process::Process;
use class_layout::Name;
use plain_graph::Graph;

fn lives(process: &Process) -> bool
    ensures { result ≡ not process.now.part.exited }
{
    !process.part.exited
}

/// A live process of a name has a count of objects, and no other name has one.
pub fn live_processes_have_counts()
    ensures { (w : World) → (name : List ℕ) → is_some (objects_of w name) ≡ counts.is_live w name }
{}

/// The live process of a name.
pub(crate) fn live_named<'a>(processes: &'a [Process], name: &Name) -> Option<&'a Process>
    ensures { option_copied result ≡ process_named (live processes.now) name.now }
{
    processes
        .iter()
        .filter(|q| lives(q))
        .find(|q| q.name == *name)
}

/// Whether a live process has the name.
pub(crate) fn is_live(processes: &[Process], name: &Name) -> bool
    ensures { result ≡ list_any (λ q. same_name q.name name.now) (live processes.now) }
{
    processes
        .iter()
        .filter(|q| lives(q))
        .any(|q| q.name == *name)
}

/// How many processes live.
pub(crate) fn live_count(processes: &[Process]) -> usize
    ensures { result ≡ length (live processes.now) }
{
    processes.iter().filter(|q| lives(q)).count()
}

/// How many objects a process has.
pub(crate) fn objects_in(process: &Process) -> usize
    ensures { result ≡ objects_in process.now }
{
    process.part.graph.objects().len()
}

/// The graph of a process.
pub(crate) fn graph_in(process: &Process) -> &Graph
    ensures { result.now ≡ process.now.part.graph }
{
    &process.part.graph
}

/// How many objects a process has, and none where it has exited.
fn live_objects_in(process: &Process) -> usize
    ensures { result ≡ sum (map objects_in (live (process.now ∷ []))) }
{
    if process.part.exited {
        0
    } else {
        objects_in(process)
    }
}

/// How many objects all live processes have together.
#[tactic(auto, using(crate::proofs::LiveObjects::objects_more))]
pub(crate) fn live_objects(processes: &[Process]) -> u128
    ensures { result ≡ sum (map objects_in (live processes.now)) }
{
    let mut objects = 0u128;
    for q in processes {
        objects += live_objects_in(q) as u128;
    }
    objects
}
