//! What is to be dumped, and its two entries on the shelf.
ghost use Rattle.std.specs.Prelude.{◌≡◌, ◌⊎◌, ◌∷◌, ◌≤◌, ℕ, List, [], Some, false, true, codes, IfOk, MatchResult, OnOk};
ghost use Rattle.ah_outside.specs.Outside.{Begun, FaultRose};
ghost use Rattle.heap_graph.specs.Graph.{Graph};
ghost use Rattle.heap_graph.specs.Table.{Fits};
ghost use Rattle.heap_world.specs.World.{World};
ghost use Rattle.hprof_write.specs.Outcomes.{IfShelfFault};
ghost use Rattle.plain_dumps.specs.Addresses.{addresses};
ghost use Rattle.heap_world.specs.Counts.{graph_of};
ghost use Rattle.plain_machine.specs.Worlds.{StandsFor};
ghost use Rattle.script_report.specs.Dumps.{Dumping};
ghost use Rattle.script_run.specs.Dumps.{HasEntry, HasEntryPart, HasShelved, HasShelvedPart, dump_entry, dumped_by, entry_name, map_entry};

use crate::Machine;
use ah_outside::Shelf;
use class_layout::Name;
use hprof_write::DumpError;
use itoa::Buffer;
use plain_dumps::{addresses_fit, write_dump, write_map};
use script_lang::{Command, Reply, Verb};
use std::alloc::{AllocError, Global};

/// A dump that a line asks for: of which process, and which dump of the process it is, from 1.
#[derive(Clone, Copy, Debug, PartialEq, Eq)]
pub struct Dumped {
    pub process: Name,
    pub count: u32,
}

/// The dump that a command with this reply asks for.
pub(crate) fn dumped_by(command: &Command, reply: &Reply) -> Option<Dumped>
    ensures { result ≡ dumped_by command.now.process command.now.verb reply.now }
{
    match (&command.verb, reply) {
        (Verb::Dump, Reply::Dumped { count, .. }) => Some(Dumped {
            process: command.process,
            count: *count,
        }),
        _ => None,
    }
}

/// The name of an entry of a dump.
fn entry_name(alloc: Global, dumped: &Dumped, ending: &[u8]) -> Result<Vec<u8>, AllocError>
    ensures { IfOk result (λ name. name.items ≡ entry_name dumped.now.process dumped.now.count ending.now) }
{
    let mut count = Buffer::new();
    let mut name = Vec::new(alloc);
    name.extend_from_slice(dumped.process.as_bytes())?;
    name.extend_from_slice(b".")?;
    name.extend_from_slice(count.format(dumped.count).as_bytes())?;
    name.extend_from_slice(b".")?;
    name.extend_from_slice(ending)?;
    Ok(name)
}

/// Begins an entry of a dump.
fn begin_entry<F: Shelf>(
    alloc: Global,
    dumped: &Dumped,
    ending: &[u8],
    shelf: &mut F,
) -> Result<(), DumpError>
    requires finished { (F.shelved shelf.old).unfinished ≡ false }
    ensures done { let name = entry_name dumped.now.process dumped.now.count ending.now in MatchResult result
        (λ _. Begun (F.shelved shelf.old) name (F.shelved shelf.new))
        (λ _. (F.shelved shelf.new ≡ F.shelved shelf.old) ⊎ Begun (F.shelved shelf.old) name (F.shelved shelf.new)) }
    ensures cause { IfShelfFault result (FaultRose (F.fault_count shelf.old) (F.fault_count shelf.new)) }
    ensures never_falls { F.fault_count shelf.old ≤ F.fault_count shelf.new }
{
    let name = entry_name(alloc, dumped, ending)?;
    shelf.begin(&name)?;
    Ok(())
}

/// Adds the entry of a dump, with the time in milliseconds, and closes it.
fn add_dump<F: Shelf>(
    alloc: Global,
    machine: &mut Machine,
    dumped: &Dumped,
    time: u64,
    shelf: &mut F,
) -> Result<(), DumpError>
    requires finished { (F.shelved shelf.old).unfinished ≡ false }
    ensures done { (w : World) (g : Graph) → StandsFor machine.old w → graph_of w dumped.now.process ≡ Some g →
        let d : Dumping = record { process = dumped.now.process; count = dumped.now.count; graph = g } in
        let whole = dump_entry time d (addresses machine.old dumped.now.process) in
        MatchResult result (λ _. HasEntry whole (F.shelved shelf.old) (F.shelved shelf.new)) (λ _. HasEntryPart whole (F.shelved shelf.old) (F.shelved shelf.new)) }
    ensures fits { (w : World) (g : Graph) → StandsFor machine.old w → graph_of w dumped.now.process ≡ Some g →
        Fits (addresses machine.old dumped.now.process) g }
    ensures finished { OnOk result ((F.shelved shelf.new).unfinished ≡ false) }
    ensures stands { (w : World) → StandsFor machine.old w → StandsFor machine.new w }
    ensures addresses { addresses machine.new dumped.now.process ≡ addresses machine.old dumped.now.process }
    ensures cause { IfShelfFault result (FaultRose (F.fault_count shelf.old) (F.fault_count shelf.new)) }
    ensures never_falls { F.fault_count shelf.old ≤ F.fault_count shelf.new }
{
    addresses_fit(machine, &dumped.process);
    begin_entry(alloc, dumped, b"hprof", shelf)?;
    write_dump(alloc, machine, &dumped.process, time, shelf)?;
    shelf.finish()?;
    Ok(())
}

/// Adds the entry of a dump's table of addresses, and closes it.
fn add_map<F: Shelf>(
    alloc: Global,
    machine: &mut Machine,
    dumped: &Dumped,
    shelf: &mut F,
) -> Result<(), DumpError>
    requires finished { (F.shelved shelf.old).unfinished ≡ false }
    ensures done { (w : World) (g : Graph) → StandsFor machine.old w → graph_of w dumped.now.process ≡ Some g →
        let d : Dumping = record { process = dumped.now.process; count = dumped.now.count; graph = g } in
        let whole = map_entry d (addresses machine.old dumped.now.process) in
        MatchResult result (λ _. HasEntry whole (F.shelved shelf.old) (F.shelved shelf.new)) (λ _. HasEntryPart whole (F.shelved shelf.old) (F.shelved shelf.new)) }
    ensures finished { OnOk result ((F.shelved shelf.new).unfinished ≡ false) }
    ensures stands { (w : World) → StandsFor machine.old w → StandsFor machine.new w }
    ensures cause { IfShelfFault result (FaultRose (F.fault_count shelf.old) (F.fault_count shelf.new)) }
    ensures never_falls { F.fault_count shelf.old ≤ F.fault_count shelf.new }
{
    begin_entry(alloc, dumped, b"map", shelf)?;
    write_map(alloc, machine, &dumped.process, shelf)?;
    shelf.finish()?;
    Ok(())
}

/// Adds the two entries of a dump, with the time in milliseconds in the header of the first, and closes them. After an
/// error a part of them may have been added. The machine stands for the same world.
pub(crate) fn add_entries<F: Shelf>(
    alloc: Global,
    machine: &mut Machine,
    dumped: &Dumped,
    time: u64,
    shelf: &mut F,
) -> Result<(), DumpError>
    requires finished { (F.shelved shelf.old).unfinished ≡ false }
    ensures done { (w : World) (g : Graph) → StandsFor machine.old w → graph_of w dumped.now.process ≡ Some g →
        let d : Dumping = record { process = dumped.now.process; count = dumped.now.count; graph = g } in
        MatchResult result (λ _. HasShelved time (d ∷ []) (F.shelved shelf.old) (F.shelved shelf.new)) (λ _. HasShelvedPart time d (F.shelved shelf.old) (F.shelved shelf.new)) }
    ensures finished { OnOk result ((F.shelved shelf.new).unfinished ≡ false) }
    ensures stands { (w : World) → StandsFor machine.old w → StandsFor machine.new w }
    ensures cause { IfShelfFault result (FaultRose (F.fault_count shelf.old) (F.fault_count shelf.new)) }
    ensures never_falls { F.fault_count shelf.old ≤ F.fault_count shelf.new }
{
    add_dump(alloc, machine, dumped, time, shelf)?;
    add_map(alloc, machine, dumped, shelf)
}
