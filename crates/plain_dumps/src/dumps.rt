ghost use Rattle.std.specs.Prelude.{◌≡◌, ◌≤◌, ℕ, List, None, Some, Ok, true, IfOk, OnOk, OnErr};
ghost use Rattle.ah_outside.specs.Outside.{Appended, FaultRose};
ghost use Rattle.heap_graph.specs.Graph.{Graph};
ghost use Rattle.heap_graph.specs.Table.{Fits};
ghost use Rattle.heap_world.specs.World.{World};
ghost use Rattle.hprof_records.specs.Records.{dump_bytes};
ghost use Rattle.hprof_write.specs.Outcomes.{AppendedPrefix, IfShelfFault};
ghost use Rattle.hprof_write.specs.TableText.{table_text};
ghost use Rattle.hprof_write.specs.Written.{written};
ghost use Rattle.heap_world.specs.Counts.{graph_of};
ghost use Rattle.plain_machine.specs.Worlds.{StandsFor};
ghost use Rattle.plain_view.specs.Viewed.{address_at};
ghost use Rattle.plain_dumps.specs.Addresses.{addresses};

use ah_outside::Shelf;
use class_layout::Name;
use cow_pages::Addr;
use hprof_write::DumpError;
use plain_machine::Machine;
use plain_view::View;
use std::alloc::{AllocError, Global};

/// Where an object of a live process stands. `None` comes exactly where no live process has the name, or no object of it
/// the number. It takes memory.
pub fn address(
    alloc: Global,
    machine: &Machine,
    process: &Name,
    number: u32,
) -> Result<Option<Addr>, AllocError>
    ensures none { (w : World) → StandsFor machine.now w → graph_of w process.now ≡ None → IfOk result (λ at. at ≡ None) }
    ensures found { (w : World) (g : Graph) → StandsFor machine.now w → graph_of w process.now ≡ Some g → IfOk result (λ at. at ≡ address_at g number) }
{
    let Some(graph) = machine.graph(process) else {
        return Ok(None);
    };
    Ok(View::new(alloc, graph)?.address_of(number))
}

/// The addresses of a live process's objects fit its graph. It looks up the process, and changes nothing.
pub fn addresses_fit(machine: &Machine, process: &Name)
    ensures { (w : World) (g : Graph) → StandsFor machine.now w → graph_of w process.now ≡ Some g → Fits (addresses machine.now process.now) g }
{
    let Some(_graph) = machine.graph(process) else {
        return;
    };
}

/// Appends the dump of a live process to the unfinished entry, with the time in milliseconds. After an error some first
/// bytes of it may have been appended. Where no live process has the name, nothing is appended. The machine stands for
/// the same worlds, and its objects stay where they are.
pub fn write_dump<F: Shelf>(
    alloc: Global,
    machine: &mut Machine,
    process: &Name,
    time: u64,
    shelf: &mut F,
) -> Result<(), DumpError>
    requires entry { (F.shelved shelf.old).unfinished ≡ true }
    ensures ok { (w : World) (g : Graph) → StandsFor machine.old w → graph_of w process.now ≡ Some g →
        OnOk result (Appended (F.shelved shelf.old) (dump_bytes time (written g (addresses machine.old process.now))) (F.shelved shelf.new)) }
    ensures failed { (w : World) (g : Graph) → StandsFor machine.old w → graph_of w process.now ≡ Some g →
        OnErr result (AppendedPrefix (F.shelved shelf.old) (dump_bytes time (written g (addresses machine.old process.now))) (F.shelved shelf.new)) }
    ensures fits { (w : World) (g : Graph) → StandsFor machine.old w → graph_of w process.now ≡ Some g → Fits (addresses machine.old process.now) g }
    ensures none { (w : World) → StandsFor machine.old w → graph_of w process.now ≡ None → (result ≡ Ok tt) × (F.shelved shelf.new ≡ F.shelved shelf.old) }
    ensures unfinished { OnOk result ((F.shelved shelf.new).unfinished ≡ true) }
    ensures cause { IfShelfFault result (FaultRose (F.fault_count shelf.old) (F.fault_count shelf.new)) }
    ensures never_falls { F.fault_count shelf.old ≤ F.fault_count shelf.new }
    ensures stands { (w : World) → StandsFor machine.old w → StandsFor machine.new w }
    ensures addresses { (name : List ℕ) → addresses machine.new name ≡ addresses machine.old name }
{
    let Some(graph) = machine.graph(process) else {
        return Ok(());
    };
    let mut view = View::new(alloc, graph)?;
    hprof_write::write_dump(alloc, &mut view, time, shelf)
}

/// Appends the text of a live process's table of addresses to the unfinished entry. After an error some first bytes of it
/// may have been appended. Where no live process has the name, nothing is appended. The machine stands for the same
/// worlds, and its objects stay where they are.
pub fn write_map<F: Shelf>(
    alloc: Global,
    machine: &mut Machine,
    process: &Name,
    shelf: &mut F,
) -> Result<(), DumpError>
    requires entry { (F.shelved shelf.old).unfinished ≡ true }
    ensures ok { (w : World) (g : Graph) → StandsFor machine.old w → graph_of w process.now ≡ Some g →
        OnOk result (Appended (F.shelved shelf.old) (table_text g (addresses machine.old process.now)) (F.shelved shelf.new)) }
    ensures failed { (w : World) (g : Graph) → StandsFor machine.old w → graph_of w process.now ≡ Some g →
        OnErr result (AppendedPrefix (F.shelved shelf.old) (table_text g (addresses machine.old process.now)) (F.shelved shelf.new)) }
    ensures none { (w : World) → StandsFor machine.old w → graph_of w process.now ≡ None → (result ≡ Ok tt) × (F.shelved shelf.new ≡ F.shelved shelf.old) }
    ensures unfinished { OnOk result ((F.shelved shelf.new).unfinished ≡ true) }
    ensures cause { IfShelfFault result (FaultRose (F.fault_count shelf.old) (F.fault_count shelf.new)) }
    ensures never_falls { F.fault_count shelf.old ≤ F.fault_count shelf.new }
    ensures stands { (w : World) → StandsFor machine.old w → StandsFor machine.new w }
    ensures addresses { (name : List ℕ) → addresses machine.new name ≡ addresses machine.old name }
{
    let Some(graph) = machine.graph(process) else {
        return Ok(());
    };
    let mut view = View::new(alloc, graph)?;
    hprof_write::write_map(alloc, &mut view, shelf)
}
