//! Laws above the definitions: what they say, in other words.
ghost use Rattle.std.specs.Prelude.{◌≡◌, ◌≢◌, ℕ, ◌+◌, ◌<◌, ◌≤◌, None, map};
ghost use Rattle.class_layout.specs.Placing.{IsIn};
ghost use Rattle.heap_graph.specs.Graph.{Graph, Object, object_at, size_of_object};
ghost use Rattle.heap_graph.specs.Table.{Fits};
ghost use Rattle.heap_graph.specs.Formed.{IsFormed};
ghost use Rattle.address_table.specs.Computed.{addresses_from, first_homes, table_of, Homes, HouseAll};

/// The computed table of a formed graph follows the rules of the heap, whichever regions and slots it is computed from.
pub fn tables_fit()
    ensures { (homes : Homes) (g : Graph) → IsFormed g → HouseAll homes g → Fits (table_of homes g) g }
{}

/// Each object ends before the next one begins, whichever regions and slots the table is computed from.
pub fn objects_lie_apart()
    ensures { (homes : Homes) (g : Graph) → IsFormed g → HouseAll homes g → (o p : Object) → IsIn o g.objects → IsIn p g.objects → table_of homes g o.number < table_of homes g p.number
        → table_of homes g o.number + size_of_object g.classes o ≤ table_of homes g p.number }
{}

/// The first regions and slots suffice for every formed graph: it has a table.
pub fn first_homes_suffice()
    ensures { (g : Graph) → IsFormed g → HouseAll (first_homes g.budget) g }
{}

/// The addresses in a row are those that the table has for the objects' numbers.
pub fn addresses_are_listed()
    ensures { (homes : Homes) (g : Graph) → IsFormed g → addresses_from homes g.classes 0 0 g.objects ≡ map (λ o. table_of homes g o.number) g.objects }
{}

/// 0 is the address of no object of a formed graph, and of each number that no object has.
pub fn null_is_no_object()
    ensures objects { (homes : Homes) (g : Graph) (o : Object) → IsFormed g → HouseAll homes g → IsIn o g.objects → table_of homes g o.number ≢ 0 }
    ensures others { (homes : Homes) (g : Graph) (n : ℕ) → object_at g n ≡ None → table_of homes g n ≡ 0 }
{}
