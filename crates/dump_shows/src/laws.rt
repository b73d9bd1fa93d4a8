//! The laws of a written dump.
ghost use Rattle.std.specs.Prelude.{ℕ, List};
ghost use Rattle.class_layout.specs.ClassList.{IsClassList};
ghost use Rattle.dump_shows.specs.Same.{IsSameSeen};
ghost use Rattle.dump_shows.specs.Shows.{IsSeen, Shows};
ghost use Rattle.heap_graph.specs.Graph.{Graph};
ghost use Rattle.hprof_records.specs.declared.top_record.TopRecord.{TopRecord};
ghost use Rattle.hprof_write.specs.Written.{written};

/// The dump of a heap shows the heap's graph to each reader: its classes, its objects at their addresses, with their values
/// and heaps, its roots, and nothing else. The graph and its table are those of any `HeapView`.
pub fn written_shows()
    ensures { (g : Graph) (table : ℕ → ℕ) → IsSeen g table → Shows (written g table) g table }
{}

/// A list of records shows one graph: two graphs that it shows have the same classes, the same objects at the same addresses,
/// with their heaps and values, and the same roots. So no dump that tells a reader something else shows the graph.
pub fn one_graph_is_shown()
    ensures { (L : List TopRecord) (g h : Graph) (table other : ℕ → ℕ) → IsClassList g.classes → Shows L g table → Shows L h other → IsSameSeen g table h other }
{}
