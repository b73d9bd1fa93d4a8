//! The law of a script's dumps.
ghost use Rattle.std.specs.Prelude.{◌≤◌, ℕ, All, List};
ghost use Rattle.model_numbers.specs.Numbers.{most_regions};
ghost use Rattle.dump_shows.specs.Shows.{Shows};
ghost use Rattle.heap_graph.specs.Table.{Fits};
ghost use Rattle.hprof_write.specs.Written.{written};
ghost use Rattle.script_report.specs.Report.{dumps_of};

/// Each dump that a script's lines ask for shows the graph of its process to each reader, wherever the objects stand:
/// under each table that fits the graph.
pub fn dumps_show_graphs()
    ensures { (budget : ℕ) (ls : List (List ℕ)) → 1 ≤ budget → budget ≤ most_regions →
        All (λ d. (table : ℕ → ℕ) → Fits table d.graph → Shows (written d.graph table) d.graph table) (dumps_of budget ls) }
{}
