//! The definitions, computed: the listing of a small dump, and of one with each kind of line.
ghost use Rattle.std.specs.Prelude.{◌≡◌};
ghost use Rattle.hprof_records.specs.Examples as dump;
ghost use Rattle.hprof_list.specs.Listing.{listing};
ghost use Rattle.hprof_list.specs.Examples as example;

fn listings()
    ensures small { listing 0 dump.small ≡ example.small_listing }
    ensures each { listing 1234567890123 example.each ≡ example.each_listing }
{}
