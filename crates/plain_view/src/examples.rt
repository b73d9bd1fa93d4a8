//! The definitions, computed: what a view of a small graph tells. Each function's contract is an example.
ghost use Rattle.std.specs.Prelude.{◌≡◌, None, Some, map, pos};
ghost use Rattle.object_view.specs.Seen.{seen_of, value_in};
ghost use Rattle.plain_view.specs.Examples.{first_reference, pointing, small, small_walk};
ghost use Rattle.plain_view.specs.Viewed.{address_at, at_address, first_table};

fn small_graph()
    ensures walk { map (seen_of (first_table small)) small.objects ≡ small_walk }
    ensures reference { value_in (first_table small) pointing first_reference ≡ pos 0x8010_0000 }
    ensures last { address_at small 6 ≡ Some (at_address 0x4000_0018) }
    ensures none { address_at small 7 ≡ None }
{}
