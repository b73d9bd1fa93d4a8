//! What every command keeps of a process, and the bounds that follow.
ghost use Rattle.std.specs.Prelude.{◌+◌, ◌*◌, ◌<◌, ◌≤◌, ℕ, All, length, sum, ◌≡◌, true};
ghost use Rattle.model_numbers.specs.Numbers.{image_length, zygote_length, region_bytes, most_array_bytes, most_regions, number_limit};
ghost use Rattle.heap_graph.specs.Fork.{child_of};
ghost use Rattle.heap_graph.specs.Graph.{Graph, image_fill, zygote_fill};
ghost use Rattle.heap_graph.specs.Packing.{costs, used, young_sizes};
ghost use Rattle.heap_graph.specs.Sizes.{unrounded};
ghost use Rattle.heap_world.specs.Acts.{act, fork_part};
ghost use Rattle.heap_graph.specs.Formed.{IsFormed};
ghost use Rattle.heap_world.specs.Commands.{HasFewFields};
ghost use Rattle.heap_world.specs.Pages.{promoted_pages};
ghost use Rattle.heap_world.specs.Part.{Part, first_part};
ghost use Rattle.heap_world.specs.Sound.{IsSound};
ghost use Rattle.heap_world.specs.declared.command.Verb.{Verb};

/// Each process is sound: it is at first, every command and every fork keeps it, and a child is as its parent.
pub fn parts_are_sound()
    ensures first { (budget number : ℕ) → 1 ≤ budget → budget ≤ most_regions → number ≤ number_limit → IsSound (first_part budget number) }
    ensures act { (p : Part) (v : Verb) → HasFewFields v → IsSound p → IsSound (act p v).part }
    ensures fork { (p : Part) → p.graph.sealed ≡ true → IsSound p → IsSound (fork_part p).part }
    ensures child { (p : Part) → IsSound p → IsSound (record p { graph = child_of p.graph }) }
{}

/// Sizes and counts have bounds: the bytes of the image, of the zygote window and of young objects, the regions, the
/// number of objects and the bytes of each, the pages of promoted objects and the touched pages.
pub fn sizes_are_bounded()
    ensures image { (g : Graph) → IsFormed g → image_fill g ≤ image_length }
    ensures zygote { (g : Graph) → IsFormed g → zygote_fill g ≤ zygote_length }
    ensures young { (g : Graph) → IsFormed g → sum (young_sizes g) ≤ most_regions * region_bytes }
    ensures regions { (g : Graph) → IsFormed g → used g + costs g ≤ most_regions }
    ensures objects { (g : Graph) → IsFormed g → length g.objects < number_limit }
    ensures bytes { (g : Graph) → IsFormed g → All (λ o. unrounded g.classes o.shape ≤ most_array_bytes) g.objects }
    ensures promoted { (g : Graph) → IsFormed g → length (promoted_pages g) ≤ 32768 }
    ensures touched { (p : Part) → IsSound p → length p.touched ≤ 131072 }
{}
