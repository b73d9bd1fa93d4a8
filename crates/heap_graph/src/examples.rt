//! The definitions, computed: what they give for small graphs. Each function's contract is an example.
ghost use Rattle.std.specs.Prelude.{◌≡◌, ◌++◌, ◌∷◌, [], true, false, pos, codes};
ghost use Rattle.class_layout.specs.declared.kind.Kind.{Kind};
ghost use Rattle.heap_graph.specs.declared.names.Place.{Place};
ghost use Rattle.heap_graph.specs.declared.names.Shape.{Shape};
ghost use Rattle.heap_graph.specs.declared.names.Content.{Content};
ghost use Rattle.heap_graph.specs.Allocation.{HeapFull, Made, make};
ghost use Rattle.heap_graph.specs.Collection.{collect};
ghost use Rattle.heap_graph.specs.Examples.{arrays, example, only_slot, root_to, roots_from, young};
ghost use Rattle.heap_graph.specs.Fork.{promoted};
ghost use Rattle.heap_graph.specs.Packing.{costs, free, used};

fn unreached_ring()
    ensures { collect (example 3 [] (young 1 (Shape.Instance 2) (only_slot Kind.Ref false (Content.Object 2)) ∷ young 2 (Shape.Instance 2) (only_slot Kind.Ref false (Content.Object 1)) ∷ []))
        ≡ example 3 [] [] }
{}

fn weak_slot()
    ensures cleared { collect (example 3 (root_to (codes "r") 1 ∷ []) (young 1 (Shape.Instance 1) (only_slot Kind.Ref true (Content.Object 2)) ∷ young 2 (Shape.Instance 3) (only_slot Kind.Int false (Content.Number (pos 7))) ∷ []))
        ≡ example 3 (root_to (codes "r") 1 ∷ []) (young 1 (Shape.Instance 1) (only_slot Kind.Ref true Content.Null) ∷ []) }
    ensures kept { let g = example 3 (root_to (codes "r") 1 ∷ root_to (codes "s") 2 ∷ []) (young 1 (Shape.Instance 1) (only_slot Kind.Ref true (Content.Object 2)) ∷ young 2 (Shape.Instance 3) (only_slot Kind.Int false (Content.Number (pos 7))) ∷ []) in
        collect g ≡ g }
{}

fn full_region()
    ensures used { used (example 22 (roots_from 1 21) (arrays 12275 1 21)) ≡ 1 }
    ensures free { free (example 22 (roots_from 1 21) (arrays 12275 1 21)) ≡ 0 }
    ensures one_more { let g = example 22 (roots_from 1 21) (arrays 12275 1 21) in make g (Shape.Array Kind.Byte 12275) [] ≡ HeapFull g 0 1 }
{}

fn room_after_collection()
    ensures { make (example 22 (roots_from 2 20) (arrays 12275 1 21)) (Shape.Array Kind.Byte 12275) []
        ≡ Made (example 23 (roots_from 2 20) (arrays 12275 2 21)) true }
{}

fn large_array()
    ensures made { make (example 1 [] []) (Shape.Array Kind.Byte 12276) []
        ≡ Made (example 2 [] (record { number = 1; shape = Shape.Array Kind.Byte 12276; slots = []; place = Place.Large } ∷ [])) false }
    ensures cost { costs (example 2 [] (record { number = 1; shape = Shape.Array Kind.Byte 12276; slots = []; place = Place.Large } ∷ [])) ≡ 1 }
    ensures used { used (example 2 [] (record { number = 1; shape = Shape.Array Kind.Byte 12276; slots = []; place = Place.Large } ∷ [])) ≡ 0 }
{}

fn promotion()
    ensures first { promoted (example 2 [] (young 1 (Shape.Instance 3) (only_slot Kind.Int false (Content.Number (pos 7))) ∷ []))
        ≡ example 2 [] (record { number = 1; shape = Shape.Instance 3; slots = only_slot Kind.Int false (Content.Number (pos 7)); place = Place.Zygote 0x3000_0000 } ∷ []) }
    ensures second { promoted (example 3 [] (record { number = 1; shape = Shape.Instance 3; slots = only_slot Kind.Int false (Content.Number (pos 7)); place = Place.Zygote 0x3000_0000 } ∷ young 2 (Shape.Instance 3) (only_slot Kind.Int false (Content.Number (pos 8))) ∷ []))
        ≡ example 3 [] (record { number = 1; shape = Shape.Instance 3; slots = only_slot Kind.Int false (Content.Number (pos 7)); place = Place.Zygote 0x3000_0000 } ∷ record { number = 2; shape = Shape.Instance 3; slots = only_slot Kind.Int false (Content.Number (pos 8)); place = Place.Zygote 0x3000_1000 } ∷ []) }
{}
