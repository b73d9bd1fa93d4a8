//! The definitions, computed: what a reader finds in small lists of records.
ghost use Rattle.std.specs.Prelude.{◌≡◌, ◌∷◌, [], None, Some, codes, map, negsuc, pos};
ghost use Rattle.dump_shows.specs.Examples.{one_object, three_heaps};
ghost use Rattle.dump_shows.specs.Reading.{elements_cut, fields_of, objects, string_of, value_named, values_cut};

fn values_of_one_object()
    ensures own { value_named one_object (values_cut (fields_of one_object 0x1000_00c0) (0xfe ∷ 0 ∷ 0 ∷ 0 ∷ 1 ∷ [])) (codes "y") ≡ Some (negsuc 1) }
    ensures inherited { value_named one_object (values_cut (fields_of one_object 0x1000_00c0) (0xfe ∷ 0 ∷ 0 ∷ 0 ∷ 1 ∷ [])) (codes "x") ≡ Some (pos 1) }
    ensures no_other { value_named one_object (values_cut (fields_of one_object 0x1000_00c0) (0xfe ∷ 0 ∷ 0 ∷ 0 ∷ 1 ∷ [])) (codes "z") ≡ None }
{}

fn heaps_of_three_objects()
    ensures heaps { map (λ d. d.heap) (objects three_heaps) ≡ 73 ∷ 65 ∷ 0 ∷ [] }
    ensures names { map (λ d. string_of three_heaps d.heap_name) (objects three_heaps) ≡ Some (codes "image") ∷ Some (codes "app") ∷ None ∷ [] }
    ensures elements { elements_cut 9 2 (0x00 ∷ 0x01 ∷ 0xff ∷ 0xff ∷ []) ≡ pos 1 ∷ negsuc 0 ∷ [] }
{}
