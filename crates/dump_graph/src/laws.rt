//! Laws above the definitions: what they say, in other words.
ghost use Rattle.std.specs.Prelude.{◌≡◌, ℕ, List, map, nat_eq, Some};
ghost use Rattle.std.specs.List.{flat_map, IsDistinct};
ghost use Rattle.dump_graph.specs.Classes.{Class, layout};
ghost use Rattle.dump_graph.specs.Superclasses.{LeadUp};

/// A class has a layout exactly where the first class dumps lead from it up to superclass 0. Then they are of different
/// classes, each the superclass of the one before, and their codes stand one class behind the other.
pub fn layouts_lead_up()
    ensures layout { (known : List Class) (id : ℕ) (line : List Class) → LeadUp known id line → layout known id ≡ Some (flat_map (λ c. c.codes) line) }
    ensures line { (known : List Class) (id : ℕ) (codes : List ℕ) → layout known id ≡ Some codes
        → (line : List Class) × (LeadUp known id line × IsDistinct nat_eq (map (λ c. c.id) line) × (codes ≡ flat_map (λ c. c.codes) line)) }
{}
