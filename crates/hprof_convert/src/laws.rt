//! Laws above the definitions.
ghost use Rattle.std.specs.Prelude.{◌≡◌, ◌≢◌, ℕ, ◌<◌, ◌≤◌, ◌^◌, List, ◌++◌, map, length, Some, Contains};
ghost use Rattle.std.specs.List.{flat_map};
ghost use Rattle.hprof_wide.specs.declared.wide_sub.WideSub.{WideSub};
ghost use Rattle.hprof_wide.specs.declared.wide_top.WideTop.{WideTop};
ghost use Rattle.dump_graph.specs.Classes.{classes, layout};
ghost use Rattle.dump_graph.specs.Graph.{parts};
ghost use Rattle.dump_graph.specs.References.{references};
ghost use Rattle.hprof_convert.specs.Names.{rename, IsAmong};
ghost use Rattle.hprof_convert.specs.Identifiers.{ids_of};
ghost use Rattle.hprof_convert.specs.Values.{ids_in};
ghost use Rattle.hprof_convert.specs.Layouts.{wide_parts, wide_classes};
ghost use Rattle.hprof_convert.specs.Instances.{renamed_typed, values_read, wide_values_read};
ghost use Rattle.hprof_convert.specs.Converted.{converted, converted_part, names_of, renamed_class};

/// The new identifiers of a dump: 0 stays 0, different ones stay different, the others get the numbers from 1 to their
/// count, each is used, and what appears first before another one does gets the lower number.
pub fn renamed_names()
    ensures zero { (w : ℕ) (records : List WideTop) → rename (names_of w records) 0 ≡ 0 }
    ensures injective { (w a b : ℕ) (records : List WideTop) → IsAmong (ids_of w records) a → IsAmong (ids_of w records) b → rename (names_of w records) a ≡ rename (names_of w records) b → a ≡ b }
    ensures numbered { (w id : ℕ) (records : List WideTop) → Contains (ids_of w records) id → id ≢ 0 → (1 ≤ rename (names_of w records) id) × (rename (names_of w records) id ≤ length (names_of w records)) }
    ensures used { (w n : ℕ) (records : List WideTop) → 1 ≤ n → n ≤ length (names_of w records) → (id : ℕ) × (Contains (ids_of w records) id × (rename (names_of w records) id ≡ n)) }
    ensures in_order { (w a b : ℕ) (records : List WideTop) (before after : List ℕ) → ids_of w records ≡ before ++ after → Contains before a → (Contains before b → ⊥) → Contains after b → a ≢ 0 → b ≢ 0 → rename (names_of w records) a < rename (names_of w records) b }
{}

/// The parts of the converted records are those of the records in the same order, converted one by one. So its class
/// dumps tell the same classes, renamed.
pub fn parts_are_converted()
    ensures parts { (w : ℕ) (records : List WideTop) → parts (converted w records) ≡ map (converted_part w (wide_classes records) (names_of w records)) (wide_parts records) }
    ensures classes { (w : ℕ) (records : List WideTop) → classes (parts (converted w records)) ≡ map (renamed_class (names_of w records)) (wide_classes records) }
{}

/// What a reader of the converted records finds in an instance. The fields of its class and of its superclasses have the
/// same types in the same order. Its bytes, cut by these types with identifiers of 4 bytes, are its values before the
/// conversion, each identifier renamed and all else the same. So what it refers to is what it referred to, renamed.
pub fn values_are_renamed()
    ensures layout { (w class : ℕ) (records : List WideTop) → IsAmong (ids_of w records) class → layout (classes (parts (converted w records))) (rename (names_of w records) class) ≡ layout (wide_classes records) class }
    ensures values { (w : ℕ) (records : List WideTop) (part : WideSub) (values : List (ℕ × List ℕ)) → Contains (wide_parts records) part → wide_values_read w (wide_classes records) part ≡ Some values → values_read (classes (parts (converted w records))) (converted_part w (wide_classes records) (names_of w records) part) ≡ Some (map (renamed_typed w (names_of w records)) values) }
    ensures references { (w : ℕ) (records : List WideTop) (part : WideSub) (values : List (ℕ × List ℕ)) → Contains (wide_parts records) part → wide_values_read w (wide_classes records) part ≡ Some values → length (names_of w records) < 2 ^ 32 → references (classes (parts (converted w records))) (converted_part w (wide_classes records) (names_of w records) part) ≡ map (rename (names_of w records)) (flat_map (ids_in w) values) }
{}
