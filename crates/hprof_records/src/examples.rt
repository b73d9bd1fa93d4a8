//! The definitions, computed: the bytes of some records, and which records may stand in a dump.
ghost use Rattle.std.specs.Prelude.{◌≡◌, [], ◌∷◌, None, Some, length};
ghost use Rattle.hprof_records.specs.declared.sub_record.SubRecord.TheVariants.{Root, PrimitiveArray};
ghost use Rattle.hprof_records.specs.Parts.{bytes_of_part, bytes_of_parts};
ghost use Rattle.hprof_records.specs.Records.{dump_bytes};
ghost use Rattle.hprof_records.specs.Formed.{IsPart};
ghost use Rattle.hprof_records.specs.Dump.{IsRecord, IsDump};
ghost use Rattle.hprof_records.specs.Examples as example;

fn weak_reference_class()
    ensures { bytes_of_part example.weak_reference ≡ example.weak_reference_bytes }
{}

fn each_kind_of_part()
    ensures { bytes_of_parts example.parts ≡ example.parts_bytes }
{}

fn small_dump()
    ensures bytes { dump_bytes 0 example.small ≡ example.small_bytes }
    ensures count { length example.small_bytes ≡ 69 }
    ensures formed { IsDump example.small_bytes }
{}

fn built_in_classes()
    ensures { length (dump_bytes 0 example.built_in) ≡ 453 }
{}

fn thread_object()
    ensures formed { IsPart (Root 0x08 1 (Some 2) (Some 3)) }
    ensures one_field { IsPart (Root 0x08 1 (Some 2) None) → ⊥ }
{}

fn one_double()
    ensures formed { IsPart (PrimitiveArray 1 0 7 1 (0 ∷ 0 ∷ 0 ∷ 0 ∷ 0 ∷ 0 ∷ 0 ∷ 0 ∷ [])) }
    ensures four_bytes { IsPart (PrimitiveArray 1 0 7 1 (0 ∷ 0 ∷ 0 ∷ 0 ∷ [])) → ⊥ }
{}

fn segment_length()
    ensures formed { IsRecord (example.array_segment 14) }
    ensures short { IsRecord (example.array_segment 13) → ⊥ }
{}
