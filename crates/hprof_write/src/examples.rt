//! The definitions, computed: the records of small dumps, and lines of a table.
ghost use Rattle.std.specs.Prelude.{◌≡◌, ◌+◌, ◌*◌, ◌++◌, ◌∷◌, [], codes};
ghost use Rattle.hprof_records.specs.Examples as records;
ghost use Rattle.model_numbers.specs.Numbers.{image_base};
ghost use Rattle.hprof_write.specs.Examples.{bare_process, one_of_each, process_of, segment_lengths, two_classes};
ghost use Rattle.hprof_write.specs.Objects.{dumped_places, values_bytes};
ghost use Rattle.hprof_write.specs.TableText.{table_line};
ghost use Rattle.hprof_write.specs.Written.{written};

fn built_in_classes()
    ensures { written bare_process (λ n. 0) ≡ records.built_in }
{}

fn segments_of_129_objects()
    ensures { segment_lengths (written (process_of 129) (λ n. image_base + 8 * n)) ≡ 2324 ∷ 26 ∷ [] }
{}

fn own_fields_first()
    ensures { values_bytes (λ n. 0) one_of_each (dumped_places two_classes 3) ≡ 2 ∷ 0 ∷ 0 ∷ 0 ∷ 1 ∷ [] }
{}

fn first_line()
    ensures { table_line 1 0x2000_0000 ≡ codes "#1 0x20000000" ++ 10 ∷ [] }
{}
