//! The definitions, computed: some wide dumps, converted.
ghost use Rattle.std.specs.Prelude.{◌≡◌, [], ◌∷◌, None, Some, length};
ghost use Rattle.hprof_records.specs.declared.top_record.TopRecord.TheVariants.{Other};
ghost use Rattle.hprof_records.specs.Records.{dump_bytes};
ghost use Rattle.hprof_wide.specs.Records.{wide_dump_bytes};
ghost use Rattle.hprof_wide.specs.Dump.{text_2};
ghost use Rattle.hprof_wide.specs.Examples as wide;
ghost use Rattle.hprof_convert.specs.Converted.{converted};
ghost use Rattle.hprof_convert.specs.Missing.{missing_layout};
ghost use Rattle.hprof_convert.specs.Examples as example;

fn one_string()
    ensures records { converted 8 wide.one_string ≡ example.one_string }
    ensures count { length (dump_bytes 0 example.one_string) ≡ 45 }
{}

fn loop_of_one()
    ensures laid_out { missing_layout 8 wide.loop_of_one ≡ None }
    ensures records { converted 8 wide.loop_of_one ≡ example.loop_of_one }
    ensures count { length (dump_bytes 0 example.loop_of_one) ≡ 109 }
{}

fn no_class()
    ensures count { length (wide_dump_bytes text_2 8 0 example.no_class) ≡ 73 }
    ensures missing { missing_layout 8 example.no_class ≡ Some 40 }
{}

fn end_of_a_heap_dump()
    ensures { converted 8 example.an_end ≡ Other 0 0x2c [] ∷ [] }
{}
