//! The definitions, computed: the bytes of some wide records.
ghost use Rattle.std.specs.Prelude.{◌≡◌, None, Some, length};
ghost use Rattle.hprof_wide.specs.declared.wide_sub.WideSub.TheVariants.{Root};
ghost use Rattle.hprof_wide.specs.Parts.{wide_part_bytes};
ghost use Rattle.hprof_wide.specs.Records.{wide_dump_bytes};
ghost use Rattle.hprof_wide.specs.Dump.{text_2, text_3};
ghost use Rattle.hprof_wide.specs.Examples as example;

fn one_string()
    ensures bytes { wide_dump_bytes text_3 8 0 example.one_string ≡ example.one_string_bytes }
    ensures count { length example.one_string_bytes ≡ 49 }
{}

fn loop_of_one()
    ensures count { length (wide_dump_bytes text_2 8 0 example.loop_of_one) ≡ 153 }
{}

// The further field of a global reference is an identifier, and that of a native stack isn't.
fn roots_with_one_field()
    ensures global_reference { length (wide_part_bytes 8 (Root 0x01 1 (Some 2) None)) ≡ 17 }
    ensures native_stack { length (wide_part_bytes 8 (Root 0x04 1 (Some 2) None)) ≡ 13 }
{}
