//! The definitions, computed: the bytes that `write_bytes` puts for a dump with one string.
ghost use Rattle.std.specs.Prelude.{◌≡◌, length};
ghost use Rattle.hprof_records.specs.Records.{dump_bytes};
ghost use Rattle.hprof_records.specs.Dump.{AreRecords};
ghost use Rattle.hprof_bytes.specs.Examples as example;

fn one_string()
    ensures formed { AreRecords example.one_string }
    ensures bytes { dump_bytes 0 example.one_string ≡ example.one_string_bytes }
    ensures count { length example.one_string_bytes ≡ 45 }
{}
