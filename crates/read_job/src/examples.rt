//! The lines that tell faults, computed. The functions' contracts have the examples.
ghost use Rattle.std.specs.Prelude.{◌≡◌, codes};
ghost use Rattle.read_job.specs.Ends.{fault_line, numbered_line, wide_fault_line};

use hprof_read::ReadError;
use hprof_wide::WideError;

fn each_fault()
    ensures magic { fault_line (ReadError.Magic 0) ≡ codes "not a dump: H1 at 0\n" }
    ensures id_size { fault_line (ReadError.IdSize 19) ≡ codes "not a dump: H2 at 19\n" }
    ensures cut_short { fault_line (ReadError.CutShort 46) ≡ codes "not a dump: H3 at 46\n" }
    ensures unknown_tag { fault_line (ReadError.UnknownTag 1000) ≡ codes "not a dump: H4 at 1000\n" }
    ensures past_end { fault_line (ReadError.PastEnd 31) ≡ codes "not a dump: H5 at 31\n" }
    ensures bad_type { fault_line (ReadError.BadType 268435455) ≡ codes "not a dump: H6 at 268435455\n" }
{}

fn each_wide_fault()
    ensures magic { wide_fault_line (WideError.Magic 0) ≡ codes "not a dump: H1 at 0\n" }
    ensures id_size { wide_fault_line (WideError.IdSize 19) ≡ codes "not a dump: H2 at 19\n" }
    ensures cut_short { wide_fault_line (WideError.CutShort 46) ≡ codes "not a dump: H3 at 46\n" }
    ensures unknown_tag { wide_fault_line (WideError.UnknownTag 1000) ≡ codes "not a dump: H4 at 1000\n" }
    ensures past_end { wide_fault_line (WideError.PastEnd 31) ≡ codes "not a dump: H5 at 31\n" }
    ensures bad_type { wide_fault_line (WideError.BadType 268435455) ≡ codes "not a dump: H6 at 268435455\n" }
{}

fn missing_layout()
    ensures { numbered_line 7 40 ≡ codes "not a dump: H7 at 40\n" }
{}
