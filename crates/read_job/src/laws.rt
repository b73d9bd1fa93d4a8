ghost use Rattle.std.specs.Prelude.{◌≡◌, ◌⊎◌, ℕ, List};
ghost use Rattle.read_job.specs.Ends.{IsTold, TellsFault};
ghost use Rattle.read_job.specs.declared.question.Question.{Question};
ghost use Rattle.read_job.specs.declared.question.Question.TheVariants.{Converted, Listing};

use hprof_read::{first_faults, no_fault_in_dumps, one_list};
use hprof_wide::{first_wide_faults, no_fault_in_wide_dumps, one_wide_list};

/// What is put is determined by the question and the text: there is one answer or one line of a fault for it, and not both.
pub fn one_answer()
    ensures same { (question : Question) (text put other : List ℕ) → IsTold question text put ⊎ TellsFault question text put → IsTold question text other ⊎ TellsFault question text other → put ≡ other }
    ensures apart { (question : Question) (text put other : List ℕ) → IsTold question text put → TellsFault question text other → ⊥ }
{
    one_list();
    first_faults();
    no_fault_in_dumps();
    one_wide_list();
    first_wide_faults();
    no_fault_in_wide_dumps();
}

/// What a wide dump is converted to is a dump: it has a listing.
pub fn conversions_are_dumps()
    ensures { (text put : List ℕ) → IsTold Converted text put → (listed : List ℕ) × IsTold Listing put listed }
{}
