//! The input: it is taken piece by piece, up to its end or its limit, and kept.
ghost use Rattle.std.specs.Prelude.{◌≡◌, ◌<◌, ◌≤◌, ℕ, List, Option, false, true, length, MatchResult, IfOk, OnOk};
ghost use Rattle.model_numbers.specs.Numbers.{input_limit, piece_bytes};
ghost use Rattle.job_status.specs.Inputs.{NothingLeft};
ghost use Rattle.job_status.specs.Status.{stop_status};
ghost use Rattle.read_job.specs.Ends.{EndedRead, Streams, TookAll, streams_of};
ghost use Rattle.read_job.specs.Taking.{HasTaken};
ghost use Rattle.read_job.specs.declared.question.Question.{Question};

use ah_outside::Source;
use job_status::Stop;
use model_numbers::{INPUT_LIMIT, PIECE_BYTES};
use std::alloc::Global;

/// Takes a piece of the input and puts it behind the text. Tells whether there may be more.
fn take_piece<S: Source>(source: &mut S, buf: &mut [u8], text: &mut Vec<u8>) -> Result<bool, Stop>
    requires some { 0 < length buf.old }
    requires piece { length buf.old ≤ piece_bytes }
    requires fits { length text.old.items ≤ input_limit }
    ensures buf { length buf.new ≡ length buf.old }
    ensures fits { OnOk result (length text.new.items ≤ input_limit) }
    ensures more { IfOk result (λ more. more ≡ true → length text.old.items < length text.new.items) }
    ensures done { (old : Streams) (held : Option (List ℕ)) (writes : ℕ) → HasTaken text.old.items old (streams_of (S.left source.old) (S.fault_count source.old) held writes) →
        let new = streams_of (S.left source.new) (S.fault_count source.new) held writes in MatchResult result
        (λ more. HasTaken text.new.items old new × (more ≡ false → NothingLeft new.left))
        (λ stop. (question : Question) → EndedRead question (stop_status stop) old new) }
    ensures never_falls { S.fault_count source.old ≤ S.fault_count source.new }
{
    let Ok(count) = source.take(buf) else {
        return Err(Stop::Read);
    };
    let taken = &buf[..count];
    if taken.len() > INPUT_LIMIT - text.len() {
        return Err(Stop::TooLong);
    }
    text.extend_from_slice(taken)?;
    Ok(count > 0)
}

/// Takes the whole input.
pub(crate) fn take_input<S: Source>(alloc: Global, source: &mut S) -> Result<Vec<u8>, Stop>
    ensures done { (held : Option (List ℕ)) (writes : ℕ) →
        let old = streams_of (S.left source.old) (S.fault_count source.old) held writes in
        let new = streams_of (S.left source.new) (S.fault_count source.new) held writes in MatchResult result
        (λ text. TookAll text.items old new)
        (λ stop. (question : Question) → EndedRead question (stop_status stop) old new) }
    ensures never_falls { S.fault_count source.old ≤ S.fault_count source.new }
{
    let mut text = Vec::new(alloc);
    let mut buf = [0; PIECE_BYTES];
    while take_piece(source, &mut buf, &mut text)? {}
    Ok(text)
}
