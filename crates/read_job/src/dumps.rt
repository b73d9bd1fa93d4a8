//! The dump that is to be told of a text. The text is let go before it is told, and a wide dump too.
ghost use Rattle.std.specs.Prelude.{◌≡◌, ◌≢◌, ◌<◌, ◌^◌, IfErr, IfOk, None, OnOk};
ghost use Rattle.hprof_convert.specs.Converted.{converted};
ghost use Rattle.hprof_convert.specs.Missing.{IsMissing, missing_layout};
ghost use Rattle.hprof_read.specs.Fault.{IsFirstFault};
ghost use Rattle.hprof_records.specs.Dump.{AreRecords};
ghost use Rattle.hprof_records.specs.Records.{dump_bytes};
ghost use Rattle.hprof_wide.specs.Dump.{AreWideRecords, IsWideDumpOf};
ghost use Rattle.hprof_wide.specs.Fault.{IsFirstWideFault};
ghost use Rattle.hprof_wide.specs.Formed.{IsIdWidth};
ghost use Rattle.read_job.specs.Ends.{IsTold, TellsConverted, TellsDumpFault, TellsFault, line_of};
ghost use Rattle.read_job.specs.Telling.{told_of};
ghost use Rattle.read_job.specs.declared.question.Question.TheVariants.{Converted};

use crate::Question;
use crate::faults::{fault_number, missing_number, wide_fault_number};
use hprof_convert::{ConvertError, convert};
use hprof_read::{Dump, ReadError, read_dump};
use hprof_wide::{WideDump, WideError, read_wide};
use std::alloc::Global;

/// The dump whose bytes a text has.
fn read_text(alloc: Global, text: Vec<u8>) -> Result<Dump, ReadError>
    ensures dump { IfOk result (λ d. (d.time < 2 ^ 64) × AreRecords d.top × (text.items ≡ dump_bytes d.time d.top)) }
    ensures fault { IfErr result (λ e. e ≢ ReadError.OutOfMemory → IsFirstFault e text.items) }
{
    read_dump(alloc, &text)
}

/// The wide dump whose bytes a text has.
fn read_wide_text(alloc: Global, text: Vec<u8>) -> Result<WideDump, WideError>
    ensures dump { IfOk result (λ d. IsWideDumpOf d.width d.time d.top text.items) }
    ensures fault { IfErr result (λ e. e ≢ WideError.OutOfMemory → IsFirstWideFault e text.items) }
{
    read_wide(alloc, &text)
}

/// The dump that a wide dump is converted to.
fn convert_dump(alloc: Global, wide: WideDump) -> Result<Dump, ConvertError>
    requires width { IsIdWidth wide.width }
    requires formed { AreWideRecords wide.width wide.top }
    ensures time { IfOk result (λ d. d.time ≡ wide.time) }
    ensures converted { IfOk result (λ d. d.top ≡ converted wide.width wide.top) }
    ensures formed { IfOk result (λ d. AreRecords d.top) }
    ensures laid_out { OnOk result (missing_layout wide.width wide.top ≡ None) }
    ensures missing { IfErr result (λ e. IsMissing e (missing_layout wide.width wide.top)) }
{
    convert(alloc, &wide)
}

/// The dump whose bytes a text has, or the number of its first fault and the offset. `None` stands for want of memory.
fn dump_in(alloc: Global, text: Vec<u8>) -> Result<Dump, Option<(u8, u64)>>
    ensures dump { IfOk result (λ d. (d.time < 2 ^ 64) × AreRecords d.top × (text.items ≡ dump_bytes d.time d.top)) }
    ensures fault { IfErr result (λ fault. fault ≢ None → TellsDumpFault text.items (line_of fault)) }
{
    match read_text(alloc, text) {
        Ok(dump) => Ok(dump),
        Err(error) => Err(fault_number(error)),
    }
}

/// The dump that a wide dump with these bytes is converted to, or the number of its fault and the offset. `None` stands
/// for want of memory.
fn converted_from(alloc: Global, text: Vec<u8>) -> Result<Dump, Option<(u8, u64)>>
    ensures dump { IfOk result (λ d. AreRecords d.top × TellsConverted text.items (dump_bytes d.time d.top)) }
    ensures fault { IfErr result (λ fault. fault ≢ None → TellsFault Converted text.items (line_of fault)) }
{
    match read_wide_text(alloc, text) {
        Ok(wide) => convert_dump(alloc, wide).map_err(missing_number),
        Err(error) => Err(wide_fault_number(error)),
    }
}

/// The dump that is to be told of a text: the one whose bytes it has, or the one that it is converted to. Where there is
/// none, the number of the text's fault and its offset. `None` stands for want of memory.
pub(crate) fn dump_of(
    alloc: Global,
    question: Question,
    text: Vec<u8>,
) -> Result<Dump, Option<(u8, u64)>>
    ensures dump { IfOk result (λ d. AreRecords d.top × IsTold question text.items (told_of question d.time d.top)) }
    ensures fault { IfErr result (λ fault. fault ≢ None → TellsFault question text.items (line_of fault)) }
{
    match question {
        Question::Listing => dump_in(alloc, text),
        Question::Path { .. } => dump_in(alloc, text),
        Question::Converted => converted_from(alloc, text),
    }
}
