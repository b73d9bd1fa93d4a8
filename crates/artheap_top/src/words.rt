ghost use Rattle.std.specs.Prelude.{◌≡◌, ◌<◌, ◌≤◌, map, string_bytes, IfSome};
ghost use Rattle.std.specs.Option.{option_copied};
ghost use Rattle.model_numbers.specs.Numbers.{most_regions};
ghost use Rattle.artheap_top.specs.Words.{IsPossible, convert_of, digit_value, id_of, job_of, number_within, option_regions, option_time, path_of, read_of, run_job, run_of, soak_job, soak_of};

use model_numbers::{DEFAULT_REGIONS, MOST_REGIONS};
use script_lang::{read_count, read_unsigned};

/// What the words ask for.
#[derive(Clone, Copy, Debug, PartialEq, Eq)]
pub(crate) enum Job {
    /// A script from the source is run, for processes with this budget of regions. Its dumps have this time in their
    /// headers.
    Run {
        regions: u32,
        time: u64,
    },
    /// A dump from the source is read and listed.
    Read,
    /// A dump from the source is read, and a shortest path from a root to the object with this identifier is told.
    Path {
        id: u32,
    },
    /// A wide dump from the source is read, and the dump that it is converted to is put.
    Convert,
    /// A script that is generated from two numbers is run, and a summary put.
    Soak {
        start: u32,
        count: u32,
        regions: u32,
    },
}

/// The number from `least` to `most` that a word is, in decimal digits without a sign or a leading zero.
fn number_within(least: u32, most: u32, word: &[u8]) -> Option<u32>
    ensures number { result ≡ number_within least most word.now }
    ensures within { IfSome result (λ n. (least ≤ n) × (n ≤ most)) }
{
    read_count(word).filter(|number| least <= *number && *number <= most)
}

/// The regions that the last words ask for.
fn option_regions(words: &[String]) -> Option<u32>
    ensures regions { result ≡ option_regions (map string_bytes words.now) }
    ensures few { IfSome result (λ n. (1 ≤ n) × (n ≤ most_regions)) }
{
    match words {
        [] => Some(DEFAULT_REGIONS),
        [word, number] if word.as_bytes() == b"--regions".as_slice() => {
            number_within(1, MOST_REGIONS, number.as_bytes())
        }
        _ => None,
    }
}

/// The time that the last words ask for.
fn option_time(words: &[String]) -> Option<u64>
    ensures time { result ≡ option_time (map string_bytes words.now) }
{
    match words {
        [] => Some(0),
        [word, number] if word.as_bytes() == b"--time".as_slice() => {
            read_unsigned(number.as_bytes())
        }
        _ => None,
    }
}

/// The run that the words behind `run` ask for.
fn run_job(words: &[String]) -> Option<Job>
    ensures job { result ≡ run_job (map string_bytes words.now) }
    ensures possible { IfSome result IsPossible }
{
    match words {
        [word, number, more @ ..] if word.as_bytes() == b"--regions".as_slice() => {
            let regions = number_within(1, MOST_REGIONS, number.as_bytes())?;
            let time = option_time(more)?;
            Some(Job::Run { regions, time })
        }
        _ => {
            let time = option_time(words)?;
            Some(Job::Run {
                regions: DEFAULT_REGIONS,
                time,
            })
        }
    }
}

/// The reading that is asked for where no word stands behind `read`.
fn read_of(words: &[String]) -> Option<Job>
    ensures job { result ≡ read_of (map string_bytes words.now) }
    ensures possible { IfSome result IsPossible }
{
    match words {
        [] => Some(Job::Read),
        _ => None,
    }
}

/// The number that a digit of base 16 stands for, in lower case.
fn digit_value(digit: u8) -> Option<u32>
    ensures value { result ≡ digit_value digit }
    ensures below { IfSome result (λ value. value < 16) }
{
    match digit {
        b'0'..=b'9' => Some(u32::from(digit - b'0')),
        b'a'..=b'f' => Some(u32::from(digit - b'a') + 10),
        _ => None,
    }
}

/// The identifier that a word of 8 digits of base 16 tells.
fn id_of(word: &[u8]) -> Option<u32>
    ensures { result ≡ id_of word.now }
{
    if word.len() != 8 {
        return None;
    }
    let mut id = 0;
    for digit in word {
        id = id * 16 + digit_value(*digit)?;
    }
    Some(id)
}

/// The telling of a path that the words behind `path` ask for.
fn path_of(words: &[String]) -> Option<Job>
    ensures job { result ≡ path_of (map string_bytes words.now) }
    ensures possible { IfSome result IsPossible }
{
    match words {
        [word] => {
            let id = id_of(word.as_bytes())?;
            Some(Job::Path { id })
        }
        _ => None,
    }
}

/// The conversion that is asked for where no word stands behind `convert`.
fn convert_of(words: &[String]) -> Option<Job>
    ensures job { result ≡ convert_of (map string_bytes words.now) }
    ensures possible { IfSome result IsPossible }
{
    match words {
        [] => Some(Job::Convert),
        _ => None,
    }
}

/// The soak that the words behind `soak` ask for.
fn soak_job(words: &[String]) -> Option<Job>
    ensures job { result ≡ soak_job (map string_bytes words.now) }
    ensures possible { IfSome result IsPossible }
{
    match words {
        [start, count, more @ ..] => {
            let start = number_within(0, 2_147_483_647, start.as_bytes())?;
            let count = number_within(0, 1_000_000, count.as_bytes())?;
            let regions = option_regions(more)?;
            Some(Job::Soak {
                start,
                count,
                regions,
            })
        }
        _ => None,
    }
}

/// The job that the words ask for, or `None` where they have no form.
pub(crate) fn job_of(words: &[String]) -> Option<Job>
    ensures job { result ≡ job_of (map string_bytes words.now) }
    ensures possible { IfSome result IsPossible }
{
    let (word, more) = words.split_first()?;
    if word.as_bytes() == b"run".as_slice() {
        run_job(more)
    } else if word.as_bytes() == b"read".as_slice() {
        read_of(more)
    } else if word.as_bytes() == b"path".as_slice() {
        path_of(more)
    } else if word.as_bytes() == b"convert".as_slice() {
        convert_of(more)
    } else if word.as_bytes() == b"soak".as_slice() {
        soak_job(more)
    } else {
        None
    }
}
