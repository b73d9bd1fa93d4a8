ghost use Rattle.std.specs.Prelude.{◌≡◌, ◌&&◌, ◌∷◌, None, Some, nat_le, if◌then◌else◌};
ghost use Rattle.std.specs.List.{list_all};
ghost use Rattle.script_lang.specs.Forms.{is_digit};
ghost use Rattle.script_lang.specs.Numbers.{count_of, digits_number, number_of, number_up_to};

/// The number that digits write, where all bytes are digits and it fits 64 bits.
fn digits_value(digits: &[u8]) -> Option<u64>
    ensures { result ≡ if list_all is_digit digits.now && nat_le (digits_number digits.now) 18446744073709551615
        then Some (digits_number digits.now) else None }
{
    let mut value: u64 = 0;
    for b in digits {
        if !b.is_ascii_digit() {
            return None;
        }
        value = value.checked_mul(10)?.checked_add(u64::from(*b - b'0'))?;
    }
    Some(value)
}

/// The number of at most 64 bits that the word is: decimal digits without a sign or a leading zero.
pub fn unsigned(word: &[u8]) -> Option<u64>
    ensures { result ≡ number_up_to 18446744073709551615 word.now }
{
    let (first, more) = word.split_first()?;
    if *first != b'0' {
        digits_value(word)
    } else if more.is_empty() {
        Some(0)
    } else {
        None
    }
}

/// The length or the index that the word is: decimal digits without a sign or a leading zero, at most 4,294,967,295.
pub fn count(word: &[u8]) -> Option<u32>
    ensures { result ≡ count_of word.now }
{
    u32::try_from(unsigned(word)?).ok()
}

/// The number below zero that a `-` and the digits are, from -2^63 on.
fn below_zero(digits: &[u8]) -> Option<i64>
    ensures { result ≡ number_of (45 ∷ digits.now) }
{
    let size = unsigned(digits)?;
    if size == 0 {
        None
    } else {
        0_i64.checked_sub_unsigned(size)
    }
}

/// The number from -2^63 to 2^63 - 1 that the word is.
pub(crate) fn number(word: &[u8]) -> Option<i64>
    ensures { result ≡ number_of word.now }
{
    let (first, more) = word.split_first()?;
    if *first == b'-' {
        below_zero(more)
    } else {
        i64::try_from(unsigned(word)?).ok()
    }
}
