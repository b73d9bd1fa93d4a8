//! Words of 64 numbers each, the least of them in the lowest bit.
ghost use Rattle.std.specs.Prelude.{◌*◌, ◌^◌, ◌<◌, ◌≤◌, length, IfSome, IfNone};
ghost use Rattle.bit_set.specs.Bits.{has_bit, has_number};
ghost use Rattle.bit_set.specs.Tests.{NoneFrom, NoneBelow, IsLeastFrom, IsGreatestBelow};

fn lowest_bit(word: u64) -> usize
    requires { 0 < word }
    ensures below { result < 64 }
    ensures least { IsLeastFrom (has_bit word) 0 result }
{
    word.trailing_zeros() as usize
}

fn highest_bit(word: u64) -> usize
    requires { 0 < word }
    ensures { IsGreatestBelow (has_bit word) 64 result }
{
    63 - word.leading_zeros() as usize
}

/// The least number at or above `n` that the words have.
pub(crate) fn next_from(words: &[u64], n: usize) -> Option<usize>
    requires { length words.now ≤ 2 ^ 26 }
    ensures found { IfSome result (IsLeastFrom (has_number words.now) n) }
    ensures none { IfNone result (NoneFrom (has_number words.now) n) }
{
    let first = n / 64;
    if first >= words.len() {
        return None;
    }
    let high = words[first] >> (n % 64);
    if high != 0 {
        return Some(n + lowest_bit(high));
    }
    first_in(words, first + 1)
}

/// The least number that the words from `first` on have.
fn first_in(words: &[u64], first: usize) -> Option<usize>
    requires few { length words.now ≤ 2 ^ 26 }
    requires within { first ≤ length words.now }
    ensures found { IfSome result (IsLeastFrom (has_number words.now) (64 * first)) }
    ensures none { IfNone result (NoneFrom (has_number words.now) (64 * first)) }
{
    for k in first..words.len() {
        let word = words[k];
        if word != 0 {
            return Some(64 * k + lowest_bit(word));
        }
    }
    None
}

/// The greatest number below `n` that the words have.
pub(crate) fn last_before(words: &[u64], n: usize) -> Option<usize>
    requires { length words.now ≤ 2 ^ 26 }
    ensures found { IfSome result (IsGreatestBelow (has_number words.now) n) }
    ensures none { IfNone result (NoneBelow (has_number words.now) n) }
{
    let last = n / 64;
    if last >= words.len() {
        return last_in(words, words.len());
    }
    let low = words[last] & ((1 << (n % 64)) - 1);
    if low != 0 {
        return Some(64 * last + highest_bit(low));
    }
    last_in(words, last)
}

/// The greatest number that the words before the word `end` have.
fn last_in(words: &[u64], end: usize) -> Option<usize>
    requires few { length words.now ≤ 2 ^ 26 }
    requires within { end ≤ length words.now }
    ensures found { IfSome result (IsGreatestBelow (has_number words.now) (64 * end)) }
    ensures none { IfNone result (NoneBelow (has_number words.now) (64 * end)) }
{
    for k in (0..end).rev() {
        let word = words[k];
        if word != 0 {
            return Some(64 * k + highest_bit(word));
        }
    }
    None
}
