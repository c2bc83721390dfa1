ghost use Rattle.std.specs.Prelude.{◌≡◌, ◌==◌, ◌≤◌, ◌<◌, ◌^◌, length, IfOk, IfSome, nat_lt, if◌then◌else◌, Some, None, false, true, drop, option_map};
ghost use Rattle.std.specs.Option.{option_copied};
ghost use Rattle.std.specs.List.{list_all, zip};
ghost use Rattle.kql_filter.specs.Words.{is_digit, is_word_byte, lower, is_word_of, is_keyword, value_of, are_digits, positive_of, negative_of, number_of};
ghost use Rattle.kql_filter.specs.Lexing.{Gives, after_byte as byted, after_spaces as skipped, after_gap as gapped, after_word as worded, after_prefix as prefixed, after_joint as jointed, run_len as run_length, word_at as word_read, number_at as number_read, quoted_from};

use crate::tree::FilterError;
use plain_data::List;
use std::alloc::Global;

pub fn after_byte(bytes: &[u8], byte: u8) -> Option<&[u8]>
    ensures rest { option_copied result ≡ byted byte bytes.now }
    ensures shorter { IfSome result (λ r. length r.now < length bytes.now) }
{
    match bytes {
        [first, rest @ ..] if *first == byte => Some(rest),
        _ => None,
    }
}

pub fn after_spaces(bytes: &[u8]) -> &[u8]
    ensures rest { result.now ≡ skipped bytes.now }
    ensures shorter { length result.now ≤ length bytes.now }
{
    let mut rest = bytes;
    while let [b' ', more @ ..] = rest {
        rest = more;
    }
    rest
}

pub fn after_gap(bytes: &[u8]) -> Option<&[u8]>
    ensures rest { option_copied result ≡ gapped bytes.now }
    ensures shorter { IfSome result (λ r. length r.now < length bytes.now) }
{
    match bytes {
        [b' ', rest @ ..] => Some(after_spaces(rest)),
        _ => None,
    }
}

fn lower_of(b: u8) -> u8
    ensures { result ≡ lower b }
{
    match b {
        b'A'..=b'Z' => b + 32,
        _ => b,
    }
}

fn spells(text: &[u8], word: &[u8]) -> bool
    ensures { result ≡ is_word_of word.now text.now }
{
    text.len() == word.len() && matches_word(text, word)
}

fn matches_word(text: &[u8], word: &[u8]) -> bool
    ensures { result ≡ list_all (λ p. lower p.0 == p.1) (zip text.now word.now) }
{
    text.iter().zip(word).all(|(a, b)| lower_of(*a) == *b)
}

pub fn after_word<'a>(bytes: &'a [u8], word: &[u8]) -> Option<&'a [u8]>
    ensures rest { option_copied result ≡ worded word.now bytes.now }
    ensures shorter { IfSome result (λ r. length r.now ≤ length bytes.now) }
{
    let (front, rest) = bytes.split_at_checked(word.len())?;
    spells(front, word).then_some(rest)
}

pub fn after_prefix<'a>(bytes: &'a [u8], word: &[u8]) -> Option<&'a [u8]>
    ensures rest { option_copied result ≡ prefixed word.now bytes.now }
    ensures shorter { IfSome result (λ r. length r.now < length bytes.now) }
{
    after_gap(after_word(bytes, word)?)
}

pub fn after_joint<'a>(bytes: &'a [u8], word: &[u8]) -> Option<&'a [u8]>
    ensures rest { option_copied result ≡ jointed word.now bytes.now }
    ensures shorter { IfSome result (λ r. length r.now < length bytes.now) }
{
    after_prefix(after_gap(bytes)?, word)
}

fn is_word_char(b: u8) -> bool
    ensures { result ≡ is_word_byte b }
{
    b.is_ascii_alphanumeric() || matches!(b, b'_' | b'-' | b'.')
}

fn run_len(bytes: &[u8]) -> usize
    ensures run { result ≡ run_length bytes.now }
    ensures within { result ≤ length bytes.now }
{
    bytes.iter().take_while(|b| is_word_char(**b)).count()
}

fn is_reserved(word: &[u8]) -> bool
    ensures { result ≡ is_keyword word.now }
{
    spells(word, b"or") || spells(word, b"and") || spells(word, b"not")
}

/// A word and what follows it.
pub fn word_at(bytes: &[u8]) -> Option<(&[u8], &[u8])>
    ensures read { option_map (λ x. (x.0.now, x.1.now)) result ≡ word_read bytes.now }
    ensures shorter { IfSome result (λ x. length x.1.now ≤ length bytes.now) }
{
    let (run, rest) = bytes.split_at(run_len(bytes));
    if run.is_empty() || is_reserved(run) {
        return None;
    }
    Some((run, rest))
}

fn digits_value(digits: &[u8]) -> Option<u64>
    requires { list_all is_digit digits.now ≡ true }
    ensures { result ≡ (if nat_lt (value_of digits.now) (2 ^ 64) then Some (value_of digits.now) else None) }
{
    let mut n = 0u64;
    for digit in digits {
        n = n.checked_mul(10)?.checked_add(u64::from(*digit - b'0'))?;
    }
    Some(n)
}

fn all_digits(text: &[u8]) -> bool
    ensures { result ≡ are_digits text.now }
{
    !text.is_empty() && text.len() <= 20 && has_digits_only(text)
}

fn has_digits_only(text: &[u8]) -> bool
    ensures { result ≡ list_all is_digit text.now }
{
    text.iter().all(|b| b.is_ascii_digit())
}

fn positive(digits: &[u8]) -> Option<i128>
    ensures { result ≡ positive_of digits.now }
{
    if !all_digits(digits) {
        return None;
    }
    digits_value(digits).map(i128::from)
}

fn negative(digits: &[u8]) -> Option<i128>
    ensures { result ≡ negative_of digits.now }
{
    if !all_digits(digits) {
        return None;
    }
    match digits_value(digits) {
        Some(n) if n <= 1 << 63 => Some(-i128::from(n)),
        _ => None,
    }
}

/// The whole number that a text writes.
pub fn number(text: &[u8]) -> Option<i128>
    ensures { result ≡ number_of text.now }
{
    match text {
        [b'-', digits @ ..] => negative(digits),
        _ => positive(text),
    }
}

/// A number and what follows it.
pub fn number_at(bytes: &[u8]) -> Option<(i128, &[u8])>
    ensures read { option_map (λ x. (x.0, x.1.now)) result ≡ number_read bytes.now }
    ensures shorter { IfSome result (λ x. length x.1.now ≤ length bytes.now) }
{
    let (run, rest) = bytes.split_at(run_len(bytes));
    Some((number(run)?, rest))
}

/// A text up to its closing quote, and what follows it.
pub fn quoted(alloc: Global, bytes: &[u8]) -> Result<(List<u8>, &[u8]), FilterError>
    ensures read { Gives (λ x. (x.0, x.1.now)) result (quoted_from false bytes.now) }
    ensures shorter { IfOk result (λ x. length x.1.now ≤ length bytes.now) }
{
    let mut text = List::new(alloc);
    let mut escaped = false;
    for (i, b) in bytes.iter().enumerate() {
        match (escaped, *b) {
            (false, b'"') => return Ok((text, &bytes[i + 1..])),
            (false, b'\\') => escaped = true,
            (true, b'"' | b'\\') | (false, _) => {
                text.push(*b)?;
                escaped = false;
            }
            (true, _) => return Err(FilterError::BadFilter),
        }
    }
    Err(FilterError::BadFilter)
}
