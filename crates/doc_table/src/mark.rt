ghost use Rattle.std.specs.Prelude.{◌≡◌, ◌≤◌, ◌+◌, ◌*◌, ◌^◌, drop, length, slice_index};
ghost use Rattle.std.specs.Ordering.{nat_cmp, ordering_then};
ghost use Rattle.doc_table.specs.Marks.{mark_of, IsMarkOf};

use std::cmp::Ordering;

/// The first 32 bytes of a text as two numbers, where a byte that is missing counts as 0. Marks that
/// differ have the order of their texts.
#[derive(Clone, Copy, Debug)]
pub struct Mark {
    pub first: u128,
    pub second: u128,
}

/// The first 8 bytes as a number.
#[inline]
fn whole_word(bytes: &[u8]) -> u64
    requires { 8 ≤ length bytes.now }
    ensures { result ≡ mark_of 8 bytes.now }
{
    u64::from_be_bytes([
        bytes[0], bytes[1], bytes[2], bytes[3], bytes[4], bytes[5], bytes[6], bytes[7],
    ])
}

/// The byte at an index, or 0 past the end.
fn byte_at(bytes: &[u8], at: usize) -> u8
    ensures { result ≡ slice_index bytes.now at }
{
    match bytes.get(at) {
        Some(byte) => *byte,
        None => 0,
    }
}

/// The first 8 bytes as a number, where a byte that is missing counts as 0.
fn short_word(bytes: &[u8]) -> u64
    ensures { result ≡ mark_of 8 bytes.now }
{
    let mut number: u64 = 0;
    for i in 0..8 {
        let byte = byte_at(bytes, i);
        number = number * 256 + u64::from(byte);
    }
    number
}

/// The 8 bytes from an index on as a number, where a byte that is missing counts as 0.
#[inline]
pub fn word_at(bytes: &[u8], from: usize) -> u64
    ensures { result ≡ mark_of 8 (drop from bytes.now) }
{
    if from >= bytes.len() {
        return 0;
    }
    let rest = &bytes[from..];
    if rest.len() >= 8 {
        whole_word(rest)
    } else {
        short_word(rest)
    }
}

/// Two words as one number.
fn joined(high: u64, low: u64) -> u128
    ensures { result ≡ high * 256 ^ 8 + low }
{
    u128::from(high) * 0x1_0000_0000_0000_0000 + u128::from(low)
}

impl Mark {
    /// The mark of a text.
    pub fn of(raw: &str) -> Mark
        ensures { IsMarkOf result raw.now }
    {
        let bytes = raw.as_bytes();
        let first = joined(word_at(bytes, 0), word_at(bytes, 8));
        let second = joined(word_at(bytes, 16), word_at(bytes, 24));
        Mark { first, second }
    }
}

/// The order of two marks.
pub fn compare_marks(mark: Mark, other: Mark) -> Ordering
    ensures { result ≡ ordering_then (nat_cmp mark.first other.first) (nat_cmp mark.second other.second) }
{
    match mark.first.cmp(&other.first) {
        Ordering::Less => Ordering::Less,
        Ordering::Equal => mark.second.cmp(&other.second),
        Ordering::Greater => Ordering::Greater,
    }
}
