//! Words of a line, and the numbers that they spell. The rest of a line is the bytes after the last
//! space read, or none at the end of the line.

ghost use Rattle.std.specs.Prelude.{◌≡◌, ◌≢◌, ℕ, ◌^◌, ◌≤◌, [], ◌∷◌, IfSome, IfNone, option_map};
ghost use Rattle.std.specs.Fmt.{decimal};
ghost use Rattle.cilk_cert_text.specs.Words.{words, number_of, number_at, value_of, value_at, behind, ended};
ghost use Rattle.cilk_cert_text.specs.Parsing.{words_in};

/// Splits bytes at the first space.
fn cut(bytes: &[u8]) -> (&[u8], Option<&[u8]>)
    ensures { words bytes.now ≡ result.0.now ∷ words_in result.1 }
{
    for (at, byte) in bytes.iter().enumerate() {
        if *byte == b' ' {
            return (&bytes[..at], Some(&bytes[at + 1..]));
        }
    }
    (bytes, None)
}

/// Returns the first word and the rest.
pub fn first<'a>(left: Option<&'a [u8]>) -> Option<(&'a [u8], Option<&'a [u8]>)>
    ensures found { IfSome result (λ r. words_in left.entry ≡ r.0.now ∷ words_in r.1) }
    ensures none { IfNone result (words_in left.entry ≡ []) }
{
    let bytes = left?;
    Some(cut(bytes))
}

/// Returns the rest after this word, if it is the first.
pub(crate) fn after<'a>(word: &[u8], left: Option<&'a [u8]>) -> Option<Option<&'a [u8]>>
    ensures { option_map words_in result ≡ behind word.now (words_in left.entry) }
{
    let (found, rest) = first(left)?;
    if found == word { Some(rest) } else { None }
}

/// Returns the result, if nothing is left.
#[tactic(auto, using(crate::proofs::Cuts::ended_words))]
pub fn alone<T: Copy>(read: T, left: Option<&[u8]>) -> Option<T>
    ensures { result ≡ ended read (words_in left.entry) }
{
    match left {
        None => Some(read),
        Some(_) => None,
    }
}

/// Returns the number with these digits, if it is at most `most` and has no leading zeros.
fn natural(digits: &[u8], most: u64) -> Option<u64>
    requires { most ≤ 2 ^ 63 }
    ensures found { IfSome result (λ n. (n ≤ most) × (digits.now ≡ decimal n)) }
    ensures none { IfNone result ((n : ℕ) → n ≤ most → digits.now ≢ decimal n) }
{
    if digits.is_empty() {
        return None;
    }
    if digits[0] == b'0' {
        return if digits.len() == 1 { Some(0) } else { None };
    }
    let mut value: u64 = 0;
    for digit in digits {
        if !digit.is_ascii_digit() {
            return None;
        }
        if value > 922_337_203_685_477_580 {
            return None;
        }
        value = 10 * value + u64::from(*digit - b'0');
    }
    if value > most { None } else { Some(value) }
}

/// Parses a number of 32 bits.
fn number_in(word: &[u8]) -> Option<u32>
    ensures { result ≡ number_of word.now }
{
    let number = natural(word, u64::from(u32::MAX))?;
    Some(number as u32)
}

/// Parses the first word as a number of 32 bits, and returns the rest.
pub fn number<'a>(left: Option<&'a [u8]>) -> Option<(u32, Option<&'a [u8]>)>
    ensures { option_map (λ r. (r.0, words_in r.1)) result ≡ number_at (words_in left.entry) }
{
    let (word, rest) = first(left)?;
    let number = number_in(word)?;
    Some((number, rest))
}

/// Returns the negative number with these digits.
fn negative(digits: &[u8]) -> Option<i64>
    ensures { result ≡ value_of (45 ∷ digits.now) }
{
    let size = natural(digits, 1 << 63)?;
    if size == 0 {
        return None;
    }
    Some(-1 - (size - 1) as i64)
}

/// Parses a value.
fn value_in(word: &[u8]) -> Option<i64>
    ensures { result ≡ value_of word.now }
{
    if !word.is_empty() && word[0] == b'-' {
        return negative(&word[1..]);
    }
    let size = natural(word, i64::MAX as u64)?;
    Some(size as i64)
}

/// Parses the first word as a value, and returns the rest.
pub(crate) fn value<'a>(left: Option<&'a [u8]>) -> Option<(i64, Option<&'a [u8]>)>
    ensures { option_map (λ r. (r.0, words_in r.1)) result ≡ value_at (words_in left.entry) }
{
    let (word, rest) = first(left)?;
    let value = value_in(word)?;
    Some((value, rest))
}
