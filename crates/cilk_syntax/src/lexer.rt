//! The lexer: from the bytes of a text to its tokens.
//!
//! A text is tokens with gaps between them: blanks, comments, and lines that begin with `#include`
//! or `#pragma`. A word is a maximal run of letters, digits and `_`; it must be a number, a
//! reserved word or a name. Of the marks that fit, the longest is chosen.

ghost use Rattle.std.specs.Prelude.{◌≡◌, ◌≢◌, ℕ, ◌+◌, ◌<◌, ◌≤◌, Bool, true, false, List, ◌∷◌, IfOk, IfErr, IfSome, IfNone, length, None, Some, pos};
ghost use Rattle.cilk_syntax.specs.declared.lexer.LexErrorKind.TheVariants as bads;
ghost use Rattle.cilk_syntax.specs.declared.lexer.Class.TheVariants as classes;
ghost use Rattle.cilk_syntax.specs.declared.token.Kind.{Kind};
ghost use Rattle.cilk_syntax.specs.declared.token.Kind.TheVariants as kinds;
ghost use Rattle.cilk_syntax.specs.declared.token.Token.{Token};
ghost use Rattle.cilk_syntax.specs.Kinds.{spelling, is_reserved};
ghost use Rattle.cilk_syntax.specs.Lexing;
ghost use Rattle.cilk_syntax.specs.Lexing.{behind, front_of, after_close, Directs, NotNext, Spells, is_numeral, value_of, starts_digit, starts_letter};
ghost use Rattle.cilk_syntax.specs.Lexing.{AreTokens};
ghost use Rattle.cilk_syntax.specs.Fronts.{IsBefore, IsFront, IsLexFault};
ghost use Rattle.cilk_syntax.specs.declared.lexer.LexFault.TheVariants.{Memory};

use crate::token::{Kind, Token};
use std::alloc::{AllocError, AllocFailed, Global};
use thiserror::Error;

/// A class of bytes. `Word` holds letters, digits and `_`; `Line` all bytes but LF; `Inline` the
/// blanks but LF; `Solid` all bytes but space, tab, LF and CR.
#[derive(Clone, Copy)]
pub enum Class {
    Word,
    Line,
    Inline,
    Solid,
}

/// The reasons why a text can't be cut into tokens.
#[derive(Clone, Copy, Debug, Error)]
pub enum LexErrorKind {
    #[error("a byte over 127")]
    NotAscii,
    #[error("an unclosed comment")]
    Unclosed,
    #[error("an unknown `#` line")]
    Directive,
    #[error("no number")]
    Numeral,
    #[error("no token")]
    NoToken,
    #[error("a number over 9223372036854775807")]
    TooLarge,
}

/// The first piece of the bytes that are left: a gap, with whether a `#` line may begin after it; a
/// token; or a fault. The slice is the rest.
#[derive(Drop)]
enum Front<'a> {
    Skip(bool, &'a [u8]),
    Word(Kind, &'a [u8]),
    Fault(LexErrorKind),
}

fn is_blank(byte: u8) -> bool
    ensures { result ≡ Lexing.is_blank byte }
{
    byte == b' ' || (byte > 8 && byte < 14)
}

fn is_digit(byte: u8) -> bool
    ensures { result ≡ Lexing.is_digit byte }
{
    byte > 47 && byte < 58
}

fn is_letter(byte: u8) -> bool
    ensures { result ≡ Lexing.is_letter byte }
{
    (byte > 64 && byte < 91) || (byte > 96 && byte < 123) || byte == b'_'
}

/// Tells whether the byte is of the class.
pub fn belongs(class: Class, byte: u8) -> bool
    ensures { result ≡ Lexing.belongs class byte }
{
    match class {
        Class::Word => is_letter(byte) || is_digit(byte),
        Class::Line => byte != 10,
        Class::Inline => byte != 10 && is_blank(byte),
        Class::Solid => !(byte == 32 || byte == 9 || byte == 10 || byte == 13),
    }
}

/// Splits the bytes at the first that isn't of the class.
#[tactic(auto, using(crate::proofs::Words::take_front))]
pub fn split(class: Class, bytes: &[u8]) -> (&[u8], &[u8])
    ensures front { result.0.now ≡ front_of class bytes.now }
    ensures rest { result.1.now ≡ behind class bytes.now }
    ensures shorter { length result.1.now ≤ length bytes.now }
{
    let mut rest = bytes;
    'each: while let [first, tail @ ..] = rest {
        if !belongs(class, *first) {
            return (&bytes[..bytes.len() - rest.len()], rest);
        }
        rest = tail;
    }
    (bytes, rest)
}

/// Returns the bytes after the first `*/`.
fn after_close(bytes: &[u8]) -> Option<&[u8]>
    ensures found { IfSome result (λ rest. after_close bytes.now ≡ Some rest.now) }
    ensures shorter { IfSome result (λ rest. length rest.now ≤ length bytes.now) }
    ensures none { IfNone result (after_close bytes.now ≡ None) }
{
    let mut rest = bytes;
    'each: while let [first, tail @ ..] = rest {
        if *first == b'*' {
            if let Some(after) = strip(b'/', tail) {
                return Some(after);
            }
        }
        rest = tail;
    }
    None
}

/// Returns the bytes after this one, if they begin with it.
fn strip(byte: u8, bytes: &[u8]) -> Option<&[u8]>
    ensures found { IfSome result (λ rest. bytes.now ≡ byte ∷ rest.now) }
    ensures none { IfNone result (NotNext byte bytes.now) }
{
    match bytes {
        [first, rest @ ..] if *first == byte => Some(rest),
        _ => None,
    }
}

/// Reads a line that begins with `#`.
fn directive(fresh: bool, tail: &[u8]) -> Front<'_>
    ensures front { IsFront fresh (35 ∷ tail.now) result }
    ensures shorter { IsBefore (length tail.now + 1) result }
{
    let (_, inner) = split(Class::Inline, tail);
    let (word, _) = split(Class::Word, inner);
    let (_, rest) = split(Class::Line, tail);
    if fresh && directs(word) {
        Front::Skip(false, rest)
    } else {
        Front::Fault(LexErrorKind::Directive)
    }
}

/// Tells whether a `#` line with this word is skipped.
fn directs(word: &[u8]) -> bool
    ensures yes { result ≡ true → Directs word.now }
    ensures no { result ≡ false → Directs word.now → ⊥ }
{
    word == b"include".as_slice() || word == b"pragma".as_slice()
}

/// Reads a comment or the mark `/`.
fn slash(fresh: bool, tail: &[u8]) -> Front<'_>
    ensures front { IsFront fresh (47 ∷ tail.now) result }
    ensures shorter { IsBefore (length tail.now + 1) result }
{
    if let Some(tail) = strip(b'/', tail) {
        let (_, rest) = split(Class::Line, tail);
        return Front::Skip(false, rest);
    }
    if let Some(tail) = strip(b'*', tail) {
        return match after_close(tail) {
            Some(rest) => Front::Skip(false, rest),
            None => Front::Fault(LexErrorKind::Unclosed),
        };
    }
    Front::Word(Kind::Slash, tail)
}

/// Returns the word of C with this spelling.
#[inline(always)]
fn word_of_c(word: &[u8]) -> Option<Kind>
    ensures found { IfSome result (λ k. (word.now ≡ spelling k) × (is_reserved k ≡ true)) }
    ensures none { IfNone result ((word.now ≢ spelling kinds.Int) × (word.now ≢ spelling kinds.Void)
        × (word.now ≢ spelling kinds.If) × (word.now ≢ spelling kinds.Else)
        × (word.now ≢ spelling kinds.While) × (word.now ≢ spelling kinds.For)
        × (word.now ≢ spelling kinds.Return)) }
{
    if word == b"int".as_slice() {
        return Some(Kind::Int);
    }
    if word == b"void".as_slice() {
        return Some(Kind::Void);
    }
    if word == b"if".as_slice() {
        return Some(Kind::If);
    }
    if word == b"else".as_slice() {
        return Some(Kind::Else);
    }
    if word == b"while".as_slice() {
        return Some(Kind::While);
    }
    if word == b"for".as_slice() {
        return Some(Kind::For);
    }
    if word == b"return".as_slice() {
        return Some(Kind::Return);
    }
    None
}

/// Returns the word of Cilk with this spelling.
#[inline(always)]
fn word_of_cilk(word: &[u8]) -> Option<Kind>
    ensures found { IfSome result (λ k. (word.now ≡ spelling k) × (is_reserved k ≡ true)) }
    ensures none { IfNone result ((word.now ≢ spelling kinds.CilkSpawn) × (word.now ≢ spelling kinds.CilkSync)
        × (word.now ≢ spelling kinds.CilkFor) × (word.now ≢ spelling kinds.CilkReducer)) }
{
    if word == b"cilk_spawn".as_slice() {
        return Some(Kind::CilkSpawn);
    }
    if word == b"cilk_sync".as_slice() {
        return Some(Kind::CilkSync);
    }
    if word == b"cilk_for".as_slice() {
        return Some(Kind::CilkFor);
    }
    if word == b"cilk_reducer".as_slice() {
        return Some(Kind::CilkReducer);
    }
    None
}

/// Returns the word of this language alone with this spelling.
#[inline(always)]
fn own_word(word: &[u8]) -> Option<Kind>
    ensures found { IfSome result (λ k. (word.now ≡ spelling k) × (is_reserved k ≡ true)) }
    ensures none { IfNone result ((word.now ≢ spelling kinds.Print) × (word.now ≢ spelling kinds.Update)
        × (word.now ≢ spelling kinds.Set) × (word.now ≢ spelling kinds.Value)
        × (word.now ≢ spelling kinds.Input) × (word.now ≢ spelling kinds.InputCount)) }
{
    if word == b"print".as_slice() {
        return Some(Kind::Print);
    }
    if word == b"update".as_slice() {
        return Some(Kind::Update);
    }
    if word == b"set".as_slice() {
        return Some(Kind::Set);
    }
    if word == b"value".as_slice() {
        return Some(Kind::Value);
    }
    if word == b"input".as_slice() {
        return Some(Kind::Input);
    }
    if word == b"input_count".as_slice() {
        return Some(Kind::InputCount);
    }
    None
}

/// Returns the reserved word with this spelling.
fn reserved(word: &[u8]) -> Option<Kind>
    ensures found { IfSome result (λ k. (word.now ≡ spelling k) × (is_reserved k ≡ true)) }
    ensures none { IfNone result ((k : Kind) → is_reserved k ≡ true → word.now ≢ spelling k) }
{
    if let Some(kind) = word_of_c(word) {
        return Some(kind);
    }
    if let Some(kind) = word_of_cilk(word) {
        return Some(kind);
    }
    own_word(word)
}

/// Reads a name or a reserved word.
#[tactic(auto, using(crate::proofs::Words::letter_behind))]
fn word(fresh: bool, bytes: &[u8]) -> Front<'_>
    requires { starts_letter bytes.now ≡ true }
    ensures front { IsFront fresh bytes.now result }
    ensures shorter { IsBefore (length bytes.now) result }
{
    let (word, rest) = split(Class::Word, bytes);
    match reserved(word) {
        Some(kind) => Front::Word(kind, rest),
        None => Front::Word(Kind::Name, rest),
    }
}

/// Returns the value of digits, or none if it is over 2^63.
#[tactic(auto, using(crate::proofs::Words::value_grows))]
pub fn value_of(digits: &[u8]) -> Option<u64>
    requires { Lexing.all_digits digits.now ≡ true }
    ensures found { IfSome result (λ n. (value_of digits.now ≤ 9223372036854775808) × (n ≡ value_of digits.now)) }
    ensures none { IfNone result (9223372036854775808 < value_of digits.now) }
{
    let mut value: u64 = 0;
    let mut rest = digits;
    'each: while let [first, tail @ ..] = rest {
        if value > 922_337_203_685_477_580 {
            return None;
        }
        value = 10 * value + u64::from(*first - 48);
        if value > 9_223_372_036_854_775_808 {
            return None;
        }
        rest = tail;
    }
    Some(value)
}

/// Tells whether all of the bytes are digits.
pub fn all_digits(bytes: &[u8]) -> bool
    ensures { result ≡ Lexing.all_digits bytes.now }
{
    let mut rest = bytes;
    'each: while let [first, tail @ ..] = rest {
        if !is_digit(*first) {
            return false;
        }
        rest = tail;
    }
    true
}

/// Tells whether the word is `0`, or digits that don't begin with `0`.
fn is_numeral(word: &[u8]) -> bool
    ensures tells { result ≡ is_numeral word.now }
    ensures digits { result ≡ true → Lexing.all_digits word.now ≡ true }
{
    match word {
        [] => false,
        [digit] => is_digit(*digit),
        [first, ..] => *first > 48 && all_digits(word),
    }
}

/// Reads a number, or gives a fault if the word is no number.
#[tactic(auto, using(crate::proofs::Words::digit_behind))]
fn number(fresh: bool, bytes: &[u8]) -> Front<'_>
    requires { starts_digit bytes.now ≡ true }
    ensures front { IsFront fresh bytes.now result }
    ensures shorter { IsBefore (length bytes.now) result }
{
    let (word, rest) = split(Class::Word, bytes);
    if !is_numeral(word) {
        return Front::Fault(LexErrorKind::Numeral);
    }
    match value_of(word) {
        Some(n) if n <= 9_223_372_036_854_775_807 => Front::Word(Kind::Number(n as i64), rest),
        _ => Front::Fault(LexErrorKind::TooLarge),
    }
}

/// Reads the longest mark that fits.
fn mark(fresh: bool, first: u8, tail: &[u8]) -> Front<'_>
    requires ascii { first ≤ 127 }
    requires blank { Lexing.is_blank first ≡ false }
    requires word { Lexing.belongs classes.Word first ≡ false }
    requires other { (first ≢ 35) × (first ≢ 47) }
    ensures front { IsFront fresh (first ∷ tail.now) result }
    ensures shorter { IsBefore (length tail.now + 1) result }
{
    match first {
        b'(' => Front::Word(Kind::Open, tail),
        b')' => Front::Word(Kind::Close, tail),
        b'{' => Front::Word(Kind::OpenBrace, tail),
        b'}' => Front::Word(Kind::CloseBrace, tail),
        b'[' => Front::Word(Kind::OpenBracket, tail),
        b']' => Front::Word(Kind::CloseBracket, tail),
        b';' => Front::Word(Kind::Semicolon, tail),
        b',' => Front::Word(Kind::Comma, tail),
        b'%' => Front::Word(Kind::Percent, tail),
        b'=' => match strip(b'=', tail) {
            Some(rest) => Front::Word(Kind::Equal, rest),
            None => Front::Word(Kind::Assign, tail),
        },
        b'+' => {
            if let Some(rest) = strip(b'=', tail) {
                return Front::Word(Kind::PlusAssign, rest);
            }
            match strip(b'+', tail) {
                Some(rest) => Front::Word(Kind::Increment, rest),
                None => Front::Word(Kind::Plus, tail),
            }
        }
        b'-' => {
            if let Some(rest) = strip(b'=', tail) {
                return Front::Word(Kind::MinusAssign, rest);
            }
            match strip(b'-', tail) {
                Some(rest) => Front::Word(Kind::Decrement, rest),
                None => Front::Word(Kind::Minus, tail),
            }
        }
        b'*' => match strip(b'=', tail) {
            Some(rest) => Front::Word(Kind::StarAssign, rest),
            None => Front::Word(Kind::Star, tail),
        },
        b'<' => match strip(b'=', tail) {
            Some(rest) => Front::Word(Kind::LessEqual, rest),
            None => Front::Word(Kind::Less, tail),
        },
        b'>' => match strip(b'=', tail) {
            Some(rest) => Front::Word(Kind::GreaterEqual, rest),
            None => Front::Word(Kind::Greater, tail),
        },
        b'!' => match strip(b'=', tail) {
            Some(rest) => Front::Word(Kind::NotEqual, rest),
            None => Front::Word(Kind::Not, tail),
        },
        b'&' => match strip(b'&', tail) {
            Some(rest) => Front::Word(Kind::And, rest),
            None => Front::Fault(LexErrorKind::NoToken),
        },
        b'|' => match strip(b'|', tail) {
            Some(rest) => Front::Word(Kind::Or, rest),
            None => Front::Fault(LexErrorKind::NoToken),
        },
        _ => Front::Fault(LexErrorKind::NoToken),
    }
}

/// Reads the first piece of the bytes.
fn piece<'a>(fresh: bool, first: u8, tail: &'a [u8], bytes: &'a [u8]) -> Front<'a>
    requires { bytes.now ≡ first ∷ tail.now }
    ensures front { IsFront fresh bytes.now result }
    ensures shorter { IsBefore (length bytes.now) result }
{
    if first > 127 {
        return Front::Fault(LexErrorKind::NotAscii);
    }
    if is_blank(first) {
        return Front::Skip(fresh || first == 10, tail);
    }
    if is_digit(first) {
        return number(fresh, bytes);
    }
    if is_letter(first) {
        return word(fresh, bytes);
    }
    match first {
        b'#' => directive(fresh, tail),
        b'/' => slash(fresh, tail),
        _ => mark(fresh, first, tail),
    }
}

/// Why there are no tokens: out of memory, or a reason and the byte where it applies, from 0.
#[derive(Debug, Drop, Error)]
pub enum LexFault {
    #[error("no memory")]
    Memory,
    #[error("{0} at byte {1}")]
    At(LexErrorKind, usize),
}

impl From<AllocError> for LexFault {
    ghost from_gives = { λ _ e. e ≡ Memory };

    fn from(_error: AllocError) -> Self {
        LexFault::Memory
    }
}

impl<T: Drop> From<AllocFailed<T>> for LexFault {
    ghost from_gives = { λ _ e. e ≡ Memory };

    fn from(_error: AllocFailed<T>) -> Self {
        LexFault::Memory
    }
}

/// Cuts a text into tokens, or returns the first byte at which no token and no gap begins. Linear
/// in the text's length.
pub fn lex(alloc: Global, text: &[u8]) -> Result<Vec<Token>, LexFault>
    ensures tokens { IfOk result (λ v. AreTokens text.now v.items) }
    ensures fault { IfErr result (λ e. IsLexFault e text.now) }
{
    let mut tokens = Vec::new(alloc);
    let mut fresh = true;
    let mut rest = text;
    'each: while let [first, tail @ ..] = rest {
        match piece(fresh, *first, tail, rest) {
            Front::Skip(next, after) => {
                fresh = next;
                rest = after;
            }
            Front::Word(kind, after) => {
                tokens.push(Token {
                    kind,
                    at: text.len() - rest.len(),
                    end: text.len() - after.len(),
                })?;
                fresh = false;
                rest = after;
            }
            Front::Fault(bad) => {
                return Err(LexFault::At(bad, text.len() - rest.len()));
            }
        }
    }
    Ok(tokens)
}

/// Proves that a text has only one list of tokens. It does nothing at run time.
#[tactic(auto, using(crate::proofs::Unique::unique))]
pub fn tokens_are_one()
    ensures { (text : List ℕ) (ts us : List Token) → AreTokens text ts → AreTokens text us → ts ≡ us }
{}
