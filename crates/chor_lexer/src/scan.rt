//! What stands at the front of the rest of a file.

ghost use Rattle.std.specs.Prelude.{◌≡◌, ◌≢◌, ◌+◌, ◌^◌, ◌<◌, ◌≤◌, ◌∷◌, ◌++◌, [], ℕ, List, length, drop, true, false, IfOk, IfErr, IfSome, IfNone, MatchOption};
ghost use Rattle.std.specs.Char.{is_ascii_digit};
ghost use Rattle.std.specs.List.{prefix_len};
ghost use Rattle.chor_lexer.specs.Mark.{spelling};
ghost use Rattle.chor_lexer.specs.Lexeme.{is_letter, is_word_byte};
ghost use Rattle.chor_lexer.specs.Cut.{is_space, is_line_byte, NoBlank};
ghost use Rattle.chor_lexer.specs.Refusal.{IsFault};
ghost use Rattle.chor_lexer.specs.Scan.{IsPiece, Begins};

use crate::mark::{Mark, double_mark, single_mark};
use crate::number::number_of;
use crate::text::{body_len, wrong_escape};
use chor_base::Rule;

// What kind of token it is.
#[derive(Clone, Copy)]
pub enum Form {
    Word,
    Number(i64),
    Text,
    Mark(Mark),
}

// White space or a comment of so many bytes, or a token.
#[derive(Clone, Copy)]
pub enum Piece {
    Blank(usize),
    Token(Form, usize),
}

// A rule that is violated so many bytes further on.
#[derive(Clone, Copy)]
pub struct Fault {
    pub rule: Rule,
    pub offset: usize,
}

// What stands at the front.
pub fn piece_at(bytes: &[u8]) -> Result<Piece, Fault>
    requires some { 1 ≤ length bytes.now }
    requires few { length bytes.now < 2 ^ 32 }
    ensures piece { IfOk result (IsPiece bytes.now) }
    ensures fault { IfErr result (λ e. IsFault bytes.now e.rule e.offset) }
    ensures within { IfErr result (λ e. e.offset ≤ length bytes.now) }
{
    if let Some(line) = after_slashes(bytes) {
        return Ok(Piece::Blank(2 + line_len(line)));
    }
    let first = bytes[0];
    if is_space(first) {
        Ok(Piece::Blank(1))
    } else if is_letter(first) {
        word_at(bytes)
    } else if first.is_ascii_digit() {
        number_at(bytes)
    } else if first == b'"' {
        text_at(bytes)
    } else {
        mark_at(bytes)
    }
}

// What follows two slashes.
fn after_slashes(bytes: &[u8]) -> Option<&[u8]>
    ensures { MatchOption result ((rest : List ℕ) → bytes.now ≢ 47 ∷ 47 ∷ rest) (λ rest. bytes.now ≡ 47 ∷ 47 ∷ rest.now) }
{
    match bytes {
        [b'/', b'/', rest @ ..] => Some(rest),
        _ => None,
    }
}

// The word that begins here.
fn word_at(bytes: &[u8]) -> Result<Piece, Fault>
    requires { Begins bytes.now (λ b. is_letter b ≡ true) }
    ensures piece { IfOk result (IsPiece bytes.now) }
    ensures fault { IfErr result (λ e. IsFault bytes.now e.rule e.offset) }
    ensures within { IfErr result (λ e. e.offset ≤ length bytes.now) }
{
    let len = word_len(bytes);
    if len > 64 {
        return Err(Fault {
            rule: Rule::L5,
            offset: 0,
        });
    }
    Ok(Piece::Token(Form::Word, len))
}

// The number that begins here.
fn number_at(bytes: &[u8]) -> Result<Piece, Fault>
    requires { Begins bytes.now (λ b. is_ascii_digit b ≡ true) }
    ensures piece { IfOk result (IsPiece bytes.now) }
    ensures fault { IfErr result (λ e. IsFault bytes.now e.rule e.offset) }
    ensures within { IfErr result (λ e. e.offset ≤ length bytes.now) }
{
    let len = digits_len(bytes);
    let (digits, _) = bytes.split_at(len);
    match number_of(digits) {
        Some(value) => Ok(Piece::Token(Form::Number(value), len)),
        None => Err(Fault {
            rule: Rule::L3,
            offset: 0,
        }),
    }
}

// The text that this quote opens.
fn text_at(bytes: &[u8]) -> Result<Piece, Fault>
    requires { Begins bytes.now (λ b. b ≡ 34) }
    ensures piece { IfOk result (IsPiece bytes.now) }
    ensures fault { IfErr result (λ e. IsFault bytes.now e.rule e.offset) }
    ensures within { IfErr result (λ e. e.offset ≤ length bytes.now) }
{
    let (_, after) = bytes.split_at(1);
    let Some(len) = body_len(after) else {
        return Err(Fault {
            rule: Rule::L2,
            offset: 0,
        });
    };
    if len > 256 {
        return Err(Fault {
            rule: Rule::L5,
            offset: 0,
        });
    }
    let (body, _) = after.split_at(len);
    match wrong_escape(body) {
        Some(offset) => Err(Fault {
            rule: Rule::L1,
            offset: 1 + offset,
        }),
        None => Ok(Piece::Token(Form::Text, len + 2)),
    }
}

// The mark that begins here.
fn mark_at(bytes: &[u8]) -> Result<Piece, Fault>
    requires begins { Begins bytes.now (λ b. (is_space b ≡ false) × (is_letter b ≡ false) × (is_ascii_digit b ≡ false) × (b ≢ 34)) }
    requires no_blank { (rest : List ℕ) → bytes.now ≢ 47 ∷ 47 ∷ rest }
    ensures piece { IfOk result (IsPiece bytes.now) }
    ensures fault { IfErr result (λ e. IsFault bytes.now e.rule e.offset) }
    ensures within { IfErr result (λ e. e.offset ≤ length bytes.now) }
{
    if let Some(mark) = double_at(bytes) {
        return Ok(Piece::Token(Form::Mark(mark), 2));
    }
    match single_mark(bytes[0]) {
        Some(mark) => Ok(Piece::Token(Form::Mark(mark), 1)),
        None => Err(Fault {
            rule: Rule::L1,
            offset: 0,
        }),
    }
}

// The mark of two bytes at the front.
fn double_at(bytes: &[u8]) -> Option<Mark>
    ensures found { IfSome result (λ m. (length (spelling m) ≡ 2) × (bytes.now ≡ spelling m ++ drop 2 bytes.now)) }
    ensures none { IfNone result ((m : Mark) (rest : List ℕ) → bytes.now ≡ spelling m ++ rest → length (spelling m) ≤ 1) }
{
    match bytes {
        [first, second, ..] => double_mark(*first, *second),
        _ => None,
    }
}

// How many bytes go on with a word.
fn word_len(bytes: &[u8]) -> usize
    ensures { result ≡ prefix_len is_word_byte bytes.now }
{
    bytes.iter().take_while(|b| is_word_byte(**b)).count()
}

// How many digits stand at the front.
fn digits_len(bytes: &[u8]) -> usize
    ensures { result ≡ prefix_len is_ascii_digit bytes.now }
{
    bytes.iter().take_while(|b| b.is_ascii_digit()).count()
}

// How many bytes stand before the end of the line.
fn line_len(bytes: &[u8]) -> usize
    ensures { result ≡ prefix_len is_line_byte bytes.now }
{
    bytes.iter().take_while(|b| **b != b'\n').count()
}

// A byte of a word.
fn is_word_byte(byte: u8) -> bool
    ensures { result ≡ is_word_byte byte }
{
    byte.is_ascii_alphanumeric() || byte == b'_'
}

// A byte that begins a word.
fn is_letter(byte: u8) -> bool
    ensures { result ≡ is_letter byte }
{
    byte.is_ascii_alphabetic() || byte == b'_'
}

// White space.
fn is_space(byte: u8) -> bool
    ensures { result ≡ is_space byte }
{
    matches!(byte, b' ' | b'\t' | b'\r' | b'\n')
}
