//! The piece that stands first in a text: a gap between tokens, a token, or what is none.

ghost use Rattle.std.specs.Prelude.{◌≡◌, ◌<◌, ◌≤◌, ◌+◌, not, length, drop, slice_index, IfSome};
ghost use Rattle.std.specs.List.{prefix_len};
ghost use Rattle.c_tokens.specs.Pieces as spec;
ghost use Rattle.c_tokens.specs.Pieces.{LiesIn};
ghost use Rattle.c_tokens.specs.Places.{is_line_feed};
ghost use Rattle.c_tokens.specs.Quotes as quotes;

use crate::class::{Class, TokenKind};
use crate::fault::Flaw;
use crate::marks::{mark_of_one, mark_of_three, mark_of_two};
use crate::numbers::number_of;
use crate::quotes::quoted;
use crate::words::word_of;

/// A gap of so many bytes, a token of this kind, class and size, or what is none.
#[derive(Clone, Copy)]
pub enum Piece {
    Gap(usize),
    Lexeme(TokenKind, Class, usize),
    Bad(Flaw),
}

fn is_blank(b: u8) -> bool
    ensures { result ≡ spec.is_blank b }
{
    b == b' ' || b == b'\t' || b == b'\r' || b == b'\n'
}

fn is_word_byte(b: u8) -> bool
    ensures { result ≡ spec.is_word_byte b }
{
    b.is_ascii_alphanumeric() || b == b'_'
}

fn blanks(z: &[u8]) -> usize
    ensures value { result ≡ prefix_len spec.is_blank z.now }
    ensures within { result ≤ length z.now }
{
    z.iter().take_while(|b| is_blank(**b)).count()
}

fn word_bytes(z: &[u8]) -> usize
    ensures value { result ≡ prefix_len spec.is_word_byte z.now }
    ensures within { result ≤ length z.now }
{
    z.iter().take_while(|b| is_word_byte(**b)).count()
}

fn line_len(z: &[u8]) -> usize
    ensures value { result ≡ prefix_len (λ b. not (is_line_feed b)) z.now }
    ensures within { result ≤ length z.now }
{
    z.iter().take_while(|b| **b != b'\n').count()
}

fn byte_at(z: &[u8], at: usize) -> u8
    ensures value { result ≡ slice_index z.now at }
    ensures within { 0 < result → at < length z.now }
{
    match z.get(at) {
        Some(b) => *b,
        None => 0,
    }
}

fn run(text: &[u8]) -> Piece
    requires { 0 < length text.now }
    ensures value { result ≡ spec.run text.now }
    ensures within { LiesIn result text.now }
{
    if text[0].is_ascii_digit() {
        return match number_of(text) {
            Some(_) => Piece::Lexeme(TokenKind::Number, Class::Number, text.len()),
            None => Piece::Bad(Flaw::BadNumber),
        };
    }
    match word_of(text) {
        Some(word) => Piece::Lexeme(TokenKind::Word, word, text.len()),
        None if text.len() > 63 => Piece::Bad(Flaw::LongName),
        None => Piece::Lexeme(TokenKind::Name, Class::Name, text.len()),
    }
}

#[tactic(auto, unfolding(crate::specs::Pieces::comment_len))]
fn comment_len(z: &[u8]) -> Option<usize>
    ensures value { result ≡ spec.comment_len z.now }
    ensures within { IfSome result (λ n. n ≤ length z.now) }
{
    let mut n = 0;
    let mut rest = z;
    while let [b, more @ ..] = rest {
        if *b == b'*' && byte_at(more, 0) == b'/' {
            return Some(n + 2);
        }
        n += 1;
        rest = more;
    }
    None
}

#[tactic(auto, unfolding(crate::specs::Pieces::mark))]
fn mark(z: &[u8]) -> Piece
    requires { 0 < length z.now }
    ensures value { result ≡ spec.mark z.now }
    ensures within { LiesIn result z.now }
{
    let a = byte_at(z, 0);
    let b = byte_at(z, 1);
    if let Some(class) = mark_of_three(a, b, byte_at(z, 2)) {
        Piece::Lexeme(TokenKind::Mark, class, 3)
    } else if let Some(class) = mark_of_two(a, b) {
        Piece::Lexeme(TokenKind::Mark, class, 2)
    } else if let Some(class) = mark_of_one(a) {
        Piece::Lexeme(TokenKind::Mark, class, 1)
    } else {
        Piece::Bad(Flaw::BadByte)
    }
}

fn slash(z: &[u8]) -> Piece
    requires { slice_index z.now 0 ≡ 47 }
    ensures value { result ≡ spec.slash z.now }
    ensures within { LiesIn result z.now }
{
    match z {
        [_, b'/', ..] => Piece::Gap(line_len(z)),
        [_, b'*', rest @ ..] => match comment_len(rest) {
            Some(n) => Piece::Gap(n + 2),
            None => Piece::Bad(Flaw::OpenText),
        },
        _ => mark(z),
    }
}

fn character(z: &[u8]) -> Piece
    requires { 0 < length z.now }
    ensures value { result ≡ spec.character (quotes.quoted 39 (drop 1 z.now)) }
    ensures within { LiesIn result z.now }
{
    match quoted(b'\'', &z[1..]) {
        Some(extent) if extent.count == 1 => {
            Piece::Lexeme(TokenKind::Character, Class::Character, extent.size + 1)
        }
        _ => Piece::Bad(Flaw::OpenText),
    }
}

fn text(z: &[u8]) -> Piece
    requires { 0 < length z.now }
    ensures value { result ≡ spec.text (quotes.quoted 34 (drop 1 z.now)) }
    ensures within { LiesIn result z.now }
{
    match quoted(b'"', &z[1..]) {
        Some(extent) => Piece::Lexeme(TokenKind::Text, Class::Text, extent.size + 1),
        None => Piece::Bad(Flaw::OpenText),
    }
}

/// The piece that stands first.
#[tactic(auto, unfolding(crate::specs::Pieces::piece))]
pub fn first_piece(z: &[u8]) -> Piece
    requires { 0 < length z.now }
    ensures value { result ≡ spec.piece z.now }
    ensures within { LiesIn result z.now }
{
    let first = z[0];
    if is_blank(first) {
        Piece::Gap(blanks(z))
    } else if is_word_byte(first) {
        run(&z[..word_bytes(z)])
    } else {
        match first {
            b'/' => slash(z),
            b'\'' => character(z),
            b'"' => text(z),
            _ => mark(z),
        }
    }
}
