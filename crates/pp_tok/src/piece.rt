//! What a text is cut into: blanks, line ends and tokens, each with its length.
ghost use Rattle.std.specs.Prelude.{◌≡◌, ◌+◌, ◌<◌, ◌≤◌, ◌==◌, ◌&&◌, ◌||◌, IfSome, unwrap_or, length, drop, slice_index};
ghost use Rattle.qv_base.specs.Decimal.{is_digit};
ghost use Rattle.pp_tok.specs.declared.token.PpKind.TheVariants as PpKind;
ghost use Rattle.pp_tok.specs.Lengths.{name_length, punctuator_length};
ghost use Rattle.pp_tok.specs.Pieces.{blank_piece, token_piece, kind_of_constant, starts_with_digit, constant_at, wide_at, header_at, punctuator_or_byte, token_at, piece_at, state_behind};
ghost use Rattle.pp_tok.specs.Unclosed.{AreUnclosed};

use crate::length::{
    comment_len, header_len, is_blank, is_letter, is_quote, name_len, number_len, starts_with,
};
use crate::punctuator::punctuator_len;
use crate::token::PpKind;
use crate::unclosed::{Unclosed, constant_rest};
use qv_base::decimal::is_digit;

/// What stands first in a text.
#[derive(Clone, Copy, Debug, PartialEq, Eq)]
pub(crate) struct Piece {
    /// How many bytes it takes.
    pub length: usize,
    /// What it is.
    pub what: What,
}

/// What a piece of a text is.
#[derive(Clone, Copy, Debug, PartialEq, Eq)]
pub(crate) enum What {
    /// A blank or a comment.
    Blank,
    /// A line feed.
    LineEnd,
    /// A token of this class.
    Token(PpKind),
}

/// Which tokens stand before a piece on its line, as far as a header name asks for them.
#[derive(Clone, Copy, Debug, PartialEq, Eq)]
pub(crate) enum LineState {
    /// None.
    Start,
    /// `#` alone.
    Hash,
    /// `#` and `include` alone.
    Include,
    /// Others.
    Other,
}

/// The piece that stands at this place. None where it is an open comment.
#[tactic(auto, using(std::proofs::lemmas::List::take_rest, crate::proofs::Open::unclosed_later), unfolding(crate::specs::Pieces::piece_at))]
pub(crate) fn piece_at(
    state: LineState,
    text: &[u8],
    at: usize,
    unclosed: &mut Unclosed,
) -> Option<Piece>
    requires in_text { at < length text.now }
    requires known { AreUnclosed unclosed.old at text.now }
    ensures known { AreUnclosed unclosed.new (at + 1) text.now }
    ensures piece { result ≡ piece_at state (slice_index text.now at) (drop (at + 1) text.now) }
    ensures some { IfSome result (λ p. 0 < p.length) }
    ensures within { IfSome result (λ p. at + p.length ≤ length text.now) }
{
    let byte = text[at];
    if is_blank(byte) {
        return Some(blank_piece(1));
    }
    if byte == b'\n' {
        return Some(Piece {
            length: 1,
            what: What::LineEnd,
        });
    }
    if byte == b'/' && starts_with(b'*', &text[at + 1..]) {
        let behind = comment_len(&text[at + 2..])?;
        return Some(blank_piece(2 + behind));
    }
    if let Some(piece) = header_at(state, byte, &text[at + 1..]) {
        return Some(piece);
    }
    Some(token_at(text, at, unclosed))
}

/// Which tokens stand before the next piece, behind a token of this class and spelling.
pub(crate) fn state_behind(state: LineState, kind: PpKind, spelling: &[u8]) -> LineState
    ensures { result ≡ state_behind state kind spelling.now }
{
    match (state, kind) {
        (LineState::Start, PpKind::Punct) => {
            if spelling == b"#".as_slice() {
                LineState::Hash
            } else {
                LineState::Other
            }
        }
        (LineState::Hash, PpKind::Ident) => {
            if spelling == b"include".as_slice() {
                LineState::Include
            } else {
                LineState::Other
            }
        }
        _ => LineState::Other,
    }
}

fn blank_piece(length: usize) -> Piece
    ensures { result ≡ blank_piece length }
{
    Piece {
        length,
        what: What::Blank,
    }
}

fn token_piece(kind: PpKind, length: usize) -> Piece
    ensures { result ≡ token_piece kind length }
{
    Piece {
        length,
        what: What::Token(kind),
    }
}

// The name of a header, where one is read.
fn header_at(state: LineState, byte: u8, rest: &[u8]) -> Option<Piece>
    ensures value { result ≡ header_at state byte rest.now }
    ensures some { IfSome result (λ p. 0 < p.length) }
    ensures within { IfSome result (λ p. p.length ≤ 1 + length rest.now) }
{
    let end = match (state, byte) {
        (LineState::Include, b'<') => b'>',
        (LineState::Include, b'"') => b'"',
        _ => return None,
    };
    let behind = header_len(end, rest)?;
    Some(token_piece(PpKind::Header, 1 + behind))
}

// The token that stands at this place, where no name of a header is read.
#[tactic(auto, using(std::proofs::lemmas::List::take_rest, crate::proofs::Open::unclosed_later), unfolding(crate::specs::Pieces::token_at))]
fn token_at(text: &[u8], at: usize, unclosed: &mut Unclosed) -> Piece
    requires in_text { at < length text.now }
    requires known { AreUnclosed unclosed.old at text.now }
    ensures known { AreUnclosed unclosed.new (at + 1) text.now }
    ensures value { result ≡ token_at (slice_index text.now at) (drop (at + 1) text.now) }
    ensures some { 0 < result.length }
    ensures within { at + result.length ≤ length text.now }
{
    let byte = text[at];
    if is_letter(byte) {
        return name_at(text, at, unclosed);
    }
    if begins_number(byte, &text[at + 1..]) {
        return token_piece(PpKind::Number, 1 + number_len(byte, &text[at + 1..]));
    }
    if is_quote(byte) {
        return quote_at(text, at, unclosed);
    }
    punctuator_or_byte(&text[at..])
}

// A name, or a constant whose L stands here.
#[tactic(auto, using(std::proofs::lemmas::List::take_rest, crate::proofs::Open::unclosed_later))]
fn name_at(text: &[u8], at: usize, unclosed: &mut Unclosed) -> Piece
    requires in_text { at < length text.now }
    requires known { AreUnclosed unclosed.old at text.now }
    ensures known { AreUnclosed unclosed.new (at + 1) text.now }
    ensures value { result ≡ unwrap_or (wide_at (slice_index text.now at) (drop (at + 1) text.now)) (token_piece PpKind.Ident (1 + name_length (drop (at + 1) text.now))) }
    ensures some { 0 < result.length }
    ensures within { at + result.length ≤ length text.now }
{
    if let Some(piece) = wide_at(text, at, unclosed) {
        return piece;
    }
    token_piece(PpKind::Ident, 1 + name_len(&text[at + 1..]))
}

// A constant whose L stands here.
#[tactic(auto, using(std::proofs::lemmas::List::take_rest, crate::proofs::Open::unclosed_later))]
fn wide_at(text: &[u8], at: usize, unclosed: &mut Unclosed) -> Option<Piece>
    requires in_text { at < length text.now }
    requires known { AreUnclosed unclosed.old at text.now }
    ensures known { AreUnclosed unclosed.new (at + 1) text.now }
    ensures value { result ≡ wide_at (slice_index text.now at) (drop (at + 1) text.now) }
    ensures some { IfSome result (λ p. 0 < p.length) }
    ensures within { IfSome result (λ p. at + p.length ≤ length text.now) }
{
    if text[at] != b'L' {
        return None;
    }
    let piece = constant_at(text, at + 1, unclosed)?;
    Some(Piece {
        length: 1 + piece.length,
        what: piece.what,
    })
}

// A constant whose quote stands here, or else the quote alone.
#[tactic(auto, using(std::proofs::lemmas::List::take_rest, crate::proofs::Open::unclosed_later))]
fn quote_at(text: &[u8], at: usize, unclosed: &mut Unclosed) -> Piece
    requires in_text { at < length text.now }
    requires known { AreUnclosed unclosed.old at text.now }
    ensures known { AreUnclosed unclosed.new (at + 1) text.now }
    ensures value { result ≡ unwrap_or (constant_at (drop at text.now)) (token_piece PpKind.Byte 1) }
    ensures some { 0 < result.length }
    ensures within { at + result.length ≤ length text.now }
{
    if let Some(piece) = constant_at(text, at, unclosed) {
        return piece;
    }
    token_piece(PpKind::Byte, 1)
}

// A constant whose quote stands here. None where it has no end on its line.
#[tactic(auto, using(std::proofs::lemmas::List::take_rest, crate::proofs::Open::unclosed_later))]
fn constant_at(text: &[u8], at: usize, unclosed: &mut Unclosed) -> Option<Piece>
    requires in_text { at ≤ length text.now }
    requires known { AreUnclosed unclosed.old at text.now }
    ensures known { AreUnclosed unclosed.new at text.now }
    ensures value { result ≡ constant_at (drop at text.now) }
    ensures some { IfSome result (λ p. 0 < p.length) }
    ensures within { IfSome result (λ p. at + p.length ≤ length text.now) }
{
    if at == text.len() {
        return None;
    }
    let quote = text[at];
    if !is_quote(quote) {
        return None;
    }
    let behind = constant_rest(text, at, unclosed)?;
    Some(token_piece(kind_of_constant(quote), 1 + behind))
}

fn kind_of_constant(quote: u8) -> PpKind
    ensures { result ≡ kind_of_constant quote }
{
    if quote == b'"' {
        PpKind::Text
    } else {
        PpKind::Char
    }
}

// Whether a number begins with this byte.
fn begins_number(byte: u8, rest: &[u8]) -> bool
    ensures { result ≡ (is_digit byte || (byte == 46 && starts_with_digit rest.now)) }
{
    is_digit(byte) || (byte == b'.' && starts_with_digit(rest))
}

fn starts_with_digit(text: &[u8]) -> bool
    ensures { result ≡ starts_with_digit text.now }
{
    matches!(text, [first, ..] if is_digit(*first))
}

fn punctuator_or_byte(text: &[u8]) -> Piece
    requires { 0 < length text.now }
    ensures value { result ≡ punctuator_or_byte (punctuator_length text.now) }
    ensures some { 0 < result.length }
    ensures within { result.length ≤ length text.now }
{
    let length = punctuator_len(text);
    if length == 0 {
        token_piece(PpKind::Byte, 1)
    } else {
        token_piece(PpKind::Punct, length)
    }
}
