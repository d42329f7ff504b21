//! The tokens of a source, found in the plain way: what begins at a byte is asked of all that is left, and each byte is
//! looked at as often as a rule speaks of it. What the library finds is compared with it.

use std::alloc::{AllocError, Global};
use wgsl_source::{Fault, Reason};

/// What a token is.
#[derive(Clone, Copy, PartialEq, Eq)]
pub(super) enum TokenKind {
    /// An identifier or a keyword.
    Name,
    /// A numeric literal.
    Number,
    /// One character that is neither.
    Symbol(u8),
    /// Behind the last token.
    End,
}

/// A token, and the bytes of the source that it has.
#[derive(Clone, Copy)]
pub(super) struct Token {
    pub(super) kind: TokenKind,
    pub(super) start: usize,
    pub(super) end: usize,
}

/// The tokens of a source, and what is wrong in it: lines for a preprocessor, and a comment without an end. No source here
/// has a name for a preprocessor.
#[derive(Drop)]
pub(super) struct Lexed {
    pub(super) tokens: Vec<Token>,
    pub(super) faults: Vec<Fault>,
}

/// What begins a text: so many bytes, and what they are.
#[derive(Clone, Copy)]
struct Piece {
    kind: PieceKind,
    len: usize,
}

#[derive(Clone, Copy)]
enum PieceKind {
    Token(TokenKind),
    Blank,
    Passed(Reason),
}

/// The tokens of the text, in order.
pub(super) fn tokens_of(alloc: Global, text: &str) -> Result<Lexed, AllocError> {
    let bytes = text.as_bytes();
    let mut tokens = Vec::new(alloc);
    let mut faults = Vec::new(alloc);
    let mut next = 0;
    for start in 0..bytes.len() {
        if start < next {
            continue;
        }
        let piece = piece_at(&bytes[start..], begins_line(&bytes[..start]));
        let end = start.saturating_add(piece.len);
        match piece.kind {
            PieceKind::Token(kind) => tokens.push(Token { kind, start, end })?,
            PieceKind::Blank => {}
            PieceKind::Passed(reason) => faults.push(Fault { start, end, reason })?,
        }
        next = end;
    }
    Ok(Lexed { tokens, faults })
}

// Whether only blanks of ASCII stand behind the last line break of ASCII.
fn begins_line(before: &[u8]) -> bool {
    let mut is_begin = true;
    for byte in before {
        match *byte {
            b'\n' | 0x0b | 0x0c | b'\r' => is_begin = true,
            b' ' | b'\t' => {}
            _ => is_begin = false,
        }
    }
    is_begin
}

fn piece_at(rest: &[u8], is_first: bool) -> Piece {
    match rest {
        [b'#', ..] if is_first => Piece {
            kind: PieceKind::Passed(Reason::Preprocessor),
            len: line_comment_len(rest),
        },
        [b'/', b'/', ..] => Piece::blank(line_comment_len(rest)),
        [b'/', b'*', ..] => match block_comment_len(rest) {
            Some(len) => Piece::blank(len),
            None => Piece {
                kind: PieceKind::Passed(Reason::OpenComment),
                len: rest.len(),
            },
        },
        [b'.', b'0'..=b'9', ..] | [b'0'..=b'9', ..] => {
            Piece::token(TokenKind::Number, number_len(rest))
        }
        _ => word_at(rest),
    }
}

// What begins a text that is no comment and no number.
fn word_at(rest: &[u8]) -> Piece {
    let blank = blank_len(rest);
    if blank > 0 {
        return Piece::blank(blank);
    }
    match name_len(rest) {
        0 => Piece::token(symbol(rest), 1),
        len => Piece::token(TokenKind::Name, len),
    }
}

fn symbol(rest: &[u8]) -> TokenKind {
    match rest.first() {
        Some(byte) => TokenKind::Symbol(*byte),
        None => TokenKind::End,
    }
}

impl Piece {
    fn blank(len: usize) -> Piece {
        Piece {
            kind: PieceKind::Blank,
            len,
        }
    }

    fn token(kind: TokenKind, len: usize) -> Piece {
        Piece {
            kind: PieceKind::Token(kind),
            len,
        }
    }
}

/// The bytes of the blank character at the front; 0 where there is none (WGSL: blankspace).
fn blank_len(rest: &[u8]) -> usize {
    match rest {
        [b' ' | b'\t' | b'\n' | 0x0b | 0x0c | b'\r', ..] => 1,
        // The next line.
        [0xc2, 0x85, ..] => 2,
        // The marks of direction, and the separators of lines and of paragraphs.
        [0xe2, 0x80, 0x8e | 0x8f | 0xa8 | 0xa9, ..] => 3,
        _ => 0,
    }
}

/// A comment as far as its line goes.
fn line_comment_len(rest: &[u8]) -> usize {
    for at in 0..rest.len() {
        if begins_line_break(&rest[at..]) {
            return at;
        }
    }
    rest.len()
}

// Line feed, vertical tab, form feed, carriage return, the next line, and the separators of lines
// and of paragraphs (WGSL: blankspace and line breaks).
fn begins_line_break(rest: &[u8]) -> bool {
    matches!(
        rest,
        [b'\n' | 0x0b | 0x0c | b'\r', ..] | [0xc2, 0x85, ..] | [0xe2, 0x80, 0xa8 | 0xa9, ..]
    )
}

/// A comment with those inside it, up to its `*/`; `None` where it has no end.
fn block_comment_len(rest: &[u8]) -> Option<usize> {
    let mut depth = 0usize;
    let mut next = 0;
    for at in 0..rest.len() {
        if at < next {
            continue;
        }
        match &rest[at..] {
            [b'/', b'*', ..] => {
                depth = depth.saturating_add(1);
                next = at.saturating_add(2);
            }
            [b'*', b'/', ..] => {
                depth = depth.saturating_sub(1);
                next = at.saturating_add(2);
                if depth == 0 {
                    return Some(next);
                }
            }
            _ => {}
        }
    }
    None
}

/// A name at the front; 0 where there is none. What is no ASCII is taken for a letter.
fn name_len(rest: &[u8]) -> usize {
    match rest.first() {
        Some(first) if !first.is_ascii_digit() => run_len(rest),
        _ => 0,
    }
}

// Letters, digits and `_`.
fn run_len(rest: &[u8]) -> usize {
    for at in 0..rest.len() {
        if !continues_name(rest[at]) || blank_len(&rest[at..]) > 0 {
            return at;
        }
    }
    rest.len()
}

fn continues_name(byte: u8) -> bool {
    byte.is_ascii_alphanumeric() || byte == b'_' || !byte.is_ascii()
}

/// A number at the front, with its point, its exponent and its suffix.
fn number_len(rest: &[u8]) -> usize {
    let is_hexadecimal = matches!(rest, [b'0', b'x' | b'X', ..]);
    let mut may_sign = false;
    for at in 0..rest.len() {
        let byte = rest[at];
        let is_sign = may_sign && matches!(byte, b'+' | b'-');
        if !byte.is_ascii_alphanumeric() && byte != b'.' && !is_sign {
            return at;
        }
        may_sign = match byte {
            b'e' | b'E' => !is_hexadecimal,
            b'p' | b'P' => is_hexadecimal,
            _ => false,
        };
    }
    rest.len()
}
