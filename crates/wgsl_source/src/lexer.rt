//! Cuts a source into tokens (WGSL: tokens; comments; blankspace and line breaks).

ghost use Rattle.std.specs.Prelude.{◌≡◌, ◌↔◌, ◌⊎◌, ◌+◌, ◌-◌, ◌≤◌, ◌<◌, [], ◌∷◌, ◌++◌, IsTrue, true, false, slice_index, nat_eq, codes, drop, length, map, IfOk, IfSome, OnOk};
ghost use Rattle.std.specs.List.{list_any, starts_with};
ghost use Rattle.wgsl_source.specs.Blanks.{Begins, Comment, GoesOn, HasNoBlank, IsCharacter, IsCut, Line, begins_line_break, begins_with_one, blanks, fault_from};
ghost use Rattle.wgsl_source.specs.Bytes.{class_of, may_begin_blank, wide_blanks};
ghost use Rattle.wgsl_source.specs.Readings.{extent_in};

use crate::bytes::{Class, class_of, may_begin_line_break, may_break};
use crate::fault::{Fault, Reason};
use crate::token::{Token, TokenKind};
use std::alloc::{AllocError, Global};

/// The tokens of a source, and what is wrong in it: what is neither a token nor blank, and tokens that are none of WGSL.
#[derive(Drop)]
pub(crate) struct Lexed {
    pub(crate) tokens: Vec<Token>,
    pub(crate) faults: Vec<Fault>,
}

const BYTE_ORDER_MARK: [u8; 3] = [0xef, 0xbb, 0xbf];

const NEXT_LINE: [u8; 2] = [0xc2, 0x85];

const LEFT_TO_RIGHT: [u8; 3] = [0xe2, 0x80, 0x8e];

const RIGHT_TO_LEFT: [u8; 3] = [0xe2, 0x80, 0x8f];

const LINE_SEPARATOR: [u8; 3] = [0xe2, 0x80, 0xa8];

const PARAGRAPH_SEPARATOR: [u8; 3] = [0xe2, 0x80, 0xa9];

/// The line breaks of WGSL.
static LINE_BREAKS: [&[u8]; 7] = [
    &[0x0a],
    &[0x0b],
    &[0x0c],
    &[0x0d],
    &[0xc2, 0x85],
    &[0xe2, 0x80, 0xa8],
    &[0xe2, 0x80, 0xa9],
];

/// What begins at a byte of a text, and the byte behind it.
#[derive(Clone, Copy)]
struct Piece {
    kind: PieceKind,
    end: usize,
}

#[derive(Clone, Copy)]
enum PieceKind {
    Token(TokenKind),
    Blank,
    /// A comment that has no end.
    OpenComment,
    /// A line that is for a preprocessor.
    HashLine,
    /// A name that a preprocessor puts a text for.
    Placeholder,
}

/// The tokens of the text, in order.
pub(crate) fn tokens_of(alloc: Global, text: &str) -> Result<Lexed, AllocError>
    ensures { IfOk result (λ lexed. IsCut text.entry.now (map extent_in lexed.tokens.items) lexed.faults.items (length text.entry.now)) }
{
    let bytes = text.as_bytes();
    let mut lexed = Lexed {
        tokens: Vec::new(alloc),
        faults: Vec::new(alloc),
    };
    let mut start = byte_order_mark_len(bytes);
    while start < bytes.len() {
        let class = class_of(bytes[start]);
        if class.is_blank() {
            start += 1;
            continue;
        }
        start = lexed.take(class, bytes, start)?;
    }
    Ok(lexed)
}

impl Lexed {
    // Takes what begins with this byte, which is of this class, and answers where it ends.
    fn take(&mut self, class: Class, bytes: &[u8], start: usize) -> Result<usize, AllocError>
        requires within { start < length bytes.now }
        requires class { class ≡ class_of (slice_index bytes.now start) }
        requires no_blank { ¬ ((class ≡ Class.Blank) ⊎ (class ≡ Class.Break)) }
        ensures behind { IfOk result (λ end. (start < end) × (end ≤ length bytes.now)) }
        ensures cut { IsCut bytes.now (map extent_in self.old.tokens.items) self.old.faults.items start →
            IfOk result (λ end. IsCut bytes.now (map extent_in self.new.tokens.items) self.new.faults.items end) }
    {
        // Names are the most of a source.
        if let Class::Letter = class {
            let end = name_end(bytes, start);
            self.add_token(TokenKind::Name, start, end)?;
            return Ok(end);
        }
        let piece = piece_at(class, bytes, start);
        self.add(start, piece)?;
        Ok(piece.end)
    }

    // Takes the piece that begins at this byte.
    fn add(&mut self, start: usize, piece: Piece) -> Result<(), AllocError>
        ensures { OnOk result (GoesOn self.old.tokens.items self.old.faults.items start piece self.new.tokens.items self.new.faults.items) }
    {
        let Piece { kind, end } = piece;
        match kind {
            PieceKind::Blank => Ok(()),
            PieceKind::Token(kind) => self.add_token(kind, start, end),
            PieceKind::OpenComment => self.add_fault(Reason::OpenComment, start, end),
            PieceKind::HashLine => self.add_fault(Reason::Preprocessor, start, end),
            PieceKind::Placeholder => {
                self.add_token(TokenKind::Name, start, end)?;
                self.add_fault(Reason::Placeholder, start, end)
            }
        }
    }

    fn add_token(&mut self, kind: TokenKind, start: usize, end: usize) -> Result<(), AllocError>
        ensures tokens { OnOk result (map extent_in self.new.tokens.items ≡ map extent_in self.old.tokens.items ++ record { start = start; end = end } ∷ []) }
        ensures faults { self.new.faults.items ≡ self.old.faults.items }
    {
        self.tokens.push(Token { kind, start, end })?;
        Ok(())
    }

    fn add_fault(&mut self, reason: Reason, start: usize, end: usize) -> Result<(), AllocError>
        ensures tokens { self.new.tokens.items ≡ self.old.tokens.items }
        ensures faults { OnOk result (self.new.faults.items ≡ self.old.faults.items ++ fault_from start end reason ∷ []) }
    {
        self.faults.push(Fault { start, end, reason })?;
        Ok(())
    }
}

// The bytes of the mark of byte order that the text begins with, if it does.
fn byte_order_mark_len(bytes: &[u8]) -> usize
    ensures within { result ≤ length bytes.now }
    ensures cut { IsCut bytes.now [] [] result }
{
    if bytes.starts_with(&BYTE_ORDER_MARK) {
        BYTE_ORDER_MARK.len()
    } else {
        0
    }
}

// What begins with this byte, which is of this class.
fn piece_at(class: Class, bytes: &[u8], start: usize) -> Piece
    requires within { start < length bytes.now }
    requires class { class ≡ class_of (slice_index bytes.now start) }
    requires no_blank { ¬ ((class ≡ Class.Blank) ⊎ (class ≡ Class.Break)) }
    ensures later { start < result.end }
    ensures within { result.end ≤ length bytes.now }
    ensures is { Begins bytes.now start result }
{
    match class {
        Class::Symbol => symbol_at(bytes, start),
        _ => rare_at(class, bytes, start),
    }
}

// What begins with a byte that is neither an ASCII letter nor a symbol.
#[inline(never)]
fn rare_at(class: Class, bytes: &[u8], start: usize) -> Piece
    requires within { start < length bytes.now }
    requires class { class ≡ class_of (slice_index bytes.now start) }
    requires no_blank { ¬ ((class ≡ Class.Blank) ⊎ (class ≡ Class.Break)) }
    ensures later { start < result.end }
    ensures within { result.end ≤ length bytes.now }
    ensures is { Begins bytes.now start result }
{
    let blank = wide_blank_len(behind(bytes, start));
    if blank > 0 {
        return Piece {
            kind: PieceKind::Blank,
            end: start + blank,
        };
    }
    if let Class::Digit = class {
        return number_at(bytes, start);
    }
    Piece {
        kind: PieceKind::Token(TokenKind::Name),
        end: name_end(bytes, start),
    }
}

// What begins with a character that is neither of a name nor blank nor a digit.
fn symbol_at(bytes: &[u8], start: usize) -> Piece
    requires within { start < length bytes.now }
    requires begins { begins_with_one blanks (drop start bytes.now) ≡ false }
    ensures later { start < result.end }
    ensures within { result.end ≤ length bytes.now }
    ensures is { Begins bytes.now start result }
{
    let first = bytes[start];
    if matches!(first, b'/' | b'.' | b'#') {
        return rare_symbol_at(bytes, start);
    }
    Piece {
        kind: PieceKind::Token(TokenKind::Symbol(first)),
        end: start + 1,
    }
}

// What begins with a character that may begin a comment, a number, or what is for a preprocessor.
#[inline(never)]
fn rare_symbol_at(bytes: &[u8], start: usize) -> Piece
    requires within { start < length bytes.now }
    requires begins { begins_with_one blanks (drop start bytes.now) ≡ false }
    ensures later { start < result.end }
    ensures within { result.end ≤ length bytes.now }
    ensures is { Begins bytes.now start result }
{
    let text = behind(bytes, start);
    if text.starts_with(b"//") {
        return line_comment_at(bytes, start);
    }
    if text.starts_with(b"/*") {
        return comment_at(bytes, start);
    }
    if bytes[start] == b'#' {
        return hash_at(bytes, start);
    }
    match text {
        [b'.', b'0'..=b'9', ..] => number_at(bytes, start),
        _ => Piece {
            kind: PieceKind::Token(TokenKind::Symbol(bytes[start])),
            end: start + 1,
        },
    }
}

// What `#` begins here: a line or a name that is for a preprocessor, else it stands for itself.
fn hash_at(bytes: &[u8], start: usize) -> Piece
    requires within { start < length bytes.now }
    requires begins { begins_with_one blanks (drop start bytes.now) ≡ false }
    requires hash { slice_index bytes.now start ≡ 35 }
    ensures later { start < result.end }
    ensures within { result.end ≤ length bytes.now }
    ensures is { Begins bytes.now start result }
{
    if start + 1 < bytes.len() && bytes[start + 1] == b'{' {
        return placeholder_at(bytes, start);
    }
    if begins_line(bytes, start) {
        return hash_line_at(bytes, start);
    }
    Piece {
        kind: PieceKind::Token(TokenKind::Symbol(b'#')),
        end: start + 1,
    }
}

// The line that `#` begins here, which is for a preprocessor.
fn hash_line_at(bytes: &[u8], start: usize) -> Piece
    requires within { start < length bytes.now }
    requires hash { slice_index bytes.now start ≡ 35 }
    ensures later { start < result.end }
    ensures within { result.end ≤ length bytes.now }
    ensures is { Begins bytes.now start result }
{
    let left = behind_line(behind(bytes, start + 1));
    Piece {
        kind: PieceKind::HashLine,
        end: bytes.len() - left.len(),
    }
}

// The name that `#{` begins here, with its `}` where that stands behind it.
fn placeholder_at(bytes: &[u8], start: usize) -> Piece
    requires within { start + 1 < length bytes.now }
    requires begins { begins_with_one blanks (drop start bytes.now) ≡ false }
    requires brace { slice_index bytes.now (start + 1) ≡ 123 }
    ensures later { start < result.end }
    ensures within { result.end ≤ length bytes.now }
    ensures is { Begins bytes.now start result }
{
    let end = name_end(bytes, start + 1);
    let kind = PieceKind::Placeholder;
    if end < bytes.len() && bytes[end] == b'}' {
        return Piece { kind, end: end + 1 };
    }
    Piece { kind, end }
}

// Whether only blanks of ASCII stand before this byte in its line.
fn begins_line(bytes: &[u8], start: usize) -> bool {
    let before = bytes.get(byte_order_mark_len(bytes)..start).unwrap_or(&[]);
    for byte in before.iter().rev() {
        match class_of(*byte) {
            Class::Break => return true,
            Class::Blank => {}
            _ => return false,
        }
    }
    true
}

// The comment that `//` begins here.
fn line_comment_at(bytes: &[u8], start: usize) -> Piece
    requires within { start + 2 ≤ length bytes.now }
    requires begins { starts_with nat_eq (drop start bytes.now) (codes "//") ≡ true }
    ensures later { start < result.end }
    ensures within { result.end ≤ length bytes.now }
    ensures is { Begins bytes.now start result }
{
    let left = behind_line(behind(bytes, start + 2));
    Piece {
        kind: PieceKind::Blank,
        end: bytes.len() - left.len(),
    }
}

// The comment that `/*` begins here.
fn comment_at(bytes: &[u8], start: usize) -> Piece
    requires within { start + 2 ≤ length bytes.now }
    requires begins { starts_with nat_eq (drop start bytes.now) (codes "/*") ≡ true }
    ensures later { start < result.end }
    ensures within { result.end ≤ length bytes.now }
    ensures is { Begins bytes.now start result }
{
    match behind_comment(behind(bytes, start + 2)) {
        Some(left) => Piece {
            kind: PieceKind::Blank,
            end: bytes.len() - left.len(),
        },
        None => Piece {
            kind: PieceKind::OpenComment,
            end: bytes.len(),
        },
    }
}

fn number_at(bytes: &[u8], start: usize) -> Piece
    requires within { start < length bytes.now }
    requires begins { begins_with_one blanks (drop start bytes.now) ≡ false }
    ensures later { start < result.end }
    ensures within { result.end ≤ length bytes.now }
    ensures is { Begins bytes.now start result }
{
    let left = behind_number(bytes[start], behind(bytes, start + 1));
    Piece {
        kind: PieceKind::Token(TokenKind::Number),
        end: bytes.len() - left.len(),
    }
}

// Where a name ends that begins here: letters, digits and `_`. What is no ASCII is taken for a letter.
fn name_end(bytes: &[u8], start: usize) -> usize
    requires within { start < length bytes.now }
    requires begins { begins_with_one blanks (drop start bytes.now) ≡ false }
    ensures later { start < result }
    ensures within { result ≤ length bytes.now }
    ensures no_blank { HasNoBlank bytes.now start result }
{
    for at in start + 1..bytes.len() {
        if !is_of_name(bytes, at) {
            return at;
        }
    }
    bytes.len()
}

fn is_of_name(bytes: &[u8], at: usize) -> bool
    requires { at < length bytes.now }
    ensures { IsTrue result → begins_with_one blanks (drop at bytes.now) ≡ false }
{
    match class_of(bytes[at]) {
        Class::Letter => true,
        Class::Digit => true,
        Class::Lead => wide_blank_len(behind(bytes, at)) == 0,
        Class::Symbol | Class::Blank | Class::Break => false,
    }
}

/// The bytes of the blank character at the front, if it has several; 0 where there is none (WGSL:
/// blankspace).
fn wide_blank_len(rest: &[u8]) -> usize
    ensures within { result ≤ length rest.now }
    ensures blank { 0 < result → IsCharacter rest.now (drop result rest.now) }
    ensures none { result ≡ 0 → begins_with_one wide_blanks rest.now ≡ false }
{
    if rest.starts_with(&NEXT_LINE) {
        2
    } else if rest.starts_with(&LEFT_TO_RIGHT) {
        3
    } else if rest.starts_with(&RIGHT_TO_LEFT) {
        3
    } else if rest.starts_with(&LINE_SEPARATOR) {
        3
    } else if rest.starts_with(&PARAGRAPH_SEPARATOR) {
        3
    } else {
        0
    }
}

// What is behind the line: eight bytes are passed over at a time where none of them may be of a line
// break, the others one by one.
fn behind_line(rest: &[u8]) -> &[u8]
    ensures { Line rest.now result.now }
{
    let mut left = rest;
    while let Some((word, behind)) = left.split_first_chunk::<8>() {
        if may_break(*word) {
            break;
        }
        left = behind;
    }
    from_line_break(left)
}

// The next line break, with all behind it.
fn from_line_break(rest: &[u8]) -> &[u8]
    ensures { Line rest.now result.now }
{
    let mut left = rest;
    while left.len() > 0 {
        if begins_line_break(left) {
            return left;
        }
        left = behind(left, 1);
    }
    left
}

// Whether a line break begins here: one of ASCII, the next line, or a separator of lines or of paragraphs
// (WGSL: blankspace and line breaks).
fn begins_line_break(rest: &[u8]) -> bool
    requires { 0 < length rest.now }
    ensures { result ≡ begins_line_break rest.now }
{
    if !may_begin_line_break(rest[0]) {
        return false;
    }
    begins_with_one(rest, &LINE_BREAKS)
}

// What is behind so many bytes.
fn behind(text: &[u8], count: usize) -> &[u8]
    requires { count ≤ length text.now }
    ensures { result.now ≡ drop count text.now }
{
    &text[count..]
}

fn begins_with_one(rest: &[u8], characters: &[&[u8]]) -> bool
    ensures { result ≡ list_any (λ c. starts_with nat_eq rest.now c.now) characters.now }
{
    characters
        .iter()
        .any(|character| rest.starts_with(character))
}

// What is behind the `*/` of a comment that is begun, with those inside it; `None` where it has no end.
fn behind_comment(rest: &[u8]) -> Option<&[u8]>
    ensures { IfSome result (λ left. Comment rest.now left.now) }
{
    let mut inner = 0usize;
    let mut left = rest;
    while left.len() > 0 {
        if !may_begin_mark(left[0]) {
            left = behind(left, 1);
            continue;
        }
        if left.starts_with(b"/*") {
            inner = inner.saturating_add(1);
            left = behind(left, 2);
            continue;
        }
        if !left.starts_with(b"*/") {
            left = behind(left, 1);
            continue;
        }
        if inner == 0 {
            return Some(behind(left, 2));
        }
        inner = inner.saturating_sub(1);
        left = behind(left, 2);
    }
    None
}

// Whether the beginning or the end of a comment may begin with this character.
fn may_begin_mark(byte: u8) -> bool
    ensures { IsTrue result ↔ ((byte ≡ 47) ⊎ (byte ≡ 42)) }
{
    matches!(byte, b'/' | b'*')
}

// What is behind a number that begins with this character, with its point, its exponent and its suffix.
fn behind_number(first: u8, rest: &[u8]) -> &[u8]
    ensures within { length result.now ≤ length rest.now }
    ensures no_blank { HasNoBlank rest.now 0 (length rest.now - length result.now) }
{
    let is_hexadecimal = first == b'0' && matches!(rest, [b'x' | b'X', ..]);
    let mut may_sign = false;
    for (at, byte) in rest.iter().enumerate() {
        if !is_of_number(*byte, may_sign) {
            return behind(rest, at);
        }
        may_sign = match *byte {
            b'e' | b'E' => !is_hexadecimal,
            b'p' | b'P' => is_hexadecimal,
            _ => false,
        };
    }
    &[]
}

fn is_of_number(byte: u8, may_sign: bool) -> bool
    ensures { IsTrue result → may_begin_blank byte ≡ false }
{
    if byte.is_ascii_alphanumeric() {
        return true;
    }
    match byte {
        b'.' => true,
        b'+' => may_sign,
        b'-' => may_sign,
        _ => false,
    }
}
