//! A place among the tokens of a source, from which on it is read.

ghost use Rattle.std.specs.Prelude.{◌≡◌, ◌<◌, ◌≤◌, ◌↔◌, length, IsTrue, IfOk, IfErr, OnOk, if◌then◌else◌};
ghost use Rattle.wgsl_source.specs.Brackets.{brackets_behind, wanting_end};
ghost use Rattle.wgsl_source.specs.Cursors.{token_of, text_of, next_token, advanced, fault_of, IsEquality};
ghost use Rattle.wgsl_source.specs.Declarations.{IsBehind, IsNamed};
ghost use Rattle.wgsl_source.specs.Cuts.{is_boundary, cut_of};
ghost use Rattle.std.specs.Str.{IsCharBoundary};

use crate::fault::{Expected, Fault, Reason};
use crate::token::{Token, TokenKind};
use std::alloc::AllocError;

/// Why reading stops.
#[derive(Clone, Copy)]
pub(crate) enum Stop {
    Memory,
    /// A fault at the token of this number.
    At(usize, Reason),
}

impl From<AllocError> for Stop {
    fn from(_: AllocError) -> Self {
        Stop::Memory
    }
}

/// The tokens of a text from one on.
#[derive(Clone, Copy)]
pub(crate) struct Cursor<'a> {
    text: &'a str,
    tokens: &'a [Token],
    at: usize,
}

impl<'a> Cursor<'a> {
    pub(crate) fn new(text: &'a str, tokens: &'a [Token]) -> Self
        ensures text { result.text.now ≡ text.entry.now }
        ensures tokens { result.tokens.now ≡ tokens.entry.now }
        ensures first { result.at ≡ 0 }
    {
        Cursor {
            text,
            tokens,
            at: 0,
        }
    }

    /// The same tokens from this one on.
    pub(crate) fn moved_to(self, at: usize) -> Self
        ensures { result ≡ record self.entry { at = at } }
    {
        Cursor {
            text: self.text,
            tokens: self.tokens,
            at,
        }
    }

    /// How many tokens are read.
    pub(crate) fn position(&self) -> usize
        ensures { result ≡ self.now.at }
    {
        self.at
    }

    /// How many tokens there are.
    pub(crate) fn len(&self) -> usize
        ensures { result ≡ length self.now.tokens.now }
    {
        self.tokens.len()
    }

    /// The token of this number; behind the last one there is none but the end of the text.
    pub(crate) fn token_at(&self, at: usize) -> Token
        ensures { result ≡ token_of self.now at }
    {
        match self.tokens.get(at) {
            Some(token) => *token,
            None => Token {
                kind: TokenKind::End,
                start: self.text.len(),
                end: self.text.len(),
            },
        }
    }

    /// The text of the token of this number.
    pub(crate) fn text_at(&self, at: usize) -> &'a str
        ensures { result.now ≡ text_of self.now at }
    {
        let token = self.token_at(at);
        cut(self.text, token.start, token.end)
    }

    /// The token that is read next.
    pub(crate) fn token(&self) -> Token
        ensures { result ≡ next_token self.now }
    {
        self.token_at(self.at)
    }

    /// The one behind it.
    pub(crate) fn second(&self) -> Token
        ensures { result ≡ next_token (advanced self.now) }
    {
        self.token_at(self.at.saturating_add(1))
    }

    /// The text of the token that is read next.
    pub(crate) fn word(&self) -> &'a str
        ensures { result.now ≡ text_of self.now self.now.at }
    {
        self.text_at(self.at)
    }

    pub(crate) fn is_at_end(&self) -> bool
        ensures { IsTrue result ↔ ((next_token self.now).kind ≡ TokenKind.End) }
    {
        self.token().kind == TokenKind::End
    }

    /// Goes on by a token, and answers its number.
    pub(crate) fn advance(&mut self) -> usize
        ensures number { result ≡ self.old.at }
        ensures after { self.new ≡ advanced self.old }
        ensures later { IsBehind self.old self.new }
    {
        let at = self.at;
        self.at = at.saturating_add(1);
        at
    }

    /// Goes on if this character is next, and says whether it was.
    pub(crate) fn take_symbol(&mut self, symbol: u8) -> bool
        ensures found { IsTrue result ↔ ((next_token self.old).kind ≡ TokenKind.Symbol symbol) }
        ensures after { self.new ≡ (if result then advanced self.old else self.old) }
        ensures later { IsBehind self.old self.new }
    {
        let is_next = self.token().is_symbol(symbol);
        if is_next {
            self.advance();
        }
        is_next
    }

    /// Goes on by this character, or stops where another stands.
    pub(crate) fn expect_symbol(&mut self, symbol: u8) -> Result<(), Stop>
        ensures ok { OnOk result (((next_token self.old).kind ≡ TokenKind.Symbol symbol) × (self.new ≡ advanced self.old)) }
        ensures err { IfErr result (λ stop. (stop ≡ Stop.At self.old.at (Reason.Expected (Expected.Symbol symbol))) × (self.new ≡ self.old)) }
        ensures later { IsBehind self.old self.new }
    {
        if self.take_symbol(symbol) {
            Ok(())
        } else {
            Err(self.expected(Expected::Symbol(char::from(symbol))))
        }
    }

    /// Goes on by `=`, or stops where another token stands, as `==` is.
    pub(crate) fn expect_assignment(&mut self) -> Result<(), Stop>
        ensures ok { OnOk result (((next_token self.old).kind ≡ TokenKind.Symbol 61) × ((¬ IsEquality self.old) × (self.new ≡ advanced self.old))) }
        ensures err { IfErr result (λ stop. (stop ≡ Stop.At self.old.at (Reason.Expected (Expected.Symbol 61))) × (self.new ≡ self.old)) }
        ensures later { IsBehind self.old self.new }
    {
        if self.is_at_equality() {
            return Err(self.expected(Expected::Symbol('=')));
        }
        self.expect_symbol(b'=')
    }

    // Whether two `=` are next without a blank between them.
    fn is_at_equality(&self) -> bool
        ensures { IsTrue result ↔ IsEquality self.now }
    {
        let token = self.token();
        token.is_symbol(b'=') && self.second().is_joined(token, b'=')
    }

    /// Goes on by a name, and answers its number.
    pub(crate) fn expect_name(&mut self) -> Result<usize, Stop>
        ensures ok { IfOk result (λ name. (name ≡ self.old.at) × ((next_token self.old).kind ≡ TokenKind.Name) × (self.new ≡ advanced self.old)) }
        ensures named { IfOk result (λ name. IsNamed self.old self.new name) }
        ensures err { IfErr result (λ stop. (stop ≡ Stop.At self.old.at (Reason.Expected Expected.Name)) × (self.new ≡ self.old)) }
        ensures later { IsBehind self.old self.new }
    {
        if self.token().kind == TokenKind::Name {
            Ok(self.advance())
        } else {
            Err(self.expected(Expected::Name))
        }
    }

    /// Something else is expected where the next token stands.
    pub(crate) fn expected(&self, expected: Expected) -> Stop
        ensures { result ≡ Stop.At self.now.at (Reason.Expected expected) }
    {
        Stop::At(self.at, Reason::Expected(expected))
    }

    /// A fault at the token of this number.
    pub(crate) fn fault_at(&self, at: usize, reason: Reason) -> Fault
        ensures { result ≡ fault_of self.now at reason }
    {
        let token = self.token_at(at);
        Fault {
            start: token.start,
            end: token.end,
            reason,
        }
    }

    /// Goes on behind the bracket that closes the one that is next.
    pub(crate) fn skip_group(&mut self)
        ensures later { IsBehind self.old self.new }
    {
        let _ = self.pass_group(Brackets::NONE);
    }

    // Goes on in the same way, and counts the brackets beside these.
    fn pass_group(&mut self, before: Brackets) -> Brackets
        ensures later { IsBehind self.old self.new }
    {
        let left = self.tokens.get(self.at..).unwrap_or(&[]);
        let (taken, brackets) = group_len(left, before);
        self.at = self.at.saturating_add(taken);
        brackets
    }

    /// Goes on behind the bracket that closes the one that is next, and answers which bracket is then
    /// without its end, if one is.
    pub(crate) fn skip_counted_group(&mut self) -> Option<char>
        ensures later { IsBehind self.old self.new }
    {
        self.pass_group(Brackets::NONE).open_end()
    }

    /// Goes on behind the next `;` outside of brackets, or behind the braces that come before it, and
    /// answers which bracket is then without its end, if one is.
    pub(crate) fn skip_declaration(&mut self) -> Option<char>
        ensures later { IsBehind self.old self.new }
    {
        let mut brackets = Brackets::NONE;
        for _ in self.at..self.tokens.len() {
            match self.token().kind {
                TokenKind::Symbol(b'{') => {
                    brackets = self.pass_group(brackets);
                    break;
                }
                TokenKind::Symbol(b'(' | b'[') => brackets = self.pass_group(brackets),
                TokenKind::Symbol(b';') => {
                    self.advance();
                    break;
                }
                TokenKind::Symbol(symbol) => {
                    brackets = brackets.behind(symbol);
                    self.advance();
                }
                _ => {
                    self.advance();
                }
            }
        }
        brackets.open_end()
    }
}

/// How many brackets of each sort have no end yet.
#[derive(Clone, Copy)]
struct Brackets {
    braces: usize,
    round: usize,
    square: usize,
}

impl Brackets {
    const NONE: Brackets = Brackets {
        braces: 0,
        round: 0,
        square: 0,
    };

    // What they are behind a character.
    fn behind(self, symbol: u8) -> Brackets
        ensures { result ≡ brackets_behind self symbol }
    {
        let Brackets {
            mut braces,
            mut round,
            mut square,
        } = self;
        match symbol {
            b'{' => braces = braces.saturating_add(1),
            b'}' => braces = braces.saturating_sub(1),
            b'(' => round = round.saturating_add(1),
            b')' => round = round.saturating_sub(1),
            b'[' => square = square.saturating_add(1),
            b']' => square = square.saturating_sub(1),
            _ => {}
        }
        Brackets {
            braces,
            round,
            square,
        }
    }

    // The end that is wanting.
    fn open_end(self) -> Option<char>
        ensures { result ≡ wanting_end self }
    {
        if self.braces > 0 {
            Some('}')
        } else if self.round > 0 {
            Some(')')
        } else if self.square > 0 {
            Some(']')
        } else {
            None
        }
    }
}

// How many tokens the group has that a bracket begins, to the bracket of any sort that closes it; all
// where none does. Also counts the brackets beside those before it.
fn group_len(tokens: &[Token], before: Brackets) -> (usize, Brackets)
    ensures some { 0 < length tokens.now → 0 < result.0 }
    ensures within { result.0 ≤ length tokens.now }
{
    let mut brackets = before;
    let mut depth = 0usize;
    for (at, token) in tokens.iter().enumerate() {
        let TokenKind::Symbol(symbol) = token.kind else {
            continue;
        };
        match symbol {
            b'(' | b'[' | b'{' => depth = depth.saturating_add(1),
            b')' | b']' | b'}' => depth = depth.saturating_sub(1),
            _ => continue,
        }
        brackets = brackets.behind(symbol);
        if depth == 0 {
            return (at.saturating_add(1), brackets);
        }
    }
    (tokens.len(), brackets)
}

// The bytes from one to another of a text; none where these are no text of their own.
fn cut(text: &str, start: usize, end: usize) -> &str
    ensures { result.now ≡ cut_of text.now start end }
{
    if start <= end && begins_at(text, start) && begins_at(text, end) {
        &text[start..end]
    } else {
        ""
    }
}

// Whether a character begins at this byte, or the text ends there.
fn begins_at(text: &str, at: usize) -> bool
    ensures test { IsTrue result ↔ IsCharBoundary text.now at }
    ensures value { result ≡ is_boundary text.now at }
{
    text.is_char_boundary(at)
}
