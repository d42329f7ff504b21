//! Where brackets close, found in the plain way: token by token, with a walk of its own for each sort of bracket. What
//! the library finds is compared with it.

use crate::tests::plain_tokens::{Token, TokenKind};

/// The tokens of a source, and the one that is read next.
#[derive(Clone, Copy)]
pub(super) struct Walk<'a> {
    text: &'a str,
    tokens: &'a [Token],
    at: usize,
}

impl<'a> Walk<'a> {
    pub(super) fn new(text: &'a str, tokens: &'a [Token]) -> Walk<'a> {
        Walk {
            text,
            tokens,
            at: 0,
        }
    }

    /// The number of the token that is read next.
    pub(super) fn position(&self) -> usize {
        self.at
    }

    /// How many tokens there are.
    pub(super) fn len(&self) -> usize {
        self.tokens.len()
    }

    /// Whether no token is left.
    pub(super) fn is_at_end(&self) -> bool {
        self.at >= self.tokens.len()
    }

    /// The token of this number; behind the last one there is none but the end of the text.
    pub(super) fn token_at(&self, at: usize) -> Token {
        match self.tokens.get(at) {
            Some(token) => *token,
            None => Token {
                kind: TokenKind::End,
                start: self.text.len(),
                end: self.text.len(),
            },
        }
    }

    /// The text of the token of this number.
    pub(super) fn word_at(&self, at: usize) -> &'a str {
        let token = self.token_at(at);
        self.text.get(token.start..token.end).unwrap_or("")
    }

    /// What the token is that is read next.
    pub(super) fn kind(&self) -> TokenKind {
        self.token_at(self.at).kind
    }

    pub(super) fn advance(&mut self) {
        self.at = self.at.saturating_add(1);
    }

    /// Goes on behind the bracket that closes the one that is next; by one token where none is.
    pub(super) fn skip_group(&mut self) {
        let mut depth = 0usize;
        for _ in self.at..self.tokens.len() {
            match self.kind() {
                TokenKind::Symbol(b'(' | b'[' | b'{') => depth = depth.saturating_add(1),
                TokenKind::Symbol(b')' | b']' | b'}') => depth = depth.saturating_sub(1),
                _ => {}
            }
            self.advance();
            if depth == 0 {
                return;
            }
        }
    }

    /// Goes on behind the next `;` outside of brackets, or behind the braces that come before it.
    pub(super) fn skip_declaration(&mut self) {
        for _ in self.at..self.tokens.len() {
            match self.kind() {
                TokenKind::Symbol(b'{') => {
                    self.skip_group();
                    return;
                }
                TokenKind::Symbol(b'(' | b'[') => self.skip_group(),
                TokenKind::Symbol(b';') => {
                    self.advance();
                    return;
                }
                _ => self.advance(),
            }
        }
    }

    /// The end that is wanting of a bracket that stands between the token of this number and here.
    pub(super) fn open_end(&self, start: usize) -> Option<char> {
        for (open, close) in [(b'{', b'}'), (b'(', b')'), (b'[', b']')] {
            if self.is_open(start, open, close) {
                return Some(char::from(close));
            }
        }
        None
    }

    /// Whether such a bracket has no end that stands between the token of this number and here.
    pub(super) fn is_open(&self, start: usize, open: u8, close: u8) -> bool {
        let mut depth = 0usize;
        for at in start..self.at {
            let kind = self.token_at(at).kind;
            if kind == TokenKind::Symbol(open) {
                depth = depth.saturating_add(1);
            } else if kind == TokenKind::Symbol(close) {
                depth = depth.saturating_sub(1);
            }
        }
        depth > 0
    }
}
