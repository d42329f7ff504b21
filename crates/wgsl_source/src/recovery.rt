//! Where reading goes on behind a fault.

use crate::cursor::Cursor;
use crate::token::TokenKind;

impl<'a> Cursor<'a> {
    /// Whether this word begins a declaration, whose attributes stand before it. A member that is
    /// named so begins none.
    pub(crate) fn begins_declaration(&self) -> bool {
        is_declaration_word(self.word()) && !self.second().is_symbol(b':')
    }

    /// Goes on from a fault in attributes: behind the word that begins their declaration, where one
    /// does.
    pub(crate) fn skip_to_declaration(&mut self) {
        for _ in self.position()..self.len() {
            match self.token().kind {
                TokenKind::Symbol(b';' | b'{') => return,
                TokenKind::Symbol(b'(' | b'[') => self.skip_group(),
                _ => {
                    let is_found = self.begins_declaration();
                    self.advance();
                    if is_found {
                        return;
                    }
                }
            }
        }
    }

    /// Goes on from a fault in a declaration that began at the token of this number: behind its
    /// braces or its `;`, or to a declaration that begins before these.
    pub(crate) fn recover(&mut self, start: usize) {
        if self.position() == start {
            self.advance();
        }
        if self.is_open(start, b'{', b'}') {
            self.leave_braces();
        } else {
            self.leave_declaration();
        }
    }

    /// Whether such a bracket has no end that stands between the token of this number and here.
    pub(crate) fn is_open(&self, start: usize, open: u8, close: u8) -> bool {
        let mut depth = 0usize;
        for at in start..self.position() {
            let token = self.token_at(at);
            if token.is_symbol(open) {
                depth = depth.saturating_add(1);
            } else if token.is_symbol(close) {
                depth = depth.saturating_sub(1);
            }
        }
        depth > 0
    }

    fn leave_braces(&mut self) {
        for _ in self.position()..self.len() {
            match self.token().kind {
                TokenKind::Symbol(b'}') => {
                    self.advance();
                    return;
                }
                TokenKind::Symbol(b'{') => self.skip_group(),
                _ => {
                    if self.stays_at_declaration() {
                        return;
                    }
                }
            }
        }
    }

    fn leave_declaration(&mut self) {
        for _ in self.position()..self.len() {
            match self.token().kind {
                TokenKind::Symbol(b'{') => {
                    self.skip_group();
                    return;
                }
                TokenKind::Symbol(b'(' | b'[') => self.skip_group(),
                TokenKind::Symbol(b';') => {
                    self.advance();
                    return;
                }
                _ => {
                    if self.stays_at_declaration() {
                        return;
                    }
                }
            }
        }
    }

    // Stays where a declaration begins with its attributes, and says whether one does; goes on
    // behind anything else.
    fn stays_at_declaration(&mut self) -> bool {
        let before = *self;
        self.skip_attributes();
        if self.begins_declaration() {
            *self = before;
            return true;
        }
        if self.position() == before.position() {
            self.advance();
        }
        false
    }

    fn skip_attributes(&mut self) {
        for _ in self.position()..self.len() {
            if !self.take_symbol(b'@') {
                return;
            }
            self.advance();
            if self.token().is_symbol(b'(') {
                self.skip_group();
            }
        }
    }
}

fn is_declaration_word(word: &str) -> bool {
    matches!(
        word,
        "struct" | "alias" | "const" | "override" | "var" | "fn" | "const_assert"
    )
}
