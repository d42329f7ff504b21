//! Reads directives (WGSL: directives).

ghost use Rattle.std.specs.Prelude.{◌≡◌, ◌≤◌, ◌<◌, false, ℕ, IsTrue, OnOk, length};
ghost use Rattle.wgsl_source.specs.Cursors.{text_of};
ghost use Rattle.wgsl_source.specs.Identifiers.{is_one_of};
ghost use Rattle.wgsl_source.specs.Pieces.{IsParted, no_parts};

use crate::cursor::{Cursor, Stop};
use crate::fault::Expected;
use crate::identifier::is_one_of;
use crate::token::TokenKind;

/// What is no part of a directive: its end, and what begins what may stand behind it.
#[rattlefmt::skip]
static NO_PARTS: [&str; 13] = [
    ";", "{", "@", "enable", "requires", "diagnostic", "struct", "alias", "const", "override",
    "var", "fn", "const_assert",
];

impl<'a> Cursor<'a> {
    /// Goes on behind the `;` of the directive whose word is next. Between the two stand names, commas, points and round
    /// brackets; where anything else does, that `;` is wanting there.
    pub(crate) fn pass_directive(&mut self) -> Result<(), Stop>
        requires { 0 < length (text_of self.old self.old.at) }
        ensures parted { OnOk result (IsParted (text_of self.old) self.old.at self.new.at) }
        ensures within { OnOk result (self.new.at ≤ length self.old.tokens.now) }
    {
        let start = self.position();
        let end = self.directive_end();
        *self = self.moved_to(end);
        if self.is_open(start, b'(', b')') {
            return Err(self.expected(Expected::Symbol(')')));
        }
        match self.word() {
            ";" => {
                let behind = end.saturating_add(1).min(self.len());
                *self = self.moved_to(behind);
                Ok(())
            }
            _ => Err(self.expected(Expected::Symbol(';'))),
        }
    }

    // The number of the first token behind the next one that is no part of a directive.
    fn directive_end(&self) -> usize
        requires { self.now.at < length self.now.tokens.now }
        ensures later { self.now.at < result }
        ensures within { result ≤ length self.now.tokens.now }
        ensures parts { (token : ℕ) → self.now.at < token → token < result → is_one_of no_parts (text_of self.now token) ≡ false }
    {
        for at in self.position() + 1..self.len() {
            if !self.is_part_of_directive(at) {
                return at;
            }
        }
        self.len()
    }

    fn is_part_of_directive(&self, at: usize) -> bool
        ensures { IsTrue result → is_one_of no_parts (text_of self.now at) ≡ false }
    {
        let word = self.text_at(at);
        if is_no_part(word) {
            return false;
        }
        self.may_be_part(at)
    }

    fn may_be_part(&self, at: usize) -> bool {
        let token = self.token_at(at);
        matches!(
            token.kind,
            TokenKind::Name | TokenKind::Symbol(b',' | b'.' | b'(' | b')')
        )
    }
}

// Whether it ends a directive, or begins what may stand behind one.
fn is_no_part(word: &str) -> bool
    ensures { result ≡ is_one_of no_parts word.now }
{
    is_one_of(&NO_PARTS, word)
}
