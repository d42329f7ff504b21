//! What a module of functions, attributes and `;` declares, and all that is wrong in it, found in the plain way: the
//! declarations are read, and what has a fault is passed over, by the walks over brackets that `plain_groups` has. What
//! the library finds is compared with it.

use crate::tests::plain_groups::Walk;
use crate::tests::plain_tokens::{Lexed, TokenKind};
use std::alloc::{AllocError, Global};
use wgsl_source::{Expected, Fault, Reason};

/// The functions of a module, and what is wrong in it.
#[derive(Drop)]
pub(super) struct Module {
    /// The tokens that name them.
    pub(super) functions: Vec<usize>,
    pub(super) faults: Vec<Fault>,
}

/// Reads the tokens of a text, in which nothing else is declared.
pub(super) fn module_of(alloc: Global, text: &str, lexed: &Lexed) -> Result<Module, AllocError> {
    let mut functions = Vec::new(alloc);
    let mut found = Vec::new(alloc);
    let mut walk = Walk::new(text, lexed.tokens.as_slice());
    for _ in 0..walk.len() {
        if walk.is_at_end() {
            break;
        }
        let start = walk.position();
        match walk.declaration() {
            Ok(Some(name)) => functions.push(name)?,
            Ok(None) => {}
            Err(fault) => {
                found.push(fault)?;
                walk.recover(start);
            }
        }
    }
    add_keywords(&mut found, walk, functions.as_slice())?;
    add_duplicates(&mut found, walk, functions.as_slice())?;
    let faults = sorted(alloc, lexed.faults.as_slice(), found.as_slice())?;
    Ok(Module { functions, faults })
}

/// The faults as they stand in the source, those of the tokens before those of what is read.
pub(super) fn sorted(
    alloc: Global,
    of_tokens: &[Fault],
    others: &[Fault],
) -> Result<Vec<Fault>, AllocError> {
    let mut faults = Vec::new(alloc);
    for fault in of_tokens {
        faults.push(*fault)?;
    }
    for fault in others {
        faults.push(*fault)?;
    }
    faults.sort_by_key(|fault| fault.start)?;
    Ok(faults)
}

// A function is told whose name is a keyword: of those in these sources there is one.
fn add_keywords(
    faults: &mut Vec<Fault>,
    walk: Walk<'_>,
    functions: &[usize],
) -> Result<(), AllocError> {
    for name in functions {
        if walk.word_at(*name) == "fn" {
            faults.push(walk.fault_at(*name, Reason::Keyword))?;
        }
    }
    Ok(())
}

// A function is told that has the name of one before it.
fn add_duplicates(
    faults: &mut Vec<Fault>,
    walk: Walk<'_>,
    functions: &[usize],
) -> Result<(), AllocError> {
    for (number, name) in functions.iter().enumerate() {
        let word = walk.word_at(*name);
        if functions[..number]
            .iter()
            .any(|earlier| walk.word_at(*earlier) == word)
        {
            faults.push(walk.fault_at(*name, Reason::DuplicateName))?;
        }
    }
    Ok(())
}

impl<'a> Walk<'a> {
    fn fault_at(&self, at: usize, reason: Reason) -> Fault {
        let token = self.token_at(at);
        Fault {
            start: token.start,
            end: token.end,
            reason,
        }
    }

    fn expected(&self, expected: Expected) -> Fault {
        self.fault_at(self.position(), Reason::Expected(expected))
    }

    fn is_next(&self, symbol: u8) -> bool {
        self.kind() == TokenKind::Symbol(symbol)
    }

    fn expect_name(&mut self) -> Result<usize, Fault> {
        if self.kind() != TokenKind::Name {
            return Err(self.expected(Expected::Name));
        }
        let name = self.position();
        self.advance();
        Ok(name)
    }

    // Reads a function, whose name is answered, or a `;`, which has no attributes.
    fn declaration(&mut self) -> Result<Option<usize>, Fault> {
        let start = self.position();
        if let Err(fault) = self.attributes() {
            self.skip_to_declaration();
            return Err(fault);
        }
        match self.word_at(self.position()) {
            "fn" => Ok(Some(self.function()?)),
            ";" if self.position() == start => {
                self.advance();
                Ok(None)
            }
            _ => Err(self.expected(Expected::Declaration)),
        }
    }

    fn attributes(&mut self) -> Result<(), Fault> {
        for _ in self.position()..self.len() {
            if !self.is_next(b'@') {
                break;
            }
            self.advance();
            let name = self.expect_name()?;
            if self.is_next(b'(') {
                self.skip_group();
                self.check_closed(name)?;
            }
        }
        Ok(())
    }

    fn function(&mut self) -> Result<usize, Fault> {
        self.advance();
        let name = self.expect_name()?;
        let start = self.position();
        self.skip_declaration();
        self.check_closed(start)?;
        Ok(name)
    }

    // The brackets are closed that stand behind the token of this number.
    fn check_closed(&self, start: usize) -> Result<(), Fault> {
        match self.open_end(start) {
            Some(end) => Err(self.expected(Expected::Symbol(end))),
            None => Ok(()),
        }
    }

    fn begins_declaration(&self) -> bool {
        let second = self.token_at(self.position().saturating_add(1));
        self.word_at(self.position()) == "fn" && second.kind != TokenKind::Symbol(b':')
    }

    // Goes on from a fault in attributes: behind the word that begins their declaration, where one does.
    fn skip_to_declaration(&mut self) {
        for _ in self.position()..self.len() {
            match self.kind() {
                TokenKind::Symbol(b';' | b'{') => return,
                TokenKind::Symbol(b'(' | b'[') => self.skip_group(),
                _ => {
                    let is_found = self.begins_declaration();
                    self.advance();
                    if is_found {
                        return;
                    }
                }
            }
        }
    }

    // Goes on from a fault in a declaration that began at the token of this number: behind its braces or its `;`, or to
    // a declaration that begins before these.
    fn recover(&mut self, start: usize) {
        if self.position() == start {
            self.advance();
        }
        if self.is_open(start, b'{', b'}') {
            self.leave_braces();
        } else {
            self.leave_declaration();
        }
    }

    fn leave_braces(&mut self) {
        for _ in self.position()..self.len() {
            match self.kind() {
                TokenKind::Symbol(b'}') => {
                    self.advance();
                    return;
                }
                TokenKind::Symbol(b'{') => self.skip_group(),
                _ => {
                    if self.stays_at_declaration() {
                        return;
                    }
                }
            }
        }
    }

    fn leave_declaration(&mut self) {
        for _ in self.position()..self.len() {
            match self.kind() {
                TokenKind::Symbol(b'{') => {
                    self.skip_group();
                    return;
                }
                TokenKind::Symbol(b'(' | b'[') => self.skip_group(),
                TokenKind::Symbol(b';') => {
                    self.advance();
                    return;
                }
                _ => {
                    if self.stays_at_declaration() {
                        return;
                    }
                }
            }
        }
    }

    // Stays where a declaration begins with its attributes, and says whether one does; goes on behind anything else.
    fn stays_at_declaration(&mut self) -> bool {
        let before = *self;
        self.skip_attributes();
        if self.begins_declaration() {
            *self = before;
            return true;
        }
        if self.position() == before.position() {
            self.advance();
        }
        false
    }

    fn skip_attributes(&mut self) {
        for _ in self.position()..self.len() {
            if !self.is_next(b'@') {
                return;
            }
            self.advance();
            self.advance();
            if self.is_next(b'(') {
                self.skip_group();
            }
        }
    }
}
