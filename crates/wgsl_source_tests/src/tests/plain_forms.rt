//! The plain form of a source: other text in the same places, which has the same kinds of tokens.

use crate::tests::plain_tokens::{Lexed, Token, TokenKind};
use std::alloc::{AllocError, Global};

/// The tokens of a text, of so many bytes, with each name made of `_`, each number of 1, behind its point where it
/// begins with one, and each blank and comment of spaces.
pub(super) fn plain_form(alloc: Global, text: &str, lexed: &Lexed) -> Result<String, AllocError> {
    let mut form = String::new(alloc);
    for token in &lexed.tokens {
        fill(&mut form, ' ', token.start)?;
        form.push(first_of(text, *token))?;
        fill(&mut form, rest_of(token.kind), token.end)?;
    }
    fill(&mut form, ' ', text.len())?;
    Ok(form)
}

// Adds the character, which is ASCII, until there are so many bytes.
fn fill(form: &mut String, character: char, end: usize) -> Result<(), AllocError> {
    for _ in form.len()..end {
        form.push(character)?;
    }
    Ok(())
}

fn first_of(text: &str, token: Token) -> char {
    match token.kind {
        TokenKind::Symbol(symbol) => char::from(symbol),
        TokenKind::Number if text.as_bytes().get(token.start) == Some(&b'.') => '.',
        kind => rest_of(kind),
    }
}

fn rest_of(kind: TokenKind) -> char {
    match kind {
        TokenKind::Name => '_',
        TokenKind::Number => '1',
        TokenKind::Symbol(_) | TokenKind::End => ' ',
    }
}
