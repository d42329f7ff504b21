//! Which `<` and `>` of a source are the brackets of a template list (WGSL: template lists).

ghost use Rattle.std.specs.Prelude.{◌≡◌, map};
ghost use Rattle.wgsl_source.specs.Readings.{extent_in};

use crate::token::{Token, TokenKind};
use std::alloc::{AllocError, Global};

/// A `<` behind a name, which begins a template list if the `>` to it is found.
#[derive(Clone, Copy)]
struct Candidate {
    token: usize,
    /// How many brackets it stands in.
    depth: usize,
}

/// What was met so far.
#[derive(Drop)]
struct Discovery {
    candidates: Vec<Candidate>,
    depth: usize,
}

/// Marks the `<` and the `>` of each template list.
pub(crate) fn mark_templates(alloc: Global, tokens: &mut Vec<Token>) -> Result<(), AllocError>
    ensures extents { map extent_in tokens.new.items ≡ map extent_in tokens.old.items }
{
    let mut discovery = Discovery {
        candidates: Vec::new(alloc),
        depth: 0,
    };
    let mut is_taken = false;
    for at in 0..tokens.len() {
        is_taken = !is_taken && discovery.take(tokens, at)?;
    }
    Ok(())
}

/// The character that stands right behind a token; 0 where none does.
fn symbol_behind(tokens: &Vec<Token>, at: usize) -> u8 {
    let (Some(token), Some(second)) = (tokens.get(at), tokens.get(at.saturating_add(1))) else {
        return 0;
    };
    match second.kind {
        TokenKind::Symbol(symbol) if second.start == token.end => symbol,
        _ => 0,
    }
}

impl Discovery {
    /// Looks at one token, and says whether the one behind it is done with, too.
    fn take(&mut self, tokens: &mut Vec<Token>, at: usize) -> Result<bool, AllocError>
        ensures extents { map extent_in tokens.new.items ≡ map extent_in tokens.old.items }
    {
        let Some(TokenKind::Symbol(symbol)) = tokens.get(at).map(|token| token.kind) else {
            return Ok(false);
        };
        match symbol {
            b'(' | b'[' => self.depth = self.depth.saturating_add(1),
            b')' | b']' => {
                self.forget_inner();
                self.depth = self.depth.saturating_sub(1);
            }
            b';' | b'{' | b':' => self.forget_all(),
            b'<' | b'>' | b'=' | b'!' | b'&' | b'|' => {
                return self.take_operator(tokens, at, symbol);
            }
            _ => {}
        }
        Ok(false)
    }

    // Looks at a character that may be the first of two.
    fn take_operator(
        &mut self,
        tokens: &mut Vec<Token>,
        at: usize,
        symbol: u8,
    ) -> Result<bool, AllocError>
        ensures extents { map extent_in tokens.new.items ≡ map extent_in tokens.old.items }
    {
        let behind = symbol_behind(tokens, at);
        match (symbol, behind) {
            (b'<', b'<' | b'=') => return Ok(true),
            (b'<', _) => self.begin(tokens, at)?,
            (b'>', _) => return Ok(self.end(tokens, at, behind)),
            (b'=' | b'!', b'=') => return Ok(true),
            (b'=', _) => self.forget_all(),
            (b'&', b'&') | (b'|', b'|') => {
                self.forget_inner();
                return Ok(true);
            }
            _ => {}
        }
        Ok(false)
    }

    fn begin(&mut self, tokens: &Vec<Token>, at: usize) -> Result<(), AllocError> {
        let is_behind_name = match at.checked_sub(1) {
            Some(before) => tokens
                .get(before)
                .is_some_and(|token| token.kind == TokenKind::Name),
            None => false,
        };
        if is_behind_name {
            let depth = self.depth;
            self.candidates.push(Candidate { token: at, depth })?;
        }
        Ok(())
    }

    // A `>` ends the list of the last candidate, if that stands in the same brackets. Says whether a `=` behind it
    // is done with, too.
    fn end(&mut self, tokens: &mut Vec<Token>, at: usize, behind: u8) -> bool
        ensures extents { map extent_in tokens.new.items ≡ map extent_in tokens.old.items }
    {
        match self.candidates.last() {
            Some(candidate) if candidate.depth == self.depth => {
                let start = candidate.token;
                let _ = self.candidates.pop();
                set_kind(tokens, start, TokenKind::TemplateStart);
                set_kind(tokens, at, TokenKind::TemplateEnd);
                false
            }
            _ => behind == b'=',
        }
    }

    // No candidate in the innermost brackets has its `>` outside of them.
    fn forget_inner(&mut self) {
        let depth = self.depth;
        let kept = self
            .candidates
            .partition_point(|candidate| candidate.depth < depth);
        self.candidates.truncate(kept);
    }

    fn forget_all(&mut self) {
        self.candidates.clear();
        self.depth = 0;
    }
}

fn set_kind(tokens: &mut Vec<Token>, at: usize, kind: TokenKind)
    ensures extents { map extent_in tokens.new.items ≡ map extent_in tokens.old.items }
{
    if let Some(token) = tokens.get_mut(at) {
        token.kind = kind;
    }
}
