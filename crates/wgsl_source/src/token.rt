//! The tokens of a source (WGSL: tokens).

ghost use Rattle.std.specs.Prelude.{◌≡◌, ◌↔◌, IsTrue};

/// What a token is.
#[derive(Clone, Copy, Debug, PartialEq, Eq)]
pub(crate) enum TokenKind {
    /// An identifier or a keyword.
    Name,
    /// A numeric literal.
    Number,
    /// One character that is neither. An operator of two characters is two tokens without space
    /// between.
    Symbol(u8),
    /// The `<` that begins a template list.
    TemplateStart,
    /// The `>` that ends a template list.
    TemplateEnd,
    /// Behind the last token.
    End,
}

/// A token, and the bytes of the source that it has.
#[derive(Clone, Copy, Debug)]
pub(crate) struct Token {
    pub(crate) kind: TokenKind,
    pub(crate) start: usize,
    pub(crate) end: usize,
}

impl Token {
    /// Whether it is this character.
    pub(crate) fn is_symbol(&self, symbol: u8) -> bool
        ensures { IsTrue result ↔ (self.now.kind ≡ TokenKind.Symbol symbol) }
    {
        self.kind == TokenKind::Symbol(symbol)
    }

    /// Whether it is this character, and stands right behind the other token.
    pub(crate) fn is_joined(&self, before: Token, symbol: u8) -> bool
        ensures { IsTrue result ↔ ((self.now.kind ≡ TokenKind.Symbol symbol) × (before.end ≡ self.now.start)) }
    {
        self.is_symbol(symbol) && before.end == self.start
    }
}
