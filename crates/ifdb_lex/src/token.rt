// Tokens, and lists of them.
ghost use Rattle.std.specs.Prelude.{◌≡◌, ◌==◌, ◌++◌, ◌∷◌, [], length, IfOk, OnOk};

use std::alloc::{AllocError, Global};
use std::marker::Model;

/// What a token is. A token's text is its bytes in the line.
#[derive(Clone, Copy, Debug, PartialEq, Eq)]
pub enum TokenKind {
    /// A letter or `_`, then letters, digits and `_`: a name or a reserved word.
    Word,
    /// Digits, with the number that they write, at most 2^63.
    Number(u64),
    /// A text in quotes, `'` before it and `'` behind; `''` in it stands for one quote.
    Text,
    /// One of `( ) , . = < > + - * ;`.
    Symbol(u8),
    /// `<>` or `!=`.
    NotEqual,
    /// `<=`.
    AtMost,
    /// `>=`.
    AtLeast,
}

/// A token, and where it stands in its line: its bytes are those from `start` up to `end`, which isn't among them.
#[derive(Clone, Copy, Debug, PartialEq, Eq)]
pub struct Token {
    /// What it is.
    pub kind: TokenKind,
    /// Its first byte's place, counted from 0.
    pub start: usize,
    /// The place behind its last byte.
    pub end: usize,
}

/// The tokens of a line, in order. Contracts see the list of them.
#[derive(Debug, Drop)]
pub struct Tokens {
    tokens: Vec<Token>,
}

impl Model for Tokens {
    ghost use Rattle.std.specs.Prelude.{List};
    ghost use Rattle.ifdb_lex.specs.declared.token.Token.{Token};

    ghost Value = { List Token };

    ghost view = { λ t. t.tokens.items };
}

impl Tokens {
    /// No tokens, with room for so many.
    pub(crate) fn with_capacity(alloc: Global, count: usize) -> Result<Self, AllocError>
        ensures { IfOk result (λ tokens. tokens ≡ []) }
    {
        Ok(Tokens {
            tokens: Vec::with_capacity(alloc, count)?,
        })
    }

    /// Adds a token at the end.
    pub(crate) fn push(&mut self, token: Token) -> Result<(), AllocError>
        ensures { OnOk result (self.new ≡ self.old ++ token ∷ []) }
    {
        self.tokens.push(token)?;
        Ok(())
    }

    /// The tokens, in order.
    pub fn items(&self) -> &[Token]
        ensures { result.now ≡ self.now }
    {
        self.tokens.as_slice()
    }

    /// How many tokens there are.
    pub fn len(&self) -> usize
        ensures { result ≡ length self.now }
    {
        self.tokens.len()
    }

    /// Whether there are none.
    pub fn is_empty(&self) -> bool
        ensures { result ≡ (length self.now == 0) }
    {
        self.tokens.is_empty()
    }
}
