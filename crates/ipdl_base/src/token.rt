//! Tokens.
ghost use Rattle.std.specs.Prelude.{◌≡◌};

use crate::finding::Place;
use crate::items::Items;
use std::marker::Model;

/// What a token is (docs/tokens.md).
#[derive(Clone, Copy, Debug, PartialEq, Eq)]
pub enum TokenKind {
    /// A word that the language does not reserve.
    Word,
    /// A word that the language reserves.
    Reserved,
    /// A quoted text.
    Quoted,
    /// One of the marks, such as `::` or `{`.
    Mark,
}

/// A token of a text, from which it borrows its bytes. Contracts see them as a list.
#[derive(Debug, Drop)]
pub struct Token<'t> {
    text: &'t [u8],
    place: Place,
    kind: TokenKind,
}

impl<'t> Model for Token<'t> {
    ghost use Rattle.ipdl_base.specs.TokenView.{TokenView};

    ghost Value = { TokenView };

    ghost view = { λ t. record { kind = t.kind; text = t.text.now; place = t.place } };
}

impl<'t> Token<'t> {
    /// Creates the token of this kind with these bytes at this place.
    pub fn new(kind: TokenKind, text: &'t [u8], place: Place) -> Token<'t>
        ensures kind { result.kind ≡ kind }
        ensures text { result.text ≡ text.now }
        ensures place { result.place ≡ place }
    {
        Token { text, place, kind }
    }

    /// Returns the kind of the token.
    pub fn kind(&self) -> TokenKind
        ensures { result ≡ self.now.kind }
    {
        self.kind
    }

    /// Returns the bytes of the token as they are in the text, including the quotes of a quoted text.
    pub fn text(&self) -> &'t [u8]
        ensures { result.now ≡ self.now.text }
    {
        self.text
    }

    /// Returns the place of the first byte.
    pub fn place(&self) -> Place
        ensures { result ≡ self.now.place }
    {
        self.place
    }
}

/// A list of tokens of a text.
pub type Tokens<'t> = Items<Token<'t>>;
