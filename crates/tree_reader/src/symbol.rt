//! The symbols of the grammar.

ghost use Rattle.std.specs.Prelude.{◌≡◌, [], ◌∷◌};
ghost use Rattle.tree_reader.specs.Symbols.{mark_symbol, word_symbol, symbol, first_symbol};

use ipdl_base::{Token, TokenKind};

/// A symbol of the grammar: the part of a token that decides how a file may continue, or the end of
/// the tokens.
#[derive(Clone, Copy, PartialEq, Eq)]
pub enum Symbol {
    /// The end of the tokens.
    End,
    /// A word that is not reserved.
    Word,
    /// A quoted text.
    Quoted,
    /// A reserved word that has no symbol of its own.
    OtherWord,
    /// A mark that has no symbol of its own.
    OtherMark,
    /// `::`
    Colons,
    /// `{`
    OpenBrace,
    /// `}`
    CloseBrace,
    /// `(`
    OpenParen,
    /// `)`
    CloseParen,
    /// `[`
    OpenBracket,
    /// `]`
    CloseBracket,
    /// `<`
    Less,
    /// `>`
    Greater,
    /// `;`
    Semicolon,
    /// `,`
    Comma,
    /// `:`
    Colon,
    /// `=`
    Equals,
    /// `?`
    Question,
    /// `async`
    Async,
    /// `both`
    Both,
    /// `child`
    Child,
    /// `class`
    Class,
    /// `from`
    From,
    /// `include`
    Include,
    /// `manager`
    Manager,
    /// `manages`
    Manages,
    /// `namespace`
    Namespace,
    /// `nullable`
    Nullable,
    /// `or`
    Or,
    /// `parent`
    Parent,
    /// `protocol`
    Protocol,
    /// `returns`
    Returns,
    /// `struct`
    Struct,
    /// `sync`
    Sync,
    /// `union`
    Union,
    /// `UniquePtr`
    UniquePtr,
    /// `using`
    Using,
}

/// Returns the symbol of a mark of one byte.
#[tactic(auto, unfolding(crate::specs::Symbols::mark_symbol))]
fn byte_symbol(mark: u8) -> Symbol
    ensures { result ≡ mark_symbol (mark ∷ []) }
{
    match mark {
        b'{' => Symbol::OpenBrace,
        b'}' => Symbol::CloseBrace,
        b'(' => Symbol::OpenParen,
        b')' => Symbol::CloseParen,
        b'[' => Symbol::OpenBracket,
        b']' => Symbol::CloseBracket,
        b'<' => Symbol::Less,
        b'>' => Symbol::Greater,
        b';' => Symbol::Semicolon,
        b',' => Symbol::Comma,
        b':' => Symbol::Colon,
        b'=' => Symbol::Equals,
        b'?' => Symbol::Question,
        _ => Symbol::OtherMark,
    }
}

/// Returns the symbol of a mark.
#[tactic(auto, unfolding(crate::specs::Symbols::mark_symbol))]
fn mark_symbol(text: &[u8]) -> Symbol
    ensures { result ≡ mark_symbol text.now }
{
    match text {
        [b':', b':'] => Symbol::Colons,
        [mark] => byte_symbol(*mark),
        _ => Symbol::OtherMark,
    }
}

/// Returns the symbol of a reserved word.
#[tactic(auto, unfolding(crate::specs::Symbols::word_symbol))]
fn word_symbol(text: &[u8]) -> Symbol
    ensures { result ≡ word_symbol text.now }
{
    match text.first() {
        Some(b'a') if text == b"async".as_slice() => Symbol::Async,
        Some(b'b') if text == b"both".as_slice() => Symbol::Both,
        Some(b'c') if text == b"child".as_slice() => Symbol::Child,
        Some(b'c') if text == b"class".as_slice() => Symbol::Class,
        Some(b'f') if text == b"from".as_slice() => Symbol::From,
        Some(b'i') if text == b"include".as_slice() => Symbol::Include,
        Some(b'm') if text == b"manager".as_slice() => Symbol::Manager,
        Some(b'm') if text == b"manages".as_slice() => Symbol::Manages,
        Some(b'n') if text == b"namespace".as_slice() => Symbol::Namespace,
        Some(b'n') if text == b"nullable".as_slice() => Symbol::Nullable,
        Some(b'o') if text == b"or".as_slice() => Symbol::Or,
        Some(b'p') if text == b"parent".as_slice() => Symbol::Parent,
        Some(b'p') if text == b"protocol".as_slice() => Symbol::Protocol,
        Some(b'r') if text == b"returns".as_slice() => Symbol::Returns,
        Some(b's') if text == b"struct".as_slice() => Symbol::Struct,
        Some(b's') if text == b"sync".as_slice() => Symbol::Sync,
        Some(b'u') if text == b"union".as_slice() => Symbol::Union,
        Some(b'u') if text == b"using".as_slice() => Symbol::Using,
        Some(b'U') if text == b"UniquePtr".as_slice() => Symbol::UniquePtr,
        _ => Symbol::OtherWord,
    }
}

/// Returns the symbol of a token.
pub(crate) fn token_symbol(token: &Token) -> Symbol
    ensures { result ≡ symbol token.now }
{
    match token.kind() {
        TokenKind::Word => Symbol::Word,
        TokenKind::Quoted => Symbol::Quoted,
        TokenKind::Reserved => word_symbol(token.text()),
        TokenKind::Mark => mark_symbol(token.text()),
    }
}

/// Returns the symbol of the first token, or that of the end.
pub(crate) fn first_symbol(tokens: &[Token]) -> Symbol
    ensures { result ≡ first_symbol tokens.now }
{
    match tokens.first() {
        Some(token) => token_symbol(token),
        None => Symbol::End,
    }
}
