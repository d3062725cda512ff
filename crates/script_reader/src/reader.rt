//! Reads names, marks and single values from the tokens of a line.

ghost use Rattle.std.specs.Prelude.{◌≡◌, ◌≢◌, ◌<◌, ◌≤◌, ℕ, List, [], ◌∷◌, drop, length, true, false, IfOk, IfErr, OnOk, IfSome, IfNone};
ghost use Rattle.script_reader.specs.declared.parts.Keyword.{Keyword as KeywordType};
ghost use Rattle.script_reader.specs.declared.token.ScriptToken.{ScriptToken as TokenType};
ghost use Rattle.script_reader.specs.declared.written.Atom.{Atom as AtomType};
ghost use Rattle.script_reader.specs.declared.written.Who.{Who as WhoType};
ghost use Rattle.script_reader.specs.Grammar.{name_of, who_of, atom_of, keyword_of, name, who};
ghost use Rattle.script_reader.specs.Heads.{begin_with, begin_of};
ghost use Rattle.script_reader.specs.Parts.{mark, word, single};
ghost use Rattle.script_reader.specs.Reading.{Refuses};

use crate::parts::Keyword;
use crate::stop::ReadFailure;
use crate::token::ScriptToken;
use crate::words::{atom_of, keyword_of, name_of, who_of};
use crate::written::{Atom, Who};
use ipdl_base::Name;
use std::alloc::Global;
use std::marker::Model;

/// The form of a value, by its first token.
#[derive(Clone, Copy)]
pub enum ValueForm {
    Struct,
    Array,
    /// A union: the index of its component.
    Union(u32),
    /// The content of a maybe or a `UniquePtr`.
    Held,
    /// A value of one token.
    Atom,
}

/// The rest of the tokens of a line.
#[derive(Drop)]
pub struct LineTokens<'a> {
    rest: &'a [ScriptToken],
}

impl<'a> Model for LineTokens<'a> {
    ghost use Rattle.std.specs.Prelude.{List};
    ghost use Rattle.script_reader.specs.declared.token.ScriptToken.{ScriptToken};

    ghost Value = { List ScriptToken };

    ghost view = { λ r. r.rest.now };
}

/// Returns the form of a value that begins with the token.
fn begin_with(token: &ScriptToken) -> ValueForm
    ensures { result ≡ begin_with token.now }
{
    match token {
        ScriptToken::Mark(b'{') => ValueForm::Struct,
        ScriptToken::Mark(b'[') => ValueForm::Array,
        ScriptToken::Index(index) => ValueForm::Union(*index),
        ScriptToken::Word(word) if word.as_slice() == b"some".as_slice() => ValueForm::Held,
        _ => ValueForm::Atom,
    }
}

impl<'a> LineTokens<'a> {
    /// Returns a reader of these tokens.
    pub fn new(tokens: &'a [ScriptToken]) -> LineTokens<'a>
        ensures { result ≡ tokens.now }
    {
        LineTokens { rest: tokens }
    }

    /// Returns whether no token is left.
    pub fn is_empty(&self) -> bool
        ensures yes { result ≡ true → self.now ≡ [] }
        ensures not { result ≡ false → self.now ≢ [] }
    {
        self.rest.is_empty()
    }

    /// Succeeds if no token is left.
    pub fn end(&self) -> Result<(), ReadFailure>
        ensures read { OnOk result (self.now ≡ []) }
        ensures stops { IfErr result (Refuses (self.now ≢ [])) }
    {
        if self.is_empty() {
            Ok(())
        } else {
            Err(ReadFailure::NoReading)
        }
    }

    /// Returns the form of a value that begins here.
    pub fn begin(&self) -> ValueForm
        ensures { result ≡ begin_of self.now }
    {
        match self.rest.first() {
            Some(token) => begin_with(token),
            None => ValueForm::Atom,
        }
    }

    /// Skips the next token, if there is one.
    pub fn pass(&mut self)
        ensures { self.new ≡ drop 1 self.old }
    {
        if let Some((_, rest)) = self.rest.split_first() {
            self.rest = rest;
        }
    }

    /// Reads the next token, if there is one.
    fn next(&mut self) -> Option<&'a ScriptToken>
        ensures some { IfSome result (λ token. self.old ≡ token.now ∷ self.new) }
        ensures none { IfNone result (self.old ≡ []) }
    {
        let (first, rest) = self.rest.split_first()?;
        self.rest = rest;
        Some(first)
    }

    /// Returns whether the next token is this mark.
    pub fn is_at(&self, b: u8) -> bool
        ensures yes { result ≡ true → mark b self.now (drop 1 self.now) }
        ensures not { result ≡ false → (to : List TokenType) → ¬ mark b self.now to }
    {
        match self.rest.first() {
            Some(ScriptToken::Mark(c)) => *c == b,
            _ => false,
        }
    }

    /// Skips the next token if it is this mark. Returns whether it was.
    pub fn skips(&mut self, b: u8) -> bool
        ensures yes { result ≡ true → mark b self.old self.new }
        ensures not { result ≡ false → (to : List TokenType) → ¬ mark b self.old to }
        ensures kept { result ≡ false → self.new ≡ self.old }
    {
        let is_at = self.is_at(b);
        if is_at {
            self.pass();
        }
        is_at
    }

    /// Reads this mark.
    pub fn mark(&mut self, b: u8) -> Result<(), ReadFailure>
        ensures read { OnOk result (mark b self.old self.new) }
        ensures stops { IfErr result (Refuses ((to : List TokenType) → ¬ mark b self.old to)) }
    {
        if self.skips(b) {
            Ok(())
        } else {
            Err(ReadFailure::NoReading)
        }
    }

    /// Reads a word.
    pub fn word(&mut self, alloc: Global) -> Result<Name, ReadFailure>
        ensures read { IfOk result (λ w. word w self.old self.new) }
        ensures stops { IfErr result (Refuses ((w : List ℕ) (to : List TokenType) → ¬ word w self.old to)) }
    {
        match self.next() {
            Some(ScriptToken::Word(word)) => Ok(word.copy(alloc)?),
            _ => Err(ReadFailure::NoReading),
        }
    }

    /// Reads a keyword.
    pub fn keyword(&mut self) -> Result<Keyword, ReadFailure>
        ensures read { IfOk result (λ k. single keyword_of k self.old self.new) }
        ensures stops { IfErr result (Refuses ((k : KeywordType) (to : List TokenType) → ¬ single keyword_of k self.old to)) }
    {
        let Some(token) = self.next() else {
            return Err(ReadFailure::NoReading);
        };
        match keyword_of(token) {
            Some(keyword) => Ok(keyword),
            None => Err(ReadFailure::NoReading),
        }
    }

    /// Reads a name.
    pub fn name(&mut self, alloc: Global) -> Result<Name, ReadFailure>
        ensures read { IfOk result (λ n. name n self.old self.new) }
        ensures stops { IfErr result (Refuses ((n : List ℕ) (to : List TokenType) → ¬ name n self.old to)) }
    {
        let Some(token) = self.next() else {
            return Err(ReadFailure::NoReading);
        };
        match name_of(alloc, token)? {
            Some(name) => Ok(name),
            None => Err(ReadFailure::NoReading),
        }
    }

    /// Reads a token that refers to an actor or a parameter.
    pub fn who(&mut self, alloc: Global) -> Result<Who, ReadFailure>
        ensures read { IfOk result (λ w. who w self.old self.new) }
        ensures stops { IfErr result (Refuses ((w : WhoType) (to : List TokenType) → ¬ who w self.old to)) }
    {
        let Some(token) = self.next() else {
            return Err(ReadFailure::NoReading);
        };
        match who_of(alloc, token)? {
            Some(who) => Ok(who),
            None => Err(ReadFailure::NoReading),
        }
    }

    /// Reads a value of one token.
    pub fn atom(&mut self, alloc: Global) -> Result<Atom, ReadFailure>
        ensures read { IfOk result (λ a. single atom_of a self.old self.new) }
        ensures stops { IfErr result (Refuses ((a : AtomType) (to : List TokenType) → ¬ single atom_of a self.old to)) }
    {
        let Some(token) = self.next() else {
            return Err(ReadFailure::NoReading);
        };
        match atom_of(alloc, token)? {
            Some(atom) => Ok(atom),
            None => Err(ReadFailure::NoReading),
        }
    }
}
