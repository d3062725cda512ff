//! The tokens that are left, and what takes single tokens from them.

ghost use Rattle.std.specs.Prelude.{◌≡◌, ◌≢◌, ◌<◌, IfOk, OnOk, IfErr, true, false, [], ◌∷◌, length};
ghost use Rattle.ipdl_syntax.specs.Parts.{identifier};
ghost use Rattle.tree_reader.specs.declared.refusal.TreeRefusal.TheVariants.{Left, NoMemory};
ghost use Rattle.tree_reader.specs.declared.symbol.Symbol.TheVariants.{End, Word};
ghost use Rattle.tree_reader.specs.Machine.{take, any_word};
ghost use Rattle.tree_reader.specs.Reading.{Turns, Stops, IsNext, IsNextAt, IsNextText, IsAnyWord};
ghost use Rattle.tree_reader.specs.Spelling.{spelled};
ghost use Rattle.tree_reader.specs.Symbols.{first_symbol};

use crate::refusal::TreeRefusal;
use crate::symbol::{Symbol, first_symbol};
use ipdl_base::{Name, Place, Token, TokenKind};
use ipdl_syntax::NameAt;
use std::alloc::{AllocError, Global};
use std::marker::Model;

/// The most items of a list for which room is reserved before the first.
const MOST_ROOM: usize = 16;

/// Returns a name with the text of a token.
fn name_of(alloc: Global, token: &Token) -> Result<Name, AllocError>
    ensures { IfOk result (λ name. name ≡ token.now.text) }
{
    Name::from_slice(alloc, token.text())
}

/// The tokens that are left.
#[derive(Drop)]
pub(crate) struct TokenReader<'a, 't> {
    rest: &'a [Token<'t>],
    /// The symbol of the first token that is left, or that of the end.
    next: Symbol,
}

impl<'a, 't> Model for TokenReader<'a, 't> {
    ghost use Rattle.std.specs.Prelude.{◌≡◌, List};
    ghost use Rattle.ipdl_base.specs.declared.token.Token.{Token};
    ghost use Rattle.tree_reader.specs.Symbols.{first_symbol};

    ghost Value = { List Token };

    ghost view = { λ r. r.rest.now };

    ghost invariant = { λ r. r.next ≡ first_symbol r.rest.now };
}

impl<'a, 't> TokenReader<'a, 't> {
    /// Begins to read these tokens.
    #[inline(always)]
    pub(crate) fn new(tokens: &'a [Token<'t>]) -> TokenReader<'a, 't>
        ensures { result ≡ tokens.now }
    {
        TokenReader {
            rest: tokens,
            next: first_symbol(tokens),
        }
    }

    /// Returns the symbol of the next token, or that of the end.
    pub(crate) fn symbol(&self) -> Symbol
        ensures { result ≡ first_symbol self.now }
    {
        self.next
    }

    /// Returns a capacity hint for a list: `more`, and one for each mark `between` before the next
    /// mark that ends the list. No contract depends on it.
    pub(crate) fn listed(&self, more: usize, between: u8, end: u8) -> usize {
        let mut count = more;
        for token in self.rest {
            match token.text() {
                [mark] if *mark == end => return count,
                [mark] if *mark == between && count < MOST_ROOM => count += 1,
                _ => {}
            }
        }
        count
    }

    /// Returns the refusal of the next token, or of the end.
    pub(crate) fn refusal(&self) -> TreeRefusal
        ensures { result ≡ Left (length self.now) }
    {
        TreeRefusal::Left(self.rest.len())
    }

    /// Takes the next token, and returns its place.
    pub(crate) fn pass(&mut self) -> Place
        requires { first_symbol self.old ≢ End }
        ensures { IsNextAt (first_symbol self.old) result self.old self.new }
    {
        let (first, rest) = self.rest.split_at(1);
        let token = &first[0];
        let place = token.place();
        *self = TokenReader::new(rest);
        place
    }

    /// Takes the next token if it has this symbol, and returns whether it did.
    pub(crate) fn skips(&mut self, symbol: Symbol) -> bool
        requires { symbol ≢ End }
        ensures yes { result ≡ true → IsNext symbol self.old self.new }
        ensures not { result ≡ false → (first_symbol self.old ≢ symbol) × (self.new ≡ self.old) }
    {
        if self.symbol() != symbol {
            return false;
        }
        self.pass();
        true
    }

    /// Takes a token with this symbol.
    pub(crate) fn take(&mut self, symbol: Symbol) -> Result<(), TreeRefusal>
        requires { symbol ≢ End }
        ensures read { OnOk result (spelled symbol self.old self.new) }
        ensures turns { OnOk result (Turns (take symbol ∷ []) self.old [] self.new) }
        ensures stops { IfErr result (Stops (take symbol ∷ []) self.old) }
        ensures less { OnOk result (length self.new < length self.old) }
    {
        if self.skips(symbol) {
            Ok(())
        } else {
            Err(self.refusal())
        }
    }

    /// Takes the next token, and returns its text and its place.
    pub(crate) fn text(&mut self, alloc: Global) -> Result<NameAt, AllocError>
        requires { first_symbol self.old ≢ End }
        ensures { IfOk result (λ n. IsNextText (first_symbol self.old) n.name n.place self.old self.new) }
    {
        let (first, rest) = self.rest.split_at(1);
        let token = &first[0];
        let name = name_of(alloc, token)?;
        let place = token.place();
        *self = TokenReader::new(rest);
        Ok(NameAt { name, place })
    }

    /// Takes a word that is not reserved.
    pub(crate) fn word(&mut self, alloc: Global) -> Result<NameAt, TreeRefusal>
        ensures read { IfOk result (λ n. identifier n.name n.place self.old self.new) }
        ensures turns { OnOk result (Turns (take Word ∷ []) self.old [] self.new) }
        ensures stops { IfErr result (Stops (take Word ∷ []) self.old) }
        ensures less { OnOk result (length self.new < length self.old) }
    {
        if self.symbol() != Symbol::Word {
            return Err(self.refusal());
        }
        Ok(self.text(alloc)?)
    }

    /// Takes any word or a quoted text.
    pub(crate) fn any_word(&mut self, alloc: Global) -> Result<Name, TreeRefusal>
        ensures read { IfOk result (λ name. IsAnyWord name self.old self.new) }
        ensures turns { OnOk result (Turns (any_word ∷ []) self.old [] self.new) }
        ensures stops { IfErr result (Stops (any_word ∷ []) self.old) }
        ensures less { OnOk result (length self.new < length self.old) }
    {
        match self.rest.split_first() {
            Some((first, rest)) => {
                if first.kind() == TokenKind::Mark {
                    return Err(self.refusal());
                }
                let name = name_of(alloc, first)?;
                *self = TokenReader::new(rest);
                Ok(name)
            }
            None => Err(self.refusal()),
        }
    }
}
