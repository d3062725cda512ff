//! Reads bytes, words, numbers and quoted text from a line.

ghost use Rattle.std.specs.Prelude.{◌≡◌, ◌≢◌, ◌<◌, ◌≤◌, ◌==◌, ◌+◌, ◌-◌, ◌*◌, ◌^◌, ℕ, List, [], ◌∷◌, length, drop, min, slice_index, true, false, IfOk, IfErr, OnOk, IfSome, option_copied};
ghost use Rattle.std.specs.List.{list_all, take_while, prefix_len};
ghost use Rattle.std.specs.Option.{option_map};
ghost use Rattle.ipdl_base.specs.Words.{is_word_byte};
ghost use Rattle.script_reader.specs.Reading.{Refuses};
ghost use Rattle.script_reader.specs.Tokens.{is_blank, is_digit, following, value_of, hex_at, character_at, InQuotes, IsNumber};

use crate::pieces::{character_at, hex_at, is_blank, is_digit, is_word_byte};
use crate::stop::ReadFailure;
use ipdl_base::Name;
use std::alloc::Global;
use std::marker::Model;

/// The rest of a line, in bytes.
#[derive(Drop)]
pub struct Cursor<'a> {
    rest: &'a [u8],
}

impl<'a> Model for Cursor<'a> {
    ghost use Rattle.std.specs.Prelude.{ℕ, List};

    ghost Value = { List ℕ };

    ghost view = { λ c. c.rest.now };
}

/// Returns how many digits the bytes begin with.
fn digits_len(bytes: &[u8]) -> usize
    ensures len { result ≡ prefix_len is_digit bytes.now }
    ensures within { result ≤ length bytes.now }
{
    bytes.iter().take_while(|b| is_digit(**b)).count()
}

/// Returns how many word bytes the bytes begin with.
fn word_len(bytes: &[u8]) -> usize
    ensures len { result ≡ prefix_len is_word_byte bytes.now }
    ensures within { result ≤ length bytes.now }
{
    bytes.iter().take_while(|b| is_word_byte(**b)).count()
}

/// Returns how many blank bytes the bytes begin with.
fn blanks_len(bytes: &[u8]) -> usize
    ensures len { result ≡ prefix_len is_blank bytes.now }
    ensures within { result ≤ length bytes.now }
{
    bytes.iter().take_while(|b| is_blank(**b)).count()
}

/// Returns the number that digits spell, or the limit if the number is above it.
fn value_of(digits: &[u8], limit: u128) -> u128
    requires { limit < 2 ^ 100 }
    ensures { result ≡ min (value_of digits.now) limit }
{
    let mut value = 0;
    for digit in digits {
        value = limit.min(value * 10 + u128::from(digit.saturating_sub(b'0')));
    }
    value
}

impl<'a> Cursor<'a> {
    /// Returns a cursor at the start of a line.
    pub fn new(line: &'a [u8]) -> Cursor<'a>
        ensures { result ≡ line.now }
    {
        Cursor { rest: line }
    }

    /// Returns what is left.
    pub fn rest(&self) -> &'a [u8]
        ensures { result.now ≡ self.now }
    {
        self.rest
    }

    /// Returns whether only blanks are left.
    pub fn is_blank(&self) -> bool
        ensures { result ≡ list_all is_blank self.now }
    {
        self.rest.iter().all(|b| is_blank(*b))
    }

    /// Skips this number of bytes.
    pub fn pass(&mut self, count: usize)
        requires { count ≤ length self.old }
        ensures { self.new ≡ drop count self.old }
    {
        self.rest = &self.rest[count..];
    }

    /// Skips blanks.
    pub fn pass_blanks(&mut self)
        ensures rest { self.new ≡ following is_blank self.old }
        ensures fewer { length self.new ≤ length self.old }
    {
        self.rest = self.rest.split_at(blanks_len(self.rest)).1;
    }

    /// Reads the longest prefix of bytes that a word may contain.
    pub fn word(&mut self) -> &'a [u8]
        ensures word { result.now ≡ take_while is_word_byte self.old }
        ensures rest { self.new ≡ following is_word_byte self.old }
        ensures len { length self.new + prefix_len is_word_byte self.old ≡ length self.old }
    {
        let (word, rest) = self.rest.split_at(word_len(self.rest));
        self.rest = rest;
        word
    }

    /// Reads the longest prefix of digits.
    fn digits(&mut self) -> &'a [u8]
        ensures digits { result.now ≡ take_while is_digit self.old }
        ensures rest { self.new ≡ following is_digit self.old }
        ensures len { length self.new + length result.now ≡ length self.old }
    {
        let (digits, rest) = self.rest.split_at(digits_len(self.rest));
        self.rest = rest;
        digits
    }

    /// Reads a number: the one that digits spell, or the limit if that number is above it.
    pub fn number(&mut self, limit: u128) -> Result<u128, ReadFailure>
        requires { limit < 2 ^ 100 }
        ensures read { IfOk result (λ n. IsNumber limit n self.old self.new) }
        ensures stops { IfErr result (Refuses ((n : ℕ) (to : List ℕ) → ¬ IsNumber limit n self.old to)) }
        ensures within { IfOk result (λ n. n ≤ limit) }
        ensures less { OnOk result (length self.new < length self.old) }
    {
        let digits = self.digits();
        if digits.is_empty() {
            return Err(ReadFailure::NoReading);
        }
        Ok(value_of(digits, limit))
    }

    /// Reads a quote, if one is next. Returns whether it was.
    fn quote(&mut self) -> bool
        ensures yes { result ≡ true → self.old ≡ 34 ∷ self.new }
        ensures not { result ≡ false → (to : List ℕ) → self.old ≢ 34 ∷ to }
        ensures len { result ≡ true → length self.old ≡ length self.new + 1 }
    {
        match self.rest.split_first() {
            Some((b'"', rest)) => {
                self.rest = rest;
                true
            }
            _ => false,
        }
    }

    /// Reads the bytes of a text and the quote after them.
    pub fn text(&mut self, alloc: Global) -> Result<Name, ReadFailure>
        ensures read { IfOk result (λ text. InQuotes character_at text self.old self.new) }
        ensures less { OnOk result (length self.new < length self.old) }
        ensures stops { IfErr result (Refuses ((text to : List ℕ) → ¬ InQuotes character_at text self.old to)) }
    {
        let mut bytes = Vec::new(alloc);
        let mut rest = self.rest;
        'characters: while let Some((byte, following)) = character_at(rest) {
            bytes.push(byte)?;
            rest = following;
        }
        self.rest = rest;
        if self.quote() {
            Ok(Name::from_vec(alloc, bytes)?)
        } else {
            Err(ReadFailure::NoReading)
        }
    }

    /// Reads bytes, each spelled with two hexadecimal digits, and the quote after them.
    pub fn bytes(&mut self, alloc: Global) -> Result<Name, ReadFailure>
        ensures read { IfOk result (λ bytes. InQuotes hex_at bytes self.old self.new) }
        ensures less { OnOk result (length self.new < length self.old) }
        ensures stops { IfErr result (Refuses ((bytes to : List ℕ) → ¬ InQuotes hex_at bytes self.old to)) }
    {
        let mut bytes = Vec::new(alloc);
        let mut rest = self.rest;
        'digits: while let Some((byte, following)) = hex_at(rest) {
            bytes.push(byte)?;
            rest = following;
        }
        self.rest = rest;
        if self.quote() {
            Ok(Name::from_vec(alloc, bytes)?)
        } else {
            Err(ReadFailure::NoReading)
        }
    }
}
