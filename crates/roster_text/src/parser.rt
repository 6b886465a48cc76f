//! Reading tokens from left to right: one token, a given number of items, or lines up to the next section.

ghost use Rattle.std.specs.Prelude.{◌≡◌, ◌≤◌, ◌<◌, List, [], length, codes, Result, IfOk, Option, Some, None, option_map, drop, min};
ghost use Rattle.std.specs.Char.{digit_value, is_ascii_digit};
ghost use Rattle.std.specs.List.{list_all};
ghost use Rattle.std.specs.Str.Parse.{digits_value};
ghost use Rattle.roster_text.specs.Grammar.{is_number, is_name};
ghost use Rattle.roster_text.specs.Reading.{Read, Reads, begins_section, begins_with, first_of, day_at, day_of, key_at, listed_at, name_at, names_at, number_at, optional_at, section_at, small_at, times_at, until_at, value_at, word_at};
ghost use Rattle.roster_bundle.specs.Token.{Seen};

use crate::fault::{Keyword, What};
use crate::token::is_mark;
use roster_bundle::{Day, Items, Listed, Number, Token};
use std::alloc::{AllocError, AllocFailed, Global};
use std::marker::Model;

/// Why the grammar doesn't go on at a token, or at the end.
#[derive(Clone, Copy)]
pub(crate) enum Refusal {
    /// Something else is due there.
    Due(What),
    /// A number is above its limit.
    OutOfRange,
}

/// Why reading stopped.
#[derive(Drop)]
pub(crate) enum Stop {
    Memory,
    Refused(Refusal),
}

impl From<AllocError> for Stop {
    ghost use Rattle.roster_text.specs.declared.parser.Stop.TheVariants.{Memory};

    ghost from_gives = { λ _ e. e ≡ Memory };

    fn from(_e: AllocError) -> Stop {
        Stop::Memory
    }
}

impl<T: Drop> From<AllocFailed<T>> for Stop {
    ghost use Rattle.roster_text.specs.declared.parser.Stop.TheVariants.{Memory};

    ghost from_gives = { λ _ e. e ≡ Memory };

    fn from(_e: AllocFailed<T>) -> Stop {
        Stop::Memory
    }
}

/// The tokens that are left, each with its text. After a refusal the refused token is the first of them.
#[derive(Drop)]
pub(crate) struct Parser<'a> {
    alloc: Global,
    source: &'a [u8],
    tokens: &'a [Token],
}

impl<'a> Model for Parser<'a> {
    ghost use Rattle.std.specs.Prelude.{List, All, length};
    ghost use Rattle.roster_bundle.specs.Token.{Seen, IsWithin, all_seen};

    ghost Value = { List Seen };

    ghost view = { λ p. all_seen p.source.now p.tokens.now };

    ghost invariant = { λ p. All (IsWithin (length p.source.now)) p.tokens.now };
}

/// What can be read from the tokens that are left.
pub(crate) trait Parse: Sized + Drop {
    /// What reading gives on a list of tokens.
    ghost read: { List Seen → Read Self };

    fn parse(parser: &mut Parser<'_>) -> Result<Self, Stop>
        ensures { Reads result parser.new (read parser.old) };
}

impl<'a> Parser<'a> {
    ghost use Rattle.roster_bundle.specs.Token.{IsWithin, all_seen};
    ghost use Rattle.std.specs.Prelude.{All};

    pub(crate) fn new(alloc: Global, source: &'a [u8], tokens: &'a [Token]) -> Parser<'a>
        requires { All (IsWithin (length source.now)) tokens.now }
        ensures { result ≡ all_seen source.now tokens.now }
    {
        Parser {
            alloc,
            source,
            tokens,
        }
    }

    /// The next token with its text, if one is left.
    fn next(&self) -> Option<(Token, &'a [u8])>
        ensures { option_map (λ t. record { token = t.0; text = t.1.now }) result ≡ first_of
            self.now }
    {
        let token = *self.tokens.first()?;
        Some((token, &self.source[token.start..token.end]))
    }

    /// The line of the next token, or None at the end.
    pub(crate) fn line(&self) -> Option<usize>
        ensures { result ≡ option_map (λ t. t.token.line) (first_of self.now) }
    {
        match self.tokens {
            [] => None,
            [token, ..] => Some(token.line),
        }
    }

    /// Skips the next token.
    fn skip(&mut self)
        requires { 0 < length self.old }
        ensures { self.new ≡ drop 1 self.old }
    {
        self.tokens = &self.tokens[1..];
    }

    /// Takes the next token if it is this text; `due` is the word for what is expected.
    pub(crate) fn word(&mut self, due: What, text: &[u8]) -> Result<(), Stop>
        ensures { Reads result self.new (word_at due text.now self.old) }
    {
        match self.next() {
            Some((_, found)) if found == text => {
                self.skip();
                Ok(())
            }
            _ => Err(Stop::Refused(Refusal::Due(due))),
        }
    }

    pub(crate) fn key(&mut self, keyword: Keyword) -> Result<(), Stop>
        ensures { Reads result self.new (key_at keyword self.old) }
    {
        self.word(What::Keyword(keyword), keyword.text().as_bytes())
    }

    pub(crate) fn equals(&mut self) -> Result<(), Stop>
        ensures { Reads result self.new (word_at What.Equals (codes "=") self.old) }
    {
        self.word(What::Equals, b"=")
    }

    pub(crate) fn name(&mut self) -> Result<Token, Stop>
        ensures { Reads result self.new (name_at self.old) }
    {
        match self.next() {
            Some((token, text)) if is_name(text) => {
                self.skip();
                Ok(token)
            }
            _ => Err(Stop::Refused(Refusal::Due(What::Name))),
        }
    }

    /// A number from 0 to the limit.
    pub(crate) fn number(&mut self, limit: u32) -> Result<Number, Stop>
        requires { limit < BEYOND }
        ensures reads { Reads result self.new (number_at limit self.old) }
        ensures within { IfOk result (λ n. n.value ≤ limit) }
    {
        let Some((token, text)) = self.next() else {
            return Err(Stop::Refused(Refusal::Due(What::Number)));
        };
        if !is_number(text) {
            return Err(Stop::Refused(Refusal::Due(What::Number)));
        }
        let value = number_of(text);
        if value > limit {
            return Err(Stop::Refused(Refusal::OutOfRange));
        }
        self.skip();
        Ok(Number { token, value })
    }

    /// A number from 0 to the limit, without its token.
    pub(crate) fn value(&mut self, limit: u16) -> Result<u16, Stop>
        ensures { Reads result self.new (value_at limit self.old) }
    {
        let number = self.number(u32::from(limit))?;
        Ok(number.value as u16)
    }

    /// A number from 0 to 999.
    pub(crate) fn small(&mut self) -> Result<u16, Stop>
        ensures { Reads result self.new (small_at self.old) }
    {
        self.value(MAX_SMALL)
    }

    pub(crate) fn day(&mut self) -> Result<Day, Stop>
        ensures { Reads result self.new (day_at self.old) }
    {
        let Some((_, text)) = self.next() else {
            return Err(Stop::Refused(Refusal::Due(What::Day)));
        };
        let Some(day) = day_of(text) else {
            return Err(Stop::Refused(Refusal::Due(What::Day)));
        };
        self.skip();
        Ok(day)
    }

    /// Whether the next two tokens are the keyword and `=`.
    fn begins_section(&self, keyword: Keyword) -> bool
        ensures { result ≡ begins_section keyword self.now }
    {
        match self.tokens {
            [_, second, ..] => {
                self.begins_with(keyword)
                    && &self.source[second.start..second.end] == b"=".as_slice()
            }
            _ => false,
        }
    }

    /// The given number of items, one after the other.
    pub(crate) fn times<T: Parse>(&mut self, count: usize) -> Result<Items<T>, Stop>
        ensures { Reads result self.new (times_at T.read count self.old) }
    {
        let mut items = Vec::with_capacity(self.alloc, count.min(self.tokens.len()))?;
        for _ in 0..count {
            items.push(T::parse(self)?)?;
        }
        Ok(Items::from_vec(items))
    }

    /// A count, and as many items.
    #[tactic(auto, unfolding(crate::specs::Reading::listed_at))]
    pub(crate) fn listed<T: Parse>(&mut self) -> Result<Listed<T>, Stop>
        ensures { Reads result self.new (listed_at T.read self.old) }
    {
        let count = self.number(MAX_COUNT)?;
        let items = self.times(count.value as usize)?;
        Ok(Listed {
            count: count.token,
            items,
        })
    }

    /// A keyword, `=`, a count, and as many items.
    #[tactic(auto, unfolding(crate::specs::Reading::section_at))]
    pub(crate) fn section<T: Parse>(&mut self, keyword: Keyword) -> Result<Listed<T>, Stop>
        ensures { Reads result self.new (section_at keyword T.read self.old) }
    {
        self.key(keyword)?;
        self.equals()?;
        self.listed()
    }

    /// Whether the next token is the keyword.
    fn begins_with(&self, keyword: Keyword) -> bool
        ensures { result ≡ begins_with keyword self.now }
    {
        match self.next() {
            Some((_, text)) => text == keyword.text().as_bytes(),
            None => false,
        }
    }

    /// A section, if its keyword is next.
    #[tactic(auto, unfolding(crate::specs::Reading::optional_at))]
    pub(crate) fn optional_section<T: Parse>(
        &mut self,
        keyword: Keyword,
    ) -> Result<Option<Listed<T>>, Stop>
        ensures { Reads result self.new (optional_at keyword T.read self.old) }
    {
        if !self.begins_with(keyword) {
            return Ok(None);
        }
        let section = self.section(keyword)?;
        Ok(Some(section))
    }

    /// A count of names, and the names.
    #[tactic(auto, unfolding(crate::specs::Reading::names_at))]
    pub(crate) fn names(&mut self) -> Result<Items<Token>, Stop>
        ensures { Reads result self.new (names_at self.old) }
    {
        let count = self.number(MAX_COUNT)?;
        self.times(count.value as usize)
    }

    /// Lines up to the keyword and `=` of the next section, and these two. Each line takes at least one
    /// token, so there are at most as many lines as tokens.
    pub(crate) fn until<T: Parse>(&mut self, keyword: Keyword) -> Result<Items<T>, Stop>
        ensures { Reads result self.new (until_at T.read keyword self.old) }
    {
        let tries = self.tokens.len() + 1;
        let mut items = Vec::new(self.alloc);
        for _ in 0..tries {
            if self.begins_section(keyword) {
                self.skip();
                self.skip();
                return Ok(Items::from_vec(items));
            }
            items.push(T::parse(self)?)?;
        }
        // (not reached, since each line took a token)
        Err(Stop::Refused(Refusal::Due(What::Name)))
    }
}

impl Parse for Token {
    ghost read = { name_at };

    fn parse(parser: &mut Parser<'_>) -> Result<Token, Stop> {
        parser.name()
    }
}

/// The greatest number in pairs, contracts, history lines and weeks.
pub(crate) const MAX_SMALL: u16 = 999;

/// The greatest count of items.
pub(crate) const MAX_COUNT: u32 = 99_999;

/// A number above every limit.
const BEYOND: u32 = 1_000_000;

/// Whether a text is a name: a name is any token that isn't a mark.
fn is_name(text: &[u8]) -> bool
    ensures { result ≡ is_name text.now }
{
    match text {
        [] => false,
        [first, ..] => !is_mark(*first),
    }
}

/// Whether a text has only digits.
fn is_number(text: &[u8]) -> bool
    ensures { result ≡ is_number text.now }
{
    is_name(text) && are_digits(text)
}

fn are_digits(text: &[u8]) -> bool
    ensures { result ≡ list_all is_ascii_digit text.now }
{
    text.iter().all(|byte| byte.is_ascii_digit())
}

/// The number that the digits spell, or a number above every limit.
fn number_of(text: &[u8]) -> u32
    ensures { result ≡ min (digits_value 10 text.now) BEYOND }
{
    let mut value = 0;
    for byte in text {
        value = (value * 10 + digit_value(*byte)).min(BEYOND);
    }
    value
}

/// The value of a digit, or a number up to 36 for any other byte.
fn digit_value(byte: u8) -> u32
    ensures value { result ≡ digit_value byte }
    ensures small { result ≤ 36 }
{
    char::from(byte).to_digit(36).unwrap_or(36)
}

/// The day that a text names, in either spelling.
fn day_of(text: &[u8]) -> Option<Day>
    ensures { result ≡ day_of text.now }
{
    Day::ALL.iter().copied().find(|day| text == day.short().as_bytes()
        || text == day.long().as_bytes())
}
