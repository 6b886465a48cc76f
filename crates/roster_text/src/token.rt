//! The tokens of a text.

ghost use Rattle.std.specs.Prelude.{◌≡◌, ◌+◌, ◌-◌, ◌<◌, ◌≤◌, All, length, IfOk, IfErr, drop};
ghost use Rattle.std.specs.List.{prefix_len};
ghost use Rattle.roster_bundle.specs.Token.{is_separator, is_mark, is_word_byte, end_from, line_at, line_at_end, tokens_from, tokens_of, IsBetweenTokens, IsWithin, AreTokensOf};

use crate::fault::TextFault;
use crate::starts::token_count;
use roster_bundle::Token;
use std::alloc::Global;

#[tactic(auto, unfolding(roster_bundle::specs::Token::is_separator))]
fn is_separator(byte: u8) -> bool
    ensures { result ≡ is_separator byte }
{
    matches!(byte, b' ' | b'\t' | b'\n' | b'\r')
}

#[tactic(auto, unfolding(roster_bundle::specs::Token::is_mark))]
pub(crate) fn is_mark(byte: u8) -> bool
    ensures { result ≡ is_mark byte }
{
    matches!(byte, b'(' | b')' | b',' | b'=')
}

// Letters and digits come first, since this runs at each byte of a word. From `-` on the only byte that isn't
// a word byte is `=`.
#[tactic(auto, unfolding(roster_bundle::specs::Token::is_word_byte, roster_bundle::specs::Token::is_separator, roster_bundle::specs::Token::is_mark))]
pub(crate) fn is_word_byte(byte: u8) -> bool
    ensures { result ≡ is_word_byte byte }
{
    if byte >= b'-' {
        return byte != b'=';
    }
    !matches!(byte, b' ' | b'\t' | b'\n' | b'\r' | b'(' | b')' | b',')
}

// The first position from `at` on without a separator, or the end, with its line.
#[tactic(auto, using(crate::proofs::TokenRules::line_rules))]
fn next_start(text: &[u8], mut at: usize, mut line: usize) -> (usize, usize)
    requires in_text { at ≤ length text.now }
    requires on_line { line ≡ line_at text.now at }
    ensures position { result.0 ≡ at + prefix_len is_separator (drop at text.now) }
    ensures line { result.1 ≡ line_at text.now result.0 }
{
    while at < text.len() && is_separator(text[at]) {
        if text[at] == b'\n' {
            line += 1;
        }
        at += 1;
    }
    (at, line)
}

// The first position from `at` on without a word byte, or the end.
fn word_end(text: &[u8], mut at: usize) -> usize
    requires { at ≤ length text.now }
    ensures { result ≡ at + prefix_len is_word_byte (drop at text.now) }
{
    while at < text.len() && is_word_byte(text[at]) {
        at += 1;
    }
    at
}

// The end of the token that begins at `start`.
#[tactic(auto, unfolding(roster_bundle::specs::Token::end_from))]
fn token_end(text: &[u8], start: usize) -> usize
    requires { start < length text.now }
    ensures { result ≡ end_from text.now start }
{
    if is_mark(text[start]) {
        start + 1
    } else {
        word_end(text, start)
    }
}

// Iterates over the tokens of a text.
#[derive(Drop)]
struct Scanner<'a> {
    text: &'a [u8],
    at: usize,
    line: usize,
    ghost in_text: { at ≤ length text.now },
    ghost on_line: { line ≡ line_at text.now at },
    ghost between_tokens: { IsBetweenTokens text.now at },
}

impl<'a> Scanner<'a> {
    fn new(text: &'a [u8]) -> Self
        ensures text { result.text.now ≡ text.now }
        ensures at { result.at ≡ 0 }
    {
        Scanner {
            text,
            at: 0,
            line: 1,
        }
    }
}

impl<'a> Iterator for Scanner<'a> {
    ghost use Rattle.std.specs.Iterator.{YieldsFirst, item_count};

    type Item = Token;

    ghost next_gives = { YieldsFirst (λ s. tokens_from s.text.now s.at) };

    ghost remaining = { item_count (λ s. tokens_from s.text.now s.at) };

    fn next(&mut self) -> Option<Token> {
        let (start, line) = next_start(self.text, self.at, self.line);
        self.at = start;
        self.line = line;
        if start == self.text.len() {
            return None;
        }
        self.at = token_end(self.text, start);
        Some(Token {
            start,
            end: self.at,
            line,
        })
    }
}

/// Cuts a text into its tokens. Blanks, tabs, CR and LF separate them; each of `(`, `)`, `,` and `=` is a
/// token of its own, and every other longest sequence of bytes is a word. The only fault is `Memory`.
pub fn tokens(alloc: Global, text: &[u8]) -> Result<Vec<Token>, TextFault>
    ensures exact { IfOk result (λ ts. ts.items ≡ tokens_of text.now) }
    ensures facts { IfOk result (λ ts. AreTokensOf text.now ts.items) }
    ensures within { IfOk result (λ ts. All (IsWithin (length text.now)) ts.items) }
    ensures only_memory { IfErr result (λ e. e ≡ TextFault.Memory) }
{
    let mut kept = Vec::with_capacity(alloc, token_count(text))?;
    for token in Scanner::new(text) {
        kept.push(token)?;
    }
    Ok(kept)
}

/// The line on which a text ends, from 1.
pub(crate) fn line_at_end(text: &[u8]) -> usize
    ensures { result ≡ line_at_end text.now }
{
    1 + text.iter().filter(|byte| **byte == b'\n').count()
}
